//! The cuts of stripes, where cover pieces begin.

ghost use Rattle.std.specs.Prelude.{◌≡◌, ℕ, ◌<◌, ◌≤◌, ◌+◌, ◌==◌, ◌&&◌, ◌||◌, length, slice_index_or, false};
ghost use Rattle.std.specs.List.{list_any};
ghost use Rattle.graph_check.specs.Pieces.{range_cuts, buf_cuts, part_cuts, pieces_of, cut_place, is_noted, noted_of, noted_pieces, IsCutTable};

use crate::tables::fills::fill_first;
use graph_mean::{Graph, Task};

// The place of an offset in a table of 16 stripes of 128 offsets.
fn cut_place(stripe: u32, offset: u32) -> usize
    requires stripe { stripe < 16 }
    requires offset { offset < 128 }
    ensures { result ≡ cut_place stripe offset }
{
    stripe as usize * 128 + offset as usize
}

fn note_cut(stripe: u32, offset: u64, cuts: &mut [bool])
    requires { length cuts.old ≡ 2048 }
    ensures { (s o : ℕ) → s < 16 → o < 128
        → slice_index_or cuts.new (cut_place s o) false
        ≡ (((stripe == s) && (offset == o)) || slice_index_or cuts.old (cut_place s o) false) }
{
    if stripe < 16 && offset < 128 {
        cuts[stripe as usize * 128 + offset as usize] = true;
    }
}

fn note_ends(stripe: u32, from: u32, count: u32, cuts: &mut [bool])
    requires { length cuts.old ≡ 2048 }
    ensures { (s o : ℕ) → s < 16 → o < 128
        → slice_index_or cuts.new (cut_place s o) false
        ≡ (range_cuts stripe from count s o || slice_index_or cuts.old (cut_place s o) false) }
{
    let from = u64::from(from);
    note_cut(stripe, from + u64::from(count), cuts);
    note_cut(stripe, from, cuts);
}

fn note_parts(task: &Task, cuts: &mut [bool])
    requires { length cuts.old ≡ 2048 }
    ensures { (s o : ℕ) → s < 16 → o < 128
        → slice_index_or cuts.new (cut_place s o) false
        ≡ (list_any (part_cuts s o) task.now.parts
        || slice_index_or cuts.old (cut_place s o) false) }
{
    for part in task.parts() {
        note_ends(part.stripe, part.from, part.count, cuts);
    }
}

fn note_bufs(graph: &Graph, cuts: &mut [bool])
    requires { length cuts.old ≡ 2048 }
    ensures { (s o : ℕ) → s < 16 → o < 128
        → slice_index_or cuts.new (cut_place s o) false
        ≡ (list_any (buf_cuts s o) graph.now.drawn.bufs
        || slice_index_or cuts.old (cut_place s o) false) }
{
    for b in 0..graph.bufs() {
        let buf = graph.buf(b);
        note_ends(buf.stripe, buf.from, buf.count, cuts);
    }
}

// Notes the cuts of the task's stripes, and no other offset of them.
fn lay_cuts(graph: &Graph, task: &Task, cuts: &mut [bool])
    requires { length cuts.old ≡ 2048 }
    ensures { IsCutTable graph.now.drawn task.now cuts.new }
{
    let _width = task.width();
    fill_first(cuts, task.stripes() as usize * 128, false);
    note_parts(task, cuts);
    note_bufs(graph, cuts);
}

/// Whether a cover piece begins at an offset of a stripe.
pub(crate) fn is_cut(cuts: &[bool], stripe: u32, offset: u32) -> bool
    requires long { length cuts.now ≡ 2048 }
    requires stripe { stripe < 16 }
    requires offset { offset < 128 }
    ensures { result ≡ is_noted cuts.now stripe offset }
{
    offset == 0 || cuts[cut_place(stripe, offset)]
}

// The number of cover pieces of a stripe.
fn count_of(task: &Task, cuts: &[bool], stripe: u32) -> u32
    requires long { length cuts.now ≡ 2048 }
    requires stripe { stripe < 16 }
    ensures count { result ≡ noted_of cuts.now stripe task.now.unit_sectors }
    ensures most { result ≤ 128 }
{
    let _width = task.width();
    let mut count = 0;
    for o in 0..task.unit_sectors() {
        if is_cut(cuts, stripe, o) {
            count += 1;
        }
    }
    count
}

fn count_pieces(task: &Task, cuts: &[bool]) -> u32
    requires { length cuts.now ≡ 2048 }
    ensures { result ≡ noted_pieces task.now cuts.now }
{
    let _width = task.width();
    let mut count = 0;
    for s in 0..task.stripes() {
        count += count_of(task, cuts, s);
    }
    count
}

/// Notes the cuts of the task's stripes, and counts the cover pieces.
pub(crate) fn find_pieces(graph: &Graph, task: &Task, cuts: &mut [bool]) -> u32
    requires { length cuts.old ≡ 2048 }
    ensures table { IsCutTable graph.now.drawn task.now cuts.new }
    ensures pieces { result ≡ pieces_of graph.now.drawn task.now }
{
    let _width = task.width();
    lay_cuts(graph, task, cuts);
    count_pieces(task, cuts)
}
