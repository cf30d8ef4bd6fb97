//! Join lines, one after another.
ghost use Rattle.std.specs.Prelude.{◌≡◌, ◌<◌, ◌≤◌, ◌+◌, Ok, Some, length, map, option_map, All, IfOk, IfErr};
ghost use Rattle.blk_plain.specs.Plain.{AreSound, spans_of};
ghost use Rattle.graph_mean.specs.Graph.{blank};
ghost use Rattle.graph_merge.specs.Form.{IsRoomy};
ghost use Rattle.raid_script.specs.Asked.{IsJoinOf, seen};
ghost use Rattle.top_bound.specs.Bound.{MayBeAsked};
ghost use Rattle.top_join.specs.Answers.{RefusesAll, RefusesOne, outcome_of};
ghost use Rattle.top_join.specs.Joining.{AreJoined, IsOver};
ghost use Rattle.top_join.specs.Steps.{IsMerged, IsLine};

use crate::fault::JoinFault;
use crate::spans::{is_before, may_join, stripe_count};
use crate::written::patches_in;
use blk_plain::{Patches, limits};
use graph_mean::Graph;
use graph_merge::{MergeFault, merge};
use graph_text::Book;
use item_list::Items;
use lay_core::Layout;
use raid_script::Join;
use std::alloc::Global;

// The codes of a join line whose graphs can't be joined.
const FORM: u8 = 10;

const ORDER: u8 = 11;

const LARGE: u8 = 12;

// Joins two graphs, or answers the code by which that is refused.
fn merge_at(a: &Graph, b: &Graph, shift: u32, out: &mut Graph) -> Result<(), u8>
    requires blank { out.old.drawn ≡ blank }
    requires rooms { IsRoomy out.old }
    ensures { IsMerged a.now.drawn b.now.drawn shift (outcome_of result out.new.drawn) }
{
    match merge(a, b, shift, out) {
        Ok(()) => Ok(()),
        Err(MergeFault::Form { .. }) => Err(FORM),
        Err(MergeFault::Large) => Err(LARGE),
    }
}

// Joins two graphs over the spans of a write of several; where these aren't two that may be joined over, nothing is done.
fn join_over<L: Layout>(
    layout: &L,
    a: &Graph,
    b: &Graph,
    patches: &Patches,
    out: &mut Graph,
) -> Result<(), u8>
    requires sound { AreSound patches.now }
    requires some { All (λ s. 1 ≤ s.count) (spans_of patches.now) }
    requires blank { out.old.drawn ≡ blank }
    requires rooms { IsRoomy out.old }
    ensures { IsOver (L.shape layout.now) a.now.drawn b.now.drawn (Some (spans_of patches.now))
        (outcome_of result out.new.drawn) }
{
    let used = &patches.list[..patches.used as usize];
    if used.len() != 2 {
        return Ok(());
    }
    if !may_join(layout, patches) {
        return Ok(());
    }
    let one = used[0].span;
    let other = used[1].span;
    if !is_before(layout, one, other) {
        return Err(ORDER);
    }
    merge_at(a, b, stripe_count(layout, one), out)
}

// The graph of a join line, whose item names it by this number.
fn join_one<L: Layout>(
    alloc: Global,
    layout: &L,
    book: &Book,
    clients: &[Items],
    join: Join,
    graph: u32,
) -> Result<Graph, JoinFault>
    requires join { IsJoinOf (length book.now) join }
    requires asked { All (λ items. All MayBeAsked (map seen items.items)) clients.now }
    ensures joined { IfOk result (λ g. IsLine (L.shape layout.now) book.now
        (map (λ items. map seen items.items) clients.now) graph join (Ok g.drawn)) }
    ensures refused { IfErr result (RefusesOne join.line (IsLine (L.shape layout.now) book.now
        (map (λ items. map seen items.items) clients.now) graph join)) }
{
    let mut out = Graph::with_room(alloc, limits::NODES, limits::BUFFERS, limits::EDGES)?;
    let Some(patches) = patches_in(clients, graph) else {
        return Ok(out);
    };
    let a = book.graph(join.first);
    let b = book.graph(join.second);
    match join_over(layout, a, b, &patches, &mut out) {
        Ok(()) => Ok(out),
        Err(code) => Err(JoinFault::At {
            line: join.line,
            code,
        }),
    }
}

/// The graphs that join lines ask for over a layout, in the order of the lines; the items name them by the numbers behind
/// those of the book.
///
/// Of two spans that are within the blocks and touch at most 16 stripes together, the second graph's stripes are moved up
/// by as many as the first span touches. Where the spans aren't so, an empty graph stands there.
///
/// # Errors
///
/// `At` comes exactly for the first line whose graphs can't be joined, with the code that [`JoinFault`] says; `Memory`
/// where there is none for a graph.
pub fn join_all<L: Layout>(
    alloc: Global,
    layout: &L,
    book: &Book,
    clients: &[Items],
    joins: &[Join],
) -> Result<Vec<Graph>, JoinFault>
    requires few { length joins.now ≤ 64 }
    requires joins { All (IsJoinOf (length book.now)) joins.now }
    requires asked { All (λ items. All MayBeAsked (map seen items.items)) clients.now }
    ensures joined { IfOk result (λ gs.
        AreJoined (L.shape layout.now) book.now (map (λ items. map seen items.items) clients.now)
        (length book.now) joins.now (Ok (map (λ g. g.drawn) gs.items))) }
    ensures refused { IfErr result (RefusesAll (AreJoined (L.shape layout.now) book.now
        (map (λ items. map seen items.items) clients.now) (length book.now) joins.now)) }
{
    let mut joined = Vec::with_capacity(alloc, joins.len())?;
    for j in 0..joins.len() {
        let graph = book.count() + j as u32;
        match join_one(alloc, layout, book, clients, joins[j], graph) {
            Ok(graph) => joined.push(graph)?,
            Err(fault) => return Err(fault),
        }
    }
    Ok(joined)
}
