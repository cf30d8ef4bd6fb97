//! What no clause can show: how many pieces the checker looks at, by graphs that were worked out by hand.
ghost use Rattle.std.specs.Prelude.{◌<◌, ◌≤◌};

use crate::judging::same;
use blk_plain::Span;
use eng_plan::plan_and_check;
use graph_check::Scratch;
use graph_lib::span_is_plannable;
use graph_mean::{Graph, Kind, Task, split_is_a_map};
use lay_core::{Layout, StripeMap, split};
use lay_plain::Raid5;
use std::alloc::Global;
use std::test::Fail;

// At how many pieces the checker looks in the library's graph of a write of some blocks.
fn pieces_of_write<L: Layout>(
    alloc: Global,
    layout: &L,
    first: u64,
    count: u32,
) -> Result<u32, Fail>
    requires { 1 ≤ count }
{
    let mut map = StripeMap::with_room(alloc)?;
    split(layout, Span { first, count }, &mut map)?;
    split_is_a_map();
    let stripes = map.stripes().len();
    let mut task = Task::with_room(alloc)?;
    task.set(layout, Kind::Write, &map);
    span_is_plannable();
    let missing = [None; 16];
    let mut graph = Graph::with_room(alloc, 2048, 2048, 16384)?;
    let mut scratch = Scratch::open(alloc)?;
    plan_and_check(&task, &missing[..stripes], &mut graph, &mut scratch)?;
    Ok(scratch.pieces())
}

#[test]
fn a_write_has_a_piece_between_neighbouring_ends(rt: HostRuntime) -> Result<(), Fail> {
    let alloc = rt.alloc();
    let five = Raid5::new(5, 128, 64)?;
    // Each range of a full stripe's write is a whole unit.
    same(&rt, pieces_of_write(alloc, &five, 0, 512)?, 1);
    // Each range ends at offset 100, behind which the unit has 28 sectors more.
    same(&rt, pieces_of_write(alloc, &five, 0, 100)?, 2);
    // Of the first stripe the last 8 offsets of a unit are written, and of the second all.
    same(&rt, pieces_of_write(alloc, &five, 504, 520)?, 3);
    Ok(())
}
