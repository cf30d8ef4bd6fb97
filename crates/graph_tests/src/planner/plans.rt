//! Graphs that `plan` gives, worked out by hand.

ghost use Rattle.std.specs.Prelude.{◌≡◌, ◌<◌, ◌≤◌, IsTrue};
ghost use Rattle.std.specs.Option.{ForSome};
ghost use Rattle.graph_mean.specs.Task.{HasUnitBelow};

use super::texts::{see_bufs, see_nodes, see_returns};
use crate::checker::drawing::is_within;
use blk_plain::Span;
use graph_lib::{plan, span_is_plannable};
use graph_mean::{Graph, Kind, Task, split_is_a_map};
use lay_core::samples::Straight;
use lay_core::{Layout, StripeMap, split};
use std::alloc::Global;
use std::process::Abort;
use std::test::Fail;

// Rows of three, four and five units, one of them a check unit, of a sector each.
const THREE: Straight = Straight {
    width: 3,
    checks: 1,
    unit_sectors: 1,
};

const FOUR: Straight = Straight {
    width: 4,
    checks: 1,
    unit_sectors: 1,
};

const FIVE: Straight = Straight {
    width: 5,
    checks: 1,
    unit_sectors: 1,
};

// Three units without a check unit.
const PLAIN: Straight = Straight {
    width: 3,
    checks: 0,
    unit_sectors: 1,
};

// Three units, one of them a check unit, of two sectors each, and of four.
const OF_TWO: Straight = Straight {
    width: 3,
    checks: 1,
    unit_sectors: 2,
};

const OF_FOUR: Straight = Straight {
    width: 3,
    checks: 1,
    unit_sectors: 4,
};

// An operation on one span. Where a unit is missing, it is so in each of the stripes.
#[derive(Clone, Copy)]
struct Asked {
    kind: Kind,
    span: Span,
    gone: Option<u8>,
    target: bool,
}

fn planned<L: Layout>(alloc: Global, layout: &L, asked: Asked) -> Result<Graph, Fail>
    requires unit { HasUnitBelow (L.shape layout.now).width asked.kind }
    requires gone { ForSome asked.gone (λ m. (m < (L.shape layout.now).width) × ((L.shape layout.now).checks ≡ 1)) }
    requires span { 1 ≤ asked.span.count }
{
    let mut map = StripeMap::with_room(alloc)?;
    split(layout, asked.span, &mut map)?;
    split_is_a_map();
    let stripes = map.stripes().len();
    let mut task = Task::with_room(alloc)?;
    task.set(layout, asked.kind, &map);
    span_is_plannable();
    let missing = [asked.gone; 16];
    let mut graph = Graph::with_room(alloc, 2048, 2048, 16384)?;
    plan(&task, &missing[..stripes], asked.target, &mut graph);
    Ok(graph)
}

// Whether this unit can be missing where there are so many units, so many of them check units.
fn can_miss(gone: Option<u8>, width: u32, checks: u32) -> bool
    ensures { IsTrue result → ForSome gone (λ m. (m < width) × (checks ≡ 1)) }
{
    match gone {
        Some(unit) => u32::from(unit) < width && checks == 1,
        None => true,
    }
}

fn see_plan(
    rt: &impl Abort,
    alloc: Global,
    layout: &Straight,
    asked: Asked,
    nodes: &[&str],
) -> Result<Graph, Fail> {
    assert!(rt; asked.span.count > 0);
    assert!(rt; is_within(asked.kind, layout.width));
    assert!(rt; can_miss(asked.gone, layout.width, layout.checks));
    let graph = planned(alloc, layout, asked)?;
    see_nodes(rt, alloc, &graph, nodes)?;
    Ok(graph)
}

// A write of some blocks where no unit is missing.
fn write(first: u64, count: u32) -> Asked {
    Asked {
        kind: Kind::Write,
        span: Span { first, count },
        gone: None,
        target: false,
    }
}

// A write that reads the other data units, and one that reads what it writes and the check unit.
const LARGE: &[&str] = &[
    "read 2 2",
    "read 3 3",
    "xor 4 2 3 0 1 after 0 1",
    "commit after 0 1 2",
    "write 0 0 after 3",
    "write 1 1 after 3",
    "write 4 4 after 3",
    "terminate after 4 5 6",
];

const SMALL: &[&str] = &[
    "read 0 1",
    "read 3 2",
    "xor 3 1 2 0 after 0 1",
    "commit after 0 1 2",
    "write 0 0 after 3",
    "write 3 3 after 3",
    "terminate after 4 5",
];

#[test]
fn a_write_reads_the_fewer_units(rt: HostRuntime) -> Result<(), Fail> {
    // Small would read units 0, 1 and the check unit; large reads units 2 and 3.
    let _graph = see_plan(&rt, rt.alloc(), &FIVE, write(0, 2), LARGE)?;
    // Both would read two units, so it is small.
    let _graph = see_plan(&rt, rt.alloc(), &FOUR, write(0, 1), SMALL)?;
    Ok(())
}

// Writes of all data units, with and without a check unit.
const WHOLE: &[&str] = &[
    "xor 4 0 1 2 3",
    "commit after 0",
    "write 0 0 after 1",
    "write 1 1 after 1",
    "write 2 2 after 1",
    "write 3 3 after 1",
    "write 4 4 after 1",
    "terminate after 2 3 4 5 6",
];

const UNCHECKED: &[&str] = &[
    "commit",
    "write 1 0 after 0",
    "write 2 1 after 0",
    "terminate after 1 2",
];

#[test]
fn a_write_of_all_units_reads_nothing(rt: HostRuntime) -> Result<(), Fail> {
    let _graph = see_plan(&rt, rt.alloc(), &FIVE, write(0, 4), WHOLE)?;
    // Without a check unit nothing is read either.
    let _graph = see_plan(&rt, rt.alloc(), &PLAIN, write(1, 2), UNCHECKED)?;
    Ok(())
}

// A write in three pieces, and its buffers.
const IN_PIECES: &[&str] = &[
    "read 0 1",
    "read 1 7",
    "xor 2 1 0 after 0",
    "xor 5 3 4",
    "xor 8 7 6 after 1",
    "commit after 0 1 2 3 4",
    "write 1 0 after 5",
    "write 2 2 after 5",
    "write 0 3 after 5",
    "write 1 4 after 5",
    "write 2 5 after 5",
    "write 0 6 after 5",
    "write 2 8 after 5",
    "terminate after 6 7 8 9 10 11 12",
];

const PIECES: &[&str] = &[
    "stripe 0 from 0 count 1 new 1",
    "stripe 0 from 0 count 1",
    "stripe 0 from 0 count 1",
    "stripe 0 from 1 count 2 new 0",
    "stripe 0 from 1 count 2 new 1",
    "stripe 0 from 1 count 2",
    "stripe 0 from 3 count 1 new 0",
    "stripe 0 from 3 count 1",
    "stripe 0 from 3 count 1",
];

// A write of one unit of each of two stripes.
const IN_STRIPES: &[&str] = &[
    "read 0 1",
    "read 1 4",
    "xor 2 1 0 after 0",
    "xor 5 4 3 after 1",
    "commit after 0 1 2 3",
    "write 1 0 after 4",
    "write 2 2 after 4",
    "write 0 3 after 4",
    "write 2 5 after 4",
    "terminate after 5 6 7 8",
];

#[test]
fn pieces_are_cut_where_the_touched_units_change(rt: HostRuntime) -> Result<(), Fail> {
    // Unit 0 from offset 1 on, unit 1 up to offset 2: unit 1 alone, both, unit 0 alone.
    let graph = see_plan(&rt, rt.alloc(), &OF_FOUR, write(1, 6), IN_PIECES)?;
    see_bufs(&rt, rt.alloc(), &graph, PIECES)?;
    // Two stripes, one unit of each.
    let _graph = see_plan(&rt, rt.alloc(), &THREE, write(1, 2), IN_STRIPES)?;
    Ok(())
}

// Writes where unit 1 is missing: of unit 0, and of unit 1.
const BESIDE: &[&str] = &[
    "read 0 1",
    "read 2 2",
    "xor 3 1 2 0 after 0 1",
    "commit after 0 1 2",
    "write 0 0 after 3",
    "write 2 3 after 3",
    "terminate after 4 5",
];

const INSTEAD: &[&str] = &[
    "read 0 1",
    "xor 2 1 0 after 0",
    "commit after 0 1",
    "write 2 2 after 2",
    "terminate after 3",
];

#[test]
fn a_write_goes_on_without_a_missing_unit(rt: HostRuntime) -> Result<(), Fail> {
    // Unit 1 isn't written: it can't be read, so it is small.
    let asked = Asked {
        gone: Some(1),
        ..write(0, 1)
    };
    let _graph = see_plan(&rt, rt.alloc(), &THREE, asked, BESIDE)?;
    // Unit 1 is written: the check unit stands for it.
    let asked = Asked {
        gone: Some(1),
        ..write(1, 1)
    };
    let _graph = see_plan(&rt, rt.alloc(), &THREE, asked, INSTEAD)?;
    Ok(())
}

// A read of both data units, and the nodes where none and where unit 1 is missing.
const READ: Asked = Asked {
    kind: Kind::Read,
    span: Span { first: 0, count: 2 },
    gone: None,
    target: false,
};

const BOTH: &[&str] = &[
    "read 0 0",
    "read 1 1",
    "commit after 0 1",
    "terminate after 2",
];

const MADE: &[&str] = &[
    "read 0 0",
    "read 2 1",
    "xor 2 0 1 after 0 1",
    "commit after 0 1 2",
    "terminate after 3",
];

#[test]
fn a_read_returns_what_a_missing_unit_held(rt: HostRuntime) -> Result<(), Fail> {
    let graph = see_plan(&rt, rt.alloc(), &THREE, READ, BOTH)?;
    see_returns(&rt, &graph, &[(0, 0), (1, 1)]);
    let asked = Asked {
        gone: Some(1),
        ..READ
    };
    let graph = see_plan(&rt, rt.alloc(), &THREE, asked, MADE)?;
    see_returns(&rt, &graph, &[(0, 0), (1, 2)]);
    Ok(())
}

// A rebuild of unit 1, which is missing, and its nodes.
const REBUILD: Asked = Asked {
    kind: Kind::Rebuild { unit: 1 },
    span: Span { first: 0, count: 4 },
    gone: Some(1),
    target: true,
};

const REBUILT: &[&str] = &[
    "read 0 0",
    "read 2 1",
    "xor 2 0 1 after 0 1",
    "commit after 0 1 2",
    "write 1 2 after 3",
    "terminate after 4",
];

// Nothing is done.
const NOTHING: &[&str] = &["commit", "terminate after 0"];

#[test]
fn a_rebuild_makes_its_unit_from_all_others(rt: HostRuntime) -> Result<(), Fail> {
    let _graph = see_plan(&rt, rt.alloc(), &OF_TWO, REBUILD, REBUILT)?;
    // Without a target nothing is done.
    let asked = Asked {
        target: false,
        ..REBUILD
    };
    let _graph = see_plan(&rt, rt.alloc(), &OF_TWO, asked, NOTHING)?;
    Ok(())
}

#[test]
fn a_rebuild_of_a_unit_that_is_there_does_nothing(rt: HostRuntime) -> Result<(), Fail> {
    for (gone, target) in [
        (None, false),
        (None, true),
        (Some(0), false),
        (Some(0), true),
    ] {
        let asked = Asked {
            gone,
            target,
            ..REBUILD
        };
        let _graph = see_plan(&rt, rt.alloc(), &OF_TWO, asked, NOTHING)?;
    }
    Ok(())
}

// A sync of a stripe, and its nodes and buffers.
const SYNC: Asked = Asked {
    kind: Kind::Sync,
    span: Span { first: 0, count: 4 },
    gone: None,
    target: false,
};

const SYNCED: &[&str] = &[
    "read 0 0",
    "read 1 1",
    "xor 2 0 1 after 0 1",
    "commit after 0 1 2",
    "write 2 2 after 3",
    "terminate after 4",
];

const WHOLE_UNITS: &[&str] = &["stripe 0 from 0 count 2"; 3];

#[test]
fn a_sync_makes_the_check_unit_from_the_data_units(rt: HostRuntime) -> Result<(), Fail> {
    let graph = see_plan(&rt, rt.alloc(), &OF_TWO, SYNC, SYNCED)?;
    see_bufs(&rt, rt.alloc(), &graph, WHOLE_UNITS)?;
    Ok(())
}
