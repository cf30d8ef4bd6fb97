//! Which scripts a trace has room for, counted by hand.
ghost use Rattle.std.specs.Prelude.{◌<◌, ◌^◌, All, IsTrue, map};
ghost use Rattle.std.specs.Option.{ForSome};
ghost use Rattle.raid_script.specs.Asked.{IsAsked, seen};
ghost use Rattle.top_bound.specs.Bound.{MayBeAsked};

use crate::judging::{holds, same};
use blk_disk::MemDisk;
use blk_plain::{Op, Pattern, Span};
use eng_world::Item;
use graph_text::read_graphs;
use item_list::Items;
use lay_plain::Raid5;
use std::alloc::Global;
use std::process::Abort;
use std::test::Fail;
use top_bound::{
    few_items_have_room, file_graphs_fit_the_pool, sectors_are_counted_alike, trace_fits,
    traces_are_counted_alike, what_fits_has_room,
};

fn write(first: u64, count: u32) -> Item {
    let span = Span { first, count };
    let mut bytes = [0u8; 32];
    bytes[0] = 0xa5;
    let pattern = Pattern { len: 1, bytes };
    Item::Run {
        op: Op::Write { span, pattern },
        graph: None,
    }
}

fn read(first: u64, count: u32, graph: Option<u32>) -> Item {
    let span = Span { first, count };
    Item::Run {
        op: Op::Read { span },
        graph,
    }
}

const SYNC: Item = Item::Run {
    op: Op::Sync { stripe: 9 },
    graph: None,
};

const FAIL: Item = Item::Fail { column: 4 };

// Whether the graph, where one is named, is the first of a file.
fn is_first(graph: Option<u32>) -> bool
    ensures { IsTrue result → ForSome graph (λ g. g < 1) }
{
    match graph {
        None => true,
        Some(number) => number < 1,
    }
}

// Whether the span has a block, and begins at one that a script can name.
fn is_named(span: Span) -> bool
    ensures { IsTrue result → (span.first < 2 ^ 32) × (0 < span.count) }
{
    span.first <= 0xffff_ffff && span.count > 0
}

// Whether a script for five columns and a graph may hold the item; a write of several spans isn't
// among those that are counted here.
fn is_asked(item: Item) -> bool
    ensures { IsTrue result → IsAsked 5 1 (seen item) }
{
    match item {
        Item::Fail { column } => column < 5,
        Item::Run { op, graph } => match op {
            Op::Write { span, .. } => is_named(span) && is_first(graph),
            Op::Read { span } => is_named(span) && is_first(graph),
            Op::Sync { .. } => match graph {
                None => true,
                Some(_) => false,
            },
            Op::Writes { .. } | Op::Rebuild { .. } => false,
        },
    }
}

// Whether a script may hold each of the items.
fn are_asked(items: &Items) -> bool
    ensures { IsTrue result → All MayBeAsked (map seen items.now.items) }
{
    for at in 0..items.len() {
        if !is_asked(items.get(at)) {
            return false;
        }
    }
    true
}

// Whether so many of an item fit, and so many failures and these items beside them: over five
// columns at level 5 with units of 32 sectors, which is 8,192 blocks, 128 a stripe.
fn fits(
    rt: &impl Abort,
    alloc: Global,
    many: (u32, Item),
    failures: u32,
    items: &[Item],
) -> Result<bool, Fail> {
    let layout = Raid5::new(5, 32, 64).expect(rt, "a layout");
    let graphs = b"graph g\nnode 0 commit\nnode 1 terminate after 0\nend";
    let book = read_graphs(alloc, graphs).expect(rt, "a graph");
    let mut row = Items::from_slice(alloc, items)?;
    for _i in 0..many.0 {
        row.push(many.1)?;
    }
    for _i in 0..failures {
        row.push(FAIL)?;
    }
    if !are_asked(&row) {
        panic!(rt; "a script may not hold an item");
    }
    Ok(trace_fits(&layout, &book, &[], 5, &[row], 0))
}

// So many failures and these items fit beside 2,818 writes of a block, or don't.
fn is_answered(
    rt: &impl Abort,
    alloc: Global,
    failures: u32,
    items: &[Item],
    answer: bool,
) -> Result<(), Fail> {
    let many = (2818, write(0, 1));
    same(rt, fits(rt, alloc, many, failures, items)?, answer);
    Ok(())
}

// A write of a block touches one stripe of four data units, so 9 * 3 + 2 = 29 nodes are counted, and
// (2 * 29 + 4) * 6 = 372 events with five devices. 2,818 of them are 1,048,296, and leave 280. A
// failure has 4 * 6 = 24, so has a read past the end; a sync (2 * 8 + 4) * 6 = 120; an item by the
// graph of two nodes (2 * 2 + 4) * 6 = 48, wherever its blocks are.
#[test]
fn items_are_counted_by_their_graphs(rt: HostRuntime) -> Result<(), Fail> {
    let by_graph = [read(0, 129, Some(0)), read(8192, 1, Some(0))];
    let alloc = rt.alloc();
    is_answered(&rt, alloc, 11, &[], true)?;
    is_answered(&rt, alloc, 12, &[], false)?;
    is_answered(&rt, alloc, 1, &[SYNC, SYNC], true)?;
    is_answered(&rt, alloc, 2, &[SYNC, SYNC], false)?;
    is_answered(&rt, alloc, 7, &by_graph, true)?;
    is_answered(&rt, alloc, 8, &by_graph, false)?;
    is_answered(&rt, alloc, 10, &[read(8191, 2, None)], true)?;
    is_answered(&rt, alloc, 11, &[read(8191, 2, None)], false)?;
    is_answered(&rt, alloc, 0, &[read(8191, 1, None)], false)
}

// A span of 2,433 blocks touches 20 stripes, more than an operation may, and all of them count:
// 9 * 22 + 2 = 200 nodes, so 404 * 6 = 2,424 events. 432 of them leave 1,408.
#[test]
fn all_stripes_of_a_long_span_are_counted(rt: HostRuntime) -> Result<(), Fail> {
    let many = (432, write(0, 2433));
    holds(&rt, fits(&rt, rt.alloc(), many, 58, &[])?);
    holds(&rt, !fits(&rt, rt.alloc(), many, 59, &[])?);
    Ok(())
}

// A rebuild of a stripe of five units has (2 * 8 + 4) * 6 = 120 events with five devices, as a sync: 8,738 of them are
// 1,048,560, and leave 16.
#[test]
fn rebuilds_are_counted_beside_the_items(rt: HostRuntime) {
    let layout = Raid5::new(5, 32, 64).expect(&rt, "a layout");
    let book = read_graphs(rt.alloc(), b"".as_slice()).expect(&rt, "no graph");
    holds(&rt, trace_fits(&layout, &book, &[], 5, &[], 8738));
    holds(&rt, !trace_fits(&layout, &book, &[], 5, &[], 8739));
}

#[test]
fn laws_are_there_to_be_called(_rt: HostRuntime) {
    few_items_have_room();
    sectors_are_counted_alike();
    file_graphs_fit_the_pool();
    traces_are_counted_alike();
    what_fits_has_room::<Raid5, MemDisk>();
}
