//! Graphs that the checker refuses, each joined with the large write in either order: the joined graph is refused for the
//! same cause, at the place to which it has moved.
ghost use Rattle.std.specs.Prelude.{◌≡◌, ◌∷◌, []};
ghost use Rattle.blk_plain.specs.Plain.{AreSound, spans_of};
ghost use Rattle.graph_merge.specs.Form.{IsRoomy};

use crate::joined::drawing::large_with;
use crate::judging::{same, same_at};
use blk_plain::{Patch, Patches, Pattern, Span};
use graph_check::{Refusal, Scratch, check};
use graph_mean::{Graph, Kind, Task, split_is_a_map};
use graph_merge::{MergeFault, merge};
use lay_core::samples::Straight;
use lay_core::{StripeMap, split, split_all};
use std::alloc::Global;
use std::process::Abort;
use std::test::Fail;

// Two data units and a check unit, a sector each.
const PARITY: Straight = Straight {
    width: 3,
    checks: 1,
    unit_sectors: 1,
};

// The large write with some lines changed, the unit of its stripe that is missing, and how it is refused: for the write
// of block 0, as the first of two that are joined, and as the second, where the other is the large write.
struct Row<'a> {
    name: &'a str,
    changes: &'a [(usize, &'a str)],
    missing: Option<u8>,
    alone: Option<Refusal>,
    first: Option<Refusal>,
    second: Option<Refusal>,
}

// As the first its buffers stay, and so do its nodes before the commit; the large write's two stand behind those, so
// that the commit is node 4, its writes are nodes 5 and 6, and the terminator is node 9. As the second its buffers are
// three more, its nodes 0 and 1 are 2 and 3, and its writes 7 and 8.
const ROWS: &[Row] = &[
    Row {
        name: "nothing changed",
        changes: &[],
        missing: None,
        alone: None,
        first: None,
        second: None,
    },
    Row {
        name: "new data of a unit that there isn't",
        changes: &[(1, "buffer 0 stripe 0 from 0 count 1 new 2")],
        missing: None,
        alone: Some(Refusal::Index { what: 0, place: 0 }),
        first: Some(Refusal::Index { what: 0, place: 0 }),
        second: Some(Refusal::Index { what: 0, place: 3 }),
    },
    Row {
        name: "a read of a unit that there isn't",
        changes: &[(4, "node 0 read 3 1")],
        missing: None,
        alone: Some(Refusal::Index { what: 1, place: 0 }),
        first: Some(Refusal::Index { what: 1, place: 0 }),
        second: Some(Refusal::Index { what: 1, place: 2 }),
    },
    Row {
        name: "new data made by a node",
        changes: &[(4, "node 0 read 1 0")],
        missing: None,
        alone: Some(Refusal::Assigned {
            buffer: 0,
            times: 1,
        }),
        first: Some(Refusal::Assigned {
            buffer: 0,
            times: 1,
        }),
        second: Some(Refusal::Assigned {
            buffer: 3,
            times: 1,
        }),
    },
    Row {
        name: "a sum that doesn't follow its read",
        changes: &[(5, "node 1 xor 2 1 0")],
        missing: None,
        alone: Some(Refusal::Unordered { node: 1, buffer: 1 }),
        first: Some(Refusal::Unordered { node: 1, buffer: 1 }),
        second: Some(Refusal::Unordered { node: 3, buffer: 4 }),
    },
    Row {
        name: "a read that the commit doesn't follow",
        changes: &[
            (5, "node 1 xor 2 0"),
            (6, "node 2 commit after 1"),
            (9, "node 5 terminate after 0 3 4"),
        ],
        missing: None,
        alone: Some(Refusal::LateRead { node: 0 }),
        first: Some(Refusal::LateRead { node: 0 }),
        second: Some(Refusal::LateRead { node: 2 }),
    },
    Row {
        name: "a write that doesn't follow the commit, and so stands before it",
        changes: &[(7, "node 3 write 0 0")],
        missing: None,
        alone: Some(Refusal::EarlyWrite { node: 3 }),
        first: Some(Refusal::EarlyWrite { node: 2 }),
        second: Some(Refusal::EarlyWrite { node: 4 }),
    },
    Row {
        name: "a read of a missing unit",
        changes: &[],
        missing: Some(1),
        alone: Some(Refusal::Missing { node: 0 }),
        first: Some(Refusal::Missing { node: 0 }),
        second: Some(Refusal::Missing { node: 2 }),
    },
    Row {
        name: "two writes of one unit",
        changes: &[(8, "node 4 write 0 2 after 2")],
        missing: None,
        alone: Some(Refusal::Twice {
            first: 3,
            second: 4,
        }),
        first: Some(Refusal::Twice {
            first: 5,
            second: 6,
        }),
        second: Some(Refusal::Twice {
            first: 7,
            second: 8,
        }),
    },
    Row {
        name: "a buffer past the unit's end",
        changes: &[(1, "buffer 0 stripe 0 from 0 count 2 new 0")],
        missing: None,
        alone: Some(Refusal::Mixed { what: 0, place: 0 }),
        first: Some(Refusal::Mixed { what: 0, place: 0 }),
        second: Some(Refusal::Mixed { what: 0, place: 3 }),
    },
    Row {
        name: "a check unit of the new data alone",
        changes: &[(5, "node 1 xor 2 0 after 0")],
        missing: None,
        alone: Some(Refusal::WrongValue {
            stripe: 0,
            unit: 2,
            offset: 0,
        }),
        first: Some(Refusal::WrongValue {
            stripe: 0,
            unit: 2,
            offset: 0,
        }),
        second: Some(Refusal::WrongValue {
            stripe: 1,
            unit: 2,
            offset: 0,
        }),
    },
    Row {
        name: "a return of a block that isn't wanted",
        changes: &[(10, "return 0 0\nend")],
        missing: None,
        alone: Some(Refusal::WrongReturn { block: 0 }),
        first: Some(Refusal::WrongReturn { block: 0 }),
        second: Some(Refusal::WrongReturn { block: 2 }),
    },
];

// Makes it the task of the write of block 0.
fn write_one(rt: &impl Abort, task: &mut Task, map: &mut StripeMap) {
    match split(&PARITY, Span { first: 0, count: 1 }, map) {
        Ok(()) => {
            split_is_a_map();
            task.set(&PARITY, Kind::Write, map);
        }
        Err(fault) => assert!(rt; false, "{fault:?}"),
    }
}

// A block that is written with zeros.
fn block(first: u64) -> Patch
    ensures { result.span ≡ record { first = first; count = 1 } }
{
    Patch {
        span: Span { first, count: 1 },
        pattern: Pattern {
            len: 1,
            bytes: [0; 32],
        },
    }
}

// Block 0 and block 2, the first of either stripe.
fn blocks() -> Patches
    ensures sound { AreSound result }
    ensures spans { spans_of result ≡ record { first = 0; count = 1 } ∷ record { first = 2; count = 1 } ∷ [] }
{
    let mut list = [block(0); 8];
    list[1] = block(2);
    Patches { used: 2, list }
}

// Makes it the task of the write of these two blocks.
fn write_two(rt: &impl Abort, task: &mut Task, map: &mut StripeMap) {
    match split_all(&PARITY, &blocks(), map) {
        Ok(()) => task.set(&PARITY, Kind::Write, map),
        Err(fault) => assert!(rt; false, "{fault:?}"),
    }
}

// How the joined graph of two is refused for the write of both blocks.
fn joined(
    rt: &impl Abort,
    a: &Graph,
    b: &Graph,
    missing: [Option<u8>; 2],
    out: &mut Graph,
    task: &Task,
    room: &mut Scratch,
) -> Option<Refusal>
    requires { IsRoomy out.old }
    ensures { IsRoomy out.new }
{
    out.clear();
    same(rt, merge(a, b, 1, out), Ok(()));
    check(out, task, &missing, room).err()
}

#[test]
fn a_cause_is_found_at_its_moved_place(rt: HostRuntime) -> Result<(), Fail> {
    let large = large_with(&rt, rt.alloc(), &[])?;
    assert!(rt; large.count() == 1);
    let mut out = Graph::with_room(rt.alloc(), 2048, 2048, 16_384)?;
    let mut room = Scratch::open(rt.alloc())?;
    let mut map = StripeMap::with_room(rt.alloc())?;
    let mut one = Task::with_room(rt.alloc())?;
    write_one(&rt, &mut one, &mut map);
    let mut two = Task::with_room(rt.alloc())?;
    write_two(&rt, &mut two, &mut map);
    for row in ROWS {
        let book = large_with(&rt, rt.alloc(), row.changes)?;
        assert!(rt; book.count() == 1);
        let graph = book.graph(0);
        let other = large.graph(0);
        let alone = check(graph, &one, &[row.missing], &mut room).err();
        same_at(&rt, row.name, alone, row.alone);
        let first = joined(
            &rt,
            graph,
            other,
            [row.missing, None],
            &mut out,
            &two,
            &mut room,
        );
        same_at(&rt, row.name, first, row.first);
        let second = joined(
            &rt,
            other,
            graph,
            [None, row.missing],
            &mut out,
            &two,
            &mut room,
        );
        same_at(&rt, row.name, second, row.second);
    }
    Ok(())
}

// The large write with some lines changed, and what joining it with the large write answers, as the first and as the
// second.
struct Formed<'a> {
    name: &'a str,
    changes: &'a [(usize, &'a str)],
    first: Result<(), MergeFault>,
    second: Result<(), MergeFault>,
}

const FORMS: &[Formed] = &[
    Formed {
        name: "an antecedent that isn't below its node",
        changes: &[(5, "node 1 xor 2 1 0 after 0 3")],
        first: Err(MergeFault::Form { which: 0 }),
        second: Err(MergeFault::Form { which: 1 }),
    },
    Formed {
        name: "a buffer that there isn't",
        changes: &[(7, "node 3 write 0 3 after 2")],
        first: Err(MergeFault::Form { which: 0 }),
        second: Err(MergeFault::Form { which: 1 }),
    },
    Formed {
        name: "two commits",
        changes: &[(9, "node 5 commit after 3 4")],
        first: Err(MergeFault::Form { which: 0 }),
        second: Err(MergeFault::Form { which: 1 }),
    },
    Formed {
        name: "a node that the terminator doesn't follow",
        changes: &[(9, "node 5 terminate after 3")],
        first: Err(MergeFault::Form { which: 0 }),
        second: Err(MergeFault::Form { which: 1 }),
    },
    Formed {
        name: "a stripe that the write of one block hasn't",
        changes: &[(1, "buffer 0 stripe 1 from 0 count 1 new 0")],
        first: Err(MergeFault::Form { which: 0 }),
        second: Ok(()),
    },
];

#[test]
fn a_graph_without_form_is_not_joined(rt: HostRuntime) -> Result<(), Fail> {
    let large = large_with(&rt, rt.alloc(), &[])?;
    assert!(rt; large.count() == 1);
    let mut out = Graph::with_room(rt.alloc(), 2048, 2048, 16_384)?;
    for row in FORMS {
        let book = large_with(&rt, rt.alloc(), row.changes)?;
        assert!(rt; book.count() == 1);
        out.clear();
        same_at(
            &rt,
            row.name,
            merge(book.graph(0), large.graph(0), 1, &mut out),
            row.first,
        );
        out.clear();
        same_at(
            &rt,
            row.name,
            merge(large.graph(0), book.graph(0), 1, &mut out),
            row.second,
        );
    }
    Ok(())
}
