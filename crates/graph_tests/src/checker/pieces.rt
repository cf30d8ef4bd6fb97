//! How many cover pieces a check looks at.

use crate::checker::drawing::Act::{Cmt, Rd, Trm, Wr, Xor};
use crate::checker::drawing::{Row, paper, see_row};
use crate::checker::layouts::{SMALL, WIDE};
use crate::judging::same_at;
use graph_check::{Refusal, Scratch};
use graph_mean::{Kind, Task};
use lay_core::{Layout, StripeMap};
use std::alloc::Global;
use std::process::Abort;
use std::test::Fail;

// The last check in this room looked at so many pieces.
fn see_count(rt: &impl Abort, room: &Scratch, want: u32, name: &str) {
    same_at(rt, name, room.pieces(), want);
}

// Checks the rows' graphs in one room, each with its number of pieces.
fn see_pieces<L: Layout>(
    rt: &impl Abort,
    alloc: Global,
    layout: &L,
    rows: &[(Row, u32)],
) -> Result<(), Fail> {
    let mut graph = paper(alloc)?;
    let mut room = Scratch::open(alloc)?;
    let mut task = Task::with_room(alloc)?;
    let mut map = StripeMap::with_room(alloc)?;
    see_count(rt, &room, 0, "before any check");
    for (row, pieces) in rows {
        see_row(rt, layout, row, &mut graph, &mut room, &mut task, &mut map);
        see_count(rt, &room, *pieces, row.name);
    }
    Ok(())
}

// The library's graph of a write of offsets 1 to 3 of unit 0 and 0 to 2 of unit 1, which is cut at 1 and
// at 3.
const RIGHT: Row = Row {
    name: "six blocks",
    kind: Kind::Write,
    span: (1, 6),
    missing: &[None],
    bufs: &[
        (0, 0, 1, Some(1)),
        (0, 0, 1, None),
        (0, 0, 1, None),
        (0, 1, 2, Some(0)),
        (0, 1, 2, Some(1)),
        (0, 1, 2, None),
        (0, 3, 1, Some(0)),
        (0, 3, 1, None),
        (0, 3, 1, None),
    ],
    nodes: &[
        Rd(0, 1),
        Xor(2),
        Xor(5),
        Rd(1, 7),
        Xor(8),
        Cmt,
        Wr(1, 0),
        Wr(2, 2),
        Wr(0, 3),
        Wr(1, 4),
        Wr(2, 5),
        Wr(0, 6),
        Wr(2, 8),
        Trm,
    ],
    sources: &[(1, 1), (1, 0), (2, 3), (2, 4), (4, 7), (4, 6)],
    antes: &[
        (1, 0),
        (4, 3),
        (5, 1),
        (5, 2),
        (5, 4),
        (6, 5),
        (7, 5),
        (8, 5),
        (9, 5),
        (10, 5),
        (11, 5),
        (12, 5),
        (13, 6),
        (13, 7),
        (13, 8),
        (13, 9),
        (13, 10),
        (13, 11),
        (13, 12),
    ],
    rets: &[],
    want: None,
};

// One that makes the check unit of the new data alone at offset 3.
const WRONG: Row = Row {
    name: "a check unit of the new data alone",
    sources: &[(1, 1), (1, 0), (2, 3), (2, 4), (4, 6)],
    want: Some(Refusal::WrongValue {
        stripe: 0,
        unit: 2,
        offset: 3,
    }),
    ..RIGHT
};

// One that reads a missing unit.
const REFUSED: Row = Row {
    name: "a read of a missing unit",
    missing: &[Some(0)],
    want: Some(Refusal::Missing { node: 0 }),
    ..RIGHT
};

// A write of a whole stripe.
const WHOLE: Row = Row {
    name: "a stripe",
    kind: Kind::Write,
    span: (0, 512),
    missing: &[None],
    bufs: &[
        (0, 0, 128, Some(0)),
        (0, 0, 128, Some(1)),
        (0, 0, 128, Some(2)),
        (0, 0, 128, Some(3)),
        (0, 0, 128, None),
    ],
    nodes: &[
        Xor(4),
        Cmt,
        Wr(0, 0),
        Wr(1, 1),
        Wr(2, 2),
        Wr(3, 3),
        Wr(4, 4),
        Trm,
    ],
    sources: &[(0, 0), (0, 1), (0, 2), (0, 3)],
    antes: &[
        (1, 0),
        (2, 1),
        (3, 1),
        (4, 1),
        (5, 1),
        (6, 1),
        (7, 2),
        (7, 3),
        (7, 4),
        (7, 5),
        (7, 6),
    ],
    rets: &[],
    want: None,
};

// Graphs of three pieces, in one room, and of one.
const IN_THREE: &[(Row, u32)] = &[(RIGHT, 3), (REFUSED, 0), (WRONG, 3)];

const IN_ONE: &[(Row, u32)] = &[(WHOLE, 1)];

#[test]
fn pieces_are_those_of_the_last_check(rt: HostRuntime) -> Result<(), Fail> {
    see_pieces(&rt, rt.alloc(), &SMALL, IN_THREE)?;
    see_pieces(&rt, rt.alloc(), &WIDE, IN_ONE)?;
    Ok(())
}
