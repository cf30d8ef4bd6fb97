//! Sectors written twice, and ranges.

use crate::checker::drawing::Act::{Cmt, Rd, Trm, Wr, Xor};
use crate::checker::drawing::{Row, see_rows};
use crate::checker::layouts::PARITY;
use graph_check::Refusal;
use graph_mean::Kind;
use std::alloc::Global;
use std::process::Abort;
use std::test::Fail;

// Two writes of a sector, and buffers of wrong ranges.
const UNITS_AND_RANGES: &[Row] = &[
    Row {
        name: "two writes of a sector",
        kind: Kind::Write,
        span: (0, 1),
        missing: &[None],
        bufs: &[(0, 0, 1, Some(0)), (0, 0, 1, None), (0, 0, 1, None)],
        nodes: &[Rd(1, 1), Xor(2), Cmt, Wr(0, 0), Wr(0, 2), Trm],
        sources: &[(1, 1), (1, 0)],
        antes: &[(1, 0), (2, 0), (2, 1), (3, 2), (4, 2), (5, 3), (5, 4)],
        rets: &[],
        want: Some(Refusal::Twice {
            first: 3,
            second: 4,
        }),
    },
    Row {
        name: "the first of three writes of a sector",
        kind: Kind::Write,
        span: (0, 1),
        missing: &[None],
        bufs: &[(0, 0, 1, Some(0))],
        nodes: &[Cmt, Wr(0, 0), Wr(0, 0), Wr(0, 0), Trm],
        sources: &[],
        antes: &[(1, 0), (2, 0), (3, 0), (4, 1), (4, 2), (4, 3)],
        rets: &[],
        want: Some(Refusal::Twice {
            first: 1,
            second: 2,
        }),
    },
    Row {
        name: "two writes past the unit have no sector of it in common",
        kind: Kind::Write,
        span: (0, 1),
        missing: &[None],
        bufs: &[(0, 0, 1, Some(0)), (0, 1, 1, None)],
        nodes: &[Rd(1, 1), Cmt, Wr(0, 0), Wr(2, 1), Wr(2, 1), Trm],
        sources: &[],
        antes: &[(1, 0), (2, 1), (3, 1), (4, 1), (5, 2), (5, 3), (5, 4)],
        rets: &[],
        want: Some(Refusal::Mixed { what: 0, place: 1 }),
    },
    Row {
        name: "a buffer of no sectors",
        kind: Kind::Write,
        span: (0, 1),
        missing: &[None],
        bufs: &[
            (0, 0, 1, Some(0)),
            (0, 0, 1, None),
            (0, 0, 1, None),
            (0, 0, 0, None),
        ],
        nodes: &[Rd(1, 1), Rd(1, 3), Xor(2), Cmt, Wr(0, 0), Wr(2, 2), Trm],
        sources: &[(2, 1), (2, 0)],
        antes: &[(2, 0), (3, 1), (3, 2), (4, 3), (5, 3), (6, 4), (6, 5)],
        rets: &[],
        want: Some(Refusal::Mixed { what: 0, place: 3 }),
    },
    Row {
        name: "new data that is not to be written",
        kind: Kind::Write,
        span: (0, 1),
        missing: &[None],
        bufs: &[(0, 0, 1, Some(0)), (0, 0, 1, Some(1))],
        nodes: &[Cmt, Wr(0, 0), Trm],
        sources: &[],
        antes: &[(1, 0), (2, 1)],
        rets: &[],
        want: Some(Refusal::Mixed { what: 0, place: 1 }),
    },
];

/// Each of these graphs is refused as its row says.
pub(super) fn units_and_ranges(rt: &impl Abort, alloc: Global) -> Result<(), Fail> {
    see_rows(rt, alloc, &PARITY, UNITS_AND_RANGES)
}
