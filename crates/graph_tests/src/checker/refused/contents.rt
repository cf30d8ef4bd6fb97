//! Values and returns.

use crate::checker::drawing::Act::{Cmt, Rd, Trm, Wr, Xor};
use crate::checker::drawing::{Row, see_rows};
use crate::checker::layouts::PARITY;
use graph_check::Refusal;
use graph_mean::{Kind, Ret};
use std::alloc::Global;
use std::process::Abort;
use std::test::Fail;

// What is left on the units.
const LEFT: &[Row] = &[
    Row {
        name: "a check unit made of the new data alone",
        kind: Kind::Write,
        span: (0, 1),
        missing: &[None],
        bufs: &[(0, 0, 1, Some(0)), (0, 0, 1, None), (0, 0, 1, None)],
        nodes: &[Rd(1, 1), Xor(2), Cmt, Wr(0, 0), Wr(2, 2), Trm],
        sources: &[(1, 0)],
        antes: &[(1, 0), (2, 0), (2, 1), (3, 2), (4, 2), (5, 3), (5, 4)],
        rets: &[],
        want: Some(Refusal::WrongValue {
            stripe: 0,
            unit: 2,
            offset: 0,
        }),
    },
    Row {
        name: "no write of the second stripe",
        kind: Kind::Write,
        span: (1, 2),
        missing: &[None, None],
        bufs: &[(0, 0, 1, Some(1)), (0, 0, 1, None), (0, 0, 1, None)],
        nodes: &[Rd(0, 1), Xor(2), Cmt, Wr(1, 0), Wr(2, 2), Trm],
        sources: &[(1, 0), (1, 1)],
        antes: &[(1, 0), (2, 1), (3, 2), (4, 2), (5, 3), (5, 4)],
        rets: &[],
        want: Some(Refusal::WrongValue {
            stripe: 1,
            unit: 0,
            offset: 0,
        }),
    },
    Row {
        name: "a rebuild that writes nothing",
        kind: Kind::Rebuild { unit: 1 },
        span: (0, 2),
        missing: &[Some(1)],
        bufs: &[],
        nodes: &[Cmt, Trm],
        sources: &[],
        antes: &[(1, 0)],
        rets: &[],
        want: Some(Refusal::WrongValue {
            stripe: 0,
            unit: 1,
            offset: 0,
        }),
    },
    Row {
        name: "a rebuild from one unit",
        kind: Kind::Rebuild { unit: 1 },
        span: (0, 2),
        missing: &[Some(1)],
        bufs: &[(0, 0, 1, None)],
        nodes: &[Rd(0, 0), Cmt, Wr(1, 0), Trm],
        sources: &[],
        antes: &[(1, 0), (2, 1), (3, 2)],
        rets: &[],
        want: Some(Refusal::WrongValue {
            stripe: 0,
            unit: 1,
            offset: 0,
        }),
    },
    Row {
        name: "a sync that writes the check unit back",
        kind: Kind::Sync,
        span: (0, 2),
        missing: &[None],
        bufs: &[(0, 0, 1, None)],
        nodes: &[Rd(2, 0), Cmt, Wr(2, 0), Trm],
        sources: &[],
        antes: &[(1, 0), (2, 1), (3, 2)],
        rets: &[],
        want: Some(Refusal::WrongValue {
            stripe: 0,
            unit: 2,
            offset: 0,
        }),
    },
];

/// Each of these graphs is refused as its row says.
pub(super) fn left(rt: &impl Abort, alloc: Global) -> Result<(), Fail> {
    see_rows(rt, alloc, &PARITY, LEFT)
}

// What is returned.
const RETURNED: &[Row] = &[
    Row {
        name: "no return",
        kind: Kind::Read,
        span: (0, 1),
        missing: &[None],
        bufs: &[(0, 0, 1, None)],
        nodes: &[Rd(0, 0), Cmt, Trm],
        sources: &[],
        antes: &[(1, 0), (2, 1)],
        rets: &[],
        want: Some(Refusal::WrongReturn { block: 0 }),
    },
    Row {
        name: "two returns",
        kind: Kind::Read,
        span: (0, 1),
        missing: &[None],
        bufs: &[(0, 0, 1, None)],
        nodes: &[Rd(0, 0), Cmt, Trm],
        sources: &[],
        antes: &[(1, 0), (2, 1)],
        rets: &[Ret { unit: 0, buf: 0 }, Ret { unit: 0, buf: 0 }],
        want: Some(Refusal::WrongReturn { block: 0 }),
    },
    Row {
        name: "a return of half the sum",
        kind: Kind::Read,
        span: (0, 1),
        missing: &[Some(0)],
        bufs: &[(0, 0, 1, None)],
        nodes: &[Rd(1, 0), Cmt, Trm],
        sources: &[],
        antes: &[(1, 0), (2, 1)],
        rets: &[Ret { unit: 0, buf: 0 }],
        want: Some(Refusal::WrongReturn { block: 0 }),
    },
    Row {
        name: "a return that is not wanted",
        kind: Kind::Read,
        span: (0, 1),
        missing: &[None],
        bufs: &[(0, 0, 1, None), (0, 0, 1, None)],
        nodes: &[Rd(0, 0), Rd(1, 1), Cmt, Trm],
        sources: &[],
        antes: &[(2, 0), (2, 1), (3, 2)],
        rets: &[Ret { unit: 0, buf: 0 }, Ret { unit: 1, buf: 1 }],
        want: Some(Refusal::WrongReturn { block: 1 }),
    },
    Row {
        name: "the last block of two stripes",
        kind: Kind::Read,
        span: (0, 4),
        missing: &[None, None],
        bufs: &[(0, 0, 1, None), (0, 0, 1, None), (1, 0, 1, None)],
        nodes: &[Rd(0, 0), Rd(1, 1), Rd(0, 2), Cmt, Trm],
        sources: &[],
        antes: &[(3, 0), (3, 1), (3, 2), (4, 3)],
        rets: &[
            Ret { unit: 0, buf: 0 },
            Ret { unit: 1, buf: 1 },
            Ret { unit: 0, buf: 2 },
        ],
        want: Some(Refusal::WrongReturn { block: 3 }),
    },
];

/// Each of these graphs is refused as its row says.
pub(super) fn returned(rt: &impl Abort, alloc: Global) -> Result<(), Fail> {
    see_rows(rt, alloc, &PARITY, RETURNED)
}
