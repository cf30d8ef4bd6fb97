//! Buffers that aren't made, or not in time, and the commit.

use crate::checker::drawing::Act::{Cmt, Rd, Trm, Wr, Xor};
use crate::checker::drawing::{Row, see_rows};
use crate::checker::layouts::PARITY;
use graph_check::Refusal;
use graph_mean::{Kind, Ret};
use std::alloc::Global;
use std::process::Abort;
use std::test::Fail;

// How often buffers are made, and when.
const MAKING: &[Row] = &[
    Row {
        name: "new data made by a node",
        kind: Kind::Write,
        span: (0, 1),
        missing: &[None],
        bufs: &[(0, 0, 1, Some(0)), (0, 0, 1, None), (0, 0, 1, None)],
        nodes: &[Rd(1, 0), Xor(2), Cmt, Wr(0, 0), Wr(2, 2), Trm],
        sources: &[(1, 1), (1, 0)],
        antes: &[(1, 0), (2, 0), (2, 1), (3, 2), (4, 2), (5, 3), (5, 4)],
        rets: &[],
        want: Some(Refusal::Assigned {
            buffer: 0,
            times: 1,
        }),
    },
    Row {
        name: "a buffer that nothing makes",
        kind: Kind::Write,
        span: (0, 1),
        missing: &[None],
        bufs: &[
            (0, 0, 1, Some(0)),
            (0, 0, 1, None),
            (0, 0, 1, None),
            (0, 0, 1, None),
        ],
        nodes: &[Rd(1, 1), Xor(2), Cmt, Wr(0, 0), Wr(2, 2), Trm],
        sources: &[(1, 1), (1, 0)],
        antes: &[(1, 0), (2, 0), (2, 1), (3, 2), (4, 2), (5, 3), (5, 4)],
        rets: &[],
        want: Some(Refusal::Assigned {
            buffer: 3,
            times: 0,
        }),
    },
    Row {
        name: "a sum that does not follow its read",
        kind: Kind::Write,
        span: (0, 1),
        missing: &[None],
        bufs: &[(0, 0, 1, Some(0)), (0, 0, 1, None), (0, 0, 1, None)],
        nodes: &[Rd(1, 1), Xor(2), Cmt, Wr(0, 0), Wr(2, 2), Trm],
        sources: &[(1, 1), (1, 0)],
        antes: &[(2, 0), (2, 1), (3, 2), (4, 2), (5, 3), (5, 4)],
        rets: &[],
        want: Some(Refusal::Unordered { node: 1, buffer: 1 }),
    },
    Row {
        name: "the lesser of two buffers, listed last",
        kind: Kind::Sync,
        span: (0, 2),
        missing: &[None],
        bufs: &[(0, 0, 1, None), (0, 0, 1, None), (0, 0, 1, None)],
        nodes: &[Rd(0, 0), Rd(1, 1), Xor(2), Cmt, Wr(2, 2), Trm],
        sources: &[(2, 1), (2, 0)],
        antes: &[(3, 0), (3, 1), (3, 2), (4, 3), (5, 4)],
        rets: &[],
        want: Some(Refusal::Unordered { node: 2, buffer: 0 }),
    },
];

/// Each of these graphs is refused as its row says.
pub(super) fn making(rt: &impl Abort, alloc: Global) -> Result<(), Fail> {
    see_rows(rt, alloc, &PARITY, MAKING)
}

// The commit, and missing units.
const TURNING: &[Row] = &[
    Row {
        name: "a read that the commit does not follow",
        kind: Kind::Write,
        span: (0, 1),
        missing: &[None],
        bufs: &[(0, 0, 1, Some(0)), (0, 0, 1, None)],
        nodes: &[Rd(1, 1), Cmt, Wr(0, 0), Trm],
        sources: &[],
        antes: &[(2, 1), (3, 0), (3, 2)],
        rets: &[],
        want: Some(Refusal::LateRead { node: 0 }),
    },
    Row {
        name: "a write that does not follow the commit",
        kind: Kind::Write,
        span: (0, 1),
        missing: &[None],
        bufs: &[(0, 0, 1, Some(0)), (0, 0, 1, None), (0, 0, 1, None)],
        nodes: &[Rd(1, 1), Xor(2), Cmt, Wr(0, 0), Wr(2, 2), Trm],
        sources: &[(1, 1), (1, 0)],
        antes: &[(1, 0), (2, 0), (2, 1), (4, 2), (5, 3), (5, 4)],
        rets: &[],
        want: Some(Refusal::EarlyWrite { node: 3 }),
    },
    Row {
        name: "a read of a missing unit",
        kind: Kind::Write,
        span: (0, 1),
        missing: &[Some(1)],
        bufs: &[(0, 0, 1, Some(0)), (0, 0, 1, None), (0, 0, 1, None)],
        nodes: &[Rd(1, 1), Xor(2), Cmt, Wr(0, 0), Wr(2, 2), Trm],
        sources: &[(1, 1), (1, 0)],
        antes: &[(1, 0), (2, 0), (2, 1), (3, 2), (4, 2), (5, 3), (5, 4)],
        rets: &[],
        want: Some(Refusal::Missing { node: 0 }),
    },
    Row {
        name: "a write of a missing unit",
        kind: Kind::Write,
        span: (0, 1),
        missing: &[Some(0)],
        bufs: &[(0, 0, 1, Some(0)), (0, 0, 1, None), (0, 0, 1, None)],
        nodes: &[Rd(1, 1), Xor(2), Cmt, Wr(0, 0), Wr(2, 2), Trm],
        sources: &[(1, 1), (1, 0)],
        antes: &[(1, 0), (2, 0), (2, 1), (3, 2), (4, 2), (5, 3), (5, 4)],
        rets: &[],
        want: Some(Refusal::Missing { node: 3 }),
    },
    Row {
        name: "a unit missing in the second stripe",
        kind: Kind::Read,
        span: (0, 4),
        missing: &[None, Some(0)],
        bufs: &[(0, 0, 1, None), (1, 0, 1, None)],
        nodes: &[Rd(0, 0), Rd(0, 1), Cmt, Trm],
        sources: &[],
        antes: &[(2, 0), (2, 1), (3, 2)],
        rets: &[Ret { unit: 0, buf: 0 }],
        want: Some(Refusal::Missing { node: 1 }),
    },
];

/// Each of these graphs is refused as its row says.
pub(super) fn turning(rt: &impl Abort, alloc: Global) -> Result<(), Fail> {
    see_rows(rt, alloc, &PARITY, TURNING)
}
