//! Commits and terminators.

use crate::checker::drawing::Act::{Cmt, Rd, Trm, Wr, Xor};
use crate::checker::drawing::{Row, see_rows};
use crate::checker::layouts::PARITY;
use graph_check::Refusal;
use graph_mean::Kind;
use std::alloc::Global;
use std::process::Abort;
use std::test::Fail;

// Too few or too many, and nodes that the terminator doesn't follow.
const COMMITS_AND_ENDS: &[Row] = &[
    Row {
        name: "no commit",
        kind: Kind::Write,
        span: (0, 1),
        missing: &[None],
        bufs: &[(0, 0, 1, Some(0))],
        nodes: &[Wr(0, 0), Trm],
        sources: &[],
        antes: &[(1, 0)],
        rets: &[],
        want: Some(Refusal::Commits { count: 0 }),
    },
    Row {
        name: "two commits",
        kind: Kind::Write,
        span: (0, 1),
        missing: &[None],
        bufs: &[(0, 0, 1, Some(0))],
        nodes: &[Cmt, Cmt, Wr(0, 0), Trm],
        sources: &[],
        antes: &[(2, 0), (2, 1), (3, 2)],
        rets: &[],
        want: Some(Refusal::Commits { count: 2 }),
    },
    Row {
        name: "no terminator",
        kind: Kind::Write,
        span: (0, 1),
        missing: &[None],
        bufs: &[(0, 0, 1, Some(0))],
        nodes: &[Cmt, Wr(0, 0)],
        sources: &[],
        antes: &[(1, 0)],
        rets: &[],
        want: Some(Refusal::Ends { count: 0, node: 0 }),
    },
    Row {
        name: "a write that the terminator does not follow",
        kind: Kind::Write,
        span: (0, 1),
        missing: &[None],
        bufs: &[(0, 0, 1, Some(0)), (0, 0, 1, None), (0, 0, 1, None)],
        nodes: &[Rd(1, 1), Xor(2), Cmt, Wr(0, 0), Wr(2, 2), Trm],
        sources: &[(1, 1), (1, 0)],
        antes: &[(1, 0), (2, 0), (2, 1), (3, 2), (4, 2), (5, 3)],
        rets: &[],
        want: Some(Refusal::Ends { count: 1, node: 4 }),
    },
    Row {
        name: "a last node that the terminator does not follow",
        kind: Kind::Write,
        span: (0, 1),
        missing: &[None],
        bufs: &[(0, 0, 1, Some(0)), (0, 0, 1, None)],
        nodes: &[Cmt, Wr(0, 0), Trm, Xor(1)],
        sources: &[],
        antes: &[(1, 0), (2, 1), (3, 2)],
        rets: &[],
        want: Some(Refusal::Ends { count: 1, node: 3 }),
    },
];

/// Each of these graphs is refused as its row says.
pub(super) fn commits_and_ends(rt: &impl Abort, alloc: Global) -> Result<(), Fail> {
    see_rows(rt, alloc, &PARITY, COMMITS_AND_ENDS)
}
