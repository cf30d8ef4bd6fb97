//! What isn't there, and nodes before their antecedents.

use crate::checker::drawing::Act::{Cmt, Rd, Trm, Wr, Xor};
use crate::checker::drawing::{Row, see_rows};
use crate::checker::layouts::PARITY;
use graph_check::Refusal;
use graph_mean::{Kind, Ret};
use std::alloc::Global;
use std::process::Abort;
use std::test::Fail;

// Names of what there isn't, and the order of nodes.
const FOREIGN_AND_DISORDERED: &[Row] = &[
    Row {
        name: "a buffer of a stripe that there is not",
        kind: Kind::Write,
        span: (0, 1),
        missing: &[None],
        bufs: &[(0, 0, 1, Some(0)), (1, 0, 1, None)],
        nodes: &[Cmt, Wr(0, 0), Trm],
        sources: &[],
        antes: &[(1, 0), (2, 1)],
        rets: &[],
        want: Some(Refusal::Index { what: 0, place: 1 }),
    },
    Row {
        name: "a unit that there is not",
        kind: Kind::Write,
        span: (0, 1),
        missing: &[None],
        bufs: &[(0, 0, 1, Some(0)), (0, 0, 1, None), (0, 0, 1, None)],
        nodes: &[Rd(3, 1), Xor(2), Cmt, Wr(0, 0), Wr(2, 2), Trm],
        sources: &[(1, 1), (1, 0)],
        antes: &[(1, 0), (2, 0), (2, 1), (3, 2), (4, 2), (5, 3), (5, 4)],
        rets: &[],
        want: Some(Refusal::Index { what: 1, place: 0 }),
    },
    Row {
        name: "a last node with an antecedent that there is not",
        kind: Kind::Write,
        span: (0, 1),
        missing: &[None],
        bufs: &[(0, 0, 1, Some(0))],
        nodes: &[Cmt, Wr(0, 0), Trm],
        sources: &[],
        antes: &[(1, 0), (2, 1), (2, 3)],
        rets: &[],
        want: Some(Refusal::Index { what: 1, place: 2 }),
    },
    Row {
        name: "a return of the check unit",
        kind: Kind::Read,
        span: (0, 1),
        missing: &[None],
        bufs: &[(0, 0, 1, None)],
        nodes: &[Rd(0, 0), Cmt, Trm],
        sources: &[],
        antes: &[(1, 0), (2, 1)],
        rets: &[Ret { unit: 0, buf: 0 }, Ret { unit: 2, buf: 0 }],
        want: Some(Refusal::Index { what: 2, place: 1 }),
    },
    Row {
        name: "a last node after itself",
        kind: Kind::Write,
        span: (0, 1),
        missing: &[None],
        bufs: &[(0, 0, 1, Some(0)), (0, 0, 1, None), (0, 0, 1, None)],
        nodes: &[Rd(1, 1), Xor(2), Cmt, Wr(0, 0), Wr(2, 2), Trm],
        sources: &[(1, 1), (1, 0)],
        antes: &[
            (1, 0),
            (2, 0),
            (2, 1),
            (3, 2),
            (4, 2),
            (5, 3),
            (5, 4),
            (5, 5),
        ],
        rets: &[],
        want: Some(Refusal::Order { node: 5 }),
    },
];

/// Each of these graphs is refused as its row says.
pub(super) fn foreign_and_disordered(rt: &impl Abort, alloc: Global) -> Result<(), Fail> {
    see_rows(rt, alloc, &PARITY, FOREIGN_AND_DISORDERED)
}
