//! Each cause but of size, where there is no check unit.

use crate::checker::drawing::Act::{Cmt, Rd, Trm, Wr, Xor};
use crate::checker::drawing::{Row, see_rows};
use crate::checker::layouts::STRIPED;
use graph_check::Refusal;
use graph_mean::{Kind, Ret};
use std::alloc::Global;
use std::process::Abort;
use std::test::Fail;

// What is named, the order, and the ends.
const BY_FORM: &[Row] = &[
    Row {
        name: "a stripe that there is not",
        kind: Kind::Read,
        span: (0, 1),
        missing: &[None],
        bufs: &[(1, 0, 1, None)],
        nodes: &[Rd(0, 0), Cmt, Trm],
        sources: &[],
        antes: &[(1, 0), (2, 1)],
        rets: &[Ret { unit: 0, buf: 0 }],
        want: Some(Refusal::Index { what: 0, place: 0 }),
    },
    Row {
        name: "a node before itself",
        kind: Kind::Read,
        span: (0, 1),
        missing: &[None],
        bufs: &[(0, 0, 1, None)],
        nodes: &[Rd(0, 0), Cmt, Trm],
        sources: &[],
        antes: &[(0, 0), (1, 0), (2, 1)],
        rets: &[Ret { unit: 0, buf: 0 }],
        want: Some(Refusal::Order { node: 0 }),
    },
    Row {
        name: "no commit",
        kind: Kind::Read,
        span: (0, 1),
        missing: &[None],
        bufs: &[(0, 0, 1, None)],
        nodes: &[Rd(0, 0), Trm],
        sources: &[],
        antes: &[(1, 0)],
        rets: &[Ret { unit: 0, buf: 0 }],
        want: Some(Refusal::Commits { count: 0 }),
    },
    Row {
        name: "a read that the terminator does not follow",
        kind: Kind::Read,
        span: (0, 1),
        missing: &[None],
        bufs: &[(0, 0, 1, None)],
        nodes: &[Rd(0, 0), Cmt, Trm],
        sources: &[],
        antes: &[(2, 1)],
        rets: &[Ret { unit: 0, buf: 0 }],
        want: Some(Refusal::Ends { count: 1, node: 0 }),
    },
    Row {
        name: "a buffer that nothing makes",
        kind: Kind::Read,
        span: (0, 1),
        missing: &[None],
        bufs: &[(0, 0, 1, None)],
        nodes: &[Cmt, Trm],
        sources: &[],
        antes: &[(1, 0)],
        rets: &[Ret { unit: 0, buf: 0 }],
        want: Some(Refusal::Assigned {
            buffer: 0,
            times: 0,
        }),
    },
];

/// Each of these graphs is refused as its row says.
pub(super) fn by_form(rt: &impl Abort, alloc: Global) -> Result<(), Fail> {
    see_rows(rt, alloc, &STRIPED, BY_FORM)
}

// When buffers are made and used, and which units.
const BY_FLOW: &[Row] = &[
    Row {
        name: "a write that does not follow its read",
        kind: Kind::Read,
        span: (0, 1),
        missing: &[None],
        bufs: &[(0, 0, 1, None)],
        nodes: &[Rd(0, 0), Cmt, Wr(0, 0), Trm],
        sources: &[],
        antes: &[(2, 1), (3, 0), (3, 2)],
        rets: &[Ret { unit: 0, buf: 0 }],
        want: Some(Refusal::Unordered { node: 2, buffer: 0 }),
    },
    Row {
        name: "a read that the commit does not follow",
        kind: Kind::Read,
        span: (0, 1),
        missing: &[None],
        bufs: &[(0, 0, 1, None)],
        nodes: &[Rd(0, 0), Cmt, Trm],
        sources: &[],
        antes: &[(2, 0), (2, 1)],
        rets: &[Ret { unit: 0, buf: 0 }],
        want: Some(Refusal::LateRead { node: 0 }),
    },
    Row {
        name: "a write that does not follow the commit",
        kind: Kind::Write,
        span: (0, 1),
        missing: &[None],
        bufs: &[(0, 0, 1, Some(0))],
        nodes: &[Cmt, Wr(0, 0), Trm],
        sources: &[],
        antes: &[(2, 0), (2, 1)],
        rets: &[],
        want: Some(Refusal::EarlyWrite { node: 1 }),
    },
    Row {
        name: "a write of a missing unit",
        kind: Kind::Write,
        span: (0, 1),
        missing: &[Some(0)],
        bufs: &[(0, 0, 1, Some(0))],
        nodes: &[Cmt, Wr(0, 0), Trm],
        sources: &[],
        antes: &[(1, 0), (2, 1)],
        rets: &[],
        want: Some(Refusal::Missing { node: 1 }),
    },
    Row {
        name: "two writes with a sector in common",
        kind: Kind::Write,
        span: (0, 4),
        missing: &[None],
        bufs: &[(0, 0, 3, Some(0)), (0, 2, 2, Some(0))],
        nodes: &[Cmt, Wr(0, 0), Wr(0, 1), Trm],
        sources: &[],
        antes: &[(1, 0), (2, 0), (3, 1), (3, 2)],
        rets: &[],
        want: Some(Refusal::Twice {
            first: 1,
            second: 2,
        }),
    },
];

/// Each of these graphs is refused as its row says.
pub(super) fn by_flow(rt: &impl Abort, alloc: Global) -> Result<(), Fail> {
    see_rows(rt, alloc, &STRIPED, BY_FLOW)
}

// Ranges, values and returns.
const BY_CONTENTS: &[Row] = &[
    Row {
        name: "new data past what is to be written",
        kind: Kind::Write,
        span: (1, 2),
        missing: &[None],
        bufs: &[(0, 1, 3, Some(0))],
        nodes: &[Cmt, Wr(0, 0), Trm],
        sources: &[],
        antes: &[(1, 0), (2, 1)],
        rets: &[],
        want: Some(Refusal::Mixed { what: 0, place: 0 }),
    },
    Row {
        name: "a sum of another range",
        kind: Kind::Write,
        span: (0, 1),
        missing: &[None],
        bufs: &[(0, 0, 1, Some(0)), (0, 1, 1, None)],
        nodes: &[Cmt, Wr(0, 0), Xor(1), Trm],
        sources: &[(2, 0)],
        antes: &[(1, 0), (2, 0), (3, 1), (3, 2)],
        rets: &[],
        want: Some(Refusal::Mixed { what: 1, place: 2 }),
    },
    Row {
        name: "a write without its last sector",
        kind: Kind::Write,
        span: (0, 4),
        missing: &[None],
        bufs: &[(0, 0, 3, Some(0))],
        nodes: &[Cmt, Wr(0, 0), Trm],
        sources: &[],
        antes: &[(1, 0), (2, 1)],
        rets: &[],
        want: Some(Refusal::WrongValue {
            stripe: 0,
            unit: 0,
            offset: 3,
        }),
    },
    Row {
        name: "the sum of two units in place of one",
        kind: Kind::Write,
        span: (0, 1),
        missing: &[None],
        bufs: &[(0, 0, 1, Some(0)), (0, 0, 1, None), (0, 0, 1, None)],
        nodes: &[Rd(1, 1), Xor(2), Cmt, Wr(0, 2), Trm],
        sources: &[(1, 0), (1, 1)],
        antes: &[(1, 0), (2, 1), (3, 2), (4, 3)],
        rets: &[],
        want: Some(Refusal::WrongValue {
            stripe: 0,
            unit: 0,
            offset: 0,
        }),
    },
    Row {
        name: "no return of the second unit",
        kind: Kind::Read,
        span: (2, 4),
        missing: &[None],
        bufs: &[(0, 2, 2, None), (0, 0, 2, None)],
        nodes: &[Rd(0, 0), Rd(1, 1), Cmt, Trm],
        sources: &[],
        antes: &[(2, 0), (2, 1), (3, 2)],
        rets: &[Ret { unit: 0, buf: 0 }],
        want: Some(Refusal::WrongReturn { block: 4 }),
    },
];

/// Each of these graphs is refused as its row says.
pub(super) fn by_contents(rt: &impl Abort, alloc: Global) -> Result<(), Fail> {
    see_rows(rt, alloc, &STRIPED, BY_CONTENTS)
}
