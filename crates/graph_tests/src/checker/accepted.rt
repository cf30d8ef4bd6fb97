//! Graphs that are accepted.

use crate::checker::drawing::Act::{Cmt, Rd, Trm, Wr, Xor};
use crate::checker::drawing::{Row, see_rows};
use crate::checker::layouts::{PARITY, STRIPED};
use graph_mean::{Kind, Ret};
use std::alloc::Global;
use std::process::Abort;
use std::test::Fail;

// Writes, a read that writes, and a rebuild.
const WRITES_AND_A_REBUILD: &[Row] = &[
    Row {
        name: "large write",
        kind: Kind::Write,
        span: (0, 1),
        missing: &[None],
        bufs: &[(0, 0, 1, Some(0)), (0, 0, 1, None), (0, 0, 1, None)],
        nodes: &[Rd(1, 1), Xor(2), Cmt, Wr(0, 0), Wr(2, 2), Trm],
        sources: &[(1, 1), (1, 0)],
        antes: &[(1, 0), (2, 0), (2, 1), (3, 2), (4, 2), (5, 3), (5, 4)],
        rets: &[],
        want: None,
    },
    Row {
        name: "small write, a unit that it leaves alone missing",
        kind: Kind::Write,
        span: (0, 1),
        missing: &[Some(1)],
        bufs: &[
            (0, 0, 1, Some(0)),
            (0, 0, 1, None),
            (0, 0, 1, None),
            (0, 0, 1, None),
        ],
        nodes: &[Rd(0, 1), Rd(2, 2), Xor(3), Cmt, Wr(0, 0), Wr(2, 3), Trm],
        sources: &[(2, 1), (2, 2), (2, 0)],
        antes: &[
            (2, 0),
            (2, 1),
            (3, 0),
            (3, 1),
            (3, 2),
            (4, 3),
            (5, 3),
            (6, 4),
            (6, 5),
        ],
        rets: &[],
        want: None,
    },
    Row {
        name: "write of a missing unit",
        kind: Kind::Write,
        span: (0, 1),
        missing: &[Some(0)],
        bufs: &[(0, 0, 1, Some(0)), (0, 0, 1, None), (0, 0, 1, None)],
        nodes: &[Rd(1, 1), Xor(2), Cmt, Wr(2, 2), Trm],
        sources: &[(1, 1), (1, 0)],
        antes: &[(1, 0), (2, 0), (2, 1), (3, 2), (4, 3)],
        rets: &[],
        want: None,
    },
    Row {
        name: "read that writes the old value back",
        kind: Kind::Read,
        span: (0, 1),
        missing: &[None],
        bufs: &[(0, 0, 1, None)],
        nodes: &[Rd(0, 0), Cmt, Wr(0, 0), Trm],
        sources: &[],
        antes: &[(1, 0), (2, 1), (3, 2)],
        rets: &[Ret { unit: 0, buf: 0 }],
        want: None,
    },
    Row {
        name: "rebuild",
        kind: Kind::Rebuild { unit: 1 },
        span: (0, 2),
        missing: &[Some(1)],
        bufs: &[(0, 0, 1, None), (0, 0, 1, None), (0, 0, 1, None)],
        nodes: &[Rd(0, 0), Rd(2, 1), Xor(2), Cmt, Wr(1, 2), Trm],
        sources: &[(2, 0), (2, 1)],
        antes: &[(2, 0), (2, 1), (3, 2), (4, 3), (5, 4)],
        rets: &[],
        want: None,
    },
];

fn writes_and_a_rebuild(rt: &impl Abort, alloc: Global) -> Result<(), Fail> {
    see_rows(rt, alloc, &PARITY, WRITES_AND_A_REBUILD)
}

// A read of a missing unit, rebuilds and syncs.
const READS_AND_SYNCS: &[Row] = &[
    Row {
        name: "read of a missing unit",
        kind: Kind::Read,
        span: (0, 1),
        missing: &[Some(0)],
        bufs: &[(0, 0, 1, None), (0, 0, 1, None), (0, 0, 1, None)],
        nodes: &[Rd(1, 0), Rd(2, 1), Xor(2), Cmt, Trm],
        sources: &[(2, 0), (2, 1)],
        antes: &[(2, 0), (2, 1), (3, 0), (3, 1), (3, 2), (4, 3)],
        rets: &[Ret { unit: 0, buf: 2 }],
        want: None,
    },
    Row {
        name: "rebuild of what is there",
        kind: Kind::Rebuild { unit: 1 },
        span: (0, 2),
        missing: &[None],
        bufs: &[],
        nodes: &[Cmt, Trm],
        sources: &[],
        antes: &[(1, 0)],
        rets: &[],
        want: None,
    },
    Row {
        name: "sync",
        kind: Kind::Sync,
        span: (0, 2),
        missing: &[None],
        bufs: &[(0, 0, 1, None), (0, 0, 1, None), (0, 0, 1, None)],
        nodes: &[Rd(0, 0), Rd(1, 1), Xor(2), Cmt, Wr(2, 2), Trm],
        sources: &[(2, 0), (2, 1)],
        antes: &[(2, 0), (2, 1), (3, 2), (4, 3), (5, 4)],
        rets: &[],
        want: None,
    },
    Row {
        name: "a source twice cancels",
        kind: Kind::Write,
        span: (0, 1),
        missing: &[None],
        bufs: &[(0, 0, 1, Some(0)), (0, 0, 1, None), (0, 0, 1, None)],
        nodes: &[Rd(1, 1), Xor(2), Cmt, Wr(0, 0), Wr(2, 2), Trm],
        sources: &[(1, 1), (1, 0), (1, 1), (1, 1)],
        antes: &[(1, 0), (2, 0), (2, 1), (3, 2), (4, 2), (5, 3), (5, 4)],
        rets: &[],
        want: None,
    },
    Row {
        name: "write of two stripes, a unit of the second missing",
        kind: Kind::Write,
        span: (1, 2),
        missing: &[None, Some(2)],
        bufs: &[
            (0, 0, 1, Some(1)),
            (0, 0, 1, None),
            (0, 0, 1, None),
            (1, 0, 1, Some(0)),
        ],
        nodes: &[Rd(0, 1), Xor(2), Cmt, Wr(1, 0), Wr(2, 2), Wr(0, 3), Trm],
        sources: &[(1, 0), (1, 1)],
        antes: &[
            (1, 0),
            (2, 1),
            (3, 2),
            (4, 2),
            (5, 2),
            (6, 3),
            (6, 4),
            (6, 5),
        ],
        rets: &[],
        want: None,
    },
];

fn reads_and_syncs(rt: &impl Abort, alloc: Global) -> Result<(), Fail> {
    see_rows(rt, alloc, &PARITY, READS_AND_SYNCS)
}

// Where there is no check unit.
const WITHOUT_A_CHECK_UNIT: &[Row] = &[
    Row {
        name: "write of two units",
        kind: Kind::Write,
        span: (0, 8),
        missing: &[None],
        bufs: &[(0, 0, 4, Some(0)), (0, 0, 4, Some(1))],
        nodes: &[Cmt, Wr(0, 0), Wr(1, 1), Trm],
        sources: &[],
        antes: &[(1, 0), (2, 0), (3, 1), (3, 2)],
        rets: &[],
        want: None,
    },
    Row {
        name: "read across two units",
        kind: Kind::Read,
        span: (2, 4),
        missing: &[None],
        bufs: &[(0, 2, 2, None), (0, 0, 2, None)],
        nodes: &[Rd(0, 0), Rd(1, 1), Cmt, Trm],
        sources: &[],
        antes: &[(2, 0), (2, 1), (3, 2)],
        rets: &[Ret { unit: 0, buf: 0 }, Ret { unit: 1, buf: 1 }],
        want: None,
    },
    Row {
        name: "write in two buffers",
        kind: Kind::Write,
        span: (1, 2),
        missing: &[None],
        bufs: &[(0, 1, 1, Some(0)), (0, 2, 1, Some(0))],
        nodes: &[Cmt, Wr(0, 0), Wr(0, 1), Trm],
        sources: &[],
        antes: &[(1, 0), (2, 0), (3, 1), (3, 2)],
        rets: &[],
        want: None,
    },
];

fn without_a_check_unit(rt: &impl Abort, alloc: Global) -> Result<(), Fail> {
    see_rows(rt, alloc, &STRIPED, WITHOUT_A_CHECK_UNIT)
}

#[test]
fn graphs_of_each_kind_are_accepted(rt: HostRuntime) -> Result<(), Fail> {
    writes_and_a_rebuild(&rt, rt.alloc())?;
    reads_and_syncs(&rt, rt.alloc())?;
    without_a_check_unit(&rt, rt.alloc())?;
    Ok(())
}
