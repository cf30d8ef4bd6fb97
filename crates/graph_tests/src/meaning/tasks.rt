//! The task of four blocks, for each kind of operation.

use crate::judging::same;
use blk_plain::Span;
use graph_mean::{Kind, Part, Task};
use lay_core::samples::Straight;
use lay_core::{StripeMap, split};
use std::process::Abort;
use std::test::Fail;

// Three columns of 64 rows: unit i of each stripe lies on column i. A unit is one sector.
const THREE: Straight = Straight {
    width: 3,
    checks: 1,
    unit_sectors: 1,
};

// It has three stripes of two data units and a check unit, of a sector each.
fn see_shape(rt: &impl Abort, task: &Task) {
    same(rt, (task.stripes(), task.width()), (3, 3));
    same(rt, (task.checks(), task.unit_sectors()), (1, 1));
}

// Its parts are those of blocks 1 to 4.
fn see_parts(rt: &impl Abort, task: &Task) {
    let parts = [(0, 1), (1, 0), (1, 1), (2, 0)];
    for (part, (stripe, unit)) in task.parts().iter().zip(parts) {
        let wanted = Part {
            stripe,
            unit,
            from: 0,
            count: 1,
        };
        same(rt, *part, wanted);
    }
}

// It is the task of this kind on blocks 1 to 4.
fn see_task(rt: &impl Abort, task: &Task, kind: Kind) {
    same(rt, task.kind(), kind);
    see_shape(rt, task);
    same(rt, task.parts().len(), 4);
    see_parts(rt, task);
}

#[test]
fn a_task_has_the_stripes_and_parts_of_its_map(rt: HostRuntime) -> Result<(), Fail> {
    let mut task = Task::with_room(rt.alloc())?;
    same(&rt, task.kind(), Kind::Read);
    same(&rt, (task.stripes(), task.parts().len()), (0, 0));
    let mut map = StripeMap::with_room(rt.alloc())?;
    match split(&THREE, Span { first: 1, count: 4 }, &mut map) {
        Ok(()) => {}
        Err(fault) => {
            assert!(rt; false, "{fault:?}");
            return Ok(());
        }
    }
    for kind in [
        Kind::Read,
        Kind::Write,
        Kind::Rebuild { unit: 2 },
        Kind::Sync,
    ] {
        task.set(&THREE, kind, &map);
        see_task(&rt, &task, kind);
    }
    Ok(())
}
