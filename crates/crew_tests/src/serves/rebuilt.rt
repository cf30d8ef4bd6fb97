//! A column is rebuilt beside clients: it is live in the end where its device stands by and each of its
//! 64 stripes is rebuilt, filling where fewer are, and dead where the device fails. The history has the
//! rebuilds beside the clients' four operations.
ghost use Rattle.std.specs.Prelude.{◌≤◌};

use super::ready::{degraded, paused};
use super::{all_replied, clients, holds};
use crate::arrays::device;
use crate::judging::same;
use blk_disk::MemDisk;
use eng_array::{Closed, Column, Start};
use lay_plain::Raid5;
use raid_progress::Silent;
use std::alloc::Global;
use std::process::Abort;
use std::sync::Wait;
use std::test::Fail;
use std::thread::Threads;
use top_serve::{room_for, serve_in};

// Two clients are served, beside the rebuild of the second column onto the second device, which fails its calls of these
// numbers: so many stripes at most.
fn rebuilt<R: Threads + Wait + Sync>(
    rt: &R,
    alloc: Global,
    fails: &[u32],
    most: u32,
    workers: u32,
) -> Result<Closed<Raid5, MemDisk>, Fail>
    requires { workers ≤ 16 }
{
    let setup = degraded(
        alloc,
        device(alloc, 0, &[])?,
        device(alloc, 0, fails)?,
        clients(alloc)?,
    )?;
    let Some(room) = room_for(alloc, &setup) else {
        return Err(Fail::from("no memory"));
    };
    let start = Start::Fill {
        column: 1,
        device: 1,
        most,
    };
    Ok(serve_in(rt, alloc, setup, room, Some(start), workers, &Silent))
}

// The same where the first 20 stripes are done, and the rebuild goes on with so many more at most.
fn resumed<R: Threads + Wait + Sync>(
    rt: &R,
    alloc: Global,
    most: u32,
    workers: u32,
) -> Result<Closed<Raid5, MemDisk>, Fail>
    requires { workers ≤ 16 }
{
    let setup = paused(
        alloc,
        device(alloc, 0, &[])?,
        device(alloc, 0, &[])?,
        clients(alloc)?,
        20,
    )?;
    let Some(room) = room_for(alloc, &setup) else {
        return Err(Fail::from("no memory"));
    };
    let start = Start::Resume { column: 1, most };
    Ok(serve_in(rt, alloc, setup, room, Some(start), workers, &Silent))
}

// All was served, so many stripes were rebuilt, and the second column is this.
fn comes_to(rt: &impl Abort, closed: &Closed<Raid5, MemDisk>, rebuilds: u32, second: Column) {
    all_replied(rt, closed);
    same(rt, closed.history.len(), 4 + rebuilds as usize);
    same(rt, closed.rebuilt, rebuilds);
    holds(rt, closed.devices.first());
    holds(rt, closed.devices.last());
    same(
        rt,
        closed.columns.as_slice(),
        [Column::Live { device: 0 }, second].as_slice(),
    );
    same(rt, closed.lost, None);
}

#[test]
fn a_rebuilt_column_is_live_on_its_device(rt: HostRuntime) -> Result<(), Fail> {
    for workers in [0, 4] {
        for most in [64, u32::MAX] {
            let closed = rebuilt(&rt, rt.alloc(), &[], most, workers)?;
            comes_to(&rt, &closed, 64, Column::Live { device: 1 });
        }
    }
    Ok(())
}

// The clients' stripes are among the first: they are done in all of these.
#[test]
fn a_rebuild_is_paused_and_goes_on(rt: HostRuntime) -> Result<(), Fail> {
    for workers in [0, 4] {
        let closed = rebuilt(&rt, rt.alloc(), &[], 20, workers)?;
        let filling = Column::Filling {
            device: 1,
            done: 20,
        };
        comes_to(&rt, &closed, 20, filling);
        let closed = resumed(&rt, rt.alloc(), 10, workers)?;
        let filling = Column::Filling {
            device: 1,
            done: 30,
        };
        comes_to(&rt, &closed, 10, filling);
        let closed = resumed(&rt, rt.alloc(), u32::MAX, workers)?;
        comes_to(&rt, &closed, 44, Column::Live { device: 1 });
    }
    Ok(())
}

// The device's tenth call fails: the column isn't whole by then, as there are 64 stripes.
#[test]
fn a_rebuild_stops_as_its_device_fails(rt: HostRuntime) -> Result<(), Fail> {
    for workers in [0, 4] {
        let closed = rebuilt(&rt, rt.alloc(), &[9], u32::MAX, workers)?;
        all_replied(&rt, &closed);
        same(&rt, closed.history.len(), 68);
        holds(&rt, closed.devices.first());
        same(
            &rt,
            closed.columns.as_slice(),
            [Column::Live { device: 0 }, Column::Dead].as_slice(),
        );
        same(&rt, closed.lost, None);
    }
    Ok(())
}
