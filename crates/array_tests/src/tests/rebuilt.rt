//! A dead column is rebuilt, and a further column fails behind that and meanwhile.
//!
//! Column 0 of the spared layout is dead. It has a unit of the stripes 0, 2 and 3. In stripe 0 unit 1 on column 1 is 5
//! and the check unit on column 2 is 3, so that unit 0, which is to be made again, is 6; all else is zero.
ghost use Rattle.std.specs.Prelude.{◌≡◌, false, IfOk};
ghost use Rattle.eng_array.specs.Steady.{IsSteady};

use super::closed::{columns, handed, has_calls, holds, lost, replied};
use super::driving::{drained, reaches, serve, turn};
use super::judging::same;
use super::rebuilding::{column_fails, filling, spreading};
use super::{device, read, setup};
use blk_disk::{Disk, MemDisk, SECTOR};
use eng_array::{Closed, Column, Core, Event, Item, Loss, Reply, Setup};
use eng_cols::samples::Spared;
use lay_core::Layout;
use std::alloc::Global;
use std::process::Abort;
use std::test::Fail;

const BEGIN: Event = Event::Begin { client: 16 };

// A device of 128 sectors, of which sector 64 is filled with this byte and all others are zero.
fn marked(alloc: Global, byte: u8) -> Result<MemDisk, Fail> {
    let mut bytes = vec![in alloc; 0; SECTOR * 64]?;
    bytes.resize(SECTOR * 65, byte)?;
    bytes.resize(SECTOR * 128, 0)?;
    Ok(MemDisk::new(alloc, bytes, Vec::new(alloc), 100)?)
}

// The array with column 0 dead, and a device behind those of the columns.
fn dead(alloc: Global, items: &[Item]) -> Result<Setup<Spared, MemDisk>, Fail>
    ensures { IfOk result (λ setup. setup.trace ≡ false) }
{
    let mut setup = setup(alloc, Spared, &[&[], &[], &[], &[]], &[items])?;
    if let Some(column) = setup.columns.get_mut(0) {
        *column = Column::Dead;
    }
    if let Some(device) = setup.devices.get_mut(1) {
        *device = Some(marked(alloc, 5)?);
    }
    if let Some(device) = setup.devices.get_mut(2) {
        *device = Some(marked(alloc, 3)?);
    }
    setup.devices.push(Some(device(alloc, 128, &[])?))?;
    Ok(setup)
}

// Rebuilds the first stripe alone; whether that was done.
fn first_done(core: &mut Core<Spared, MemDisk>) -> bool
    requires { IsSteady ⟦<Spared as Layout>⟧ ⟦<MemDisk as Disk>⟧ core.old.array }
    ensures { IsSteady ⟦<Spared as Layout>⟧ ⟦<MemDisk as Disk>⟧ core.new.array }
{
    if !reaches(core, 16, BEGIN) {
        return false;
    }
    turn(core, BEGIN);
    reaches(core, 16, BEGIN)
}

fn are(rt: &impl Abort, closed: &Closed<Spared, MemDisk>, first: Column, second: Column) {
    columns(
        rt,
        closed,
        &[
            first,
            second,
            Column::Live { device: 2 },
            Column::Live { device: 3 },
        ],
    );
}

fn rebuilt(rt: &impl Abort, closed: &Closed<Spared, MemDisk>, wanted: u32) {
    same(rt, closed.rebuilt, wanted);
}

// Column 0 is rebuilt onto device 4.
fn filled(alloc: Global) -> Result<Closed<Spared, MemDisk>, Fail> {
    let core = filling(alloc, dead(alloc, &[])?, 0, 4)?;
    drained(core)
}

#[test]
fn a_dead_column_is_rebuilt_onto_a_device(rt: HostRuntime) -> Result<(), Fail> {
    let closed = filled(rt.alloc())?;
    are(
        &rt,
        &closed,
        Column::Filling { device: 4, done: 3 },
        Column::Live { device: 1 },
    );
    rebuilt(&rt, &closed, 3);
    holds(&rt, &closed, 4, 64, &[6]);
    has_calls(&rt, &closed, 1, &[(0, 64, 1, true), (0, 67, 1, true)]);
    let calls = [(1, 64, 1, true), (1, 66, 1, true), (1, 67, 1, true)];
    has_calls(&rt, &closed, 4, &calls);
    Ok(())
}

// Column 0 is rebuilt into the spare places.
fn spread(alloc: Global) -> Result<Closed<Spared, MemDisk>, Fail> {
    let core = spreading(alloc, dead(alloc, &[])?, 0)?;
    drained(core)
}

// Stripe 0 has its spare place on column 3, stripe 2 on column 1, stripe 3 on column 2.
#[test]
fn a_dead_column_is_rebuilt_into_the_spare_places(rt: HostRuntime) -> Result<(), Fail> {
    let closed = spread(rt.alloc())?;
    are(&rt, &closed, Column::Spread, Column::Live { device: 1 });
    rebuilt(&rt, &closed, 3);
    holds(&rt, &closed, 3, 64, &[6]);
    let calls = [(0, 64, 1, true), (1, 66, 1, true), (0, 67, 1, true)];
    has_calls(&rt, &closed, 1, &calls);
    let calls = [(1, 64, 1, true), (0, 66, 1, true), (0, 67, 1, true)];
    has_calls(&rt, &closed, 3, &calls);
    Ok(())
}

// Column 0 is spread, and then column 1 fails; a client reads every block.
fn behind(rt: &impl Abort, alloc: Global) -> Result<Closed<Spared, MemDisk>, Fail> {
    let mut core = spreading(alloc, dead(alloc, &[read(0, 8)])?, 0)?;
    serve(&mut core, 16);
    same(rt, column_fails(&mut core, 1), true);
    drained(core)
}

// In each stripe at most one unit is missing, and every block is read.
#[test]
fn a_column_that_fails_behind_the_spreading_loses_nothing(rt: HostRuntime) -> Result<(), Fail> {
    let closed = behind(&rt, rt.alloc())?;
    are(&rt, &closed, Column::Spread, Column::Dead);
    lost(&rt, &closed, None);
    rebuilt(&rt, &closed, 3);
    replied(&rt, &closed, 0, &[Reply::Data]);
    handed(&rt, &closed, &[6, 5, 0, 0, 0, 0, 0, 0]);
    Ok(())
}

// Stripe 0 is spread and no other, and then column 2 fails; a client reads every block.
fn meanwhile(rt: &impl Abort, alloc: Global) -> Result<Closed<Spared, MemDisk>, Fail> {
    let mut core = spreading(alloc, dead(alloc, &[read(0, 8)])?, 0)?;
    same(rt, first_done(&mut core), true);
    same(rt, column_fails(&mut core, 2), true);
    drained(core)
}

// Stripe 2 has a unit on column 2 and one on column 0.
#[test]
fn a_column_that_fails_while_another_is_spread_may_lose_the_array(
    rt: HostRuntime,
) -> Result<(), Fail> {
    let closed = meanwhile(&rt, rt.alloc())?;
    let loss = Loss {
        first: 0,
        second: 2,
        stripe: 2,
    };
    lost(&rt, &closed, Some(loss));
    rebuilt(&rt, &closed, 1);
    replied(&rt, &closed, 0, &[Reply::Lost]);
    holds(&rt, &closed, 3, 64, &[6]);
    Ok(())
}
