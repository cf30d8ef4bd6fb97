//! Cores over small setups that begin a rebuild of a dead column, and columns that fail by a call.
ghost use Rattle.std.specs.Prelude.{◌≡◌, ◌<◌, ℕ, Some, false, IfOk, IsTrue, IsSome, slice_get};
ghost use Rattle.eng_array.specs.Steady.{IsSteady};

use super::opening::{has_sectors, opened};
use blk_disk::Disk;
use eng_array::{Core, Event, Setup};
use eng_cols::Column;
use lay_core::Layout;
use std::alloc::Global;
use std::test::Fail;

fn is_dead(columns: &[Column], column: u32) -> bool
    ensures { IsTrue result → slice_get columns.now column ≡ Some Column.Dead }
{
    match columns.get(column as usize) {
        Some(Column::Dead) => true,
        _ => false,
    }
}

// A core that begins to rebuild a dead column onto a device behind those of the columns.
pub(super) fn filling<L: Layout + Drop, D: Disk + Drop>(
    alloc: Global,
    setup: Setup<L, D>,
    column: u32,
    device: u32,
) -> Result<Core<L, D>, Fail>
    requires { setup.trace ≡ false }
    ensures { IfOk result (λ core. IsSteady L.Layout D.Disk core.array) }
{
    let need = 64 + u64::from(setup.layout.rows()) * u64::from(setup.layout.unit_sectors());
    if !is_dead(&setup.columns, column) {
        return Err(Fail::from("the column isn't dead"));
    }
    if (device as usize) < setup.columns.len() {
        return Err(Fail::from("a column's device"));
    }
    if !has_sectors(&setup.devices, device as usize, need) {
        return Err(Fail::from("no device"));
    }
    match opened(alloc, setup) {
        Ok(core) => {
            let mut core = core;
            core.fill(column, device, u32::MAX);
            Ok(core)
        }
        Err(fail) => Err(fail),
    }
}

// A core that begins to rebuild a dead column into the spare places.
pub(super) fn spreading<L: Layout + Drop, D: Disk + Drop>(
    alloc: Global,
    setup: Setup<L, D>,
    column: u32,
) -> Result<Core<L, D>, Fail>
    requires untraced { setup.trace ≡ false }
    requires spares { (s : ℕ) → s < (L.shape setup.layout).stripes
        → IsSome ((L.shape setup.layout).spare s) }
    ensures { IfOk result (λ core. IsSteady L.Layout D.Disk core.array) }
{
    if !is_dead(&setup.columns, column) {
        return Err(Fail::from("the column isn't dead"));
    }
    match opened(alloc, setup) {
        Ok(core) => {
            let mut core = core;
            core.spread(column);
            Ok(core)
        }
        Err(fail) => Err(fail),
    }
}

// The column fails, if client 0 can begin an item; whether it was so.
pub(super) fn column_fails<L: Layout, D: Disk>(core: &mut Core<L, D>, column: u32) -> bool
    requires steady { IsSteady L.Layout D.Disk core.old.array }
    requires column { column < (L.shape core.old.array.layout).columns }
    ensures { IsSteady L.Layout D.Disk core.new.array }
{
    if !core.can(Event::Begin { client: 0 }) {
        return false;
    }
    core.fail(column);
    true
}
