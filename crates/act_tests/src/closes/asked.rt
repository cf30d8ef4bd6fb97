//! Arrays of devices in memory, and what tests ask of them.
ghost use Rattle.std.specs.Prelude.{◌≡◌, ◌<◌, length, IsTrue, IsSome, count_by};
ghost use Rattle.blk_disk.specs.Devices.{device_at};
ghost use Rattle.eng_cols.specs.Cols.{is_set_filling, is_set_spread};
ghost use Rattle.act_tests.specs.CloseSamples.{FitsAt};
ghost use Rattle.top_close.specs.Settled.{HaveDevices};

use blk_disk::{Disk, MemDisk, SECTOR};
use eng_cols::{Cols, Column, Loss};
use lay_core::Layout;
use std::alloc::Global;
use std::test::Fail;
use top_close::{Ending, Hand, settle};

/// A device of 65 sectors of zeros, of which the calls of these numbers fail.
pub(crate) fn device(alloc: Global, fails: &[u32]) -> Result<Option<MemDisk>, Fail> {
    let bytes = vec![in alloc; 0; SECTOR * 65]?;
    Ok(Some(MemDisk::new(alloc, bytes, fails.to_vec(alloc)?, 100)?))
}

/// Of each call of the device whether it was a settle that went well, or one that failed; None for
/// any other call.
pub(crate) fn settles(alloc: Global, device: &Option<MemDisk>) -> Result<Vec<Option<bool>>, Fail> {
    let mut seen = Vec::new(alloc);
    if let Some(disk) = device {
        for call in disk.calls() {
            let is_settle = call.kind == 2 && call.first == 0 && call.count == 0;
            seen.push(is_settle.then_some(call.good))?;
        }
    }
    Ok(seen)
}

fn is_there<D: Disk>(devices: &[Option<D>], d: usize) -> bool
    ensures { IsTrue result → IsSome (device_at devices.now d) }
{
    if d >= devices.len() {
        return false;
    }
    match &devices[d] {
        Some(_) => true,
        None => false,
    }
}

// The column is dead, or live on the device of its number, which is there.
fn fits_at<D: Disk>(columns: &[Column], devices: &[Option<D>], c: usize) -> bool
    requires { c < length columns.now }
    ensures { IsTrue result → FitsAt columns.now devices.now c }
{
    match columns[c] {
        Column::Live { device } => device as usize == c && is_there(devices, c),
        Column::Dead => true,
        Column::Filling { .. } | Column::Spread => false,
    }
}

fn fit<D: Disk>(columns: &[Column], devices: &[Option<D>]) -> bool
    ensures have { IsTrue result → HaveDevices columns.now devices.now }
    ensures filling { IsTrue result → count_by is_set_filling columns.now ≡ 0 }
    ensures spread { IsTrue result → count_by is_set_spread columns.now ≡ 0 }
{
    for c in 0..columns.len() {
        if !fits_at(columns, devices, c) {
            return false;
        }
    }
    true
}

/// Ends a run that left these columns, and this loss.
pub(crate) fn ended<L: Layout, D: Disk>(
    alloc: Global,
    layout: &L,
    devices: &mut [Option<D>],
    columns: &[Column],
    lost: Option<Loss>,
) -> Result<Ending, Fail> {
    if columns.len() != layout.columns() as usize || !fit(columns, devices) {
        return Err("no array".into());
    }
    let judge = Cols::with_room(alloc, layout.columns(), layout.stripes())?;
    let ending = Ending {
        columns: columns.to_vec(alloc)?,
        lost,
    };
    let mut hand = Hand { ending, judge };
    settle(layout, devices, &mut hand);
    Ok(hand.ending)
}
