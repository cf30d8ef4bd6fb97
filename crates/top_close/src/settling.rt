//! The settling of the devices in use.
ghost use Rattle.std.specs.Prelude.{◌≡◌, ◌<◌, ◌≤◌, ℕ, length, count_by, IsSome, IsTrue, true, false};
ghost use Rattle.blk_disk.specs.Disk.{Rose, Tells, call_of};
ghost use Rattle.blk_disk.specs.Devices.{Stays, device_at, calls_of};
ghost use Rattle.eng_cols.specs.Cols.{is_set_filling, is_set_spread, HasDeviceOn, has_device};
ghost use Rattle.top_close.specs.Calls.{EndsSettled};
ghost use Rattle.top_close.specs.Settled.{HaveDevices, IsSettling, SettlesColumn, AreSettled};

use blk_disk::{Disk, Failed};
use eng_cols::Column;

// Settles one device, and says whether that went well.
fn settle_disk<D: Disk>(disk: &mut D) -> bool
    ensures stays { Stays D.Disk (λ _. ⊥) disk.old disk.new }
    ensures cause { result ≡ false → Rose (D.faults disk.old) (D.faults disk.new) }
    ensures told { Tells (D.calls disk.old) (D.calls disk.new) (call_of 2 0 0 result) }
{
    match disk.settle() {
        Ok(()) => true,
        Err(Failed) => false,
    }
}

fn settle_device<D: Disk>(devices: &mut [Option<D>], device: u32) -> bool
    requires within { device < length devices.old }
    requires there { IsSome (device_at devices.old device) }
    ensures { IsSettling D.Disk device devices.old devices.new result }
{
    match &mut devices[device as usize] {
        Some(disk) => settle_disk(disk),
        None => unreachable!(),
    }
}

// Settles the device of a column; where that fails the column is dead.
fn settle_column<D: Disk>(
    devices: &mut [Option<D>],
    columns: &mut [Column],
    column: usize,
    device: u32,
)
    requires live { HasDeviceOn columns.old column device }
    requires within { device < length devices.old }
    requires there { IsSome (device_at devices.old device) }
    ensures { SettlesColumn D.Disk column columns.old columns.new devices.old devices.new }
{
    if !settle_device(devices, device) {
        columns[column] = Column::Dead;
    }
}

/// Settles the device of each column that has one, one after the other. A column whose device fails
/// is dead.
pub(crate) fn settle_all<D: Disk>(devices: &mut [Option<D>], columns: &mut [Column])
    requires { HaveDevices columns.old devices.old }
    ensures settled { AreSettled D.Disk (length columns.old)
        columns.old columns.new devices.old devices.new }
    ensures last { (c d : ℕ) → HasDeviceOn columns.new c d →
        EndsSettled (calls_of D.Disk devices.new d) }
    ensures filling { count_by is_set_filling columns.new ≤ count_by is_set_filling columns.old }
    ensures spread { count_by is_set_spread columns.new ≤ count_by is_set_spread columns.old }
{
    for column in 0..columns.len() {
        if let Some(device) = columns[column].device() {
            settle_column(devices, columns, column, device);
        }
    }
}
