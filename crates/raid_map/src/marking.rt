//! The marking of the devices in use.
ghost use Rattle.std.specs.Prelude.{◌≡◌, ◌<◌, ◌≤◌, ℕ, List, length, Some, true, false};
ghost use Rattle.blk_disk.specs.Disk.{Rose};
ghost use Rattle.blk_disk.specs.Devices.{Stays, device_at, size_of};
ghost use Rattle.blk_disk.specs.Stops.{Left, MayHold};
ghost use Rattle.raid_map.specs.Regions.{IsBytesOf};
ghost use Rattle.raid_map.specs.Marking.{CanBeMarked, MarksOn, IsSafeOn, IsMarking, MarksColumn, AreMarked};
ghost use Rattle.eng_cols.specs.Cols.{HasDeviceOn};

use crate::map::Map;
use blk_disk::{Failed, SECTOR, StopDisk};
use eng_cols::Column;

// Writes sector 1 of a device and settles it, and says whether both went well.
fn mark_disk<D: StopDisk>(disk: &mut D, sector: &[u8]) -> bool
    requires long { length sector.now ≡ 512 }
    requires sized { 2 ≤ D.size disk.old }
    ensures stays { Stays D.Disk (λ n. n ≡ 1) disk.old disk.new }
    ensures cause { result ≡ false → Rose (D.faults disk.old) (D.faults disk.new) }
    ensures safe { result ≡ true → IsSafeOn D.Disk disk.new sector.now }
    ensures told { MarksOn (D.calls disk.old) (D.calls disk.new) result }
{
    match disk.write(1, sector) {
        Ok(()) => {}
        Err(Failed) => return false,
    }
    match disk.settle() {
        Ok(()) => true,
        Err(Failed) => false,
    }
}

fn mark_device<D: StopDisk>(devices: &mut [Option<D>], device: u32, sector: &[u8]) -> bool
    requires long { length sector.now ≡ 512 }
    requires within { device < length devices.old }
    requires sized { 2 ≤ size_of D.Disk devices.old device }
    ensures { IsMarking D.Disk device sector.now devices.old devices.new result }
{
    match &mut devices[device as usize] {
        Some(disk) => mark_disk(disk, sector),
        None => unreachable!(),
    }
}

// Marks the device of a column; where that fails the column is dead.
fn mark_column<D: StopDisk>(
    devices: &mut [Option<D>],
    columns: &mut [Column],
    column: usize,
    device: u32,
    sector: &[u8],
)
    requires long { length sector.now ≡ 512 }
    requires on { HasDeviceOn columns.old column device }
    requires column { column < length columns.old }
    requires within { device < length devices.old }
    requires sized { 2 ≤ size_of D.Disk devices.old device }
    ensures { MarksColumn D.Disk column sector.now columns.old columns.new devices.old devices.new }
{
    if !mark_device(devices, device, sector) {
        columns[column] = Column::Dead;
    }
}

fn mark_each<D: StopDisk>(devices: &mut [Option<D>], columns: &mut [Column], sector: &[u8])
    requires long { length sector.now ≡ 512 }
    requires can { CanBeMarked D.Disk columns.old devices.old }
    ensures marked { AreMarked D.Disk (length columns.old) sector.now columns.old columns.new
        devices.old devices.new }
    ensures count { length columns.new ≡ length columns.old }
{
    for column in 0..columns.len() {
        match columns[column].device() {
            Some(device) => mark_column(devices, columns, column, device, sector),
            None => {}
        }
    }
}

/// Writes the map into sector 1 of each device in use and settles the device. A device that fails
/// makes its column dead. Then every device in use has the map, whatever a stop leaves of it.
pub fn mark_all<D: StopDisk>(map: &Map, devices: &mut [Option<D>], columns: &mut [Column])
    requires { CanBeMarked D.Disk columns.old devices.old }
    ensures marked { (bytes : List ℕ) × IsBytesOf map.now bytes
        × AreMarked D.Disk (length columns.old)
        bytes columns.old columns.new devices.old devices.new }
    ensures images { D.tells → (c d : ℕ) → HasDeviceOn columns.new c d → (x : D)
        → device_at devices.new d ≡ Some x → (left : Left) → D.left x ≡ Some left
        → (held : List ℕ) → MayHold left 1 held → IsBytesOf map.now held }
{
    let mut sector = [0; SECTOR];
    map.write_to(&mut sector);
    mark_each(devices, columns, &sector);
}
