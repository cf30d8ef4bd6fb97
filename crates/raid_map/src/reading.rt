//! The maps that the devices in use have.
ghost use Rattle.std.specs.Prelude.{◌≡◌, ◌<◌, ◌≤◌, ℕ, length, is_some, false};
ghost use Rattle.blk_disk.specs.Disk.{Rose, Tells, call_of};
ghost use Rattle.blk_disk.specs.Devices.{Stays, size_of, sector_of};
ghost use Rattle.lay_core.specs.Layout.{Shape};
ghost use Rattle.raid_map.specs.Marking.{CanBeMarked};
ghost use Rattle.raid_map.specs.Reading.{Grows, AddsRead, IsReading, ReadsColumn, AreRead, IsUnion};
ghost use Rattle.eng_cols.specs.Cols.{HasDeviceOn};

use crate::map::Map;
use blk_disk::{Disk, Failed, SECTOR};
use eng_cols::Column;

// Reads sector 1 of a device and adds the regions that it marks, if it is a map of the array, and says whether it is.
// Nothing where the read failed.
fn read_disk<D: Disk>(map: &mut Map, disk: &mut D, sector: &mut [u8]) -> Option<bool>
    requires long { length sector.old ≡ 512 }
    requires sized { 2 ≤ D.size disk.old }
    ensures stays { Stays D.Disk (λ _. ⊥) disk.old disk.new }
    ensures cause { is_some result ≡ false → Rose (D.faults disk.old) (D.faults disk.new) }
    ensures told { Tells (D.calls disk.old) (D.calls disk.new) (call_of 0 1 512 (is_some result)) }
    ensures adds { AddsRead D.tells map.old map.new (D.sector disk.old 1) result }
{
    match disk.read(1, sector) {
        Ok(()) => Some(map.add_from(sector)),
        Err(Failed) => None,
    }
}

fn read_device<D: Disk>(map: &mut Map, devices: &mut [Option<D>], device: u32) -> Option<bool>
    requires within { device < length devices.old }
    requires sized { 2 ≤ size_of D.Disk devices.old device }
    ensures reading { IsReading D.Disk device devices.old devices.new (is_some result) }
    ensures adds { AddsRead D.tells map.old map.new (sector_of D.Disk devices.old device 1) result }
{
    let mut sector = [0; SECTOR];
    match &mut devices[device as usize] {
        Some(disk) => read_disk(map, disk, &mut sector),
        None => unreachable!(),
    }
}

// Reads the map of a column's device; where that fails the column is dead.
fn read_column<D: Disk>(
    map: &mut Map,
    devices: &mut [Option<D>],
    columns: &mut [Column],
    column: usize,
    device: u32,
) -> bool
    requires on { HasDeviceOn columns.old column device }
    requires column { column < length columns.old }
    requires within { device < length devices.old }
    requires sized { 2 ≤ size_of D.Disk devices.old device }
    ensures { ReadsColumn D.Disk column columns.old columns.new devices.old devices.new
        map.old map.new result }
{
    match read_device(map, devices, device) {
        Some(found) => found,
        None => {
            columns[column] = Column::Dead;
            false
        }
    }
}

/// Reads sector 1 of each device in use and adds the regions that its map marks, so that a map without marks becomes
/// the union of the devices' maps. It is true where one of the devices has a map of the array. A device that fails
/// makes its column dead, and counts as not in use.
pub fn read_maps<D: Disk>(map: &mut Map, devices: &mut [Option<D>], columns: &mut [Column]) -> bool
    requires { CanBeMarked D.Disk columns.old devices.old }
    ensures read { AreRead D.Disk (length columns.old) columns.old columns.new
        devices.old devices.new }
    ensures grows { Grows map.old map.new }
    ensures union { D.tells → (y : Shape) → y.stripes ≡ map.old.stripes
        → IsUnion D.Disk y columns.new devices.new map.old map.new result }
{
    let mut any = false;
    for column in 0..columns.len() {
        if let Some(device) = columns[column].device() {
            if read_column(map, devices, columns, column, device) {
                any = true;
            }
        }
    }
    any
}
