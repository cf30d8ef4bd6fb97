//! One round: the labels of all columns, in ascending order.
ghost use Rattle.std.specs.Prelude.{◌≡◌, ◌<◌, ◌≤◌, ◌+◌, length, All, IsSome, true, false};
ghost use Rattle.blk_disk.specs.Disk.{Rose, Tells, call_of};
ghost use Rattle.blk_disk.specs.Devices.{Stays, device_at, size_of};
ghost use Rattle.raid_label.specs.Bytes.{IsHeld, bytes_of};
ghost use Rattle.top_rounds.specs.Labels.{IsLabelFor, IsNumbered, given_up, seating_of, with_round};
ghost use Rattle.top_rounds.specs.Passes.{AreLabelled, CanBeLabelled, IsLabelling, IsTry, LabelsColumn};
ghost use Rattle.eng_cols.specs.Cols.{HasDeviceOn};

use crate::seating::{filling, give_up, seats};
use blk_disk::{Disk, Failed, SECTOR};
use eng_cols::Column;
use raid_label::{Label, write_label};

// Writes a label into sector 0 of one device, and says whether that went well.
fn write_disk<D: Disk>(disk: &mut D, label: &Label) -> bool
    requires held { IsHeld label.now }
    requires sized { 1 ≤ D.size disk.old }
    ensures stays { Stays D.Disk (λ n. n ≡ 0) disk.old disk.new }
    ensures cause { result ≡ false → Rose (D.faults disk.old) (D.faults disk.new) }
    ensures held { result ≡ true → D.tells → D.sector disk.new 0 ≡ bytes_of label.now }
    ensures told { Tells (D.calls disk.old) (D.calls disk.new) (call_of 1 0 512 result) }
{
    let mut sector = [0; SECTOR];
    write_label(label, &mut sector);
    match disk.write(0, &sector) {
        Ok(()) => true,
        Err(Failed) => false,
    }
}

fn write_device<D: Disk>(devices: &mut [Option<D>], device: u32, label: &Label) -> bool
    requires within { device < length devices.old }
    requires there { IsSome (device_at devices.old device) }
    requires sized { 1 ≤ size_of D.Disk devices.old device }
    requires held { IsHeld label.now }
    ensures { IsLabelling D.Disk device label.now devices.old devices.new result }
{
    match &mut devices[device as usize] {
        Some(disk) => write_disk(disk, label),
        None => unreachable!(),
    }
}

// Writes the label of a column that has a device; where that fails the column is dead.
fn write_column<D: Disk>(
    devices: &mut [Option<D>],
    columns: &mut [Column],
    column: u32,
    device: u32,
    label: &Label,
) -> bool
    requires live { HasDeviceOn columns.old column device }
    requires within { device < length devices.old }
    requires there { IsSome (device_at devices.old device) }
    requires sized { 1 ≤ size_of D.Disk devices.old device }
    requires held { IsHeld label.now }
    ensures { LabelsColumn D.Disk column label.now
        columns.old columns.new devices.old devices.new result }
{
    let own = Label { column, ..*label };
    let good = write_device(devices, device, &own);
    if !good {
        columns[column as usize] = Column::Dead;
    }
    good
}

// Writes the label of each column with a device up to the first whose write fails, which is then dead. Says
// whether none failed.
fn write_until_one_fails<D: Disk>(
    devices: &mut [Option<D>],
    columns: &mut [Column],
    label: &Label,
) -> bool
    requires array { CanBeLabelled D.Disk columns.old devices.old }
    requires held { IsHeld label.now }
    ensures { IsTry D.Disk label.now columns.old columns.new devices.old devices.new result }
{
    for column in 0..columns.len() as u32 {
        if let Some(device) = columns[column as usize].device() {
            if !write_column(devices, columns, column, device, label) {
                return false;
            }
        }
    }
    true
}

// Writes the label of each column with a device. One whose write fails is dead.
fn write_all<D: Disk>(devices: &mut [Option<D>], columns: &mut [Column], label: &Label)
    requires array { CanBeLabelled D.Disk columns.old devices.old }
    requires held { IsHeld label.now }
    ensures { AreLabelled D.Disk (length columns.old) label.now
        columns.old columns.new devices.old devices.new }
{
    for column in 0..columns.len() as u32 {
        if let Some(device) = columns[column as usize].device() {
            let _ = write_column(devices, columns, column, device, label);
        }
    }
}

// The label of the next round.
fn begin(columns: &[Column], label: &mut Label)
    requires columns { length columns.now ≤ 32 }
    requires numbered { All (IsNumbered (length columns.now)) columns.now }
    requires held { IsLabelFor columns.now label.old }
    requires counter { label.old.counter < 4294967295 }
    ensures label { label.new
        ≡ with_round label.old (label.old.counter + 1) label.old.clean (seating_of columns.now) }
    ensures held { IsLabelFor columns.now label.new }
{
    label.version = 2;
    label.counter += 1;
    label.seats = seats(columns);
    (label.filling, label.done) = filling(columns);
}

/// Tries a round: the counter of the label rises by 1, its version is 2, its seats are those of the
/// columns, it names the one that is filling, with its done stripes, and it is written into sector 0
/// of the device of each column that has one, in ascending order, with the column's own number. The
/// first column whose write fails is dead, and ends the round. Says whether none failed.
///
/// Each device in use is a column's disk or one of at most 8 spares, and has a sector.
pub fn try_round<D: Disk>(
    devices: &mut [Option<D>],
    columns: &mut [Column],
    label: &mut Label,
) -> bool
    requires array { CanBeLabelled D.Disk columns.old devices.old }
    requires held { IsLabelFor columns.old label.old }
    requires counter { label.old.counter < 4294967295 }
    ensures label { label.new
        ≡ with_round label.old (label.old.counter + 1) label.old.clean (seating_of columns.old) }
    ensures held { IsLabelFor columns.new label.new }
    ensures pass { IsTry D.Disk label.new columns.old columns.new devices.old devices.new result }
{
    begin(columns, label);
    write_until_one_fails(devices, columns, label)
}

/// Writes the one round of an array that is lost. A column that was filling is dead. The labels aren't
/// clean, and failed writes are passed over: the columns are dead.
///
/// All else is as in a round that is tried.
pub fn last_round<D: Disk>(devices: &mut [Option<D>], columns: &mut [Column], label: &mut Label)
    requires array { CanBeLabelled D.Disk columns.old devices.old }
    requires held { IsLabelFor columns.old label.old }
    requires counter { label.old.counter < 4294967295 }
    ensures label { label.new
        ≡ with_round label.old (label.old.counter + 1) 0 (seating_of (given_up columns.old)) }
    ensures held { IsLabelFor columns.new label.new }
    ensures pass { AreLabelled D.Disk (length columns.old) label.new
        (given_up columns.old) columns.new devices.old devices.new }
{
    give_up(columns);
    label.clean = 0;
    begin(columns, label);
    write_all(devices, columns, label);
}
