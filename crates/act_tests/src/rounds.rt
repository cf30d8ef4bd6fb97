//! What no clause can show: labels in their bytes and the calls of devices in memory, worked by
//! hand.
ghost use Rattle.std.specs.Prelude.{◌≡◌, ◌<◌, ◌≤◌, length, IsTrue, IsSome, count_by};
ghost use Rattle.blk_disk.specs.Devices.{device_at, size_of};
ghost use Rattle.eng_cols.specs.Cols.{is_set_filling, is_set_spread};
ghost use Rattle.top_rounds.specs.Passes.{CanBeLabelled};
ghost use Rattle.act_tests.specs.RoundSamples.{FitsAt};

use crate::judging::{holds, same};
use blk_disk::{Disk, MemDisk, SECTOR};
use eng_cols::{Cols, Column, Loss};
use lay_plain::Raid5;
use raid_label::Label;
use std::alloc::Global;
use std::process::Abort;
use std::test::Fail;
use top_close::{Ending, Hand};
use top_rounds::{round, seats};

// The label that was written last to three columns of level 5.
const LAST: Label = Label {
    version: 1,
    serial: 1001,
    counter: 7,
    column: 2,
    columns: 3,
    unit: 1,
    rows: 1,
    level: 53,
    clean: 1,
    b: 0,
    k: 0,
    r: 0,
    lambda: 0,
    seats: [0; 32],
    filling: 0,
    done: 0,
};

// Whether there is a device of this number, and it has a sector.
fn is_there<D: Disk>(devices: &[Option<D>], d: usize) -> bool
    ensures there { IsTrue result → IsSome (device_at devices.now d) }
    ensures sized { IsTrue result → 1 ≤ size_of D.Disk devices.now d }
{
    if d >= devices.len() {
        return false;
    }
    match &devices[d] {
        Some(disk) => disk.sectors() >= 1,
        None => false,
    }
}

// The column is dead, or live on the device of its number, which is there and has a sector.
fn fits_at<D: Disk>(columns: &[Column], devices: &[Option<D>], c: usize) -> bool
    requires { c < length columns.now }
    ensures { IsTrue result → FitsAt D.Disk columns.now devices.now c }
{
    match columns[c] {
        Column::Live { device } => device as usize == c && is_there(devices, c),
        Column::Dead => true,
        Column::Filling { .. } | Column::Spread => false,
    }
}

// Whether each column is so, and they aren't too many.
fn fit<D: Disk>(columns: &[Column], devices: &[Option<D>]) -> bool
    ensures can { IsTrue result → CanBeLabelled D.Disk columns.now devices.now }
    ensures filling { IsTrue result → count_by is_set_filling columns.now ≡ 0 }
    ensures spread { IsTrue result → count_by is_set_spread columns.now ≡ 0 }
{
    if columns.len() > 32 {
        return false;
    }
    for c in 0..columns.len() {
        if !fits_at(columns, devices, c) {
            return false;
        }
    }
    true
}

// Three devices of two sectors of 238, of which the first call fails where that is said.
fn devices(alloc: Global, fails: [bool; 3]) -> Result<[Option<MemDisk>; 3], Fail> {
    Ok([
        device(alloc, fails[0])?,
        device(alloc, fails[1])?,
        device(alloc, fails[2])?,
    ])
}

fn device(alloc: Global, fails: bool) -> Result<Option<MemDisk>, Fail> {
    let bytes = vec![in alloc; 0xee; SECTOR * 2]?;
    let first: [u32; 1] = if fails { [0] } else { [99] };
    Ok(Some(MemDisk::new(alloc, bytes, first.to_vec(alloc)?, 100)?))
}

// Writes the labels of three columns behind that label, and says how that ended.
fn written(
    alloc: Global,
    devices: &mut [Option<MemDisk>],
    lost: Option<Loss>,
    label: &mut Label,
) -> Result<Ending, Fail> {
    let layout = Raid5::new(3, 1, 1)?;
    let mut columns = Vec::new(alloc);
    for device in 0..3 {
        columns.push(Column::Live { device })?;
    }
    if !fit(&columns, devices) || columns.len() != 3 {
        return Err("no array".into());
    }
    *label = LAST;
    let judge = Cols::with_room(alloc, 3, 1)?;
    let ending = Ending { columns, lost };
    let mut hand = Hand { ending, judge };
    round(&layout, devices, &mut hand, label);
    Ok(hand.ending)
}

// Of a label on a device: counter, column, clean field, and the first three seats.
fn told(device: &Option<MemDisk>) -> Option<[u8; 6]> {
    let bytes = device.as_ref()?.bytes();
    if bytes.len() != 2 * SECTOR || !bytes.starts_with(b"RFLABEL1") {
        return None;
    }
    Some([
        bytes[16], bytes[20], bytes[40], bytes[60], bytes[61], bytes[62],
    ])
}

// Whether the calls of a device were writes of its first sector that went well or not, as said.
fn had(device: &Option<MemDisk>, good: &[bool]) -> bool {
    let Some(disk) = device else {
        return false;
    };
    let calls = disk.calls();
    calls.len() == good.len()
        && calls.iter().zip(good).all(|(call, good)| {
            call.kind == 1 && call.first == 0 && call.count == 1 && call.good == *good
        })
}

fn see(rt: &impl Abort, devices: &[Option<MemDisk>; 3], labels: [Option<[u8; 6]>; 3]) {
    for d in 0..3 {
        same(rt, told(&devices[d]), labels[d]);
    }
}

const DEAD: Column = Column::Dead;

#[test]
fn each_device_gets_the_label_of_its_column(rt: HostRuntime) -> Result<(), Fail> {
    let mut disks = devices(rt.alloc(), [false, false, false])?;
    let mut label = LAST;
    let ending = written(rt.alloc(), &mut disks, None, &mut label)?;
    same(&rt, ending.lost, None);
    holds(&rt, label.counter == 8 && label.clean == 1);
    see(
        &rt,
        &disks,
        [
            Some([8, 0, 1, 0, 0, 0]),
            Some([8, 1, 1, 0, 0, 0]),
            Some([8, 2, 1, 0, 0, 0]),
        ],
    );
    holds(
        &rt,
        had(&disks[0], &[true]) && had(&disks[1], &[true]) && had(&disks[2], &[true]),
    );
    Ok(())
}

#[test]
fn behind_a_failed_write_there_is_a_new_round(rt: HostRuntime) -> Result<(), Fail> {
    let mut disks = devices(rt.alloc(), [false, true, false])?;
    let mut label = LAST;
    let ending = written(rt.alloc(), &mut disks, None, &mut label)?;
    same(&rt, ending.lost, None);
    same(
        &rt,
        ending.columns.as_slice(),
        [Column::Live { device: 0 }, DEAD, Column::Live { device: 2 }].as_slice(),
    );
    see(
        &rt,
        &disks,
        [Some([9, 0, 1, 0, 255, 0]), None, Some([9, 2, 1, 0, 255, 0])],
    );
    holds(&rt, had(&disks[0], &[true, true]));
    holds(&rt, had(&disks[1], &[false]) && had(&disks[2], &[true]));
    Ok(())
}

#[test]
fn a_lost_array_has_one_round_more(rt: HostRuntime) -> Result<(), Fail> {
    let mut disks = devices(rt.alloc(), [true, false, true])?;
    let mut label = LAST;
    let ending = written(rt.alloc(), &mut disks, None, &mut label)?;
    same(
        &rt,
        ending.lost,
        Some(Loss {
            first: 0,
            second: 2,
            stripe: 0,
        }),
    );
    see(&rt, &disks, [None, Some([10, 1, 0, 255, 0, 255]), None]);
    holds(&rt, had(&disks[0], &[false]) && had(&disks[2], &[false]));
    holds(&rt, had(&disks[1], &[true, true]));
    Ok(())
}

#[test]
fn an_array_that_was_lost_has_one_round(rt: HostRuntime) -> Result<(), Fail> {
    let lost = Some(Loss {
        first: 0,
        second: 1,
        stripe: 0,
    });
    let mut disks = devices(rt.alloc(), [true, false, false])?;
    let mut label = LAST;
    let ending = written(rt.alloc(), &mut disks, lost, &mut label)?;
    same(&rt, ending.lost, lost);
    see(
        &rt,
        &disks,
        [None, Some([8, 1, 0, 0, 0, 0]), Some([8, 2, 0, 0, 0, 0])],
    );
    Ok(())
}

// Of four columns device 5 is spare 1.
#[test]
fn seats_name_disks_spares_spare_places_and_dead_columns(rt: HostRuntime) {
    let columns = [
        Column::Live { device: 0 },
        Column::Live { device: 5 },
        Column::Dead,
        Column::Spread,
    ];
    let mut wanted = [0; 32];
    wanted[1] = 2;
    wanted[2] = 255;
    wanted[3] = 254;
    same(&rt, seats(&columns), wanted);
}
