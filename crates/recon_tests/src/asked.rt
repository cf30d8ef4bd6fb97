//! Arrays of devices in memory, what is done to them, and what tests ask of them.
ghost use Rattle.std.specs.Prelude.{◌≡◌, ◌≤◌, ◌<◌, ◌+◌, ◌*◌, length, IsTrue};
ghost use Rattle.blk_disk.specs.Devices.{size_of};
ghost use Rattle.eng_cols.specs.Settable.{IsSettable};
ghost use Rattle.raid_recon.specs.Array.{IsArray};
ghost use Rattle.raid_recon.specs.Samples.{FitsAt};

use crate::judging::{same, same_at};
use blk_disk::{Call, Disk, MemDisk, SECTOR};
use eng_cols::{Cols, Column};
use lay_core::Layout;
use raid_progress::Silent;
use raid_recon::{Room, SweepRoom, rebuild_count, sweep_check, sweep_init, sweep_sync};
use std::alloc::Global;
use std::process::Abort;
use std::test::Fail;

/// Three columns, each live on the device of its number.
pub(crate) const ALL: [Column; 3] = [
    Column::Live { device: 0 },
    Column::Live { device: 1 },
    Column::Live { device: 2 },
];

/// Which sweep it is.
#[derive(Clone, Copy, Debug, PartialEq, Eq)]
pub(crate) enum Sweep {
    Check,
    Sync,
    Init,
}

/// The sectors of a device that aren't zero: the first of them, how many, and the byte that fills
/// them.
pub(crate) type Filled = (u16, u16, u8);

/// A call by its kind, its first sector, how many, and whether it was good.
pub(crate) type Told = (u8, u64, u32, bool);

/// A sweep, what it answers, and the calls that each device then has had.
pub(crate) type Row = (Sweep, u64, &'static [&'static [Told]]);

// A device of so many sectors, of which the call of this number fails, if any.
fn device(
    alloc: Global,
    sectors: u16,
    filled: Filled,
    fails: Option<u32>,
) -> Result<MemDisk, Fail> {
    let (first, count, byte) = filled;
    let front = SECTOR * usize::from(first);
    let behind = front + SECTOR * usize::from(count);
    let mut bytes = vec![in alloc; 0; front]?;
    bytes.resize(behind, byte)?;
    bytes.resize(SECTOR * usize::from(sectors), 0)?;
    let fails = match fails {
        Some(call) => vec![in alloc; call]?,
        None => Vec::new(alloc),
    };
    Ok(MemDisk::new(alloc, bytes, fails, 100)?)
}

// The call of this device that fails, where that is said of it.
fn fails_of(device: usize, failing: Option<(usize, u32)>) -> Option<u32> {
    match failing {
        Some((number, call)) if number == device => Some(call),
        _ => None,
    }
}

/// Devices of so many sectors, each filled as its row says, or none where there is no row. Of the one of
/// the number in `failing` the call of the number beside it fails.
pub(crate) fn devices(
    alloc: Global,
    sectors: u16,
    rows: &[Option<Filled>],
    failing: Option<(usize, u32)>,
) -> Result<Vec<Option<MemDisk>>, Fail> {
    let mut devices = Vec::new(alloc);
    for (number, row) in rows.iter().enumerate() {
        let disk = match *row {
            Some(filled) => Some(device(alloc, sectors, filled, fails_of(number, failing))?),
            None => None,
        };
        devices.push(disk)?;
    }
    Ok(devices)
}

fn size<D: Disk>(devices: &[Option<D>], d: usize) -> u64
    ensures { result ≡ size_of D.Disk devices.now d }
{
    if d >= devices.len() {
        return 0;
    }
    match &devices[d] {
        Some(disk) => disk.sectors(),
        None => 0,
    }
}

fn fits_at<L: Layout, D: Disk>(
    layout: &L,
    columns: &[Column],
    devices: &[Option<D>],
    c: usize,
) -> bool
    requires { c < length columns.now }
    ensures { IsTrue result → FitsAt D.Disk (L.shape layout.now) columns.now devices.now c }
{
    let needs = 64 + u64::from(layout.rows()) * u64::from(layout.unit_sectors());
    match columns[c] {
        Column::Live { device } => device as usize == c && needs <= size(devices, c),
        Column::Dead => true,
        Column::Spread => c == 0,
        Column::Filling { .. } => false,
    }
}

// Whether these are an array's columns and devices, each column with the disk of its own number.
fn is_array<L: Layout, D: Disk>(layout: &L, columns: &[Column], devices: &[Option<D>]) -> bool
    ensures array { IsTrue result → IsArray D.Disk (L.shape layout.now) columns.now devices.now }
    ensures columns { IsTrue result → IsSettable (L.shape layout.now) columns.now }
{
    if columns.len() != layout.columns() as usize {
        return false;
    }
    for c in 0..columns.len() {
        if !fits_at(layout, columns, devices, c) {
            return false;
        }
    }
    true
}

/// The sweep's answer, in a room of so many bytes.
pub(crate) fn swept_in<L: Layout>(
    alloc: Global,
    kind: Sweep,
    layout: &L,
    columns: &mut [Column],
    devices: &mut [Option<MemDisk>],
    bytes: u32,
) -> Result<u64, Fail> {
    let room = Room::open(alloc, bytes)?;
    let mut room = SweepRoom::new(room, Silent);
    let mut judge = Cols::with_room(alloc, layout.columns(), layout.stripes())?;
    if !is_array(layout, columns, devices) || bytes < 1024 * layout.unit_sectors() {
        return Err("no array, or no room".into());
    }
    Ok(match kind {
        Sweep::Check => sweep_check(layout, devices, columns, &mut room, &mut judge),
        Sweep::Sync => sweep_sync(layout, devices, columns, &mut room, &mut judge),
        Sweep::Init => sweep_init(layout, devices, columns, &mut room, &mut judge),
    })
}

/// The sweep's answer in the least room, where each unit is read by a call of its own.
pub(crate) fn swept<L: Layout>(
    alloc: Global,
    kind: Sweep,
    layout: &L,
    columns: &mut [Column],
    devices: &mut [Option<MemDisk>],
) -> Result<u64, Fail> {
    let bytes = 1024 * layout.unit_sectors();
    swept_in(alloc, kind, layout, columns, devices, bytes)
}

/// How many stripes the column is rebuilt in, where these are the layout's columns.
pub(crate) fn counted<L: Layout>(layout: &L, columns: &[Column], column: u32) -> Option<u32> {
    if columns.len() == layout.columns() as usize && column < layout.columns() {
        Some(rebuild_count(layout, columns, column))
    } else {
        None
    }
}

fn disk_of(devices: &[Option<MemDisk>], number: usize) -> Option<&MemDisk> {
    match devices.get(number) {
        Some(Some(disk)) => Some(disk),
        _ => None,
    }
}

// The calls that the device has had; none where it isn't there.
fn calls_of(devices: &[Option<MemDisk>], number: usize) -> &[Call] {
    match disk_of(devices, number) {
        Some(disk) => disk.calls(),
        None => &[],
    }
}

fn call_of(told: Told) -> Call {
    let (kind, first, count, good) = told;
    Call {
        kind,
        first,
        count,
        good,
    }
}

// The device has had these calls.
fn has_calls(rt: &impl Abort, devices: &[Option<MemDisk>], number: usize, calls: &[Told]) {
    let kept = calls_of(devices, number);
    same_at(rt, number, kept.len(), calls.len());
    for (call, told) in kept.iter().zip(calls) {
        same_at(rt, number, *call, call_of(*told));
    }
}

/// The devices have had these calls, each those of its list.
pub(crate) fn have_calls(rt: &impl Abort, devices: &[Option<MemDisk>], calls: &[&[Told]]) {
    for (number, told) in calls.iter().enumerate() {
        has_calls(rt, devices, number, *told);
    }
}

/// The device has had so many calls.
pub(crate) fn count_calls(devices: &[Option<MemDisk>], number: usize) -> usize {
    calls_of(devices, number).len()
}

/// The first byte of a device's sector is this one.
pub(crate) fn begins(
    rt: &impl Abort,
    devices: &[Option<MemDisk>],
    number: usize,
    sector: u16,
    byte: u8,
) {
    let found = match disk_of(devices, number) {
        Some(disk) => disk.bytes().get(SECTOR * usize::from(sector)).copied(),
        None => None,
    };
    same(rt, found, Some(byte));
}
