//! Arrays of devices in memory, what is done to them, and what tests ask of them.
ghost use Rattle.std.specs.Prelude.{◌≡◌, ◌<◌, ◌+◌, ◌*◌, length, IsTrue};
ghost use Rattle.blk_disk.specs.Devices.{size_of};
ghost use Rattle.top_acts.specs.Begun.{CanAct};
ghost use Rattle.act_tests.specs.ActSamples.{FitsAt};

use crate::judging::same;
use blk_disk::{Call, Disk, MemDisk, SECTOR};
use eng_cols::{Cols, Column, Loss};
use lay_core::Layout;
use lay_plain::Raid5;
use raid_label::Label;
use raid_map::Map;
use raid_progress::Silent;
use raid_recon::{Room, SweepRoom};
use std::alloc::Global;
use std::process::Abort;
use std::test::Fail;
use top_acts::{
    Done, Maps, Notice, Opening, Renewal, Sweeps, begin_labelled, check, close, end_labelled,
    fail_column, kill, label, renew, renew_unlabelled,
};
use top_close::{Ending, Hand, loss_of};

/// The label that was written last. Its array is clean.
pub(crate) const LAST: Label = Label {
    version: 1,
    serial: 1001,
    counter: 7,
    column: 2,
    columns: 3,
    unit: 1,
    rows: 3,
    level: 53,
    clean: 1,
    b: 0,
    k: 0,
    r: 0,
    lambda: 0,
    seats: [0; 32],
    filling: 0,
    done: 0,
};

/// What is done to an array.
#[derive(Clone, Copy)]
pub(crate) enum Act {
    Check,
    Kill(u32),
    Fail(u32),
    Label,
    Begin(bool),
    /// So many stripes are swept, the first ones; and so many are marked.
    Map(u32, u32),
    /// The component of this column is absent, and a map without marks is kept.
    Absent(u32),
    Close,
    End(Option<Loss>),
    Renew(Renewal),
    RenewUnlabelled(Renewal),
}

fn size<D: Disk>(devices: &[Option<D>], d: usize) -> u64
    ensures { result ≡ size_of D.Disk devices.now d }
{
    if d >= devices.len() {
        return 0;
    }
    match &devices[d] {
        Some(disk) => disk.sectors(),
        None => 0,
    }
}

fn fits_at<L: Layout, D: Disk>(
    layout: &L,
    columns: &[Column],
    devices: &[Option<D>],
    c: usize,
) -> bool
    requires { c < length columns.now }
    ensures { IsTrue result → FitsAt D.Disk (L.shape layout.now) columns.now devices.now c }
{
    let needs = 64 + u64::from(layout.rows()) * u64::from(layout.unit_sectors());
    match columns[c] {
        Column::Live { device } => device as usize == c && needs <= size(devices, c),
        Column::Dead => true,
        Column::Spread | Column::Filling { .. } => false,
    }
}

/// Whether these are an array's columns and devices, each column with the disk of its own number.
pub(crate) fn can_act<L: Layout, D: Disk>(
    layout: &L,
    columns: &[Column],
    devices: &[Option<D>],
) -> bool
    ensures { IsTrue result → CanAct D.Disk (L.shape layout.now) columns.now devices.now }
{
    if columns.len() != layout.columns() as usize {
        return false;
    }
    if columns.len() > 32 {
        return false;
    }
    for c in 0..columns.len() {
        if !fits_at(layout, columns, devices, c) {
            return false;
        }
    }
    true
}

/// Three devices of 67 sectors, which hold zeros but for the rows of the first, so that no stripe is
/// in sync. Of each the call of one number fails; a number that is greater than there are calls
/// stands for none.
pub(crate) fn devices(alloc: Global, fails: [u32; 3]) -> Result<[Option<MemDisk>; 3], Fail> {
    Ok([
        device(alloc, 1, fails[0])?,
        device(alloc, 0, fails[1])?,
        device(alloc, 0, fails[2])?,
    ])
}

fn device(alloc: Global, byte: u8, fails: u32) -> Result<Option<MemDisk>, Fail> {
    let mut bytes = vec![in alloc; 0; SECTOR * 67]?;
    bytes.as_mut_slice()[SECTOR * 64..SECTOR * 67].fill(byte);
    let fails = [fails].to_vec(alloc)?;
    Ok(Some(MemDisk::new(alloc, bytes, fails, 100)?))
}

/// What comes of an act on such devices of level 5, each of which is in use. The label is the
/// newest's, and then the label of the last round.
pub(crate) fn acted(
    alloc: Global,
    act: Act,
    devices: &mut [Option<MemDisk>],
    newest: &mut Label,
) -> Result<(Done, Ending), Fail> {
    acted_on(alloc, &Raid5::new(3, 1, 3)?, act, devices, newest)
}

// The column of this number, as the array is opened.
fn column_in(act: Act, device: u32) -> Column {
    match act {
        Act::Absent(column) if column == device => Column::Dead,
        _ => Column::Live { device },
    }
}

/// The same of another layout.
pub(crate) fn acted_on<L: Layout>(
    alloc: Global,
    layout: &L,
    act: Act,
    devices: &mut [Option<MemDisk>],
    newest: &mut Label,
) -> Result<(Done, Ending), Fail> {
    let mut columns = Vec::new(alloc);
    for device in 0..3 {
        columns.push(column_in(act, device))?;
    }
    if !can_act(layout, &columns, devices) || columns.len() != 3 {
        return Err("no array".into());
    }
    let room = Room::open(alloc, 1024 * layout.unit_sectors())?;
    let mut room = SweepRoom::new(room, Silent);
    let judge = Cols::with_room(alloc, layout.columns(), layout.stripes())?;
    let ending = Ending {
        columns,
        lost: None,
    };
    let mut hand = Hand { ending, judge };
    *newest = LAST;
    let done = match act {
        Act::Check => check(layout, devices, &mut hand, &mut room),
        Act::Kill(column) if column < 3 => kill(layout, devices, &mut hand, column, newest),
        Act::Fail(column) if column < 3 => {
            hand.ending.lost = loss_of(layout, &hand.ending.columns, &mut hand.judge);
            fail_column(layout, devices, &mut hand, column, newest);
            Done::Nothing
        }
        Act::Kill(_) | Act::Fail(_) => return Err("no column".into()),
        Act::Label => label(layout, devices, &mut hand, newest),
        Act::Begin(dirty) => {
            let mut maps = Maps::open(alloc, layout, LAST.serial)?;
            let sweeps = if dirty {
                Sweeps::Over(Renewal::Rewrite)
            } else {
                Sweeps::Nothing
            };
            let opening = Opening {
                notice: Notice::Round,
                sweeps,
            };
            let rewritten = begin_labelled(
                opening,
                layout,
                devices,
                &mut hand,
                newest,
                &mut room,
                &mut maps.room,
            );
            Done::Rewrite(rewritten)
        }
        Act::Map(union, marks) => {
            let mut maps = Maps::open(alloc, layout, LAST.serial)?;
            mark_up_to(union, layout, &mut maps.union);
            mark_up_to(marks, layout, &mut maps.marks);
            let opening = Opening {
                notice: Notice::Marks(&maps.marks),
                sweeps: Sweeps::Marked(&maps.union),
            };
            let rewritten = begin_labelled(
                opening,
                layout,
                devices,
                &mut hand,
                newest,
                &mut room,
                &mut maps.room,
            );
            Done::Rewrite(rewritten)
        }
        Act::Absent(_) => {
            let mut maps = Maps::open(alloc, layout, LAST.serial)?;
            let opening = Opening {
                notice: Notice::Marks(&maps.marks),
                sweeps: Sweeps::Nothing,
            };
            let rewritten = begin_labelled(
                opening,
                layout,
                devices,
                &mut hand,
                newest,
                &mut room,
                &mut maps.room,
            );
            Done::Rewrite(rewritten)
        }
        Act::Close => {
            close(layout, devices, &mut hand, newest);
            Done::Nothing
        }
        Act::End(lost) => {
            hand.ending.lost = lost;
            end_labelled(layout, devices, &mut hand, newest);
            Done::Nothing
        }
        Act::Renew(kind) => {
            let mut maps = Maps::open(alloc, layout, LAST.serial)?;
            renew(
                kind, layout, devices, &mut hand, newest, &mut room, &mut maps,
            )
        }
        Act::RenewUnlabelled(kind) => renew_unlabelled(kind, layout, devices, &mut hand, &mut room),
    };
    Ok((done, hand.ending))
}

// Marks the first stripes, so many.
fn mark_up_to<L: Layout>(count: u32, layout: &L, map: &mut Map)
    requires { map.old.stripes ≡ (L.shape layout.now).stripes }
    ensures { map.new.stripes ≡ map.old.stripes }
{
    for stripe in 0..count {
        if stripe < layout.stripes() {
            map.mark(stripe);
        }
    }
}

// A call as one letter: a label, a map that is read or written, a unit that is read or written, or a settle; a
// small one where it failed.
fn letter(call: &Call) -> u8 {
    let letter = match (call.kind, call.first) {
        (1, 0) => b'L',
        (0, 1) => b'M',
        (1, 1) => b'P',
        (0, 64..) => b'R',
        (1, 64..) => b'W',
        (2, _) => b'S',
        _ => b'?',
    };
    if call.good {
        letter
    } else {
        letter.to_ascii_lowercase()
    }
}

/// The device has had these calls, a letter each.
pub(crate) fn has_calls(rt: &impl Abort, device: &Option<MemDisk>, calls: &[u8]) {
    let kept: &[Call] = match device {
        Some(disk) => disk.calls(),
        None => &[],
    };
    same(rt, kept.len(), calls.len());
    for (call, told) in kept.iter().zip(calls) {
        same(rt, letter(call), *told);
    }
}

/// All three have had theirs.
pub(crate) fn have_calls(rt: &impl Abort, devices: &[Option<MemDisk>; 3], calls: [&[u8]; 3]) {
    for d in 0..3 {
        has_calls(rt, &devices[d], calls[d]);
    }
}

/// Of the label on a device: counter, column, clean field, and the first three seats. None where
/// there is no label.
pub(crate) fn label_on(device: &Option<MemDisk>) -> Option<[u8; 6]> {
    let bytes = device.as_ref()?.bytes();
    if bytes.len() != 67 * SECTOR || !bytes.starts_with(b"RFLABEL1") {
        return None;
    }
    Some([
        bytes[16], bytes[20], bytes[40], bytes[60], bytes[61], bytes[62],
    ])
}

/// Of the map on a device the first marks. None where there is no map.
pub(crate) fn marks_on(device: &Option<MemDisk>) -> Option<u8> {
    let bytes = device.as_ref()?.bytes();
    if bytes.len() != 67 * SECTOR || !bytes[SECTOR..].starts_with(b"RFPMAP01") {
        return None;
    }
    Some(bytes[SECTOR + 16])
}

/// The first byte of each row of a device.
pub(crate) fn rows_on(device: &Option<MemDisk>) -> Option<[u8; 3]> {
    let bytes = device.as_ref()?.bytes();
    if bytes.len() != 67 * SECTOR {
        return None;
    }
    Some([bytes[64 * SECTOR], bytes[65 * SECTOR], bytes[66 * SECTOR]])
}

pub(crate) fn dead(ending: &Ending) -> [bool; 3] {
    let mut dead = [false; 3];
    for c in 0..3 {
        dead[c] = ending.columns.get(c).copied() == Some(Column::Dead);
    }
    dead
}
