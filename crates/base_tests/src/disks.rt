//! A device in memory and one over a real file. The expected sectors and calls are worked by hand.
ghost use Rattle.std.specs.Prelude.{◌≡◌, ◌≤◌, ◌+◌, ◌/◌, ◌%◌, length};

use crate::judging::same;
use blk_disk::*;
use std::fs;
use std::fs::{File, OpenOptions};
use std::process::Abort;
use std::sync::Arc;
use std::test::Fail;

const READ: u8 = Call::READ;

const WRITE: u8 = Call::WRITE;

const SETTLE: u8 = Call::SETTLE;

// Makes one call with these sectors; whether it went well.
fn calls<D: Disk>(disk: &mut D, kind: u8, first: u64, sectors: &mut [u8]) -> bool
    requires whole { length sectors.old % 512 ≡ 0 }
    requires inside { first + length sectors.old / 512 ≤ D.size disk.old }
{
    match kind {
        READ => disk.read(first, sectors).is_ok(),
        WRITE => disk.write(first, sectors).is_ok(),
        _ => disk.settle().is_ok(),
    }
}

// Makes one call: a write of sectors of this byte, a read into such sectors, or a settle. It answers whether the call
// went well, and the last byte of the sectors.
fn made<D: Disk>(disk: &mut D, kind: u8, first: u64, count: usize, byte: u8) -> (bool, u8) {
    if count < 1 || count > 2 || first > 2 || disk.sectors() < 4 {
        return (false, 0);
    }
    let mut sectors = [byte; 2 * SECTOR];
    let good = calls(disk, kind, first, &mut sectors[..count * SECTOR]);
    (good, sectors[count * SECTOR - 1])
}

// A call of the device, its kind, first sector, how many and the byte, has this answer.
fn makes<D: Disk>(rt: &impl Abort, disk: &mut D, call: (u8, u64, usize, u8), want: (bool, u8)) {
    let (kind, first, count, byte) = call;
    let answer = made(disk, kind, first, count, byte);
    same(rt, (kind, first, answer), (kind, first, want));
}

// Each sector is filled with its byte of these.
fn hold(rt: &impl Abort, bytes: &[u8], held: &[u8]) {
    for (at, byte) in bytes.iter().enumerate() {
        same(rt, (at, held.get(at / SECTOR)), (at, Some(byte)));
    }
}

// A call by kind, first sector, how many, and whether it was good.
type Told = (u8, u64, u32, bool);

fn is_told(rt: &impl Abort, call: Call, told: Told) {
    let (kind, first, count, good) = told;
    let told = Call {
        kind,
        first,
        count,
        good,
    };
    same(rt, call, told);
}

fn has_calls(rt: &impl Abort, disk: &MemDisk, kept: &[Told]) {
    same(rt, disk.calls().len(), kept.len());
    for (call, told) in disk.calls().iter().zip(kept) {
        is_told(rt, *call, *told);
    }
}

#[test]
fn memory_fails_the_chosen_calls_and_keeps_the_first(rt: HostRuntime) -> Result<(), Fail> {
    let bytes = vec![in rt.alloc(); 1; 4 * SECTOR]?;
    let fails = vec![in rt.alloc(); 1, 3, 4]?;
    let mut disk = MemDisk::new(rt.alloc(), bytes, fails, 5)?;
    const ROWS: &[(u8, u64, usize, u8, bool, u8)] = &[
        (WRITE, 1, 2, 0xa5, true, 0xa5),
        (WRITE, 0, 1, 0x5a, false, 0x5a),
        (READ, 2, 2, 0, true, 1),
        (READ, 2, 1, 7, false, 7),
        (SETTLE, 0, 1, 0, false, 0),
        (READ, 2, 1, 0, true, 0xa5),
        (SETTLE, 0, 1, 0, true, 0),
    ];
    for row in ROWS {
        let (kind, first, count, byte, good, last) = *row;
        makes(&rt, &mut disk, (kind, first, count, byte), (good, last));
    }
    hold(&rt, disk.bytes(), &[0xee, 0xa5, 0xa5, 1]);
    let kept = [
        (WRITE, 1, 2, true),
        (WRITE, 0, 1, false),
        (READ, 2, 2, true),
        (READ, 2, 1, false),
        (SETTLE, 0, 0, false),
    ];
    has_calls(&rt, &disk, &kept);
    Ok(())
}

#[test]
fn a_file_keeps_what_is_written_and_its_remainder(rt: HostRuntime) -> Result<(), Fail> {
    let path = "four_sectors_and_a_remainder";
    let long = 4 * SECTOR + 100;
    fs::write(&rt, path, vec![in rt.alloc(); 1u8; long]?.as_slice())?;
    let file = OpenOptions::new().read(true).write(true).open(&rt, path)?;
    let mut disk = FileDisk::new(file)?;
    same(&rt, disk.sectors(), 4);
    const ROWS: &[(u8, u64, usize, u8, u8)] = &[
        (WRITE, 1, 2, 0xa5, 0xa5),
        (SETTLE, 0, 1, 0, 0),
        (READ, 0, 1, 0, 1),
        (READ, 1, 1, 0, 0xa5),
        (READ, 2, 2, 0, 1),
    ];
    for row in ROWS {
        let (kind, first, count, byte, last) = *row;
        makes(&rt, &mut disk, (kind, first, count, byte), (true, last));
    }
    let bytes = fs::read(&rt, path)?;
    same(&rt, bytes.len(), long);
    hold(&rt, &bytes, &[1, 0xa5, 0xa5, 1, 1]);
    let mut shut = FileDisk::new(File::open(&rt, path)?)?;
    makes(&rt, &mut shut, (READ, 1, 1, 0), (true, 0xa5));
    makes(&rt, &mut shut, (WRITE, 1, 1, 0), (false, 0));
    fs::remove_file(&rt, path)?;
    Ok(())
}

// The null device has nowhere to keep what is settled, so that the system refuses to.
#[test]
fn a_file_is_settled_by_the_system(rt: HostRuntime) -> Result<(), Fail> {
    let mut disk = FileDisk::new(File::open(&rt, "/dev/null")?)?;
    same(&rt, disk.sectors(), 0);
    same(&rt, disk.cause().is_some(), false);
    same(&rt, disk.settle(), Err(Failed));
    same(&rt, disk.cause().is_some(), true);
    Ok(())
}

// A device of four zero sectors on one side of the gate, whose sector 1 passes it.
fn gated(rt: &HostRuntime, gate: &Arc<Gate>, side: u32) -> Result<GateDisk, Fail> {
    let bytes = vec![in rt.alloc(); 0; 4 * SECTOR]?;
    let inner = MemDisk::new(rt.alloc(), bytes, Vec::new(rt.alloc()), 9)?;
    Ok(GateDisk::new(inner, gate.clone()?, side, 1))
}

#[test]
fn a_gate_is_opened_by_its_other_side(rt: HostRuntime) -> Result<(), Fail> {
    let gate = Gate::new(rt.alloc())?;
    let mut held = gated(&rt, &gate, 0)?;
    let mut opens = gated(&rt, &gate, 1)?;
    makes(&rt, &mut held, (WRITE, 0, 1, 7), (true, 7));
    makes(&rt, &mut held, (READ, 1, 1, 7), (true, 0));
    makes(&rt, &mut opens, (WRITE, 1, 1, 8), (true, 8));
    makes(&rt, &mut held, (WRITE, 0, 2, 9), (true, 9));
    makes(&rt, &mut held, (SETTLE, 0, 1, 0), (true, 0));
    same(&rt, held.inner().calls().len(), 4);
    same(&rt, held.inner().bytes().get(SECTOR), Some(&9));
    Ok(())
}

#[test]
fn a_write_that_is_held_back_too_long_fails(rt: HostRuntime) -> Result<(), Fail> {
    let gate = Gate::new(rt.alloc())?;
    let mut held = gated(&rt, &gate, 0)?;
    makes(&rt, &mut held, (WRITE, 0, 2, 9), (false, 9));
    same(&rt, held.inner().calls().len(), 0);
    same(&rt, held.inner().bytes().get(SECTOR), Some(&0));
    makes(&rt, &mut held, (READ, 1, 1, 7), (true, 0));
    Ok(())
}
