//! What is wanted of a closed core.
use super::judging::{same, same_at};
use blk_disk::{Call, MemDisk, SECTOR};
use blk_plain::OpId;
use eng_array::{Closed, Column, Loss, Reply};
use std::process::Abort;

// A device that is wanted isn't there.
fn is_missing(rt: &impl Abort, device: usize) {
    same_at(rt, "there is device", device, false, true);
}

fn device_of<L>(closed: &Closed<L, MemDisk>, device: usize) -> Option<&MemDisk> {
    match closed.devices.get(device) {
        Some(Some(disk)) => Some(disk),
        _ => None,
    }
}

fn replies_of<L>(closed: &Closed<L, MemDisk>, client: usize) -> Option<&[Reply]> {
    match closed.replies.get(client) {
        Some(replies) => Some(replies.as_slice()),
        None => None,
    }
}

pub(super) fn replied<L>(
    rt: &impl Abort,
    closed: &Closed<L, MemDisk>,
    client: usize,
    wanted: &[Reply],
) {
    same_at(
        rt,
        "client",
        client,
        replies_of(closed, client),
        Some(wanted),
    );
}

// The operations in the order in which they took effect.
pub(super) fn history<L>(rt: &impl Abort, closed: &Closed<L, MemDisk>, wanted: &[OpId]) {
    same(rt, closed.history.as_slice(), wanted);
}

pub(super) fn lost<L>(rt: &impl Abort, closed: &Closed<L, MemDisk>, wanted: Option<Loss>) {
    same(rt, closed.lost, wanted);
}

pub(super) fn columns<L>(rt: &impl Abort, closed: &Closed<L, MemDisk>, wanted: &[Column]) {
    same(rt, closed.columns.as_slice(), wanted);
}

// A call by its kind, its first sector, how many, and whether it was good.
pub(super) type Told = (u8, u64, u32, bool);

fn call_of(told: Told) -> Call {
    let (kind, first, count, good) = told;
    Call {
        kind,
        first,
        count,
        good,
    }
}

fn are_calls(rt: &impl Abort, device: usize, kept: &[Call], calls: &[Told]) {
    same_at(rt, "calls of device", device, kept.len(), calls.len());
    for (call, told) in kept.iter().zip(calls) {
        same_at(rt, "device", device, *call, call_of(*told));
    }
}

pub(super) fn has_calls<L>(
    rt: &impl Abort,
    closed: &Closed<L, MemDisk>,
    device: usize,
    calls: &[Told],
) {
    match device_of(closed, device) {
        Some(disk) => are_calls(rt, device, disk.calls(), calls),
        None => is_missing(rt, device),
    }
}

// The byte that fills the sector of this number, where the sectors from the first on have these.
fn filled(sector: usize, first: usize, bytes: &[u8]) -> u8 {
    if sector < first {
        return 0;
    }
    bytes.get(sector - first).copied().unwrap_or(0)
}

// The sectors from this one on are filled with these bytes, and each other sector is zero.
fn are_filled(rt: &impl Abort, device: usize, held: &[u8], first: usize, bytes: &[u8]) {
    for (at, held) in held.iter().enumerate() {
        let wanted = filled(at / SECTOR, first, bytes);
        same_at(rt, "byte", at, (device, *held), (device, wanted));
    }
}

// The sectors of a device from this one on are filled with these bytes, and each other sector is zero.
pub(super) fn holds<L>(
    rt: &impl Abort,
    closed: &Closed<L, MemDisk>,
    device: usize,
    first: usize,
    bytes: &[u8],
) {
    match device_of(closed, device) {
        Some(disk) => are_filled(rt, device, disk.bytes(), first, bytes),
        None => is_missing(rt, device),
    }
}

// The reads handed out blocks that are filled with these bytes, client by client and item by item.
pub(super) fn handed<L>(rt: &impl Abort, closed: &Closed<L, MemDisk>, blocks: &[u8]) {
    same(rt, closed.sectors.len(), blocks.len());
    for at in 0..closed.sectors.len() {
        let wanted = [filled(at, 0, blocks); SECTOR];
        let held = closed.sectors.sector(at).as_slice();
        same_at(
            rt,
            "sector that was handed out",
            at,
            held,
            wanted.as_slice(),
        );
    }
}
