//! A device in memory whose power can be stopped.
ghost use Rattle.std.specs.Prelude.{ℕ, ◌⊎◌, ◌≡◌, ◌<◌, ◌≤◌, ◌+◌, ◌*◌, ◌/◌, ◌%◌, ◌^◌, ◌++◌, [], ◌∷◌, length, take, drop, All, vec_capacity, is_ok, if◌then◌else◌, true};
ghost use Rattle.blk_disk.specs.declared.disk.Logged.{Logged};
ghost use Rattle.blk_disk.specs.Disk.{sector_at};
ghost use Rattle.blk_disk.specs.Sectors.{put};
ghost use Rattle.blk_disk.specs.Stops.{written};
ghost use Rattle.blk_disk.specs.Stopped.{stopped, IsOneOf};

use crate::disk::{Disk, Failed, Logged, SECTOR, StopDisk};
use crate::mem::{get_at, put_at};
use crate::memory::Memory;
use std::alloc::Global;

/// A device in memory that tells what a stop leaves of it: it keeps its bytes as they were settled last, and logs the
/// sectors that are written since. A write for which the log has no room is Failed and changes no sector; no other call
/// fails. It tells its content, and none of its calls.
#[derive(Drop)]
pub struct MemStop {
    bytes: Vec<u8>,
    settled: Vec<u8>,
    logged: Vec<Logged>,
    room: u32,
    faults: u64,
    ghost whole: { length bytes.items % 512 ≡ 0 },
    ghost same: { length settled.items ≡ length bytes.items },
    ghost few: { length logged.items ≤ room },
    ghost roomy: { room ≤ vec_capacity logged },
    ghost inside: { All (λ entry. entry.sector < length bytes.items / 512) logged.items },
}

// Logs sector i of these bytes, which are written from a sector on.
#[tactic(auto, unfolding(crate::specs::Disk::sector_at))]
fn log_sector(logged: &mut Vec<Logged>, first: u64, from: &[u8], i: usize)
    requires there { 512 * i + 512 ≤ length from.now }
    requires room { length logged.old.items < vec_capacity logged.old }
    requires small { first + i < 2 ^ 64 }
    ensures items { logged.new.items ≡ logged.old.items
        ++ record { sector = first + i; bytes = sector_at from.now i } ∷ [] }
    ensures room { vec_capacity logged.new ≡ vec_capacity logged.old }
{
    let mut bytes = [0; SECTOR];
    bytes.copy_from_slice(&from[SECTOR * i..SECTOR * i + SECTOR]);
    logged.push_reserved(Logged {
        sector: first + i as u64,
        bytes,
    });
}

// Logs the sectors of these bytes, which are written from a sector on.
#[tactic(auto, using(crate::proofs::Stopping::length_written), unfolding(crate::specs::Stops::written))]
fn log_sectors(logged: &mut Vec<Logged>, first: u64, from: &[u8])
    requires whole { length from.now % 512 ≡ 0 }
    requires room { length logged.old.items + length from.now / 512 ≤ vec_capacity logged.old }
    requires small { first + length from.now / 512 < 2 ^ 64 }
    ensures items { logged.new.items ≡ logged.old.items
        ++ written first from.now (length from.now / 512) }
    ensures room { vec_capacity logged.new ≡ vec_capacity logged.old }
{
    for i in 0..from.len() / SECTOR {
        log_sector(logged, first, from, i);
    }
}

// Puts a logged sector over the bytes, if it is kept.
fn put_if(bytes: &mut [u8], kept: bool, entry: &Logged)
    requires { entry.now.sector < length bytes.old / 512 }
    ensures bytes { bytes.new
        ≡ (if kept then put bytes.old entry.now.sector entry.now.bytes else bytes.old) }
    ensures size { length bytes.new ≡ length bytes.old }
    ensures image { (n : ℕ) → (sector_at bytes.new n ≡ sector_at bytes.old n) ⊎
        ((n ≡ entry.now.sector) × (sector_at bytes.new n ≡ entry.now.bytes)) }
{
    if kept {
        put_at(bytes, entry.sector as usize, &entry.bytes);
    }
}

// Puts those of the logged sectors that are kept over the bytes, in their order.
#[tactic(auto, unfolding(crate::specs::Stopped::stopped))]
fn put_kept(bytes: &mut [u8], keep: &[bool], logged: &[Logged])
    requires each { length keep.now ≡ length logged.now }
    requires inside { All (λ entry. entry.sector < length bytes.old / 512) logged.now }
    ensures bytes { bytes.new ≡ stopped bytes.old keep.now logged.now (length keep.now) }
    ensures size { length bytes.new ≡ length bytes.old }
    ensures image { (n : ℕ) → IsOneOf bytes.old logged.now n (sector_at bytes.new n) }
{
    for i in 0..keep.len() {
        put_if(bytes, keep[i], &logged[i]);
    }
}

impl MemStop {
    ghost use Rattle.std.specs.Prelude.{IfOk};
    ghost use Rattle.blk_disk.specs.MemStop.{stop_bytes, stop_settled, stop_logged, stop_room, stop_faults, stop_left};
    ghost use Rattle.blk_disk.specs.Stops.{MayHold};

    /// A device of these bytes, which are whole sectors and settled, with a log of at most so many sectors. Memory is
    /// taken here alone.
    pub fn new(alloc: Global, bytes: Vec<u8>, room: u32) -> Result<MemStop, Memory>
        requires { length bytes.items % 512 ≡ 0 }
        ensures bytes { IfOk result (λ disk. stop_bytes disk ≡ bytes.items) }
        ensures settled { IfOk result (λ disk. stop_settled disk ≡ bytes.items) }
        ensures logged { IfOk result (λ disk. stop_logged disk ≡ []) }
        ensures room { IfOk result (λ disk. stop_room disk ≡ room) }
        ensures faults { IfOk result (λ disk. stop_faults disk ≡ 0) }
    {
        let settled = bytes.clone()?;
        let logged = Vec::with_capacity(alloc, room as usize)?;
        Ok(MemStop {
            bytes,
            settled,
            logged,
            room,
            faults: 0,
        })
    }

    /// How many sectors are logged.
    pub fn logged(&self) -> u32
        ensures { result ≡ length (stop_logged self.now) }
    {
        let _most = self.room;
        self.logged.len() as u32
    }

    /// All that it holds.
    pub fn bytes(&self) -> &[u8]
        ensures { result.now ≡ stop_bytes self.now }
    {
        &self.bytes
    }

    /// The device after a stop that keeps these of its logged sectors, one entry for each: they are put over what was
    /// settled, in their order. Its log is empty, and its count of faults begins anew.
    pub fn stop(self, keep: &[bool]) -> MemStop
        requires { length keep.now ≡ length (stop_logged self) }
        ensures bytes { stop_bytes result
            ≡ stopped (stop_settled self) keep.now (stop_logged self) (length keep.now) }
        ensures image { (n : ℕ) → MayHold (stop_left self) n (sector_at (stop_bytes result) n) }
        ensures settled { stop_settled result ≡ stop_bytes result }
        ensures logged { stop_logged result ≡ [] }
        ensures room { stop_room result ≡ stop_room self }
        ensures faults { stop_faults result ≡ 0 }
    {
        let MemStop {
            mut bytes,
            mut settled,
            mut logged,
            room,
            ..
        } = self;
        put_kept(&mut settled, keep, &logged);
        bytes.copy_from_slice(&settled);
        logged.clear();
        MemStop {
            bytes,
            settled,
            logged,
            room,
            faults: 0,
        }
    }
}

impl Disk for MemStop {
    ghost use Rattle.std.specs.Prelude.{ℕ, Some, None, OnOk, OnErr};
    ghost use Rattle.blk_disk.specs.Disk.{Rose, one_more};
    ghost use Rattle.blk_disk.specs.MemStop.{stop_bytes, stop_settled, stop_logged, stop_room, stop_faults, stop_left, fits_log};
    ghost use Rattle.blk_disk.specs.Sectors.{length-sector_at};
    ghost use Rattle.blk_disk.specs.Stops.{Logs};

    ghost tells = { Unit {0} };

    ghost size = { λ d. length (stop_bytes d) / 512 };

    ghost sector = { λ d s. sector_at (stop_bytes d) s };

    ghost faults = { stop_faults };

    ghost calls = { λ d. None };

    ghost left = { λ d. Some (stop_left d) };

    ghost long = { λ d s told inside. length-sector_at (stop_bytes d) s d.whole inside };

    fn sectors(&self) -> u64 {
        (self.bytes.len() / SECTOR) as u64
    }

    fn read(&mut self, first: u64, into: &mut [u8]) -> Result<(), Failed>
        requires whole { length into.old % 512 ≡ 0 }
        requires inside { first + length into.old / 512 ≤ length (stop_bytes self.old) / 512 }
        ensures good { is_ok result ≡ true }
        ensures same { self.new ≡ self.old }
        ensures got { into.new ≡ take (length into.old) (drop (512 * first) (stop_bytes self.old)) }
        ensures bytes { OnOk result ((k : ℕ) → k < length into.old / 512
            → sector_at into.new k ≡ sector_at (stop_bytes self.old) (first + k)) }
    {
        get_at(&self.bytes, first as usize, into);
        Ok(())
    }

    fn write(&mut self, first: u64, from: &[u8]) -> Result<(), Failed>
        requires whole { length from.now % 512 ≡ 0 }
        requires inside { first + length from.now / 512 ≤ length (stop_bytes self.old) / 512 }
        ensures exact { is_ok result ≡ fits_log self.old (length from.now / 512) }
        ensures size { length (stop_bytes self.new) ≡ length (stop_bytes self.old) }
        ensures later { stop_faults self.old ≤ stop_faults self.new }
        ensures cause { OnErr result (Rose (stop_faults self.old) (stop_faults self.new)) }
        ensures faults { stop_faults self.new
            ≡ (if is_ok result then stop_faults self.old else one_more (stop_faults self.old)) }
        ensures held { stop_bytes self.new ≡ (if is_ok result
            then put (stop_bytes self.old) first from.now else stop_bytes self.old) }
        ensures settled { stop_settled self.new ≡ stop_settled self.old }
        ensures logged { stop_logged self.new ≡ (if is_ok result then stop_logged self.old
            ++ written first from.now (length from.now / 512) else stop_logged self.old) }
        ensures room { stop_room self.new ≡ stop_room self.old }
        ensures left { Logs first from.now (is_ok result) (stop_left self.old)
            (stop_left self.new) }
        ensures before { (s : ℕ) → s < first
            → sector_at (stop_bytes self.new) s ≡ sector_at (stop_bytes self.old) s }
        ensures behind { (s : ℕ) → first + length from.now / 512 ≤ s
            → sector_at (stop_bytes self.new) s ≡ sector_at (stop_bytes self.old) s }
        ensures bytes { OnOk result ((k : ℕ) → k < length from.now / 512
            → sector_at (stop_bytes self.new) (first + k) ≡ sector_at from.now k) }
    {
        if from.len() / SECTOR > self.room as usize - self.logged.len() {
            self.faults = self.faults.saturating_add(1);
            return Err(Failed);
        }
        log_sectors(&mut self.logged, first, from);
        put_at(&mut self.bytes, first as usize, from);
        Ok(())
    }

    fn settle(&mut self) -> Result<(), Failed>
        ensures good { is_ok result ≡ true }
        ensures bytes { stop_bytes self.new ≡ stop_bytes self.old }
        ensures settled { stop_settled self.new ≡ stop_bytes self.old }
        ensures logged { stop_logged self.new ≡ [] }
        ensures room { stop_room self.new ≡ stop_room self.old }
        ensures faults { stop_faults self.new ≡ stop_faults self.old }
    {
        self.settled.copy_from_slice(&self.bytes);
        self.logged.clear();
        Ok(())
    }
}

impl StopDisk for MemStop {}
