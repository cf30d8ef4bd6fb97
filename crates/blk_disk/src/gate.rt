//! A device that holds one write back until the write of another device has begun.
ghost use Rattle.std.specs.Prelude.{◌≡◌, ◌<◌, ◌≤◌, ◌+◌, ◌/◌, ◌%◌, ◌⊎◌, ℕ, length, is_ok, replicate, take, drop, if◌then◌else◌};
ghost use Rattle.blk_disk.specs.Sectors.{put};

use crate::disk::{Disk, Failed, SECTOR, StopDisk};
use crate::mem::MemDisk;
use crate::memory::Memory;
use std::alloc::Global;
use std::hint::spin_loop;
use std::sync::Arc;
use std::sync::atomic::{AtomicU64, Ordering};
use std::thread::yield_now;

// How often a write that is held back looks whether the gate is open.
const LOOKS: u32 = 67_108_864;

/// A gate between the writes of two devices.
#[derive(Drop)]
pub struct Gate {
    begun: AtomicU64,
}

impl Gate {
    /// A closed gate. Memory is taken here alone.
    pub fn new(alloc: Global) -> Result<Arc<Gate>, Memory> {
        let gate = Gate {
            begun: AtomicU64::new(0),
        };
        match Arc::new(alloc, gate) {
            Ok(gate) => Ok(gate),
            Err(_) => Err(Memory),
        }
    }

    // Opens it for good.
    fn open(&self) {
        self.begun.store(1, Ordering::SeqCst);
    }

    // Looks until it is open, or until the looks run out, and answers whether it is.
    fn is_opened(&self) -> bool {
        for look in 0..LOOKS {
            if self.begun.load(Ordering::SeqCst) != 0 {
                return true;
            }
            pause(look);
        }
        false
    }
}

// Waits a little, and now and then lets another thread run.
fn pause(look: u32) {
    if look % 1024 == 0 {
        yield_now();
    } else {
        spin_loop();
    }
}

/// A device in memory behind a gate. The write of `sector` on side 1 opens the gate and goes on; that on side 0 is held
/// back until the gate is open, for at most 67,108,864 looks: where these run out it answers Failed, and nothing is
/// written. Every other call, and every call on another side, is the inner device's own. It tells its content, and none of
/// its calls. So two threads that write the two sides at once both succeed, and one thread that writes side 0 first fails.
#[derive(Drop)]
pub struct GateDisk {
    inner: MemDisk,
    gate: Arc<Gate>,
    side: u32,
    sector: u64,
    faults: u64,
}

impl GateDisk {
    ghost use Rattle.blk_disk.specs.Disk.{one_more};
    ghost use Rattle.blk_disk.specs.Gate.{inner_of, side_of, sector_of, gate_faults};
    ghost use Rattle.std.specs.Prelude.{◌↔◌, IsTrue};

    /// This device behind this gate, on side 0 or 1, with the sector whose write passes the gate.
    pub fn new(inner: MemDisk, gate: Arc<Gate>, side: u32, sector: u64) -> GateDisk
        ensures inner { inner_of result ≡ inner }
        ensures side { side_of result ≡ side }
        ensures sector { sector_of result ≡ sector }
        ensures faults { gate_faults result ≡ 0 }
    {
        GateDisk {
            inner,
            gate,
            side,
            sector,
            faults: 0,
        }
    }

    /// The device behind the gate.
    pub fn inner(&self) -> &MemDisk
        ensures { result.now ≡ inner_of self.now }
    {
        &self.inner
    }

    // Whether the sector is one of so many from this one on.
    fn has_sector(&self, first: u64, count: u64) -> bool
        ensures { IsTrue result ↔
            ((first ≤ sector_of self.now) × (sector_of self.now < first + count)) }
    {
        first <= self.sector && self.sector - first < count
    }

    // Whether a write may go on. One that isn't held back always may.
    fn passes(&self, first: u64, count: u64) -> bool
        ensures { ((side_of self.now ≡ 0) × (first ≤ sector_of self.now)
            × (sector_of self.now < first + count) → ⊥) → IsTrue result }
    {
        if !self.has_sector(first, count) {
            return true;
        }
        match self.side {
            0 => self.gate.is_opened(),
            1 => {
                self.gate.open();
                true
            }
            _ => true,
        }
    }

    // A call failed.
    fn count_fault(&mut self)
        ensures now { self.new ≡ record self.old { faults = one_more self.old.faults } }
        ensures later { gate_faults self.old ≤ gate_faults self.new }
    {
        self.faults = self.faults.saturating_add(1);
    }
}

impl Disk for GateDisk {
    ghost use Rattle.std.specs.Prelude.{OnOk, OnErr, None};
    ghost use Rattle.blk_disk.specs.Disk.{sector_at, Rose};
    ghost use Rattle.blk_disk.specs.Mem.{mem_bytes};
    ghost use Rattle.blk_disk.specs.Gate.{inner_of, gate_faults, SameGate, IsHeldBack, PassesOn, IsKeptOut};
    ghost use Rattle.blk_disk.specs.Sectors.{length-sector_at};

    ghost tells = { Unit {0} };

    ghost size = { λ d. length (mem_bytes (inner_of d)) / 512 };

    ghost sector = { λ d s. sector_at (mem_bytes (inner_of d)) s };

    ghost faults = { gate_faults };

    ghost calls = { λ d. None };

    ghost left = { λ d. None };

    ghost long = { λ d s told inside. length-sector_at (mem_bytes (inner_of d)) s d.inner.whole inside };

    fn sectors(&self) -> u64 {
        self.inner.sectors()
    }

    fn read(&mut self, first: u64, into: &mut [u8]) -> Result<(), Failed>
        requires whole { length into.old % 512 ≡ 0 }
        requires inside { first + length into.old / 512
            ≤ length (mem_bytes (inner_of self.old)) / 512 }
        ensures later { gate_faults self.old ≤ gate_faults self.new }
        ensures cause { OnErr result (Rose (gate_faults self.old) (gate_faults self.new)) }
        ensures bytes { OnOk result ((k : ℕ) → k < length into.old / 512
            → sector_at into.new k ≡ sector_at (mem_bytes (inner_of self.old)) (first + k)) }
        ensures gate { SameGate self.old self.new }
        ensures held { mem_bytes (inner_of self.new) ≡ mem_bytes (inner_of self.old) }
        ensures passes { PassesOn self.old 0 first (length into.old) (is_ok result) self.new }
    {
        let answer = self.inner.read(first, into);
        match answer {
            Ok(()) => Ok(()),
            Err(Failed) => {
                self.count_fault();
                Err(Failed)
            }
        }
    }

    fn write(&mut self, first: u64, from: &[u8]) -> Result<(), Failed>
        requires whole { length from.now % 512 ≡ 0 }
        requires inside { first + length from.now / 512
            ≤ length (mem_bytes (inner_of self.old)) / 512 }
        ensures size { length (mem_bytes (inner_of self.new))
            ≡ length (mem_bytes (inner_of self.old)) }
        ensures later { gate_faults self.old ≤ gate_faults self.new }
        ensures cause { OnErr result (Rose (gate_faults self.old) (gate_faults self.new)) }
        ensures before { (s : ℕ) → s < first → sector_at (mem_bytes (inner_of self.new)) s
            ≡ sector_at (mem_bytes (inner_of self.old)) s }
        ensures behind { (s : ℕ) → first + length from.now / 512 ≤ s → sector_at
            (mem_bytes (inner_of self.new)) s ≡ sector_at (mem_bytes (inner_of self.old)) s }
        ensures bytes { OnOk result ((k : ℕ) → k < length from.now / 512
            → sector_at (mem_bytes (inner_of self.new)) (first + k) ≡ sector_at from.now k) }
        ensures gate { SameGate self.old self.new }
        ensures passes { PassesOn self.old 1 first
            (length from.now) (is_ok result) self.new ⊎ (IsHeldBack self.old first (length from.now)
            × IsKeptOut self.old (is_ok result) self.new) }
        ensures held { mem_bytes (inner_of self.new) ≡ mem_bytes (inner_of self.old)
            ⊎ (mem_bytes (inner_of self.new) ≡ put (mem_bytes (inner_of self.old)) first
            (if is_ok result then from.now else replicate (length from.now) 238)) }
    {
        if !self.passes(first, (from.len() / SECTOR) as u64) {
            self.count_fault();
            return Err(Failed);
        }
        let answer = self.inner.write(first, from);
        match answer {
            Ok(()) => Ok(()),
            Err(Failed) => {
                self.count_fault();
                Err(Failed)
            }
        }
    }

    fn settle(&mut self) -> Result<(), Failed>
        ensures later { gate_faults self.old ≤ gate_faults self.new }
        ensures cause { OnErr result (Rose (gate_faults self.old) (gate_faults self.new)) }
        ensures gate { SameGate self.old self.new }
        ensures held { mem_bytes (inner_of self.new) ≡ mem_bytes (inner_of self.old) }
        ensures passes { PassesOn self.old 2 0 0 (is_ok result) self.new }
    {
        let answer = self.inner.settle();
        match answer {
            Ok(()) => Ok(()),
            Err(Failed) => {
                self.count_fault();
                Err(Failed)
            }
        }
    }
}

impl StopDisk for GateDisk {}
