//! A device whose writes and settles are noted.
ghost use Rattle.std.specs.Prelude.{◌≡◌};

use blk_disk::{Disk, Failed, StopDisk};
use std::alloc::Global;
use std::sync::Arc;
use std::sync::atomic::{AtomicU64, Ordering};
use std::test::Fail;

/// Numbers the calls of all devices, from 0 on.
#[derive(Drop)]
pub struct Clock {
    next: AtomicU64,
}

impl Clock {
    pub fn new(alloc: Global) -> Result<Arc<Clock>, Fail> {
        let clock = Clock {
            next: AtomicU64::new(0),
        };
        match Arc::new(alloc, clock) {
            Ok(clock) => Ok(clock),
            Err(_) => Err("no memory for the clock".into()),
        }
    }
}

/// What a device was asked for that changes what a stop leaves of it.
#[derive(Drop)]
pub enum Change {
    /// These bytes were written from this sector on.
    Write { first: u64, bytes: Vec<u8> },
    Settle,
}

/// A change, and its number among those of all devices.
#[derive(Drop)]
pub struct Note {
    pub number: u64,
    pub change: Change,
}

/// A device whose writes and settles are noted. It tells nothing.
#[derive(Drop)]
pub struct NotingDisk<D> {
    inner: D,
    alloc: Global,
    clock: Arc<Clock>,
    notes: Vec<Note>,
}

impl<D> NotingDisk<D> {
    /// This device, of which nothing is noted yet.
    pub fn new(alloc: Global, inner: D, clock: Arc<Clock>) -> NotingDisk<D>
        ensures { result.inner ≡ inner }
    {
        NotingDisk {
            inner,
            alloc,
            clock,
            notes: Vec::new(alloc),
        }
    }

    // Where there is no memory for it, there is no note of its number.
    fn note(&mut self, change: Change)
        ensures { self.new.inner ≡ self.old.inner }
    {
        let number = self.clock.next.fetch_add(1, Ordering::SeqCst);
        let _ = self.notes.push(Note { number, change });
    }
}

impl<D: Drop> NotingDisk<D> {
    /// What is noted of it, in its order.
    pub fn into_notes(self) -> Vec<Note> {
        let NotingDisk { notes, .. } = self;
        notes
    }
}

impl<D: Disk> Disk for NotingDisk<D> {
    ghost use Rattle.std.specs.Prelude.{None, []};

    ghost tells = { ⊥ };

    ghost size = { λ d. D.size d.inner };

    ghost sector = { λ d s. [] };

    ghost faults = { λ d. D.faults d.inner };

    ghost calls = { λ d. None };

    ghost left = { λ d. None };

    ghost long = { λ d s told inside. absurd told };

    fn sectors(&self) -> u64 {
        self.inner.sectors()
    }

    fn read(&mut self, first: u64, into: &mut [u8]) -> Result<(), Failed> {
        self.inner.read(first, into)
    }

    fn write(&mut self, first: u64, from: &[u8]) -> Result<(), Failed> {
        if let Ok(bytes) = from.to_vec(self.alloc) {
            self.note(Change::Write { first, bytes });
        }
        self.inner.write(first, from)
    }

    fn settle(&mut self) -> Result<(), Failed> {
        self.note(Change::Settle);
        self.inner.settle()
    }
}

impl<D: Disk> StopDisk for NotingDisk<D> {}
