//! A device whose reads take a while.
ghost use Rattle.std.specs.Prelude.{◌≡◌};

use blk_disk::{Disk, Failed};
use std::hint::spin_loop;
use std::thread::yield_now;

// How long a read takes.
const LOOKS: u32 = 8_388_608;

/// A device whose reads take a while. It tells nothing.
#[derive(Drop)]
pub struct SlowDisk<D> {
    inner: D,
}

impl<D> SlowDisk<D> {
    /// This device.
    pub fn new(inner: D) -> SlowDisk<D>
        ensures { result.inner ≡ inner }
    {
        SlowDisk { inner }
    }
}

// Lets time pass, and now and then another thread run.
fn pass_time() {
    for look in 0..LOOKS {
        if look % 65_536 == 0 {
            yield_now();
        } else {
            spin_loop();
        }
    }
}

impl<D: Disk> Disk for SlowDisk<D> {
    ghost use Rattle.std.specs.Prelude.{None, []};

    ghost tells = { ⊥ };

    ghost size = { λ d. D.size d.inner };

    ghost sector = { λ d s. [] };

    ghost faults = { λ d. D.faults d.inner };

    ghost calls = { λ d. None };

    ghost left = { λ d. None };

    ghost long = { λ d s told inside. absurd told };

    fn sectors(&self) -> u64 {
        self.inner.sectors()
    }

    fn read(&mut self, first: u64, into: &mut [u8]) -> Result<(), Failed> {
        pass_time();
        self.inner.read(first, into)
    }

    fn write(&mut self, first: u64, from: &[u8]) -> Result<(), Failed> {
        self.inner.write(first, from)
    }

    fn settle(&mut self) -> Result<(), Failed> {
        self.inner.settle()
    }
}
