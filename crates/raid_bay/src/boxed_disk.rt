//! A device in a box.
ghost use Rattle.std.specs.Prelude.{◌≡◌, IfOk};

use crate::memory::Memory;
use blk_disk::{Disk, Failed, StopDisk};
use std::alloc::Global;

/// A device in a box. It goes along with each job that it is lent to, so that a word is moved, whatever the device has.
#[derive(Drop)]
pub struct BoxedDisk<D> {
    disk: Box<D>,
}

impl<D: Drop> BoxedDisk<D> {
    /// The device in a box. The only error is want of memory.
    pub fn new(alloc: Global, disk: D) -> Result<BoxedDisk<D>, Memory>
        ensures { IfOk result (λ boxed. boxed.disk.value ≡ disk) }
    {
        match Box::new(alloc, disk) {
            Ok(disk) => Ok(BoxedDisk { disk }),
            Err(_) => Err(Memory),
        }
    }

    /// The device.
    pub fn disk(&self) -> &D
        ensures { result.now ≡ self.now.disk.value }
    {
        &*self.disk
    }
}

impl<D: Disk> Disk for BoxedDisk<D> {
    ghost tells = { D.tells };

    ghost size = { λ b. D.size b.disk.value };

    ghost sector = { λ b s. D.sector b.disk.value s };

    ghost faults = { λ b. D.faults b.disk.value };

    ghost calls = { λ b. D.calls b.disk.value };

    ghost left = { λ b. D.left b.disk.value };

    ghost long = { λ b s told inside. D.long b.disk.value s told inside };

    fn sectors(&self) -> u64 {
        self.disk.sectors()
    }

    fn read(&mut self, first: u64, into: &mut [u8]) -> Result<(), Failed> {
        self.disk.read(first, into)
    }

    fn write(&mut self, first: u64, from: &[u8]) -> Result<(), Failed> {
        self.disk.write(first, from)
    }

    fn settle(&mut self) -> Result<(), Failed> {
        self.disk.settle()
    }
}

impl<D: StopDisk> StopDisk for BoxedDisk<D> {}
