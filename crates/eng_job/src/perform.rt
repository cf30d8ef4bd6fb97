//! Performing a job.
ghost use Rattle.std.specs.Prelude.{◌≡◌, ◌<◌, ◌≤◌, ◌+◌, ◌*◌, ◌↔◌, ℕ, length, IsTrue};
ghost use Rattle.eng_job.specs.Performed.{Performed, Reads, Writes, ReadsThere, WritesThere, HasRoom, Sums};

use crate::bytes::{are_long, sum_front};
use crate::job::{Job, Source, Work};
use blk_disk::{Disk, Failed, SECTOR};
use blk_plain::Outcome;
use buf_pool::Buffer;

impl<D: Disk> Job<D> {
    /// Does what is to be done: at most one call of the device, as far as it tells its calls. Bad only
    /// where the device's count of faults rose.
    ///
    /// Where the sectors don't lie on the device, or a buffer is too short for them, it does nothing
    /// and answers Good; the engine fires no such job. Takes no memory.
    #[inline(always)]
    pub fn perform(&mut self) -> Outcome
        ensures { Performed D.Disk self.old self.new result }
    {
        match &mut self.work {
            Work::Nothing => Outcome::Good,
            Work::Read {
                disk,
                first,
                buffer,
                count,
            } => read(disk, *first, buffer, *count),
            Work::Write {
                disk,
                first,
                buffer,
                count,
            } => write(disk, *first, buffer, *count),
            Work::Sum { to, count } => sum(to, self.sources.as_slice(), *count),
        }
    }
}

// Whether the sectors lie on the device and in the buffer.
fn has_room<D: Disk>(disk: &D, first: u64, buffer: &Buffer, count: u32) -> bool
    ensures { IsTrue result ↔ HasRoom D.Disk disk.now first buffer.now count }
{
    let sectors = disk.sectors();
    first <= sectors
        && count as u64 <= sectors - first
        && SECTOR * count as usize <= buffer.bytes().len()
}

// Reads, if there is room. What is behind so many sectors of the buffer stays.
fn read<D: Disk>(disk: &mut D, first: u64, buffer: &mut Buffer, count: u32) -> Outcome
    ensures { Reads D.Disk disk.old disk.new first buffer.old buffer.new count result }
{
    if !has_room(disk, first, buffer, count) {
        return Outcome::Good;
    }
    read_front(disk, first, buffer.bytes_mut(), count)
}

fn read_front<D: Disk>(disk: &mut D, first: u64, into: &mut [u8], count: u32) -> Outcome
    requires { HasRoom D.Disk disk.old first into.old count }
    ensures { ReadsThere D.Disk disk.old disk.new first into.old into.new count result }
{
    match disk.read(first, &mut into[..SECTOR * count as usize]) {
        Ok(()) => Outcome::Good,
        Err(Failed) => Outcome::Bad,
    }
}

// Writes, if there is room.
fn write<D: Disk>(disk: &mut D, first: u64, buffer: &Buffer, count: u32) -> Outcome
    ensures { Writes D.Disk disk.old disk.new first buffer.now count result }
{
    if !has_room(disk, first, buffer, count) {
        return Outcome::Good;
    }
    write_front(disk, first, buffer.bytes(), count)
}

fn write_front<D: Disk>(disk: &mut D, first: u64, from: &[u8], count: u32) -> Outcome
    requires { HasRoom D.Disk disk.old first from.now count }
    ensures { WritesThere D.Disk disk.old disk.new first from.now count result }
{
    match disk.write(first, &from[..SECTOR * count as usize]) {
        Ok(()) => Outcome::Good,
        Err(Failed) => Outcome::Bad,
    }
}

// Makes the target's first sectors the sum of those of the sources that count, if all have so many.
fn sum(to: &mut Buffer, from: &[Source], count: u32) -> Outcome
    ensures { Sums to.old to.new from.now count result }
{
    if SECTOR * count as usize <= to.bytes().len() && are_long(from, count) {
        sum_front(to.bytes_mut(), from, count);
    }
    Outcome::Good
}
