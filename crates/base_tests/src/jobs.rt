//! Jobs over a device in memory, and the lists that they take along.
ghost use Rattle.std.specs.Prelude.{◌≤◌};

use crate::judging::same;
use blk_disk::{Call, MemDisk};
use buf_pool::{Buffer, Lease, Pool};
use eng_job::{Job, Lists, Outcome, Source, Work};
use std::alloc::Global;
use std::process::Abort;
use std::test::Fail;

// Three sectors of ones, of which the second holds twos; the call of that number fails.
fn three_sectors(alloc: Global, fails: u32) -> Result<MemDisk, Fail> {
    let mut bytes = vec![in alloc; 1; 1536]?;
    bytes.as_mut_slice()[512..1024].fill(2);
    let numbers = vec![in alloc; fails; 1]?;
    Ok(MemDisk::new(alloc, bytes, numbers, 8)?)
}

fn count_of(byte: u8, bytes: &[u8]) -> usize {
    bytes.iter().filter(|one| **one == byte).count()
}

// A buffer of two sectors that are filled with this byte.
fn filled(pool: &mut Pool, byte: u8) -> Result<Buffer, Fail> {
    let lease: Lease = pool.lease(1)?;
    if pool.home(&lease, 0) {
        let mut buffer = pool.take(&lease, 0);
        buffer.bytes_mut().fill(byte);
        return Ok(buffer);
    }
    Err(Fail::from("out"))
}

// A job without sources.
fn job_of(alloc: Global, work: Work<MemDisk>) -> Job<MemDisk> {
    Job {
        client: 0,
        node: 7,
        work,
        sources: Vec::new(alloc),
    }
}

// Reads so many sectors of such a device into a buffer of two that is filled with this byte.
fn reading(
    alloc: Global,
    fails: u32,
    first: u64,
    count: u32,
    byte: u8,
) -> Result<Job<MemDisk>, Fail> {
    let mut pool = Pool::open(alloc, 1, 1024)?;
    let disk = three_sectors(alloc, fails)?;
    let buffer = filled(&mut pool, byte)?;
    Ok(job_of(
        alloc,
        Work::Read {
            disk,
            first,
            buffer,
            count,
        },
    ))
}

// Writes two sectors of nines from sector 1 of such a device on.
fn writing(alloc: Global, fails: u32) -> Result<Job<MemDisk>, Fail> {
    let mut pool = Pool::open(alloc, 1, 1024)?;
    let disk = three_sectors(alloc, fails)?;
    let buffer = filled(&mut pool, 9)?;
    Ok(job_of(
        alloc,
        Work::Write {
            disk,
            first: 1,
            buffer,
            count: 2,
        },
    ))
}

// A list of sources that are filled with these bytes, the first of them of node 1, and whether they count.
fn sources_of(alloc: Global, pool: &mut Pool, bytes: &[(u8, bool)]) -> Result<Vec<Source>, Fail> {
    let mut lists = Lists::open(alloc)?;
    let mut sources = lists.take();
    for (number, source) in bytes.iter().enumerate() {
        let (byte, counts) = *source;
        let at = u32::try_from(number).unwrap_or(0).saturating_add(1);
        let buffer = filled(pool, byte)?;
        sources.push(Source { at, counts, buffer })?;
    }
    Ok(sources)
}

// Sums one sector of these sources into a buffer of so many bytes, filled with 0x77.
fn summing(alloc: Global, unit: u32, bytes: &[(u8, bool)]) -> Result<Job<MemDisk>, Fail>
    requires { unit ≤ 65536 }
{
    let mut pool = Pool::open(alloc, 4, unit)?;
    let to = filled(&mut pool, 0x77)?;
    let sources = sources_of(alloc, &mut pool, bytes)?;
    Ok(Job {
        client: 0,
        node: 0,
        work: Work::Sum { to, count: 1 },
        sources,
    })
}

// The bytes of the job's buffer, none where it has none.
fn buffer_of(job: &Job<MemDisk>) -> &[u8] {
    match &job.work {
        Work::Read { buffer, .. } => buffer.bytes(),
        Work::Write { buffer, .. } => buffer.bytes(),
        Work::Sum { to, .. } => to.bytes(),
        Work::Nothing => &[],
    }
}

// The bytes of the job's device, none where it has no device.
fn held_of(job: &Job<MemDisk>) -> &[u8] {
    match &job.work {
        Work::Read { disk, .. } => disk.bytes(),
        Work::Write { disk, .. } => disk.bytes(),
        _ => &[],
    }
}

// The calls that the device of the job's read has had.
fn calls_of(job: &Job<MemDisk>) -> Option<&[Call]> {
    match &job.work {
        Work::Read { disk, .. } => Some(disk.calls()),
        _ => None,
    }
}

// The buffer is filled with this byte for a sector, and with that one behind it.
fn is_filled(rt: &impl Abort, job: &Job<MemDisk>, front: u8, behind: u8) {
    let bytes = buffer_of(job);
    same(rt, count_of(front, bytes), 512);
    same(rt, bytes.iter().skip(512).all(|byte| *byte == behind), true);
}

#[test]
fn a_read_fills_its_buffer_from_the_front(rt: HostRuntime) -> Result<(), Fail> {
    const CALLS: &[Call] = &[Call {
        kind: 0,
        first: 1,
        count: 1,
        good: true,
    }];
    let mut job = reading(rt.alloc(), 9, 1, 1, 0)?;
    same(&rt, job.perform(), Outcome::Good);
    is_filled(&rt, &job, 2, 0);
    same(&rt, calls_of(&job), Some(CALLS));
    Ok(())
}

// The device of a write, which fails or not, has a sector of ones, and two of this byte.
fn is_written(
    rt: &impl Abort,
    alloc: Global,
    fails: u32,
    want: Outcome,
    byte: u8,
) -> Result<(), Fail> {
    let mut job = writing(alloc, fails)?;
    same(rt, job.perform(), want);
    same(rt, count_of(1, held_of(&job)), 512);
    same(rt, count_of(byte, held_of(&job)), 1024);
    Ok(())
}

#[test]
fn a_write_that_the_device_refuses_is_bad(rt: HostRuntime) -> Result<(), Fail> {
    is_written(&rt, rt.alloc(), 0, Outcome::Bad, 0xee)?;
    is_written(&rt, rt.alloc(), 1, Outcome::Good, 9)
}

#[test]
fn a_sum_is_that_of_the_sources_that_count(rt: HostRuntime) -> Result<(), Fail> {
    const SOURCES: &[(u8, bool)] = &[(0x0f, true), (0x55, false), (0x3c, true)];
    let mut job = summing(rt.alloc(), 512, SOURCES)?;
    same(&rt, job.perform(), Outcome::Good);
    same(&rt, buffer_of(&job), [0x33; 512].as_slice());
    Ok(())
}

// A read past the end of the device, or past that of the buffer.
fn is_left_alone(rt: &impl Abort, alloc: Global, first: u64, count: u32) -> Result<(), Fail> {
    let mut job = reading(alloc, 0, first, count, 9)?;
    same(rt, job.perform(), Outcome::Good);
    same(rt, count_of(9, buffer_of(&job)), 1024);
    let none: &[Call] = &[];
    same(rt, calls_of(&job), Some(none));
    Ok(())
}

#[test]
fn a_job_without_room_does_nothing(rt: HostRuntime) -> Result<(), Fail> {
    const ROWS: &[(u64, u32)] = &[(2, 2), (4, 1), (u64::MAX, 1), (0, 3)];
    for row in ROWS {
        is_left_alone(&rt, rt.alloc(), row.0, row.1)?;
    }
    Ok(())
}

#[test]
fn a_sum_of_a_sector_leaves_the_next_one(rt: HostRuntime) -> Result<(), Fail> {
    let mut job = summing(rt.alloc(), 1024, &[(0x55, true)])?;
    same(&rt, job.perform(), Outcome::Good);
    is_filled(&rt, &job, 0x55, 0x77);
    Ok(())
}

#[test]
fn the_commit_is_good(rt: HostRuntime) {
    let mut job: Job<MemDisk> = Job {
        client: 3,
        node: 5,
        work: Work::Nothing,
        sources: Vec::new(rt.alloc()),
    };
    same(&rt, job.perform(), Outcome::Good);
    same(&rt, (job.client, job.node), (3, 5));
}
