//! What no clause says: that workers come to an end, that two of them work at the same time, and what becomes of blocks
//! that are asked for. With two columns a stripe is one block and its check, which is the same: both devices hold each.
ghost use Rattle.std.specs.Prelude.{◌≡◌, ◌≤◌, ◌+◌, ◌*◌, IfOk, All, length};
ghost use Rattle.crew_tests.specs.Trial.{AreSmall, IsServable};

use crate::arrays::{device, read, write};
use crate::judging::{same, same_at};
use blk_disk::{Disk, Gate, GateDisk, MemDisk, SECTOR};
use blk_plain::OpId;
use eng_array::{Closed, Column, Core, Reply};
use eng_crew::{drain, run_crew};
use item_list::Items;
use lay_core::Layout;
use lay_plain::Raid5;
use raid_progress::Silent;
use std::alloc::{AllocError, Global};
use std::process::Abort;
use std::sync::Wait;
use std::test::Fail;
use std::thread::Threads;

mod opened;
mod slow;

use opened::opened;
use slow::SlowDisk;

const LIVE: [Column; 2] = [Column::Live { device: 0 }, Column::Live { device: 1 }];

// Items that fill four blocks from this one on, each with its own number and one, and read them.
fn items(alloc: Global, first: u8) -> Result<Items, AllocError>
    requires { first ≤ 60 }
    ensures { IfOk result AreSmall }
{
    let block = u64::from(first);
    Items::from_slice(
        alloc,
        &[
            write(block, first + 1),
            write(block + 1, first + 2),
            write(block + 2, first + 3),
            write(block + 3, first + 4),
            read(block, 4),
        ],
    )
}

// So many clients with items of four blocks each, one behind the other.
fn clients(alloc: Global, count: u8) -> Result<Vec<Items>, AllocError>
    requires { count ≤ 16 }
    ensures { IfOk result (λ clients. (length clients.items ≡ count) × All AreSmall clients.items) }
{
    let mut clients = Vec::new(alloc);
    for at in 0..count {
        let own = items(alloc, 4 * at)?;
        clients.push(own)?;
    }
    Ok(clients)
}

// Lets so many workers at the core, drains it and closes it.
fn served<D: Disk + Drop + Send, R: Threads + Wait + Sync>(
    rt: &R,
    alloc: Global,
    core: Core<Raid5, D>,
    workers: u32,
) -> Result<Closed<Raid5, D>, Fail>
    requires workers { (1 ≤ workers) × (workers ≤ 16) }
    requires servable { IsServable ⟦<Raid5 as Layout>⟧ D.Disk core.array }
{
    let Ok(mut core) = run_crew(rt, alloc, core, workers, &Silent, 0) else {
        return Err(Fail::from("no memory"))
    };
    drain(&mut core, &Silent, 0);
    Ok(core.close())
}

// The byte of each sector: that of its block, which is its number and one, for so many blocks from sector 64 on.
fn byte_at(sector: usize, blocks: usize) -> u8
    requires { blocks ≤ 64 }
{
    if sector < 64 || sector >= 64 + blocks {
        return 0;
    }
    (sector - 63) as u8
}

// The device has these blocks and is zero elsewhere.
fn holds(rt: &impl Abort, disk: &MemDisk, blocks: usize)
    requires { blocks ≤ 64 }
{
    for (at, held) in disk.bytes().iter().enumerate() {
        same_at(rt, at, *held, byte_at(at / SECTOR, blocks));
    }
}

// Each byte of a sector is this one.
fn is_filled(rt: &impl Abort, sector: &[u8], wanted: usize) {
    for held in sector {
        same(rt, usize::from(*held), wanted);
    }
}

// Each client has its four writes done and its read's data.
fn all_replied<D>(rt: &impl Abort, closed: &Closed<Raid5, D>, clients: usize)
    requires { clients ≤ 16 }
{
    same(rt, closed.replies.len(), clients);
    for replies in closed.replies.iter() {
        same(
            rt,
            replies.as_slice(),
            [
                Reply::Done,
                Reply::Done,
                Reply::Done,
                Reply::Done,
                Reply::Data,
            ]
            .as_slice(),
        );
    }
    same(rt, closed.history.len(), 5 * clients);
    same(rt, closed.sectors.len(), 4 * clients);
    for at in 0..closed.sectors.len() {
        is_filled(rt, closed.sectors.sector(at), at + 1);
    }
}

// Eight clients of five items each.
#[test]
fn crews_of_any_size_serve_every_item(rt: HostRuntime) -> Result<(), Fail> {
    let alloc = rt.alloc();
    for workers in [1, 2, 16] {
        let core = opened(
            alloc,
            device(alloc, 0, &[])?,
            device(alloc, 0, &[])?,
            clients(alloc, 8)?,
        )?;
        let closed = served(&rt, alloc, core, workers)?;
        all_replied(&rt, &closed, 8);
        same(&rt, closed.columns.as_slice(), LIVE.as_slice());
        for device in closed.devices.iter() {
            match device {
                Some(disk) => holds(&rt, disk, 32),
                None => same_at(&rt, workers, false, true),
            }
        }
    }
    Ok(())
}

// The second device refuses its first call, which is a write, since writes over two columns read nothing. Its column dies,
// and every item is served by the other.
#[test]
fn four_workers_go_on_where_a_device_fails(rt: HostRuntime) -> Result<(), Fail> {
    let alloc = rt.alloc();
    let core = opened(
        alloc,
        device(alloc, 0, &[])?,
        device(alloc, 0, &[0])?,
        clients(alloc, 8)?,
    )?;
    let closed = served(&rt, alloc, core, 4)?;
    all_replied(&rt, &closed, 8);
    same(
        &rt,
        closed.columns.as_slice(),
        [Column::Live { device: 0 }, Column::Dead].as_slice(),
    );
    same(&rt, closed.lost, None);
    match closed.devices.first() {
        Some(Some(disk)) => holds(&rt, disk, 32),
        _ => same(&rt, false, true),
    }
    Ok(())
}

// One write of one block, whose two device writes are behind a gate: that of the first device is held back until that of
// the second has begun. So it is done only where two threads have jobs out at the same time.
#[test]
fn two_workers_perform_at_the_same_time(rt: HostRuntime) -> Result<(), Fail> {
    let alloc = rt.alloc();
    let gate = Gate::new(alloc)?;
    let first = GateDisk::new(device(alloc, 0, &[])?, gate.clone()?, 0, 64);
    let second = GateDisk::new(device(alloc, 0, &[])?, gate, 1, 64);
    let clients = vec![in alloc; Items::from_slice(alloc, &[write(0, 1)])?]?;
    let core = opened(alloc, first, second, clients)?;
    let closed = served(&rt, alloc, core, 2)?;
    let id = OpId {
        client: 0,
        index: 0,
    };
    same(&rt, closed.replies.len(), 1);
    for replies in closed.replies.iter() {
        same(&rt, replies.as_slice(), [Reply::Done].as_slice());
    }
    same(&rt, closed.history.as_slice(), [id].as_slice());
    same(&rt, closed.columns.as_slice(), LIVE.as_slice());
    for device in closed.devices.iter() {
        match device {
            Some(disk) => holds(&rt, disk.inner(), 1),
            None => same(&rt, false, true),
        }
    }
    Ok(())
}

// A read of which each device takes a while, and a write as above. The worker that doesn't read finds nothing to do meanwhile,
// however often it looks, and is needed afterwards.
#[test]
fn a_worker_that_finds_nothing_looks_again(rt: HostRuntime) -> Result<(), Fail> {
    let alloc = rt.alloc();
    let gate = Gate::new(alloc)?;
    let first = GateDisk::new(device(alloc, 0, &[])?, gate.clone()?, 0, 64);
    let second = GateDisk::new(device(alloc, 0, &[])?, gate, 1, 64);
    let clients = vec![in alloc; Items::from_slice(alloc, &[read(1, 1), write(0, 1)])?]?;
    let core = opened(alloc, SlowDisk::new(first), SlowDisk::new(second), clients)?;
    let closed = served(&rt, alloc, core, 2)?;
    same(&rt, closed.replies.len(), 1);
    for replies in closed.replies.iter() {
        same(
            &rt,
            replies.as_slice(),
            [Reply::Data, Reply::Done].as_slice(),
        );
    }
    same(&rt, closed.columns.as_slice(), LIVE.as_slice());
    Ok(())
}
