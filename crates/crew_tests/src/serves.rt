//! What no clause says: that what is asked is done, with a crew and without; what becomes of it where a device fails; and
//! that a lost array is refused. With two columns a stripe is one block and its check, which is the same.
ghost use Rattle.std.specs.Prelude.{◌≡◌, ◌≤◌, IfOk, All, length};
ghost use Rattle.crew_tests.specs.Trial.{AreSmall};

use crate::arrays::{device, read, write};
use crate::judging::same;
use blk_disk::{MemDisk, SECTOR};
use eng_array::{Closed, Column, Loss, Reply};
use item_list::Items;
use lay_plain::Raid5;
use raid_progress::Silent;
use std::alloc::{AllocError, Global};
use std::process::Abort;
use std::test::Fail;
use top_serve::{ServeFault, serve};

mod ready;
mod rebuilt;

use ready::{lost, ready};

// Two clients: each fills a block, the one block 0 and the other block 2, and reads it and the next.
fn clients(alloc: Global) -> Result<Vec<Items>, AllocError>
    ensures { IfOk result (λ clients. (length clients.items ≡ 2) × All AreSmall clients.items) }
{
    let first = Items::from_slice(alloc, &[write(0, 1), read(0, 2)])?;
    let second = Items::from_slice(alloc, &[write(2, 3), read(2, 2)])?;
    Ok(vec![in alloc; first, second]?)
}

fn begins(bytes: &[u8], sector: usize) -> Option<u8>
    requires { sector ≤ 128 }
{
    bytes.get(sector * SECTOR).copied()
}

// The device has both blocks.
fn holds(rt: &impl Abort, device: Option<&Option<MemDisk>>) {
    match device {
        Some(Some(disk)) => {
            same(rt, begins(disk.bytes(), 64), Some(1));
            same(rt, begins(disk.bytes(), 66), Some(3));
        }
        _ => same(rt, false, true),
    }
}

// Both clients have their reply, and the reads their data.
fn all_replied(rt: &impl Abort, closed: &Closed<Raid5, MemDisk>) {
    same(rt, closed.replies.len(), 2);
    for replies in closed.replies.iter() {
        same(
            rt,
            replies.as_slice(),
            [Reply::Done, Reply::Data].as_slice(),
        );
    }
    same(rt, closed.sectors.len(), 4);
    for sector in 0..closed.sectors.len() {
        let wanted = [1, 0, 3, 0].get(sector).copied();
        same(rt, Some(closed.sectors.sector(sector)[0]), wanted);
    }
}

#[test]
fn all_is_served_by_any_number_of_workers(rt: HostRuntime) -> Result<(), Fail> {
    let alloc = rt.alloc();
    for workers in [0, 1, 4] {
        let setup = ready(
            alloc,
            device(alloc, 0, &[])?,
            device(alloc, 0, &[])?,
            clients(alloc)?,
        )?;
        match serve(&rt, alloc, setup, workers, &Silent) {
            Ok(closed) => {
                all_replied(&rt, &closed);
                same(&rt, closed.history.len(), 4);
                holds(&rt, closed.devices.first());
                holds(&rt, closed.devices.last());
            }
            Err(_) => same(&rt, false, true),
        }
    }
    Ok(())
}

// The second device refuses its first call, which is a write, since writes over two columns read nothing.
#[test]
fn a_device_that_fails_leaves_its_column_dead(rt: HostRuntime) -> Result<(), Fail> {
    let alloc = rt.alloc();
    let setup = ready(
        alloc,
        device(alloc, 0, &[])?,
        device(alloc, 0, &[0])?,
        clients(alloc)?,
    )?;
    match serve(&rt, alloc, setup, 4, &Silent) {
        Ok(closed) => {
            all_replied(&rt, &closed);
            holds(&rt, closed.devices.first());
            same(
                &rt,
                closed.columns.as_slice(),
                [Column::Live { device: 0 }, Column::Dead].as_slice(),
            );
            same(&rt, closed.lost, None);
        }
        Err(_) => same(&rt, false, true),
    }
    Ok(())
}

#[test]
fn a_lost_array_comes_back(rt: HostRuntime) -> Result<(), Fail> {
    let alloc = rt.alloc();
    let setup = lost(alloc, device(alloc, 0, &[])?, device(alloc, 0, &[])?)?;
    match serve(&rt, alloc, setup, 1, &Silent) {
        Ok(_) => same(&rt, false, true),
        Err(refused) => {
            let loss = Loss {
                first: 0,
                second: 1,
                stripe: 0,
            };
            same(&rt, refused.fault, ServeFault::Lost(loss));
            same(&rt, refused.setup.devices.len(), 2);
        }
    }
    Ok(())
}
