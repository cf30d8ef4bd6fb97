//! What no clause says: that there is memory, and the bytes that an array's devices hold in the end,
//! worked by hand. With two columns a stripe is one block and its check, which is the same.
ghost use Rattle.std.specs.Prelude.{◌≡◌, ◌≤◌, IfOk, All, length};
ghost use Rattle.crew_tests.specs.Trial.{AreSmall};
ghost use Rattle.top_labelled.specs.Given.{CanRunLabelled};

use crate::arrays::{device, read, write};
use crate::judging::{holds, same};
use blk_disk::{Disk, MemDisk, SECTOR};
use eng_array::{Column, Loss, Reply};
use item_list::Items;
use lay_core::Layout;
use lay_plain::Raid5;
use raid_progress::Silent;
use std::alloc::{AllocError, Global};
use std::process::Abort;
use std::sync::Wait;
use std::test::Fail;
use std::thread::Threads;
use top_labelled::{Labelled, Outcome, run_labelled};
use top_run::{Line, Service, Told};

mod ready;

use ready::{losing, ready, replacing};

// One client that fills block 0 with ones, and reads it and the next.
fn clients(alloc: Global) -> Result<Vec<Items>, AllocError>
    ensures { IfOk result (λ clients. (length clients.items ≡ 1) × All AreSmall clients.items) }
{
    let items = Items::from_slice(alloc, &[write(0, 1), read(0, 2)])?;
    Ok(vec![in alloc; items]?)
}

fn nobody(alloc: Global) -> Vec<Items>
    ensures { (length result.items ≡ 0) × All AreSmall result.items }
{
    Vec::new(alloc)
}

fn has(device: Option<&Option<MemDisk>>, at: usize, byte: u8) -> bool {
    match device {
        Some(Some(disk)) => disk.bytes().get(at).copied() == Some(byte),
        _ => false,
    }
}

// The device has a label of this counter and clean field.
fn is_labelled(rt: &impl Abort, device: Option<&Option<MemDisk>>, counter: u8, clean: u8) {
    holds(rt, has(device, 0, b'R'));
    holds(rt, has(device, 16, counter));
    holds(rt, has(device, 40, clean));
}

// The device has a label of this counter and clean field, by which the second column's seat is this.
fn has_label(rt: &impl Abort, device: Option<&Option<MemDisk>>, counter: u8, clean: u8, seat: u8) {
    is_labelled(rt, device, counter, clean);
    holds(rt, has(device, 60, 0));
    holds(rt, has(device, 61, seat));
}

// An array over two devices, each with its byte of stripe 0 and the calls of it that fail. It has one client, or none, and
// its labels have this clean field.
fn array_of(
    alloc: Global,
    first: (u8, &[u32]),
    second: (u8, &[u32]),
    busy: bool,
    clean: u32,
) -> Result<Labelled<Raid5, MemDisk>, Fail>
    requires { clean ≤ 1 }
    ensures { IfOk result (CanRunLabelled ⟦<Raid5 as Layout>⟧ ⟦<MemDisk as Disk>⟧) }
{
    let first = device(alloc, first.0, first.1)?;
    let second = device(alloc, second.0, second.1)?;
    let asked = if busy { clients(alloc)? } else { nobody(alloc) };
    ready(alloc, first, second, asked, clean)
}

// What the run told, and the devices.
fn ran<R: Threads + Wait + Sync>(
    rt: &R,
    alloc: Global,
    labelled: Labelled<Raid5, MemDisk>,
    workers: u32,
) -> Result<(Service, Vec<Option<MemDisk>>), Fail>
    requires workers { workers ≤ 16 }
    requires can { CanRunLabelled ⟦<Raid5 as Layout>⟧ ⟦<MemDisk as Disk>⟧ labelled }
{
    match run_labelled(rt, alloc, labelled, workers, &Silent) {
        Ok((outcome, devices)) => match outcome {
            Outcome::Ran(service) => Ok((service, devices)),
            Outcome::Lost(_ending) => Err(Fail::from("lost")),
        },
        Err(_labelled) => Err(Fail::from("no memory")),
    }
}

#[test]
fn a_clean_array_is_served_and_closed(rt: HostRuntime) -> Result<(), Fail> {
    let alloc = rt.alloc();
    for workers in [0, 2] {
        let labelled = array_of(alloc, (9, &[]), (9, &[]), true, 1)?;
        let (service, devices) = ran(&rt, alloc, labelled, workers)?;
        same(&rt, service.lost, None);
        for replies in service.replies.iter() {
            same(
                &rt,
                replies.as_slice(),
                [Reply::Done, Reply::Data].as_slice(),
            );
        }
        has_label(&rt, devices.first(), 7, 1, 0);
        has_label(&rt, devices.last(), 7, 1, 0);
        holds(&rt, has(devices.first(), 20, 0));
        holds(&rt, has(devices.last(), 20, 1));
        holds(&rt, has(devices.first(), SECTOR * 64, 1));
        holds(&rt, has(devices.last(), SECTOR * 64, 1));
    }
    Ok(())
}

// Stripe 0 has its block on the first column, and its check unit on the second.
#[test]
fn a_dirty_array_is_swept(rt: HostRuntime) -> Result<(), Fail> {
    let alloc = rt.alloc();
    for (clean, check) in [(0, 9), (1, 0)] {
        let labelled = array_of(alloc, (9, &[]), (0, &[]), false, clean)?;
        let (_service, devices) = ran(&rt, alloc, labelled, 0)?;
        has_label(&rt, devices.first(), 7, 1, 0);
        holds(&rt, has(devices.first(), SECTOR * 64, 9));
        holds(&rt, has(devices.last(), SECTOR * 64, check));
    }
    Ok(())
}

// The second device fails the read of its map, which is its first call, its label, the settle behind that, or its first
// write; or, without clients, as it is settled before the closing round, in that round, or behind it.
#[test]
fn a_device_that_fails_is_out_of_the_labels(rt: HostRuntime) -> Result<(), Fail> {
    let alloc = rt.alloc();
    const CALLS: &[(u32, u8, bool)] = &[
        (0, 7, true),
        (1, 8, true),
        (2, 8, true),
        (3, 7, true),
        (3, 7, false),
        (4, 8, false),
        (5, 8, false),
    ];
    for row in CALLS {
        let (call, counter, busy) = *row;
        let labelled = array_of(alloc, (9, &[]), (9, &[call]), busy, 1)?;
        let (service, devices) = ran(&rt, alloc, labelled, 0)?;
        has_label(&rt, devices.first(), counter, 1, 255);
        same(&rt, service.lost, None);
        same(
            &rt,
            service.columns.as_slice(),
            [Column::Live { device: 0 }, Column::Dead].as_slice(),
        );
    }
    Ok(())
}

// Both devices fail as their maps are read, by their first label, or as they are settled behind it; or both fail their
// first write.
#[test]
fn a_lost_array_is_served_no_more(rt: HostRuntime) -> Result<(), Fail> {
    let alloc = rt.alloc();
    for call in [0, 1, 2, 3] {
        let labelled = array_of(alloc, (9, &[call]), (9, &[call]), true, 1)?;
        match run_labelled(&rt, alloc, labelled, 0, &Silent) {
            Ok((outcome, _devices)) => match outcome {
                Outcome::Lost(ending) => {
                    holds(&rt, call < 3);
                    holds(&rt, ending.lost.is_some());
                }
                Outcome::Ran(service) => {
                    same(&rt, call, 3);
                    holds(&rt, service.lost.is_some());
                }
            },
            Err(_labelled) => holds(&rt, false),
        }
    }
    Ok(())
}

// The client lets two of the three columns fail: the array is lost, first at stripe 0. Of the devices
// the third alone is left for the closing round; the others keep the label of the opening one.
#[test]
fn an_array_that_is_lost_in_the_run_is_not_clean(rt: HostRuntime) -> Result<(), Fail> {
    let alloc = rt.alloc();
    let first = device(alloc, 9, &[])?;
    let second = device(alloc, 9, &[])?;
    let third = device(alloc, 9, &[])?;
    let labelled = losing(alloc, first, second, third)?;
    let (service, devices) = ran(&rt, alloc, labelled, 0)?;
    let loss = Loss {
        first: 0,
        second: 1,
        stripe: 0,
    };
    same(&rt, service.lost, Some(loss));
    is_labelled(&rt, devices.first(), 6, 0);
    is_labelled(&rt, devices.get(1), 6, 0);
    is_labelled(&rt, devices.last(), 7, 0);
    Ok(())
}

// The second column is rebuilt onto its own device: stripe 0 has its check there, which is the block.
// Where that device has failed before, the column is dead, and the array is served and closed without.
#[test]
fn a_column_is_rebuilt_in_place(rt: HostRuntime) -> Result<(), Fail> {
    let alloc = rt.alloc();
    for (failed, workers, told, seat, check) in [
        (false, 0, Told::Done(64), 0, 9),
        (false, 2, Told::Done(64), 0, 9),
        (true, 0, Told::Stopped, 255, 0),
    ] {
        let first = device(alloc, 9, &[])?;
        let second = device(alloc, 0, &[])?;
        let labelled = replacing(alloc, first, second, failed)?;
        let (service, devices) = ran(&rt, alloc, labelled, workers)?;
        let line = Line {
            column: 1,
            device: Some(1),
            told,
        };
        same(&rt, service.line, Some(line));
        same(&rt, service.lost, None);
        has_label(&rt, devices.first(), 7, 1, seat);
        is_labelled(
            &rt,
            devices.last(),
            if failed { 6 } else { 7 },
            u8::from(!failed),
        );
        holds(&rt, has(devices.last(), SECTOR * 64, check));
    }
    Ok(())
}

// The second device fails its label in the opening round, and so it isn't rebuilt onto.
#[test]
fn a_device_that_failed_is_not_rebuilt_onto(rt: HostRuntime) -> Result<(), Fail> {
    let alloc = rt.alloc();
    let first = device(alloc, 9, &[])?;
    let second = device(alloc, 0, &[1])?;
    let labelled = replacing(alloc, first, second, false)?;
    let (service, devices) = ran(&rt, alloc, labelled, 0)?;
    match service.line {
        Some(line) => same(&rt, line.told, Told::Stopped),
        None => holds(&rt, false),
    }
    has_label(&rt, devices.first(), 8, 1, 255);
    holds(&rt, has(devices.last(), SECTOR * 64, 0));
    Ok(())
}
