//! Setups over two columns.
ghost use Rattle.std.specs.Prelude.{◌≤◌, IfOk, All, length};
ghost use Rattle.crew_tests.specs.Trial.{AreSmall};
ghost use Rattle.crew_tests.specs.Ready.{IsDegraded, IsPaused, IsReadyToServe};

use crate::arrays::{judged, pair};
use blk_disk::{Disk, MemDisk};
use eng_array::{Column, Setup};
use item_list::Items;
use lay_core::Layout;
use lay_plain::Raid5;
use std::alloc::Global;
use std::test::Fail;

// Level 5 over two columns of 64 rows, with units of one sector, that live on these devices. No trace is kept.
pub fn ready(
    alloc: Global,
    first: MemDisk,
    second: MemDisk,
    clients: Vec<Items>,
) -> Result<Setup<Raid5, MemDisk>, Fail>
    requires first { 128 ≤ ⟦<MemDisk as Disk>⟧.size first }
    requires second { 128 ≤ ⟦<MemDisk as Disk>⟧.size second }
    requires few { length clients.items ≤ 16 }
    requires small { All AreSmall clients.items }
    ensures { IfOk result (IsReadyToServe ⟦<Raid5 as Layout>⟧ ⟦<MemDisk as Disk>⟧) }
{
    let Ok(layout) = Raid5::new(2, 1, 64) else {
        return Err(Fail::from("no layout"));
    };
    let columns = vec![in alloc; Column::Live { device: 0 }, Column::Live { device: 1 }]?;
    let devices = pair(alloc, first, second)?;
    Ok(Setup {
        layout,
        devices,
        columns,
        clients,
        graphs: Vec::new(alloc),
        trace: false,
    })
}

// The same of which the second column is dead, and the second device in no column.
pub fn degraded(
    alloc: Global,
    first: MemDisk,
    second: MemDisk,
    clients: Vec<Items>,
) -> Result<Setup<Raid5, MemDisk>, Fail>
    requires first { 128 ≤ ⟦<MemDisk as Disk>⟧.size first }
    requires second { 128 ≤ ⟦<MemDisk as Disk>⟧.size second }
    requires few { length clients.items ≤ 16 }
    requires small { All AreSmall clients.items }
    ensures { IfOk result (IsDegraded ⟦<Raid5 as Layout>⟧ ⟦<MemDisk as Disk>⟧) }
{
    let Ok(layout) = Raid5::new(2, 1, 64) else {
        return Err(Fail::from("no layout"));
    };
    let columns = vec![in alloc; Column::Live { device: 0 }, Column::Dead]?;
    let _judge = judged(alloc, &layout, &columns)?;
    let devices = pair(alloc, first, second)?;
    Ok(Setup {
        layout,
        devices,
        columns,
        clients,
        graphs: Vec::new(alloc),
        trace: false,
    })
}

// The same of which the second column is filling the second device, and so many of its stripes are done.
pub fn paused(
    alloc: Global,
    first: MemDisk,
    second: MemDisk,
    clients: Vec<Items>,
    done: u32,
) -> Result<Setup<Raid5, MemDisk>, Fail>
    requires first { 128 ≤ ⟦<MemDisk as Disk>⟧.size first }
    requires second { 128 ≤ ⟦<MemDisk as Disk>⟧.size second }
    requires few { length clients.items ≤ 16 }
    requires small { All AreSmall clients.items }
    ensures { IfOk result (IsPaused ⟦<Raid5 as Layout>⟧ ⟦<MemDisk as Disk>⟧) }
{
    let Ok(layout) = Raid5::new(2, 1, 64) else {
        return Err(Fail::from("no layout"));
    };
    let columns = vec![in alloc;
        Column::Live { device: 0 },
        Column::Filling { device: 1, done },
    ]?;
    let _judge = judged(alloc, &layout, &columns)?;
    let devices = pair(alloc, first, second)?;
    Ok(Setup {
        layout,
        devices,
        columns,
        clients,
        graphs: Vec::new(alloc),
        trace: false,
    })
}

// The same of which both columns are dead, without clients.
pub fn lost(alloc: Global, first: MemDisk, second: MemDisk) -> Result<Setup<Raid5, MemDisk>, Fail>
    ensures { IfOk result (IsReadyToServe ⟦<Raid5 as Layout>⟧ ⟦<MemDisk as Disk>⟧) }
{
    let Ok(layout) = Raid5::new(2, 1, 64) else {
        return Err(Fail::from("no layout"));
    };
    let columns = vec![in alloc; Column::Dead, Column::Dead]?;
    let devices = pair(alloc, first, second)?;
    Ok(Setup {
        layout,
        devices,
        columns,
        clients: Vec::new(alloc),
        graphs: Vec::new(alloc),
        trace: false,
    })
}
