//! An array with labels over two columns.
ghost use Rattle.std.specs.Prelude.{◌≡◌, ◌⊎◌, ◌≤◌, ℕ, [], ◌∷◌, IfOk, All, Some, None, length};
ghost use Rattle.eng_array.specs.declared.start.Start.TheVariants as how;
ghost use Rattle.crew_tests.specs.Trial.{AreSmall};
ghost use Rattle.raid_label.specs.Bytes.{IsHeld};
ghost use Rattle.top_labelled.specs.Given.{CanRunLabelled};

use crate::arrays::{judged, pair};
use blk_disk::{Disk, MemDisk};
use eng_array::{Column, Item, Setup, Start};
use item_list::Items;
use lay_core::Layout;
use lay_plain::Raid5;
use raid_label::Label;
use raid_recon::Room;
use std::alloc::{AllocError, Global};
use std::test::Fail;
use top_labelled::Labelled;

// The three devices, by number.
fn three(
    alloc: Global,
    first: MemDisk,
    second: MemDisk,
    third: MemDisk,
) -> Result<Vec<Option<MemDisk>>, AllocError>
    ensures { IfOk result (λ devices. devices.items ≡ Some first ∷ Some second ∷ Some third ∷ []) }
{
    let mut devices = Vec::with_capacity(alloc, 3)?;
    devices.push_reserved(Some(first));
    devices.push_reserved(Some(second));
    devices.push_reserved(Some(third));
    Ok(devices)
}

// The newest label of so many columns of 64 rows at level 5.
fn label(columns: u32, clean: u32) -> Label
    requires { clean ≤ 1 }
    ensures held { IsHeld result }
    ensures columns { result.columns ≡ columns }
    ensures counter { result.counter ≡ 5 }
{
    Label {
        version: 1,
        serial: 7,
        counter: 5,
        column: 0,
        columns,
        unit: 1,
        rows: 64,
        level: 53,
        clean,
        b: 0,
        k: 0,
        r: 0,
        lambda: 0,
        seats: [0; 32],
        filling: 0,
        done: 0,
    }
}

// Level 5 over two columns of 64 rows, with units of one sector, that live on these devices, whose
// newest label has the counter 5 and this clean field. No trace is kept. The second column may be
// rebuilt onto its own device, which may have failed.
fn two_columns(
    alloc: Global,
    first: MemDisk,
    second: MemDisk,
    clients: Vec<Items>,
    clean: u32,
    start: Option<Start>,
    failed: bool,
) -> Result<Labelled<Raid5, MemDisk>, Fail>
    requires first { 128 ≤ ⟦<MemDisk as Disk>⟧.size first }
    requires second { 128 ≤ ⟦<MemDisk as Disk>⟧.size second }
    requires few { length clients.items ≤ 16 }
    requires small { All AreSmall clients.items }
    requires clean { clean ≤ 1 }
    requires start { (start ≡ None) ⊎ ((most : ℕ) × (start ≡ Some (how.Fill 1 1 most))) }
    ensures { IfOk result (CanRunLabelled ⟦<Raid5 as Layout>⟧ ⟦<MemDisk as Disk>⟧) }
{
    let Ok(layout) = Raid5::new(2, 1, 64) else {
        return Err(Fail::from("no layout"));
    };
    let columns = vec![in alloc; Column::Live { device: 0 }, Column::Live { device: 1 }]?;
    let dead = vec![in alloc; Column::Live { device: 0 }, Column::Dead]?;
    let devices = pair(alloc, first, second)?;
    let _alone = judged(alloc, &layout, &dead)?;
    let judge = judged(alloc, &layout, &columns)?;
    let Ok(room) = Room::open(alloc, 1024) else {
        return Err(Fail::from("no memory"));
    };
    let setup = Setup {
        layout,
        devices,
        columns,
        clients,
        graphs: Vec::new(alloc),
        trace: false,
    };
    let label = label(2, clean);
    Ok(Labelled {
        setup,
        label,
        judge,
        room,
        start,
        failed,
        map: false,
    })
}

// Such an array, of which nothing is rebuilt.
pub fn ready(
    alloc: Global,
    first: MemDisk,
    second: MemDisk,
    clients: Vec<Items>,
    clean: u32,
) -> Result<Labelled<Raid5, MemDisk>, Fail>
    requires first { 128 ≤ ⟦<MemDisk as Disk>⟧.size first }
    requires second { 128 ≤ ⟦<MemDisk as Disk>⟧.size second }
    requires few { length clients.items ≤ 16 }
    requires small { All AreSmall clients.items }
    requires clean { clean ≤ 1 }
    ensures { IfOk result (CanRunLabelled ⟦<Raid5 as Layout>⟧ ⟦<MemDisk as Disk>⟧) }
{
    two_columns(alloc, first, second, clients, clean, None, false)
}

// Such an array that was closed in order, whose second column is rebuilt in place.
pub fn replacing(
    alloc: Global,
    first: MemDisk,
    second: MemDisk,
    failed: bool,
) -> Result<Labelled<Raid5, MemDisk>, Fail>
    requires first { 128 ≤ ⟦<MemDisk as Disk>⟧.size first }
    requires second { 128 ≤ ⟦<MemDisk as Disk>⟧.size second }
    ensures { IfOk result (CanRunLabelled ⟦<Raid5 as Layout>⟧ ⟦<MemDisk as Disk>⟧) }
{
    let start = Start::Fill {
        column: 1,
        device: 1,
        most: u32::MAX,
    };
    two_columns(
        alloc,
        first,
        second,
        Vec::new(alloc),
        1,
        Some(start),
        failed,
    )
}

// The same over three columns, of which the one client lets the first two fail. The array was closed in
// order.
pub fn losing(
    alloc: Global,
    first: MemDisk,
    second: MemDisk,
    third: MemDisk,
) -> Result<Labelled<Raid5, MemDisk>, Fail>
    requires first { 128 ≤ ⟦<MemDisk as Disk>⟧.size first }
    requires second { 128 ≤ ⟦<MemDisk as Disk>⟧.size second }
    requires third { 128 ≤ ⟦<MemDisk as Disk>⟧.size third }
    ensures { IfOk result (CanRunLabelled ⟦<Raid5 as Layout>⟧ ⟦<MemDisk as Disk>⟧) }
{
    let Ok(layout) = Raid5::new(3, 1, 64) else {
        return Err(Fail::from("no layout"));
    };
    let columns = vec![in alloc;
        Column::Live { device: 0 },
        Column::Live { device: 1 },
        Column::Live { device: 2 },
    ]?;
    let devices = three(alloc, first, second, third)?;
    let judge = judged(alloc, &layout, &columns)?;
    let Ok(room) = Room::open(alloc, 1024) else {
        return Err(Fail::from("no memory"));
    };
    let fails = [Item::Fail { column: 0 }, Item::Fail { column: 1 }];
    let items = Items::from_slice(alloc, &fails)?;
    let clients = vec![in alloc; items]?;
    let setup = Setup {
        layout,
        devices,
        columns,
        clients,
        graphs: Vec::new(alloc),
        trace: false,
    };
    let label = label(3, 1);
    Ok(Labelled {
        setup,
        label,
        judge,
        room,
        start: None,
        failed: false,
        map: false,
    })
}
