//! Runs of a core over devices in memory. What is wanted is worked by hand from the layout.
ghost use Rattle.std.specs.Prelude.{◌≡◌, ◌≤◌, IfOk, None, false, length};

mod closed;
mod driving;
mod faults;
mod graphs;
mod judging;
mod late;
mod opening;
mod orders;
mod rebuilding;
mod rebuilt;
mod rows;
mod together;
mod traced;
mod worlds;

use blk_disk::{MemDisk, SECTOR};
use blk_plain::{Op, OpId, Patch, Patches, Pattern, Span};
use driving::run;
use eng_array::{Closed, Item, Setup};
use eng_cols::Column;
use item_list::Items;
use lay_plain::Raid5;
use std::alloc::Global;
use std::process::Abort;
use std::test::Fail;

// A device of so many sectors of zeros that fails its calls of these numbers.
fn device(alloc: Global, sectors: usize, fails: &[u32]) -> Result<MemDisk, Fail>
    requires { sectors ≤ 1000 }
{
    let bytes = vec![in alloc; 0; SECTOR * sectors]?;
    let fails = fails.to_vec(alloc)?;
    Ok(MemDisk::new(alloc, bytes, fails, 100)?)
}

// Devices of 128 sectors of zeros, each of which fails the calls of its list.
fn devices(alloc: Global, fails: &[&[u32]]) -> Result<Vec<Option<MemDisk>>, Fail> {
    let mut devices = Vec::new(alloc);
    for numbers in fails {
        devices.push(Some(device(alloc, 128, numbers)?))?;
    }
    Ok(devices)
}

// Each column is live on the device of its number.
fn live(alloc: Global, count: u32) -> Result<Vec<Column>, Fail>
    ensures { IfOk result (λ columns. length columns.items ≡ count) }
{
    let mut columns = Vec::new(alloc);
    for device in 0..count {
        columns.push(Column::Live { device })?;
    }
    Ok(columns)
}

fn write(first: u64, count: u32, byte: u8) -> Item
    ensures { (pattern : Pattern)
        × (result ≡ Item.Run (Op.Write (record { first = first; count = count }) pattern) None) }
{
    let mut bytes = [0; 32];
    bytes[0] = byte;
    Item::Run {
        op: Op::Write {
            span: Span { first, count },
            pattern: Pattern { len: 1, bytes },
        },
        graph: None,
    }
}

// Each span by its first block, how many it has, and their byte.
fn writes(one: (u64, u32, u8), other: (u64, u32, u8)) -> Item {
    let mut list = [patch(one); 8];
    list[1] = patch(other);
    Item::Run {
        op: Op::Writes {
            patches: Patches { used: 2, list },
        },
        graph: None,
    }
}

fn patch((first, count, byte): (u64, u32, u8)) -> Patch {
    let mut bytes = [0; 32];
    bytes[0] = byte;
    Patch {
        span: Span { first, count },
        pattern: Pattern { len: 1, bytes },
    }
}

fn read(first: u64, count: u32) -> Item
    ensures { result ≡ Item.Run (Op.Read (record { first = first; count = count })) None }
{
    Item::Run {
        op: Op::Read {
            span: Span { first, count },
        },
        graph: None,
    }
}

fn sync(stripe: u32) -> Item {
    Item::Run {
        op: Op::Sync { stripe },
        graph: None,
    }
}

fn fail(column: u32) -> Item {
    Item::Fail { column }
}

fn id(client: u32, index: u32) -> OpId {
    OpId { client, index }
}

// Lists of items, one for each client.
fn scripts(alloc: Global, lists: &[&[Item]]) -> Result<Vec<Items>, Fail> {
    let mut scripts = Vec::new(alloc);
    for list in lists {
        scripts.push(Items::from_slice(alloc, list)?)?;
    }
    Ok(scripts)
}

// An array of live columns without graphs of a file, of which no trace is kept.
fn setup<L: Drop>(
    alloc: Global,
    layout: L,
    fails: &[&[u32]],
    lists: &[&[Item]],
) -> Result<Setup<L, MemDisk>, Fail>
    ensures { IfOk result (λ setup. setup.trace ≡ false) }
{
    Ok(Setup {
        layout,
        devices: devices(alloc, fails)?,
        columns: live(alloc, u32::try_from(fails.len()).unwrap_or(0))?,
        clients: scripts(alloc, lists)?,
        graphs: Vec::new(alloc),
        trace: false,
    })
}

// Level 5 over three columns of 64 rows, with units of one sector.
fn level_five(
    rt: &impl Abort,
    alloc: Global,
    fails: &[&[u32]],
    lists: &[&[Item]],
) -> Result<Setup<Raid5, MemDisk>, Fail>
    ensures { IfOk result (λ setup. setup.trace ≡ false) }
{
    let layout = Raid5::new(3, 1, 64).expect(rt, "a layout");
    setup(alloc, layout, fails, lists)
}

// What these clients leave there.
fn ran(
    rt: &impl Abort,
    alloc: Global,
    fails: &[&[u32]],
    lists: &[&[Item]],
) -> Result<Closed<Raid5, MemDisk>, Fail> {
    run(alloc, level_five(rt, alloc, fails, lists)?)
}

// What a client leaves there that writes and reads block 0.
fn written(
    rt: &impl Abort,
    alloc: Global,
    fails: &[&[u32]],
) -> Result<Closed<Raid5, MemDisk>, Fail> {
    let items = [write(0, 1, 0xa5), read(0, 1)];
    ran(rt, alloc, fails, &[&items])
}
