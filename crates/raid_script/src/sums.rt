//! What is summed up of a run: its items, the sectors that they write and read, the bytes replied.
ghost use Rattle.std.specs.Prelude.{◌≡◌, ◌≤◌, ◌+◌, ◌*◌, length, drop, sum_by};
ghost use Rattle.blk_plain.specs.Plain.{used_of};
ghost use Rattle.raid_script.specs.Replies.{row_sectors, StandFor};
ghost use Rattle.raid_script.specs.Steps.{bytes_from, op_writes, row_writes, byte_sum};
ghost use Rattle.raid_script.specs.Summary.{item_writes, data_sum, row_sum, all_sum};

use crate::replies::item_sectors;
use blk_plain::{Op, Patch, Patches};
use eng_world::{Item, Reply};
use item_list::Items;
use sector_store::Store;

fn patches_in_use(patches: &Patches) -> &[Patch]
    ensures value { result.now ≡ used_of patches.now }
    ensures few { length result.now ≤ 8 }
{
    let used = usize::from(patches.used);
    if used < patches.list.len() {
        &patches.list[..used]
    } else {
        &patches.list
    }
}

// How many sectors their spans have.
fn sum_patches(patches: &[Patch]) -> u64
    requires { length patches.now ≤ 8 }
    ensures value { result ≡ sum_by (λ p. p.span.count) patches.now }
    ensures small { result ≤ 34359738360 }
{
    let mut total = 0;
    for patch in patches {
        total += u64::from(patch.span.count);
    }
    total
}

// How many sectors an operation writes.
fn op_writes(op: &Op) -> u64
    ensures value { result ≡ op_writes op.now }
    ensures small { result ≤ 34359738360 }
{
    match op {
        Op::Write { span, .. } => u64::from(span.count),
        Op::Writes { patches } => sum_patches(patches_in_use(patches)),
        Op::Read { .. } | Op::Rebuild { .. } | Op::Sync { .. } => 0,
    }
}

// How many sectors an item writes.
fn item_writes(item: &Item) -> u64
    ensures value { result ≡ item_writes item.now }
    ensures small { result ≤ 34359738360 }
{
    match item {
        Item::Run { op, .. } => op_writes(op),
        Item::Fail { .. } => 0,
    }
}

// How many sectors a client's items write.
fn row_writes(items: &Items) -> u128
    ensures value { result ≡ row_writes items.now.items }
    ensures small { result ≤ 34359738360 * length items.now.items }
    ensures few { length items.now.items ≤ 18446744073709551615 }
{
    let mut total: u128 = 0;
    for at in 0..items.len() {
        total += u128::from(item_writes(&items.get(at)));
    }
    total
}

/// How many items there are.
pub fn count_items(clients: &[Items]) -> u128
    requires { length clients.now ≤ 16 }
    ensures { result ≡ sum_by (λ row. length row.items) clients.now }
{
    let mut total: u128 = 0;
    for row in clients {
        total += row.len() as u128;
    }
    total
}

/// How many sectors all items write.
pub fn count_written(clients: &[Items]) -> u128
    requires { length clients.now ≤ 16 }
    ensures { result ≡ sum_by (λ row. row_writes row.items) clients.now }
{
    let mut total: u128 = 0;
    for row in clients {
        total += row_writes(row);
    }
    total
}

fn sum_bytes(bytes: &[u8]) -> u128
    ensures value { result ≡ byte_sum bytes.now }
    ensures small { result ≤ 255 * length bytes.now }
{
    let mut total: u128 = 0;
    for byte in bytes {
        total += u128::from(*byte);
    }
    total
}

// The sum of the bytes of so many sectors, from this one on.
fn sum_sectors(sectors: &Store, from: usize, count: u32) -> u128
    requires { 512 * from + 512 * count ≤ length sectors.now }
    ensures value { result ≡ byte_sum (bytes_from sectors.now from count) }
    ensures small { result ≤ 130560 * count }
{
    // A call of the store makes known that its numbers are small.
    let _count = sectors.len();
    let mut total: u128 = 0;
    for i in 0..count as usize {
        total += sum_bytes(sectors.sector(from + i));
    }
    total
}

// The sum of the bytes behind `data`.
fn sum_data(reply: Reply, sectors: &Store, from: usize, count: u32) -> u128
    requires { 512 * from + 512 * count ≤ length sectors.now }
    ensures value { result ≡ data_sum reply (bytes_from sectors.now from count) }
    ensures small { result ≤ 130560 * count }
{
    match reply {
        Reply::Data => sum_sectors(sectors, from, count),
        Reply::Done
        | Reply::Okay
        | Reply::Undone { .. }
        | Reply::Range
        | Reply::Long
        | Reply::Refused(_)
        | Reply::Lost => 0,
    }
}

// The sum of what a client was replied, whose sectors are those from this one on; and how many these are.
fn sum_row(items: &Items, replies: &[Reply], sectors: &Store, from: usize) -> (u128, usize)
    requires answered { length replies.now ≡ length items.now.items }
    requires enough { 512 * from + 512 * row_sectors items.now.items ≤ length sectors.now }
    ensures sum { result.0 ≡ row_sum items.now.items replies.now (drop (512 * from) sectors.now) }
    ensures passed { result.1 ≡ row_sectors items.now.items }
    ensures small { result.0 ≤ 130560 * result.1 }
{
    // A call of the store makes known that its numbers are small.
    let _count = sectors.len();
    let mut sum: u128 = 0;
    let mut at = 0;
    for i in 0..items.len() {
        let count = item_sectors(&items.get(i));
        sum += sum_data(replies[i], sectors, from + at, count);
        at += count as usize;
    }
    (sum, at)
}

/// The sum of all bytes behind `data`, and how many sectors all items read.
pub fn sum_all(clients: &[Items], replies: &[Vec<Reply>], sectors: &Store) -> (u128, usize)
    requires { StandFor clients.now replies.now sectors.now }
    ensures sum { result.0 ≡ all_sum clients.now replies.now sectors.now }
    ensures read { result.1 ≡ sum_by (λ row. row_sectors row.items) clients.now }
{
    // A call of the store makes known that its numbers are small.
    let _count = sectors.len();
    let mut sum: u128 = 0;
    let mut at = 0;
    for client in 0..clients.len() {
        let told = replies[client].as_slice();
        let row = sum_row(&clients[client], told, sectors, at);
        sum += row.0;
        at += row.1;
    }
    (sum, at)
}
