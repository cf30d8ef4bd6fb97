//! The replies.
ghost use Rattle.std.specs.Prelude.{◌≡◌, ◌≤◌, ◌+◌, ◌*◌, length, drop, is_ok, IfOk, OnErr};
ghost use Rattle.blk_disk.specs.Disk.{Rose};
ghost use Rattle.raid_bay.specs.Sink.{Puts};
ghost use Rattle.raid_script.specs.Replies.{item_sectors, row_sectors, item_first, data_text, row_text, replies_text, StandFor};
ghost use Rattle.raid_script.specs.Steps.{op_sectors, op_first, bytes_from, item_text};

use crate::causes::set_reply;
use crate::runs::put_stored;
use blk_disk::Failed;
use blk_plain::Op;
use eng_world::{Item, Reply};
use item_list::Items;
use put_line::Line;
use raid_bay::Sink;
use sector_store::Store;

// The clients whose replies are printed: those below this number.
const PRINTED: usize = 16;

// How many sectors an operation is handed.
fn op_sectors(op: &Op) -> u32
    ensures { result ≡ op_sectors op.now }
{
    match op {
        Op::Read { span } => span.count,
        Op::Write { .. } | Op::Writes { .. } | Op::Rebuild { .. } | Op::Sync { .. } => 0,
    }
}

/// How many sectors an item is handed.
pub fn item_sectors(item: &Item) -> u32
    ensures { result ≡ item_sectors item.now }
{
    match item {
        Item::Run { op, .. } => op_sectors(op),
        Item::Fail { .. } => 0,
    }
}

// The first block of a read.
fn op_first(op: &Op) -> u64
    ensures { result ≡ op_first op.now }
{
    match op {
        Op::Read { span } => span.first,
        Op::Write { .. } | Op::Writes { .. } | Op::Rebuild { .. } | Op::Sync { .. } => 0,
    }
}

fn item_first(item: &Item) -> u64
    ensures { result ≡ item_first item.now }
{
    match item {
        Item::Run { op, .. } => op_first(op),
        Item::Fail { .. } => 0,
    }
}

// Prints the runs behind `data` of the item, whose sectors are those from this one on.
fn put_data<K: Sink>(
    item: &Item,
    reply: Reply,
    sectors: &Store,
    from: usize,
    line: &mut Line,
    out: &mut K,
) -> Result<(), Failed>
    requires { 512 * from + 512 * item_sectors item.now ≤ length sectors.now }
    ensures output { K.tells → Puts (is_ok result)
        (K.output out.old) (data_text reply (item_first item.now)
        (bytes_from sectors.now from (item_sectors item.now))) (K.output out.new) }
    ensures later { K.faults out.old ≤ K.faults out.new }
    ensures cause { OnErr result (Rose (K.faults out.old) (K.faults out.new)) }
{
    match reply {
        Reply::Data => put_stored(
            item_first(item),
            sectors,
            from,
            item_sectors(item),
            line,
            out,
        ),
        Reply::Done
        | Reply::Okay
        | Reply::Undone { .. }
        | Reply::Range
        | Reply::Long
        | Reply::Refused(_)
        | Reply::Lost => Ok(()),
    }
}

// Prints the reply to a client's item of this number, and the runs of its sectors, which are those from this one on.
fn put_item<K: Sink>(
    place: (usize, usize),
    item: &Item,
    reply: Reply,
    sectors: &Store,
    from: usize,
    line: &mut Line,
    out: &mut K,
) -> Result<(), Failed>
    requires { 512 * from + 512 * item_sectors item.now ≤ length sectors.now }
    ensures output { K.tells → Puts (is_ok result)
        (K.output out.old) (item_text place.0 place.1 item.now reply
        (bytes_from sectors.now from (item_sectors item.now))) (K.output out.new) }
    ensures later { K.faults out.old ≤ K.faults out.new }
    ensures cause { OnErr result (Rose (K.faults out.old) (K.faults out.new)) }
{
    set_reply(line, place.0, place.1, reply);
    line.put(out)?;
    put_data(item, reply, sectors, from, line, out)
}

// Prints the replies to a client's items, whose sectors are those from this one on; and says how many
// these are.
fn put_row<K: Sink>(
    client: usize,
    items: &Items,
    replies: &[Reply],
    sectors: &Store,
    from: usize,
    line: &mut Line,
    out: &mut K,
) -> Result<usize, Failed>
    requires answered { length replies.now ≡ length items.now.items }
    requires enough { 512 * from + 512 * row_sectors items.now.items ≤ length sectors.now }
    ensures output { K.tells → Puts (is_ok result) (K.output out.old)
        (row_text client items.now.items replies.now (drop (512 * from) sectors.now))
        (K.output out.new) }
    ensures passed { IfOk result (λ n. n ≡ row_sectors items.now.items) }
    ensures later { K.faults out.old ≤ K.faults out.new }
    ensures cause { OnErr result (Rose (K.faults out.old) (K.faults out.new)) }
{
    // A call of the store makes known that its numbers are small.
    let _count = sectors.len();
    let mut at = 0;
    for i in 0..items.len() {
        let item = items.get(i);
        put_item(
            (client, i),
            &item,
            replies[i],
            sectors,
            from + at,
            line,
            out,
        )?;
        at += item_sectors(&item) as usize;
    }
    Ok(at)
}

/// Prints the replies, client after client and item after item, those of client 16, the array's
/// own, left out: `reply C.I` and `done`, `data`, `ok`, `undone DEVICE`, `refused R1` for a span
/// out of range, `refused R2` for one of too many stripes, `refused Gn FIELDS` for a graph that the
/// checker refuses, or `lost`. Behind each `data` stands a line for each maximal run of equal
/// sectors, as [`put_blocks`](crate::put_blocks) prints it.
///
/// `sectors` are those that reads were handed: of each read as many as it has blocks, one read's behind
/// the other's, client after client, those of a read without data too.
///
/// It puts one line a call, and takes no memory. Failed, only where the sink's count of faults
/// rose, has put a front of the text.
pub fn put_replies<K: Sink>(
    clients: &[Items],
    replies: &[Vec<Reply>],
    sectors: &Store,
    out: &mut K,
) -> Result<(), Failed>
    requires { StandFor clients.now replies.now sectors.now }
    ensures output { K.tells → Puts (is_ok result)
        (K.output out.old) (replies_text clients.now replies.now sectors.now) (K.output out.new) }
    ensures later { K.faults out.old ≤ K.faults out.new }
    ensures cause { OnErr result (Rose (K.faults out.old) (K.faults out.new)) }
{
    let mut line = Line::new();
    // A call of the store makes known that its numbers are small.
    let _count = sectors.len();
    let mut at = 0;
    for client in 0..clients.len().min(PRINTED) {
        let told = replies[client].as_slice();
        at += put_row(client, &clients[client], told, sectors, at, &mut line, out)?;
    }
    Ok(())
}
