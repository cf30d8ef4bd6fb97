//! The lines that sum up a run.
ghost use Rattle.std.specs.Prelude.{◌≡◌, ◌≤◌, length, is_ok, OnErr};
ghost use Rattle.blk_disk.specs.Disk.{Rose};
ghost use Rattle.raid_bay.specs.Sink.{Puts};
ghost use Rattle.raid_script.specs.Replies.{StandFor};
ghost use Rattle.raid_script.specs.Summary.{summary_text};
ghost use Rattle.raid_script.specs.Steps.{sweep_line, written_line};

use crate::sums::{count_items, count_written, sum_all};
use blk_disk::Failed;
use eng_world::Reply;
use item_list::Items;
use put_line::Line;
use raid_bay::Sink;
use sector_store::Store;

#[tactic(auto, unfolding(crate::specs::Steps::sweep_line))]
fn set_sweep(line: &mut Line, clients: usize, operations: u128)
    ensures { line.new ≡ sweep_line clients operations }
{
    line.clear();
    line.push(b"sweep clients ");
    line.push_number(clients);
    line.push(b" operations ");
    line.push_number(operations);
    line.push(b"\n");
}

#[tactic(auto, unfolding(crate::specs::Steps::written_line))]
fn set_written(line: &mut Line, written: u128, read: usize, sum: u128)
    ensures { line.new ≡ written_line written read sum }
{
    line.clear();
    line.push(b"written ");
    line.push_number(written);
    line.push(b" read ");
    line.push_number(read);
    line.push(b" sum ");
    line.push_number(sum);
    line.push(b"\n");
}

/// Prints a run in two lines: `sweep clients C operations T`, and `written W read R sum S`, with
/// the sectors of the writes and of the reads, and the sum of all bytes that reads were replied.
///
/// `sectors` are those of [`put_replies`](crate::put_replies); there are at most 16 clients. Bytes
/// of a read that isn't replied its data aren't in the sum.
///
/// It puts one line a call, and takes no memory. Failed, only where the sink's count of faults
/// rose, has put a front of the text.
pub fn put_summary<K: Sink>(
    clients: &[Items],
    replies: &[Vec<Reply>],
    sectors: &Store,
    out: &mut K,
) -> Result<(), Failed>
    requires few { length clients.now ≤ 16 }
    requires stand { StandFor clients.now replies.now sectors.now }
    ensures output { K.tells → Puts (is_ok result)
        (K.output out.old) (summary_text clients.now replies.now sectors.now) (K.output out.new) }
    ensures later { K.faults out.old ≤ K.faults out.new }
    ensures cause { OnErr result (Rose (K.faults out.old) (K.faults out.new)) }
{
    let mut line = Line::new();
    set_sweep(&mut line, clients.len(), count_items(clients));
    line.put(out)?;
    let sums = sum_all(clients, replies, sectors);
    set_written(&mut line, count_written(clients), sums.1, sums.0);
    line.put(out)
}
