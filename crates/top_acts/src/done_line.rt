//! The line of what was done.
ghost use Rattle.std.specs.Prelude.{◌≡◌, ◌≤◌, length, is_ok, OnErr};
ghost use Rattle.blk_disk.specs.Disk.{Rose};
ghost use Rattle.raid_bay.specs.Sink.{Puts};
ghost use Rattle.top_acts.specs.Done.{done_text};
ghost use Rattle.top_acts.specs.Lines.{number_line};

use crate::done::Done;
use blk_disk::Failed;
use put_line::Line;
use raid_bay::Sink;

fn set_number(line: &mut Line, words: &[u8], number: u64)
    requires short { length words.now ≤ 20 }
    ensures { line.new ≡ number_line words.now number }
{
    line.clear();
    line.push(words);
    line.push_number(number);
    line.push(b"\n");
}

fn put_number<K: Sink>(words: &[u8], number: u64, out: &mut K) -> Result<(), Failed>
    requires short { length words.now ≤ 20 }
    ensures output { K.tells → Puts (is_ok result)
        (K.output out.old) (number_line words.now number) (K.output out.new) }
    ensures later { K.faults out.old ≤ K.faults out.new }
    ensures cause { OnErr result (Rose (K.faults out.old) (K.faults out.new)) }
{
    let mut line = Line::new();
    set_number(&mut line, words, number);
    line.put(out)
}

/// Prints the line of what was done. There is none where that is nothing, nor where stripes were
/// found that aren't in sync: the status tells those.
///
/// It is one call of the sink, and takes no memory. Failed, only where the sink's count of faults
/// rose, has put a front of the line.
pub fn put_done<K: Sink>(done: &Done, out: &mut K) -> Result<(), Failed>
    ensures output { K.tells → Puts (is_ok result)
        (K.output out.old) (done_text done.now) (K.output out.new) }
    ensures later { K.faults out.old ≤ K.faults out.new }
    ensures cause { OnErr result (Rose (K.faults out.old) (K.faults out.new)) }
{
    match done {
        Done::Nothing => Ok(()),
        Done::Init(count) => put_number(b"parity initialised ", *count, out),
        Done::Check(0) => out.put(b"parity clean\n"),
        Done::Check(_) => Ok(()),
        Done::Rewrite(count) => put_number(b"parity rewritten ", *count, out),
        Done::Killed(column) => put_number(b"failed column ", u64::from(*column), out),
        Done::Labelled(count) => put_number(b"labels written ", u64::from(*count), out),
    }
}
