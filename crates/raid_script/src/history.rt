//! The history.
ghost use Rattle.std.specs.Prelude.{◌≡◌, ◌≤◌, is_ok, OnErr};
ghost use Rattle.blk_disk.specs.Disk.{Rose};
ghost use Rattle.raid_bay.specs.Sink.{Puts};
ghost use Rattle.raid_script.specs.History.{history_text};
ghost use Rattle.raid_script.specs.Steps.{commit_line, commit_text};

use blk_disk::Failed;
use blk_plain::{OpId, limits};
use put_line::Line;
use raid_bay::Sink;

/// The client whose operations are the array's own.
const OWN: u32 = limits::CLIENTS;

#[tactic(auto, unfolding(crate::specs::Steps::commit_line))]
fn set_commit(line: &mut Line, id: OpId)
    ensures { line.new ≡ commit_line id }
{
    line.clear();
    line.push(b"commit ");
    line.push_number(id.client);
    line.push(b".");
    line.push_number(id.index);
    line.push(b"\n");
}

// Prints what there is of an operation.
#[tactic(auto, unfolding(crate::specs::Steps::commit_line))]
fn put_commit<K: Sink>(id: OpId, line: &mut Line, out: &mut K) -> Result<(), Failed>
    ensures output { K.tells
        → Puts (is_ok result) (K.output out.old) (commit_text id) (K.output out.new) }
    ensures later { K.faults out.old ≤ K.faults out.new }
    ensures cause { OnErr result (Rose (K.faults out.old) (K.faults out.new)) }
{
    if id.client == OWN {
        return Ok(());
    }
    set_commit(line, id);
    line.put(out)
}

/// Prints the history: `commit C.I` for each operation in it, in its order; those of client 16,
/// the array's own, are left out.
///
/// It puts one line a call, and takes no memory. Failed, only where the sink's count of faults
/// rose, has put a front of the text.
pub fn put_history<K: Sink>(history: &[OpId], out: &mut K) -> Result<(), Failed>
    ensures output { K.tells
        → Puts (is_ok result) (K.output out.old) (history_text history.now) (K.output out.new) }
    ensures later { K.faults out.old ≤ K.faults out.new }
    ensures cause { OnErr result (Rose (K.faults out.old) (K.faults out.new)) }
{
    let mut line = Line::new();
    for id in history {
        put_commit(*id, &mut line, out)?;
    }
    Ok(())
}
