//! The last lines of a call of the program.
ghost use Rattle.std.specs.Prelude.{◌≡◌, ◌≤◌, is_ok, OnErr};
ghost use Rattle.blk_disk.specs.Disk.{Rose};
ghost use Rattle.raid_bay.specs.Sink.{Puts};
ghost use Rattle.top_status.specs.Status.{ending_text};
ghost use Rattle.top_status.specs.Refusals.{refusal_text};

use crate::dead::put_dead;
use crate::refusal::Refusal;
use crate::status::Status;
use crate::status_line::put_status;
use blk_disk::Failed;
use eng_cols::Column;
use raid_bay::Sink;

/// Prints the columns that are dead in the end, and then the status, as [`put_dead`] and
/// [`put_status`] do.
pub fn put_ending<K: Sink>(columns: &[Column], status: &Status, out: &mut K) -> Result<(), Failed>
    ensures output { K.tells → Puts (is_ok result) (K.output out.old)
        (ending_text columns.now status.now) (K.output out.new) }
    ensures later { K.faults out.old ≤ K.faults out.new }
    ensures cause { OnErr result (Rose (K.faults out.old) (K.faults out.new)) }
{
    put_dead(columns, out)?;
    put_status(status, out)
}

/// Prints a refusal: the columns that are printed dead before its status, and that.
pub fn put_refusal<K: Sink>(refusal: &Refusal, out: &mut K) -> Result<(), Failed>
    ensures output { K.tells → Puts (is_ok result) (K.output out.old)
        (refusal_text refusal.now) (K.output out.new) }
    ensures later { K.faults out.old ≤ K.faults out.new }
    ensures cause { OnErr result (Rose (K.faults out.old) (K.faults out.new)) }
{
    put_ending(refusal.columns(), refusal.status(), out)
}
