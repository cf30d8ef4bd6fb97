//! How the program ends.
ghost use Rattle.std.specs.Prelude.{◌≡◌, ℕ};
ghost use Rattle.std.specs.Process.{exit_status};
ghost use Rattle.blk_disk.specs.Disk.{Rose};
ghost use Rattle.raid_top.specs.Words.{Printed};
ghost use Rattle.top_status.specs.Status.{exit_number, status_text};
ghost use Rattle.top_words.specs.declared.invocation.WordsFault.TheVariants.{Memory, Usage};

use raid_bay::Sink;
use std::process::ExitCode;
use top_status::{Status, put_status};
use top_words::WordsFault;

/// The exit of a status.
pub(crate) fn exit_of(status: &Status) -> ExitCode
    ensures { exit_status result ≡ exit_number status.now }
{
    ExitCode::from(status.number())
}

/// There are no words to run. What they aren't is printed; where there was no memory for them, nothing is.
pub(crate) fn refuse<K: Sink>(fault: WordsFault, out: &mut K) -> Status
    ensures silent { fault ≡ Memory → (result ≡ Status.Memory) × (out.new ≡ out.old) }
    ensures told { (case : ℕ) → fault ≡ Usage case →
        Printed K.tells (Rose (K.faults out.old) (K.faults out.new)) (Status.Usage case) result
        (status_text (Status.Usage case)) (K.output out.old) (K.output out.new) }
{
    let WordsFault::Usage(case) = fault else {
        return Status::Memory;
    };
    let status = Status::Usage(case);
    match put_status(&status, out) {
        Ok(()) => status,
        Err(_) => Status::SinkFault,
    }
}
