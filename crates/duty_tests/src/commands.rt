//! The command that words are.
ghost use Rattle.std.specs.Prelude.{IfOk};
ghost use Rattle.top_words.specs.Asked.{AreNumbersInRange};
ghost use Rattle.top_words.specs.Views.{action_seen};

use raid_bay::Name;
use std::alloc::Global;
use top_status::Status;
use top_words::{Command, Invocation, WordsFault, read_words};

/// The command on an array that words are, or how they are refused; `Ok` where they ask for
/// something else.
pub(crate) fn command_of<'a>(alloc: Global, words: &'a [Name]) -> Result<Command<'a>, Status>
    ensures { IfOk result (λ c. AreNumbersInRange (action_seen c.action)) }
{
    match read_words(alloc, words) {
        Ok(Invocation::OnArray { command }) => Ok(command),
        Ok(_) => Err(Status::Ok),
        Err(WordsFault::Usage(case)) => Err(Status::Usage(case)),
        Err(WordsFault::Memory) => Err(Status::Memory),
    }
}
