//! The texts of a bay.
ghost use Rattle.std.specs.Prelude.{◌≤◌, ◌<◌, length, IfOk, IfErr, IsErrOf};
ghost use Rattle.blk_disk.specs.Disk.{Rose};
ghost use Rattle.top_status.specs.Refusals.{text_in};
ghost use Rattle.top_fetch.specs.Answers.{IsEarly, IsOrMemory, AnswersAs};
ghost use Rattle.top_fetch.specs.Told.{IsRead};

use raid_bay::{Bay, Name, TextFault};
use std::alloc::Global;
use top_status::Status;

/// The most bytes that a text may have.
const LIMIT: usize = 16_777_216;

/// The bay has nothing of that name; `Memory` where the name can't be copied.
pub(crate) fn no_file(alloc: Global, name: &str) -> Status
    ensures { IsOrMemory (Status.NoFile name.now) result }
{
    match Name::new(alloc, name) {
        Ok(name) => Status::NoFile(name),
        Err(_) => Status::Memory,
    }
}

// The text of that name is too long; `Memory` where the name can't be copied.
fn long_text(alloc: Global, name: &str) -> Status
    ensures { IsOrMemory (Status.LongText name.now) result }
{
    match Name::new(alloc, name) {
        Ok(name) => Status::LongText(name),
        Err(_) => Status::Memory,
    }
}

/// The text of a name, or why there is none.
#[tactic(auto, unfolding(top_status::specs::Refusals::text_in))]
pub fn open_text<B: Bay>(alloc: Global, name: &str, bay: &mut B) -> Result<Vec<u8>, Status>
    ensures answer { B.tells →
        AnswersAs (λ v. v.items) result (text_in (B.text_of bay.old) name.now) }
    ensures short { IfOk result (λ v. length v.items ≤ 16777216) }
    ensures kind { IfErr result IsEarly }
    ensures cause { IsErrOf result Status.BayFault → Rose (B.faults bay.old) (B.faults bay.new) }
    ensures read { IsRead B.tells (B.text_of bay.old) (B.text_of bay.new)
        (B.home bay.old) (B.home bay.new) (B.faults bay.old) (B.faults bay.new) }
{
    match bay.text(alloc, name, LIMIT) {
        Ok(text) => Ok(text),
        Err(TextFault::Missing) => Err(no_file(alloc, name)),
        Err(TextFault::TooLong) => Err(long_text(alloc, name)),
        Err(TextFault::Fault) => Err(Status::BayFault),
        Err(TextFault::Memory) => Err(Status::Memory),
    }
}
