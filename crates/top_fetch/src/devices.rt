//! The devices of a bay, one at a time.
ghost use Rattle.std.specs.Prelude.{◌≡◌, ◌≢◌, ◌≤◌, ℕ, List, None, IfErr, OnOk, OnErr, IsErrOf};
ghost use Rattle.blk_disk.specs.Disk.{Rose};
ghost use Rattle.top_fetch.specs.Answers.{IsEarly, AnswersAs};
ghost use Rattle.top_fetch.specs.Fetched.{device_named};

use crate::texts::no_file;
use raid_bay::{Bay, TakeFault};
use std::alloc::Global;
use top_status::Status;

/// Takes the device of a name, or answers why that isn't lent: `NoFile` where none of the name is
/// at home, `BayFault` only
/// where the bay's count of faults rose, `Memory`. The bay then has all that it had.
pub fn take_device<B: Bay>(alloc: Global, bay: &mut B, name: &str) -> Result<B::D, Status>
    ensures answer { B.tells →
        AnswersAs (λ device. device) result (device_named (B.home bay.old) name.now) }
    ensures gone { OnOk result (B.tells → B.home bay.new name.now ≡ None) }
    ensures is_out { OnOk result (B.is_out bay.new name.now) }
    ensures homes { B.tells → (n : List ℕ) → n ≢ name.now → B.home bay.new n ≡ B.home bay.old n }
    ensures same { OnErr result (B.tells → (n : List ℕ) → B.home bay.new n ≡ B.home bay.old n) }
    ensures kind { IfErr result IsEarly }
    ensures out { (n : List ℕ) → B.is_out bay.old n → B.is_out bay.new n }
    ensures later { B.faults bay.old ≤ B.faults bay.new }
    ensures cause { IsErrOf result Status.BayFault → Rose (B.faults bay.old) (B.faults bay.new) }
{
    match bay.take(alloc, name) {
        Ok(device) => Ok(device),
        Err(TakeFault::Missing) => Err(no_file(alloc, name)),
        Err(TakeFault::Fault) => Err(Status::BayFault),
        Err(TakeFault::Memory) => Err(Status::Memory),
    }
}

/// The same of a device that is only looked at: no write is asked of it, and it may be one that
/// can't be written.
pub fn look_device<B: Bay>(alloc: Global, bay: &mut B, name: &str) -> Result<B::D, Status>
    ensures answer { B.tells →
        AnswersAs (λ device. device) result (device_named (B.home bay.old) name.now) }
    ensures gone { OnOk result (B.tells → B.home bay.new name.now ≡ None) }
    ensures is_out { OnOk result (B.is_out bay.new name.now) }
    ensures homes { B.tells → (n : List ℕ) → n ≢ name.now → B.home bay.new n ≡ B.home bay.old n }
    ensures same { OnErr result (B.tells → (n : List ℕ) → B.home bay.new n ≡ B.home bay.old n) }
    ensures kind { IfErr result IsEarly }
    ensures out { (n : List ℕ) → B.is_out bay.old n → B.is_out bay.new n }
    ensures later { B.faults bay.old ≤ B.faults bay.new }
    ensures cause { IsErrOf result Status.BayFault → Rose (B.faults bay.old) (B.faults bay.new) }
{
    match bay.look(alloc, name) {
        Ok(device) => Ok(device),
        Err(TakeFault::Missing) => Err(no_file(alloc, name)),
        Err(TakeFault::Fault) => Err(Status::BayFault),
        Err(TakeFault::Memory) => Err(Status::Memory),
    }
}
