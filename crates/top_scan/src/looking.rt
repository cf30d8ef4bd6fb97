//! The devices of a list, one after another.
ghost use Rattle.std.specs.Prelude.{◌≡◌, ◌≢◌, ◌≤◌, ℕ, List, length, IfOk, IfErr, OnErr, IsErrOf};
ghost use Rattle.blk_disk.specs.Devices.{StaysIf};
ghost use Rattle.blk_disk.specs.Disk.{Rose};
ghost use Rattle.top_fetch.specs.Answers.{IsEarly, AnswersAs};
ghost use Rattle.top_fetch.specs.Fetched.{there_are, there_is};
ghost use Rattle.top_scan.specs.List.{AreApart};
ghost use Rattle.top_scan.specs.Looks.{AreLookedAt, IsLookedAt, SomeAreLookedAt};

use crate::named::name_at;
use raid_bay::{Bay, Name};
use std::alloc::Global;
use top_fetch::look_device;
use top_open::{Front, read_first};
use top_status::Status;

// The device is put back before anything else is asked of the bay.
fn look_at<B: Bay>(alloc: Global, bay: &mut B, name: &str) -> Result<Front, Status>
    ensures answer { B.tells → AnswersAs (λ _. tt) result (there_is (B.home bay.old) name.now) }
    ensures looked { IfOk result (IsLookedAt B.D.Disk B.tells
        (B.home bay.old) (B.home bay.new) name.now) }
    ensures homes { B.tells → (n : List ℕ) → n ≢ name.now → B.home bay.new n ≡ B.home bay.old n }
    ensures same { OnErr result (B.tells → (n : List ℕ) → B.home bay.new n ≡ B.home bay.old n) }
    ensures kind { IfErr result IsEarly }
    ensures later { B.faults bay.old ≤ B.faults bay.new }
    ensures cause { IsErrOf result Status.BayFault → Rose (B.faults bay.old) (B.faults bay.new) }
{
    let mut device = match look_device(alloc, bay, name) {
        Ok(device) => device,
        Err(status) => return Err(status),
    };
    let front = read_first(&mut device);
    bay.put(name, device);
    Ok(front)
}

/// Sector 0 of the device of each name. A device is put back before the next one is taken, so that no more than one is
/// held at a time.
///
/// The first device that isn't lent is the refusal; those before it were looked at. No sector changes.
pub(crate) fn look_at_all<B: Bay>(
    alloc: Global,
    bay: &mut B,
    names: &[Name],
) -> Result<Vec<Front>, Status>
    requires { AreApart names.now }
    ensures answer { B.tells → AnswersAs (λ _. tt) result (there_are (B.home bay.old) names.now) }
    ensures looked { IfOk result (λ fronts. AreLookedAt B.D.Disk B.tells
        (B.home bay.old) (B.home bay.new) names.now fronts.items) }
    ensures count { IfOk result (λ fronts. length fronts.items ≡ length names.now) }
    ensures part { OnErr result (SomeAreLookedAt B.D.Disk B.tells
        (B.home bay.old) (B.home bay.new) names.now) }
    ensures stays { B.tells → (n : List ℕ) →
        StaysIf B.D.Disk (λ _. ⊥) (B.home bay.old n) (B.home bay.new n) }
    ensures kind { IfErr result IsEarly }
    ensures later { B.faults bay.old ≤ B.faults bay.new }
    ensures cause { IsErrOf result Status.BayFault → Rose (B.faults bay.old) (B.faults bay.new) }
{
    let mut fronts = Vec::new(alloc);
    for place in 0..names.len() {
        match look_at(alloc, bay, name_at(names, place)) {
            Ok(front) => match fronts.push(front) {
                Ok(()) => {}
                Err(_) => return Err(Status::Memory),
            },
            Err(status) => return Err(status),
        }
    }
    Ok(fronts)
}
