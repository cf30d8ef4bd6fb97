//! What a scan finds.
ghost use Rattle.std.specs.Prelude.{◌≡◌, ◌≤◌, ℕ, List, length, map, IfOk, IfErr, IsErrOf, OnErr};
ghost use Rattle.blk_disk.specs.Devices.{StaysIf};
ghost use Rattle.blk_disk.specs.Disk.{Rose};
ghost use Rattle.raid_assemble.specs.Sets.{IsGrouping};
ghost use Rattle.top_fetch.specs.Answers.{IsEarly, AnswersAs};
ghost use Rattle.top_fetch.specs.Told.{IsRead};
ghost use Rattle.top_scan.specs.List.{AreApart};
ghost use Rattle.top_scan.specs.Looks.{AreLookedAt};
ghost use Rattle.top_scan.specs.Scanned.{IsComplete, IsScannedInPart, list_in, names_in};
ghost use Rattle.top_open.specs.Labels.{label_of};

use crate::list::{ListFault, read_list};
use crate::looking::look_at_all;
use raid_assemble::{Sets, group};
use raid_bay::{Bay, Name};
use raid_label::{Label, read_label};
use std::alloc::Global;
use top_fetch::open_text;
use top_open::Front;
use top_status::Status;

/// The components of a list, what sector 0 of each holds, and which arrays they make up.
#[derive(Drop)]
pub struct Scanned {
    /// The names of the list, in its order.
    pub names: Vec<Name>,
    /// Sector 0 of the component of each name.
    pub fronts: Vec<Front>,
    /// The arrays, and what each component is in its own.
    pub sets: Sets,
}

// The names of the list of that name.
#[tactic(auto, unfolding(crate::specs::Scanned::list_in, crate::specs::Steps::list_of))]
fn open_list<B: Bay>(alloc: Global, list: &str, bay: &mut B) -> Result<Vec<Name>, Status>
    ensures answer { B.tells → AnswersAs (λ names. names.items) result
        (list_in (B.text_of bay.old) list.now) }
    ensures few { IfOk result (λ names. length names.items ≤ 1024) }
    ensures apart { IfOk result (λ names. AreApart names.items) }
    ensures kind { IfErr result IsEarly }
    ensures cause { IsErrOf result Status.BayFault → Rose (B.faults bay.old) (B.faults bay.new) }
    ensures read { IsRead B.tells (B.text_of bay.old) (B.text_of bay.new)
        (B.home bay.old) (B.home bay.new) (B.faults bay.old) (B.faults bay.new) }
{
    let text = match open_text(alloc, list, bay) {
        Ok(text) => text,
        Err(status) => return Err(status),
    };
    match read_list(alloc, &text) {
        Ok(names) => Ok(names),
        Err(ListFault::At { line, code }) => Err(Status::Conf(line, code)),
        Err(ListFault::Memory) => Err(Status::Memory),
    }
}

// The label that a component has.
fn label_of(front: &Front) -> Option<Label>
    ensures { result ≡ label_of front.now }
{
    match front {
        Front::Held(bytes) => read_label(bytes),
        Front::Away | Front::Unread => None,
    }
}

// The labels of the components, and which arrays they make up.
fn group_fronts(alloc: Global, fronts: &[Front]) -> Result<Sets, Status>
    requires { length fronts.now ≤ 1024 }
    ensures sets { IfOk result (λ s. IsGrouping (map label_of fronts.now) s.sets s.places) }
    ensures memory { IfErr result (λ status. status ≡ Status.Memory) }
{
    let mut labels = match Vec::with_capacity(alloc, fronts.len()) {
        Ok(labels) => labels,
        Err(_) => return Err(Status::Memory),
    };
    for place in 0..fronts.len() {
        labels.push_reserved(label_of(&fronts[place]));
    }
    match group(alloc, &labels) {
        Ok(sets) => Ok(sets),
        Err(_) => Err(Status::Memory),
    }
}

/// Reads the list of that name, and sector 0 of each of its components, and tells which arrays they make up.
///
/// Refused are, in this order: the list, where there is no text of its name, or it is longer than 16,777,216 bytes, or
/// not in its form (`Conf`); and the first component that isn't there. `BayFault` comes only where the bay's count of
/// faults rose, and want of memory at any point. Each device is put back, and no sector changes; where the scan is
/// refused, sector 0 of some first ones was read, once each, and no other was called.
#[tactic(auto, unfolding(crate::specs::Scanned::names_in))]
pub fn scan<B: Bay>(alloc: Global, list: &str, bay: &mut B) -> Result<Scanned, Status>
    ensures answer { B.tells → AnswersAs (λ s. s.names.items) result
        (names_in (B.text_of bay.old) (B.home bay.old) list.now) }
    ensures looked { IfOk result (λ s. AreLookedAt B.D.Disk B.tells
        (B.home bay.old) (B.home bay.new) s.names.items s.fronts.items) }
    ensures complete { IfOk result (λ s. IsComplete s.names.items s.fronts.items
        s.sets.sets s.sets.places) }
    ensures part { OnErr result (B.tells → IsScannedInPart B.D.Disk B.tells
        (B.text_of bay.old) (B.home bay.old) (B.home bay.new) list.now) }
    ensures stays { B.tells → (n : List ℕ) →
        StaysIf B.D.Disk (λ _. ⊥) (B.home bay.old n) (B.home bay.new n) }
    ensures kind { IfErr result IsEarly }
    ensures later { B.faults bay.old ≤ B.faults bay.new }
    ensures cause { IsErrOf result Status.BayFault → Rose (B.faults bay.old) (B.faults bay.new) }
{
    let names = match open_list(alloc, list, bay) {
        Ok(names) => names,
        Err(status) => return Err(status),
    };
    let fronts = match look_at_all(alloc, bay, &names) {
        Ok(fronts) => fronts,
        Err(status) => return Err(status),
    };
    match group_fronts(alloc, &fronts) {
        Ok(sets) => Ok(Scanned {
            names,
            fronts,
            sets,
        }),
        Err(status) => Err(status),
    }
}
