//! What a command asks for, taken and made ready.
ghost use Rattle.std.specs.Prelude.{◌≡◌, ◌≤◌, ℕ, List, Ok, length, vec_len, IfOk, IfErr, OnErr};
ghost use Rattle.blk_disk.specs.Disk.{Rose};
ghost use Rattle.blk_disk.specs.Devices.{Changes, StaysIf};
ghost use Rattle.top_words.specs.Asked.{AreNumbersInRange};
ghost use Rattle.top_words.specs.Views.{action_seen, command_seen};
ghost use Rattle.top_bay.specs.Asked.{names_for};
ghost use Rattle.top_bay.specs.Lent.{AreOut};
ghost use Rattle.top_fetch.specs.Told.{Told};
ghost use Rattle.top_bay.specs.Views.{IsWithinLimits, asked_seen};
ghost use Rattle.top_duty.specs.Admitted.{IsAdmitted};
ghost use Rattle.top_duty.specs.Duty.{IsWanted, duty_in};
ghost use Rattle.top_duty.specs.Opening.{sizes_of};
ghost use Rattle.top_duty.specs.Steps.{reads_fronts};
ghost use Rattle.top_duty.specs.Taken.{DevicesAreTaken, Reads, RefusedFor, RefusedOver};
ghost use Rattle.top_duty.specs.Views.{IsDutyOver, IsFitFor, IsRefusal, duty_seen};

use crate::duty::Duty;
use crate::looking::{Seen, look};
use crate::preparing::prepare;
use blk_disk::Disk;
use raid_bay::Bay;
use std::alloc::Global;
use top_bay::{Asked, Taken, ask, put_all};
use top_open::Front;
use top_status::{Refusal, Status};
use top_words::Command;

/// What is asked for, the devices as they were looked at, and what is to be done.
pub struct Admitted<'a, D> {
    /// The command, and what the texts that it names say.
    pub asked: Asked<'a>,
    /// The devices: those of the columns' disks, and then the spares; None where a disk is absent.
    pub devices: Vec<Option<D>>,
    /// How many sectors each device has, 0 where there is none.
    pub sizes: Vec<u64>,
    /// Sector 0 of each device; away where the action doesn't ask for it.
    pub fronts: Vec<Front>,
    /// What is to be done.
    pub duty: Duty,
}

/// What was seen of devices, and what is to be done.
#[derive(Drop)]
struct Judged {
    sizes: Vec<u64>,
    fronts: Vec<Front>,
    duty: Duty,
}

// Looks at the devices, and makes ready what is asked for.
fn judge<D: Disk>(
    alloc: Global,
    asked: &Asked<'_>,
    devices: &mut [Option<D>],
) -> Result<Judged, Refusal>
    requires asked { IsWithinLimits (asked_seen asked.now) }
    requires many { length devices.old ≡ length (names_for (asked_seen asked.now)) }
    ensures read { IfOk result
        (λ j. Reads D.Disk (reads_fronts (action_seen asked.now.command.action)) devices.old
        devices.new j.fronts.items) }
    ensures sizes { IfOk result (λ j. j.sizes.items ≡ sizes_of D.size devices.new) }
    ensures duty { IfOk result (λ j.
        IsDutyOver (asked_seen asked.now) (sizes_of D.size devices.new) j.fronts.items j.duty) }
    ensures fit { IfOk result (λ j. IsFitFor D.Disk (asked_seen asked.now) devices.new j.duty) }
    ensures refused { IfErr result
        (RefusedOver D.Disk (asked_seen asked.now) devices.old devices.new) }
    ensures kind { IfErr result (λ r. IsRefusal ⊥ r.status) }
    ensures stays { Changes D.Disk (λ _ _. ⊥) devices.old devices.new }
{
    let Seen { sizes, fronts } = match look(alloc, asked.command.action, devices) {
        Ok(seen) => seen,
        Err(_) => return Err(Refusal::only(alloc, Status::Memory)),
    };
    match prepare(alloc, asked, &sizes, &fronts) {
        Ok(duty) => Ok(Judged {
            sizes,
            fronts,
            duty,
        }),
        Err(refusal) => Err(refusal),
    }
}

/// What a command asks for, the devices that it goes by, which the bay has then lent, and what is
/// to be done.
///
/// Refused are, in this order, what [`top_bay::ask`] refuses; labels and sizes that [`top_open::open_array`] refuses;
/// an array that is lost by its columns, as the action makes them; a rebuild beside another column that is filling; a column
/// that there is nowhere to rebuild to, or none to go on with; the first join line whose graphs can't be joined; and a trace
/// that would pass its bound. What is only shown or printed isn't judged for the last five. Where it is refused, the bay has
/// all devices again, of which nothing but sector 0 was read, once.
pub fn admit<'a, B: Bay>(
    alloc: Global,
    command: Command<'a>,
    bay: &mut B,
) -> Result<Admitted<'a, B::D>, Refusal>
    requires { AreNumbersInRange (action_seen command.action) }
    ensures command { IfOk result (λ a. a.asked.command ≡ command.entry) }
    ensures admitted { IfOk result (λ a. IsAdmitted B.D.Disk a) }
    ensures wanted { IfOk result (λ a. B.tells → IsWanted
        (duty_in B.D.size
        (record {
          tells = B.tells;
          rose = Rose (B.faults bay.old) (B.faults bay.new);
          texts = B.text_of bay.old;
          home = B.home bay.old;
          after = B.home bay.new;
        }) (command_seen command.entry) a.fronts.items)
        (Ok (duty_seen (asked_seen a.asked) a.duty))) }
    ensures taken { IfOk result (λ a. DevicesAreTaken B.D.Disk
        (record {
          tells = B.tells;
          rose = Rose (B.faults bay.old) (B.faults bay.new);
          texts = B.text_of bay.old;
          home = B.home bay.old;
          after = B.home bay.new;
        }) (asked_seen a.asked) a.devices.items a.fronts.items) }
    ensures out { IfOk result (λ a. (vec_len a.devices ≡ length (names_for (asked_seen a.asked)))
        × AreOut (B.is_out bay.new) (names_for (asked_seen a.asked)) a.devices.items) }
    ensures refused { IfErr result (λ r. B.tells → RefusedFor B.D.Disk
        (record {
          tells = B.tells;
          rose = Rose (B.faults bay.old) (B.faults bay.new);
          texts = B.text_of bay.old;
          home = B.home bay.old;
          after = B.home bay.new;
        }) (command_seen command.entry) r) }
    ensures kind { IfErr result
        (λ r. IsRefusal (Rose (B.faults bay.old) (B.faults bay.new)) r.status) }
    ensures same { OnErr result
        (B.tells → (n : List ℕ) → StaysIf B.D.Disk (λ _. ⊥) (B.home bay.old n) (B.home bay.new n)) }
    ensures later { B.faults bay.old ≤ B.faults bay.new }
{
    let Taken { asked, mut devices } = match ask(alloc, command, bay) {
        Ok(taken) => taken,
        Err(status) => return Err(Refusal::only(alloc, status)),
    };
    match judge(alloc, &asked, devices.as_mut_slice()) {
        Ok(
            Judged {
                sizes,
                fronts,
                duty,
            },
        ) => Ok(Admitted {
            asked,
            devices,
            sizes,
            fronts,
            duty,
        }),
        Err(refusal) => {
            put_all(bay, &asked.conf, asked.command.action, devices);
            Err(refusal)
        }
    }
}
