//! What comes of a command.
ghost use Rattle.std.specs.Prelude.{◌≡◌, ◌≤◌, length, vec_len, IfOk, IfErr, OnErr};
ghost use Rattle.raid_conf.specs.Form.{IsConf};
ghost use Rattle.top_bay.specs.Asked.{names_for};
ghost use Rattle.top_bay.specs.Lent.{AreBack, AreOut};
ghost use Rattle.top_bay.specs.Views.{asked_seen};
ghost use Rattle.top_duty.specs.Admitted.{IsAdmitted};
ghost use Rattle.top_duty.specs.Views.{duty_seen};
ghost use Rattle.top_words.specs.Asked.{AreNumbersInRange};
ghost use Rattle.top_words.specs.Judged.{OnArray};
ghost use Rattle.top_words.specs.Views.{action_seen, command_seen};
ghost use Rattle.raid_top.specs.Acted.{Acted};
ghost use Rattle.raid_top.specs.Refused.{IsRefusedOf};
ghost use Rattle.raid_top.specs.Served.{IsPerformed, IsMemory};
ghost use Rattle.raid_top.specs.Views.{CanBePrinted, outcome_seen};
ghost use Rattle.raid_top.specs.Bays.{told_of};

use crate::came::Ended;
use crate::doubting::{Doubts, tell_doubt};
use crate::performing::{Performed, perform};
use crate::running::Served;
use blk_disk::StopDisk;
use raid_bay::Bay;
use raid_progress::Progress;
use std::alloc::Global;
use std::sync::Wait;
use std::thread::Threads;
use top_bay::put_all;
use top_duty::{Admitted, admit};
use top_status::Refusal;
use top_words::Command;

// Does what is due, and puts the devices back.
fn end<'a, B: Bay, R: Threads + Wait + Sync, P: Progress + Sync>(
    rt: &R,
    alloc: Global,
    admitted: Admitted<'a, B::D>,
    bay: &mut B,
    progress: &P,
) -> Result<Ended<'a>, Refusal>
where
    B::D: StopDisk + Send + Drop,
    requires admitted { IsAdmitted B.D.Disk admitted }
    requires fronts { length admitted.fronts.items ≡ length admitted.devices.items }
    requires many { length admitted.devices.items ≡ length (names_for (asked_seen admitted.asked)) }
    requires out { AreOut (B.is_out bay.old) (names_for (asked_seen admitted.asked))
        admitted.devices.items }
    ensures done { IfOk result (λ e. IsPerformed B.D.Disk B.tells (B.home bay.old) (B.home bay.new)
        (names_for (asked_seen admitted.entry.asked)) (duty_seen (asked_seen admitted.entry.asked)
        admitted.entry.duty) admitted.entry.fronts.items
        admitted.entry.devices.items (outcome_seen (action_seen e.action) e.conf e.came)) }
    ensures printed { IfOk result (λ e. CanBePrinted e.came) }
    ensures conf { IfOk result (λ e. IsConf e.conf) }
    ensures memory { IfErr result
        (IsMemory (duty_seen (asked_seen admitted.entry.asked) admitted.entry.duty)) }
    ensures same { OnErr result (B.tells → AreBack (B.home bay.old) (B.home bay.new)
        (names_for (asked_seen admitted.entry.asked)) admitted.entry.devices.items) }
    ensures faults { B.faults bay.new ≡ B.faults bay.old }
{
    let Performed {
        action,
        conf,
        served,
    } = perform(rt, alloc, admitted, progress);
    let Served { came, devices } = served;
    put_all(bay, &conf, action, devices);
    match came {
        Ok(came) => Ok(Ended { action, conf, came }),
        Err(refused) => Err(refused),
    }
}

/// Does what a command asks for, and puts the devices back. The doubt about the array, if there is one, is told first.
pub(crate) fn act<'a, B: Bay, R: Threads + Wait + Sync, P: Progress + Doubts + Sync>(
    rt: &R,
    alloc: Global,
    command: Command<'a>,
    bay: &mut B,
    progress: &P,
) -> Result<Ended<'a>, Refusal>
where
    B::D: StopDisk + Send + Drop,
    requires { AreNumbersInRange (action_seen command.action) }
    ensures acted { IfOk result (λ e. Acted B.D.Disk (told_of B.Bay bay.old bay.new)
        (command_seen command.entry) (outcome_seen (action_seen e.action) e.conf e.came)) }
    ensures printed { IfOk result (λ e. CanBePrinted e.came) }
    ensures conf { IfOk result (λ e. IsConf e.conf) }
    ensures refused { IfErr result (IsRefusedOf B.D.Disk (told_of B.Bay bay.old bay.new)
        (OnArray (command_seen command.entry))) }
    ensures later { B.faults bay.old ≤ B.faults bay.new }
{
    match admit(alloc, command, bay) {
        Ok(admitted) => {
            tell_doubt(&admitted.duty, progress);
            end(rt, alloc, admitted, bay, progress)
        }
        Err(refusal) => Err(refusal),
    }
}
