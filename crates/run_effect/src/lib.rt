//! What a run comes to, in the words of what is asked, of what is told and of what devices hold: no event, no graph, no label.
//!
//! There is no code here. The one law says that a run of worlds comes to this.
#![tactic(auto)]

ghost use Rattle.std.specs.Prelude.{List, Option};
ghost use Rattle.run_effect.specs.Effect.{Request, Answer, TakesEffect};
ghost use Rattle.run_effect.specs.Printed.{PrintedScriptIsRead};
ghost use Rattle.run_effect.specs.Run.{RanSo};

use blk_disk::Disk;

/// Each operation takes its whole effect once, at one place of one history that keeps each client's order, or none; each
/// read tells what the plain list of blocks holds at its place; and what devices hold in the end encodes the list after it.
pub fn what_is_told_took_effect<D: Disk>()
    ensures { (a : Request) (taken back : List (Option D)) (s : Answer)
        → RanSo D.Disk a taken back s → TakesEffect D.Disk a taken back s }
{}

/// A script of items that name no graph is read from its printed text.
pub fn a_printed_script_is_read()
    ensures { PrintedScriptIsRead }
{}
