//! What follows from how a call answers. These functions do nothing: what they ensure is so of every
//! call of [`crate::run`], by its clause `answer`, or of all devices.
ghost use Rattle.std.specs.Prelude.{◌≡◌, ℕ, List, Option, Ok};
ghost use Rattle.blk_disk.specs.Disk.{Rose};
ghost use Rattle.top_bay.specs.Asked.{Asked};
ghost use Rattle.top_duty.specs.Opening.{opened_by};
ghost use Rattle.top_open.specs.declared.fronts.Front.{Front};
ghost use Rattle.top_open.specs.Opening.{Opened};
ghost use Rattle.top_status.specs.declared.status.Status.{Status};
ghost use Rattle.raid_top.specs.Laws.{DeadAsOpened, DeathsAreCaused, DrawnComeInTurn, FailsLateIsRead, RebuiltIsWorth, RefusedChangesNothing, RefusedLossLacksUnits, RightIsAnswered};
ghost use Rattle.raid_top.specs.Opened.{DeadHaveCauses};
ghost use Rattle.raid_top.specs.Bays.{told_of};

use blk_disk::Disk;
use raid_bay::{Bay, Sink};

/// What is refused changes nothing: behind a call with exit number 1 to 6, 9, 10, 12 to 15 or 70, or
/// with 7 in its place, each component is back, and every sector of it is as it was.
pub fn what_is_refused_changes_nothing<B: Bay, K: Sink>()
    ensures { (old new : B) (out_old out_new : K) (words : List (List ℕ)) (answer : Status)
        → RefusedChangesNothing B.D.Disk (told_of B.Bay old new)
        words K.tells (Rose (K.faults out_old) (K.faults out_new))
        answer (K.output out_old) (K.output out_new) }
{}

/// What is right is answered: where words, texts, names, sizes and columns are right and the counts
/// of bay and sink don't rise, the status is that of the action, each item of its clients has the
/// reply that it ought to have, and the output is the action's text. In place of all that memory may
/// be wanted.
pub fn what_is_right_is_answered<B: Bay, K: Sink>()
    ensures { (old new : B) (out_old out_new : K) (words : List (List ℕ)) (answer : Status)
        → RightIsAnswered B.D.Disk (told_of B.Bay old new)
        words K.tells (Rose (K.faults out_old) (K.faults out_new))
        answer (K.output out_old) (K.output out_new) }
{}

/// A device that fails late was read: one that tells its calls, the first of which went well, isn't
/// unread by what may have been read, though its count of faults rose later in the call.
pub fn a_device_that_fails_late_was_read<D: Disk>()
    ensures { (taken back : List (Option D)) (fronts : List Front)
        → FailsLateIsRead D.Disk taken back fronts }
{}

/// Each column that is dead as an array is opened is so for a cause that was read: its disk is
/// absent or couldn't be read; by the newest label it has no device, or one without a label of its
/// own that is as new; it was being filled and the label isn't clean, or as many of its stripes are
/// done as it has; or the action names it and its device is too small. So it is with the array of
/// each action that was done.
pub fn a_column_dead_as_opened_has_a_cause<B: Bay>()
    ensures opened { (k : Asked) (sizes : List ℕ) (fronts : List Front) (o : Opened)
        → opened_by k sizes fronts ≡ Ok o → DeadHaveCauses k sizes fronts o }
    ensures acted { (old new : B) → DeadAsOpened B.D.Disk (told_of B.Bay old new) }
{}

/// Whatever was done to an array, each column that is dead in the end was so by its opening, or has its
/// cause: it was asked for; its component's count of faults rose; or it was filling, and the array is
/// lost. Of a lost array no column is filling any more; and both columns of a loss are dead, or spread
/// where that of the stripe's spare place is dead.
pub fn what_dies_has_a_cause<B: Bay>()
    ensures { (old new : B) → DeathsAreCaused B.D.Disk (told_of B.Bay old new) }
{}

/// A load that is drawn comes client after client: unless the array is lost, its clients leave, and are
/// replied, what they would one after another, and that is what sums it up.
pub fn what_is_drawn_comes_in_turn<B: Bay>()
    ensures { (old new : B) → DrawnComeInTurn B.D.Disk (told_of B.Bay old new) }
{}

/// Where a rebuild is done each of the column's stripes was rebuilt. Then, where all other units are
/// available, every unit is; so in an array with a check unit the failure of any one more column loses
/// nothing.
pub fn what_is_rebuilt_is_worth_it<B: Bay>()
    ensures { (old new : B) → RebuiltIsWorth B.D.Disk (told_of B.Bay old new) }
{}

/// Where an action is refused since its array is lost, the stripe that the status names lacks a unit
/// on both columns that it names, by the columns as the action makes them.
pub fn a_refused_loss_lacks_two_units<B: Bay, K: Sink>()
    ensures { (old new : B) (out_old out_new : K) (words : List (List ℕ)) (answer : Status)
        → RefusedLossLacksUnits B.D.Disk (told_of B.Bay old new)
        words K.tells (Rose (K.faults out_old) (K.faults out_new))
        answer (K.output out_old) (K.output out_new) }
{}
