//! The end of what was done to a labelled array, lost or not.
ghost use Rattle.std.specs.Prelude.{◌≡◌, ◌<◌, ◌+◌, ◌^◌, true, false, Some, None, is_some};
ghost use Rattle.eng_cols.specs.Cols.{IsFor};
ghost use Rattle.eng_cols.specs.Settable.{IsSettable};
ghost use Rattle.top_acts.specs.Closed.{ClosesLabelled, ClosesSettled};
ghost use Rattle.eng_cols.specs.Stripes.{states_of};
ghost use Rattle.eng_cols.specs.declared.spot.Loss.{Loss};
ghost use Rattle.top_acts.specs.Failed.{IsLeftLost};
ghost use Rattle.top_close.specs.Ended.{IsLossBy};
ghost use Rattle.top_rounds.specs.Labels.{IsLabelFor, seating_in, with_round};
ghost use Rattle.top_rounds.specs.Passes.{CanBeLabelled};
ghost use Rattle.top_rounds.specs.Rounds.{HaveRounds};

use crate::closing::close;
use blk_disk::Disk;
use lay_core::Layout;
use raid_label::Label;
use top_close::{Hand, deaths_bring_no_unit_back, settle};
use top_rounds::round;

/// The one round of an array that is lost by its columns: it isn't clean, and failed writes are
/// passed over. Then the array is lost by the columns in the end.
pub(crate) fn write_lost<L: Layout, D: Disk>(
    layout: &L,
    devices: &mut [Option<D>],
    hand: &mut Hand,
    label: &mut Label,
)
    requires array { CanBeLabelled D.Disk hand.old.ending.columns.items devices.old }
    requires columns { IsSettable (L.shape layout.now) hand.old.ending.columns.items }
    requires held { IsLabelFor hand.old.ending.columns.items label.old }
    requires counter { label.old.counter + 33 < 2 ^ 32 }
    requires lost { is_some hand.old.ending.lost ≡ true }
    requires by { IsLossBy (L.shape layout.now) None
        (states_of (L.shape layout.now) hand.old.ending.columns.items) hand.old.ending.lost }
    requires judge { IsFor (L.shape layout.now) hand.old.judge }
    ensures label { label.new ≡ with_round label.old label.new.counter 0 (seating_in label.new) }
    ensures held { IsLabelFor hand.new.ending.columns.items label.new }
    ensures rounds { HaveRounds D.Disk hand.new.ending.lost label.old label.new
        hand.old.ending.columns.items hand.new.ending.columns.items devices.old devices.new }
    ensures lost { is_some hand.new.ending.lost ≡ true }
    ensures by { IsLossBy (L.shape layout.now) None
        (states_of (L.shape layout.now) hand.new.ending.columns.items) hand.new.ending.lost }
    ensures judge { IsFor (L.shape layout.now) hand.new.judge }
{
    deaths_bring_no_unit_back();
    hand.ending.lost = None;
    round(layout, devices, hand, label);
}

// Settles each device in use, and then closes the array, or, where that lost it, writes its one
// round.
fn settle_and_end<L: Layout, D: Disk>(
    layout: &L,
    devices: &mut [Option<D>],
    hand: &mut Hand,
    label: &mut Label,
)
    requires array { CanBeLabelled D.Disk hand.old.ending.columns.items devices.old }
    requires columns { IsSettable (L.shape layout.now) hand.old.ending.columns.items }
    requires held { IsLabelFor hand.old.ending.columns.items label.old }
    requires counter { label.old.counter + 65 < 2 ^ 32 }
    requires judge { IsFor (L.shape layout.now) hand.old.judge }
    ensures closed { ClosesLabelled D.Disk false label.old label.new hand.old.ending.columns.items
        hand.new.ending.columns.items devices.old devices.new hand.new.ending.lost }
    ensures first { ClosesSettled D.Disk label.old label.new hand.old.ending.columns.items
        hand.new.ending.columns.items devices.old devices.new hand.new.ending.lost }
    ensures held { IsLabelFor hand.new.ending.columns.items label.new }
    ensures lost { IsLossBy (L.shape layout.now) None
        (states_of (L.shape layout.now) hand.new.ending.columns.items) hand.new.ending.lost }
    ensures judge { IsFor (L.shape layout.now) hand.new.judge }
{
    deaths_bring_no_unit_back();
    hand.ending.lost = None;
    settle(layout, devices, hand);
    if hand.ending.lost.is_some() {
        write_lost(layout, devices, hand, label);
    } else {
        close(layout, devices, hand, label);
    }
}

/// Ends what was done to a labelled array whose opening round has been written. Each device in use
/// is settled, and then the array is closed, as [`close`] does it. Where the array is lost, before
/// this or as it is settled, one round is written in place of that, which isn't clean and whose
/// failed writes are passed over, and nothing is settled behind it; of one that was lost before nothing
/// else is called.
///
/// `label` is the label that was written last, with the clean field that the closing round is to
/// have. An array that was lost before stays lost by what it was lost; else it is lost, if it is,
/// by the columns in the end. No memory is taken.
pub fn end_labelled<L: Layout, D: Disk>(
    layout: &L,
    devices: &mut [Option<D>],
    hand: &mut Hand,
    label: &mut Label,
)
    requires array { CanBeLabelled D.Disk hand.old.ending.columns.items devices.old }
    requires columns { IsSettable (L.shape layout.now) hand.old.ending.columns.items }
    requires held { IsLabelFor hand.old.ending.columns.items label.old }
    requires counter { label.old.counter + 65 < 2 ^ 32 }
    requires judge { IsFor (L.shape layout.now) hand.old.judge }
    ensures closed { ClosesLabelled D.Disk false label.old label.new hand.old.ending.columns.items
        hand.new.ending.columns.items devices.old devices.new hand.new.ending.lost }
    ensures first { hand.old.ending.lost ≡ None →
        ClosesSettled D.Disk label.old label.new hand.old.ending.columns.items
        hand.new.ending.columns.items devices.old devices.new hand.new.ending.lost }
    ensures left { (loss : Loss) → hand.old.ending.lost ≡ Some loss
        → IsLeftLost D.Disk loss label.old label.new hand.old.ending.columns.items
        hand.new.ending.columns.items devices.old devices.new }
    ensures held { IsLabelFor hand.new.ending.columns.items label.new }
    ensures lost { IsLossBy (L.shape layout.now) hand.old.ending.lost
        (states_of (L.shape layout.now) hand.new.ending.columns.items) hand.new.ending.lost }
    ensures judge { IsFor (L.shape layout.now) hand.new.judge }
{
    if hand.ending.lost.is_some() {
        round(layout, devices, hand, label);
    } else {
        settle_and_end(layout, devices, hand, label);
    }
}
