//! Rounds, one behind the other.
ghost use Rattle.std.specs.Prelude.{◌≡◌, ◌<◌, ◌+◌, ◌^◌, true, false, None};
ghost use Rattle.eng_cols.specs.Cols.{IsFor};
ghost use Rattle.eng_cols.specs.Lost.{NotLost};
ghost use Rattle.eng_cols.specs.Stripes.{states_of};
ghost use Rattle.top_close.specs.Ended.{IsLossBy};
ghost use Rattle.top_rounds.specs.Labels.{IsLabelFor, seating_in, with_round};
ghost use Rattle.top_rounds.specs.Passes.{CanBeLabelled};
ghost use Rattle.top_rounds.specs.Rounds.{AreRounds, HaveRounds, HaveTried, clean_in_end};
ghost use Rattle.eng_cols.specs.Settable.{IsSettable};

use crate::pass::{last_round, try_round};
use blk_disk::Disk;
use eng_cols::{Cols, Column, Loss};
use lay_core::Layout;
use raid_label::Label;
use top_close::{Hand, deaths_bring_no_unit_back, loss_of};

fn is_lost<L: Layout>(layout: &L, columns: &[Column], judge: &mut Cols) -> bool
    requires columns { IsSettable (L.shape layout.now) columns.now }
    requires judge { IsFor (L.shape layout.now) judge.old }
    ensures lost { result ≡ true → NotLost (L.shape layout.now)
        (states_of (L.shape layout.now) columns.now) → ⊥ }
    ensures kept { result ≡ false → NotLost (L.shape layout.now)
        (states_of (L.shape layout.now) columns.now) }
    ensures judge { IsFor (L.shape layout.now) judge.new }
{
    match loss_of(layout, columns, judge) {
        Some(_) => true,
        None => false,
    }
}

// Tries rounds while the array isn't lost, until none of the writes of one fails. Says whether it
// came to that.
fn try_rounds<L: Layout, D: Disk>(
    layout: &L,
    devices: &mut [Option<D>],
    columns: &mut [Column],
    label: &mut Label,
    judge: &mut Cols,
) -> bool
    requires array { CanBeLabelled D.Disk columns.old devices.old }
    requires held { IsLabelFor columns.old label.old }
    requires counter { label.old.counter + 33 < 2 ^ 32 }
    requires columns { IsSettable (L.shape layout.now) columns.old }
    requires judge { IsFor (L.shape layout.now) judge.old }
    ensures label { label.new
        ≡ with_round label.old label.new.counter label.old.clean (seating_in label.new) }
    ensures held { IsLabelFor columns.new label.new }
    ensures whole { result ≡ true → AreRounds D.Disk None label.old label.new
        columns.old columns.new columns.new devices.old devices.new }
    ensures kept { result ≡ true → NotLost (L.shape layout.now)
        (states_of (L.shape layout.now) columns.new) }
    ensures tried { result ≡ false → HaveTried D.Disk label.old label.new
        columns.old columns.new devices.old devices.new }
    ensures lost { result ≡ false → NotLost (L.shape layout.now)
        (states_of (L.shape layout.now) columns.new) → ⊥ }
    ensures judge { IsFor (L.shape layout.now) judge.new }
{
    deaths_bring_no_unit_back();
    while !is_lost(layout, columns, judge) {
        if try_round(devices, columns, label) {
            return true;
        }
    }
    false
}

// The rounds of an array that a run didn't lose, and by what it is lost in the end.
fn rounds_of_kept<L: Layout, D: Disk>(
    layout: &L,
    devices: &mut [Option<D>],
    columns: &mut [Column],
    label: &mut Label,
    judge: &mut Cols,
) -> Option<Loss>
    requires array { CanBeLabelled D.Disk columns.old devices.old }
    requires held { IsLabelFor columns.old label.old }
    requires counter { label.old.counter + 33 < 2 ^ 32 }
    requires columns { IsSettable (L.shape layout.now) columns.old }
    requires judge { IsFor (L.shape layout.now) judge.old }
    ensures label { label.new
        ≡ with_round label.old label.new.counter (clean_in_end result label.old.clean)
        (seating_in label.new) }
    ensures held { IsLabelFor columns.new label.new }
    ensures rounds { HaveRounds D.Disk result label.old label.new
        columns.old columns.new devices.old devices.new }
    ensures lost { IsLossBy (L.shape layout.now) None
        (states_of (L.shape layout.now) columns.new) result }
    ensures judge { IsFor (L.shape layout.now) judge.new }
{
    deaths_bring_no_unit_back();
    if try_rounds(layout, devices, columns, label, judge) {
        return None;
    }
    last_round(devices, columns, label);
    loss_of(layout, columns, judge)
}

/// Writes the labels of an array in rounds: a round is tried until none of its writes fails. Where
/// the array is lost, by what it was lost before or by its columns, a column that was filling is dead,
/// and one last round is written in place of a further one, which isn't clean and whose failed writes
/// are passed over.
///
/// `label` is the label that was written last, or that the newest device had, with the clean field
/// that the rounds are to have; then it is the label of the last round, whose column has no part.
/// Each round raises its counter by 1, and but for the first, and the last one of a lost array, each
/// comes of another device whose write failed.
///
/// An array that is lost as it is opened is to be left as it is: this isn't called for it.
///
/// An array is lost in the end by what it was lost before, or else by the columns that it then has.
/// No memory is taken.
pub fn round<L: Layout, D: Disk>(
    layout: &L,
    devices: &mut [Option<D>],
    hand: &mut Hand,
    label: &mut Label,
)
    requires array { CanBeLabelled D.Disk hand.old.ending.columns.items devices.old }
    requires held { IsLabelFor hand.old.ending.columns.items label.old }
    requires counter { label.old.counter + 33 < 2 ^ 32 }
    requires columns { IsSettable (L.shape layout.now) hand.old.ending.columns.items }
    requires judge { IsFor (L.shape layout.now) hand.old.judge }
    ensures label { label.new ≡ with_round label.old label.new.counter
        (clean_in_end hand.new.ending.lost label.old.clean) (seating_in label.new) }
    ensures held { IsLabelFor hand.new.ending.columns.items label.new }
    ensures rounds { HaveRounds D.Disk hand.new.ending.lost label.old label.new
        hand.old.ending.columns.items hand.new.ending.columns.items devices.old devices.new }
    ensures lost { IsLossBy (L.shape layout.now) hand.old.ending.lost
        (states_of (L.shape layout.now) hand.new.ending.columns.items) hand.new.ending.lost }
    ensures judge { IsFor (L.shape layout.now) hand.new.judge }
{
    let columns = hand.ending.columns.as_mut_slice();
    if hand.ending.lost.is_some() {
        last_round(devices, columns, label);
    } else {
        hand.ending.lost = rounds_of_kept(layout, devices, columns, label, &mut hand.judge);
    }
}
