//! The end of an array whose maps are cleared behind its last labels.
ghost use Rattle.std.specs.Prelude.{◌≡◌, ◌<◌, ◌+◌, ◌^◌, Some, None, false, true, option_map};
ghost use Rattle.eng_cols.specs.Cols.{IsFor};
ghost use Rattle.eng_cols.specs.Settable.{IsSettable};
ghost use Rattle.eng_cols.specs.Stripes.{states_of};
ghost use Rattle.eng_cols.specs.declared.spot.Loss.{Loss};
ghost use Rattle.raid_map.specs.Marking.{CanBeMarked};
ghost use Rattle.top_acts.specs.Cleared.{EndsInSteps, EndsMapped, EndsMappedSettled, TriesToClear};
ghost use Rattle.top_acts.specs.Closed.{ClosesLabelled};
ghost use Rattle.top_acts.specs.Failed.{IsLeftLost};
ghost use Rattle.top_close.specs.Ended.{IsLossBy};
ghost use Rattle.top_rounds.specs.Labels.{IsLabelFor};
ghost use Rattle.top_rounds.specs.Passes.{CanBeLabelled};

use crate::closing::{close, count_devices};
use crate::ending::{end_labelled, write_lost};
use blk_disk::StopDisk;
use lay_core::Layout;
use raid_label::Label;
use raid_map::{Map, mark_all};
use top_close::{Hand, deaths_bring_no_unit_back, loss_of};

// The array is closed anew, since a device has failed as maps were cleared; or, where it is lost by
// that, its one round is written.
fn close_anew<L: Layout, D: StopDisk>(
    layout: &L,
    devices: &mut [Option<D>],
    hand: &mut Hand,
    label: &mut Label,
)
    requires array { CanBeLabelled D.Disk hand.old.ending.columns.items devices.old }
    requires columns { IsSettable (L.shape layout.now) hand.old.ending.columns.items }
    requires held { IsLabelFor hand.old.ending.columns.items label.old }
    requires counter { label.old.counter + 65 < 2 ^ 32 }
    requires judge { IsFor (L.shape layout.now) hand.old.judge }
    ensures closed { ClosesLabelled D.Disk true label.old label.new hand.old.ending.columns.items
        hand.new.ending.columns.items devices.old devices.new hand.new.ending.lost }
    ensures lost { IsLossBy (L.shape layout.now) None
        (states_of (L.shape layout.now) hand.new.ending.columns.items) hand.new.ending.lost }
    ensures held { IsLabelFor hand.new.ending.columns.items label.new }
    ensures judge { IsFor (L.shape layout.now) hand.new.judge }
{
    deaths_bring_no_unit_back();
    hand.ending.lost = loss_of(layout, &hand.ending.columns, &mut hand.judge);
    if hand.ending.lost.is_some() {
        write_lost(layout, devices, hand, label);
    } else {
        close(layout, devices, hand, label);
    }
}

// Writes a map without marks on each device in use, unless the array is lost. Says whether that is all:
// the array was lost before, or no device failed.
fn try_clear<L: Layout, D: StopDisk>(
    layout: &L,
    devices: &mut [Option<D>],
    hand: &mut Hand,
    label: &mut Label,
    blank: &Map,
) -> bool
    requires array { CanBeLabelled D.Disk hand.old.ending.columns.items devices.old }
    requires marks { CanBeMarked D.Disk hand.old.ending.columns.items devices.old }
    requires columns { IsSettable (L.shape layout.now) hand.old.ending.columns.items }
    requires held { IsLabelFor hand.old.ending.columns.items label.old }
    requires counter { label.old.counter + 65 < 2 ^ 32 }
    requires judge { IsFor (L.shape layout.now) hand.old.judge }
    ensures tried { TriesToClear D.Disk blank.now label.old label.new
        hand.old.ending.columns.items hand.new.ending.columns.items
        devices.old devices.new hand.old.ending.lost hand.new.ending.lost result }
    ensures lost { result ≡ false → IsLossBy (L.shape layout.now) None
        (states_of (L.shape layout.now) hand.new.ending.columns.items) hand.new.ending.lost }
    ensures held { IsLabelFor hand.new.ending.columns.items label.new }
    ensures judge { IsFor (L.shape layout.now) hand.new.judge }
{
    deaths_bring_no_unit_back();
    if hand.ending.lost.is_some() {
        return true;
    }
    let had = count_devices(&hand.ending.columns);
    mark_all(blank, devices, hand.ending.columns.as_mut_slice());
    if count_devices(&hand.ending.columns) == had {
        return true;
    }
    close_anew(layout, devices, hand, label);
    false
}

/// Ends what was done to a labelled array, as [`end_labelled`] does it, and then, unless it is lost,
/// writes this map without marks on each device in use, which is settled behind that. A device that
/// fails makes its column dead, and rounds of labels and settles begin anew, and maps are cleared
/// behind them again; where the array is lost by that, its one round is written. No map of a lost array
/// is cleared: of one that was lost before the one round is written, and nothing else is called.
///
/// All else is as in [`end_labelled`].
pub fn end_and_clear<L: Layout, D: StopDisk>(
    layout: &L,
    devices: &mut [Option<D>],
    hand: &mut Hand,
    label: &mut Label,
    blank: &Map,
)
    requires array { CanBeLabelled D.Disk hand.old.ending.columns.items devices.old }
    requires marks { CanBeMarked D.Disk hand.old.ending.columns.items devices.old }
    requires columns { IsSettable (L.shape layout.now) hand.old.ending.columns.items }
    requires held { IsLabelFor hand.old.ending.columns.items label.old }
    requires counter { label.old.counter + 98 < 2 ^ 32 }
    requires judge { IsFor (L.shape layout.now) hand.old.judge }
    ensures ends { EndsMapped D.Disk (Some blank.now) false label.old label.new
        hand.old.ending.columns.items hand.new.ending.columns.items
        devices.old devices.new hand.new.ending.lost }
    ensures first { hand.old.ending.lost ≡ None → EndsMappedSettled D.Disk (Some blank.now)
        label.old label.new hand.old.ending.columns.items hand.new.ending.columns.items
        devices.old devices.new hand.new.ending.lost }
    ensures left { (loss : Loss) → hand.old.ending.lost ≡ Some loss
        → IsLeftLost D.Disk loss label.old label.new hand.old.ending.columns.items
        hand.new.ending.columns.items devices.old devices.new }
    ensures steps { EndsInSteps D.Disk (Some blank.now) (L.shape layout.now)
        hand.old.ending.lost label.old label.new hand.old.ending.columns.items
        hand.new.ending.columns.items devices.old devices.new hand.new.ending.lost }
    ensures lost { IsLossBy (L.shape layout.now) hand.old.ending.lost
        (states_of (L.shape layout.now) hand.new.ending.columns.items) hand.new.ending.lost }
    ensures judge { IsFor (L.shape layout.now) hand.new.judge }
{
    deaths_bring_no_unit_back();
    end_labelled(layout, devices, hand, label);
    while !try_clear(layout, devices, hand, label, blank) {}
}

/// The same where maps are to be cleared, by this one; else they are left as they are.
pub fn end_mapped<L: Layout, D: StopDisk>(
    layout: &L,
    devices: &mut [Option<D>],
    hand: &mut Hand,
    label: &mut Label,
    clear: Option<&Map>,
)
    requires array { CanBeLabelled D.Disk hand.old.ending.columns.items devices.old }
    requires marks { CanBeMarked D.Disk hand.old.ending.columns.items devices.old }
    requires columns { IsSettable (L.shape layout.now) hand.old.ending.columns.items }
    requires held { IsLabelFor hand.old.ending.columns.items label.old }
    requires counter { label.old.counter + 98 < 2 ^ 32 }
    requires judge { IsFor (L.shape layout.now) hand.old.judge }
    ensures ends { EndsMapped D.Disk (option_map (λ m. m.now) clear.entry) false label.old label.new
        hand.old.ending.columns.items hand.new.ending.columns.items
        devices.old devices.new hand.new.ending.lost }
    ensures first { hand.old.ending.lost ≡ None → EndsMappedSettled D.Disk
        (option_map (λ m. m.now) clear.entry) label.old label.new
        hand.old.ending.columns.items hand.new.ending.columns.items
        devices.old devices.new hand.new.ending.lost }
    ensures left { (loss : Loss) → hand.old.ending.lost ≡ Some loss
        → IsLeftLost D.Disk loss label.old label.new hand.old.ending.columns.items
        hand.new.ending.columns.items devices.old devices.new }
    ensures steps { EndsInSteps D.Disk (option_map (λ m. m.now) clear.entry) (L.shape layout.now)
        hand.old.ending.lost label.old label.new hand.old.ending.columns.items
        hand.new.ending.columns.items devices.old devices.new hand.new.ending.lost }
    ensures lost { IsLossBy (L.shape layout.now) hand.old.ending.lost
        (states_of (L.shape layout.now) hand.new.ending.columns.items) hand.new.ending.lost }
    ensures judge { IsFor (L.shape layout.now) hand.new.judge }
{
    match clear {
        Some(blank) => end_and_clear(layout, devices, hand, label, blank),
        None => end_labelled(layout, devices, hand, label),
    }
}
