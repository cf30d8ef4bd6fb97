//! The labels of an array's end: each device in use gets them, and is then settled.
ghost use Rattle.std.specs.Prelude.{◌≡◌, ◌≤◌, ◌<◌, ◌+◌, ◌^◌, length};
ghost use Rattle.eng_cols.specs.Cols.{IsFor};
ghost use Rattle.eng_cols.specs.Settable.{IsSettable};
ghost use Rattle.top_acts.specs.Closed.{ClosesLabelled, TriesToClose};
ghost use Rattle.eng_cols.specs.Stripes.{states_of};
ghost use Rattle.top_close.specs.Ended.{IsLossBy};
ghost use Rattle.std.specs.Prelude.{true, None};
ghost use Rattle.top_rounds.specs.Labels.{IsLabelFor};
ghost use Rattle.top_rounds.specs.Passes.{CanBeLabelled};
ghost use Rattle.top_close.specs.Stage.{device_count};

use blk_disk::Disk;
use eng_cols::Column;
use lay_core::Layout;
use raid_label::Label;
use top_close::{Hand, deaths_bring_no_unit_back, settle};
use top_rounds::round;

/// How many columns have a device.
pub(crate) fn count_devices(columns: &[Column]) -> u32
    requires { length columns.now ≤ 32 }
    ensures { result ≡ device_count columns.now }
{
    let mut count = 0;
    for column in columns {
        if column.device().is_some() {
            count += 1;
        }
    }
    count
}

// Writes rounds of labels, and then settles each device in use. Says whether that closed the array:
// none failed as it was settled, or the array was lost before.
fn try_close<L: Layout, D: Disk>(
    layout: &L,
    devices: &mut [Option<D>],
    hand: &mut Hand,
    label: &mut Label,
) -> bool
    requires array { CanBeLabelled D.Disk hand.old.ending.columns.items devices.old }
    requires columns { IsSettable (L.shape layout.now) hand.old.ending.columns.items }
    requires held { IsLabelFor hand.old.ending.columns.items label.old }
    requires counter { label.old.counter + 33 < 2 ^ 32 }
    requires judge { IsFor (L.shape layout.now) hand.old.judge }
    ensures held { IsLabelFor hand.new.ending.columns.items label.new }
    ensures tried { TriesToClose D.Disk label.old label.new hand.old.ending.columns.items
        hand.new.ending.columns.items devices.old devices.new hand.new.ending.lost result }
    ensures lost { IsLossBy (L.shape layout.now) None
        (states_of (L.shape layout.now) hand.new.ending.columns.items) hand.new.ending.lost }
    ensures judge { IsFor (L.shape layout.now) hand.new.judge }
{
    deaths_bring_no_unit_back();
    hand.ending.lost = None;
    round(layout, devices, hand, label);
    if hand.ending.lost.is_some() {
        return true;
    }
    let had = count_devices(&hand.ending.columns);
    settle(layout, devices, hand);
    count_devices(&hand.ending.columns) == had
}

/// Ends what is done to a labelled array: rounds of labels are written, and then each device in use
/// is settled, last of all its calls. Where one fails as it is settled there are rounds again, until
/// none does or the array is lost; then a column that was filling is dead, and one last round is
/// written, which isn't clean.
///
/// `label` is the label that was written last, or that the newest device had, with the clean field
/// that the labels are to have. Before this the caller settles each device in use. No memory is
/// taken.
pub fn close<L: Layout, D: Disk>(
    layout: &L,
    devices: &mut [Option<D>],
    hand: &mut Hand,
    label: &mut Label,
)
    requires array { CanBeLabelled D.Disk hand.old.ending.columns.items devices.old }
    requires columns { IsSettable (L.shape layout.now) hand.old.ending.columns.items }
    requires held { IsLabelFor hand.old.ending.columns.items label.old }
    requires counter { label.old.counter + 65 < 2 ^ 32 }
    requires judge { IsFor (L.shape layout.now) hand.old.judge }
    ensures closed { ClosesLabelled D.Disk true label.old label.new hand.old.ending.columns.items
        hand.new.ending.columns.items devices.old devices.new hand.new.ending.lost }
    ensures held { IsLabelFor hand.new.ending.columns.items label.new }
    ensures lost { IsLossBy (L.shape layout.now) None
        (states_of (L.shape layout.now) hand.new.ending.columns.items) hand.new.ending.lost }
    ensures judge { IsFor (L.shape layout.now) hand.new.judge }
{
    deaths_bring_no_unit_back();
    while !try_close(layout, devices, hand, label) {}
}
