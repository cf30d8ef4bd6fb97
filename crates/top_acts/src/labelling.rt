//! The first labels of an array.
ghost use Rattle.std.specs.Prelude.{◌≡◌, ◌≤◌, length, Some};
ghost use Rattle.eng_cols.specs.Cols.{IsFor};
ghost use Rattle.eng_cols.specs.Settable.{IsSettable};
ghost use Rattle.top_acts.specs.Labelled.{IsFirstLabelled};
ghost use Rattle.top_acts.specs.Counting.{is_alive, alive};
ghost use Rattle.top_rounds.specs.Labels.{IsLabelFor};
ghost use Rattle.top_rounds.specs.Passes.{CanBeLabelled};

use crate::done::Done;
use blk_disk::Disk;
use eng_cols::Column;
use lay_core::Layout;
use raid_label::Label;
use top_close::Hand;
use top_rounds::round;

fn is_alive(column: Column) -> bool
    ensures { result ≡ is_alive column }
{
    match column {
        Column::Dead => false,
        Column::Live { .. } | Column::Filling { .. } | Column::Spread => true,
    }
}

// How many columns aren't dead.
fn count_alive(columns: &[Column]) -> u32
    requires { length columns.now ≤ 32 }
    ensures { result ≡ alive columns.now }
{
    let mut count = 0;
    for column in columns {
        if is_alive(*column) {
            count += 1;
        }
    }
    count
}

/// Writes the first labels of an array, or its first labels anew: one round, whose labels have the
/// counter 1 and aren't clean. A device whose write fails makes its column dead, and another round
/// begins, with a greater counter. Tells how many columns aren't dead in the end.
///
/// `label` is what the labels have besides, and in the end the label of the last round. Nothing is
/// settled. The array isn't lost as it is opened. No memory is taken.
pub fn label<L: Layout, D: Disk>(
    layout: &L,
    devices: &mut [Option<D>],
    hand: &mut Hand,
    label: &mut Label,
) -> Done
    requires array { CanBeLabelled D.Disk hand.old.ending.columns.items devices.old }
    requires columns { IsSettable (L.shape layout.now) hand.old.ending.columns.items }
    requires held { IsLabelFor hand.old.ending.columns.items label.old }
    requires judge { IsFor (L.shape layout.now) hand.old.judge }
    ensures labelled { IsFirstLabelled D.Disk (L.shape layout.now) label.old label.new
        hand.old.ending.columns.items
        hand.new.ending.columns.items devices.old devices.new hand.new.ending.lost result }
    ensures judge { IsFor (L.shape layout.now) hand.new.judge }
{
    hand.ending.lost = None;
    label.counter = 0;
    label.clean = 0;
    round(layout, devices, hand, label);
    match hand.ending.lost {
        Some(_) => Done::Nothing,
        None => Done::Labelled(count_alive(&hand.ending.columns)),
    }
}
