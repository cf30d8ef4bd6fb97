//! A labelled array is closed that nothing was written to yet.
ghost use Rattle.std.specs.Prelude.{◌<◌, ◌+◌, ◌^◌};
ghost use Rattle.eng_cols.specs.Cols.{IsFor};
ghost use Rattle.eng_cols.specs.Settable.{IsSettable};
ghost use Rattle.top_acts.specs.Killed.{IsKilled};
ghost use Rattle.top_acts.specs.Alive.{EndsAlive};
ghost use Rattle.std.specs.Prelude.{length};
ghost use Rattle.std.specs.Prelude.{None};
ghost use Rattle.eng_cols.specs.Stripes.{states_of};
ghost use Rattle.top_close.specs.Ended.{IsLossBy};
ghost use Rattle.top_rounds.specs.Labels.{IsLabelFor};
ghost use Rattle.top_rounds.specs.Passes.{CanBeLabelled};

use crate::closing::close;
use crate::done::Done;
use crate::judging::{judge_end, lose_column};
use blk_disk::Disk;
use lay_core::Layout;
use raid_label::Label;
use top_close::{Hand, deaths_bring_no_unit_back, settle};

/// Settles each device in use, and then closes a labelled array, or leaves it as it is where that
/// lost it: no label is written then, and a column that was filling is dead.
///
/// `label` is the newest's. All else is as in [`close`].
pub fn settle_and_close<L: Layout, D: Disk>(
    layout: &L,
    devices: &mut [Option<D>],
    hand: &mut Hand,
    label: &mut Label,
)
    requires array { CanBeLabelled D.Disk hand.old.ending.columns.items devices.old }
    requires columns { IsSettable (L.shape layout.now) hand.old.ending.columns.items }
    requires held { IsLabelFor hand.old.ending.columns.items label.old }
    requires counter { label.old.counter + 65 < 2 ^ 32 }
    requires judge { IsFor (L.shape layout.now) hand.old.judge }
    ensures ends { EndsAlive D.Disk (L.shape layout.now) label.old label.new
        hand.old.ending.columns.items
        hand.new.ending.columns.items devices.old devices.new hand.new.ending.lost }
    ensures lost { IsLossBy (L.shape layout.now) None
        (states_of (L.shape layout.now) hand.new.ending.columns.items) hand.new.ending.lost }
    ensures judge { IsFor (L.shape layout.now) hand.new.judge }
{
    deaths_bring_no_unit_back();
    hand.ending.lost = None;
    settle(layout, devices, hand);
    if hand.ending.lost.is_some() {
        judge_end(layout, hand);
    } else {
        close(layout, devices, hand, label);
    }
}

/// Fails a column of a labelled array: it is dead, and the labels say so, with the newest's clean
/// field. Where it was spread, one that is filling has no more of its units.
///
/// `label` is the newest's. Where the array is lost before any label was written, it is left as it
/// is. All else is as in [`close`].
pub fn kill<L: Layout, D: Disk>(
    layout: &L,
    devices: &mut [Option<D>],
    hand: &mut Hand,
    column: u32,
    label: &mut Label,
) -> Done
    requires within { column < length hand.old.ending.columns.items }
    requires array { CanBeLabelled D.Disk hand.old.ending.columns.items devices.old }
    requires columns { IsSettable (L.shape layout.now) hand.old.ending.columns.items }
    requires held { IsLabelFor hand.old.ending.columns.items label.old }
    requires counter { label.old.counter + 65 < 2 ^ 32 }
    requires judge { IsFor (L.shape layout.now) hand.old.judge }
    ensures killed { IsKilled D.Disk (L.shape layout.now) column label.old label.new
        hand.old.ending.columns.items
        hand.new.ending.columns.items devices.old devices.new hand.new.ending.lost result }
    ensures judge { IsFor (L.shape layout.now) hand.new.judge }
{
    deaths_bring_no_unit_back();
    lose_column(layout, hand, column);
    settle_and_close(layout, devices, hand, label);
    match hand.ending.lost {
        Some(_) => Done::Nothing,
        None => Done::Killed(column),
    }
}
