//! A column of a labelled array dies whose opening round has been written.
ghost use Rattle.std.specs.Prelude.{◌<◌, ◌+◌, ◌^◌, List, None, length};
ghost use Rattle.eng_cols.specs.Cols.{IsFor};
ghost use Rattle.eng_cols.specs.declared.column.Column.{Column};
ghost use Rattle.top_acts.specs.Begun.{CanAct};
ghost use Rattle.top_acts.specs.Failed.{EndsFailed};
ghost use Rattle.top_acts.specs.Alive.{IsWithout};
ghost use Rattle.eng_cols.specs.Stripes.{states_of};
ghost use Rattle.top_close.specs.Ended.{IsLossBy};
ghost use Rattle.top_rounds.specs.Labels.{IsLabelFor};

use crate::ending::write_lost;
use crate::judging::lose_column;
use blk_disk::Disk;
use lay_core::Layout;
use raid_label::Label;
use top_close::{Hand, deaths_bring_no_unit_back, loss_of};

/// Fails a column of a labelled array that was begun: it is dead, and its device isn't called any
/// more. Where the array wasn't lost before and is lost by that, its one round is written, which
/// isn't clean and whose failed writes are passed over; else nothing is called.
///
/// `label` is the label that was written last. An array that was lost before is lost in the end by
/// the columns that it then has. No memory is taken.
pub fn fail_column<L: Layout, D: Disk>(
    layout: &L,
    devices: &mut [Option<D>],
    hand: &mut Hand,
    column: u32,
    label: &mut Label,
)
    requires within { column < length hand.old.ending.columns.items }
    requires can { CanAct D.Disk (L.shape layout.now) hand.old.ending.columns.items devices.old }
    requires held { IsLabelFor hand.old.ending.columns.items label.old }
    requires counter { label.old.counter + 33 < 2 ^ 32 }
    requires by { IsLossBy (L.shape layout.now) None
        (states_of (L.shape layout.now) hand.old.ending.columns.items) hand.old.ending.lost }
    requires judge { IsFor (L.shape layout.now) hand.old.judge }
    ensures ends { (mid : List Column)
        × IsWithout (L.shape layout.now) column hand.old.ending.columns.items mid
        × EndsFailed D.Disk hand.old.ending.lost hand.new.ending.lost label.old label.new
        mid hand.new.ending.columns.items devices.old devices.new }
    ensures lost { IsLossBy (L.shape layout.now) None
        (states_of (L.shape layout.now) hand.new.ending.columns.items) hand.new.ending.lost }
    ensures can { CanAct D.Disk (L.shape layout.now) hand.new.ending.columns.items devices.new }
    ensures held { IsLabelFor hand.new.ending.columns.items label.new }
    ensures judge { IsFor (L.shape layout.now) hand.new.judge }
{
    deaths_bring_no_unit_back();
    let before = hand.ending.lost.is_some();
    lose_column(layout, hand, column);
    hand.ending.lost = loss_of(layout, &hand.ending.columns, &mut hand.judge);
    if !before && hand.ending.lost.is_some() {
        write_lost(layout, devices, hand, label);
    }
}
