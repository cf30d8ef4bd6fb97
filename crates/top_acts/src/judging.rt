//! Whether an array is lost by its columns, and what becomes of these.
ghost use Rattle.std.specs.Prelude.{◌≡◌, ◌<◌, Some, None, length, slice_get};
ghost use Rattle.eng_cols.specs.Cols.{IsFor};
ghost use Rattle.eng_cols.specs.Settable.{IsSettable};
ghost use Rattle.eng_cols.specs.Stripes.{states_of};
ghost use Rattle.top_acts.specs.Alive.{IsWithout};
ghost use Rattle.top_close.specs.Closes.{FillingEnds};
ghost use Rattle.top_close.specs.Ended.{IsLossBy};
ghost use Rattle.top_rounds.specs.Rounds.{in_end};

use eng_cols::{Cols, Column, Loss};
use lay_core::Layout;
use top_close::{Hand, deaths_bring_no_unit_back, loss_of};
use top_rounds::give_up;

// By what an array is lost that has these columns. Where it is, a column that was filling is dead.
fn end_of<L: Layout>(layout: &L, columns: &mut [Column], judge: &mut Cols) -> Option<Loss>
    requires columns { IsSettable (L.shape layout.now) columns.old }
    requires judge { IsFor (L.shape layout.now) judge.old }
    ensures columns { columns.new ≡ in_end result columns.old }
    ensures lost { IsLossBy (L.shape layout.now) None
        (states_of (L.shape layout.now) columns.new) result }
    ensures judge { IsFor (L.shape layout.now) judge.new }
{
    deaths_bring_no_unit_back();
    if loss_of(layout, columns, judge).is_none() {
        return None;
    }
    give_up(columns);
    loss_of(layout, columns, judge)
}

/// By what an array is lost in the end. Where it is, a column that was filling is dead.
pub(crate) fn judge_end<L: Layout>(layout: &L, hand: &mut Hand)
    requires columns { IsSettable (L.shape layout.now) hand.old.ending.columns.items }
    requires judge { IsFor (L.shape layout.now) hand.old.judge }
    ensures columns { hand.new.ending.columns.items
        ≡ in_end hand.new.ending.lost hand.old.ending.columns.items }
    ensures lost { IsLossBy (L.shape layout.now) None
        (states_of (L.shape layout.now) hand.new.ending.columns.items) hand.new.ending.lost }
    ensures judge { IsFor (L.shape layout.now) hand.new.judge }
{
    hand.ending.lost = end_of(layout, hand.ending.columns.as_mut_slice(), &mut hand.judge);
}

// The column as it is kept: one that is filling and whole is live.
fn kept<L: Layout>(layout: &L, judge: &Cols, column: u32) -> Column
    requires judge { IsFor (L.shape layout.now) judge.now }
    requires column { column < length judge.now.states }
    ensures { FillingEnds (L.shape layout.now) judge.now.states column
        (slice_get judge.now.states column) (Some result) }
{
    match judge.column(layout, column) {
        Column::Filling { device, done } => {
            if judge.whole(layout, column) {
                Column::Live { device }
            } else {
                Column::Filling { device, done }
            }
        }
        column => column,
    }
}

// One column is dead, and the others are kept.
fn lose_in<L: Layout>(layout: &L, columns: &mut [Column], column: u32, judge: &mut Cols)
    requires within { column < length columns.old }
    requires columns { IsSettable (L.shape layout.now) columns.old }
    requires judge { IsFor (L.shape layout.now) judge.old }
    ensures without { IsWithout (L.shape layout.now) column columns.old columns.new }
    ensures judge { IsFor (L.shape layout.now) judge.new }
{
    judge.set(layout, columns);
    judge.kill(column);
    for c in 0..columns.len() as u32 {
        columns[c as usize] = kept(layout, judge, c);
    }
}

/// One column is dead. One that is filling has then those stripes done that are so with all of its
/// stripes before them, or is live where it is whole: where the dead one was spread, it has fewer
/// stripes.
pub(crate) fn lose_column<L: Layout>(layout: &L, hand: &mut Hand, column: u32)
    requires within { column < length hand.old.ending.columns.items }
    requires columns { IsSettable (L.shape layout.now) hand.old.ending.columns.items }
    requires judge { IsFor (L.shape layout.now) hand.old.judge }
    ensures without { IsWithout (L.shape layout.now) column
        hand.old.ending.columns.items hand.new.ending.columns.items }
    ensures lost { hand.new.ending.lost ≡ hand.old.ending.lost }
    ensures judge { IsFor (L.shape layout.now) hand.new.judge }
{
    lose_in(
        layout,
        hand.ending.columns.as_mut_slice(),
        column,
        &mut hand.judge,
    );
}
