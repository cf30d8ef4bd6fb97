//! Whether something may be done with an array.
ghost use Rattle.std.specs.Prelude.{◌≡◌, ◌≤◌, ◌<◌, ℕ, length, count_by, IfOk, IfErr};
ghost use Rattle.std.specs.Option.{ForSome};
ghost use Rattle.eng_cols.specs.Cols.{IsFor, is_set_filling, is_set_spread};
ghost use Rattle.top_words.specs.Views.{action_seen};
ghost use Rattle.eng_cols.specs.Stripes.{states_of};
ghost use Rattle.top_close.specs.Ended.{IsLossBy};
ghost use Rattle.top_duty.specs.Steps.{with_killed, traces};

use eng_cols::{Cols, Column, Loss};
use lay_core::Layout;
use std::alloc::Global;
use top_status::Status;
use top_words::Action;

/// Room for the columns of a layout.
pub(crate) fn judge_for<L: Layout>(alloc: Global, layout: &L) -> Result<Cols, Status>
    ensures judge { IfOk result (IsFor (L.shape layout.now)) }
    ensures memory { IfErr result (λ status. status ≡ Status.Memory) }
{
    match Cols::with_room(alloc, layout.columns(), layout.stripes()) {
        Ok(cols) => Ok(cols),
        Err(_) => Err(Status::Memory),
    }
}

fn kill_if(judge: &mut Cols, column: Option<u32>)
    requires { ForSome column (λ c. c < length judge.old.states) }
    ensures { judge.new ≡ record judge.old { states = with_killed column judge.old.states } }
{
    match column {
        Some(column) => judge.kill(column),
        None => {}
    }
}

/// By what the array is lost that has these columns, of which this one dies.
pub(crate) fn loss_of<L: Layout>(
    judge: &mut Cols,
    layout: &L,
    columns: &[Column],
    dead: Option<u32>,
) -> Option<Loss>
    requires judge { IsFor (L.shape layout.now) judge.old }
    requires columns { length columns.now ≡ (L.shape layout.now).columns }
    requires filling { count_by is_set_filling columns.now ≤ 1 }
    requires spread { count_by is_set_spread columns.now ≤ 1 }
    requires dead { ForSome dead (λ c. c < length columns.now) }
    ensures loss { IsLossBy (L.shape layout.now) None
        (with_killed dead (states_of (L.shape layout.now) columns.now)) result }
    ensures judge { IsFor (L.shape layout.now) judge.new }
{
    judge.set(layout, columns);
    kill_if(judge, dead);
    judge.lost(layout)
}

/// Whether a trace is kept.
pub fn traces(action: Action<'_>) -> bool
    ensures { result ≡ traces (action_seen action.entry) }
{
    match action.beside() {
        Some(beside) => beside.trace,
        None => false,
    }
}
