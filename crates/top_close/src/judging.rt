//! Whether an array is lost by its columns.
ghost use Rattle.std.specs.Prelude.{◌↔◌, All, IsTrue, None};
ghost use Rattle.eng_cols.specs.Cols.{IsFor};
ghost use Rattle.eng_cols.specs.Settable.{IsSettable};
ghost use Rattle.eng_cols.specs.Stripes.{states_of};
ghost use Rattle.top_close.specs.Ended.{IsLive, IsLossBy};

use eng_cols::{Cols, Column, Loss};
use lay_core::Layout;

// Whether the column is live.
fn is_live(column: &Column) -> bool
    ensures { IsTrue result ↔ IsLive column.now }
{
    match column {
        Column::Live { .. } => true,
        Column::Dead | Column::Filling { .. } | Column::Spread => false,
    }
}

// Whether each column is. Then no unit is missing, which needs no look at the stripes.
fn are_live(columns: &[Column]) -> bool
    ensures { IsTrue result ↔ All IsLive columns.now }
{
    columns.iter().all(is_live)
}

/// By what an array is lost that has these columns. `judge` may hold any columns, as many as the
/// layout has, and then holds these.
pub fn loss_of<L: Layout>(layout: &L, columns: &[Column], judge: &mut Cols) -> Option<Loss>
    requires columns { IsSettable (L.shape layout.now) columns.now }
    requires judge { IsFor (L.shape layout.now) judge.old }
    ensures lost { IsLossBy (L.shape layout.now) None
        (states_of (L.shape layout.now) columns.now) result }
    ensures judge { IsFor (L.shape layout.now) judge.new }
{
    judge.set(layout, columns);
    if are_live(columns) {
        return None;
    }
    judge.lost(layout)
}
