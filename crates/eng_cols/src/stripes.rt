//! The stripes of a column, and which of them are done as the column is set.
ghost use Rattle.std.specs.Prelude.{◌≡◌, ◌<◌, length, replicate};
ghost use Rattle.eng_cols.specs.Cols.{none_done};
ghost use Rattle.eng_cols.specs.Seats.{is_place_on};
ghost use Rattle.eng_cols.specs.Stripes.{done_at, filled_in, first_done, is_stripe_by, is_unit_by, spreads};

use crate::column::Column;
use lay_core::{Layout, Place};

// Whether the place lies on the column.
fn is_on(place: Option<Place>, column: u32) -> bool
    ensures { result ≡ is_place_on place column }
{
    match place {
        None => false,
        Some(place) => column == place.column,
    }
}

// Whether the column is spread.
fn is_spread(columns: &[Column], column: u32) -> bool
    requires { column < length columns.now }
    ensures { result ≡ spreads columns.now column }
{
    match columns[column as usize] {
        Column::Spread => true,
        Column::Live { .. } | Column::Dead | Column::Filling { .. } => false,
    }
}

// Whether a unit of the stripe is one of the column's: it lies there, or on a spread column and the
// stripe's spare place there.
fn is_unit_of<L: Layout>(
    layout: &L,
    columns: &[Column],
    column: u32,
    stripe: u32,
    unit: u32,
) -> bool
    requires entries { length columns.now ≡ (L.shape layout.now).columns }
    requires stripe { stripe < (L.shape layout.now).stripes }
    requires unit { unit < (L.shape layout.now).width }
    ensures { result ≡ is_unit_by (L.shape layout.now) (spreads columns.now) stripe unit column }
{
    let own = layout.place(stripe, unit).column;
    column == own || (is_spread(columns, own) && is_on(layout.spare_place(stripe), column))
}

/// Whether the stripe is one of the column's: it has a unit on it, or one on a spread column and its
/// spare place on it.
#[tactic(auto, unfolding(crate::specs::Stripes::is_stripe_by))]
pub fn is_stripe_of<L: Layout>(layout: &L, columns: &[Column], column: u32, stripe: u32) -> bool
    requires entries { length columns.now ≡ (L.shape layout.now).columns }
    requires stripe { stripe < (L.shape layout.now).stripes }
    ensures { result ≡ is_stripe_by (L.shape layout.now) (spreads columns.now) column stripe }
{
    for unit in 0..layout.width() {
        if is_unit_of(layout, columns, column, stripe, unit) {
            return true;
        }
    }
    false
}

// Of each stripe it is said that it isn't done.
pub(crate) fn mark_all(stripes: &mut Vec<bool>, done: bool)
    ensures { stripes.new.items ≡ replicate (length stripes.old.items) done }
{
    stripes.as_mut_slice().fill(done);
}

// How many stripes are done on the column, if it is filling.
fn done_at(columns: &[Column], column: u32) -> Option<u32>
    requires { column < length columns.now }
    ensures { result ≡ done_at columns.now column }
{
    match columns[column as usize] {
        Column::Filling { done, .. } => Some(done),
        Column::Live { .. } | Column::Dead | Column::Spread => None,
    }
}

// The first of the column's stripes are done, so many; none was.
#[tactic(auto, unfolding(crate::specs::Stripes::first_done))]
fn mark_first<L: Layout>(
    layout: &L,
    columns: &[Column],
    column: u32,
    done: u32,
    filled: &mut Vec<bool>,
)
    requires entries { length columns.now ≡ (L.shape layout.now).columns }
    requires none { filled.old.items ≡ none_done (L.shape layout.now).stripes }
    ensures { filled.new.items
        ≡ first_done (is_stripe_by (L.shape layout.now) (spreads columns.now) column) done
        (L.shape layout.now).stripes (L.shape layout.now).stripes }
{
    let mut left = done;
    for stripe in 0..layout.stripes() {
        if left > 0 && is_stripe_of(layout, columns, column, stripe) {
            filled[stripe as usize] = true;
            left -= 1;
        }
    }
}

/// Of each stripe it is said whether it is done on the column that is filling.
pub(crate) fn fill_first<L: Layout>(layout: &L, columns: &[Column], filled: &mut Vec<bool>)
    requires entries { length columns.now ≡ (L.shape layout.now).columns }
    requires stripes { length filled.old.items ≡ (L.shape layout.now).stripes }
    ensures { filled.new.items ≡ filled_in (L.shape layout.now) columns.now }
{
    mark_all(filled, false);
    for column in 0..columns.len() as u32 {
        if let Some(done) = done_at(columns, column) {
            mark_first(layout, columns, column, done, filled);
            return;
        }
    }
}
