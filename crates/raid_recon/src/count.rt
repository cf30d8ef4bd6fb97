//! How many stripes a column is rebuilt in.
ghost use Rattle.std.specs.Prelude.{◌≡◌, ◌<◌, ◌↔◌, ℕ, length, IsTrue};
ghost use Rattle.eng_cols.specs.Seats.{IsStripeOf};
ghost use Rattle.eng_cols.specs.Stripes.{is_stripe_of, states_of};
ghost use Rattle.lay_core.specs.Touched.{count_below};

use eng_cols::{Column, is_stripe_of};
use lay_core::Layout;

/// The number of the column's stripes: those that have a unit on it, and those that have a unit on a
/// spread column and their spare place on it. It goes over the stripes once.
pub fn rebuild_count<L: Layout>(layout: &L, columns: &[Column], column: u32) -> u32
    requires entries { length columns.now ≡ (L.shape layout.now).columns }
    requires column { column < (L.shape layout.now).columns }
    ensures count { result ≡ count_below (is_stripe_of (L.shape layout.now)
        (states_of (L.shape layout.now) columns.now) column) (L.shape layout.now).stripes }
    ensures stripes { (s : ℕ) → IsTrue (is_stripe_of (L.shape layout.now)
        (states_of (L.shape layout.now) columns.now) column s)
        ↔ IsStripeOf (L.shape layout.now) (states_of (L.shape layout.now) columns.now) column s }
{
    let mut count = 0;
    for stripe in 0..layout.stripes() {
        if is_stripe_of(layout, columns, column, stripe) {
            count += 1;
        }
    }
    count
}
