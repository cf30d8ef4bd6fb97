//! The rows of a table of locks: held stripes in ascending order.
ghost use Rattle.std.specs.Prelude.{◌≡◌, ◌<◌, ◌≤◌, ◌↔◌, ℕ, [], ◌∷◌, length, filter, map, IsTrue, vec_len, vec_capacity};
ghost use Rattle.stripe_lock.specs.Holder.{mode_in};
ghost use Rattle.stripe_lock.specs.Rows.{mode_at, IsAscending, IsPlace, HasRow, IsBarred, IsSound, HoldsNone, Grows, without_owner, has_holder};

use crate::holder::Holder;
use crate::mode::Mode;

/// The most rows: 17 owners of 16 stripes each.
pub(crate) const ROWS: usize = 272;

/// A stripe that is held.
#[derive(Clone, Copy)]
pub(crate) struct Row {
    pub(crate) stripe: u32,
    pub(crate) holder: Holder,
}

// The place of the first row whose stripe isn't below this one, by bisection.
fn place(rows: &[Row], stripe: u32) -> usize
    requires { IsAscending rows.now }
    ensures { IsPlace rows.now stripe result }
{
    let mut low = 0;
    let mut high = rows.len();
    while low < high {
        let middle = low + (high - low) / 2;
        if rows[middle].stripe < stripe {
            low = middle + 1;
        } else {
            high = middle;
        }
    }
    low
}

#[tactic(auto, using(crate::proofs::Rows::row_by_test, crate::proofs::Rows::no_row))]
fn has_row(rows: &[Row], at: usize, stripe: u32) -> bool
    ensures { IsTrue result ↔ HasRow rows.now stripe at }
{
    at < rows.len() && rows[at].stripe == stripe
}

fn holder_of(rows: &[Row], stripe: u32) -> Holder
    requires { IsAscending rows.now }
    ensures { (owner : ℕ) → mode_in result owner ≡ mode_at rows.now owner stripe }
{
    let at = place(rows, stripe);
    if has_row(rows, at, stripe) {
        rows[at].holder
    } else {
        Holder::nobody()
    }
}

// Whether another owner keeps this one from a stripe.
fn is_taken(rows: &[Row], owner: u32, stripe: u32, mode: Mode) -> bool
    requires { IsAscending rows.now }
    ensures { IsTrue result ↔ IsBarred rows.now owner (stripe ∷ []) mode }
{
    holder_of(rows, stripe).is_in_the_way(owner, mode)
}

/// Whether another owner keeps this one from one of the stripes.
#[tactic(auto, using(crate::proofs::Barring::barred_here, crate::proofs::Barring::not_barred))]
pub(crate) fn is_barred(rows: &[Row], owner: u32, stripes: &[u32], mode: Mode) -> bool
    requires { IsAscending rows.now }
    ensures { IsTrue result ↔ IsBarred rows.now owner stripes.now mode }
{
    for stripe in stripes {
        if is_taken(rows, owner, *stripe, mode) {
            return true;
        }
    }
    false
}

// The owner holds this stripe too from now on. No other is in its way, and there is room for a row.
fn put(rows: &mut Vec<Row>, owner: u32, stripe: u32, mode: Mode)
    requires owner { owner < 17 }
    requires ascending { IsAscending rows.old.items }
    requires free { ¬ IsBarred rows.old.items owner (stripe ∷ []) mode }
    requires room { vec_len rows.old < vec_capacity rows.old }
    ensures grows { Grows rows.old.items owner (stripe ∷ []) mode rows.new.items }
    ensures room { vec_capacity rows.old ≤ vec_capacity rows.new }
{
    let at = place(rows, stripe);
    if has_row(rows, at, stripe) {
        let row = &mut rows[at];
        row.holder = row.holder.with(owner, mode);
    } else {
        let row = Row {
            stripe,
            holder: Holder::only(owner, mode),
        };
        let done = rows.insert(at, row).is_ok();
        prove!(done);
    }
}

/// The owner, who holds none, holds these stripes from now on.
pub(crate) fn hold(rows: &mut Vec<Row>, owner: u32, stripes: &[u32], mode: Mode)
    requires owner { owner < 17 }
    requires few { length stripes.now ≤ 16 }
    requires sound { IsSound rows.old.items }
    requires room { 272 ≤ vec_capacity rows.old }
    requires none { HoldsNone rows.old.items owner }
    requires free { ¬ IsBarred rows.old.items owner stripes.now mode }
    ensures grows { Grows rows.old.items owner stripes.now mode rows.new.items }
    ensures room { 272 ≤ vec_capacity rows.new }
{
    for i in 0..stripes.len() {
        put(rows, owner, stripes[i], mode);
    }
}

/// The owner holds no stripe from now on. Rows that nobody holds any more go.
pub(crate) fn leave(rows: &mut Vec<Row>, owner: u32)
    ensures rows { rows.new.items ≡ filter has_holder (map (without_owner owner) rows.old.items) }
    ensures room { vec_capacity rows.new ≡ vec_capacity rows.old }
{
    for i in 0..rows.len() {
        let row = &mut rows[i];
        row.holder = row.holder.without(owner);
    }
    rows.retain(|row| row.holder.is_held());
}
