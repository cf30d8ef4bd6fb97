//! How many stripes lie so and so on the columns.
ghost use Rattle.std.specs.Prelude.{◌≡◌, ◌<◌, ◌≤◌, ◌-◌};
ghost use Rattle.lay_core.specs.Layout.{data_units};
ghost use Rattle.top_layout.specs.Tallies.{is_counted, is_spare_on, lies_among, tally_of};

use lay_core::Layout;

/// Which stripes are counted.
#[derive(Clone, Copy, Debug, PartialEq, Eq)]
pub enum Tally {
    /// Those that have a data unit on this column.
    Data { column: u32 },
    /// Those that have their check unit there.
    Check { column: u32 },
    /// Those that have their spare place there.
    Spare { column: u32 },
    /// Those that have a unit on both columns.
    Shared { column: u32, other: u32 },
    /// Those that have a unit on the one column, and their spare place on the other.
    Spared { column: u32, other: u32 },
}

/// The data units of a stripe.
pub(crate) fn data_of<L: Layout>(layout: &L) -> u32
    ensures { result ≡ data_units (L.shape layout.now) }
{
    layout.width() - layout.checks()
}

// Whether one of the first units of a stripe lies on a column.
fn lies_among<L: Layout>(layout: &L, units: u32, stripe: u32, column: u32) -> bool
    requires stripe { stripe < (L.shape layout.now).stripes }
    requires units { units ≤ (L.shape layout.now).width }
    ensures { result ≡ lies_among (L.shape layout.now) units stripe column }
{
    for unit in 0..units {
        if layout.place(stripe, unit).column == column {
            return true;
        }
    }
    false
}

// Whether the stripe's spare place lies on a column.
fn is_spare_on<L: Layout>(layout: &L, stripe: u32, column: u32) -> bool
    requires stripe { stripe < (L.shape layout.now).stripes }
    ensures { result ≡ is_spare_on (L.shape layout.now) stripe column }
{
    match layout.spare_place(stripe) {
        Some(place) => place.column == column,
        None => false,
    }
}

// Whether a stripe is one that is counted.
fn is_counted<L: Layout>(layout: &L, what: Tally, stripe: u32) -> bool
    requires stripe { stripe < (L.shape layout.now).stripes }
    ensures { result ≡ is_counted (L.shape layout.now) what stripe }
{
    let data = data_of(layout);
    let width = layout.width();
    match what {
        Tally::Data { column } => lies_among(layout, data, stripe, column),
        Tally::Check { column } => {
            lies_among(layout, width, stripe, column) && !lies_among(layout, data, stripe, column)
        }
        Tally::Spare { column } => is_spare_on(layout, stripe, column),
        Tally::Shared { column, other } => {
            lies_among(layout, width, stripe, column) && lies_among(layout, width, stripe, other)
        }
        Tally::Spared { column, other } => {
            lies_among(layout, width, stripe, column) && is_spare_on(layout, stripe, other)
        }
    }
}

/// How many stripes of the layout are such.
pub fn count_such<L: Layout>(layout: &L, what: Tally) -> u32
    ensures { result ≡ tally_of (L.shape layout.now) what }
{
    let mut count = 0;
    for stripe in 0..layout.stripes() {
        if is_counted(layout, what, stripe) {
            count += 1;
        }
    }
    count
}
