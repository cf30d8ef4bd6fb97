//! What is done with the units of a section, by the way in which those that are touched are handled.

ghost use Rattle.std.specs.Prelude.{◌≡◌, ◌<◌, ◌==◌, ◌&&◌, ◌||◌, not, ℕ};
ghost use Rattle.std.specs.Option.{ForSome};
ghost use Rattle.graph_mean.specs.Task.{is_that};
ghost use Rattle.graph_lib.specs.Section.{has_unit, is_new_by, is_read_by, is_written_by, is_returned_by, has_sum, HasUses};
ghost use Rattle.graph_lib.specs.Ways.{FitsWay};

use crate::section::{Section, Way};
use crate::unit_set::UnitSet;

fn news_by(way: Way, touched: UnitSet) -> UnitSet
    ensures { (i : ℕ) → has_unit result i ≡ is_new_by way (has_unit touched) i }
{
    match way {
        Way::Plain | Way::Small { .. } | Way::Large { .. } => touched,
        Way::Direct | Way::Around { .. } | Way::Made { .. } => UnitSet::none(),
    }
}

fn reads_by(way: Way, touched: UnitSet) -> UnitSet
    requires { FitsWay way }
    ensures { (i : ℕ) → i < 32 → has_unit result i ≡ is_read_by way (has_unit touched) i }
{
    match way {
        Way::Plain => UnitSet::none(),
        Way::Small { check, .. } => touched.with(check),
        Way::Large { check, .. } => touched.others(check),
        Way::Direct => touched,
        Way::Around { gone } => UnitSet::all_but(u32::from(gone)),
        Way::Made { unit } => UnitSet::all_but(unit),
    }
}

// The check unit, and the touched units that are there.
fn checked(touched: UnitSet, check: u32, gone: Option<u8>) -> UnitSet
    requires check { check < 32 }
    requires gone { ForSome gone (λ unit. unit < 32) }
    ensures { (i : ℕ) → has_unit result i
        ≡ ((i == check) || (has_unit touched i && not (is_that gone i))) }
{
    match gone {
        None => touched.with(check),
        Some(unit) => touched.without(u32::from(unit)).with(check),
    }
}

fn writes_by(way: Way, touched: UnitSet) -> UnitSet
    requires { FitsWay way }
    ensures { (i : ℕ) → has_unit result i ≡ is_written_by way (has_unit touched) i }
{
    match way {
        Way::Plain => touched,
        Way::Small { check, gone } | Way::Large { check, gone } => checked(touched, check, gone),
        Way::Direct | Way::Around { .. } => UnitSet::none(),
        Way::Made { unit } => UnitSet::none().with(unit),
    }
}

fn returns_by(way: Way, touched: UnitSet) -> UnitSet
    ensures { (i : ℕ) → has_unit result i ≡ is_returned_by way (has_unit touched) i }
{
    match way {
        Way::Direct | Way::Around { .. } => touched,
        Way::Plain | Way::Small { .. } | Way::Large { .. } | Way::Made { .. } => UnitSet::none(),
    }
}

fn has_sum(way: Way) -> bool
    ensures { result ≡ has_sum way }
{
    match way {
        Way::Plain | Way::Direct => false,
        Way::Small { .. } | Way::Large { .. } | Way::Around { .. } | Way::Made { .. } => true,
    }
}

/// The section of these offsets, so many, whose touched units are handled in this way.
pub(crate) fn section_by(stripe: u32, from: u32, count: u32, way: Way, touched: UnitSet) -> Section
    requires { FitsWay way }
    ensures stripe { result.stripe ≡ stripe }
    ensures from { result.from ≡ from }
    ensures count { result.count ≡ count }
    ensures uses { HasUses way (has_unit touched) result }
{
    Section {
        stripe,
        from,
        count,
        new_units: news_by(way, touched),
        read_units: reads_by(way, touched),
        written_units: writes_by(way, touched),
        returned_units: returns_by(way, touched),
        summed: has_sum(way),
    }
}
