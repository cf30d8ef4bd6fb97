//! Whether an array is in doubt.
ghost use Rattle.std.specs.Prelude.{◌≡◌};
ghost use Rattle.std.specs.List.{count_by};
ghost use Rattle.top_open.specs.Opening.{opened_seen};
ghost use Rattle.top_looks.specs.Doubts.{doubt_in, is_dead};

use eng_cols::Column;
use top_open::Opened;

/// An array wasn't closed in order, and lacks a column: no sweep puts right a stripe that lacks a unit, so that what is
/// read in the place of that unit may be wrong.
#[derive(Clone, Copy, Debug, PartialEq, Eq)]
pub struct Doubt {
    /// The newest label names a device for a column that is lacking. The label of that device is older or can't be read, its
    /// disk is absent, or it was being filled.
    pub named: bool,
}

fn is_dead(column: Column) -> bool
    ensures { result ≡ is_dead column }
{
    match column {
        Column::Dead => true,
        Column::Live { .. } | Column::Filling { .. } | Column::Spread => false,
    }
}

fn count_dead(columns: &[Column]) -> usize
    ensures { result ≡ count_by is_dead columns.now }
{
    columns.iter().filter(|column| is_dead(**column)).count()
}

/// The doubt about an array as it was opened, if there is one.
pub fn doubt_of(opened: &Opened) -> Option<Doubt>
    ensures { result ≡ doubt_in (opened_seen opened.now) }
{
    let Some(newest) = &opened.newest else {
        return None;
    };
    let dead = count_dead(&opened.columns);
    if newest.clean == 1 || dead == 0 {
        return None;
    }
    Some(Doubt {
        named: count_dead(&opened.seats) < dead,
    })
}
