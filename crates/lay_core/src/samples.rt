//! A layout for examples and tests: unit i of each stripe lies on column i.
ghost use Rattle.std.specs.Prelude.{◌<◌, ◌≤◌};

use crate::layout::Layout;
use crate::place::Place;

/// Columns of 64 rows with so many units a stripe, one on each column, the last of them a check unit where there is one.
/// A stripe is a row. Sectors of a unit are counted as `Layout::unit_sectors` does.
#[derive(Clone, Copy)]
pub struct Straight {
    /// The units of a stripe, and the columns: at most 32.
    pub width: u32,
    /// The check units of a stripe: 0 or 1, and fewer than its units.
    pub checks: u32,
    /// The sectors of a unit: 1 to 128.
    pub unit_sectors: u32,
    pub ghost width_most: { width ≤ 32 },
    pub ghost checks_most: { checks ≤ 1 },
    pub ghost checks_below: { checks < width },
    pub ghost unit_least: { 1 ≤ unit_sectors },
    pub ghost unit_most: { unit_sectors ≤ 128 },
}

impl Layout for Straight {
    ghost use Rattle.lay_core.specs.StraightRows.{straight, straight_lawful};

    ghost shape = { λ l. straight l.width l.checks l.unit_sectors };

    ghost is_layout = { λ l. straight_lawful l.width l.checks l.unit_sectors l.width_most l.checks_most l.checks_below l.unit_least l.unit_most };

    fn columns(&self) -> u32 {
        self.width
    }

    fn width(&self) -> u32 {
        self.width
    }

    fn checks(&self) -> u32 {
        self.checks
    }

    fn unit_sectors(&self) -> u32 {
        self.unit_sectors
    }

    fn stripes(&self) -> u32 {
        64
    }

    fn rows(&self) -> u32 {
        64
    }

    fn place(&self, stripe: u32, unit: u32) -> Place {
        Place {
            column: unit,
            row: stripe,
        }
    }

    fn spare_place(&self, _stripe: u32) -> Option<Place> {
        None
    }
}
