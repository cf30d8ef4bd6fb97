//! Level 5: rotated check units.
ghost use Rattle.std.specs.Prelude.{◌≡◌, ◌<◌, ◌≤◌, IfOk, IsErrOf, ◌↔◌, ◌⊎◌};
ghost use Rattle.lay_plain.specs.LeftSymmetric.{left_symmetric};
ghost use Rattle.lay_plain.specs.Limits.{IsBetween, IsOutside};

use crate::fault::MakeFault;
use blk_plain::limits;
use lay_core::{Layout, Place};

/// Level 5, left-symmetric: a stripe is a row of all columns; its check unit lies on the last
/// column in stripe 0 and one column further left with each stripe, and its data units follow the
/// check unit to the right, around the end. (raid(4); Lee and Katz, "The Performance of Parity
/// Placements in Disk Arrays".)
#[derive(Clone, Copy, Debug, PartialEq, Eq)]
pub struct Raid5 {
    columns: u32,
    unit_sectors: u32,
    rows: u32,
    ghost columns_least: { 2 ≤ columns },
    ghost columns_most: { columns ≤ 32 },
    ghost unit_least: { 1 ≤ unit_sectors },
    ghost unit_most: { unit_sectors ≤ 128 },
    ghost rows_least: { 1 ≤ rows },
    ghost rows_most: { rows ≤ 1048576 },
}

impl Raid5 {
    /// Level 5 over so many columns, with units of so many sectors, and as many stripes as rows.
    ///
    /// # Errors
    ///
    /// In this order:
    ///
    /// - `Columns` where there aren't 2 to 32 columns;
    /// - `Unit` where a unit isn't of 1 to 128 sectors;
    /// - `Rows` where there aren't 1 to 1,048,576 rows.
    pub fn new(columns: u32, unit_sectors: u32, rows: u32) -> Result<Self, MakeFault>
        ensures made { IfOk result (λ layout. ⟦<Raid5 as Layout>⟧.shape layout
            ≡ left_symmetric columns unit_sectors rows) }
        ensures columns { IsErrOf result MakeFault.Columns ↔ IsOutside 2 32 columns }
        ensures unit { IsErrOf result MakeFault.Unit ↔
            (IsBetween 2 32 columns × IsOutside 1 128 unit_sectors) }
        ensures rows { IsErrOf result MakeFault.Rows ↔
            (IsBetween 2 32 columns × IsBetween 1 128 unit_sectors × IsOutside 1 1048576 rows) }
    {
        if !(2..=limits::COLUMNS).contains(&columns) {
            return Err(MakeFault::Columns);
        }
        if !(1..=limits::UNIT_SECTORS).contains(&unit_sectors) {
            return Err(MakeFault::Unit);
        }
        if !(1..=limits::STRIPES).contains(&rows) {
            return Err(MakeFault::Rows);
        }
        Ok(Raid5 {
            columns,
            unit_sectors,
            rows,
        })
    }
}

impl Layout for Raid5 {
    ghost use Rattle.std.specs.Prelude.{◌<◌, ◌≤◌};
    ghost use Rattle.lay_plain.specs.LeftSymmetric.{left_symmetric};
    ghost use Rattle.lay_plain.specs.Rotation.{left_symmetric_lawful};

    ghost shape = { λ layout. left_symmetric layout.columns layout.unit_sectors layout.rows };

    ghost is_layout = { λ layout. left_symmetric_lawful layout.columns layout.unit_sectors layout.rows layout.columns_least layout.columns_most layout.unit_least layout.unit_most layout.rows_least layout.rows_most };

    fn columns(&self) -> u32 {
        self.columns
    }

    fn width(&self) -> u32 {
        self.columns
    }

    fn checks(&self) -> u32 {
        1
    }

    fn unit_sectors(&self) -> u32 {
        self.unit_sectors
    }

    fn stripes(&self) -> u32 {
        self.rows
    }

    fn rows(&self) -> u32 {
        self.rows
    }

    fn place(&self, stripe: u32, unit: u32) -> Place {
        let data = self.columns - 1;
        let column = if unit < data {
            // At most 1,048,575 * 31 + 30.
            (stripe * data + unit) % self.columns
        } else {
            data - stripe % self.columns
        };
        Place {
            column,
            row: stripe,
        }
    }

    fn spare_place(&self, _stripe: u32) -> Option<Place> {
        None
    }
}
