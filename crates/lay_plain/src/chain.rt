//! Chained declustering, level C.
ghost use Rattle.std.specs.Prelude.{◌≡◌, ◌<◌, ◌≤◌, ◌*◌, ◌/◌, ◌%◌, IfOk, IsErrOf, ◌↔◌, ◌⊎◌};
ghost use Rattle.lay_plain.specs.Chained.{chained, AreNoRounds};
ghost use Rattle.lay_plain.specs.Limits.{IsBetween, IsOutside};

use crate::fault::MakeFault;
use blk_plain::limits;
use lay_core::{Layout, Place};

/// Level C: a stripe is a unit and its copy on the next column, around the end. Rows go in pairs: the
/// first of two has units, the second their copies. (Hsiao and DeWitt, "Chained Declustering: A New
/// Availability Strategy for Multiprocessor Database Machines".)
#[derive(Clone, Copy, Debug, PartialEq, Eq)]
pub struct Chain {
    columns: u32,
    unit_sectors: u32,
    rows: u32,
    ghost columns_least: { 2 ≤ columns },
    ghost columns_most: { columns ≤ 32 },
    ghost unit_least: { 1 ≤ unit_sectors },
    ghost unit_most: { unit_sectors ≤ 128 },
    ghost rows_least: { 2 ≤ rows },
    ghost stripes_most: { columns * (rows / 2) ≤ 1048576 },
}

impl Chain {
    /// Level C over so many columns, with units of so many sectors; two rows have a stripe for each
    /// column.
    ///
    /// # Errors
    ///
    /// In this order:
    ///
    /// - `Columns` where there aren't 2 to 32 columns;
    /// - `Unit` where a unit isn't of 1 to 128 sectors;
    /// - `Rows` where there are fewer than 2 rows, or an odd number, or they make more than 1,048,576
    ///   stripes.
    pub fn new(columns: u32, unit_sectors: u32, rows: u32) -> Result<Self, MakeFault>
        ensures made { IfOk result
            (λ layout. ⟦<Chain as Layout>⟧.shape layout ≡ chained columns unit_sectors rows) }
        ensures columns { IsErrOf result MakeFault.Columns ↔ IsOutside 2 32 columns }
        ensures unit { IsErrOf result MakeFault.Unit ↔
            (IsBetween 2 32 columns × IsOutside 1 128 unit_sectors) }
        ensures rows { IsErrOf result MakeFault.Rows ↔
            (IsBetween 2 32 columns × IsBetween 1 128 unit_sectors × AreNoRounds columns rows) }
    {
        if !(2..=limits::COLUMNS).contains(&columns) {
            return Err(MakeFault::Columns);
        }
        if !(1..=limits::UNIT_SECTORS).contains(&unit_sectors) {
            return Err(MakeFault::Unit);
        }
        if rows < 2
            || rows % 2 == 1
            || u64::from(columns) * u64::from(rows / 2) > limits::STRIPES as u64
        {
            return Err(MakeFault::Rows);
        }
        Ok(Chain {
            columns,
            unit_sectors,
            rows,
        })
    }
}

impl Layout for Chain {
    ghost use Rattle.lay_plain.specs.Chained.{chained, chained_lawful};

    ghost shape = { λ layout. chained layout.columns layout.unit_sectors layout.rows };

    ghost is_layout = { λ layout. chained_lawful layout.columns layout.unit_sectors layout.rows layout.columns_least layout.columns_most layout.unit_least layout.unit_most layout.rows_least layout.stripes_most };

    fn columns(&self) -> u32 {
        self.columns
    }

    fn width(&self) -> u32 {
        2
    }

    fn checks(&self) -> u32 {
        1
    }

    fn unit_sectors(&self) -> u32 {
        self.unit_sectors
    }

    fn stripes(&self) -> u32 {
        self.columns * (self.rows / 2)
    }

    fn rows(&self) -> u32 {
        self.rows
    }

    fn place(&self, stripe: u32, unit: u32) -> Place {
        Place {
            column: (stripe + unit) % self.columns,
            row: 2 * (stripe / self.columns) + unit,
        }
    }

    fn spare_place(&self, _stripe: u32) -> Option<Place> {
        None
    }
}
