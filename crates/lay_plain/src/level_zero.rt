//! Level 0: data units alone.
ghost use Rattle.std.specs.Prelude.{◌≡◌, ◌<◌, ◌≤◌, IfOk, IsErrOf, ◌↔◌, ◌⊎◌};
ghost use Rattle.lay_plain.specs.Straight.{striped};
ghost use Rattle.lay_plain.specs.Limits.{IsBetween, IsOutside};

use crate::fault::MakeFault;
use blk_plain::limits;
use lay_core::{Layout, Place};

/// Level 0: a stripe is a row of all columns, and each of its units is a data unit. (raid(4).)
#[derive(Clone, Copy, Debug, PartialEq, Eq)]
pub struct Raid0 {
    columns: u32,
    unit_sectors: u32,
    rows: u32,
    ghost columns_least: { 1 ≤ columns },
    ghost columns_most: { columns ≤ 32 },
    ghost unit_least: { 1 ≤ unit_sectors },
    ghost unit_most: { unit_sectors ≤ 128 },
    ghost rows_least: { 1 ≤ rows },
    ghost rows_most: { rows ≤ 1048576 },
}

impl Raid0 {
    /// Level 0 over so many columns, with units of so many sectors, and as many stripes as rows.
    ///
    /// # Errors
    ///
    /// In this order:
    ///
    /// - `Columns` where there aren't 1 to 32 columns;
    /// - `Unit` where a unit isn't of 1 to 128 sectors;
    /// - `Rows` where there aren't 1 to 1,048,576 rows.
    pub fn new(columns: u32, unit_sectors: u32, rows: u32) -> Result<Self, MakeFault>
        ensures made { IfOk result
            (λ layout. ⟦<Raid0 as Layout>⟧.shape layout ≡ striped columns unit_sectors rows) }
        ensures columns { IsErrOf result MakeFault.Columns ↔ IsOutside 1 32 columns }
        ensures unit { IsErrOf result MakeFault.Unit ↔
            (IsBetween 1 32 columns × IsOutside 1 128 unit_sectors) }
        ensures rows { IsErrOf result MakeFault.Rows ↔
            (IsBetween 1 32 columns × IsBetween 1 128 unit_sectors × IsOutside 1 1048576 rows) }
    {
        if !(1..=limits::COLUMNS).contains(&columns) {
            return Err(MakeFault::Columns);
        }
        if !(1..=limits::UNIT_SECTORS).contains(&unit_sectors) {
            return Err(MakeFault::Unit);
        }
        if !(1..=limits::STRIPES).contains(&rows) {
            return Err(MakeFault::Rows);
        }
        Ok(Raid0 {
            columns,
            unit_sectors,
            rows,
        })
    }
}

impl Layout for Raid0 {
    ghost use Rattle.lay_plain.specs.Straight.{striped, striped_lawful};

    ghost shape = { λ layout. striped layout.columns layout.unit_sectors layout.rows };

    ghost is_layout = { λ layout. striped_lawful layout.columns layout.unit_sectors layout.rows layout.columns_least layout.columns_most layout.unit_least layout.unit_most layout.rows_least layout.rows_most };

    fn columns(&self) -> u32 {
        self.columns
    }

    fn width(&self) -> u32 {
        self.columns
    }

    fn checks(&self) -> u32 {
        0
    }

    fn unit_sectors(&self) -> u32 {
        self.unit_sectors
    }

    fn stripes(&self) -> u32 {
        self.rows
    }

    fn rows(&self) -> u32 {
        self.rows
    }

    fn place(&self, stripe: u32, unit: u32) -> Place {
        Place {
            column: unit,
            row: stripe,
        }
    }

    fn spare_place(&self, _stripe: u32) -> Option<Place> {
        None
    }
}
