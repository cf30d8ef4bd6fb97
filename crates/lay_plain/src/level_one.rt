//! Level 1: mirrored pairs of columns.
ghost use Rattle.std.specs.Prelude.{◌≡◌, ◌<◌, ◌≤◌, ◌*◌, ◌/◌, ◌%◌, IfOk, IsErrOf, ◌↔◌, ◌⊎◌};
ghost use Rattle.lay_plain.specs.Mirrored.{mirrored, ArePairs, AreNoPairs};
ghost use Rattle.lay_plain.specs.Limits.{IsBetween, IsOutside};

use crate::fault::MakeFault;
use blk_plain::limits;
use lay_core::{Layout, Place};

/// Level 1: a stripe is a unit and its copy, on the two columns of a pair. Stripes go to the pairs in
/// turn, so that blocks are striped over them. (raid(4).)
#[derive(Clone, Copy, Debug, PartialEq, Eq)]
pub struct Raid1 {
    columns: u32,
    unit_sectors: u32,
    rows: u32,
    ghost columns_even: { columns % 2 ≡ 0 },
    ghost columns_least: { 2 ≤ columns },
    ghost columns_most: { columns ≤ 32 },
    ghost unit_least: { 1 ≤ unit_sectors },
    ghost unit_most: { unit_sectors ≤ 128 },
    ghost rows_least: { 1 ≤ rows },
    ghost stripes_most: { columns / 2 * rows ≤ 1048576 },
}

impl Raid1 {
    /// Level 1 over so many columns, with units of so many sectors; a row has a stripe for each pair.
    ///
    /// # Errors
    ///
    /// In this order:
    ///
    /// - `Columns` where there aren't 2 to 32 columns, or an odd number;
    /// - `Unit` where a unit isn't of 1 to 128 sectors;
    /// - `Rows` where there are no rows, or they make more than 1,048,576 stripes.
    pub fn new(columns: u32, unit_sectors: u32, rows: u32) -> Result<Self, MakeFault>
        ensures made { IfOk result
            (λ layout. ⟦<Raid1 as Layout>⟧.shape layout ≡ mirrored columns unit_sectors rows) }
        ensures columns { IsErrOf result MakeFault.Columns ↔ AreNoPairs columns }
        ensures unit { IsErrOf result MakeFault.Unit ↔
            (ArePairs columns × IsOutside 1 128 unit_sectors) }
        ensures rows { IsErrOf result MakeFault.Rows ↔ (ArePairs columns
            × IsBetween 1 128 unit_sectors × ((rows < 1) ⊎ (1048576 < columns / 2 * rows))) }
    {
        if !(2..=limits::COLUMNS).contains(&columns) || columns % 2 == 1 {
            return Err(MakeFault::Columns);
        }
        if !(1..=limits::UNIT_SECTORS).contains(&unit_sectors) {
            return Err(MakeFault::Unit);
        }
        if rows < 1 || u64::from(columns / 2) * u64::from(rows) > limits::STRIPES as u64 {
            return Err(MakeFault::Rows);
        }
        Ok(Raid1 {
            columns,
            unit_sectors,
            rows,
        })
    }
}

impl Layout for Raid1 {
    ghost use Rattle.lay_plain.specs.Mirrored.{mirrored, mirrored_lawful};

    ghost shape = { λ layout. mirrored layout.columns layout.unit_sectors layout.rows };

    ghost is_layout = { λ layout. mirrored_lawful layout.columns layout.unit_sectors layout.rows layout.columns_even layout.columns_least layout.columns_most layout.unit_least layout.unit_most layout.rows_least layout.stripes_most };

    fn columns(&self) -> u32 {
        self.columns
    }

    fn width(&self) -> u32 {
        2
    }

    fn checks(&self) -> u32 {
        1
    }

    fn unit_sectors(&self) -> u32 {
        self.unit_sectors
    }

    fn stripes(&self) -> u32 {
        self.columns / 2 * self.rows
    }

    fn rows(&self) -> u32 {
        self.rows
    }

    fn place(&self, stripe: u32, unit: u32) -> Place {
        let pairs = self.columns / 2;
        Place {
            column: 2 * (stripe % pairs) + unit,
            row: stripe / pairs,
        }
    }

    fn spare_place(&self, _stripe: u32) -> Option<Place> {
        None
    }
}
