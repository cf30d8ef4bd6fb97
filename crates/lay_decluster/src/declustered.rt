//! Level T: parity declustering.
ghost use Rattle.std.specs.Prelude.{◌≡◌, ◌<◌, ◌≤◌, ◌*◌, IfOk, IsErrOf, ◌↔◌};
ghost use Rattle.lay_decluster.specs.Shapes.{declustered};
ghost use Rattle.lay_decluster.specs.Limits.{IsUnit, IsNoUnit, AreNoTables, IsTabled, table_stripes};
ghost use Rattle.lay_decluster.specs.Balance.{IsBalanced};

use crate::fault::TableFault;
use crate::limits::{check_numbers, stripes_in};
use crate::positions::unit_position;
use crate::table::Table;
use lay_core::{Layout, Place};
use lay_design::Design;
use std::alloc::Global;

/// Level T: a stripe has a unit at each position of a tuple. The design is repeated as often as a
/// tuple has objects, which makes a full table, and the check unit moves on by one position with
/// each copy. Full tables follow one another. (Holland and Gibson.)
#[derive(Drop)]
pub struct Declustered {
    table: Table,
    unit_sectors: u32,
    rows: u32,
    ghost tabled: { IsTabled table unit_sectors rows },
}

impl Declustered {
    /// Level T over a design's objects as columns, with units of so many sectors. A full table of
    /// k r rows has k b stripes.
    ///
    /// In each full table any two columns share lambda k stripes, and each column has r check units.
    ///
    /// # Errors
    ///
    /// In this order:
    ///
    /// - `Unit` where a unit isn't of 1 to 128 sectors;
    /// - `Rows` where the rows aren't a whole number of full tables, there are none, or they make
    ///   more than 1,048,576 stripes;
    /// - `Memory` where there is none for the table, of b k numbers.
    pub fn new(
        alloc: Global,
        design: Design,
        unit_sectors: u32,
        rows: u32,
    ) -> Result<Declustered, TableFault>
        ensures made { IfOk result (λ layout. ⟦<Declustered as Layout>⟧.shape layout
            ≡ declustered design unit_sectors rows) }
        ensures width { ¬ (IsErrOf result TableFault.Width) }
        ensures unit { IsErrOf result TableFault.Unit ↔ IsNoUnit unit_sectors }
        ensures rows { IsErrOf result TableFault.Rows ↔
            (IsUnit unit_sectors × AreNoTables design rows) }
        ensures balanced { IfOk result
            (λ layout. IsBalanced (⟦<Declustered as Layout>⟧.shape layout) (table_stripes design)
            (design.lambda * design.k) design.r 0) }
    {
        if let Err(fault) = check_numbers(&design, unit_sectors, rows) {
            return Err(fault);
        }
        match Table::new(alloc, design) {
            Ok(table) => Ok(Declustered {
                table,
                unit_sectors,
                rows,
            }),
            Err(_) => Err(TableFault::Memory),
        }
    }
}

impl Layout for Declustered {
    ghost use Rattle.lay_decluster.specs.Shapes.{declustered, declustered_lawful};

    ghost shape = { λ layout. declustered layout.table layout.unit_sectors layout.rows };

    ghost is_layout = { λ layout. declustered_lawful layout.table layout.unit_sectors layout.rows layout.tabled };

    fn columns(&self) -> u32 {
        self.table.design().v()
    }

    fn width(&self) -> u32 {
        self.table.design().k()
    }

    fn checks(&self) -> u32 {
        1
    }

    fn unit_sectors(&self) -> u32 {
        self.unit_sectors
    }

    fn stripes(&self) -> u32 {
        stripes_in(self.table.design(), self.rows) as u32
    }

    fn rows(&self) -> u32 {
        self.rows
    }

    fn place(&self, stripe: u32, unit: u32) -> Place {
        let copy = self.table.copy_of(stripe);
        let position = unit_position(self.table.design().k(), copy, unit);
        self.table.seat(stripe, position)
    }

    fn spare_place(&self, _stripe: u32) -> Option<Place> {
        None
    }
}
