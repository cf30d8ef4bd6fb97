//! The numbers that a declustered layout may be made of.
ghost use Rattle.std.specs.Prelude.{◌≡◌, ◌<◌, ◌↔◌, IsErrOf, OnOk};
ghost use Rattle.lay_decluster.specs.Limits.{IsUnit, IsNoUnit, AreNoTables, IsTabled, stripes_in};

use crate::fault::TableFault;
use blk_plain::limits;
use lay_design::Design;

pub(crate) fn stripes_in(design: &Design, rows: u32) -> u64
    ensures { result ≡ stripes_in design.now rows }
{
    let table_rows = design.k() * design.r();
    let table_stripes = design.k() * design.b();
    u64::from(table_stripes) * u64::from(rows / table_rows)
}

/// The refusals that both levels share: of the unit, then of the rows.
pub(crate) fn check_numbers(design: &Design, unit_sectors: u32, rows: u32) -> Result<(), TableFault>
    ensures ok { OnOk result (IsTabled design.now unit_sectors rows) }
    ensures width { ¬ (IsErrOf result TableFault.Width) }
    ensures unit { IsErrOf result TableFault.Unit ↔ IsNoUnit unit_sectors }
    ensures rows { IsErrOf result TableFault.Rows ↔
        (IsUnit unit_sectors × AreNoTables design.now rows) }
    ensures memory { ¬ (IsErrOf result TableFault.Memory) }
{
    if !(1..=limits::UNIT_SECTORS).contains(&unit_sectors) {
        return Err(TableFault::Unit);
    }
    let table_rows = design.k() * design.r();
    if rows % table_rows != 0 || rows == 0 || stripes_in(design, rows) > limits::STRIPES as u64 {
        return Err(TableFault::Rows);
    }
    Ok(())
}
