//! What tests ask of columns, for any stripe and unit.
ghost use Rattle.std.specs.Prelude.{◌<◌, length};
ghost use Rattle.eng_cols.specs.Cols.{IsFor};

use crate::judging::{same, same_at};
use eng_cols::{Cols, Column, Spot};
use lay_core::Layout;
use std::process::Abort;

/// A unit and its spot: its stripe, its number there, and the spot's column, device and row.
pub(crate) type Row = (u32, u32, (u32, u32, u32));

fn at(place: (u32, u32, u32)) -> Option<Spot> {
    let (column, device, row) = place;
    Some(Spot {
        column,
        device,
        row,
    })
}

fn spot_of<L: Layout>(cols: &Cols, layout: &L, stripe: u32, unit: u32) -> Option<Spot>
    requires { IsFor (L.shape layout.now) cols.now }
{
    if stripe < layout.stripes() && unit < layout.width() {
        cols.spot(layout, stripe, unit)
    } else {
        None
    }
}

fn target_of<L: Layout>(cols: &Cols, layout: &L, stripe: u32, unit: u32) -> Option<Spot>
    requires { IsFor (L.shape layout.now) cols.now }
{
    if stripe < layout.stripes() && unit < layout.width() {
        cols.target(layout, stripe, unit)
    } else {
        None
    }
}

fn is_found(rt: &impl Abort, found: Option<Spot>, want: Option<Spot>, stripe: u32, unit: u32) {
    same_at(rt, (unit, stripe), found, want);
}

fn stands<L: Layout>(rt: &impl Abort, cols: &Cols, layout: &L, row: Row)
    requires { IsFor (L.shape layout.now) cols.now }
{
    let (stripe, unit, place) = row;
    is_found(
        rt,
        spot_of(cols, layout, stripe, unit),
        at(place),
        stripe,
        unit,
    );
    is_found(
        rt,
        target_of(cols, layout, stripe, unit),
        None,
        stripe,
        unit,
    );
}

/// Each of these units stands there, and has no target.
pub(crate) fn stand<L: Layout>(rt: &impl Abort, cols: &Cols, layout: &L, units: &[Row])
    requires { IsFor (L.shape layout.now) cols.now }
{
    for row in units {
        stands(rt, cols, layout, *row);
    }
}

fn waits<L: Layout>(rt: &impl Abort, cols: &Cols, layout: &L, row: Row)
    requires { IsFor (L.shape layout.now) cols.now }
{
    let (stripe, unit, place) = row;
    is_found(rt, spot_of(cols, layout, stripe, unit), None, stripe, unit);
    is_found(
        rt,
        target_of(cols, layout, stripe, unit),
        at(place),
        stripe,
        unit,
    );
}

/// Each of these units is missing, and that is its target.
pub(crate) fn wait<L: Layout>(rt: &impl Abort, cols: &Cols, layout: &L, units: &[Row])
    requires { IsFor (L.shape layout.now) cols.now }
{
    for row in units {
        waits(rt, cols, layout, *row);
    }
}

/// The unit is missing, and has no target.
pub(crate) fn lacks<L: Layout>(rt: &impl Abort, cols: &Cols, layout: &L, stripe: u32, unit: u32)
    requires { IsFor (L.shape layout.now) cols.now }
{
    is_found(rt, spot_of(cols, layout, stripe, unit), None, stripe, unit);
    is_found(
        rt,
        target_of(cols, layout, stripe, unit),
        None,
        stripe,
        unit,
    );
}

pub(crate) fn column_is<L: Layout>(
    rt: &impl Abort,
    cols: &Cols,
    layout: &L,
    column: u32,
    want: Column,
)
    requires layout { IsFor (L.shape layout.now) cols.now }
    requires column { column < length cols.now.states }
{
    same(rt, (column, cols.column(layout, column)), (column, want));
}

/// Whether all stripes are done on the column is as it's wanted.
pub(crate) fn is_whole<L: Layout>(rt: &impl Abort, cols: &Cols, layout: &L, column: u32, want: bool)
    requires layout { IsFor (L.shape layout.now) cols.now }
    requires column { column < length cols.now.states }
{
    same(rt, (column, cols.whole(layout, column)), (column, want));
}

/// Nothing is lost.
pub(crate) fn keep<L: Layout>(rt: &impl Abort, cols: &Cols, layout: &L)
    requires { IsFor (L.shape layout.now) cols.now }
{
    same(rt, cols.lost(layout), None);
}

/// Ends the rebuild of a unit, if it has a target, and answers whether it has one.
fn end_of<L: Layout>(cols: &mut Cols, layout: &L, stripe: u32, unit: u32) -> bool
    requires { IsFor (L.shape layout.now) cols.old }
    ensures { IsFor (L.shape layout.now) cols.new }
{
    if stripe >= layout.stripes() || unit >= layout.width() {
        return false;
    }
    if cols.target(layout, stripe, unit).is_none() {
        return false;
    }
    cols.end(layout, stripe, unit);
    true
}

pub(crate) fn ends<L: Layout>(rt: &impl Abort, cols: &mut Cols, layout: &L, stripe: u32, unit: u32)
    requires { IsFor (L.shape layout.now) cols.old }
    ensures { IsFor (L.shape layout.now) cols.new }
{
    same_at(rt, (unit, stripe), end_of(cols, layout, stripe, unit), true);
}
