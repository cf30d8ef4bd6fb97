//! What an array is lost by, at each layout.
ghost use Rattle.std.specs.Prelude.{◌≡◌, ◌≤◌, length, count_by};
ghost use Rattle.eng_cols.specs.Cols.{IsFor, is_set_filling, is_set_spread};
ghost use Rattle.eng_cols.specs.Samples.{rotated, spared};

use super::layouts::{Rotated, Striped};
use crate::judging::same;
use eng_cols::samples::Spared;
use eng_cols::{Cols, Column, Loss};
use lay_core::Layout;
use std::process::Abort;
use std::test::Fail;

const ON: [Column; 4] = [
    Column::Live { device: 0 },
    Column::Live { device: 1 },
    Column::Live { device: 2 },
    Column::Live { device: 3 },
];

fn by(first: u32, second: u32, stripe: u32) -> Option<Loss> {
    Some(Loss {
        first,
        second,
        stripe,
    })
}

fn lose<L: Layout>(
    rt: &impl Abort,
    cols: &mut Cols,
    layout: &L,
    columns: &[Column],
    want: Option<Loss>,
)
    requires layout { IsFor (L.shape layout.now) cols.old }
    requires entries { length columns.now ≡ length cols.old.states }
    requires filling { count_by is_set_filling columns.now ≤ 1 }
    requires spread { count_by is_set_spread columns.now ≤ 1 }
    ensures { IsFor (L.shape layout.now) cols.new }
{
    cols.set(layout, columns);
    same(rt, cols.lost(layout), want);
}

const DEAD: Column = Column::Dead;

const FILLING: Column = Column::Filling { device: 3, done: 0 };

const SPREAD: Column = Column::Spread;

// One missing unit of a stripe is none too many.
fn one_is_kept(rt: &impl Abort, cols: &mut Cols)
    requires { IsFor rotated cols.old }
    ensures { IsFor rotated cols.new }
{
    lose(rt, cols, &Rotated, &[ON[0], ON[1], ON[2]], None);
    lose(rt, cols, &Rotated, &[ON[0], DEAD, ON[2]], None);
    lose(rt, cols, &Rotated, &[FILLING, ON[1], ON[2]], None);
}

#[test]
fn with_a_check_unit_two_missing_units_of_a_stripe_lose_it(rt: HostRuntime) -> Result<(), Fail> {
    let mut cols = Cols::with_room(rt.alloc(), 3, 6)?;
    one_is_kept(&rt, &mut cols);
    lose(&rt, &mut cols, &Rotated, &[DEAD, ON[1], DEAD], by(0, 2, 0));
    lose(
        &rt,
        &mut cols,
        &Rotated,
        &[FILLING, DEAD, ON[2]],
        by(0, 1, 0),
    );
    lose(&rt, &mut cols, &Rotated, &[DEAD, DEAD, DEAD], by(0, 1, 0));
    Ok(())
}

#[test]
fn without_one_a_single_missing_unit_loses_it(rt: HostRuntime) -> Result<(), Fail> {
    let mut cols = Cols::with_room(rt.alloc(), 2, 4)?;
    lose(&rt, &mut cols, &Striped, &[ON[0], ON[1]], None);
    lose(&rt, &mut cols, &Striped, &[ON[0], DEAD], by(1, 1, 0));
    lose(&rt, &mut cols, &Striped, &[DEAD, DEAD], by(0, 0, 0));
    Ok(())
}

// Of two of four columns, one may be dead and the other one spread.
fn spread_and_dead_are_kept(rt: &impl Abort, cols: &mut Cols)
    requires { IsFor spared cols.old }
    ensures { IsFor spared cols.new }
{
    lose(rt, cols, &Spared, &[SPREAD, ON[1], ON[2], DEAD], None);
    lose(rt, cols, &Spared, &[SPREAD, DEAD, ON[2], ON[3]], None);
}

// Two dead columns of four lose the least stripe that has a unit on both, which isn't the first one
// here. The columns come in order, though the stripe's first missing unit lies on the higher one.
#[test]
fn with_spare_places_two_deaths_lose_the_least_stripe_on_both(rt: HostRuntime) -> Result<(), Fail> {
    let mut cols = Cols::with_room(rt.alloc(), 4, 4)?;
    lose(&rt, &mut cols, &Spared, &[DEAD, ON[1], ON[2], ON[3]], None);
    lose(
        &rt,
        &mut cols,
        &Spared,
        &[DEAD, ON[1], ON[2], DEAD],
        by(0, 3, 2),
    );
    spread_and_dead_are_kept(&rt, &mut cols);
    lose(
        &rt,
        &mut cols,
        &Spared,
        &[SPREAD, DEAD, DEAD, ON[3]],
        by(1, 2, 0),
    );
    Ok(())
}
