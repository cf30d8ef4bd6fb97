//! Level 5 over three columns. Its units lie, in stripes 0, 1 and 2 and again in 3, 4 and 5, on the
//! columns 0 1 2, 2 0 1 and 1 2 0.
ghost use Rattle.eng_cols.specs.Cols.{IsFor};
ghost use Rattle.eng_cols.specs.Samples.{rotated};

use super::asked::{Row, column_is, ends, is_whole, keep, lacks, stand, wait};
use super::layouts::Rotated;
use eng_cols::{Cols, Column};
use std::process::Abort;
use std::test::Fail;

#[test]
fn at_first_all_columns_are_dead(rt: HostRuntime) -> Result<(), Fail> {
    let cols = Cols::with_room(rt.alloc(), 3, 6)?;
    for column in 0..3 {
        column_is(&rt, &cols, &Rotated, column, Column::Dead);
    }
    lacks(&rt, &cols, &Rotated, 4, 0);
    Ok(())
}

#[test]
fn units_stand_at_their_places_on_live_columns(rt: HostRuntime) -> Result<(), Fail> {
    let mut cols = Cols::with_room(rt.alloc(), 3, 6)?;
    cols.set(
        &Rotated,
        &[
            Column::Live { device: 7 },
            Column::Live { device: 4 },
            Column::Live { device: 9 },
        ],
    );
    stand(
        &rt,
        &cols,
        &Rotated,
        &[
            (0, 0, (0, 7, 0)),
            (0, 1, (1, 4, 0)),
            (0, 2, (2, 9, 0)),
            (1, 0, (2, 9, 1)),
            (1, 1, (0, 7, 1)),
            (1, 2, (1, 4, 1)),
            (5, 0, (1, 4, 5)),
            (5, 1, (2, 9, 5)),
            (5, 2, (0, 7, 5)),
        ],
    );
    Ok(())
}

// The units on column 1 and their places there, on device 3.
const ON_ONE: [Row; 6] = [
    (0, 1, (1, 3, 0)),
    (1, 2, (1, 3, 1)),
    (2, 0, (1, 3, 2)),
    (3, 1, (1, 3, 3)),
    (4, 2, (1, 3, 4)),
    (5, 0, (1, 3, 5)),
];

// The rebuild of stripe 0 ends, and no other one.
// Of column 1 so many stripes are done, from the first on.
fn filled_by(rt: &impl Abort, cols: &Cols, done: u32)
    requires { IsFor rotated cols.now }
{
    column_is(rt, cols, &Rotated, 1, Column::Filling { device: 3, done });
}

fn stripe_0_ends(rt: &impl Abort, cols: &mut Cols)
    requires { IsFor rotated cols.old }
    ensures { IsFor rotated cols.new }
{
    ends(rt, cols, &Rotated, 0, 1);
    stand(rt, cols, &Rotated, &[(0, 1, (1, 3, 0)), (0, 2, (2, 2, 0))]);
    wait(rt, cols, &Rotated, &[(3, 1, (1, 3, 3))]);
    filled_by(rt, cols, 1);
}

fn the_others_end(rt: &impl Abort, cols: &mut Cols)
    requires { IsFor rotated cols.old }
    ensures { IsFor rotated cols.new }
{
    ends(rt, cols, &Rotated, 5, 0);
    filled_by(rt, cols, 1);
    ends(rt, cols, &Rotated, 1, 2);
    filled_by(rt, cols, 2);
    ends(rt, cols, &Rotated, 2, 0);
    ends(rt, cols, &Rotated, 4, 2);
    is_whole(rt, cols, &Rotated, 1, false);
    ends(rt, cols, &Rotated, 3, 1);
    is_whole(rt, cols, &Rotated, 1, true);
    filled_by(rt, cols, 6);
    keep(rt, cols, &Rotated);
}

#[test]
fn a_stripe_is_done_as_its_rebuild_ends(rt: HostRuntime) -> Result<(), Fail> {
    let mut cols = Cols::with_room(rt.alloc(), 3, 6)?;
    cols.set(
        &Rotated,
        &[
            Column::Live { device: 0 },
            Column::Dead,
            Column::Live { device: 2 },
        ],
    );
    lacks(&rt, &cols, &Rotated, 1, 2);
    cols.fill(1, 3);
    filled_by(&rt, &cols, 0);
    wait(&rt, &cols, &Rotated, &ON_ONE);
    stand(&rt, &cols, &Rotated, &[(0, 0, (0, 0, 0))]);
    stripe_0_ends(&rt, &mut cols);
    the_others_end(&rt, &mut cols);
    stand(&rt, &cols, &Rotated, &ON_ONE);

    // A death forgets what was done.
    cols.kill(1);
    column_is(&rt, &cols, &Rotated, 1, Column::Dead);
    lacks(&rt, &cols, &Rotated, 0, 1);
    Ok(())
}

#[test]
fn a_column_set_filling_has_its_first_stripes_done(rt: HostRuntime) -> Result<(), Fail> {
    let mut cols = Cols::with_room(rt.alloc(), 3, 6)?;
    let columns = [
        Column::Live { device: 0 },
        Column::Live { device: 1 },
        Column::Filling { device: 5, done: 2 },
    ];
    cols.set(&Rotated, &columns);
    stand(&rt, &cols, &Rotated, &[(1, 0, (2, 5, 1))]);
    wait(&rt, &cols, &Rotated, &[(2, 1, (2, 5, 2))]);
    column_is(&rt, &cols, &Rotated, 2, columns[2]);
    ends(&rt, &mut cols, &Rotated, 3, 2);
    column_is(&rt, &cols, &Rotated, 2, columns[2]);
    is_whole(&rt, &cols, &Rotated, 2, false);
    is_whole(&rt, &cols, &Rotated, 0, true);
    cols.set(&Rotated, &columns);
    wait(&rt, &cols, &Rotated, &[(3, 2, (2, 5, 3))]);
    Ok(())
}
