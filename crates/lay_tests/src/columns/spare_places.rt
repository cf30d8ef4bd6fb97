//! Three units and a spare place on four columns: in stripes 0 to 3 the units lie on the columns
//! 0 1 2, 1 2 3, 2 3 0 and 3 0 1, and the spare places on 3, 0, 1 and 2.
ghost use Rattle.eng_cols.specs.Cols.{IsFor};
ghost use Rattle.eng_cols.specs.Samples.{spared};

use super::asked::{Row, column_is, ends, is_whole, keep, lacks, stand, wait};
use eng_cols::samples::Spared;
use eng_cols::{Cols, Column};
use std::process::Abort;
use std::test::Fail;

// The units on column 0 and their spare places.
const ON_ZERO: [Row; 3] = [(0, 0, (3, 8, 0)), (2, 2, (1, 6, 2)), (3, 1, (2, 7, 3))];

// The rebuilds of all units on column 0 end.
fn column_0_is_rebuilt(rt: &impl Abort, cols: &mut Cols)
    requires { IsFor spared cols.old }
    ensures { IsFor spared cols.new }
{
    ends(rt, cols, &Spared, 0, 0);
    ends(rt, cols, &Spared, 2, 2);
    is_whole(rt, cols, &Spared, 0, false);
    ends(rt, cols, &Spared, 3, 1);
    is_whole(rt, cols, &Spared, 0, true);
    keep(rt, cols, &Spared);
}

// With column 3 the spare place of stripe 0 dies, and no other one.
fn column_3_dies(rt: &impl Abort, cols: &mut Cols)
    requires { IsFor spared cols.old }
{
    cols.kill(3);
    lacks(rt, cols, &Spared, 0, 0);
    stand(rt, cols, &Spared, &[(2, 2, (1, 6, 2))]);
    keep(rt, cols, &Spared);
}

#[test]
fn a_spread_columns_units_go_to_their_spare_places(rt: HostRuntime) -> Result<(), Fail> {
    let mut cols = Cols::with_room(rt.alloc(), 4, 4)?;
    cols.set(
        &Spared,
        &[
            Column::Live { device: 5 },
            Column::Live { device: 6 },
            Column::Live { device: 7 },
            Column::Live { device: 8 },
        ],
    );
    stand(&rt, &cols, &Spared, &[(2, 2, (0, 5, 2))]);
    cols.kill(0);
    lacks(&rt, &cols, &Spared, 2, 2);
    cols.spread(0);
    column_is(&rt, &cols, &Spared, 0, Column::Spread);
    wait(&rt, &cols, &Spared, &ON_ZERO);
    // Stripe 1 has its spare place on column 0, and no unit.
    stand(&rt, &cols, &Spared, &[(1, 0, (1, 6, 1))]);
    column_0_is_rebuilt(&rt, &mut cols);
    stand(&rt, &cols, &Spared, &ON_ZERO);
    column_3_dies(&rt, &mut cols);
    Ok(())
}

// The rebuilds of all units on column 3 end, and of the one whose spare place is there.
fn column_3_is_rebuilt(rt: &impl Abort, cols: &mut Cols)
    requires { IsFor spared cols.old }
    ensures { IsFor spared cols.new }
{
    ends(rt, cols, &Spared, 1, 2);
    ends(rt, cols, &Spared, 2, 1);
    ends(rt, cols, &Spared, 3, 0);
    is_whole(rt, cols, &Spared, 3, false);
    ends(rt, cols, &Spared, 0, 0);
    is_whole(rt, cols, &Spared, 3, true);
}

#[test]
fn spare_places_in_use_are_filled_again(rt: HostRuntime) -> Result<(), Fail> {
    let mut cols = Cols::with_room(rt.alloc(), 4, 4)?;
    cols.set(
        &Spared,
        &[
            Column::Spread,
            Column::Live { device: 6 },
            Column::Live { device: 7 },
            Column::Dead,
        ],
    );
    stand(&rt, &cols, &Spared, &[(2, 2, (1, 6, 2))]);
    lacks(&rt, &cols, &Spared, 0, 0);
    is_whole(&rt, &cols, &Spared, 0, true);
    is_whole(&rt, &cols, &Spared, 3, false);
    cols.fill(3, 9);
    wait(&rt, &cols, &Spared, &[(1, 2, (3, 9, 1)), (0, 0, (3, 9, 0))]);
    column_3_is_rebuilt(&rt, &mut cols);
    stand(&rt, &cols, &Spared, &[(0, 0, (3, 9, 0)), (3, 0, (3, 9, 3))]);
    Ok(())
}
