//! Parity declustering with spare places. The tuple 0 1 2 3 alone is a design of four objects, so stripe
//! s of a full table has its check unit on column s, its spare place on the next column around the end,
//! and its two data units on the others in order, all in row s. Column 0 is spread.
use crate::asked::{Filled, Sweep, Told, begins, counted, devices, have_calls, swept_in};
use crate::judging::same;
use eng_cols::Column;
use lay_decluster::Spared;
use lay_design::Design;
use std::alloc::Global;
use std::process::Abort;
use std::test::Fail;

const FIRST_SPREAD: [Column; 4] = [
    Column::Spread,
    Column::Live { device: 1 },
    Column::Live { device: 2 },
    Column::Live { device: 3 },
];

// In stripe 1 the unit in its spare place isn't zero, and in stripe 0 the one on column 3.
const UNITS: &[Option<Filled>] = &[None, Some((66, 0, 0)), Some((65, 1, 5)), Some((64, 1, 7))];

fn four_columns(rt: &impl Abort, alloc: Global) -> Spared {
    let design = Design::complete(alloc, 4, 4).expect(rt, "a design");
    Spared::new(alloc, design, 1, 4).expect(rt, "a layout")
}

// A sync in a room of so many bytes rewrites two check units, by such calls.
fn is_swept(rt: &impl Abort, alloc: Global, bytes: u32, calls: &[&[Told]]) -> Result<(), Fail> {
    let layout = four_columns(rt, alloc);
    let mut devices = devices(alloc, 68, UNITS, None)?;
    let mut columns = FIRST_SPREAD;
    let found = swept_in(
        alloc,
        Sweep::Sync,
        &layout,
        &mut columns,
        devices.as_mut_slice(),
        bytes,
    )?;
    same(rt, found, 2);
    have_calls(rt, &devices, calls);
    begins(rt, &devices, 1, 64, 7);
    begins(rt, &devices, 1, 65, 5);
    Ok(())
}

const SINGLE: &[&[Told]] = &[
    &[],
    &[
        (0, 64, 1, true),
        (1, 64, 1, true),
        (0, 65, 1, true),
        (1, 65, 1, true),
        (0, 66, 1, true),
        (0, 67, 1, true),
    ],
    &[
        (0, 64, 1, true),
        (0, 65, 1, true),
        (0, 66, 1, true),
        (0, 67, 1, true),
    ],
    &[
        (0, 64, 1, true),
        (0, 65, 1, true),
        (0, 66, 1, true),
        (0, 67, 1, true),
    ],
];

// Stripe 0 has its check unit in its spare place on column 1, stripe 1 its first unit on column 2, and
// stripe 2 its first unit on column 3. Stripe 3 has no unit on column 0.
#[test]
fn units_are_read_and_written_in_their_spare_places(rt: HostRuntime) -> Result<(), Fail> {
    is_swept(&rt, rt.alloc(), 1024, SINGLE)
}

const SEVERAL: &[&[Told]] = &[
    &[],
    &[
        (0, 64, 2, true),
        (1, 64, 1, true),
        (1, 65, 1, true),
        (0, 66, 2, true),
    ],
    &[(0, 64, 2, true), (0, 66, 2, true)],
    &[(0, 64, 2, true), (0, 66, 2, true)],
];

// The same where a call reads two rows: those of the stripes 0 and 1, and those of 2 and 3.
#[test]
fn rows_with_spare_places_are_read_ahead(rt: HostRuntime) -> Result<(), Fail> {
    is_swept(&rt, rt.alloc(), 512 * (1 + 4 * 2), SEVERAL)
}

// Stripes 1, 2 and 3 have a unit on column 1; stripe 0 has its spare place there, and its check unit on
// column 0.
#[test]
fn a_column_is_rebuilt_with_the_spare_places_in_use_on_it(rt: HostRuntime) {
    let layout = four_columns(&rt, rt.alloc());
    let mut columns = FIRST_SPREAD;
    columns[0] = Column::Live { device: 0 };
    columns[1] = Column::Dead;
    same(&rt, counted(&layout, &columns, 1), Some(3));
    columns[0] = Column::Spread;
    same(&rt, counted(&layout, &columns, 1), Some(4));
}

// Each of seven full tables has 21 stripes: six with a unit on column 4, and one, of tuple 1 2 4 in the
// second copy, that has its spare place there and its check unit on column 2.
#[test]
fn seven_columns_spread_the_work_of_one(rt: HostRuntime) {
    let alloc = rt.alloc();
    let design = Design::cyclic(alloc, 7, &[0, 1, 3]).expect(&rt, "a design");
    let layout = Spared::new(alloc, design, 1, 63).expect(&rt, "a layout");
    let mut columns = [Column::Live { device: 0 }; 7];
    columns[4] = Column::Dead;
    same(&rt, counted(&layout, &columns, 4), Some(42));
    columns[2] = Column::Spread;
    same(&rt, counted(&layout, &columns, 4), Some(49));
}
