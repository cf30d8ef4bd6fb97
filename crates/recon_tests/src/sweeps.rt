//! Level 5 on three columns: in stripes 0, 1 and 2, and so on, the units lie on the columns 0 1 2,
//! 2 0 1 and 1 2 0, the check unit last.
use crate::asked::{ALL, Filled, Row, Sweep, begins, counted, devices, have_calls, swept};
use crate::judging::{same, same_at};
use blk_disk::MemDisk;
use eng_cols::Column;
use lay_core::Layout;
use lay_plain::{Raid0, Raid5};
use std::alloc::Global;
use std::process::Abort;
use std::test::Fail;

// The check unit of stripe 0 alone isn't zero.
const WRONG: &[Option<Filled>] = &[Some((64, 1, 0)), Some((64, 1, 0)), Some((64, 1, 0xff))];

// The sweeps that are made in turn, what each answers, and the byte that the check unit then has.
const SWEEPS: &[(Sweep, u64, u8)] = &[
    (Sweep::Check, 1, 0xff),
    (Sweep::Sync, 1, 0),
    (Sweep::Sync, 0, 0),
    (Sweep::Check, 0, 0),
    (Sweep::Init, 64, 0),
];

#[test]
fn one_check_unit_of_sixty_four_is_found_and_rewritten(rt: HostRuntime) -> Result<(), Fail> {
    let alloc = rt.alloc();
    let layout = Raid5::new(3, 1, 64)?;
    let mut devices = devices(alloc, 128, WRONG, None)?;
    let mut columns = ALL;
    for row in SWEEPS {
        let (kind, answer, held) = *row;
        let found = swept(alloc, kind, &layout, &mut columns, devices.as_mut_slice())?;
        same_at(&rt, kind, found, answer);
        begins(&rt, &devices, 2, 64, held);
    }
    same(&rt, columns, ALL);
    same(&rt, counted(&layout, &columns, 1), Some(64));
    Ok(())
}

// Two stripes of units of two sectors; the second one's second data unit, on column 0, isn't zero.
const LARGE: &[Option<Filled>] = &[Some((67, 1, 0x0f)), Some((64, 1, 0)), Some((64, 1, 0))];

const CALLS: &[Row] = &[
    (
        Sweep::Check,
        1,
        &[
            &[(0, 64, 2, true), (0, 66, 2, true)],
            &[(0, 64, 2, true), (0, 66, 2, true)],
            &[(0, 64, 2, true), (0, 66, 2, true)],
        ],
    ),
    (
        Sweep::Sync,
        1,
        &[
            &[(0, 64, 2, true), (0, 66, 2, true)],
            &[(0, 64, 2, true), (0, 66, 2, true), (1, 66, 2, true)],
            &[(0, 64, 2, true), (0, 66, 2, true)],
        ],
    ),
    (
        Sweep::Init,
        2,
        &[
            &[(0, 64, 2, true), (0, 66, 2, true)],
            &[(0, 64, 2, true), (1, 66, 2, true)],
            &[(1, 64, 2, true), (0, 66, 2, true)],
        ],
    ),
];

// A sweep of the two stripes answers so and has such calls; it rewrites the check unit, or leaves it.
fn is_swept(rt: &impl Abort, alloc: Global, row: Row) -> Result<(), Fail> {
    let (kind, answer, calls) = row;
    let layout = Raid5::new(3, 2, 2)?;
    let mut devices = devices(alloc, 68, LARGE, None)?;
    let mut columns = ALL;
    let found = swept(alloc, kind, &layout, &mut columns, devices.as_mut_slice())?;
    same_at(rt, kind, found, answer);
    have_calls(rt, &devices, calls);
    let rewritten = if kind == Sweep::Check { 0 } else { 0x0f };
    begins(rt, &devices, 1, 66, 0);
    begins(rt, &devices, 1, 67, rewritten);
    Ok(())
}

#[test]
fn each_unit_is_read_by_one_call_and_a_check_unit_written_by_one(
    rt: HostRuntime,
) -> Result<(), Fail> {
    for row in CALLS {
        is_swept(&rt, rt.alloc(), *row)?;
    }
    Ok(())
}

// Columns 0 and 2 of three, and two columns of level 0, with units that aren't zero.
const LACKING: &[Option<Filled>] = &[Some((64, 1, 0x3c)), None, Some((65, 1, 0x3c))];

const TWO: &[Option<Filled>] = &[Some((64, 1, 0x3c)), Some((65, 1, 0x3c))];

// The sweep of these columns over such devices of 67 sectors answers 0, and none has a call.
fn is_left_alone<L: Layout>(
    rt: &impl Abort,
    alloc: Global,
    kind: Sweep,
    layout: &L,
    columns: &mut [Column],
    filled: &[Option<Filled>],
) -> Result<(), Fail> {
    let mut devices = devices(alloc, 67, filled, None)?;
    let found = swept(alloc, kind, layout, columns, devices.as_mut_slice())?;
    same_at(rt, kind, found, 0);
    have_calls(rt, &devices, &[&[], &[], &[]]);
    Ok(())
}

#[test]
fn stripes_that_lack_a_unit_and_level_0_are_left_alone(rt: HostRuntime) -> Result<(), Fail> {
    let alloc = rt.alloc();
    let five = Raid5::new(3, 1, 3)?;
    let none = Raid0::new(2, 1, 3)?;
    for kind in [Sweep::Check, Sweep::Sync, Sweep::Init] {
        let mut columns = [ALL[0], Column::Dead, ALL[2]];
        is_left_alone(&rt, alloc, kind, &five, &mut columns, LACKING)?;
        let mut columns = [ALL[0], ALL[1]];
        is_left_alone(&rt, alloc, kind, &none, &mut columns, TWO)?;
    }
    Ok(())
}
