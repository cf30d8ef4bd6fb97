//! A device that fails at each of its calls in turn. On three columns of level 5 with three stripes,
//! the units on column 0 alone aren't zero, so that each check unit is rewritten. Without a failure
//! the calls of single rows are
//!
//! - stripe 0: reads of 64 on devices 0, 1 and 2, a write of 64 on device 2;
//! - stripe 1: reads of 65 on devices 2, 0 and 1, a write of 65 on device 1;
//! - stripe 2: reads of 66 on devices 1, 2 and 0, a write of 66 on device 0.
//!
//! Where a call reads two rows, the last row is read alone, and the calls are
//!
//! - stripe 0: reads of 64 and 65 on devices 0, 1 and 2, a write of 64 on device 2;
//! - stripe 1: a write of 65 on device 1;
//! - stripe 2: reads of 66 on devices 1, 2 and 0, a write of 66 on device 0.
//!
//! A call that fails, of one row or two, makes its column dead, and no stripe behind it has all units.
use crate::ahead::ROOM;
use crate::asked::{ALL, Filled, Sweep, count_calls, devices, swept_in};
use crate::judging::same_at;
use eng_cols::Column;
use lay_plain::Raid5;
use std::alloc::Global;
use std::process::Abort;
use std::test::Fail;

const UNITS: &[Option<Filled>] = &[Some((64, 3, 1)), Some((64, 1, 0)), Some((64, 1, 0))];

// The device that fails and the number of its call, what the sweep answers, and how many calls each
// device then has had.
type Failing = ((usize, u32), u64, [usize; 3]);

const SINGLE: &[Failing] = &[
    ((0, 0), 0, [1, 0, 0]),
    ((0, 1), 1, [2, 1, 3]),
    ((0, 2), 2, [3, 4, 4]),
    ((0, 3), 2, [4, 4, 4]),
    ((1, 0), 0, [1, 1, 0]),
    ((1, 1), 1, [2, 2, 3]),
    ((1, 2), 1, [2, 3, 3]),
    ((1, 3), 2, [2, 4, 3]),
    ((2, 0), 0, [1, 1, 1]),
    ((2, 1), 0, [1, 1, 2]),
    ((2, 2), 1, [1, 1, 3]),
    ((2, 3), 2, [2, 4, 4]),
    ((2, 4), 3, [4, 4, 4]),
];

const SEVERAL: &[Failing] = &[
    ((0, 0), 0, [1, 0, 0]),
    ((0, 1), 2, [2, 3, 3]),
    ((0, 2), 2, [3, 3, 3]),
    ((1, 0), 0, [1, 1, 0]),
    ((1, 1), 1, [1, 2, 2]),
    ((1, 2), 2, [1, 3, 2]),
    ((2, 0), 0, [1, 1, 1]),
    ((2, 1), 0, [1, 1, 2]),
    ((2, 2), 2, [1, 3, 3]),
    ((2, 3), 3, [3, 3, 3]),
];

// The sweep in a room of so many bytes. No device has a call of this number, or a later one.
fn is_failing(
    rt: &impl Abort,
    alloc: Global,
    bytes: u32,
    most: u32,
    row: Failing,
) -> Result<(), Fail> {
    let (failing, answer, calls) = row;
    let layout = Raid5::new(3, 1, 3)?;
    let mut devices = devices(alloc, 67, UNITS, Some(failing))?;
    let mut columns = ALL;
    let found = swept_in(
        alloc,
        Sweep::Sync,
        &layout,
        &mut columns,
        devices.as_mut_slice(),
        bytes,
    )?;
    same_at(rt, failing, found, answer);
    for d in 0..3 {
        same_at(rt, (d, failing), count_calls(&devices, d), calls[d]);
        let is_dead = d == failing.0 && failing.1 < most;
        same_at(rt, (d, failing), columns[d] == Column::Dead, is_dead);
    }
    Ok(())
}

#[test]
fn a_stripe_that_meets_a_failure_is_not_counted(rt: HostRuntime) -> Result<(), Fail> {
    for row in SINGLE {
        is_failing(&rt, rt.alloc(), 1024, 4, *row)?;
    }
    Ok(())
}

#[test]
fn a_call_of_several_rows_that_fails_makes_its_column_dead(rt: HostRuntime) -> Result<(), Fail> {
    for row in SEVERAL {
        is_failing(&rt, rt.alloc(), ROOM, 3, *row)?;
    }
    Ok(())
}
