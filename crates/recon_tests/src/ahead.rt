//! Rows that are read ahead, on three columns of level 5 with three stripes: in stripes 0, 1 and 2 the units lie
//! on the columns 0 1 2, 2 0 1 and 1 2 0, the check unit last. The room has windows of two rows, so that the last
//! row is read alone.
use crate::asked::{ALL, Filled, Row, Sweep, begins, devices, have_calls, swept_in};
use crate::judging::same_at;
use lay_plain::Raid5;
use std::alloc::Global;
use std::process::Abort;
use std::test::Fail;

/// A unit's sum, and two rows for each column.
pub(crate) const ROOM: u32 = 512 * (1 + 3 * 2);

// The unit of stripe 1 on column 0 alone isn't zero.
const ONE: &[Option<Filled>] = &[Some((65, 1, 0x0f)), Some((64, 1, 0)), Some((64, 1, 0))];

const CALLS: &[Row] = &[
    (
        Sweep::Check,
        1,
        &[
            &[(0, 64, 2, true), (0, 66, 1, true)],
            &[(0, 64, 2, true), (0, 66, 1, true)],
            &[(0, 64, 2, true), (0, 66, 1, true)],
        ],
    ),
    (
        Sweep::Sync,
        1,
        &[
            &[(0, 64, 2, true), (0, 66, 1, true)],
            &[(0, 64, 2, true), (1, 65, 1, true), (0, 66, 1, true)],
            &[(0, 64, 2, true), (0, 66, 1, true)],
        ],
    ),
    (
        Sweep::Init,
        3,
        &[
            &[(0, 64, 2, true), (1, 66, 1, true)],
            &[(0, 64, 2, true), (1, 65, 1, true), (0, 66, 1, true)],
            &[(1, 64, 1, true), (0, 65, 2, true)],
        ],
    ),
];

// The sweep of the three stripes in a room of so many bytes answers so and has such calls; behind it the
// check unit of stripe 1 begins with this byte.
fn is_swept(
    rt: &impl Abort,
    alloc: Global,
    filled: &[Option<Filled>],
    bytes: u32,
    row: Row,
    byte: u8,
) -> Result<(), Fail> {
    let (kind, answer, calls) = row;
    let layout = Raid5::new(3, 1, 3)?;
    let mut devices = devices(alloc, 67, filled, None)?;
    let mut columns = ALL;
    let found = swept_in(
        alloc,
        kind,
        &layout,
        &mut columns,
        devices.as_mut_slice(),
        bytes,
    )?;
    same_at(rt, kind, found, answer);
    have_calls(rt, &devices, calls);
    begins(rt, &devices, 1, 65, byte);
    Ok(())
}

#[test]
fn rows_side_by_side_are_read_by_one_call(rt: HostRuntime) -> Result<(), Fail> {
    for row in CALLS {
        let byte = if row.0 == Sweep::Check { 0 } else { 0x0f };
        is_swept(&rt, rt.alloc(), ONE, ROOM, *row, byte)?;
    }
    Ok(())
}

// All units are zero, and each is read by a call of its own.
const ZEROS: &[Option<Filled>] = &[Some((64, 1, 0)), Some((64, 1, 0)), Some((64, 1, 0))];

const READS: Row = (
    Sweep::Check,
    0,
    &[
        &[(0, 64, 1, true), (0, 65, 1, true), (0, 66, 1, true)],
        &[(0, 64, 1, true), (0, 65, 1, true), (0, 66, 1, true)],
        &[(0, 64, 1, true), (0, 65, 1, true), (0, 66, 1, true)],
    ],
);

// One byte less, and each unit is read by a call of its own.
#[test]
fn a_room_without_two_rows_for_each_column_reads_one(rt: HostRuntime) -> Result<(), Fail> {
    is_swept(&rt, rt.alloc(), ZEROS, ROOM - 1, READS, 0)
}
