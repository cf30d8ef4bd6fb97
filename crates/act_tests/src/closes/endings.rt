//! Three columns of level 5 with one stripe, whose units lie on columns 0, 1 and 2.
use super::asked::{device, ended, settles};
use crate::judging::same;
use blk_disk::MemDisk;
use eng_cols::{Column, Loss};
use lay_plain::Raid5;
use std::alloc::Global;
use std::process::Abort;
use std::test::Fail;

const DEAD: Column = Column::Dead;

const ZERO: Column = Column::Live { device: 0 };

const ONE: Column = Column::Live { device: 1 };

const TWO: Column = Column::Live { device: 2 };

// What is lost where column 0 is dead, and this one.
const WITH_ONE: Option<Loss> = Some(Loss {
    first: 0,
    second: 1,
    stripe: 0,
});

const WITH_TWO: Option<Loss> = Some(Loss {
    first: 0,
    second: 2,
    stripe: 0,
});

// The calls of a device that fail: its first, or none that it has.
fn fails_of(fails: bool) -> [u32; 1] {
    if fails { [0] } else { [99] }
}

// The columns, which devices fail, the columns then, and what is lost.
type Row = ([Column; 3], [bool; 3], [Column; 3], Option<Loss>);

const ROWS: [Row; 5] = [
    (
        [ZERO, ONE, TWO],
        [false, false, false],
        [ZERO, ONE, TWO],
        None,
    ),
    (
        [ZERO, ONE, TWO],
        [false, true, false],
        [ZERO, DEAD, TWO],
        None,
    ),
    (
        [ZERO, ONE, TWO],
        [true, false, true],
        [DEAD, ONE, DEAD],
        WITH_TWO,
    ),
    (
        [DEAD, ONE, TWO],
        [true, false, false],
        [DEAD, ONE, TWO],
        None,
    ),
    (
        [DEAD, ONE, TWO],
        [false, true, false],
        [DEAD, DEAD, TWO],
        WITH_ONE,
    ),
];

// The device of a dead column isn't called; any other is settled once.
fn is_settled(
    rt: &impl Abort,
    alloc: Global,
    device: &Option<MemDisk>,
    column: Column,
    fails: bool,
) -> Result<(), Fail> {
    let calls = settles(alloc, device)?;
    if column == DEAD {
        same(rt, calls.len(), 0);
    } else {
        same(rt, calls.as_slice(), [Some(!fails)].as_slice());
    }
    Ok(())
}

fn is_ended(rt: &impl Abort, alloc: Global, row: Row) -> Result<(), Fail> {
    let (before, fails, after, lost) = row;
    let layout = Raid5::new(3, 1, 1)?;
    let mut devices = [
        device(alloc, &fails_of(fails[0]))?,
        device(alloc, &fails_of(fails[1]))?,
        device(alloc, &fails_of(fails[2]))?,
    ];
    let ending = ended(alloc, &layout, &mut devices, &before, None)?;
    same(rt, ending.columns.as_slice(), after.as_slice());
    same(rt, ending.lost, lost);
    for c in 0..3 {
        is_settled(rt, alloc, &devices[c], before[c], fails[c])?;
    }
    Ok(())
}

#[test]
fn each_device_in_use_is_settled_and_the_loss_judged_again(rt: HostRuntime) -> Result<(), Fail> {
    for row in ROWS {
        is_ended(&rt, rt.alloc(), row)?;
    }
    Ok(())
}

#[test]
fn a_loss_of_before_stays(rt: HostRuntime) -> Result<(), Fail> {
    let alloc = rt.alloc();
    let layout = Raid5::new(3, 1, 1)?;
    let mut devices = [None, None, device(alloc, &[0])?];
    let ending = ended(alloc, &layout, &mut devices, &[DEAD, DEAD, TWO], WITH_ONE)?;
    same(
        &rt,
        ending.columns.as_slice(),
        [DEAD, DEAD, DEAD].as_slice(),
    );
    same(&rt, ending.lost, WITH_ONE);
    same(
        &rt,
        settles(alloc, &devices[2])?.as_slice(),
        [Some(false)].as_slice(),
    );
    Ok(())
}
