//! Devices fail, and columns by an item.
use super::closed::{columns, handed, has_calls, history, holds, lost, replied};
use super::driving::run;
use super::{fail, id, level_five, read, setup, write, written};
use blk_disk::MemDisk;
use eng_array::{Closed, Column, Item, Loss, Reply};
use lay_plain::{Raid0, Raid1, Raid5};
use std::alloc::Global;
use std::process::Abort;
use std::test::Fail;

// The large write reads unit 1 on device 1, which fails; the new graph is small.
#[test]
fn a_read_that_fails_before_the_commit_is_planned_anew(rt: HostRuntime) -> Result<(), Fail> {
    let closed = written(&rt, rt.alloc(), &[&[], &[0], &[]])?;
    replied(&rt, &closed, 0, &[Reply::Done, Reply::Data]);
    history(&rt, &closed, &[id(0, 0), id(0, 1)]);
    lost(&rt, &closed, None);
    columns(
        &rt,
        &closed,
        &[
            Column::Live { device: 0 },
            Column::Dead,
            Column::Live { device: 2 },
        ],
    );
    handed(&rt, &closed, &[0xa5]);
    let calls = [(0, 64, 1, true), (1, 64, 1, true), (0, 64, 1, true)];
    has_calls(&rt, &closed, 0, &calls);
    has_calls(&rt, &closed, 1, &[(0, 64, 1, false)]);
    has_calls(&rt, &closed, 2, &[(0, 64, 1, true), (1, 64, 1, true)]);
    holds(&rt, &closed, 0, 64, &[0xa5]);
    holds(&rt, &closed, 2, 64, &[0xa5]);
    Ok(())
}

// Device 0 fails its write; the other nodes are fired all the same, and the read takes units 1 and 2.
#[test]
fn a_write_that_fails_after_the_commit_leaves_the_other_units(rt: HostRuntime) -> Result<(), Fail> {
    let closed = written(&rt, rt.alloc(), &[&[0], &[], &[]])?;
    replied(&rt, &closed, 0, &[Reply::Done, Reply::Data]);
    history(&rt, &closed, &[id(0, 0), id(0, 1)]);
    columns(
        &rt,
        &closed,
        &[
            Column::Dead,
            Column::Live { device: 1 },
            Column::Live { device: 2 },
        ],
    );
    handed(&rt, &closed, &[0xa5]);
    has_calls(&rt, &closed, 0, &[(1, 64, 1, false)]);
    has_calls(&rt, &closed, 1, &[(0, 64, 1, true), (0, 64, 1, true)]);
    has_calls(&rt, &closed, 2, &[(1, 64, 1, true), (0, 64, 1, true)]);
    holds(&rt, &closed, 1, 64, &[]);
    holds(&rt, &closed, 2, 64, &[0xa5]);
    Ok(())
}

// What these items leave where column 1 is dead and device 1 isn't there.
fn without_one(
    rt: &impl Abort,
    alloc: Global,
    items: &[Item],
) -> Result<Closed<Raid5, MemDisk>, Fail> {
    let mut setup = level_five(rt, alloc, &[&[], &[], &[]], &[items])?;
    if let Some(device) = setup.devices.get_mut(1) {
        *device = None;
    }
    if let Some(column) = setup.columns.get_mut(1) {
        *column = Column::Dead;
    }
    run(alloc, setup)
}

// Unit 0 is read for the write, and the check unit is a5.
#[test]
fn an_absent_unit_is_written_into_the_check_unit(rt: HostRuntime) -> Result<(), Fail> {
    let items = [write(1, 1, 0xa5), read(1, 1)];
    let closed = without_one(&rt, rt.alloc(), &items)?;
    replied(&rt, &closed, 0, &[Reply::Done, Reply::Data]);
    columns(
        &rt,
        &closed,
        &[
            Column::Live { device: 0 },
            Column::Dead,
            Column::Live { device: 2 },
        ],
    );
    handed(&rt, &closed, &[0xa5]);
    has_calls(&rt, &closed, 0, &[(0, 64, 1, true), (0, 64, 1, true)]);
    has_calls(&rt, &closed, 2, &[(1, 64, 1, true), (0, 64, 1, true)]);
    holds(&rt, &closed, 0, 64, &[]);
    holds(&rt, &closed, 2, 64, &[0xa5]);
    Ok(())
}

// What a client of two mirrors leaves.
fn mirrored(
    rt: &impl Abort,
    alloc: Global,
    items: &[Item],
) -> Result<Closed<Raid1, MemDisk>, Fail> {
    let layout = Raid1::new(4, 1, 64).expect(rt, "a layout");
    run(
        alloc,
        setup(alloc, layout, &[&[], &[], &[], &[]], &[items])?,
    )
}

// Columns 0 and 3 are of two mirrors.
fn one_of_each_mirror_fails(rt: &impl Abort, alloc: Global) -> Result<(), Fail> {
    let items = [fail(0), fail(3), write(0, 2, 0x5a), read(0, 2)];
    let closed = mirrored(rt, alloc, &items)?;
    let replies = [Reply::Okay, Reply::Okay, Reply::Done, Reply::Data];
    replied(rt, &closed, 0, &replies);
    lost(rt, &closed, None);
    history(rt, &closed, &[id(0, 2), id(0, 3)]);
    handed(rt, &closed, &[0x5a, 0x5a]);
    Ok(())
}

// Columns 0 and 1 are of one.
fn both_of_a_mirror_fail(rt: &impl Abort, alloc: Global) -> Result<(), Fail> {
    let items = [fail(0), fail(1), read(0, 1)];
    let closed = mirrored(rt, alloc, &items)?;
    replied(rt, &closed, 0, &[Reply::Okay, Reply::Okay, Reply::Lost]);
    let loss = Loss {
        first: 0,
        second: 1,
        stripe: 0,
    };
    lost(rt, &closed, Some(loss));
    history(rt, &closed, &[]);
    Ok(())
}

#[test]
fn mirrors_fail_as_they_must(rt: HostRuntime) -> Result<(), Fail> {
    one_of_each_mirror_fails(&rt, rt.alloc())?;
    both_of_a_mirror_fail(&rt, rt.alloc())
}

#[test]
fn stripes_without_a_check_unit_are_lost_with_a_column(rt: HostRuntime) -> Result<(), Fail> {
    let alloc = rt.alloc();
    let layout = Raid0::new(2, 1, 64).expect(&rt, "a layout");
    let items = [fail(1), read(0, 1)];
    let closed = run(alloc, setup(alloc, layout, &[&[], &[]], &[&items])?)?;
    replied(&rt, &closed, 0, &[Reply::Okay, Reply::Lost]);
    let loss = Loss {
        first: 1,
        second: 1,
        stripe: 0,
    };
    lost(&rt, &closed, Some(loss));
    Ok(())
}

// Both writes of the large write fail: it is in the history, and no reply says that it is done.
#[test]
fn two_failed_writes_lose_the_array_after_the_commit(rt: HostRuntime) -> Result<(), Fail> {
    let closed = written(&rt, rt.alloc(), &[&[0], &[], &[0]])?;
    replied(&rt, &closed, 0, &[Reply::Lost, Reply::Lost]);
    history(&rt, &closed, &[id(0, 0)]);
    let loss = Loss {
        first: 0,
        second: 2,
        stripe: 0,
    };
    lost(&rt, &closed, Some(loss));
    has_calls(&rt, &closed, 0, &[(1, 64, 1, false)]);
    has_calls(&rt, &closed, 1, &[(0, 64, 1, true)]);
    has_calls(&rt, &closed, 2, &[(1, 64, 1, false)]);
    Ok(())
}

// The read before the commit fails on device 1, and one of the new graph on device 0.
#[test]
fn two_failed_reads_lose_the_array_before_the_commit(rt: HostRuntime) -> Result<(), Fail> {
    let closed = written(&rt, rt.alloc(), &[&[0], &[0], &[]])?;
    replied(&rt, &closed, 0, &[Reply::Lost, Reply::Lost]);
    history(&rt, &closed, &[]);
    let loss = Loss {
        first: 0,
        second: 1,
        stripe: 0,
    };
    lost(&rt, &closed, Some(loss));
    holds(&rt, &closed, 2, 64, &[]);
    Ok(())
}
