//! One client, and no device fails.
use super::closed::{columns, handed, has_calls, history, holds, lost, replied};
use super::judging::same;
use super::{id, ran, read, sync, write, writes, written};
use eng_array::{Column, Reply};
use std::test::Fail;

// The write is large and reads unit 1.
#[test]
fn what_was_written_is_read(rt: HostRuntime) -> Result<(), Fail> {
    let closed = written(&rt, rt.alloc(), &[&[], &[], &[]])?;
    replied(&rt, &closed, 0, &[Reply::Done, Reply::Data]);
    history(&rt, &closed, &[id(0, 0), id(0, 1)]);
    lost(&rt, &closed, None);
    same(&rt, closed.rebuilt, 0);
    columns(
        &rt,
        &closed,
        &[
            Column::Live { device: 0 },
            Column::Live { device: 1 },
            Column::Live { device: 2 },
        ],
    );
    handed(&rt, &closed, &[0xa5]);
    has_calls(&rt, &closed, 0, &[(1, 64, 1, true), (0, 64, 1, true)]);
    has_calls(&rt, &closed, 1, &[(0, 64, 1, true)]);
    has_calls(&rt, &closed, 2, &[(1, 64, 1, true)]);
    holds(&rt, &closed, 0, 64, &[0xa5]);
    holds(&rt, &closed, 1, 64, &[]);
    holds(&rt, &closed, 2, 64, &[0xa5]);
    Ok(())
}

// Block 0 is unit 0 of stripe 0, and block 3 is unit 1 of stripe 1: each write reads the other unit of its stripe, and one
// commit lies before all four writes. Spans that touch 17 stripes together are refused.
#[test]
fn two_spans_are_one_operation(rt: HostRuntime) -> Result<(), Fail> {
    let items = [
        writes((0, 1, 0x11), (3, 1, 0x22)),
        writes((0, 32, 0x33), (40, 1, 0x44)),
        read(0, 4),
    ];
    let closed = ran(&rt, rt.alloc(), &[&[], &[], &[]], &[&items])?;
    replied(&rt, &closed, 0, &[Reply::Done, Reply::Long, Reply::Data]);
    history(&rt, &closed, &[id(0, 0), id(0, 2)]);
    handed(&rt, &closed, &[0x11, 0, 0, 0x22]);
    holds(&rt, &closed, 0, 64, &[0x11, 0x22]);
    holds(&rt, &closed, 1, 64, &[0, 0x22]);
    holds(&rt, &closed, 2, 64, &[0x11]);
    Ok(())
}

// Block 127 is unit 1 of stripe 63, on column 1, with the check unit on column 2. 33 blocks from 0 on touch 17 stripes.
#[test]
fn spans_past_the_end_or_over_too_many_stripes_are_refused(rt: HostRuntime) -> Result<(), Fail> {
    let items = [
        write(127, 1, 0x11),
        write(128, 1, 0x11),
        read(0, 33),
        sync(0),
        sync(64),
        read(0, 32),
    ];
    let closed = ran(&rt, rt.alloc(), &[&[], &[], &[]], &[&items])?;
    let replies = [
        Reply::Done,
        Reply::Range,
        Reply::Long,
        Reply::Done,
        Reply::Range,
        Reply::Data,
    ];
    replied(&rt, &closed, 0, &replies);
    history(&rt, &closed, &[id(0, 0), id(0, 3), id(0, 5)]);
    holds(&rt, &closed, 0, 127, &[]);
    holds(&rt, &closed, 1, 127, &[0x11]);
    holds(&rt, &closed, 2, 127, &[0x11]);
    // The refused read has a region too.
    handed(&rt, &closed, &[0; 65]);
    Ok(())
}
