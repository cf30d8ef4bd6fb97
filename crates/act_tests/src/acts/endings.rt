//! Arrays that are closed, columns that are failed, and the lines of what was done.
use super::asked::{Act, LAST, acted, dead, devices, have_calls, label_on};
use crate::judging::same;
use eng_cols::Loss;
use raid_bay::MemSink;
use std::test::Fail;
use top_acts::{Done, put_done};

const NONE: u32 = 99;

// The loss of columns 0 and 1, which are live still.
const LOSS: Loss = Loss {
    first: 0,
    second: 1,
    stripe: 2,
};

#[test]
fn an_array_is_settled_closed_and_settled(rt: HostRuntime) -> Result<(), Fail> {
    const ROWS: &[(Act, [u32; 3], u32, [&[u8]; 3], Option<[u8; 6]>)] = &[
        (
            Act::End(None),
            [NONE, NONE, NONE],
            8,
            [b"SLS", b"SLS", b"SLS"],
            Some([8, 2, 1, 0, 0, 0]),
        ),
        (
            Act::Close,
            [NONE, NONE, NONE],
            8,
            [b"LS", b"LS", b"LS"],
            Some([8, 2, 1, 0, 0, 0]),
        ),
        (
            Act::End(None),
            [NONE, 0, NONE],
            8,
            [b"SLS", b"s", b"SLS"],
            Some([8, 2, 1, 0, 255, 0]),
        ),
        (
            Act::End(None),
            [NONE, 2, NONE],
            9,
            [b"SLSLS", b"SLs", b"SLSLS"],
            Some([9, 2, 1, 0, 255, 0]),
        ),
        (
            Act::End(None),
            [0, 0, NONE],
            8,
            [b"s", b"s", b"SL"],
            Some([8, 2, 0, 255, 255, 0]),
        ),
        (
            Act::End(Some(LOSS)),
            [NONE, 0, NONE],
            8,
            [b"L", b"l", b"L"],
            Some([8, 2, 0, 0, 0, 0]),
        ),
    ];
    for row in ROWS {
        let (act, fails, counter, calls, last) = *row;
        let mut disks = devices(rt.alloc(), fails)?;
        let mut label = LAST;
        let (_, ending) = acted(rt.alloc(), act, &mut disks, &mut label)?;
        same(&rt, label.counter, counter);
        have_calls(&rt, &disks, calls);
        same(&rt, label_on(&disks[2]), last);
        same(
            &rt,
            dead(&ending),
            [fails[0] < NONE, fails[1] < NONE, false],
        );
    }
    Ok(())
}

#[test]
fn a_loss_stays_what_it_was(rt: HostRuntime) -> Result<(), Fail> {
    let mut disks = devices(rt.alloc(), [NONE, NONE, 0])?;
    let mut label = LAST;
    let (_, ending) = acted(rt.alloc(), Act::End(Some(LOSS)), &mut disks, &mut label)?;
    same(&rt, ending.lost, Some(LOSS));
    Ok(())
}

// The device of a column that is failed isn't called. Where the array is lost before any label was
// written it is left as it is.
#[test]
fn a_column_is_failed(rt: HostRuntime) -> Result<(), Fail> {
    const ROWS: &[([u32; 3], Done, u32, [&[u8]; 3], Option<[u8; 6]>)] = &[
        (
            [NONE, 0, NONE],
            Done::Killed(1),
            8,
            [b"SLS", b"", b"SLS"],
            Some([8, 2, 1, 0, 255, 0]),
        ),
        ([0, NONE, NONE], Done::Nothing, 7, [b"s", b"", b"S"], None),
        (
            [1, NONE, NONE],
            Done::Nothing,
            9,
            [b"Sl", b"", b"SL"],
            Some([9, 2, 0, 255, 255, 0]),
        ),
        (
            [2, NONE, NONE],
            Done::Nothing,
            9,
            [b"SLs", b"", b"SLSL"],
            Some([9, 2, 0, 255, 255, 0]),
        ),
    ];
    for row in ROWS {
        let (fails, told, counter, calls, last) = *row;
        let mut disks = devices(rt.alloc(), fails)?;
        let mut label = LAST;
        let (done, ending) = acted(rt.alloc(), Act::Kill(1), &mut disks, &mut label)?;
        same(&rt, done, told);
        same(&rt, ending.lost.is_some(), told == Done::Nothing);
        same(&rt, label.counter, counter);
        have_calls(&rt, &disks, calls);
        same(&rt, label_on(&disks[2]), last);
    }
    Ok(())
}

#[test]
fn each_has_its_line(rt: HostRuntime) -> Result<(), Fail> {
    const ROWS: &[(Done, &[u8])] = &[
        (Done::Nothing, b""),
        (Done::Init(64), b"parity initialised 64\n"),
        (Done::Check(0), b"parity clean\n"),
        (Done::Check(1), b""),
        (Done::Rewrite(0), b"parity rewritten 0\n"),
        (Done::Killed(3), b"failed column 3\n"),
        (Done::Labelled(5), b"labels written 5\n"),
        (
            Done::Init(u64::MAX),
            b"parity initialised 18446744073709551615\n",
        ),
    ];
    for row in ROWS {
        let (done, wanted) = *row;
        let mut out = MemSink::new(rt.alloc(), 100, Vec::new(rt.alloc()))?;
        put_done(&done, &mut out)?;
        same(&rt, out.bytes(), wanted);
    }
    Ok(())
}
