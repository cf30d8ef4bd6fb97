//! Check units that are renewed, and tested.
use super::asked::{Act, LAST, acted, acted_on, dead, devices, have_calls, label_on, rows_on};
use crate::judging::{same, same_at};
use eng_cols::Loss;
use lay_plain::Chain;
use std::test::Fail;
use top_acts::{Done, Renewal};

const NONE: u32 = 99;

// Device 1 fails at each of its calls in turn: the read of its map, a label of the opening round, the
// settle behind that, the reads and the write of the sweep, the settle before the closing round, its label there, and the last
// settle.
#[test]
fn a_device_fails_at_each_call(rt: HostRuntime) -> Result<(), Fail> {
    const ROWS: &[(u32, u64, u8, [&[u8]; 3])] = &[
        (0, 0, 9, [b"MLSSLS", b"m", b"MLSSLS"]),
        (1, 0, 10, [b"MLLSSLS", b"Ml", b"MLSSLS"]),
        (2, 0, 10, [b"MLSLSSLS", b"MLs", b"MLSLSSLS"]),
        (3, 0, 9, [b"MLSRSLS", b"MLSr", b"MLSSLS"]),
        (4, 1, 9, [b"MLSRRSLS", b"MLSRr", b"MLSRWRSLS"]),
        (5, 1, 9, [b"MLSRRSLS", b"MLSRRw", b"MLSRWRSLS"]),
        (6, 2, 9, [b"MLSRRSLS", b"MLSRRWr", b"MLSRWRSLS"]),
        (7, 3, 9, [b"MLSRRRWSLS", b"MLSRRWRs", b"MLSRWRRSLS"]),
        (8, 3, 10, [b"MLSRRRWSLLS", b"MLSRRWRSl", b"MLSRWRRSLS"]),
        (9, 3, 10, [b"MLSRRRWSLSLS", b"MLSRRWRSLs", b"MLSRWRRSLSLS"]),
        (10, 3, 9, [b"MLSRRRWSLS", b"MLSRRWRSLS", b"MLSRWRRSLS"]),
    ];
    for row in ROWS {
        let (call, count, counter, calls) = *row;
        let mut disks = devices(rt.alloc(), [NONE, call, NONE])?;
        let mut label = LAST;
        let act = Act::Renew(Renewal::Rewrite);
        let (done, ending) = acted(rt.alloc(), act, &mut disks, &mut label)?;
        same_at(&rt, call, done, Done::Rewrite(count));
        same_at(&rt, call, ending.lost, None);
        same_at(&rt, call, label.counter, u32::from(counter));
        same_at(&rt, call, dead(&ending), [false, call < 10, false]);
        have_calls(&rt, &disks, calls);
        let seat = if call < 10 { 255 } else { 0 };
        same(&rt, label_on(&disks[0]), Some([counter, 0, 1, 0, seat, 0]));
        same(&rt, label_on(&disks[2]), Some([counter, 2, 1, 0, seat, 0]));
    }
    Ok(())
}

// Two devices fail: in the opening round, as they are settled behind it, at a read and the settle behind it, in the
// closing round,
// and at the last settle. What is left of the array gets one label that isn't clean, and isn't
// settled behind that.
#[test]
fn a_lost_array_gets_one_round_more(rt: HostRuntime) -> Result<(), Fail> {
    const ROWS: &[([u32; 3], u8, [&[u8]; 3])] = &[
        ([1, 1, NONE], 10, [b"Ml", b"Ml", b"ML"]),
        ([2, 2, NONE], 9, [b"MLs", b"MLs", b"MLSL"]),
        ([3, 3, NONE], 9, [b"MLSr", b"MLSs", b"MLSSL"]),
        ([1, 4, NONE], 11, [b"Ml", b"MLSSl", b"MLSSL"]),
        ([1, 5, NONE], 11, [b"Ml", b"MLSSLs", b"MLSSLSL"]),
    ];
    for row in ROWS {
        let (fails, counter, calls) = *row;
        let mut disks = devices(rt.alloc(), fails)?;
        let mut label = LAST;
        let act = Act::Renew(Renewal::Init);
        let (done, ending) = acted(rt.alloc(), act, &mut disks, &mut label)?;
        same(&rt, done, Done::Nothing);
        let loss = Loss {
            first: 0,
            second: 1,
            stripe: 0,
        };
        same(&rt, ending.lost, Some(loss));
        same(&rt, label.counter, u32::from(counter));
        have_calls(&rt, &disks, calls);
        same(&rt, label_on(&disks[2]), Some([counter, 2, 0, 255, 255, 0]));
    }
    Ok(())
}

// One that is lost as its maps are read is left as it is.
#[test]
fn what_is_lost_by_its_maps_gets_no_label(rt: HostRuntime) -> Result<(), Fail> {
    let mut disks = devices(rt.alloc(), [0, NONE, 0])?;
    let mut label = LAST;
    let act = Act::Renew(Renewal::Rewrite);
    let (done, ending) = acted(rt.alloc(), act, &mut disks, &mut label)?;
    same(&rt, done, Done::Nothing);
    same(&rt, ending.lost.is_some(), true);
    same(&rt, dead(&ending), [true, false, true]);
    same(&rt, label.counter, LAST.counter);
    have_calls(&rt, &disks, [b"m", b"M", b"m"]);
    Ok(())
}

// Each unit of three has a copy on the next column. The read of stripe 0 fails on device 0, which
// stripe 1 doesn't need; there the read fails on device 1, and stripe 0 is lost.
#[test]
fn a_sweep_may_lose_the_array(rt: HostRuntime) -> Result<(), Fail> {
    const ROWS: &[(Act, u32, Done, [&[u8]; 3])] = &[
        (
            Act::Begin(true),
            2,
            Done::Rewrite(0),
            [b"LSr", b"LSr", b"LSL"],
        ),
        (
            Act::Renew(Renewal::Rewrite),
            3,
            Done::Nothing,
            [b"MLSr", b"MLSr", b"MLSL"],
        ),
    ];
    for row in ROWS {
        let (act, call, told, calls) = *row;
        let mut disks = devices(rt.alloc(), [call, call, NONE])?;
        let mut label = LAST;
        let layout = Chain::new(3, 1, 2)?;
        let (done, ending) = acted_on(rt.alloc(), &layout, act, &mut disks, &mut label)?;
        same(&rt, done, told);
        let loss = Loss {
            first: 0,
            second: 1,
            stripe: 0,
        };
        same(&rt, ending.lost, Some(loss));
        have_calls(&rt, &disks, calls);
        same(&rt, label_on(&disks[2]), Some([9, 2, 0, 255, 255, 0]));
    }
    Ok(())
}

#[test]
fn each_check_unit_is_initialised(rt: HostRuntime) -> Result<(), Fail> {
    let mut disks = devices(rt.alloc(), [NONE, NONE, NONE])?;
    let mut label = LAST;
    let act = Act::Renew(Renewal::Init);
    let (done, ending) = acted(rt.alloc(), act, &mut disks, &mut label)?;
    same(&rt, done, Done::Init(3));
    same(&rt, ending.lost, None);
    have_calls(&rt, &disks, [b"MLSRRWSLS", b"MLSRWRSLS", b"MLSWRRSLS"]);
    same(&rt, rows_on(&disks[0]), Some([1, 1, 0]));
    same(&rt, rows_on(&disks[1]), Some([0, 1, 0]));
    same(&rt, rows_on(&disks[2]), Some([1, 0, 0]));
    same(&rt, label_on(&disks[1]), Some([9, 1, 1, 0, 0, 0]));
    Ok(())
}

// Without labels each device in use is settled once, also where the array is lost.
#[test]
fn an_array_without_labels_is_settled_once(rt: HostRuntime) -> Result<(), Fail> {
    const ROWS: &[([u32; 3], Done, bool, [&[u8]; 3])] = &[
        (
            [NONE, NONE, NONE],
            Done::Rewrite(3),
            false,
            [b"RRRWS", b"RRWRS", b"RWRRS"],
        ),
        (
            [NONE, 2, NONE],
            Done::Rewrite(1),
            false,
            [b"RRS", b"RRw", b"RWRS"],
        ),
        (
            [NONE, 4, NONE],
            Done::Rewrite(3),
            false,
            [b"RRRWS", b"RRWRs", b"RWRRS"],
        ),
        ([0, 0, NONE], Done::Nothing, true, [b"r", b"s", b"S"]),
    ];
    for row in ROWS {
        let (fails, told, lost, calls) = *row;
        let mut disks = devices(rt.alloc(), fails)?;
        let mut label = LAST;
        let act = Act::RenewUnlabelled(Renewal::Rewrite);
        let (done, ending) = acted(rt.alloc(), act, &mut disks, &mut label)?;
        same(&rt, done, told);
        same(&rt, ending.lost.is_some(), lost);
        have_calls(&rt, &disks, calls);
        same(&rt, label_on(&disks[0]), None);
    }
    Ok(())
}

// A check writes nothing and settles nothing.
#[test]
fn stripes_are_tested(rt: HostRuntime) -> Result<(), Fail> {
    const ROWS: &[(u32, u64, [&[u8]; 3])] = &[
        (NONE, 3, [b"RRR", b"RRR", b"RRR"]),
        (0, 0, [b"R", b"r", b""]),
        (1, 1, [b"RR", b"Rr", b"RR"]),
    ];
    for row in ROWS {
        let (call, count, calls) = *row;
        let mut disks = devices(rt.alloc(), [NONE, call, NONE])?;
        let mut label = LAST;
        let (done, ending) = acted(rt.alloc(), Act::Check, &mut disks, &mut label)?;
        same(&rt, done, Done::Check(count));
        same(&rt, dead(&ending), [false, call < 3, false]);
        have_calls(&rt, &disks, calls);
        same(&rt, rows_on(&disks[0]), Some([1, 1, 1]));
    }
    Ok(())
}
