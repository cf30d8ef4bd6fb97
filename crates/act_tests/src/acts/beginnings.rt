//! Arrays that are begun with, and those that get their first labels.
use super::asked::{Act, LAST, acted, acted_on, dead, devices, have_calls, label_on, marks_on};
use crate::judging::{holds, same};
use lay_plain::Raid0;
use std::test::Fail;
use top_acts::Done;

const NONE: u32 = 99;

// The opening round and the settles behind it, or the sweep of a dirty array behind those; device 1 fails at
// each call.
#[test]
fn a_dirty_array_is_swept(rt: HostRuntime) -> Result<(), Fail> {
    const ROWS: &[(bool, u32, u64, u8, [&[u8]; 3])] = &[
        (false, NONE, 0, 8, [b"LS", b"LS", b"LS"]),
        (false, 0, 0, 9, [b"LLS", b"l", b"LS"]),
        (false, 1, 0, 9, [b"LSLS", b"Ls", b"LSLS"]),
        (true, 0, 0, 9, [b"LLS", b"l", b"LS"]),
        (true, 2, 0, 8, [b"LSR", b"LSr", b"LS"]),
        (true, 4, 1, 8, [b"LSRR", b"LSRRw", b"LSRWR"]),
        (true, 5, 2, 8, [b"LSRR", b"LSRRWr", b"LSRWR"]),
        (true, NONE, 3, 8, [b"LSRRRW", b"LSRRWR", b"LSRWRR"]),
    ];
    for row in ROWS {
        let (dirty, call, count, counter, calls) = *row;
        let mut disks = devices(rt.alloc(), [NONE, call, NONE])?;
        let mut label = LAST;
        let (done, ending) = acted(rt.alloc(), Act::Begin(dirty), &mut disks, &mut label)?;
        same(&rt, done, Done::Rewrite(count));
        same(&rt, ending.lost, None);
        same(&rt, (label.counter, label.clean), (u32::from(counter), 0));
        same(&rt, dead(&ending), [false, call < NONE, false]);
        have_calls(&rt, &disks, calls);
        let seat = if call < 2 { 255 } else { 0 };
        same(&rt, label_on(&disks[2]), Some([counter, 2, 0, 0, seat, 0]));
    }
    Ok(())
}

// In the place of the opening round a map is written and settled; then the stripes are swept that
// another map marks. Device 1 fails at each of the two calls; then labels say so behind the map.
#[test]
fn marked_stripes_are_swept_behind_a_map(rt: HostRuntime) -> Result<(), Fail> {
    const ROWS: &[(u32, u32, u32, u64, u8, [&[u8]; 3])] = &[
        (1, 2, NONE, 1, 3, [b"PSR", b"PSR", b"PSRW"]),
        (3, 3, NONE, 3, 7, [b"PSRRRW", b"PSRRWR", b"PSRWRR"]),
        (0, 3, NONE, 0, 7, [b"PS", b"PS", b"PS"]),
        (3, 1, 0, 0, 1, [b"PSLS", b"p", b"PSLS"]),
        (3, 0, 1, 0, 0, [b"PSLS", b"Ps", b"PSLS"]),
    ];
    for row in ROWS {
        let (swept, marked, call, count, marks, calls) = *row;
        let mut disks = devices(rt.alloc(), [NONE, call, NONE])?;
        let mut label = LAST;
        let act = Act::Map(swept, marked);
        let (done, ending) = acted(rt.alloc(), act, &mut disks, &mut label)?;
        same(&rt, done, Done::Rewrite(count));
        same(&rt, ending.lost, None);
        let named = call == NONE;
        let counter = if named { 7 } else { 8 };
        same(&rt, (label.counter, label.clean), (u32::from(counter), 1));
        same(&rt, dead(&ending), [false, !named, false]);
        have_calls(&rt, &disks, calls);
        same(&rt, marks_on(&disks[0]), Some(marks));
        same(&rt, marks_on(&disks[2]), Some(marks));
        let on_first = (!named).then_some([counter, 0, 1, 0, 255, 0]);
        same(&rt, label_on(&disks[0]), on_first);
    }
    Ok(())
}

// The newest label names a component that is absent: behind the map labels are written that don't, as clean as
// it, and settled.
#[test]
fn an_absent_component_is_named_no_more(rt: HostRuntime) -> Result<(), Fail> {
    let mut disks = devices(rt.alloc(), [NONE, NONE, NONE])?;
    let mut label = LAST;
    let (done, ending) = acted(rt.alloc(), Act::Absent(1), &mut disks, &mut label)?;
    same(&rt, done, Done::Rewrite(0));
    same(&rt, ending.lost, None);
    same(&rt, (label.counter, label.clean), (8, 1));
    have_calls(&rt, &disks, [b"PSLS", b"", b"PSLS"]);
    same(&rt, label_on(&disks[0]), Some([8, 0, 1, 0, 255, 0]));
    same(&rt, label_on(&disks[2]), Some([8, 2, 1, 0, 255, 0]));
    Ok(())
}

// Two devices fail as they are marked: the one round of a lost array is written.
#[test]
fn an_array_may_be_lost_by_its_maps(rt: HostRuntime) -> Result<(), Fail> {
    let mut disks = devices(rt.alloc(), [0, 1, NONE])?;
    let mut label = LAST;
    let (done, ending) = acted(rt.alloc(), Act::Map(3, 3), &mut disks, &mut label)?;
    same(&rt, done, Done::Rewrite(0));
    holds(&rt, ending.lost.is_some());
    have_calls(&rt, &disks, [b"p", b"Ps", b"PSL"]);
    same(&rt, label_on(&disks[2]), Some([8, 2, 0, 255, 255, 0]));
    Ok(())
}

// Level 5 outlives the death of one column. Level 0 doesn't, and then its one round is written.
#[test]
fn a_column_dies_behind_the_opening_round(rt: HostRuntime) -> Result<(), Fail> {
    let mut disks = devices(rt.alloc(), [NONE, NONE, NONE])?;
    let mut label = LAST;
    let (_, kept) = acted(rt.alloc(), Act::Fail(1), &mut disks, &mut label)?;
    same(&rt, kept.lost, None);
    same(&rt, dead(&kept), [false, true, false]);
    same(&rt, label.counter, 7);
    have_calls(&rt, &disks, [b"", b"", b""]);
    let layout = Raid0::new(3, 1, 3)?;
    let (_, ending) = acted_on(rt.alloc(), &layout, Act::Fail(1), &mut disks, &mut label)?;
    holds(&rt, ending.lost.is_some());
    same(&rt, dead(&ending), [false, true, false]);
    have_calls(&rt, &disks, [b"L", b"", b"L"]);
    same(&rt, label_on(&disks[2]), Some([8, 2, 0, 0, 255, 0]));
    Ok(())
}

#[test]
fn first_labels_count_from_one(rt: HostRuntime) -> Result<(), Fail> {
    const ROWS: &[([u32; 3], Done, u8, [&[u8]; 3], u8)] = &[
        (
            [NONE, NONE, NONE],
            Done::Labelled(3),
            1,
            [b"L", b"L", b"L"],
            0,
        ),
        (
            [NONE, 0, NONE],
            Done::Labelled(2),
            2,
            [b"LL", b"l", b"L"],
            255,
        ),
        ([0, 0, NONE], Done::Nothing, 3, [b"l", b"l", b"L"], 255),
    ];
    for row in ROWS {
        let (fails, told, counter, calls, seat) = *row;
        let mut disks = devices(rt.alloc(), fails)?;
        let mut label = LAST;
        let (done, ending) = acted(rt.alloc(), Act::Label, &mut disks, &mut label)?;
        same(&rt, done, told);
        same(&rt, ending.lost.is_some(), told == Done::Nothing);
        have_calls(&rt, &disks, calls);
        let first = if told == Done::Nothing { 255 } else { 0 };
        same(
            &rt,
            label_on(&disks[2]),
            Some([counter, 2, 0, first, seat, 0]),
        );
    }
    Ok(())
}
