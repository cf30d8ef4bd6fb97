//! One text for each way to be refused, and for each order of two faults.
use crate::judging::{same, same_at};
use crate::texts::joined;
use raid_conf::{ConfFault, read_conf};
use std::alloc::{AllocError, Global};
use std::process::Abort;
use std::test::Fail;

// Why a configuration isn't read, or line 0 where it is.
fn refusal(rt: &impl Abort, alloc: Global, text: &[u8]) -> (u32, u8) {
    assert!(rt; text.len() < 10_000_000);
    match read_conf(alloc, text) {
        Ok(_) => (0, 0),
        Err(ConfFault::At { line, code }) => (line, code),
        Err(ConfFault::Memory) => (0, 99),
    }
}

// Each text is refused so.
fn see(rt: &impl Abort, alloc: Global, rows: &[(&[u8], (u32, u8))]) {
    for (text, at) in rows {
        same(rt, refusal(rt, alloc, *text), *at);
    }
}

// Lines before the first disk.
fn see_array(rt: &impl Abort, alloc: Global) {
    const ROWS: &[(&[u8], (u32, u8))] = &[
        (b"", (1, 3)),
        (b"\n# nothing\n", (3, 3)),
        (b"array", (1, 1)),
        (b"START", (1, 1)),
        (b"START disks", (1, 3)),
        (b"START arrays", (1, 3)),
        (b"START array 1", (1, 1)),
        (b"START array\x01", (1, 1)),
        (b"START array", (2, 1)),
        (b"START array\nSTART disks", (2, 2)),
        (b"START array\n3", (2, 1)),
        (b"START array\nx 3 0", (2, 2)),
        (b"START array\n1 3 0 0", (2, 1)),
        (b"START array\n2 3 0", (2, 2)),
        (b"START array\n1 0 0", (2, 2)),
        (b"START array\n1 33 0", (2, 2)),
        (b"START array\n3 9", (2, 2)),
        (b"START array\n1 3 9", (2, 2)),
        (b"START array\n1 3 x", (2, 2)),
        (b"START array\n3 0\n3 0", (3, 1)),
        (b"START array\n3 0\nSTART spare", (3, 3)),
        (b"START array\n3 0", (3, 3)),
    ];
    see(rt, alloc, ROWS);
}

// Lines from the first disk on.
fn see_names(rt: &impl Abort, alloc: Global) {
    const ROWS: &[(&[u8], (u32, u8))] = &[
        (b"START array\n3 0\nSTART disks", (4, 5)),
        (b"START array\n3 0\nSTART disks\na\nb\n", (6, 5)),
        (b"START array\n3 0\nSTART disks\na\nb\nSTART layout", (6, 5)),
        (b"START array\n3 0\nSTART disks\na\nb\nc\nd", (7, 5)),
        (b"START array\n3 0\nSTART disks\na\nb\na", (6, 7)),
        (b"START array\n3 0\nSTART disks\na b", (4, 1)),
        (b"START array\n3 0\nSTART disks\na\nb\nc", (7, 3)),
        (
            b"START array\n3 0\nSTART disks\na\nb\nc\nSTART array",
            (7, 3),
        ),
        (b"START array\n1 1\nSTART disks\na\nSTART layout", (5, 6)),
        (b"START array\n1 1\nSTART disks\na\nSTART queue", (5, 3)),
        (b"START array\n1 1\nSTART disks\na", (5, 3)),
        (b"START array\n1 1\nSTART disks\na\nSTART spare", (6, 6)),
        (
            b"START array\n1 1\nSTART disks\na\nSTART spare\nSTART layout",
            (6, 6),
        ),
        (b"START array\n1 1\nSTART disks\na\nSTART spare\na", (6, 7)),
        (
            b"START array\n1 1\nSTART disks\na\nSTART spare\nabsent",
            (6, 7),
        ),
        (
            b"START array\n1 1\nSTART disks\na\nSTART spare\ns\nt",
            (7, 6),
        ),
        (
            b"START array\n1 1\nSTART disks\na\nSTART spare\ns\nSTART queue",
            (7, 3),
        ),
    ];
    see(rt, alloc, ROWS);
}

#[test]
fn lines_of_the_array_and_of_names_have_their_codes(rt: HostRuntime) {
    see_array(&rt, rt.alloc());
    see_names(&rt, rt.alloc());
}

// Why a configuration with this text behind three disks isn't read. The text begins in line 7.
fn behind_three(rt: &impl Abort, alloc: Global, text: &[u8]) -> Result<(u32, u8), AllocError> {
    let whole = joined(
        alloc,
        &[b"START array\n1 3 0\nSTART disks\na\nb\nc\n", text],
    )?;
    Ok(refusal(rt, alloc, &whole))
}

// Each text behind three disks is refused so.
fn see_behind_three(
    rt: &impl Abort,
    alloc: Global,
    rows: &[(&[u8], (u32, u8))],
) -> Result<(), Fail> {
    for (text, at) in rows {
        same(rt, behind_three(rt, alloc, *text)?, *at);
    }
    Ok(())
}

#[test]
fn lines_of_layout_and_queue_have_their_codes(rt: HostRuntime) -> Result<(), Fail> {
    const ROWS: &[(&[u8], (u32, u8))] = &[
        (b"START layout", (8, 1)),
        (b"START layout\nSTART queue", (8, 2)),
        (b"START layout\n0 1 1 5", (8, 2)),
        (b"START layout\n129 1 1 5", (8, 2)),
        (b"START layout\n1 2 1 5", (8, 9)),
        (b"START layout\n1 1 2 5", (8, 9)),
        (b"START layout\n1 1 x 5", (8, 2)),
        (b"START layout\n1 1 1", (8, 1)),
        (b"START layout\n1 1 1 6", (8, 8)),
        (b"START layout\n1 1 1 c", (8, 8)),
        (b"START layout\n1 1 1 TT", (8, 8)),
        (b"START layout\n1 1 1 1", (8, 4)),
        (b"START layout\n1 1 1 5 5", (8, 1)),
        (b"START layout\n1 1 1 5\n1 1 1 5", (9, 1)),
        (b"START layout\n1 1 1 5\nSTART layout", (9, 3)),
        (b"START layout\n1 1 1 5\nSTART queue", (10, 1)),
        (b"START layout\n1 1 1 5\nSTART queue\nSTART debug", (10, 10)),
        (b"START layout\n1 1 1 5\nSTART queue\nlifo 100", (10, 10)),
        (b"START layout\n1 1 1 5\nSTART queue\nfifo", (10, 1)),
        (b"START layout\n1 1 1 5\nSTART queue\nfifo x", (10, 2)),
        (b"START layout\n1 1 1 5\nSTART queue\nfifo 1 1", (10, 1)),
        (
            b"START layout\n1 1 1 5\nSTART queue\nfifo 1\nfifo 1",
            (11, 1),
        ),
        (
            b"START layout\n1 1 1 5\nSTART queue\nfifo 1\nSTART queue",
            (11, 3),
        ),
        (b"START layout\n1 1 1 5\nSTART debug\nSTART \x01", (0, 0)),
    ];
    see_behind_three(&rt, rt.alloc(), ROWS)
}

#[test]
fn lines_of_designs_have_their_codes(rt: HostRuntime) -> Result<(), Fail> {
    const ROWS: &[(&[u8], (u32, u8))] = &[
        (b"START layout\n1 1 1 T", (9, 11)),
        (b"START layout\n1 1 1 D\nSTART queue", (9, 11)),
        (b"START layout\n1 1 1 T\nplan 3 3", (9, 1)),
        (b"START layout\n1 1 1 T\ncomplete 4 2", (9, 4)),
        (b"START layout\n1 1 1 T\ncomplete 3 4", (9, 12)),
        (b"START layout\n1 1 1 T\ncomplete 3", (9, 1)),
        (b"START layout\n1 1 1 D\ncomplete 3 2", (9, 12)),
        (b"START layout\n1 1 1 D\ncomplete 3 3", (0, 0)),
        (b"START layout\n1 1 1 T\ncomplete 3 2\n0 1", (10, 1)),
        (b"START layout\n1 1 1 T\ncyclic 3 :", (9, 1)),
        (b"START layout\n1 1 1 T\ncyclic 3 0 1", (9, 1)),
        (b"START layout\n1 1 1 T\ncyclic 3 : 0 x", (9, 2)),
        (b"START layout\n1 1 1 T\ncyclic 3 : 0 3", (9, 12)),
        (b"START layout\n1 1 1 T\ncyclic 3 : 0 1", (0, 0)),
        (b"START layout\n1 1 1 T\ndesign 3 4 2 2", (9, 4)),
        (b"START layout\n1 1 1 T\ndesign 3 3 2 2 1", (10, 11)),
        (
            b"START layout\n1 1 1 T\ndesign 3 3 2 2 1\n0 1\n0 2\nSTART queue",
            (12, 11),
        ),
        (b"START layout\n1 1 1 T\ndesign 3 3 2 2 1\n0 1 2", (10, 11)),
        (b"START layout\n1 1 1 T\ndesign 3 3 2 2 1\n0", (10, 11)),
        (b"START layout\n1 1 1 T\ndesign 3 3 2 2 1\n0 x", (10, 2)),
        (
            b"START layout\n1 1 1 T\ndesign 3 3 2 2 1\n0 1\n0 1\n1 2",
            (9, 12),
        ),
        (
            b"START layout\n1 1 1 T\ndesign 3 3 2 2 1\n0 1\n0 2\n1 2",
            (0, 0),
        ),
        (b"START layout\n1 1 1 T\ndesign 0 3 0 0 0", (9, 12)),
    ];
    see_behind_three(&rt, rt.alloc(), ROWS)
}

#[test]
fn of_two_faults_the_first_is_judged(rt: HostRuntime) -> Result<(), Fail> {
    const ALONE: &[(&[u8], (u32, u8))] = &[
        // a missing disk or spare before the words of the line that shows it
        (b"START array\n2 0\nSTART disks\na\nSTART lay out", (5, 5)),
        (
            b"START array\n1 1\nSTART disks\na\nSTART spare\nSTART\n",
            (6, 6),
        ),
        (b"START array\n1 1\nSTART disks\na\nSTART layout x", (5, 6)),
        // a byte that no word has before all else
        (b"START array\n2 0\nSTART disks\na\nSTART \x01", (5, 1)),
        // a section's name before words too many
        (b"START disks array", (1, 3)),
        // a number out of its range before words too few or too many
        (b"START array\n0", (2, 2)),
        (b"START array\n5 1 3 4", (2, 2)),
        // a name before words too many
        (b"START array\n2 0\nSTART disks\na\na b", (5, 7)),
        // a disk too many before its name and its words
        (b"START array\n1 0\nSTART disks\na\na b", (5, 5)),
    ];
    const BEHIND: &[(&[u8], (u32, u8))] = &[
        (b"START layout\n0 2", (8, 2)),
        (b"START layout\n1 2 x 6 1", (8, 9)),
        (b"START layout\n1 1 1 6 1", (8, 8)),
        (b"START layout\n1 1 1 1 1", (8, 4)),
        (b"START layout\n1 1 1 T\ndesign 3 4 x", (9, 4)),
        (b"START layout\n1 1 1 T\ncyclic 4 x", (9, 4)),
        (b"START layout\n1 1 1 T\ncomplete 4 2 2", (9, 4)),
        (b"START layout\n1 1 1 T\ncomplete 3 9 2", (9, 1)),
        (b"START layout\n1 1 1 T\ndesign 2 3 9 9 9\n0 1", (10, 11)),
        (b"START layout\n1 1 1 T\ncyclic 3 : 0 0\nlast", (9, 12)),
        (b"START layout\n1 1 1 5\nSTART queue\nlifo", (10, 10)),
    ];
    see(&rt, rt.alloc(), ALONE);
    see_behind_three(&rt, rt.alloc(), BEHIND)
}

// A configuration of 94 bytes in 11 lines.
const WHOLE: &[u8] =
    b"START array\n1 2 1\nSTART disks\nd0\nd1\nSTART spare\ns0\nSTART layout\n32 1 1 5\nSTART queue\nfifo 100\n";

// Each prefix of it, by its length: the first and the last length, and why they are not read. A break of a line at the
// text's end begins no further line.
const CUTS: &[(usize, usize, (u32, u8))] = &[
    // nothing: the first section is missing
    (0, 0, (1, 3)),
    // `S` to `START `: not a line that begins a section, or a section without a name
    (1, 6, (1, 1)),
    // `START a` to `START arra`: no section has this name
    (7, 10, (1, 3)),
    // `START array`, and too few words of the array: none, or `1`
    (11, 14, (2, 1)),
    // `1 2`, a column and two spares, and `1 2 1`: the disks are missing
    (15, 18, (3, 3)),
    // `S` to `START `, where the line of the array stands already
    (19, 24, (3, 1)),
    // `START d` to `START disk`
    (25, 28, (3, 3)),
    // `START disks`, and no name
    (29, 30, (4, 5)),
    // `d` and `d0`: one name of two
    (31, 33, (5, 5)),
    // `d` and `d1` behind `d0`, which differ from it: the spares are missing
    (34, 36, (6, 3)),
    // `S` to `STAR`: a third disk
    (37, 40, (6, 5)),
    // `START`
    (41, 42, (6, 1)),
    // `START s` to `START spar`
    (43, 46, (6, 3)),
    // `START spare`, and no name
    (47, 48, (7, 6)),
    // `s` and `s0`: the layout is missing
    (49, 51, (8, 3)),
    // `S` to `STAR`: a second spare
    (52, 55, (8, 6)),
    // `START`
    (56, 57, (8, 1)),
    // `START l` to `START layou`
    (58, 62, (8, 3)),
    // `START layout`, and too few words of the layout: none, to `32 1 1 `
    (63, 71, (9, 1)),
    // `32 1 1 5`, which ends a configuration
    (72, 73, (0, 0)),
    // `S` to `START `, where the line of the layout stands already
    (74, 79, (10, 1)),
    // `START q` to `START queu`
    (80, 83, (10, 3)),
    // `START queue`, and no line behind it
    (84, 85, (11, 1)),
    // `f` to `fif`: not the queue's word
    (86, 88, (11, 10)),
    // `fifo`, and no number
    (89, 90, (11, 1)),
    // `fifo 1` to the whole
    (91, 94, (0, 0)),
];

// The prefixes of these lengths are refused so.
fn see_cuts(rt: &impl Abort, alloc: Global, first: usize, last: usize, at: (u32, u8)) {
    assert!(rt; last <= WHOLE.len());
    for end in first..=last {
        assert!(rt; end <= WHOLE.len());
        same_at(rt, end, refusal(rt, alloc, &WHOLE[..end]), at);
    }
}

#[test]
fn a_text_cut_short_is_refused_where_it_ends(rt: HostRuntime) {
    let mut next = 0;
    for row in CUTS {
        let (first, last, at) = *row;
        assert!(rt; first == next && last <= WHOLE.len());
        see_cuts(&rt, rt.alloc(), first, last, at);
        next = last + 1;
    }
    assert!(rt; next == WHOLE.len() + 1);
}
