//! The calls that are stopped, their rounds, and what is wanted behind a stop in each.
use super::super::{PLAIN, Session};

// Block B is filled with the byte B + 1.
const FIRST: &str = "\
    0 write 0 1 01\n0 write 1 1 02\n0 write 2 1 03\n0 write 3 1 04\n0 write 4 1 05\n\
    0 write 5 1 06\n0 write 6 1 07\n0 write 7 1 08\n0 write 8 1 09\n0 write 9 1 0a\n\
    0 write 10 1 0b\n0 write 11 1 0c\n0 write 12 1 0d\n0 write 13 1 0e\n0 write 14 1 0f\n\
    0 write 15 1 10\n";

// All blocks as they were before a call,
pub(super) const BEFORE: &str = "\
    reply 0.0 data\nblock 0 1 01\nblock 1 1 02\nblock 2 1 03\nblock 3 1 04\nblock 4 1 05\n\
    block 5 1 06\nblock 6 1 07\nblock 7 1 08\nblock 8 1 09\nblock 9 1 0a\nblock 10 1 0b\n\
    block 11 1 0c\nblock 12 1 0d\nblock 13 1 0e\nblock 14 1 0f\nblock 15 1 10\n";

// and behind one that wrote three of them.
pub(super) const AFTER: &str = "\
    reply 0.0 data\nblock 0 1 01\nblock 1 1 02\nblock 2 3 a5\nblock 5 1 06\nblock 6 1 07\n\
    block 7 1 08\nblock 8 1 09\nblock 9 1 0a\nblock 10 1 0b\nblock 11 1 0c\nblock 12 1 0d\n\
    block 13 1 0e\nblock 14 1 0f\nblock 15 1 10\n";

// Eight stripes on three columns, with a spare. The call that is stopped writes stripe 1, and half of stripe 2.
pub(super) const ARRAY: Session = Session {
    conf: "START array\n1 3 1\nSTART disks\nd0\nd1\nd2\nSTART spare\ns0\nSTART layout\n1 1 1 5\n",
    script: FIRST,
    other: "0 write 2 3 a5\n",
    more: "0 read 0 16\n",
    sectors: 72,
    ..PLAIN
};

// Five rounds of labels, the last of them clean.
pub(super) const LABELLED: &[&str] = &["r5 -I 7", "r5 -i", "r5 --io s1 -w 0"];

// One round more, which leaves column 1 out.
const DEGRADED: &[&str] = &["r5 -I 7", "r5 -i", "r5 --io s1 -w 0", "r5 -f d1"];

// Two rounds more. The spare has three of the eight stripes of column 1.
const PAUSED: &[&str] = &[
    "r5 -I 7",
    "r5 -i",
    "r5 --io s1 -w 0",
    "r5 -F d1 --limit 3 -w 0",
];

// What `-s --adopt` shows,
const CLEAN: &str =
    "column 0 d0 optimal\ncolumn 1 d1 optimal\ncolumn 2 d2 optimal\nspare 0 s0 free\nparity clean\nstatus ok\n";

const DIRTY: &str =
    "column 0 d0 optimal\ncolumn 1 d1 optimal\ncolumn 2 d2 optimal\nspare 0 s0 free\nparity dirty\nstatus ok\n";

pub(super) const FAILED: &str =
    "column 0 d0 optimal\ncolumn 1 d1 failed\ncolumn 2 d2 optimal\nspare 0 s0 free\nparity clean\nstatus ok\n";

const FAILED_DIRTY: &str =
    "column 0 d0 optimal\ncolumn 1 d1 failed\ncolumn 2 d2 optimal\nspare 0 s0 free\nparity dirty\nstatus ok\n";

const SPARED: &str =
    "column 0 d0 optimal\ncolumn 1 d1 spared 0\ncolumn 2 d2 optimal\nspare 0 s0 used\nparity clean\nstatus ok\n";

const FILLING: &str =
    "column 0 d0 optimal\ncolumn 1 d1 rebuilding 3\ncolumn 2 d2 optimal\nspare 0 s0 used\nparity clean\nstatus ok\n";

const UNFILLED: &str =
    "column 0 d0 optimal\ncolumn 1 d1 failed\ncolumn 2 d2 optimal\nspare 0 s0 used\nparity dirty\nstatus ok\n";

// and what `-P --adopt` prints.
const WHOLE: &str = "parity rewritten 0\nstatus ok\n";

pub(super) const DEAD: &str = "parity rewritten 0\ndead 1\nstatus ok\n";

/// Sector 0 of a component.
#[derive(Clone, Copy)]
pub(super) enum Label {
    /// What it held before the call.
    Found,
    /// The label of the call's first round: the same with this counter, and not clean.
    Begun(u8),
    /// What it holds behind the call.
    Ended,
}

/// A round of labels of a call.
#[derive(Clone, Copy)]
pub(super) struct Round {
    /// The rows are those behind the call,
    pub(super) written: bool,
    /// and sector 1 of each column's disk marks these regions.
    pub(super) marks: u8,
    /// What d0, d1, d2 and s0 have for a label as the round begins,
    pub(super) from: [Label; 4],
    /// on which of them it is written,
    pub(super) devices: &'static [&'static str],
    /// and what is written.
    pub(super) to: Label,
    /// What is shown and printed where no label of the round is left,
    pub(super) none: (&'static str, &'static str),
    /// and where some are.
    pub(super) some: (&'static str, &'static str),
    /// The place among the devices of one that has no label of its column before the round.
    pub(super) bare: Option<usize>,
}

/// A call that is stopped.
#[derive(Clone, Copy)]
pub(super) struct Stopped {
    pub(super) setup: &'static [&'static str],
    /// Column 1 has a new disk then.
    pub(super) renewed: bool,
    pub(super) words: &'static str,
    pub(super) rounds: &'static [Round],
}

// The round that says that the array isn't clean, before anything else is written.
pub(super) const OPENING: Round = Round {
    written: false,
    marks: 0,
    from: [Label::Found; 4],
    devices: &["d0", "d1", "d2"],
    to: Label::Begun(6),
    none: (CLEAN, WHOLE),
    some: (DIRTY, WHOLE),
    bare: None,
};

// The round behind all that is written.
const CLOSING: Round = Round {
    written: true,
    from: [
        Label::Begun(6),
        Label::Begun(6),
        Label::Begun(6),
        Label::Found,
    ],
    to: Label::Ended,
    none: (DIRTY, WHOLE),
    some: (CLEAN, WHOLE),
    ..OPENING
};

pub(super) const CALLS: &[Stopped] = &[
    Stopped {
        setup: LABELLED,
        renewed: false,
        words: "r5 --io t1 -w 0",
        rounds: &[OPENING, CLOSING],
    },
    // With a map the labels are those of before until the one round.
    Stopped {
        setup: LABELLED,
        renewed: false,
        words: "r5 --io t1 -w 0 --map",
        rounds: &[Round {
            marks: 6,
            from: [Label::Found; 4],
            none: (DIRTY, WHOLE),
            some: (DIRTY, WHOLE),
            ..CLOSING
        }],
    },
    Stopped {
        setup: LABELLED,
        renewed: false,
        words: "r5 -i",
        rounds: &[OPENING, CLOSING],
    },
    Stopped {
        setup: LABELLED,
        renewed: false,
        words: "r5 -P",
        rounds: &[OPENING, CLOSING],
    },
    Stopped {
        setup: LABELLED,
        renewed: false,
        words: "r5 -f d1",
        rounds: &[Round {
            devices: &["d0", "d2"],
            to: Label::Ended,
            some: (FAILED, DEAD),
            ..OPENING
        }],
    },
    // The last round is the first that names the spare, which has no label before.
    Stopped {
        setup: LABELLED,
        renewed: false,
        words: "r5 -F d1 -w 0",
        rounds: &[
            OPENING,
            Round {
                devices: &["d0", "s0", "d2"],
                some: (SPARED, WHOLE),
                bare: Some(1),
                ..CLOSING
            },
        ],
    },
    Stopped {
        setup: LABELLED,
        renewed: false,
        words: "r5 -F d1 --limit 3 -w 0",
        rounds: &[
            OPENING,
            Round {
                devices: &["d0", "s0", "d2"],
                some: (FILLING, WHOLE),
                bare: Some(1),
                ..CLOSING
            },
        ],
    },
    // A column that is half rebuilt is dead where the newest label isn't clean.
    Stopped {
        setup: PAUSED,
        renewed: false,
        words: "r5 --resume -w 0",
        rounds: &[
            Round {
                devices: &["d0", "s0", "d2"],
                to: Label::Begun(8),
                none: (FILLING, WHOLE),
                some: (UNFILLED, DEAD),
                ..OPENING
            },
            Round {
                from: [
                    Label::Begun(8),
                    Label::Found,
                    Label::Begun(8),
                    Label::Begun(8),
                ],
                devices: &["d0", "s0", "d2"],
                none: (UNFILLED, DEAD),
                some: (SPARED, WHOLE),
                ..CLOSING
            },
        ],
    },
    Stopped {
        setup: DEGRADED,
        renewed: true,
        words: "r5 -R d1 -w 0",
        rounds: &[
            Round {
                devices: &["d0", "d2"],
                to: Label::Begun(7),
                none: (FAILED, DEAD),
                some: (FAILED_DIRTY, DEAD),
                ..OPENING
            },
            Round {
                from: [Label::Begun(7), Label::Found, Label::Begun(7), Label::Found],
                none: (FAILED_DIRTY, DEAD),
                bare: Some(1),
                ..CLOSING
            },
        ],
    },
];
