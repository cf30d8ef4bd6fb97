//! Rebuilds in parts: what goes on, what begins anew, and what is refused.
use super::rebuilds::{MIRROR, PAIRS, PLACES, SPARED};
use super::*;
use crate::judging::{holds, same};

// Three columns and a spare that get their labels, and whose parity is initialised; column 1 of which is rebuilt in part; and
// of which it is dead.
pub(super) const LABELLED: Step = Step::Run("r5 -I 7", 0, "labels written 3\nstatus ok\n");

pub(super) const INITIALISED: Step = Step::Run("r5 -i", 0, "parity initialised 64\nstatus ok\n");

pub(super) const PAUSED: Step = Step::Run(
    "r5 -F d1 --limit 20 -w 0",
    0,
    "reconstruct column 1 device 3 paused 20\nstatus ok\n",
);

const FREE: Step = Step::Run(
    "r5 -s",
    0,
    "column 0 d0 optimal\ncolumn 1 d1 failed\ncolumn 2 d2 optimal\nspare 0 s0 free\nparity clean\nstatus ok\n",
);

// The same of seven columns; column 4 is rebuilt into the spare places.
pub(super) const SEVEN: Step = Step::Run("r5 -I 7", 0, "labels written 7\nstatus ok\n");

pub(super) const UNITS: Step = Step::Run("r5 -i", 0, "parity initialised 147\nstatus ok\n");

pub(super) const SPREAD: Step = Step::Run(
    "r5 -F d4 -w 0",
    0,
    "reconstruct column 4 spread done 42\nstatus ok\n",
);

// Column 3 of five is rebuilt in two parts, the second beside two clients with stripes of their own, by four workers. Which of
// their operations commits first isn't settled.
#[test]
fn a_rebuild_goes_on_beside_two_clients(rt: HostRuntime) -> Result<(), Fail> {
    let alloc = rt.alloc();
    let session = Session {
        conf: letters::WIDE,
        script: "0 write 64 256 5a\n0 read 64 256\n1 write 4096 256 c3\n1 read 4096 256\n",
        sectors: 2112,
        ..PLAIN
    };
    const BEGUN: &[Step] = &[
        Step::Run("r5 -I 1001", 0, "labels written 5\nstatus ok\n"),
        Step::Run("r5 -i", 0, "parity initialised 64\nstatus ok\n"),
        Step::Run(
            "r5 -F d3 --limit 20",
            0,
            "reconstruct column 3 device 5 paused 20\nstatus ok\n",
        ),
    ];
    const ENDED: &[Step] = &[
        Step::Run("r5 -p", 0, "parity clean\nstatus ok\n"),
        Step::Run("r5 -f d0", 0, "failed column 0\ndead 0\nstatus ok\n"),
    ];
    let replies =
        b"reply 0.0 done\nreply 0.1 data\nblock 64 256 5a\nreply 1.0 done\nreply 1.1 data\nblock 4096 256 c3\ncommit ";
    let end = b"\nreconstruct column 3 device 5 done 64\nstatus ok\n";
    let mut bay = bay_of(alloc, &session)?;
    act_all(&rt, alloc, &mut bay, BEGUN)?;
    let (number, lines) = answer(&rt, alloc, &mut bay, "r5 --resume --io s1 -w 4")?;
    same(&rt, number, 0);
    holds(&rt, lines.starts_with(replies));
    holds(&rt, lines.ends_with(end));
    same(&rt, lines.len(), replies.len() + 36 + end.len());
    act_all(&rt, alloc, &mut bay, ENDED)?;
    let (_, lines) = answer(&rt, alloc, &mut bay, "r5 --io s1 -w 4")?;
    holds(&rt, lines.starts_with(replies));
    Ok(())
}

// The spare on which column 1 is half rebuilt is in its seat: `-F` of the column finds none that is free. `-R` begins anew on
// the column's own disk, and leaves the spare free. A limit of all stripes, or above, is none. Two stripes of two mirrored
// columns are traced: the head counts the rebuilds that are added, however many may be.
#[test]
fn a_rebuild_of_the_same_column_begins_anew(rt: HostRuntime) -> Result<(), Fail> {
    const SESSIONS: &[Session] = &[
        Session {
            conf: SPARED,
            steps: &[
                Step::Run("r5 -I 7", 0, "labels written 3\nstatus ok\n"),
                Step::Run("r5 -i", 0, "parity initialised 64\nstatus ok\n"),
                Step::Run(
                    "r5 -F d1 --limit 20 -w 0",
                    0,
                    "reconstruct column 1 device 3 paused 20\nstatus ok\n",
                ),
                Step::Run("r5 -F d1", 12, "status nospare\n"),
                Step::Run("r5 -F d1 --limit 5", 12, "status nospare\n"),
                Step::Run("r5 -g s0", 0, "label 2 7 5 1 3 1 64 53 1\nstatus ok\n"),
                Step::Run(
                    "r5 -R d1 --limit 10 -w 0",
                    0,
                    "reconstruct column 1 device 1 paused 10\nstatus ok\n",
                ),
                Step::Run(
                    "r5 -s",
                    0,
                    "column 0 d0 optimal\ncolumn 1 d1 rebuilding 10\ncolumn 2 d2 optimal\nspare 0 s0 free\nparity clean\nstatus ok\n",
                ),
                Step::Run(
                    "r5 --resume --limit 30 -w 0",
                    0,
                    "reconstruct column 1 device 1 paused 40\nstatus ok\n",
                ),
                Step::Run(
                    "r5 -F d1 --limit 100 -w 0",
                    0,
                    "reconstruct column 1 device 3 done 64\nstatus ok\n",
                ),
                Step::Run(
                    "r5 -R d1 --limit 64 -w 0",
                    0,
                    "reconstruct column 1 device 1 done 64\nstatus ok\n",
                ),
            ],
            ..PLAIN
        },
        Session {
            conf: MIRROR,
            sectors: 66,
            steps: &[
                Step::Run("r5 -I 7", 0, "labels written 2\nstatus ok\n"),
                Step::Run(
                    "r5 -F d1 --limit 1 --io t1 --trace -w 0",
                    0,
                    "fill 1 2 1\nbegin 16.0\ntake 16.0\nfire 16.0 0\ngood 16.0 0\nfire 16.0 1\ngood 16.0 1\nfire 16.0 2\ngood 16.0 2\nfire 16.0 3\ngood 16.0 3\nfire 16.0 4\ngood 16.0 4\nreconstruct column 1 device 2 paused 1\nstatus ok\n",
                ),
                Step::Run(
                    "r5 --resume --limit 9 --io t1 --trace -w 0",
                    0,
                    "resume 1 1\nbegin 16.0\ntake 16.0\nfire 16.0 0\ngood 16.0 0\nfire 16.0 1\ngood 16.0 1\nfire 16.0 2\ngood 16.0 2\nfire 16.0 3\ngood 16.0 3\nfire 16.0 4\ngood 16.0 4\nreconstruct column 1 device 2 done 2\nstatus ok\n",
                ),
            ],
            ..PLAIN
        },
    ];
    play(&rt, rt.alloc(), SESSIONS)
}

// Column 0 of two mirrored pairs is half rebuilt, and column 3 fails: both pairs keep a column. Neither of these may fail too:
// stripe 2 is the first of columns 0 and 1 that isn't done, and stripe 1 is of columns 2 and 3. The rebuild goes on beside the
// dead column.
#[test]
fn a_rebuild_goes_on_beside_a_dead_column(rt: HostRuntime) -> Result<(), Fail> {
    const SESSIONS: &[Session] = &[Session {
        conf: PAIRS,
        script: "0 write 0 4 a5\n",
        other: "0 read 0 4\n",
        steps: &[
            Step::Run("r5 -I 7", 0, "labels written 4\nstatus ok\n"),
            Step::Run("r5 -i", 0, "parity initialised 128\nstatus ok\n"),
            Step::Run(
                "r5 --io s1 -w 0",
                0,
                "reply 0.0 done\ncommit 0.0\nstatus ok\n",
            ),
            Step::Run(
                "r5 -F d0 --limit 1 -w 0",
                0,
                "reconstruct column 0 device 4 paused 1\nstatus ok\n",
            ),
            Step::Run("r5 -f d3", 0, "failed column 3\ndead 3\nstatus ok\n"),
            Step::Run(
                "r5 -s",
                0,
                "column 0 d0 rebuilding 1\ncolumn 1 d1 optimal\ncolumn 2 d2 optimal\ncolumn 3 d3 failed\nspare 0 s0 used\nspare 1 z free\nparity clean\nstatus ok\n",
            ),
            Step::Run("r5 -f d1", 8, "dead 0\ndead 1\ndead 3\nstatus lost 0 1 2\n"),
            Step::Run("r5 -f d2", 8, "dead 0\ndead 2\ndead 3\nstatus lost 2 3 1\n"),
            Step::Run("r5 -F d3", 15, "status rebuilding 0\n"),
            Step::Run(
                "r5 --resume -w 0",
                0,
                "reconstruct column 0 device 4 done 64\ndead 3\nstatus ok\n",
            ),
            Step::Run(
                "r5 -F d3 -w 0",
                0,
                "reconstruct column 3 device 5 done 64\nstatus ok\n",
            ),
            Step::Run("r5 -f d1", 0, "failed column 1\ndead 1\nstatus ok\n"),
            Step::Run(
                "r5 -f d2",
                0,
                "failed column 2\ndead 1\ndead 2\nstatus ok\n",
            ),
            Step::Run(
                "r5 --io t1 -w 0",
                0,
                "reply 0.0 data\nblock 0 4 a5\ncommit 0.0\ndead 1\ndead 2\nstatus ok\n",
            ),
        ],
        ..PLAIN
    }];
    play(&rt, rt.alloc(), SESSIONS)
}

// By its calls from 0 on the spare's first sector is read by `-i` and by `-F`, 20 units are written, and it is settled, labelled
// and settled; by those from 25 on its first sector and its map are read, its label is written, and it is settled. It fails at
// a unit; at its label of the closing round, when 20 stripes are rebuilt; as a client writes on it, by its call 29; as it is
// read again; and at its label of the opening round. By its call 54 the disk of column 0 fails, as the array is closed: then it is lost, and
// nothing is paused. Call 0 wrote its label; by those from 1 on its parity was initialised: its first sector and its map were
// read, its label written, it was settled, all 64 rows read by one call, 21 check units written, and it was settled, labelled
// and settled; by those from 30 on its first sector and its map were read, its label written, it was settled, and 20 units
// read.
#[test]
fn a_column_that_is_half_rebuilt_dies(rt: HostRuntime) -> Result<(), Fail> {
    const SESSIONS: &[Session] = &[
        Session {
            conf: SPARED,
            fails: &[("s0", 10)],
            steps: &[
                LABELLED,
                INITIALISED,
                Step::Run(
                    "r5 -F d1 --limit 20 -w 0",
                    0,
                    "reconstruct column 1 device 3 stopped\ndead 1\nstatus ok\n",
                ),
                Step::Run("r5 --resume", 14, "status norebuild\n"),
                FREE,
            ],
            ..PLAIN
        },
        Session {
            conf: SPARED,
            fails: &[("s0", 23)],
            steps: &[
                LABELLED,
                INITIALISED,
                Step::Run(
                    "r5 -F d1 --limit 20 -w 0",
                    0,
                    "reconstruct column 1 device 3 paused 20\ndead 1\nstatus ok\n",
                ),
                Step::Run("r5 --resume", 14, "status norebuild\n"),
                FREE,
            ],
            ..PLAIN
        },
        Session {
            conf: SPARED,
            script: "0 write 1 1 a5\n0 write 127 1 b6\n",
            other: "0 read 1 1\n0 read 127 1\n",
            fails: &[("s0", 29)],
            steps: &[
                LABELLED,
                INITIALISED,
                PAUSED,
                Step::Run(
                    "r5 --io s1 -w 0",
                    0,
                    "reply 0.0 done\nreply 0.1 done\ncommit 0.0\ncommit 0.1\ndead 1\nstatus ok\n",
                ),
                Step::Run("r5 --resume", 14, "status norebuild\n"),
                FREE,
                Step::Run(
                    "r5 --io t1 -w 0",
                    0,
                    "reply 0.0 data\nblock 1 1 a5\nreply 0.1 data\nblock 127 1 b6\ncommit 0.0\ncommit 0.1\ndead 1\nstatus ok\n",
                ),
            ],
            ..PLAIN
        },
        Session {
            conf: SPARED,
            fails: &[("s0", 25)],
            steps: &[
                LABELLED,
                INITIALISED,
                PAUSED,
                Step::Run("r5 --resume", 14, "status norebuild\n"),
                Step::Run(
                    "r5 --resume -w 0",
                    0,
                    "reconstruct column 1 device 3 done 64\nstatus ok\n",
                ),
            ],
            ..PLAIN
        },
        Session {
            conf: SPARED,
            fails: &[("s0", 27)],
            steps: &[
                LABELLED,
                INITIALISED,
                PAUSED,
                Step::Run(
                    "r5 --resume -w 0",
                    0,
                    "reconstruct column 1 device 3 stopped\ndead 1\nstatus ok\n",
                ),
                FREE,
            ],
            ..PLAIN
        },
        Session {
            conf: SPARED,
            fails: &[("d0", 54)],
            steps: &[
                LABELLED,
                INITIALISED,
                Step::Run(
                    "r5 -F d1 --limit 20 -w 0",
                    8,
                    "reconstruct column 1 device 3 stopped\ndead 0\ndead 1\nstatus lost 0 1 0\n",
                ),
                Step::Run("r5 --resume", 8, "dead 0\ndead 1\nstatus lost 0 1 0\n"),
            ],
            ..PLAIN
        },
    ];
    play(&rt, rt.alloc(), SESSIONS)
}

// Byte 40 of a label says whether the array was closed. A call that was killed leaves it at 0: then the column is dead as the
// array is opened, with its spare in the seat, which the next run leaves free.
#[test]
fn a_call_that_is_killed_ends_a_paused_rebuild(rt: HostRuntime) -> Result<(), Fail> {
    const SESSIONS: &[Session] = &[Session {
        conf: SPARED,
        script: "0 write 0 4 a5\n",
        other: "0 read 0 4\n",
        steps: &[
            LABELLED,
            INITIALISED,
            Step::Run(
                "r5 --io s1 -w 0",
                0,
                "reply 0.0 done\ncommit 0.0\nstatus ok\n",
            ),
            PAUSED,
            Step::Put("d0", 40, 0),
            Step::Put("s0", 40, 0),
            Step::Put("d2", 40, 0),
            Step::Run(
                "r5 -s",
                0,
                "column 0 d0 optimal\ncolumn 1 d1 failed\ncolumn 2 d2 optimal\nspare 0 s0 used\nparity dirty\nstatus ok\n",
            ),
            Step::Run("r5 --resume", 14, "status norebuild\n"),
            Step::Run("r5 -F d1", 12, "status nospare\n"),
            Step::Run(
                "r5 --io t1 -w 0",
                0,
                "reply 0.0 data\nblock 0 4 a5\ncommit 0.0\ndead 1\nstatus ok\n",
            ),
            FREE,
            Step::Run(
                "r5 -F d1 -w 0",
                0,
                "reconstruct column 1 device 3 done 64\nstatus ok\n",
            ),
        ],
        ..PLAIN
    }];
    play(&rt, rt.alloc(), SESSIONS)
}

// Column 4 of seven is spread, and column 2, 3 or 1 half rebuilt on its own disk: of its 49 stripes 7 have a unit on column 4
// and their spare place on it. Where column 4 fails it has the other 42, and of those that are done as many are counted: 41 of
// 48, all 42 of 48, or 37 of 43. But stripe 78 has units on columns 2 and 4, and isn't among the first 20. A client fails column
// 4 before two more of the 37 are rebuilt.
#[test]
fn stripes_are_counted_anew_where_a_spread_column_fails(rt: HostRuntime) -> Result<(), Fail> {
    const SESSIONS: &[Session] = &[
        Session {
            conf: PLACES,
            steps: &[
                SEVEN,
                UNITS,
                SPREAD,
                Step::Run(
                    "r5 -R d2 --limit 20 -w 0",
                    0,
                    "reconstruct column 2 device 2 paused 20\nstatus ok\n",
                ),
                Step::Run("r5 -f d4", 8, "dead 2\ndead 4\nstatus lost 2 4 78\n"),
                Step::Run(
                    "r5 --resume --limit 28 -w 0",
                    0,
                    "reconstruct column 2 device 2 paused 48\nstatus ok\n",
                ),
                Step::Run("r5 -f d4", 0, "failed column 4\ndead 4\nstatus ok\n"),
                Step::Run(
                    "r5 -s",
                    0,
                    "column 0 d0 optimal\ncolumn 1 d1 optimal\ncolumn 2 d2 rebuilding 41\ncolumn 3 d3 optimal\ncolumn 4 d4 failed\ncolumn 5 d5 optimal\ncolumn 6 d6 optimal\nparity clean\nstatus ok\n",
                ),
                Step::Run(
                    "r5 --resume -w 0",
                    0,
                    "reconstruct column 2 device 2 done 42\ndead 4\nstatus ok\n",
                ),
                Step::Run("r5 -p", 0, "parity clean\ndead 4\nstatus ok\n"),
            ],
            ..PLAIN
        },
        Session {
            conf: PLACES,
            steps: &[
                SEVEN,
                UNITS,
                SPREAD,
                Step::Run(
                    "r5 -R d3 --limit 48 -w 0",
                    0,
                    "reconstruct column 3 device 3 paused 48\nstatus ok\n",
                ),
                Step::Run("r5 -f d4", 0, "failed column 4\ndead 4\nstatus ok\n"),
                Step::Run(
                    "r5 -s",
                    0,
                    "column 0 d0 optimal\ncolumn 1 d1 optimal\ncolumn 2 d2 optimal\ncolumn 3 d3 optimal\ncolumn 4 d4 failed\ncolumn 5 d5 optimal\ncolumn 6 d6 optimal\nparity clean\nstatus ok\n",
                ),
                Step::Run("r5 --resume", 14, "status norebuild\n"),
            ],
            ..PLAIN
        },
        Session {
            conf: PLACES,
            script: "0 fail 4\n",
            steps: &[
                SEVEN,
                UNITS,
                SPREAD,
                Step::Run(
                    "r5 -R d1 --limit 43 -w 0",
                    0,
                    "reconstruct column 1 device 1 paused 43\nstatus ok\n",
                ),
                Step::Run(
                    "r5 --resume --limit 2 --io s1 -w 0",
                    0,
                    "reply 0.0 ok\nreconstruct column 1 device 1 paused 39\ndead 4\nstatus ok\n",
                ),
                Step::Run(
                    "r5 --resume -w 0",
                    0,
                    "reconstruct column 1 device 1 done 42\ndead 4\nstatus ok\n",
                ),
            ],
            ..PLAIN
        },
    ];
    play(&rt, rt.alloc(), SESSIONS)
}
