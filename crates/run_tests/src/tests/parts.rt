//! What happens between the parts of a rebuild.
use super::rebuilds::{PAIRS, SPARED};
use super::resumed::{INITIALISED, LABELLED, PAUSED};
use super::*;

// Two mirrored pairs, labelled and initialised, and four blocks written: blocks 0 and 2 stand in columns 0 and 1, blocks 1 and 3
// in columns 2 and 3.
const LABELLED_PAIRS: Step = Step::Run("r5 -I 7", 0, "labels written 4\nstatus ok\n");

const INITIALISED_PAIRS: Step = Step::Run("r5 -i", 0, "parity initialised 128\nstatus ok\n");

const WRITTEN: Step = Step::Run(
    "r5 --io s1 -w 0",
    0,
    "reply 0.0 done\ncommit 0.0\nstatus ok\n",
);

// Five of column 0's stripes are rebuilt onto the first spare. Then its rebuild begins anew onto the second, since the first is
// in the column's seat: of the five none is done there, so with column 1 the array would be lost by stripe 2. All of its 64
// stripes are left but one.
const ANEW: Session = Session {
    conf: PAIRS,
    script: "0 write 0 4 a5\n",
    other: "0 read 0 4\n",
    steps: &[
        LABELLED_PAIRS,
        INITIALISED_PAIRS,
        WRITTEN,
        Step::Run(
            "r5 -F d0 --limit 5 -w 0",
            0,
            "reconstruct column 0 device 4 paused 5\nstatus ok\n",
        ),
        Step::Holds("s0", "0 mixed\n64 a5\n65 a5\n"),
        Step::Run(
            "r5 -F d0 --limit 1 -w 0",
            0,
            "reconstruct column 0 device 5 paused 1\nstatus ok\n",
        ),
        Step::Holds("z", "0 mixed\n64 a5\n"),
        Step::Run(
            "r5 -s",
            0,
            "column 0 d0 rebuilding 1\ncolumn 1 d1 optimal\ncolumn 2 d2 optimal\ncolumn 3 d3 optimal\nspare 0 s0 free\nspare 1 z used\nparity clean\nstatus ok\n",
        ),
        Step::Run("r5 -g z", 0, "label 2 7 9 0 4 1 64 49 1\nstatus ok\n"),
        Step::Run("r5 -f d1", 8, "dead 0\ndead 1\nstatus lost 0 1 2\n"),
        Step::Run(
            "r5 --resume --limit 62 -w 0",
            0,
            "reconstruct column 0 device 5 paused 63\nstatus ok\n",
        ),
        Step::Run(
            "r5 --resume --limit 1 -w 0",
            0,
            "reconstruct column 0 device 5 done 64\nstatus ok\n",
        ),
        Step::Run("r5 -f d1", 0, "failed column 1\ndead 1\nstatus ok\n"),
        Step::Run(
            "r5 --io t1 -w 0",
            0,
            "reply 0.0 data\nblock 0 4 a5\ncommit 0.0\ndead 1\nstatus ok\n",
        ),
    ],
    ..PLAIN
};

// The disk of column 3 has 72 calls until the array is initialised; for a rebuild of column 0 its first sector and its map are
// read, it is labelled and settled, and settled, labelled and settled; and for a write its first sector and its map are read, it
// is labelled and settled, and the unit of block 1 is written, which fails. The rebuild goes on beside that dead column.
const ANOTHER_FAILS: Session = Session {
    conf: PAIRS,
    script: "0 write 0 4 a5\n",
    other: "0 read 0 4\n",
    fails: &[("d3", 83)],
    steps: &[
        LABELLED_PAIRS,
        INITIALISED_PAIRS,
        Step::Run(
            "r5 -F d0 --limit 1 -w 0",
            0,
            "reconstruct column 0 device 4 paused 1\nstatus ok\n",
        ),
        Step::Run(
            "r5 --io s1 -w 0",
            0,
            "reply 0.0 done\ncommit 0.0\ndead 3\nstatus ok\n",
        ),
        Step::Run(
            "r5 --resume -w 0",
            0,
            "reconstruct column 0 device 4 done 64\ndead 3\nstatus ok\n",
        ),
        Step::Run(
            "r5 --io t1 -w 0",
            0,
            "reply 0.0 data\nblock 0 4 a5\ncommit 0.0\ndead 3\nstatus ok\n",
        ),
    ],
    ..PLAIN
};

#[test]
fn a_rebuild_begins_anew_or_goes_on_beside_a_failure(rt: HostRuntime) -> Result<(), Fail> {
    const SESSIONS: &[Session] = &[ANEW, ANOTHER_FAILS];
    play(&rt, rt.alloc(), SESSIONS)
}

// A label of serial 7, counter 5, column 1 of three, with units of one sector, 64 rows, level 5, clean; no design; column 1 is on
// the first spare; column 1 is filling, and 20 of its stripes are done.
const HALF: &[u8] =
    b"RFLABEL1\x02\0\0\0\x07\0\0\0\x05\0\0\0\x01\0\0\0\x03\0\0\0\x01\0\0\0\x40\0\0\0\x35\0\0\0\x01\0\0\0\0\0\0\0\0\0\0\0\0\0\0\0\0\0\0\0\0\x01\0\0\0\0\0\0\0\0\0\0\0\0\0\0\0\0\0\0\0\0\0\0\0\0\0\0\0\0\0\0\x02\0\0\0\x14\0\0\0\0\0\0\0";

// Of column 1's 64 stripes 20 are done, which are all that sweeps see. Stripe 0 has its check unit on column 2 and stripe 19 on
// column 1; stripe 20 isn't done. What stands on the spare in their rows isn't what it should be.
const SWEPT: Session = Session {
    conf: SPARED,
    steps: &[
        LABELLED,
        INITIALISED,
        PAUSED,
        Step::Begins("s0", HALF),
        Step::Run("r5 -i", 0, "parity initialised 20\nstatus ok\n"),
        Step::Spoil("s0", 64, 0xff),
        Step::Spoil("s0", 83, 0x77),
        Step::Spoil("s0", 84, 0x33),
        Step::Run("r5 -p", 11, "status parity 2\n"),
        Step::Run("r5 -P", 0, "parity rewritten 2\nstatus ok\n"),
        Step::Holds("d2", "0 mixed\n64 ff\n"),
        Step::Holds("s0", "0 mixed\n64 ff\n84 33\n"),
        Step::Run("r5 -p", 0, "parity clean\nstatus ok\n"),
        Step::Run(
            "r5 -s",
            0,
            "column 0 d0 optimal\ncolumn 1 d1 rebuilding 20\ncolumn 2 d2 optimal\nspare 0 s0 used\nparity clean\nstatus ok\n",
        ),
        Step::Run(
            "r5 --resume -w 0",
            0,
            "reconstruct column 1 device 3 done 64\nstatus ok\n",
        ),
        Step::Holds("s0", "0 mixed\n64 ff\n"),
        Step::Run("r5 -p", 0, "parity clean\nstatus ok\n"),
    ],
    ..PLAIN
};

#[test]
fn sweeps_see_the_stripes_that_are_done(rt: HostRuntime) -> Result<(), Fail> {
    const SESSIONS: &[Session] = &[SWEPT];
    play(&rt, rt.alloc(), SESSIONS)
}
