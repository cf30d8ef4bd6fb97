//! Columns that are rebuilt.
use super::*;

pub(super) const SPARED: &str =
    "START array\n1 3 1\nSTART disks\nd0\nd1\nd2\nSTART spare\ns0\nSTART layout\n1 1 1 5\n";

pub(super) const MIRROR: &str =
    "START array\n1 2 1\nSTART disks\nd0\nd1\nSTART spare\ns0\nSTART layout\n1 1 1 1\n";

// Two mirrored pairs, and two spares.
pub(super) const PAIRS: &str =
    "START array\n1 4 2\nSTART disks\nd0\nd1\nd2\nd3\nSTART spare\ns0\nz\nSTART layout\n1 1 1 1\n";

pub(super) const PLACES: &str =
    "START array\n1 7 0\nSTART disks\nd0\nd1\nd2\nd3\nd4\nd5\nd6\nSTART layout\n1 1 1 D\ncyclic 7 : 0 1 3\n";

// What is read of 16 blocks behind the failure of column 2.
const READ: &str = "reply 0.0 ok\nreply 0.1 data\nblock 0 16 c3\ncommit 0.1\ndead 2\nstatus ok\n";

// Column 4 of seven has a unit of 42 stripes. Rebuilt into their spare places, it lets another column fail. That one's disk is
// replaced, and rebuilt: 42 stripes have a unit on it, and 7 have one on column 4 and their spare place on it; block 1 is read
// from such a place.
#[test]
fn columns_are_rebuilt_into_spare_places(rt: HostRuntime) -> Result<(), Fail> {
    const SESSIONS: &[Session] = &[Session {
        conf: PLACES,
        script: "0 write 0 16 c3\n",
        other: "0 fail 2\n0 read 0 16\n",
        more: "0 read 0 16\n",
        steps: &[
            Step::Run("r5 -I 7", 0, "labels written 7\nstatus ok\n"),
            Step::Run("r5 -i", 0, "parity initialised 147\nstatus ok\n"),
            Step::Run(
                "r5 --io s1 -w 0",
                0,
                "reply 0.0 done\ncommit 0.0\nstatus ok\n",
            ),
            Step::Run(
                "r5 -F d4 -w 0",
                0,
                "reconstruct column 4 spread done 42\nstatus ok\n",
            ),
            Step::Run("r5 -F d4", 12, "status nospare\n"),
            Step::Run("r5 --io t1 -w 0", 0, READ),
            Step::Renew("d2"),
            Step::Run(
                "r5 -R d2 -w 0",
                0,
                "reconstruct column 2 device 2 done 49\nstatus ok\n",
            ),
            Step::Run(
                "r5 --io t2 -w 0",
                0,
                "reply 0.0 data\nblock 0 16 c3\ncommit 0.0\nstatus ok\n",
            ),
            Step::Run("r5 -p", 0, "parity clean\nstatus ok\n"),
            Step::Run("r5 --io t1", 0, READ),
        ],
        ..PLAIN
    }];
    play(&rt, rt.alloc(), SESSIONS)
}

// Calls 0 to 2 of the spare read its first sector, and the write of sector 96 is that of stripe 32, call 35: the column stays
// dead, and the spare free; and the data of before are there. Without a spare that is free nothing is written, no label
// either. The disk of column 1 fails as its first sector is read, by its call 32: its parity took one read of all 64 rows, which
// are less than 64 KiB, and 21 writes, since its unit is the check unit where the stripe is 1 modulo 3. It isn't rebuilt.
#[test]
fn a_rebuild_is_stopped(rt: HostRuntime) -> Result<(), Fail> {
    const SESSIONS: &[Session] = &[
        Session {
            conf: SPARED,
            script: "0 write 0 4 a5\n",
            other: "0 read 0 4\n",
            fails: &[("s0", 35)],
            steps: &[
                Step::Run("r5 -I 7", 0, "labels written 3\nstatus ok\n"),
                Step::Run("r5 -i", 0, "parity initialised 64\nstatus ok\n"),
                Step::Run(
                    "r5 --io s1 -w 0",
                    0,
                    "reply 0.0 done\ncommit 0.0\nstatus ok\n",
                ),
                Step::Run(
                    "r5 -F d1 -w 0",
                    0,
                    "reconstruct column 1 device 3 stopped\ndead 1\nstatus ok\n",
                ),
                Step::Run(
                    "r5 -s",
                    0,
                    "column 0 d0 optimal\ncolumn 1 d1 failed\ncolumn 2 d2 optimal\nspare 0 s0 free\nparity clean\nstatus ok\n",
                ),
                Step::Run(
                    "r5 --io t1 -w 0",
                    0,
                    "reply 0.0 data\nblock 0 4 a5\ncommit 0.0\ndead 1\nstatus ok\n",
                ),
                Step::Run("r5 -F d2", 8, "dead 1\ndead 2\nstatus lost 1 2 0\n"),
                Step::Run(
                    "r5 -F d1",
                    0,
                    "reconstruct column 1 device 3 done 64\nstatus ok\n",
                ),
            ],
            ..PLAIN
        },
        Session {
            fails: &[("d1", 32)],
            steps: &[
                Step::Run("r5 -I 7", 0, "labels written 3\nstatus ok\n"),
                Step::Run("r5 -F d1", 12, "status nospare\n"),
                Step::Run("r5 -g d0", 0, "label 2 7 1 0 3 1 64 53 0\nstatus ok\n"),
                Step::Run("r5 -g d1", 0, "label 2 7 1 1 3 1 64 53 0\nstatus ok\n"),
                Step::Run("r5 -g d2", 0, "label 2 7 1 2 3 1 64 53 0\nstatus ok\n"),
                Step::Run("r5 -i", 0, "parity initialised 64\nstatus ok\n"),
                Step::Run(
                    "r5 -R d1 --io s1 -w 0",
                    0,
                    "reply 0.0 done\nreply 0.1 data\nblock 0 1 a5\ncommit 0.0\ncommit 0.1\nreconstruct column 1 device 1 stopped\ndead 1\nstatus ok\n",
                ),
            ],
            ..PLAIN
        },
    ];
    play(&rt, rt.alloc(), SESSIONS)
}

// A disk without a label is refused, and its column is rebuilt on it.
#[test]
fn a_replaced_disk_is_rebuilt(rt: HostRuntime) -> Result<(), Fail> {
    const SESSIONS: &[Session] = &[Session {
        conf: letters::WIDE,
        sectors: 2112,
        steps: &[
            Step::Run("r5 -I 1001", 0, "labels written 5\nstatus ok\n"),
            Step::Run("r5 -i", 0, "parity initialised 64\nstatus ok\n"),
            Step::Renew("d2"),
            Step::Run("r5 -s", 9, "status label 2 1 0 0\n"),
            Step::Run(
                "r5 -R d2 -w 0",
                0,
                "reconstruct column 2 device 2 done 64\nstatus ok\n",
            ),
        ],
        ..PLAIN
    }];
    play(&rt, rt.alloc(), SESSIONS)
}

// One stripe of two units. The read has the stripe until it ends; then the rebuild reads the other unit, sums it up, commits,
// writes and ends.
#[test]
fn a_trace_has_the_rebuild_too(rt: HostRuntime) -> Result<(), Fail> {
    const SESSIONS: &[Session] = &[Session {
        conf: MIRROR,
        script: "0 read 0 1\n",
        sectors: 65,
        steps: &[
            Step::Spoil("d0", 64, 0x5a),
            Step::Run("r5 -I 7", 0, "labels written 2\nstatus ok\n"),
            Step::Run(
                "r5 -F d1 --io s1 --trace -w 0",
                0,
                "reply 0.0 data\nblock 0 1 5a\ncommit 0.0\nfill 1 2 1\nbegin 0.0\nbegin 16.0\ntake 0.0\nfire 0.0 0\ngood 0.0 0\nfire 0.0 1\ngood 0.0 1\nfire 0.0 2\ngood 0.0 2\ntake 16.0\nfire 16.0 0\ngood 16.0 0\nfire 16.0 1\ngood 16.0 1\nfire 16.0 2\ngood 16.0 2\nfire 16.0 3\ngood 16.0 3\nfire 16.0 4\ngood 16.0 4\nreconstruct column 1 device 2 done 1\nstatus ok\n",
            ),
            Step::Holds("s0", "0 mixed\n64 5a\n"),
            Step::Calls("s0", "read 0 1\nwrite 64 1\nsettle\nwrite 0 1\nsettle\n"),
        ],
        ..PLAIN
    }];
    play(&rt, rt.alloc(), SESSIONS)
}

// Column 1's 64 stripes are rebuilt onto the spare in two runs. Between them the first 20 are served: block
// 1 is of stripe 0, whose units are on columns 0, 1 and 2, and is on column 1; block 127 is of stripe 63, on column 1 too, and
// isn't written there.
#[test]
fn a_rebuild_is_paused_and_resumed(rt: HostRuntime) -> Result<(), Fail> {
    const SESSIONS: &[Session] = &[Session {
        conf: SPARED,
        script: "0 write 1 1 a5\n0 write 127 1 b6\n",
        other: "0 read 1 1\n0 read 127 1\n",
        steps: &[
            Step::Run("r5 -I 7", 0, "labels written 3\nstatus ok\n"),
            Step::Run("r5 -i", 0, "parity initialised 64\nstatus ok\n"),
            Step::Run("r5 --resume", 14, "status norebuild\n"),
            Step::Run(
                "r5 -F d1 --limit 20 -w 0",
                0,
                "reconstruct column 1 device 3 paused 20\nstatus ok\n",
            ),
            Step::Run(
                "r5 -s",
                0,
                "column 0 d0 optimal\ncolumn 1 d1 rebuilding 20\ncolumn 2 d2 optimal\nspare 0 s0 used\nparity clean\nstatus ok\n",
            ),
            Step::Run("r5 -F d0", 8, "dead 0\ndead 1\nstatus lost 0 1 20\n"),
            Step::Run(
                "r5 --io s1 -w 0",
                0,
                "reply 0.0 done\nreply 0.1 done\ncommit 0.0\ncommit 0.1\nstatus ok\n",
            ),
            Step::Holds("s0", "0 mixed\n64 a5\n"),
            Step::Holds("d2", "0 mixed\n64 a5\n127 b6\n"),
            Step::Run("r5 -p", 0, "parity clean\nstatus ok\n"),
            Step::Run(
                "r5 --resume -w 0",
                0,
                "reconstruct column 1 device 3 done 64\nstatus ok\n",
            ),
            Step::Holds("s0", "0 mixed\n64 a5\n127 b6\n"),
            Step::Run("r5 --resume", 14, "status norebuild\n"),
            Step::Run(
                "r5 --io t1 -w 0",
                0,
                "reply 0.0 data\nblock 1 1 a5\nreply 0.1 data\nblock 127 1 b6\ncommit 0.0\ncommit 0.1\nstatus ok\n",
            ),
        ],
        ..PLAIN
    }];
    play(&rt, rt.alloc(), SESSIONS)
}

// Column 0 of four is rebuilt in part, so column 3 isn't rebuilt; column 0 is, onto its own disk.
#[test]
fn one_column_is_half_rebuilt_at_most(rt: HostRuntime) -> Result<(), Fail> {
    const SESSIONS: &[Session] = &[Session {
        conf: PAIRS,
        steps: &[
            Step::Run("r5 -I 7", 0, "labels written 4\nstatus ok\n"),
            Step::Run("r5 -i", 0, "parity initialised 128\nstatus ok\n"),
            Step::Run(
                "r5 -F d0 --limit 1 -w 0",
                0,
                "reconstruct column 0 device 4 paused 1\nstatus ok\n",
            ),
            Step::Run("r5 -F d3", 15, "status rebuilding 0\n"),
            Step::Run("r5 -R d3", 15, "status rebuilding 0\n"),
            Step::Run(
                "r5 -R d0 -w 0",
                0,
                "reconstruct column 0 device 0 done 64\nstatus ok\n",
            ),
        ],
        ..PLAIN
    }];
    play(&rt, rt.alloc(), SESSIONS)
}
