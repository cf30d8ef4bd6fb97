//! Runs in which nothing fails.
use super::*;
use crate::judging::same;

const FIVE: &str = "START array\n1 5 0\nSTART disks\nd0\nd1\nd2\nd3\nd4\nSTART layout\n1 1 1 5\n";

const FOUR: &str = "START array\n1 4 0\nSTART disks\nd0\nd1\nd2\nd3\nSTART layout\n1 1 1 5\n";

const UNITS_OF_FOUR: &str = "START array\n1 3 0\nSTART disks\nd0\nd1\nd2\nSTART layout\n4 1 1 5\n";

// What the components hold behind a write of block 0 and a read of it, and which calls they have had: column 1 is read for the
// sum, and column 2 has the check unit.
pub(super) const WRITTEN: &[Step] = &[
    Step::Holds("d0", "64 a5\n"),
    Step::Holds("d1", ""),
    Step::Holds("d2", "64 a5\n"),
    Step::Calls("d0", "read 0 1\nwrite 64 1\nread 64 1\nsettle\n"),
    Step::Calls("d1", "read 0 1\nread 64 1\nsettle\n"),
    Step::Calls("d2", "read 0 1\nwrite 64 1\nsettle\n"),
];

// Without an item; the last block and the one behind it; stripes that are made in step, and one that there isn't; a span
// over 17 stripes. What was written is read.
#[test]
fn scripts_are_run_by_their_items(rt: HostRuntime) -> Result<(), Fail> {
    const SESSIONS: &[Session] = &[
        Session {
            script: "",
            steps: &[Step::Run("r5 --io s1 -w 0", 0, "status ok\n")],
            ..PLAIN
        },
        Session {
            script: "0 write 127 1 11\n0 write 128 1 11\n",
            steps: &[
                Step::Run(
                    "r5 --io s1 -w 0",
                    0,
                    "reply 0.0 done\nreply 0.1 refused R1\ncommit 0.0\nstatus ok\n",
                ),
                Step::Holds("d0", ""),
                Step::Holds("d1", "127 11\n"),
                Step::Holds("d2", "127 11\n"),
            ],
            ..PLAIN
        },
        Session {
            script: "0 sync 0\n0 sync 64\n0 read 0 33\n",
            steps: &[Step::Run(
                "r5 --io s1 -w 0",
                0,
                "reply 0.0 done\nreply 0.1 refused R1\nreply 0.2 refused R2\ncommit 0.0\nstatus ok\n",
            )],
            ..PLAIN
        },
    ];
    let alloc = rt.alloc();
    let mut bay = bay_of(alloc, &PLAIN)?;
    let lines = "reply 0.0 done\nreply 0.1 data\nblock 0 1 a5\ncommit 0.0\ncommit 0.1\nstatus ok\n";
    says(&rt, alloc, &mut bay, "r5 --io s1 -w 0", 0, lines)?;
    act_all(&rt, alloc, &mut bay, WRITTEN)?;
    play(&rt, alloc, SESSIONS)
}

// The write of a whole stripe reads nothing: an exclusive-or, the commit, five writes, the terminator. Of five columns two
// units of four are written: the other two are read, one fewer than the touched units and the check unit. Of four columns
// one of three: both ways read two, so the touched unit and the check unit are read. Blocks 1 to 3 lie in unit 0 of stripe
// 0 with units of four sectors, blocks 4 to 6 in unit 1: at offset 0 unit 0 is read, at offset 3 unit 1, and between them
// neither.
#[test]
fn writes_read_the_fewest(rt: HostRuntime) -> Result<(), Fail> {
    const SESSIONS: &[Session] = &[
        Session {
            conf: FIVE,
            script: "0 write 0 4 3c\n",
            steps: &[
                Step::Run(
                    "r5 --io s1 -w 0 --trace",
                    0,
                    "reply 0.0 done\ncommit 0.0\nbegin 0.0\ntake 0.0\nfire 0.0 0\ngood 0.0 0\nfire 0.0 1\ngood 0.0 1\nfire 0.0 2\ngood 0.0 2\nfire 0.0 3\ngood 0.0 3\nfire 0.0 4\ngood 0.0 4\nfire 0.0 5\ngood 0.0 5\nfire 0.0 6\ngood 0.0 6\nfire 0.0 7\ngood 0.0 7\nstatus ok\n",
                ),
                Step::Holds("d0", "64 3c\n"),
                Step::Holds("d1", "64 3c\n"),
                Step::Holds("d2", "64 3c\n"),
                Step::Holds("d3", "64 3c\n"),
                Step::Holds("d4", ""),
                Step::Calls("d4", "read 0 1\nwrite 64 1\nsettle\n"),
            ],
            ..PLAIN
        },
        Session {
            conf: FIVE,
            script: "0 write 0 2 0f\n",
            steps: &[
                Step::Run(
                    "r5 --io s1 -w 0",
                    0,
                    "reply 0.0 done\ncommit 0.0\nstatus ok\n",
                ),
                Step::Calls("d0", "read 0 1\nwrite 64 1\nsettle\n"),
                Step::Calls("d1", "read 0 1\nwrite 64 1\nsettle\n"),
                Step::Calls("d2", "read 0 1\nread 64 1\nsettle\n"),
                Step::Calls("d3", "read 0 1\nread 64 1\nsettle\n"),
                Step::Calls("d4", "read 0 1\nwrite 64 1\nsettle\n"),
            ],
            ..PLAIN
        },
        Session {
            conf: FOUR,
            script: "0 write 0 1 0f\n",
            steps: &[
                Step::Run(
                    "r5 --io s1 -w 0",
                    0,
                    "reply 0.0 done\ncommit 0.0\nstatus ok\n",
                ),
                Step::Calls("d0", "read 0 1\nread 64 1\nwrite 64 1\nsettle\n"),
                Step::Calls("d1", "read 0 1\nsettle\n"),
                Step::Calls("d3", "read 0 1\nread 64 1\nwrite 64 1\nsettle\n"),
            ],
            ..PLAIN
        },
        Session {
            conf: UNITS_OF_FOUR,
            script: "0 write 1 6 77\n",
            steps: &[
                Step::Run(
                    "r5 --io s1 -w 0",
                    0,
                    "reply 0.0 done\ncommit 0.0\nstatus ok\n",
                ),
                Step::Holds("d0", "65 77\n66 77\n67 77\n"),
                Step::Holds("d1", "64 77\n65 77\n66 77\n"),
                Step::Holds("d2", "64 77\n67 77\n"),
                Step::Calls(
                    "d0",
                    "read 0 1\nread 64 1\nwrite 65 2\nwrite 67 1\nsettle\n",
                ),
                Step::Calls(
                    "d1",
                    "read 0 1\nread 67 1\nwrite 64 1\nwrite 65 2\nsettle\n",
                ),
                Step::Calls(
                    "d2",
                    "read 0 1\nwrite 64 1\nwrite 65 2\nwrite 67 1\nsettle\n",
                ),
            ],
            ..PLAIN
        },
    ];
    play(&rt, rt.alloc(), SESSIONS)
}

// The sums are the same with workers and without.
#[test]
fn a_sweep_is_summed_up(rt: HostRuntime) -> Result<(), Fail> {
    let alloc = rt.alloc();
    let mut one = bay_of(alloc, &PLAIN)?;
    let mut other = bay_of(alloc, &PLAIN)?;
    let none = answer(&rt, alloc, &mut one, "r5 --sweep 1 --clients 2 --ops 0")?;
    let wanted = b"sweep clients 2 operations 0\nwritten 0 read 0 sum 0\nstatus ok\n";
    same(&rt, none.1.as_slice(), wanted.as_slice());
    let alone = answer(
        &rt,
        alloc,
        &mut one,
        "r5 --sweep 1 --clients 2 --ops 1000 -w 0",
    )?;
    let beside = answer(
        &rt,
        alloc,
        &mut other,
        "r5 --sweep 1 --clients 2 --ops 1000 -w 4",
    )?;
    same(&rt, (alone.0, beside.0), (0, 0));
    same(&rt, alone.1.as_slice(), beside.1.as_slice());
    Ok(())
}
