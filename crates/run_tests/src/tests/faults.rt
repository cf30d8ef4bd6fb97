//! Runs in which components fail or are absent, and operations by graphs of a file.
use super::*;

const ABSENT: &str = "START array\n1 3 0\nSTART disks\nd0\nabsent\nd2\nSTART layout\n1 1 1 5\n";

const TWO_ABSENT: &str =
    "START array\n1 3 0\nSTART disks\nabsent\nd1\nabsent\nSTART layout\n1 1 1 5\n";

// The read of column 1's first sector fails, so that it is dead as the array is opened. Its next call, a read, fails before
// the commit: the operation is planned anew without it, by a graph of seven nodes that reads the block and the check unit, and
// the read of block 0 needs no other column. The first write of column 0 fails behind the commit: the write of the check unit
// and the terminator come still, and the block is then made from the other two. The settle of column 2 fails last. Two columns
// that fail lose the array.
#[test]
fn columns_that_fail_are_dead(rt: HostRuntime) -> Result<(), Fail> {
    const SESSIONS: &[Session] = &[
        Session {
            fails: &[("d1", 0)],
            steps: &[Step::Run(
                "r5 --io s1 -w 0",
                0,
                "reply 0.0 done\nreply 0.1 data\nblock 0 1 a5\ncommit 0.0\ncommit 0.1\ndead 1\nstatus ok\n",
            )],
            ..PLAIN
        },
        Session {
            fails: &[("d1", 1)],
            steps: &[
                Step::Run(
                    "r5 --io s1 -w 0",
                    0,
                    "reply 0.0 done\nreply 0.1 data\nblock 0 1 a5\ncommit 0.0\ncommit 0.1\ndead 1\nstatus ok\n",
                ),
                Step::Holds("d0", "64 a5\n"),
                Step::Holds("d2", "64 a5\n"),
                Step::Calls("d0", "read 0 1\nread 64 1\nwrite 64 1\nread 64 1\nsettle\n"),
                Step::Calls("d1", "read 0 1\nread 64 1 bad\n"),
                Step::Calls("d2", "read 0 1\nread 64 1\nwrite 64 1\nsettle\n"),
            ],
            ..PLAIN
        },
        Session {
            fails: &[("d1", 1)],
            steps: &[Step::Run(
                "r5 --io s1 -w 0 --trace",
                0,
                "reply 0.0 done\nreply 0.1 data\nblock 0 1 a5\ncommit 0.0\ncommit 0.1\nbegin 0.0\ntake 0.0\nfire 0.0 0\nbad 0.0 0\nback 0.0\nfire 0.0 0\ngood 0.0 0\nfire 0.0 1\ngood 0.0 1\nfire 0.0 2\ngood 0.0 2\nfire 0.0 3\ngood 0.0 3\nfire 0.0 4\ngood 0.0 4\nfire 0.0 5\ngood 0.0 5\nfire 0.0 6\ngood 0.0 6\nbegin 0.1\ntake 0.1\nfire 0.1 0\ngood 0.1 0\nfire 0.1 1\ngood 0.1 1\nfire 0.1 2\ngood 0.1 2\ndead 1\nstatus ok\n",
            )],
            ..PLAIN
        },
        Session {
            fails: &[("d0", 1)],
            steps: &[
                Step::Run(
                    "r5 --io s1 -w 0",
                    0,
                    "reply 0.0 done\nreply 0.1 data\nblock 0 1 a5\ncommit 0.0\ncommit 0.1\ndead 0\nstatus ok\n",
                ),
                Step::Holds("d1", ""),
                Step::Holds("d2", "64 a5\n"),
                Step::Calls("d0", "read 0 1\nwrite 64 1 bad\n"),
                Step::Calls("d1", "read 0 1\nread 64 1\nread 64 1\nsettle\n"),
                Step::Calls("d2", "read 0 1\nwrite 64 1\nread 64 1\nsettle\n"),
            ],
            ..PLAIN
        },
        Session {
            fails: &[("d0", 1)],
            steps: &[Step::Run(
                "r5 --io s1 -w 0 --trace",
                0,
                "reply 0.0 done\nreply 0.1 data\nblock 0 1 a5\ncommit 0.0\ncommit 0.1\nbegin 0.0\ntake 0.0\nfire 0.0 0\ngood 0.0 0\nfire 0.0 1\ngood 0.0 1\nfire 0.0 2\ngood 0.0 2\nfire 0.0 3\nbad 0.0 3\nfire 0.0 4\ngood 0.0 4\nfire 0.0 5\ngood 0.0 5\nbegin 0.1\ntake 0.1\nfire 0.1 0\ngood 0.1 0\nfire 0.1 1\ngood 0.1 1\nfire 0.1 2\ngood 0.1 2\nfire 0.1 3\ngood 0.1 3\nfire 0.1 4\ngood 0.1 4\ndead 0\nstatus ok\n",
            )],
            ..PLAIN
        },
        Session {
            fails: &[("d2", 2)],
            steps: &[Step::Run(
                "r5 --io s1 -w 0",
                0,
                "reply 0.0 done\nreply 0.1 data\nblock 0 1 a5\ncommit 0.0\ncommit 0.1\ndead 2\nstatus ok\n",
            )],
            ..PLAIN
        },
        Session {
            fails: &[("d1", 2), ("d2", 2)],
            steps: &[Step::Run(
                "r5 --io s1 -w 0",
                8,
                "reply 0.0 done\nreply 0.1 data\nblock 0 1 a5\ncommit 0.0\ncommit 0.1\ndead 1\ndead 2\nstatus lost 1 2 0\n",
            )],
            ..PLAIN
        },
    ];
    play(&rt, rt.alloc(), SESSIONS)
}

// Block 1 is unit 1 of stripe 0, whose column is absent: it stands in the sum of the other two. An array with two absent
// components is refused before anything is written; and where the operator fails a column and then another, what has no
// reply by then is lost.
#[test]
fn columns_are_done_without(rt: HostRuntime) -> Result<(), Fail> {
    const SESSIONS: &[Session] = &[
        Session {
            conf: ABSENT,
            script: "0 write 1 1 a5\n0 read 1 1\n",
            steps: &[
                Step::Run(
                    "r5 --io s1 -w 0",
                    0,
                    "reply 0.0 done\nreply 0.1 data\nblock 1 1 a5\ncommit 0.0\ncommit 0.1\ndead 1\nstatus ok\n",
                ),
                Step::Holds("d0", ""),
                Step::Holds("d2", "64 a5\n"),
            ],
            ..PLAIN
        },
        Session {
            conf: TWO_ABSENT,
            steps: &[
                Step::Run("r5 --io s1 -w 0", 8, "dead 0\ndead 2\nstatus lost 0 2 0\n"),
                Step::Holds("d1", ""),
            ],
            ..PLAIN
        },
        Session {
            script: "0 fail 1\n0 write 0 1 a5\n0 fail 2\n0 read 0 1\n",
            steps: &[Step::Run(
                "r5 --io s1 -w 0",
                8,
                "reply 0.0 ok\nreply 0.1 done\nreply 0.2 ok\nreply 0.3 lost\ncommit 0.1\ndead 1\ndead 2\nstatus lost 1 2 0\n",
            )],
            ..PLAIN
        },
    ];
    play(&rt, rt.alloc(), SESSIONS)
}

// The write of block 0 by a read of unit 1; then the same where the write doesn't follow the commit, and where the sum lacks
// the new data, so that unit 2, the check unit, is wrong.
const GRAPHS: &str =
    "graph large\nbuffer 0 stripe 0 from 0 count 1 new 0\nbuffer 1 stripe 0 from 0 count 1\nbuffer 2 stripe 0 from 0 count 1\nnode 0 read 1 1\nnode 1 xor 2 1 0 after 0\nnode 2 commit after 0 1\nnode 3 write 0 0 after 2\nnode 4 write 2 2 after 2\nnode 5 terminate after 3 4\nend\ngraph early\nbuffer 0 stripe 0 from 0 count 1 new 0\nbuffer 1 stripe 0 from 0 count 1\nbuffer 2 stripe 0 from 0 count 1\nnode 0 read 1 1\nnode 1 xor 2 1 0 after 0\nnode 2 commit after 0 1\nnode 3 write 0 0\nnode 4 write 2 2 after 2\nnode 5 terminate after 3 4\nend\ngraph wrong\nbuffer 0 stripe 0 from 0 count 1 new 0\nbuffer 1 stripe 0 from 0 count 1\nbuffer 2 stripe 0 from 0 count 1\nnode 0 read 1 1\nnode 1 xor 2 0 after 0\nnode 2 commit after 0 1\nnode 3 write 0 0 after 2\nnode 4 write 2 2 after 2\nnode 5 terminate after 3 4\nend\n";

// Graphs are judged as they are taken. Where the read of one fails the operation has changed nothing, and isn't planned anew.
#[test]
fn operations_go_by_graphs_of_a_file(rt: HostRuntime) -> Result<(), Fail> {
    const SESSIONS: &[Session] = &[
        Session {
            script: "0 use early write 0 1 a5\n0 use wrong write 0 1 a5\n0 use large write 0 1 a5\n",
            other: GRAPHS,
            steps: &[Step::Run(
                "r5 --io s1 --graphs t1 -w 0",
                0,
                "reply 0.0 refused G8 3\nreply 0.1 refused G12 0 2 0\nreply 0.2 done\ncommit 0.2\nstatus ok\n",
            )],
            ..PLAIN
        },
        Session {
            script: "0 use large write 0 1 a5\n0 read 0 1\n",
            other: GRAPHS,
            fails: &[("d1", 1)],
            steps: &[Step::Run(
                "r5 --io s1 --graphs t1 -w 0",
                0,
                "reply 0.0 undone 1\nreply 0.1 data\nblock 0 1 00\ncommit 0.1\ndead 1\nstatus ok\n",
            )],
            ..PLAIN
        },
    ];
    play(&rt, rt.alloc(), SESSIONS)
}
