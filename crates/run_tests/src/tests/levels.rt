//! Runs at each level.
use super::*;
use crate::judging::{holds, same, same_at};

const MIRRORED: &str = "START array\n4 0\nSTART disks\nd0\nd1\nd2\nd3\nSTART layout\n1 1 1 1\n";

const STRIPED: &str = "START array\n2 0\nSTART disks\nd0\nd1\nSTART layout\n1 1 1 0\n";

const CHECKED: &str = "START array\n3 0\nSTART disks\nd0\nd1\nd2\nSTART layout\n1 1 1 4\n";

const CHAINED: &str = "START array\n4 0\nSTART disks\nd0\nd1\nd2\nd3\nSTART layout\n1 1 1 C\n";

const DECLUSTERED: &str =
    "START array\n5 0\nSTART disks\nd0\nd1\nd2\nd3\nd4\nSTART layout\n1 1 1 T\ncomplete 5 3\n";

// Columns that fail under way: one of each mirror; both of one; one without a check unit; two of a chain that aren't next to
// one another; one of tuples of three.
#[test]
fn columns_fail_at_each_level(rt: HostRuntime) -> Result<(), Fail> {
    const SESSIONS: &[Session] = &[
        Session {
            conf: MIRRORED,
            script: "0 fail 0\n0 fail 3\n0 write 0 2 5a\n0 read 0 2\n",
            steps: &[Step::Run(
                "r5 --io s1 -w 0",
                0,
                "reply 0.0 ok\nreply 0.1 ok\nreply 0.2 done\nreply 0.3 data\nblock 0 2 5a\ncommit 0.2\ncommit 0.3\ndead 0\ndead 3\nstatus ok\n",
            )],
            ..PLAIN
        },
        Session {
            conf: MIRRORED,
            script: "0 fail 0\n0 fail 1\n0 read 0 1\n",
            steps: &[Step::Run(
                "r5 --io s1 -w 0",
                8,
                "reply 0.0 ok\nreply 0.1 ok\nreply 0.2 lost\ndead 0\ndead 1\nstatus lost 0 1 0\n",
            )],
            ..PLAIN
        },
        Session {
            conf: STRIPED,
            script: "0 fail 1\n0 read 0 1\n",
            steps: &[Step::Run(
                "r5 --io s1 -w 0",
                8,
                "reply 0.0 ok\nreply 0.1 lost\ndead 1\nstatus lost 1 1 0\n",
            )],
            ..PLAIN
        },
        Session {
            conf: CHAINED,
            script: "0 write 0 4 5a\n0 fail 1\n0 fail 3\n0 read 0 4\n",
            steps: &[Step::Run(
                "r5 --io s1 -w 0",
                0,
                "reply 0.0 done\nreply 0.1 ok\nreply 0.2 ok\nreply 0.3 data\nblock 0 4 5a\ncommit 0.0\ncommit 0.3\ndead 1\ndead 3\nstatus ok\n",
            )],
            ..PLAIN
        },
        Session {
            conf: DECLUSTERED,
            script: "0 write 0 16 c3\n0 fail 4\n0 read 0 16\n",
            steps: &[Step::Run(
                "r5 --io s1 -w 0",
                0,
                "reply 0.0 done\nreply 0.1 ok\nreply 0.2 data\nblock 0 16 c3\ncommit 0.0\ncommit 0.2\ndead 4\nstatus ok\n",
            )],
            ..PLAIN
        },
    ];
    play(&rt, rt.alloc(), SESSIONS)
}

// What two clients that share stripe 0 may print: block 1 is read as it was where the read stands before the write of client
// 1 in the history, and else as that has written it.
const SHARED: &[&str] = &[
    "reply 0.0 done\nreply 0.1 data\nblock 0 1 11\nblock 1 1 00\nreply 1.0 done\ncommit 0.0\ncommit 0.1\ncommit 1.0\nstatus ok\n",
    "reply 0.0 done\nreply 0.1 data\nblock 0 1 11\nblock 1 1 22\nreply 1.0 done\ncommit 0.0\ncommit 1.0\ncommit 0.1\nstatus ok\n",
    "reply 0.0 done\nreply 0.1 data\nblock 0 1 11\nblock 1 1 22\nreply 1.0 done\ncommit 1.0\ncommit 0.0\ncommit 0.1\nstatus ok\n",
];

// Whether the lines are of one of these histories.
fn is_shared(lines: &[u8]) -> bool {
    for shared in SHARED {
        if lines == shared.as_bytes() {
            return true;
        }
    }
    false
}

// Two clients write the two data units of stripe 0 with two workers, and the one then reads both.
fn share<R: Abort + Threads + Wait + Sync>(
    rt: &R,
    alloc: Global,
    conf: &'static str,
    held: [&str; 3],
) -> Result<(), Fail> {
    let session = Session {
        conf,
        script: "0 write 0 1 11\n1 write 1 1 22\n0 read 0 2\n",
        ..PLAIN
    };
    let mut bay = bay_of(alloc, &session)?;
    let (number, lines) = answer(rt, alloc, &mut bay, "r5 --io s1 -w 2")?;
    same(rt, number, 0);
    holds(rt, is_shared(&lines));
    for (name, wanted) in NAMES.iter().zip(held) {
        let lines = held_by(alloc, found(&bay, *name)?)?;
        same_at(rt, *name, lines.as_str(), wanted);
    }
    Ok(())
}

// The check unit of stripe 0 is the sum of both: on the last column at levels 4 and 5, and on column 0 where the first tuple
// of the design is 0, 1, 2. At level 5 a hundred times.
#[test]
fn two_clients_share_a_stripe(rt: HostRuntime) -> Result<(), Fail> {
    let alloc = rt.alloc();
    share(&rt, alloc, CHECKED, ["64 11\n", "64 22\n", "64 33\n"])?;
    share(&rt, alloc, DECLUSTERED, ["64 33\n", "64 11\n", "64 22\n"])?;
    for _ in 0..100 {
        share(&rt, alloc, CONF, ["64 11\n", "64 22\n", "64 33\n"])?;
    }
    Ok(())
}
