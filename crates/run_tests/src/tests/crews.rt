//! Runs with workers.
use super::*;
use crate::judging::{holds, same};
use blk_disk::{Gate, GateDisk};

// Each of the two writes waits for the other to have begun, so that they are made at the same time, or the one fails.
fn writes_meet<R: Abort + Threads + Wait + Sync>(
    rt: &R,
    alloc: Global,
    conf: &str,
    words: &str,
) -> Result<(), Fail> {
    let texts = text_list(alloc, &[("r5", conf), ("s1", "0 write 0 1 a5\n")])?;
    let gate = Gate::new(alloc)?;
    let one = GateDisk::new(zeros(alloc, 128, Vec::new(alloc))?, gate.clone()?, 0, 64);
    let other = GateDisk::new(zeros(alloc, 128, Vec::new(alloc))?, gate, 1, 64);
    let disks = vec![in alloc;
        (Name::new(alloc, "d0")?, one),
        (Name::new(alloc, "d1")?, other),
    ]?;
    let mut bay = MemBay::new(alloc, texts, disks, Vec::new(alloc));
    let lines = "reply 0.0 done\ncommit 0.0\nstatus ok\n";
    says(rt, alloc, &mut bay, words, 0, lines)
}

// At level 5 and as a mirror, by two workers and by as many as there may be, ten times each.
#[test]
fn two_workers_write_at_the_same_time(rt: HostRuntime) -> Result<(), Fail> {
    let alloc = rt.alloc();
    for _ in 0..10 {
        for words in ["r5 --io s1 -w 2", "r5 --io s1 -w 16"] {
            for conf in [
                "START array\n2 0\nSTART disks\nd0\nd1\nSTART layout\n1 1 1 5\n",
                "START array\n2 0\nSTART disks\nd0\nd1\nSTART layout\n1 1 1 1\n",
            ] {
                writes_meet(&rt, alloc, conf, words)?;
            }
        }
    }
    Ok(())
}

// The first write of column 0 fails behind the commit, with one worker, four and sixteen, ten times each.
#[test]
fn a_write_fails_among_workers(rt: HostRuntime) -> Result<(), Fail> {
    let alloc = rt.alloc();
    let lines =
        "reply 0.0 done\nreply 0.1 data\nblock 0 1 a5\ncommit 0.0\ncommit 0.1\ndead 0\nstatus ok\n";
    let session = Session {
        fails: &[("d0", 1)],
        ..PLAIN
    };
    for _ in 0..10 {
        for words in ["r5 --io s1 -w 1", "r5 --io s1 -w 4", "r5 --io s1 -w 16"] {
            let mut bay = bay_of(alloc, &session)?;
            says(&rt, alloc, &mut bay, words, 0, lines)?;
        }
    }
    Ok(())
}

// Column 3 of five has died by the write of a client, its call 39. It is rebuilt onto the spare beside two clients with stripes
// of their own, by four workers. Which of their operations commits first isn't settled.
#[test]
fn a_column_is_rebuilt_beside_two_clients(rt: HostRuntime) -> Result<(), Fail> {
    let alloc = rt.alloc();
    let session = Session {
        conf: letters::WIDE,
        script: "0 write 64 256 5a\n0 read 64 256\n1 write 4096 256 c3\n1 read 4096 256\n",
        other: "0 write 64 256 5a\n0 read 64 256\n",
        sectors: 2112,
        fails: &[("d3", 39)],
        ..PLAIN
    };
    let mut bay = bay_of(alloc, &session)?;
    answer(&rt, alloc, &mut bay, "r5 -I 1001")?;
    answer(&rt, alloc, &mut bay, "r5 -i")?;
    let (_, lines) = answer(&rt, alloc, &mut bay, "r5 --io t1 -w 0")?;
    holds(&rt, lines.ends_with(b"\ndead 3\nstatus ok\n"));
    let (number, lines) = answer(&rt, alloc, &mut bay, "r5 -F d3 --io s1 -w 4")?;
    let replies =
        b"reply 0.0 done\nreply 0.1 data\nblock 64 256 5a\nreply 1.0 done\nreply 1.1 data\nblock 4096 256 c3\ncommit ";
    let end = b"\nreconstruct column 3 device 5 done 64\nstatus ok\n";
    same(&rt, number, 0);
    holds(&rt, lines.starts_with(replies));
    holds(&rt, lines.ends_with(end));
    same(&rt, lines.len(), replies.len() + 36 + end.len());
    const STEPS: &[Step] = &[
        Step::Run("r5 -p", 0, "parity clean\nstatus ok\n"),
        Step::Run("r5 -f d0", 0, "failed column 0\ndead 0\nstatus ok\n"),
    ];
    act_all(&rt, alloc, &mut bay, STEPS)?;
    let (_, lines) = answer(&rt, alloc, &mut bay, "r5 --io s1 -w 4")?;
    holds(&rt, lines.starts_with(replies));
    Ok(())
}
