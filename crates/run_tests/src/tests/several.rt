//! Writes of several spans, each as one operation.
use super::*;
use crate::judging::same;

/// A script, which calls of which components fail, the exit number, what is printed, and what the three components hold then;
/// of one that died by a write nothing is said.
#[derive(Clone, Copy)]
struct Row {
    script: &'static str,
    fails: &'static [(&'static str, u32)],
    exit: u8,
    printed: &'static str,
    held: &'static [Option<&'static str>],
}

const TWO: &str = "0 writes 0 1 11 3 1 22\n0 read 0 4\n";

const NOTHING: &[Option<&str>] = &[Some(""); 3];

// Block 0 is unit 0 of stripe 0, whose check unit is in column 2; block 3 is unit 1 of stripe 1, in column 0, and the check
// unit is in column 1. Spans that share a block, one past the end, and one stripe more than 16 are refused.
const ROWS: &[Row] = &[
    Row {
        script: TWO,
        fails: &[],
        exit: 0,
        printed: "reply 0.0 done\nreply 0.1 data\nblock 0 1 11\nblock 1 2 00\nblock 3 1 22\ncommit 0.0\ncommit 0.1\nstatus ok\n",
        held: &[Some("64 11\n65 22\n"), Some("65 22\n"), Some("64 11\n")],
    },
    Row {
        script: "0 writes 0 2 11 1 1 22\n",
        fails: &[],
        exit: 3,
        printed: "status script 1 9\n",
        held: NOTHING,
    },
    Row {
        script: "0 writes 0 1 11 128 1 22\n",
        fails: &[],
        exit: 0,
        printed: "reply 0.0 refused R1\nstatus ok\n",
        held: NOTHING,
    },
    Row {
        script: "0 writes 0 32 11 40 1 22\n",
        fails: &[],
        exit: 0,
        printed: "reply 0.0 refused R2\nstatus ok\n",
        held: NOTHING,
    },
];

// The read of column 1 fails, before the commit: the operation is planned anew. The second write of column 0 fails, behind
// it. Either way both spans are written.
const FAULTS: &[Row] = &[
    Row {
        script: TWO,
        fails: &[("d1", 1)],
        exit: 0,
        printed: "reply 0.0 done\nreply 0.1 data\nblock 0 1 11\nblock 1 2 00\nblock 3 1 22\ncommit 0.0\ncommit 0.1\ndead 1\nstatus ok\n",
        held: &[Some("64 11\n65 22\n"), Some(""), Some("64 11\n")],
    },
    Row {
        script: TWO,
        fails: &[("d0", 2)],
        exit: 0,
        printed: "reply 0.0 done\nreply 0.1 data\nblock 0 1 11\nblock 1 2 00\nblock 3 1 22\ncommit 0.0\ncommit 0.1\ndead 0\nstatus ok\n",
        held: &[None, Some("65 22\n"), Some("64 11\n")],
    },
];

// The row, run by these words.
fn stands<R: Abort + Threads + Wait + Sync>(
    rt: &R,
    alloc: Global,
    row: &Row,
    words: &str,
) -> Result<(), Fail> {
    let session = Session {
        script: row.script,
        fails: row.fails,
        ..PLAIN
    };
    let mut bay = bay_of(alloc, &session)?;
    let (exit, printed) = answer(rt, alloc, &mut bay, words)?;
    same_at(rt, row.script, printed.as_slice(), row.printed.as_bytes());
    same_at(rt, row.script, exit, row.exit);
    for (name, held) in NAMES.iter().zip(row.held) {
        if let Some(held) = held {
            let found = held_by(alloc, found(&bay, name)?)?;
            same_at(rt, *name, found.as_str(), *held);
        }
    }
    Ok(())
}

// Without workers, and with four.
#[test]
fn spans_are_written_at_once(rt: HostRuntime) -> Result<(), Fail> {
    let alloc = rt.alloc();
    for words in ["r5 --io s1 -w 0", "r5 --io s1 -w 4"] {
        for row in ROWS {
            stands(&rt, alloc, row, words)?;
        }
        for row in FAULTS {
            stands(&rt, alloc, row, words)?;
        }
    }
    Ok(())
}

// A write of blocks 0 and 3 by a read of the other unit of each of their stripes; and one of block 0 alone.
const GRAPHS: &str =
    "graph two\nbuffer 0 stripe 0 from 0 count 1 new 0\nbuffer 1 stripe 0 from 0 count 1\nbuffer 2 stripe 0 from 0 count 1\nbuffer 3 stripe 1 from 0 count 1 new 1\nbuffer 4 stripe 1 from 0 count 1\nbuffer 5 stripe 1 from 0 count 1\nnode 0 read 1 1\nnode 1 xor 2 1 0 after 0\nnode 2 read 0 4\nnode 3 xor 5 4 3 after 2\nnode 4 commit after 0 1 2 3\nnode 5 write 0 0 after 4\nnode 6 write 2 2 after 4\nnode 7 write 1 3 after 4\nnode 8 write 2 5 after 4\nnode 9 terminate after 5 6 7 8\nend\ngraph one\nbuffer 0 stripe 0 from 0 count 1 new 0\nbuffer 1 stripe 0 from 0 count 1\nbuffer 2 stripe 0 from 0 count 1\nnode 0 read 1 1\nnode 1 xor 2 1 0 after 0\nnode 2 commit after 0 1\nnode 3 write 0 0 after 2\nnode 4 write 2 2 after 2\nnode 5 terminate after 3 4\nend\n";

// The graph that forgets block 3 leaves unit 1 of the second stripe without its new data, and nothing is written. Where the
// last read of a graph fails neither span is written, and where a write fails behind the commit both are.
#[test]
fn graphs_of_a_file_write_all_spans_or_none(rt: HostRuntime) -> Result<(), Fail> {
    const SESSIONS: &[Session] = &[
        Session {
            script: "0 use one writes 0 1 11 3 1 22\n0 use two writes 0 1 11 3 1 22\n",
            other: GRAPHS,
            steps: &[
                Step::Run(
                    "r5 --io s1 --graphs t1 -w 0",
                    0,
                    "reply 0.0 refused G12 1 1 0\nreply 0.1 done\ncommit 0.1\nstatus ok\n",
                ),
                Step::Holds("d0", "64 11\n65 22\n"),
                Step::Holds("d1", "65 22\n"),
                Step::Holds("d2", "64 11\n"),
            ],
            ..PLAIN
        },
        Session {
            script: "0 use two writes 0 1 11 3 1 22\n0 read 0 4\n",
            other: GRAPHS,
            fails: &[("d2", 1)],
            steps: &[
                Step::Run(
                    "r5 --io s1 --graphs t1 -w 0",
                    0,
                    "reply 0.0 undone 2\nreply 0.1 data\nblock 0 4 00\ncommit 0.1\ndead 2\nstatus ok\n",
                ),
                Step::Holds("d0", ""),
                Step::Holds("d1", ""),
            ],
            ..PLAIN
        },
        Session {
            script: "0 use two writes 0 1 11 3 1 22\n0 read 0 4\n",
            other: GRAPHS,
            fails: &[("d0", 1)],
            steps: &[Step::Run(
                "r5 --io s1 --graphs t1 -w 0",
                0,
                "reply 0.0 done\nreply 0.1 data\nblock 0 1 11\nblock 1 2 00\nblock 3 1 22\ncommit 0.0\ncommit 0.1\ndead 0\nstatus ok\n",
            )],
            ..PLAIN
        },
    ];
    play(&rt, rt.alloc(), SESSIONS)
}

const MANY: &[&str] = &[
    "d0", "d1", "d2", "d3", "d4", "d5", "d6", "d7", "d8", "d9", "d10", "d11", "d12", "d13", "d14",
    "d15", "d16", "d17", "d18", "d19", "d20", "d21", "d22", "d23", "d24", "d25", "d26", "d27",
    "d28", "d29", "d30", "d31",
];

// 32 components of 128 sectors, with a layout of this line, and a script.
fn wide(alloc: Global, layout: &str, script: &str) -> Result<MemBay<MemDisk>, Fail> {
    let mut conf = String::new(alloc);
    conf.push_str("START array\n1 32 0\nSTART disks\n")?;
    let mut disks = Vec::new(alloc);
    for name in MANY {
        conf.push_str(*name)?;
        conf.push_str("\n")?;
        disks.push((
            Name::new(alloc, *name)?,
            zeros(alloc, 128, Vec::new(alloc))?,
        ))?;
    }
    conf.push_str("START layout\n")?;
    conf.push_str(layout)?;
    conf.push_str("\n")?;
    let texts = vec![in alloc; text(alloc, "r5", &conf)?, text(alloc, "s1", script)?]?;
    Ok(MemBay::new(alloc, texts, disks, Vec::new(alloc)))
}

// Lines of the sectors from this one to 127, each filled with 88.
fn filled_from(alloc: Global, first: usize) -> Result<String, Fail> {
    let mut lines = String::new(alloc);
    for number in first..128 {
        let line = format!(in alloc; "{number} 88\n")?;
        lines.push_str(&line)?;
    }
    Ok(lines)
}

// What the first three of them hold in front of that.
const FRONTS: &[&str] = &[
    "64 11\n65 11\n66 11\n67 11\n",
    "64 11\n66 22\n67 22\n",
    "64 22\n66 33\n67 33\n",
];

// All 16 stripes of 32 data units of four sectors, but for sector 1 of each of the first stripe's units 1 to 7: 519 parts.
#[test]
fn a_part_more_for_each_gap_is_written(rt: HostRuntime) -> Result<(), Fail> {
    let alloc = rt.alloc();
    let script = "0 writes 0 5 11 6 3 22 10 3 33 14 3 44 18 3 55 22 3 66 26 3 77 30 2018 88\n";
    let mut bay = wide(alloc, "4 1 1 0", script)?;
    let lines = "reply 0.0 done\ncommit 0.0\nstatus ok\n";
    says(&rt, alloc, &mut bay, "r5 --io s1 -w 0", 0, lines)?;
    for (name, front) in MANY.iter().zip(FRONTS) {
        let mut lines = String::new(alloc);
        lines.push_str(*front)?;
        let rest = filled_from(alloc, 68)?;
        lines.push_str(&rest)?;
        let held = held_by(alloc, found(&bay, name)?)?;
        same_at(&rt, *name, held.as_str(), lines.as_str());
    }
    let last = held_by(alloc, found(&bay, "d31")?)?;
    let all = filled_from(alloc, 64)?;
    same(&rt, last.as_str(), all.as_str());
    Ok(())
}

// Each span has one of 16 stripes of 31 data units whole, and the first block of the next: the lease is the whole pool.
#[test]
fn eight_spans_lease_the_whole_pool(rt: HostRuntime) -> Result<(), Fail> {
    let alloc = rt.alloc();
    let script =
        "0 writes 0 32 11 62 32 22 124 32 33 186 32 44 248 32 55 310 32 66 372 32 77 434 32 88\n0 read 61 3\n0 read 465 2\n";
    for words in ["r5 --io s1 -w 0", "r5 --io s1 -w 4"] {
        let mut bay = wide(alloc, "1 1 1 5", script)?;
        let lines =
            "reply 0.0 done\nreply 0.1 data\nblock 61 1 00\nblock 62 2 22\nreply 0.2 data\nblock 465 1 88\nblock 466 1 00\ncommit 0.0\ncommit 0.1\ncommit 0.2\nstatus ok\n";
        says(&rt, alloc, &mut bay, words, 0, lines)?;
    }
    Ok(())
}
