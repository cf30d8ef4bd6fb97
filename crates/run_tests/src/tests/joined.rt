//! Graphs of the file that a line of the script joins under one commit.
use super::*;
use crate::judging::{same, same_at};

// A write of data unit 0 by a read of unit 1; the same of unit 1; a graph that names a second stripe; one that writes before
// its commit; two for a stripe that lacks a unit: the write of unit 0 where the check unit is missing, and where unit 0
// itself is; and the write of three blocks, of two stripes.
pub(super) const GRAPHS: &str =
    "graph large\nbuffer 0 stripe 0 from 0 count 1 new 0\nbuffer 1 stripe 0 from 0 count 1\nbuffer 2 stripe 0 from 0 count 1\nnode 0 read 1 1\nnode 1 xor 2 1 0 after 0\nnode 2 commit after 0 1\nnode 3 write 0 0 after 2\nnode 4 write 2 2 after 2\nnode 5 terminate after 3 4\nend\ngraph index\nbuffer 0 stripe 0 from 0 count 1 new 1\nbuffer 1 stripe 0 from 0 count 1\nbuffer 2 stripe 0 from 0 count 1\nnode 0 read 0 1\nnode 1 xor 2 1 0 after 0\nnode 2 commit after 0 1\nnode 3 write 1 0 after 2\nnode 4 write 2 2 after 2\nnode 5 terminate after 3 4\nend\ngraph wide\nbuffer 0 stripe 1 from 0 count 1\nnode 0 commit\nnode 1 terminate after 0\nend\ngraph eager\nbuffer 0 stripe 0 from 0 count 1 new 0\nbuffer 1 stripe 0 from 0 count 1\nbuffer 2 stripe 0 from 0 count 1\nnode 0 read 1 1\nnode 1 xor 2 1 0 after 0\nnode 2 commit after 0 1\nnode 3 write 0 0\nnode 4 write 2 2 after 2\nnode 5 terminate after 3 4\nend\ngraph bare\nbuffer 0 stripe 0 from 0 count 1 new 0\nnode 0 commit\nnode 1 write 0 0 after 0\nnode 2 terminate after 1\nend\ngraph around\nbuffer 0 stripe 0 from 0 count 1 new 0\nbuffer 1 stripe 0 from 0 count 1\nbuffer 2 stripe 0 from 0 count 1\nnode 0 read 1 1\nnode 1 xor 2 1 0 after 0\nnode 2 commit after 0 1\nnode 3 write 2 2 after 2\nnode 4 terminate after 3\nend\ngraph three\nbuffer 0 stripe 0 from 0 count 1 new 0\nbuffer 1 stripe 0 from 0 count 1 new 1\nbuffer 2 stripe 0 from 0 count 1\nbuffer 3 stripe 1 from 0 count 1 new 0\nbuffer 4 stripe 1 from 0 count 1\nbuffer 5 stripe 1 from 0 count 1\nnode 0 read 1 4\nnode 1 xor 2 0 1\nnode 2 xor 5 4 3 after 0\nnode 3 commit after 0 1 2\nnode 4 write 0 0 after 3\nnode 5 write 1 1 after 3\nnode 6 write 2 2 after 3\nnode 7 write 0 3 after 3\nnode 8 write 2 5 after 3\nnode 9 terminate after 4 5 6 7 8\nend\n";

const BOTH: &str = "0 join large 0 1 a5 large 2 1 b6\n";

// Blocks 0 to 2 are read behind it.
const THEN_READ: &str = "0 join large 0 1 a5 large 2 1 b6\n0 read 0 3\n";

const WAYS: &[&str] = &["r5 --io s1 --graphs t1 -w 0", "r5 --io s1 --graphs t1 -w 4"];

/// Which calls of which components fail, what is printed, what the three components hold then, of which nothing is said of
/// one that died by a write; and what is printed where blocks are read behind that.
#[derive(Clone, Copy)]
struct Row {
    fails: &'static [(&'static str, u32)],
    printed: &'static str,
    held: &'static [Option<&'static str>],
    read: &'static str,
}

// Block 0 is unit 0 of stripe 0, beside which unit 1 is in column 1 and the check unit in column 2; block 2 is unit 0 of
// stripe 1, in column 2, beside which unit 1 is in column 0 and the check unit in column 1. The read of either span fails,
// and neither is written; the write of either fails, and both are.
const ROWS: &[Row] = &[
    Row {
        fails: &[],
        printed: "reply 0.0 done\ncommit 0.0\nstatus ok\n",
        held: &[Some("64 a5\n"), Some("65 b6\n"), Some("64 a5\n65 b6\n")],
        read: "reply 0.0 done\nreply 0.1 data\nblock 0 1 a5\nblock 1 1 00\nblock 2 1 b6\ncommit 0.0\ncommit 0.1\nstatus ok\n",
    },
    Row {
        fails: &[("d1", 1)],
        printed: "reply 0.0 undone 1\ndead 1\nstatus ok\n",
        held: &[Some(""); 3],
        read: "reply 0.0 undone 1\nreply 0.1 data\nblock 0 3 00\ncommit 0.1\ndead 1\nstatus ok\n",
    },
    Row {
        fails: &[("d0", 1)],
        printed: "reply 0.0 undone 0\ndead 0\nstatus ok\n",
        held: &[Some(""); 3],
        read: "reply 0.0 undone 0\nreply 0.1 data\nblock 0 3 00\ncommit 0.1\ndead 0\nstatus ok\n",
    },
    Row {
        fails: &[("d0", 2)],
        printed: "reply 0.0 done\ncommit 0.0\ndead 0\nstatus ok\n",
        held: &[None, Some("65 b6\n"), Some("64 a5\n65 b6\n")],
        read: "reply 0.0 done\nreply 0.1 data\nblock 0 1 a5\nblock 1 1 00\nblock 2 1 b6\ncommit 0.0\ncommit 0.1\ndead 0\nstatus ok\n",
    },
    Row {
        fails: &[("d2", 2)],
        printed: "reply 0.0 done\ncommit 0.0\ndead 2\nstatus ok\n",
        held: &[Some("64 a5\n"), Some("65 b6\n"), None],
        read: "reply 0.0 done\nreply 0.1 data\nblock 0 1 a5\nblock 1 1 00\nblock 2 1 b6\ncommit 0.0\ncommit 0.1\ndead 2\nstatus ok\n",
    },
];

// What the first three components hold; of one nothing is said where nothing is wanted.
fn hold<R: Abort>(
    rt: &R,
    alloc: Global,
    bay: &MemBay<MemDisk>,
    wanted: &[Option<&str>],
) -> Result<(), Fail> {
    for (name, held) in NAMES.iter().zip(wanted) {
        if let Some(held) = held {
            let found = held_by(alloc, found(bay, name)?)?;
            same_at(rt, *name, found.as_str(), *held);
        }
    }
    Ok(())
}

// The bay behind a script that is run by these words with the faults of a row, and prints this.
fn run_with<R: Abort + Threads + Wait + Sync>(
    rt: &R,
    alloc: Global,
    row: &Row,
    script: &'static str,
    words: &str,
    printed: &str,
) -> Result<MemBay<MemDisk>, Fail> {
    let session = Session {
        script,
        other: GRAPHS,
        fails: row.fails,
        ..PLAIN
    };
    let mut bay = bay_of(alloc, &session)?;
    let (exit, found) = answer(rt, alloc, &mut bay, words)?;
    same_at(rt, printed, found.as_slice(), printed.as_bytes());
    same_at(rt, printed, exit, 0);
    Ok(bay)
}

// Without workers, and with four.
#[test]
fn joined_graphs_write_both_spans_or_neither(rt: HostRuntime) -> Result<(), Fail> {
    let alloc = rt.alloc();
    for words in WAYS {
        for row in ROWS {
            let bay = run_with(&rt, alloc, row, BOTH, *words, row.printed)?;
            hold(&rt, alloc, &bay, row.held)?;
            run_with(&rt, alloc, row, THEN_READ, *words, row.read)?;
        }
    }
    Ok(())
}

// The joined graph has ten nodes: two reads and two exclusive-ors, the commit, four writes, the terminator.
#[test]
fn a_joined_graph_has_one_commit(rt: HostRuntime) -> Result<(), Fail> {
    const SESSIONS: &[Session] = &[Session {
        script: BOTH,
        other: GRAPHS,
        steps: &[Step::Run(
            "r5 --io s1 --graphs t1 -w 0 --trace",
            0,
            "reply 0.0 done\ncommit 0.0\nbegin 0.0\ntake 0.0\nfire 0.0 0\ngood 0.0 0\nfire 0.0 1\ngood 0.0 1\nfire 0.0 2\ngood 0.0 2\nfire 0.0 3\ngood 0.0 3\nfire 0.0 4\ngood 0.0 4\nfire 0.0 5\ngood 0.0 5\nfire 0.0 6\ngood 0.0 6\nfire 0.0 7\ngood 0.0 7\nfire 0.0 8\ngood 0.0 8\nfire 0.0 9\ngood 0.0 9\nstatus ok\n",
        )],
        ..PLAIN
    }];
    play(&rt, rt.alloc(), SESSIONS)
}

/// What two clients ask for at once, and what the three components hold in the end, by the order of their commits.
#[derive(Clone, Copy)]
struct Clients {
    script: &'static str,
    zero_first: &'static [Option<&'static str>],
    one_first: &'static [Option<&'static str>],
}

// Both take both stripes. Each writes one unit of each, and no order tells; or both write the same units, and of both spans
// the one stands that was committed last.
const CLIENTS: &[Clients] = &[
    Clients {
        script: "0 join large 0 1 11 index 3 1 22\n1 join index 1 1 33 large 2 1 44\n",
        zero_first: &[
            Some("64 11\n65 22\n"),
            Some("64 33\n65 66\n"),
            Some("64 22\n65 44\n"),
        ],
        one_first: &[
            Some("64 11\n65 22\n"),
            Some("64 33\n65 66\n"),
            Some("64 22\n65 44\n"),
        ],
    },
    Clients {
        script: "0 join large 0 1 11 large 2 1 22\n1 join large 0 1 33 large 2 1 44\n",
        zero_first: &[Some("64 33\n"), Some("65 44\n"), Some("64 33\n65 44\n")],
        one_first: &[Some("64 11\n"), Some("65 22\n"), Some("64 11\n65 22\n")],
    },
];

const ZERO_FIRST: &[u8] = b"reply 0.0 done\nreply 1.0 done\ncommit 0.0\ncommit 1.0\nstatus ok\n";

const ONE_FIRST: &[u8] = b"reply 0.0 done\nreply 1.0 done\ncommit 1.0\ncommit 0.0\nstatus ok\n";

#[test]
fn two_clients_join_over_each_others_stripes(rt: HostRuntime) -> Result<(), Fail> {
    let alloc = rt.alloc();
    for row in CLIENTS {
        let mut bay = bay_with(alloc, CONF, GRAPHS, row.script)?;
        let (exit, printed) = answer(&rt, alloc, &mut bay, "r5 --io s1 --graphs t1 -w 4")?;
        same_at(&rt, row.script, exit, 0);
        if printed.as_slice() == ZERO_FIRST {
            hold(&rt, alloc, &bay, row.zero_first)?;
        } else {
            same_at(&rt, row.script, printed.as_slice(), ONE_FIRST);
            hold(&rt, alloc, &bay, row.one_first)?;
        }
    }
    Ok(())
}

// The first span has two stripes, so that the second graph's is the third: block 4 is unit 0 of stripe 2, in column 1, whose
// check unit is in column 0. And column 2 is dead, so that stripe 0 lacks its check unit and stripe 1 its unit 0: graphs that
// would be refused over a whole array are accepted, and so is what they are joined to.
const MORE: &[Session] = &[
    Session {
        script: "0 join three 0 3 a5 large 4 1 b6\n",
        other: GRAPHS,
        steps: &[
            Step::Run(
                "r5 --io s1 --graphs t1 -w 0",
                0,
                "reply 0.0 done\ncommit 0.0\nstatus ok\n",
            ),
            Step::Holds("d0", "64 a5\n66 b6\n"),
            Step::Holds("d1", "64 a5\n65 a5\n66 b6\n"),
            Step::Holds("d2", "65 a5\n"),
        ],
        ..PLAIN
    },
    Session {
        script: "0 fail 2\n0 join bare 0 1 a5 around 2 1 b6\n0 read 0 3\n",
        other: GRAPHS,
        steps: &[
            Step::Run(
                "r5 --io s1 --graphs t1 -w 0",
                0,
                "reply 0.0 ok\nreply 0.1 done\nreply 0.2 data\nblock 0 1 a5\nblock 1 1 00\nblock 2 1 b6\ncommit 0.1\ncommit 0.2\ndead 2\nstatus ok\n",
            ),
            Step::Holds("d0", "64 a5\n"),
            Step::Holds("d1", "65 b6\n"),
            Step::Holds("d2", ""),
        ],
        ..PLAIN
    },
];

#[test]
fn joined_graphs_may_have_more_stripes_and_missing_units(rt: HostRuntime) -> Result<(), Fail> {
    play(&rt, rt.alloc(), MORE)
}

// A configuration, graphs, a script, and the 31 components that one may take.
pub(super) fn bay_with(
    alloc: Global,
    conf: &str,
    graphs: &str,
    script: &str,
) -> Result<MemBay<MemDisk>, Fail> {
    let texts = text_list(alloc, &[("r5", conf), ("s1", script), ("t1", graphs)])?;
    let mut disks = Vec::new(alloc);
    for i in 0..31u32 {
        let name = format!(in alloc; "d{i}")?;
        disks.push((
            Name::new(alloc, &name)?,
            zeros(alloc, 128, Vec::new(alloc))?,
        ))?;
    }
    Ok(MemBay::new(alloc, texts, disks, Vec::new(alloc)))
}
