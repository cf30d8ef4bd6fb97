//! Each call of each device fails in turn, of three columns at level 5.
use super::*;

/// What a run prints before the line of the column that died, and what a read of all blocks then prints before it.
#[derive(Clone, Copy)]
struct Ending {
    printed: &'static str,
    read: &'static str,
}

/// The sectors of a unit, a script, the script that reads all blocks, and for each device what comes of a fault of each of its
/// calls, in their order.
#[derive(Clone, Copy)]
struct Row {
    unit: u32,
    script: &'static str,
    words: &'static str,
    reads: &'static str,
    endings: [&'static [Ending]; 3],
}

const NAMES: &[&str] = &["d0", "d1", "d2"];

// The write of block 0 by a read of unit 1.
const GRAPH: &str =
    "graph large\nbuffer 0 stripe 0 from 0 count 1 new 0\nbuffer 1 stripe 0 from 0 count 1\nbuffer 2 stripe 0 from 0 count 1\nnode 0 read 1 1\nnode 1 xor 2 1 0 after 0\nnode 2 commit after 0 1\nnode 3 write 0 0 after 2\nnode 4 write 2 2 after 2\nnode 5 terminate after 3 4\nend\n";

// Sixteen stripes of two data units at a time.
const QUARTERS: &str = "0 read 0 32\n0 read 32 32\n0 read 64 32\n0 read 96 32\n";

const WRITTEN: Ending = Ending {
    printed: "reply 0.0 done\nreply 0.1 data\nblock 0 1 a5\ncommit 0.0\ncommit 0.1\n",
    read: "reply 0.0 data\nblock 0 1 a5\nblock 1 31 00\nreply 0.1 data\nblock 32 32 00\nreply 0.2 data\nblock 64 32 00\nreply 0.3 data\nblock 96 32 00\ncommit 0.0\ncommit 0.1\ncommit 0.2\ncommit 0.3\n",
};

// What is read where nothing was written.
const NOTHING: &str =
    "reply 0.0 data\nblock 0 32 00\nreply 0.1 data\nblock 32 32 00\nreply 0.2 data\nblock 64 32 00\nreply 0.3 data\nblock 96 32 00\ncommit 0.0\ncommit 0.1\ncommit 0.2\ncommit 0.3\n";

// Column 0 has a read of its first sector, the write of unit 0, the read of it, and is settled; column 1 the read of unit 1
// in the place of both; column 2 the write of the check unit.
const ONE_BLOCK: Row = Row {
    unit: 1,
    script: "0 write 0 1 a5\n0 read 0 1\n",
    words: "r5 --io s1 -w 0",
    reads: QUARTERS,
    endings: [
        &[WRITTEN, WRITTEN, WRITTEN, WRITTEN],
        &[WRITTEN, WRITTEN, WRITTEN],
        &[WRITTEN, WRITTEN, WRITTEN],
    ],
};

const SIX: Ending = Ending {
    printed: "reply 0.0 done\ncommit 0.0\n",
    read: "reply 0.0 data\nblock 0 1 00\nblock 1 6 77\nblock 7 121 00\ncommit 0.0\n",
};

// Blocks 1 to 3 of unit 0 and 4 to 6 of unit 1, in pieces of one sector, two and one: of each column the first sector is
// read, there are a read and two writes, or three writes of the check unit, and it is settled.
const SIX_BLOCKS: Row = Row {
    unit: 4,
    script: "0 write 1 6 77\n",
    words: "r5 --io s1 -w 0",
    reads: "0 read 0 128\n",
    endings: [
        &[SIX, SIX, SIX, SIX, SIX],
        &[SIX, SIX, SIX, SIX, SIX],
        &[SIX, SIX, SIX, SIX, SIX],
    ],
};

// The graph names a unit that is missing as it is taken: its write of unit 0, its read of unit 1, its write of unit 2.
const WITHOUT_0: Ending = Ending {
    printed: "reply 0.0 refused G9 3\nreply 0.1 data\nblock 0 1 00\ncommit 0.1\n",
    read: NOTHING,
};

const WITHOUT_1: Ending = Ending {
    printed: "reply 0.0 refused G9 0\nreply 0.1 data\nblock 0 1 00\ncommit 0.1\n",
    read: NOTHING,
};

const WITHOUT_2: Ending = Ending {
    printed: "reply 0.0 refused G9 4\nreply 0.1 data\nblock 0 1 00\ncommit 0.1\n",
    read: NOTHING,
};

// Its read of unit 1 failed before the commit.
const UNDONE: Ending = Ending {
    printed: "reply 0.0 undone 1\nreply 0.1 data\nblock 0 1 00\ncommit 0.1\n",
    read: NOTHING,
};

const BY_A_GRAPH: Row = Row {
    unit: 1,
    script: "0 use large write 0 1 a5\n0 read 0 1\n",
    words: "r5 --io s1 --graphs g1 -w 0",
    reads: QUARTERS,
    endings: [
        &[WITHOUT_0, WRITTEN, WRITTEN, WRITTEN],
        &[WITHOUT_1, UNDONE, WRITTEN],
        &[WITHOUT_2, WRITTEN, WRITTEN],
    ],
};

// The name on the line of a column.
fn named(column: usize, absent: Option<usize>) -> &'static str {
    if absent == Some(column) {
        return "absent";
    }
    NAMES.get(column).copied().unwrap_or("absent")
}

// Three columns with units of so many sectors, of which one is absent.
fn conf_of(alloc: Global, unit: u32, absent: Option<usize>) -> Result<String, Fail> {
    let (first, second, third) = (named(0, absent), named(1, absent), named(2, absent));
    Ok(format!(in alloc;
        "START array\n1 3 0\nSTART disks\n{first}\n{second}\n{third}\nSTART layout\n{unit} 1 1 5\n"
    )?)
}

// The configuration, a script, and the graph.
fn texts_of(alloc: Global, unit: u32, script: &str) -> Result<Vec<(Name, Vec<u8>)>, Fail> {
    let conf = conf_of(alloc, unit, None)?;
    Ok(vec![in alloc;
        text(alloc, "r5", &conf)?,
        text(alloc, "s1", script)?,
        text(alloc, "g1", GRAPH)?,
    ]?)
}

// These lines, the column that died, and the status.
fn dying(alloc: Global, lines: &str, column: usize) -> Result<String, Fail> {
    Ok(format!(in alloc; "{lines}dead {column}\nstatus ok\n")?)
}

// What the components hold is read without the column that died: all blocks by this script, and the parity.
fn reads<R: Abort + Threads + Wait + Sync>(
    rt: &R,
    alloc: Global,
    (unit, script): (u32, &str),
    held: &Held,
    at: Fault,
    read: &str,
) -> Result<(), Fail> {
    let conf = conf_of(alloc, unit, Some(at.0))?;
    let texts = vec![in alloc; text(alloc, "r5", &conf)?, text(alloc, "s1", script)?]?;
    let mut bay = bay_of(alloc, texts, held, None)?;
    let all = dying(alloc, read, at.0)?;
    prints(
        rt,
        alloc,
        &mut bay,
        at,
        "r5 --io s1 -w 0",
        (0, all.as_bytes()),
    )?;
    let clean = dying(alloc, "parity clean\n", at.0)?;
    prints(rt, alloc, &mut bay, at, "r5 -p", (0, clean.as_bytes()))
}

// The row where this call fails.
fn fails<R: Abort + Threads + Wait + Sync>(
    rt: &R,
    alloc: Global,
    row: &Row,
    at: Fault,
    ending: Ending,
) -> Result<(), Fail> {
    let blank = blank(alloc, NAMES, 128)?;
    let mut bay = bay_of(
        alloc,
        texts_of(alloc, row.unit, row.script)?,
        &blank,
        Some(at),
    )?;
    let all = dying(alloc, ending.printed, at.0)?;
    prints(rt, alloc, &mut bay, at, row.words, (0, all.as_bytes()))?;
    let held = held_by(alloc, &bay, NAMES)?;
    reads(rt, alloc, (row.unit, row.reads), &held, at, ending.read)
}

// Each device has as many calls as the row has endings for it; and each of them fails.
fn each_fails<R: Abort + Threads + Wait + Sync>(
    rt: &R,
    alloc: Global,
    row: &Row,
) -> Result<(), Fail> {
    let blank = blank(alloc, NAMES, 128)?;
    let mut bay = bay_of(alloc, texts_of(alloc, row.unit, row.script)?, &blank, None)?;
    let mut out = sink(alloc)?;
    ended(rt, alloc, &mut bay, row.words, &mut out)?;
    for (column, endings) in row.endings.iter().enumerate() {
        same_at(rt, column, calls(&bay, &blank, column)?, endings.len());
        for (call, ending) in (0..1000).zip(*endings) {
            fails(rt, alloc, row, (column, call), *ending)?;
        }
    }
    Ok(())
}

// A write and a read, ten calls; a write of three pieces, fifteen; a write by a graph of a file and a read, ten.
#[test]
fn a_device_fails_at_each_of_its_calls(rt: HostRuntime) -> Result<(), Fail> {
    let alloc = rt.alloc();
    each_fails(&rt, alloc, &ONE_BLOCK)?;
    each_fails(&rt, alloc, &SIX_BLOCKS)?;
    each_fails(&rt, alloc, &BY_A_GRAPH)
}
