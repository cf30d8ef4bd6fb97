//! Each call of each device fails in turn, as a column of seven is rebuilt into its stripes' spare places.
use super::*;

const CONF: &str =
    "START array\n1 7 0\nSTART disks\nd0\nd1\nd2\nd3\nd4\nd5\nd6\nSTART layout\n1 1 1 D\ncyclic 7 : 0 1 3\n";

const NAMES: &[&str] = &["d0", "d1", "d2", "d3", "d4", "d5", "d6"];

const READS: &str =
    "0 read 0 16\n0 read 16 16\n0 read 32 16\n0 read 48 16\n0 read 64 16\n0 read 80 16\n0 read 96 16\n0 read 112 16\n0 read 128 16\n0 read 144 3\n";

const READ: &str =
    "reply 0.0 data\nblock 0 16 c3\nreply 0.1 data\nblock 16 16 00\nreply 0.2 data\nblock 32 16 00\nreply 0.3 data\nblock 48 16 00\nreply 0.4 data\nblock 64 16 00\nreply 0.5 data\nblock 80 16 00\nreply 0.6 data\nblock 96 16 00\nreply 0.7 data\nblock 112 16 00\nreply 0.8 data\nblock 128 16 00\nreply 0.9 data\nblock 144 3 00\ncommit 0.0\ncommit 0.1\ncommit 0.2\ncommit 0.3\ncommit 0.4\ncommit 0.5\ncommit 0.6\ncommit 0.7\ncommit 0.8\ncommit 0.9\n";

const REBUILD: &str = "r5 -F d4 -w 0";

const DONE: &str = "reconstruct column 4 spread done 42\n";

/// How a column stands to column 4 in a table of 21 stripes: the stripe that has a unit on each of the two, and the one that
/// has a unit on column 4 and its spare place on the column.
#[derive(Clone, Copy)]
struct Beside {
    column: usize,
    shared: u32,
    spared: u32,
}

// Of tuple t, which is t, t + 1 and t + 3 modulo 7: in the first copy the units stand on the first and the third object and
// the spare place on the second; in the second on the first two, and on the third; in the third on the last two, and on the
// first. Stripe 7 j + t is tuple t of copy j.
const BESIDE: &[Beside] = &[
    Beside {
        column: 0,
        shared: 4,
        spared: 11,
    },
    Beside {
        column: 1,
        shared: 1,
        spared: 15,
    },
    Beside {
        column: 2,
        shared: 15,
        spared: 1,
    },
    Beside {
        column: 3,
        shared: 10,
        spared: 17,
    },
    Beside {
        column: 5,
        shared: 11,
        spared: 4,
    },
    Beside {
        column: 6,
        shared: 17,
        spared: 10,
    },
];

// The calls of a column: its first sector and its map are read, its label written, and it is settled; in each of seven tables a unit is
// read and a spare place written; it is settled, its label written, and it is settled again.
const CALLS: u32 = 21;

// The configuration, and a script.
fn texts_of(alloc: Global, script: &str) -> Result<Vec<(Name, Vec<u8>)>, Fail> {
    text_list(alloc, &[("r5", CONF), ("s1", script)])
}

// What the array holds before the rebuild.
fn filled<R: Abort + Threads + Wait + Sync>(rt: &R, alloc: Global) -> Result<Held, Fail> {
    let texts = texts_of(alloc, "0 write 0 16 c3\n")?;
    let blank = blank(alloc, NAMES, 128)?;
    let mut bay = bay_of(alloc, texts, &blank, None)?;
    for (words, printed) in [
        ("r5 -I 7", "labels written 7\nstatus ok\n"),
        ("r5 -i", "parity initialised 147\nstatus ok\n"),
        ("r5 --io s1 -w 0", "reply 0.0 done\ncommit 0.0\nstatus ok\n"),
    ] {
        prints(rt, alloc, &mut bay, (0, 0), words, (0, printed.as_bytes()))?;
    }
    held_by(alloc, &bay, NAMES)
}

// The least stripe that has lost two units once this call has failed. Stripes are rebuilt by ascending number: one that comes
// before the call's own has its unit of column 4 in its spare place. Where none is left, the column isn't whole, and all are
// without it as the run is closed.
fn lost_stripe(beside: Beside, call: u32) -> u64 {
    let shared = u64::from(beside.shared);
    if call < 4 || call >= 18 {
        return shared;
    }
    let rebuilt = call - 4;
    let tables = if beside.shared < beside.spared {
        (rebuilt + 1) / 2
    } else {
        rebuilt / 2
    };
    shared + 21 * u64::from(tables % 7)
}

// The two dead columns and the loss.
fn loss(alloc: Global, beside: Beside, call: u32) -> Result<String, Fail> {
    let (first, second) = if beside.column < 4 {
        (beside.column, 4)
    } else {
        (4, beside.column)
    };
    let stripe = lost_stripe(beside, call);
    let line = if call < 4 {
        ""
    } else {
        "reconstruct column 4 spread stopped\n"
    };
    Ok(format!(in alloc;
        "{line}dead {first}\ndead {second}\nstatus lost {first} {second} {stripe}\n"
    )?)
}

// All blocks are there, and the parity, without the columns of this line.
fn reads<R: Abort + Threads + Wait + Sync>(
    rt: &R,
    alloc: Global,
    bay: &MemBay<MemDisk>,
    at: Fault,
    dead: &str,
) -> Result<(), Fail> {
    let held = held_by(alloc, bay, NAMES)?;
    let texts = texts_of(alloc, READS)?;
    let mut bay = bay_of(alloc, texts, &held, None)?;
    let all = format!(in alloc; "{READ}{dead}status ok\n")?;
    prints(
        rt,
        alloc,
        &mut bay,
        at,
        "r5 --io s1 -w 0",
        (0, all.as_bytes()),
    )?;
    let clean = format!(in alloc; "parity clean\n{dead}status ok\n")?;
    prints(rt, alloc, &mut bay, at, "r5 -p", (0, clean.as_bytes()))
}

// The rebuild is done, and the columns of this line are dead.
fn is_done<R: Abort + Threads + Wait + Sync>(
    rt: &R,
    alloc: Global,
    held: &Held,
    at: Fault,
    dead: &str,
) -> Result<(), Fail> {
    let mut bay = bay_of(alloc, texts_of(alloc, "")?, held, Some(at))?;
    let all = format!(in alloc; "{DONE}{dead}status ok\n")?;
    prints(rt, alloc, &mut bay, at, REBUILD, (0, all.as_bytes()))?;
    reads(rt, alloc, &bay, at, dead)
}

// This call of a column beside the one that is rebuilt fails.
fn fails<R: Abort + Threads + Wait + Sync>(
    rt: &R,
    alloc: Global,
    held: &Held,
    beside: Beside,
    call: u32,
) -> Result<(), Fail> {
    let at = (beside.column, call);
    if call >= 18 {
        let dead = format!(in alloc; "dead {}\n", beside.column)?;
        return is_done(rt, alloc, held, at, &dead);
    }
    let mut bay = bay_of(alloc, texts_of(alloc, "")?, held, Some(at))?;
    let all = loss(alloc, beside, call)?;
    prints(rt, alloc, &mut bay, at, REBUILD, (8, all.as_bytes()))
}

// Of column 4 the first sector and the map are read, its label is written, and it is settled, before it is dead; of each other column all calls are made.
// As one of these fails before the rebuild is done, column 4 and the other are dead, and the array is lost.
#[test]
fn a_device_fails_as_a_column_is_spread(rt: HostRuntime) -> Result<(), Fail> {
    let alloc = rt.alloc();
    let held = filled(&rt, alloc)?;
    let mut bay = bay_of(alloc, texts_of(alloc, "")?, &held, None)?;
    let done = format!(in alloc; "{DONE}status ok\n")?;
    prints(&rt, alloc, &mut bay, (4, 4), REBUILD, (0, done.as_bytes()))?;
    same_at(&rt, 4, calls(&bay, &held, 4)?, 4);
    for call in 0..4 {
        is_done(&rt, alloc, &held, (4, call), "")?;
    }
    for beside in BESIDE {
        same_at(
            &rt,
            beside.column,
            calls(&bay, &held, beside.column)?,
            CALLS as usize,
        );
        for call in 0..CALLS {
            fails(&rt, alloc, &held, *beside, call)?;
        }
    }
    Ok(())
}
