//! Of several refusals the first comes, of those of a rebuild too.
use super::join_lines::push_chain;
use super::*;
use crate::judging::same_at;

// Of two mirrored pairs with one spare column 0 is half rebuilt on it. A script whose line joins graphs the wrong way round, the
// graphs, and a script that isn't one.
const HALF: Session = Session {
    conf: "START array\n1 4 1\nSTART disks\nd0\nd1\nd2\nd3\nSTART spare\ns0\nSTART layout\n1 1 1 1\n",
    script: "0 join one 2 1 a5 one 0 1 b6\n",
    other: "graph one\nbuffer 0 stripe 0 from 0 count 1 new 0\nnode 0 commit\nnode 1 write 0 0 after 0\nnode 2 terminate after 1\nend\n",
    more: "0 write 0 0 a5\n",
    ..PLAIN
};

const LABELLED: Step = Step::Run("r5 -I 7", 0, "labels written 4\nstatus ok\n");

const INITIALISED: Step = Step::Run("r5 -i", 0, "parity initialised 128\nstatus ok\n");

const PAUSED: Step = Step::Run(
    "r5 -F d0 --limit 1 -w 0",
    0,
    "reconstruct column 0 device 4 paused 1\nstatus ok\n",
);

// The words, the configuration, the component that is named, the graphs, the script.
const OF_TEXTS: Session = Session {
    steps: &[
        LABELLED,
        INITIALISED,
        PAUSED,
        Step::Run("no -F d3 --limit", 1, "status usage 0\n"),
        Step::Run("no -F d3 -R d3 --limit 0 --trace", 1, "status usage 1\n"),
        Step::Run("no -F d3 --limit 0 --trace", 1, "status usage 2\n"),
        Step::Run("no -F d3 --limit 0 --io t2", 1, "status usage 3\n"),
        Step::Run("no -F no --graphs no --io no", 6, "status nofile no\n"),
        Step::Run("t1 -F no --graphs no --io no", 2, "status conf 1 1\n"),
        Step::Run("r5 -F no --graphs no --io no", 1, "status usage 3\n"),
        Step::Run("r5 -F d3 --graphs no --io t2", 6, "status nofile no\n"),
        Step::Run("r5 -F d3 --graphs s1 --io no", 4, "status graph 1 1\n"),
        Step::Run("r5 -F d3 --graphs t1 --io no", 6, "status nofile no\n"),
        Step::Run("r5 -F d3 --graphs t1 --io t2", 3, "status script 1 2\n"),
        Step::Run("r5 --resume --limit 0 --io no", 1, "status usage 3\n"),
        Step::Run("r5 --resume --graphs s1 --io no", 4, "status graph 1 1\n"),
        Step::Run("r5 --resume --graphs t1 --io t2", 3, "status script 1 2\n"),
        Step::Run("r5 -g s0", 0, "label 2 7 5 0 4 1 64 49 1\nstatus ok\n"),
    ],
    ..HALF
};

// The loss, the other column that is half rebuilt, the spare or the column to go on with, and graphs that can't be joined.
const OF_COLUMNS: Session = Session {
    steps: &[
        LABELLED,
        INITIALISED,
        Step::Run("r5 --resume --io s1 --graphs t1", 14, "status norebuild\n"),
        PAUSED,
        Step::Run(
            "r5 -F d1 --io s1 --graphs t1",
            8,
            "dead 0\ndead 1\nstatus lost 0 1 2\n",
        ),
        Step::Run(
            "r5 -R d1 --limit 1",
            8,
            "dead 0\ndead 1\nstatus lost 0 1 2\n",
        ),
        Step::Run("r5 -F d3 --io s1 --graphs t1", 15, "status rebuilding 0\n"),
        Step::Run("r5 -F d3 --limit 1", 15, "status rebuilding 0\n"),
        Step::Run("r5 -R d3", 15, "status rebuilding 0\n"),
        Step::Run("r5 -F d0 --io s1 --graphs t1", 12, "status nospare\n"),
        Step::Run("r5 -R d0 --io s1 --graphs t1", 3, "status script 1 11\n"),
        Step::Run("r5 --resume --io s1 --graphs t1", 3, "status script 1 11\n"),
        Step::Run("r5 -g s0", 0, "label 2 7 5 0 4 1 64 49 1\nstatus ok\n"),
    ],
    ..HALF
};

// A component that isn't there; what the newest label, that of column 1, says of a unit, at its byte 28; a component that is too
// small; one without a label, unless it is that of the column which is named; and a counter of 4,294,901,765, by bytes 18 and
// 19, which makes the other labels old.
const OF_COMPONENTS: Session = Session {
    steps: &[
        LABELLED,
        INITIALISED,
        PAUSED,
        Step::Put("d1", 18, 255),
        Step::Put("d1", 19, 255),
        Step::Run("r5 -F d3", 9, "status label 1 6 4294901765 4294901760\n"),
        Step::Run("r5 --resume", 9, "status label 1 6 4294901765 4294901760\n"),
        Step::Renew("d2"),
        Step::Run("r5 --resume", 9, "status label 2 1 0 0\n"),
        Step::Put("d1", 18, 0),
        Step::Put("d1", 19, 0),
        Step::Run("r5 -F d1", 9, "status label 2 1 0 0\n"),
        Step::Run("r5 -F d3", 9, "status label 2 1 0 0\n"),
        Step::Run("r5 --resume", 9, "status label 2 1 0 0\n"),
        Step::Run("r5 -R d2", 15, "status rebuilding 0\n"),
        Step::Resize("d2", 100),
        Step::Run("r5 -F d3", 10, "status small 2 100 128\n"),
        Step::Run("r5 --resume", 10, "status small 2 100 128\n"),
        Step::Put("d1", 28, 2),
        Step::Run("r5 -F d3", 9, "status label 1 4 2 1\n"),
        Step::Run("r5 --resume", 9, "status label 1 4 2 1\n"),
        Step::Lose("d2"),
        Step::Run("r5 -F d3", 6, "status nofile d2\n"),
        Step::Run("r5 --resume", 6, "status nofile d2\n"),
    ],
    ..HALF
};

// The configuration is the bay's call 18, and the script its call 19; then the configuration is its call 20, and the third
// component its call 23.
const OF_CALLS: Session = Session {
    faults: &[19, 23],
    steps: &[
        LABELLED,
        INITIALISED,
        PAUSED,
        Step::Run("r5 -F d3 --io t2", 5, "status bay\n"),
        Step::Run("r5 -F d1", 5, "status bay\n"),
        Step::Run("r5 -F d3", 15, "status rebuilding 0\n"),
    ],
    ..HALF
};

#[test]
fn refusals_come_in_their_order(rt: HostRuntime) -> Result<(), Fail> {
    const SESSIONS: &[Session] = &[OF_TEXTS, OF_COLUMNS, OF_COMPONENTS, OF_CALLS];
    play(&rt, rt.alloc(), SESSIONS)
}

// With five devices an item by a graph of N nodes counts (2 N + 4) * 6 events: one of 2,048 nodes 24,600, and one of 1,204
// 14,472. Of the 1,048,576 for which a trace has room, 42 of the one and one of the other leave 904; there is no room for 43 of
// the one.
fn items_of(alloc: Global, last: &str) -> Result<String, Fail> {
    let mut script = String::new(alloc);
    for _ in 0..42u32 {
        script.push_str("0 use long write 0 1 a5\n")?;
    }
    script.push_str(last)?;
    Ok(script)
}

const FIVE: &[&str] = &["d0", "d1", "d2", "d3", "s0"];

// Scripts `s1`, which leaves 904, and `s2`, for which there is no room; and their graphs.
fn traced_bay(alloc: Global) -> Result<MemBay<MemDisk>, Fail> {
    let mut graphs = String::new(alloc);
    push_chain(alloc, &mut graphs, "long", 0, 2046)?;
    push_chain(alloc, &mut graphs, "rest", 0, 1202)?;
    let texts = vec![in alloc;
        text(alloc, "r5", HALF.conf)?,
        text(alloc, "s1", &items_of(alloc, "0 use rest write 0 1 a5\n")?)?,
        text(alloc, "s2", &items_of(alloc, "0 use long write 0 1 a5\n")?)?,
        text(alloc, "t1", &graphs)?,
    ]?;
    let mut disks = Vec::new(alloc);
    for name in FIVE {
        disks.push((
            Name::new(alloc, *name)?,
            zeros(alloc, 128, Vec::new(alloc))?,
        ))?;
    }
    Ok(MemBay::new(alloc, texts, disks, Vec::new(alloc)))
}

// Words, the exit number, and how what is printed ends. A rebuild has five nodes and counts 84: ten of them fit beside `s1`, and
// 11 don't. As many count as the limit says, and no more than are left. A loss, another column that is half rebuilt, a spare
// that there isn't and a column that isn't half rebuilt are told before.
const BOUNDED: &[(&str, u8, &str)] = &[
    (
        "r5 --resume --io s2 --graphs t1 --trace",
        14,
        "status norebuild\n",
    ),
    (
        "r5 -F d0 --limit 11 --io s1 --graphs t1 --trace",
        3,
        "status script 0 8\n",
    ),
    (
        "r5 -F d0 --limit 10 --io s1 --graphs t1 --trace -w 0",
        0,
        "reconstruct column 0 device 4 paused 10\nstatus ok\n",
    ),
    (
        "r5 -F d1 --io s2 --graphs t1 --trace",
        8,
        "dead 0\ndead 1\nstatus lost 0 1 20\n",
    ),
    (
        "r5 -F d3 --io s2 --graphs t1 --trace",
        15,
        "status rebuilding 0\n",
    ),
    (
        "r5 -F d0 --io s2 --graphs t1 --trace",
        12,
        "status nospare\n",
    ),
    (
        "r5 --resume --limit 1 --io s2 --graphs t1 --trace",
        3,
        "status script 0 8\n",
    ),
    (
        "r5 -R d0 --io s1 --graphs t1 --trace",
        3,
        "status script 0 8\n",
    ),
    (
        "r5 --resume --limit 11 --io s1 --graphs t1 --trace",
        3,
        "status script 0 8\n",
    ),
    (
        "r5 --resume --limit 10 --io s1 --graphs t1 --trace -w 0",
        0,
        "reconstruct column 0 device 4 paused 20\nstatus ok\n",
    ),
    (
        "r5 --resume --io s1 --graphs t1 --trace",
        3,
        "status script 0 8\n",
    ),
    (
        "r5 --resume --limit 34 -w 0",
        0,
        "reconstruct column 0 device 4 paused 54\nstatus ok\n",
    ),
    (
        "r5 --resume --limit 99 --io s1 --graphs t1 --trace -w 0",
        0,
        "reconstruct column 0 device 4 done 64\nstatus ok\n",
    ),
];

#[test]
fn a_trace_is_bounded_behind_other_refusals(rt: HostRuntime) -> Result<(), Fail> {
    let alloc = rt.alloc();
    let mut bay = traced_bay(alloc)?;
    act_out(&rt, alloc, &mut bay, LABELLED)?;
    act_out(&rt, alloc, &mut bay, INITIALISED)?;
    for (words, exit, end) in BOUNDED {
        let (number, printed) = answer(&rt, alloc, &mut bay, *words)?;
        same_at(&rt, *words, printed.ends_with(end.as_bytes()), true);
        same_at(&rt, *words, number, *exit);
    }
    Ok(())
}
