//! Which join lines are refused, and when.
use super::joined::{GRAPHS, bay_with};
use super::*;
use crate::judging::same_at;

// Graphs of 1,025 and 1,026 nodes, and one of these that names a second stripe: their names, the stripe, and how many of the
// nodes stand between commit and terminator.
const LONG: &[(&str, u32, u16)] = &[("odd", 0, 1023), ("long", 0, 1024), ("high", 1, 1024)];

// Graphs of 1,024 and of 980 nodes.
const COUNTED: &[(&str, u32, u16)] = &[("even", 0, 1022), ("rest", 0, 978)];

// A graph of a commit, so many sums of nothing into one buffer, and a terminator, each behind the one before.
pub(super) fn push_chain(
    alloc: Global,
    text: &mut String,
    name: &str,
    stripe: u32,
    sums: u16,
) -> Result<(), Fail> {
    let head = format!(in alloc;
        "graph {name}\nbuffer 0 stripe {stripe} from 0 count 1\nnode 0 commit\n"
    )?;
    text.push_str(&head)?;
    let last = u32::from(sums);
    for i in 0..last {
        let next = i + 1;
        let line = format!(in alloc; "node {next} xor 0 after {i}\n")?;
        text.push_str(&line)?;
    }
    let end = last + 1;
    let tail = format!(in alloc; "node {end} terminate after {last}\nend\n")?;
    text.push_str(&tail)?;
    Ok(())
}

fn with_chains(alloc: Global, chains: &[(&str, u32, u16)]) -> Result<String, Fail> {
    let mut text = String::new(alloc);
    text.push_str(GRAPHS)?;
    for (name, stripe, sums) in chains {
        push_chain(alloc, &mut text, *name, *stripe, *sums)?;
    }
    Ok(text)
}

// A script of join lines, the exit number, and what is printed.
const LINES: &[(&str, u8, &str)] = &[
    (
        "0 join large 0 1 a5 large 1 1 b6\n",
        3,
        "status script 1 11\n",
    ),
    (
        "0 join large 2 1 a5 large 0 1 b6\n",
        3,
        "status script 1 11\n",
    ),
    (
        "0 join wide 0 1 a5 large 2 1 b6\n",
        3,
        "status script 1 10\n",
    ),
    (
        "0 join wide 0 1 a5 large 1 1 b6\n",
        3,
        "status script 1 11\n",
    ),
    (
        "0 join large 0 1 a5 large 2 1 b6\n0 join wide 0 1 a5 large 2 1 b6\n",
        3,
        "status script 2 10\n",
    ),
    (
        "0 join large 0 2 a5 large 1 1 b6\n",
        3,
        "status script 1 9\n",
    ),
    (
        "0 join large 0 1 a5 larger 2 1 b6\n",
        3,
        "status script 1 6\n",
    ),
    (
        "0 join large 0 1 a5 large 128 1 b6\n",
        0,
        "reply 0.0 refused R1\nstatus ok\n",
    ),
    (
        "0 join wide 0 32 a5 large 40 1 b6\n",
        0,
        "reply 0.0 refused R2\nstatus ok\n",
    ),
    (
        "0 join large 0 1 a5 eager 2 1 b6\n",
        0,
        "reply 0.0 refused G8 4\nstatus ok\n",
    ),
    (
        "0 join large 0 1 a5 wide 2 1 b6\n",
        0,
        "reply 0.0 refused G1 0 3\nstatus ok\n",
    ),
    (
        "0 join bare 0 1 a5 large 2 1 b6\n",
        0,
        "reply 0.0 refused G12 0 2 0\nstatus ok\n",
    ),
    (
        "0 join large 0 1 a5 bare 2 1 b6\n",
        0,
        "reply 0.0 refused G12 1 2 0\nstatus ok\n",
    ),
    (
        "0 fail 1\n0 join large 0 1 a5 large 2 1 b6\n",
        0,
        "reply 0.0 ok\nreply 0.1 refused G9 0\ndead 1\nstatus ok\n",
    ),
    (
        "0 fail 0\n0 join large 0 1 a5 large 2 1 b6\n",
        0,
        "reply 0.0 ok\nreply 0.1 refused G9 2\ndead 0\nstatus ok\n",
    ),
    (
        "0 fail 2\n0 join large 0 1 a5 large 2 1 b6\n",
        0,
        "reply 0.0 ok\nreply 0.1 refused G9 6\ndead 2\nstatus ok\n",
    ),
];

// The same of the larger graphs.
const LONG_LINES: &[(&str, u8, &str)] = &[
    ("0 join long 0 1 a5 odd 2 1 b6\n", 3, "status script 1 12\n"),
    ("0 join long 0 1 a5 odd 1 1 b6\n", 3, "status script 1 11\n"),
    ("0 join high 0 1 a5 odd 2 1 b6\n", 3, "status script 1 10\n"),
    (
        "0 join long 0 1 a5 odd 2 1 b6\n0 join odd 0 1 a5 odd 1 1 b6\n",
        3,
        "status script 1 12\n",
    ),
    (
        "0 join odd 0 1 a5 odd 2 1 b6\n",
        0,
        "reply 0.0 refused G5 0 1023\nstatus ok\n",
    ),
    (
        "0 join long 0 1 a5 odd 128 1 b6\n",
        0,
        "reply 0.0 refused R1\nstatus ok\n",
    ),
    (
        "0 join long 127 2 a5 odd 40 1 b6\n",
        0,
        "reply 0.0 refused R1\nstatus ok\n",
    ),
    (
        "0 join long 0 32 a5 odd 40 1 b6\n",
        0,
        "reply 0.0 refused R2\nstatus ok\n",
    ),
];

fn are_told<R: Abort + Threads + Wait + Sync>(
    rt: &R,
    alloc: Global,
    graphs: &str,
    lines: &[(&str, u8, &str)],
) -> Result<(), Fail> {
    for (script, exit, printed) in lines {
        let mut bay = bay_with(alloc, CONF, graphs, *script)?;
        let (status, found) = answer(rt, alloc, &mut bay, "r5 --io s1 --graphs t1 -w 0")?;
        same_at(rt, *script, found.as_slice(), printed.as_bytes());
        same_at(rt, *script, status, *exit);
    }
    Ok(())
}

// Spans that meet in a stripe, or stand the other way round; a graph of a stripe more, which is judged behind that; the first
// line that is refused; spans past the end, or of 17 stripes, whatever the graphs are. And graphs that the checker refuses,
// over whole arrays or not, at the place to which the cause has moved: it is that of the first graph or of the second.
#[test]
fn graphs_that_are_not_joined_are_told(rt: HostRuntime) -> Result<(), Fail> {
    are_told(&rt, rt.alloc(), GRAPHS, LINES)
}

// Graphs of 2,051 nodes together are judged behind spans and stripes; of 2,050 the joined one has 2,048.
#[test]
fn graphs_that_are_too_large_together_are_told(rt: HostRuntime) -> Result<(), Fail> {
    let graphs = with_chains(rt.alloc(), LONG)?;
    are_told(&rt, rt.alloc(), &graphs, LONG_LINES)
}

// An array that lacks one component, or two, or that is labelled and has no spare; the spans of the line meet in a stripe.
const APART: Session = Session {
    script: "0 join large 0 1 a5 large 1 1 b6\n",
    other: GRAPHS,
    ..PLAIN
};

// A line is judged once the array is opened and isn't lost, and there is a spare for a reconstruction: its dead columns are
// printed beside it.
const OPENED: &[Session] = &[
    Session {
        conf: "START array\n1 3 0\nSTART disks\nd0\nabsent\nd2\nSTART layout\n1 1 1 5\n",
        steps: &[Step::Run(
            "r5 --io s1 --graphs t1 -w 0",
            3,
            "dead 1\nstatus script 1 11\n",
        )],
        ..APART
    },
    Session {
        conf: "START array\n1 3 0\nSTART disks\nabsent\nabsent\nd2\nSTART layout\n1 1 1 5\n",
        steps: &[Step::Run(
            "r5 --io s1 --graphs t1 -w 0",
            8,
            "dead 0\ndead 1\nstatus lost 0 1 0\n",
        )],
        ..APART
    },
    Session {
        steps: &[
            Step::Run("r5 -I 7", 0, "labels written 3\nstatus ok\n"),
            Step::Run("r5 -F d1 -w 0 --io s1 --graphs t1", 12, "status nospare\n"),
        ],
        ..APART
    },
];

#[test]
fn graphs_are_joined_once_the_array_is_opened(rt: HostRuntime) -> Result<(), Fail> {
    play(&rt, rt.alloc(), OPENED)
}

const LINE: &str = "0 join large 0 1 a5 large 2 1 b6\n";

// So many of the same line, run in turn; the 65th is refused.
#[test]
fn there_may_be_64_join_lines(rt: HostRuntime) -> Result<(), Fail> {
    let alloc = rt.alloc();
    let mut script = String::new(alloc);
    let mut replies = String::new(alloc);
    let mut commits = String::new(alloc);
    for i in 0..64u32 {
        script.push_str(LINE)?;
        let reply = format!(in alloc; "reply 0.{i} done\n")?;
        replies.push_str(&reply)?;
        let commit = format!(in alloc; "commit 0.{i}\n")?;
        commits.push_str(&commit)?;
    }
    replies.push_str(&commits)?;
    replies.push_str("status ok\n")?;
    let words = "r5 --io s1 --graphs t1 -w 0";
    let mut bay = bay_with(alloc, CONF, GRAPHS, &script)?;
    says(&rt, alloc, &mut bay, words, 0, &replies)?;
    script.push_str(LINE)?;
    let mut bay = bay_with(alloc, CONF, GRAPHS, &script)?;
    says(&rt, alloc, &mut bay, words, 3, "status script 65 13\n")
}

// An array of 31 columns, each stripe of which has 30 data units.
fn wide_conf(alloc: Global) -> Result<String, Fail> {
    let mut text = String::new(alloc);
    text.push_str("START array\n1 31 0\nSTART disks\n")?;
    for i in 0..31u32 {
        let line = format!(in alloc; "d{i}\n")?;
        text.push_str(&line)?;
    }
    text.push_str("START layout\n1 1 1 5\n")?;
    Ok(text)
}

// With 31 devices an item by a graph of N nodes counts (2 N + 4) * 32 events: one of 1,024 nodes 65,664, and one of 980 62,848.
// Of the 1,048,576 for which a trace has room, 15 of the one and one of the other leave 768, as an item by the joined graph of
// ten nodes counts; where its graphs aren't joined it counts 4 * 32, as an item does by which a column fails.
const USES: &str = "0 use even write 0 1 a5\n";

const REST: &str = "0 use rest write 0 1 a5\n";

// These 16 items, all of which the checker refuses, and lines behind them; and what is printed of all: the replies and the
// trace, each in front of those of the lines behind.
fn traced(
    alloc: Global,
    lines: &str,
    replies: &str,
    trace: &str,
) -> Result<(String, String), Fail> {
    let mut script = String::new(alloc);
    let mut printed = String::new(alloc);
    let mut events = String::new(alloc);
    for i in 0..15u32 {
        script.push_str(USES)?;
        let reply = format!(in alloc; "reply 0.{i} refused G5 0 1022\n")?;
        printed.push_str(&reply)?;
        let begun = format!(in alloc; "begin 0.{i}\ntake 0.{i}\n")?;
        events.push_str(&begun)?;
    }
    script.push_str(REST)?;
    script.push_str(lines)?;
    printed.push_str("reply 0.15 refused G5 0 978\n")?;
    printed.push_str(replies)?;
    printed.push_str(&events)?;
    printed.push_str("begin 0.15\ntake 0.15\n")?;
    printed.push_str(trace)?;
    Ok((script, printed))
}

// What a script prints over that array, with a trace.
fn is_traced<R: Abort + Threads + Wait + Sync>(
    rt: &R,
    alloc: Global,
    script: &str,
    printed: &str,
    exit: u8,
) -> Result<(), Fail> {
    let conf = wide_conf(alloc)?;
    let graphs = with_chains(alloc, COUNTED)?;
    let mut bay = bay_with(alloc, &conf, &graphs, script)?;
    let words = "r5 --io s1 --graphs t1 -w 0 --trace";
    says(rt, alloc, &mut bay, words, exit, printed)
}

// The lines behind, and what is printed of them. The unit 2 that `large` writes holds data where a stripe has 30 data units, so
// that the checker refuses it.
const WITHIN: &[(&str, &str, &str)] = &[
    (
        "0 join large 0 1 a5 large 30 1 b6\n",
        "reply 0.16 refused G12 0 2 0\n",
        "begin 0.16\ntake 0.16\nstatus ok\n",
    ),
    (
        "0 join large 0 1 a5 large 1920 1 b6\n0 fail 0\n0 fail 0\n0 fail 0\n0 fail 0\n0 fail 0\n",
        "reply 0.16 refused R1\nreply 0.17 ok\nreply 0.18 ok\nreply 0.19 ok\nreply 0.20 ok\nreply 0.21 ok\n",
        "begin 0.16\nbegin 0.17\nbegin 0.18\nbegin 0.19\nbegin 0.20\nbegin 0.21\ndead 0\nstatus ok\n",
    ),
];

#[test]
fn joined_graphs_count_for_the_bound_of_a_trace(rt: HostRuntime) -> Result<(), Fail> {
    let alloc = rt.alloc();
    for (lines, replies, trace) in WITHIN {
        let (script, printed) = traced(alloc, *lines, *replies, *trace)?;
        is_traced(&rt, alloc, &script, &printed, 0)?;
    }
    Ok(())
}

// An item more than there is room for; behind a line whose graphs can't be joined that isn't told.
const BEYOND: &[(&str, &str)] = &[
    (
        "0 join large 0 1 a5 large 30 1 b6\n0 fail 0\n",
        "status script 0 8\n",
    ),
    (
        "0 join large 0 1 a5 large 1920 1 b6\n0 fail 0\n0 fail 0\n0 fail 0\n0 fail 0\n0 fail 0\n0 fail 0\n",
        "status script 0 8\n",
    ),
    (
        "0 join large 0 1 a5 large 1 1 b6\n0 fail 0\n0 fail 0\n0 fail 0\n0 fail 0\n0 fail 0\n0 fail 0\n",
        "status script 17 11\n",
    ),
];

#[test]
fn graphs_are_joined_before_a_trace_is_bounded(rt: HostRuntime) -> Result<(), Fail> {
    let alloc = rt.alloc();
    for (lines, printed) in BEYOND {
        let (script, _) = traced(alloc, *lines, "", "")?;
        is_traced(&rt, alloc, &script, *printed, 3)?;
    }
    Ok(())
}
