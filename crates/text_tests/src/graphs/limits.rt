//! The limits of a graph file, and which line is refused beyond each.
use super::reading::refusal;
use crate::judging::{same, same_at};
use crate::texts::joined;
use std::alloc::{AllocError, Global};
use std::process::Abort;
use std::test::Fail;

// A graph's first line and so many numbered lines.
fn numbered(alloc: Global, word: &str, rest: &str, count: u32) -> Result<String, AllocError> {
    let mut text = String::from_str(alloc, "graph g\n")?;
    for i in 0..count {
        write!(text, "{word} {i} {rest}\n")?;
    }
    Ok(text)
}

// Why a graph of so many numbered lines isn't read.
fn ends(
    rt: &impl Abort,
    alloc: Global,
    word: &str,
    rest: &str,
    count: u32,
) -> Result<(u32, u8), AllocError> {
    let mut text = numbered(alloc, word, rest, count)?;
    text.push_str("end\n")?;
    Ok(refusal(rt, alloc, text.as_bytes()))
}

// A graph may have 2048 of these lines, and no more.
fn see_most(rt: &impl Abort, alloc: Global, word: &str, rest: &str) -> Result<(), AllocError> {
    const MOST: &[(u32, (u32, u8))] = &[(2_048, (0, 0)), (2_049, (2_050, 5))];
    for row in MOST {
        let (count, at) = *row;
        same_at(rt, word, ends(rt, alloc, word, rest, count)?, at);
    }
    Ok(())
}

// Of the line past the most, the words are judged before the limit.
fn see_past(rt: &impl Abort, alloc: Global, word: &str, rest: &str) -> Result<(), AllocError> {
    let front = numbered(alloc, word, rest, 2_048)?;
    let text = joined(alloc, &[front.as_bytes(), word.as_bytes(), b" x"])?;
    same_at(rt, word, refusal(rt, alloc, &text), (2_050, 2));
    Ok(())
}

#[test]
fn the_2049th_buffer_node_or_return_is_code_5(rt: HostRuntime) -> Result<(), Fail> {
    let alloc = rt.alloc();
    const LINES: &[(&str, &str)] = &[
        ("buffer", "stripe 0 from 0 count 1"),
        ("node", "commit"),
        ("return", "0"),
    ];
    for row in LINES {
        let (word, rest) = *row;
        see_most(&rt, alloc, word, rest)?;
        see_past(&rt, alloc, word, rest)?;
    }
    Ok(())
}

// The line of a node that sums so many buffers.
fn add_sum(text: &mut String, node: u32, sources: u32) -> Result<(), AllocError> {
    write!(text, "node {node} xor 0")?;
    for _ in 0..sources {
        text.push_str(" 7")?;
    }
    Ok(())
}

// Whether a graph is read whose sums have so many sources, and whose last line ends so.
fn sums(
    rt: &impl Abort,
    alloc: Global,
    counts: &[u32],
    rest: &str,
) -> Result<(u32, u8), AllocError> {
    let mut text = String::from_str(alloc, "graph g")?;
    let mut node = 0;
    for count in counts {
        text.push_str("\n")?;
        add_sum(&mut text, node, *count)?;
        node = node.saturating_add(1);
    }
    write!(text, "{rest}\nend")?;
    Ok(refusal(rt, alloc, text.as_bytes()))
}

#[test]
fn the_16385th_source_or_antecedent_is_code_5(rt: HostRuntime) -> Result<(), Fail> {
    const ROWS: &[(&[u32], &str, (u32, u8))] = &[
        (&[16_384], "", (0, 0)),
        (&[16_385], "", (2, 5)),
        (&[100_000], "", (2, 5)),
        (&[16_385], " x", (2, 2)),
        (&[16_385], " after", (2, 1)),
        (&[16_383], " after 0", (0, 0)),
        (&[16_383], " after 0 0", (2, 5)),
        (&[16_384], " after 0", (2, 5)),
        (&[10_000, 6_384], "", (0, 0)),
        (&[10_000, 6_384], " after 0", (3, 5)),
        (&[10_000, 6_385], "", (3, 5)),
    ];
    for row in ROWS {
        let (counts, rest, want) = *row;
        let is = sums(&rt, rt.alloc(), counts, rest)?;
        same_at(&rt, (counts, rest), is, want);
    }
    Ok(())
}

// Graphs g0 to g63.
fn empty_graphs(alloc: Global) -> Result<String, AllocError> {
    let mut text = String::new(alloc);
    for i in 0..64 {
        write!(text, "graph g{i}\nend\n")?;
    }
    Ok(text)
}

// A graph of this first line behind 64 graphs is refused by this code.
fn see_65th(
    rt: &impl Abort,
    alloc: Global,
    front: &str,
    more: &str,
    code: u8,
) -> Result<(), AllocError> {
    let text = joined(
        alloc,
        &[front.as_bytes(), b"graph ", more.as_bytes(), b"\nend\n"],
    )?;
    same_at(rt, more, refusal(rt, alloc, &text), (129, code));
    Ok(())
}

#[test]
fn the_65th_graph_is_code_5(rt: HostRuntime) -> Result<(), Fail> {
    let text = empty_graphs(rt.alloc())?;
    same(&rt, refusal(&rt, rt.alloc(), text.as_bytes()), (0, 0));
    const ROWS: &[(&str, u8)] = &[("g64", 5), ("g0", 4), ("g64 g", 1), ("G", 1)];
    for row in ROWS {
        let (more, code) = *row;
        see_65th(&rt, rt.alloc(), text.as_str(), more, code)?;
    }
    Ok(())
}

#[test]
fn limits_are_those_of_each_graph(rt: HostRuntime) -> Result<(), Fail> {
    let mut text = String::from_str(rt.alloc(), "graph g")?;
    for name in ["h", "i"] {
        text.push_str("\n")?;
        add_sum(&mut text, 0, 16_384)?;
        write!(text, "\nend\ngraph {name}")?;
    }
    same(&rt, refusal(&rt, rt.alloc(), text.as_bytes()), (8, 6));
    Ok(())
}
