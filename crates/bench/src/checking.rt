//! Checks one graph at the limits a few times, and prints how large it is and what the answers were.
//!
//! The graph writes one block of a stripe of two data units and a check unit. It has 2,048 nodes, 2,048 buffers, and
//! 16,384 sources and antecedents: one read, 2,043 sums, each behind the seven or eight nodes before it, the commit,
//! two writes and the terminator. Only the first sum is written. Each sum has to follow the read whose buffer it uses,
//! so the checker goes back from each of them.
use blk_plain::{Span, limits};
use graph_check::{Scratch, check};
use graph_mean::{Graph, Kind, Task};
use graph_text::{Book, read_graphs};
use lay_core::{StripeMap, split};
use lay_plain::Raid5;
use std::alloc::{AllocError, Global};
use std::fmt::Write;

// How often the graph is checked.
const CHECKS: u32 = 20;

// The buffers of new data, all of the one block, and those that nodes fill.
const NEW: u32 = 4;

// The sums, which are the nodes from 1 on; those up to the last of the first few follow one node more.
const SUMS: u32 = 2043;

const CLOSER: u32 = 62;

fn add_buffers(text: &mut String) -> Result<(), AllocError> {
    for i in 0..limits::BUFFERS {
        write!(text, "buffer {i} stripe 0 from 0 count 1")?;
        text.push_str(if i < NEW { " new 0\n" } else { "\n" })?;
    }
    Ok(())
}

// The sum of the block's new data and the other data unit, or of that unit alone.
fn add_sum(text: &mut String, node: u32) -> Result<(), AllocError> {
    let target = node.saturating_add(NEW);
    write!(text, "node {node} xor {target} {NEW}")?;
    text.push_str(if node == 1 { " 0 after" } else { " after" })?;
    let back = if 8 <= node && node <= CLOSER { 8 } else { 7 };
    for ante in node.saturating_sub(back)..node {
        write!(text, " {ante}")?;
    }
    text.push('\n')?;
    Ok(())
}

// The text of the graph.
fn text_of(alloc: Global) -> Result<String, AllocError> {
    let mut text = String::new(alloc);
    text.push_str("graph limits\n")?;
    add_buffers(&mut text)?;
    text.push_str("node 0 read 1 4\n")?;
    for node in 1..SUMS + 1 {
        add_sum(&mut text, node)?;
    }
    text.push_str("node 2044 commit after 2043\nnode 2045 write 0 0 after 2044\n")?;
    text.push_str("node 2046 write 2 5 after 2044\nnode 2047 terminate after 2045 2046\nend\n")?;
    Ok(text)
}

// The graph, alone in its file.
fn read_graph(alloc: Global) -> Option<Book> {
    let text = text_of(alloc).ok()?;
    if text.len() > limits::TEXT_BYTES as usize {
        return None;
    }
    read_graphs(alloc, text.as_bytes()).ok()
}

// The write of the first block where a stripe has two data units of one sector.
fn make_task(alloc: Global) -> Option<Task> {
    let mut task = Task::with_room(alloc).ok()?;
    let mut map = StripeMap::with_room(alloc).ok()?;
    let Ok(layout) = Raid5::new(3, 1, 64) else {
        return None;
    };
    let span = Span { first: 0, count: 1 };
    match split(&layout, span, &mut map) {
        Ok(()) => task.set(&layout, Kind::Write, &map),
        Err(_) => return None,
    }
    Some(task)
}

// How many sources and antecedents a graph has.
fn count_edges(graph: &Graph) -> usize {
    let mut edges: usize = 0;
    for i in 0..graph.nodes() {
        edges = edges.saturating_add(graph.sources(i).len());
        edges = edges.saturating_add(graph.antes(i).len());
    }
    edges
}

// How many of the checks accept the graph.
fn check_often(graph: &Graph, task: &Task, room: &mut Scratch) -> u32 {
    let mut accepted: u32 = 0;
    for _ in 0..CHECKS {
        if check(graph, task, &[None], room).is_ok() {
            accepted = accepted.saturating_add(1);
        }
    }
    accepted
}

/// Checks the graph, and prints its size and how often it was accepted.
pub(crate) fn run(rt: &HostRuntime) -> Option<()> {
    let alloc = rt.alloc();
    let book = read_graph(alloc)?;
    let task = make_task(alloc)?;
    let mut room = Scratch::open(alloc).ok()?;
    if book.count() == 0 {
        return None;
    }
    let graph = book.graph(0);
    let accepted = check_often(graph, &task, &mut room);
    let edges = count_edges(graph);
    println!(rt;
        "{} nodes, {} buffers, {edges} edges",
        graph.nodes(),
        graph.bufs()
    )
    .ok()?;
    println!(rt; "checked {CHECKS} times, accepted {accepted} times").ok()
}
