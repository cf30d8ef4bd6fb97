//! Graphs at the limits and past them.

ghost use Rattle.graph_check.specs.Samples.{HasRoom};

use crate::checker::drawing::{add_ante, add_buf, add_node, aim, buf_of, paper};
use crate::checker::layouts::PARITY;
use crate::judging::same;
use blk_plain::Span;
use graph_check::{Refusal, Scratch, check};
use graph_mean::{Graph, Kind, Node, Task};
use lay_core::StripeMap;
use std::process::Abort;
use std::test::Fail;

// Appends so many buffers.
fn add_bufs(rt: &impl Abort, graph: &mut Graph, count: u32)
    requires { HasRoom graph.old }
    ensures { HasRoom graph.new }
{
    for _ in 0..count {
        add_buf(rt, graph, buf_of((0, 0, 1, None)));
    }
}

// Appends so many nodes that are commits.
fn add_commits(rt: &impl Abort, graph: &mut Graph, count: u32)
    requires { HasRoom graph.old }
    ensures { HasRoom graph.new }
{
    for _ in 0..count {
        add_node(rt, graph, Node::Cmt);
    }
}

// So many buffers, and nodes that are commits, the last with so many antecedents.
fn fill(rt: &impl Abort, graph: &mut Graph, nodes: u32, bufs: u32, edges: u32)
    requires { HasRoom graph.old }
    ensures { HasRoom graph.new }
{
    graph.clear();
    add_bufs(rt, graph, bufs);
    add_commits(rt, graph, nodes);
    for _ in 0..edges {
        add_ante(rt, graph, 0);
    }
}

#[test]
fn a_graph_past_a_limit_is_large_before_all_else(rt: HostRuntime) -> Result<(), Fail> {
    let mut graph = paper(rt.alloc())?;
    let mut room = Scratch::open(rt.alloc())?;
    let mut task = Task::with_room(rt.alloc())?;
    let mut map = StripeMap::with_room(rt.alloc())?;
    let span = Span { first: 0, count: 1 };
    aim(&rt, &PARITY, &mut task, &mut map, Kind::Read, span);
    const ROWS: &[(u32, u32, u32, Refusal)] = &[
        (2049, 0, 0, Refusal::Large),
        (1, 2049, 0, Refusal::Large),
        (2, 0, 16385, Refusal::Large),
        (2048, 2048, 0, Refusal::Commits { count: 2048 }),
        (2, 0, 16384, Refusal::Commits { count: 2 }),
    ];
    for row in ROWS {
        let (nodes, bufs, edges, want) = *row;
        fill(&rt, &mut graph, nodes, bufs, edges);
        let answer = check(&graph, &task, &[None], &mut room).err();
        same(&rt, answer, Some(want));
    }
    Ok(())
}
