//! The lines of a graph, as people write it.

ghost use Rattle.std.specs.Prelude.{◌<◌, length};

use crate::judging::same_at;
use graph_mean::{Buf, Graph, Node};
use std::alloc::{AllocError, Global};
use std::process::Abort;
use std::test::Fail;

fn work_text(alloc: Global, node: Node) -> Result<String, AllocError> {
    match node {
        Node::Rd { unit, buf } => format!(in alloc; "read {unit} {buf}"),
        Node::Wr { unit, buf } => format!(in alloc; "write {unit} {buf}"),
        Node::Xor { to } => format!(in alloc; "xor {to}"),
        Node::Cmt => String::from_str(alloc, "commit"),
        Node::Trm => String::from_str(alloc, "terminate"),
    }
}

// Appends numbers, each behind a space.
fn add_numbers(text: &mut String, numbers: &[u32]) -> Result<(), AllocError> {
    for number in numbers {
        write!(text, " {number}")?;
    }
    Ok(())
}

// Appends antecedents, if there are any, behind the word `after`.
fn add_antes(text: &mut String, antes: &[u32]) -> Result<(), AllocError> {
    if antes.is_empty() {
        return Ok(());
    }
    text.push_str(" after")?;
    add_numbers(text, antes)
}

// What a node does, its sources, and its antecedents behind the word `after`.
fn node_text(alloc: Global, graph: &Graph, i: u32) -> Result<String, AllocError>
    requires { i < length graph.now.drawn.nodes }
{
    let mut text = work_text(alloc, graph.node(i))?;
    add_numbers(&mut text, graph.sources(i))?;
    add_antes(&mut text, graph.antes(i))?;
    Ok(text)
}

// The stripe, the first offset and the length of a buffer, and the unit of its new data.
fn buf_text(alloc: Global, buf: Buf) -> Result<String, AllocError> {
    let mut text = format!(in alloc;
        "stripe {} from {} count {}",
        buf.stripe, buf.from, buf.count
    )?;
    if let Some(unit) = buf.new_of {
        write!(text, " new {unit}")?;
    }
    Ok(text)
}

pub(super) fn see_nodes(
    rt: &impl Abort,
    alloc: Global,
    graph: &Graph,
    nodes: &[&str],
) -> Result<(), Fail> {
    same_at(rt, "nodes", graph.nodes() as usize, nodes.len());
    let mut i = 0;
    for node in nodes {
        assert!(rt; i < graph.nodes());
        let text = node_text(alloc, graph, i)?;
        same_at(rt, i, text.as_str(), *node);
        i += 1;
    }
    Ok(())
}

pub(super) fn see_bufs(
    rt: &impl Abort,
    alloc: Global,
    graph: &Graph,
    bufs: &[&str],
) -> Result<(), Fail> {
    same_at(rt, "buffers", graph.bufs() as usize, bufs.len());
    let mut i = 0;
    for buf in bufs {
        assert!(rt; i < graph.bufs());
        let text = buf_text(alloc, graph.buf(i))?;
        same_at(rt, i, text.as_str(), *buf);
        i += 1;
    }
    Ok(())
}

/// The returns are these, each a unit and a buffer.
pub(super) fn see_returns(rt: &impl Abort, graph: &Graph, rets: &[(u32, u32)]) {
    same_at(rt, "returns", graph.rets() as usize, rets.len());
    let mut i = 0;
    for (unit, buf) in rets {
        assert!(rt; i < graph.rets());
        let ret = graph.ret(i);
        same_at(rt, i, (ret.unit, ret.buf), (*unit, *buf));
        i += 1;
    }
}
