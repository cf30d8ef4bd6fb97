//! The graph of a large write, pushed, accepted and read.

ghost use Rattle.graph_mean.specs.Task.{missing_of};
ghost use Rattle.graph_mean.specs.Atomic.{Atomic};
ghost use Rattle.graph_mean.specs.Ordered.{Accepted};
ghost use Rattle.graph_mean.specs.LargeWrite.{first_block};

use crate::judging::{same, same_at};
use graph_mean::samples::large_write;
use graph_mean::{Buf, Graph, Node, Ret, accepted_is_atomic};
use std::process::Abort;
use std::test::Fail;

// Takes a graph that is accepted for the write of the first block, where these units are missing.
fn needs_accepted(_graph: &Graph, _missing: &[Option<u8>])
    requires { Accepted _graph.now.drawn first_block (missing_of _missing.now) }
{}

// Takes one that is atomic for it.
fn needs_atomic(_graph: &Graph, _missing: &[Option<u8>])
    requires { Atomic _graph.now.drawn first_block (missing_of _missing.now) }
{}

#[test]
fn the_large_write_is_accepted_and_so_atomic(rt: HostRuntime) -> Result<(), Fail> {
    let graph = large_write(rt.alloc())?;
    needs_accepted(&graph, &[None]);
    accepted_is_atomic();
    needs_atomic(&graph, &[None]);
    Ok(())
}

// It has so many nodes, buffers and returns.
fn see_counts(rt: &impl Abort, graph: &Graph, want: (u32, u32, u32)) {
    same(rt, (graph.nodes(), graph.bufs(), graph.rets()), want);
}

fn see_ret(rt: &impl Abort, graph: &Graph, i: u32, ret: Ret) {
    assert!(rt; i < graph.rets());
    same(rt, graph.ret(i), ret);
}

fn see_kind(rt: &impl Abort, graph: &Graph, i: u32, node: Node) {
    assert!(rt; i < graph.nodes());
    same_at(rt, i, graph.node(i), node);
}

fn see_sources(rt: &impl Abort, graph: &Graph, i: u32, sources: &[u32]) {
    assert!(rt; i < graph.nodes());
    same_at(rt, i, graph.sources(i), sources);
}

fn see_antes(rt: &impl Abort, graph: &Graph, i: u32, antes: &[u32]) {
    assert!(rt; i < graph.nodes());
    same_at(rt, i, graph.antes(i), antes);
}

fn see_node(rt: &impl Abort, graph: &Graph, i: u32, node: Node, sources: &[u32], antes: &[u32]) {
    see_kind(rt, graph, i, node);
    see_sources(rt, graph, i, sources);
    see_antes(rt, graph, i, antes);
}

// A buffer of the one sector is filled so.
fn see_buf(rt: &impl Abort, graph: &Graph, i: u32, new_of: Option<u32>) {
    assert!(rt; i < graph.bufs());
    let wanted = Buf {
        stripe: 0,
        from: 0,
        count: 1,
        new_of,
    };
    same_at(rt, i, graph.buf(i), wanted);
}

// Its nodes are those of the large write.
fn see_nodes(rt: &impl Abort, graph: &Graph) {
    see_node(rt, graph, 0, Node::Rd { unit: 1, buf: 1 }, &[], &[]);
    see_node(rt, graph, 1, Node::Xor { to: 2 }, &[1, 0], &[0]);
    see_node(rt, graph, 2, Node::Cmt, &[], &[0, 1]);
    see_node(rt, graph, 3, Node::Wr { unit: 0, buf: 0 }, &[], &[2]);
    see_node(rt, graph, 4, Node::Wr { unit: 2, buf: 2 }, &[], &[2]);
    see_node(rt, graph, 5, Node::Trm, &[], &[3, 4]);
}

#[test]
fn a_graph_is_read_as_it_was_pushed(rt: HostRuntime) -> Result<(), Fail> {
    let graph = large_write(rt.alloc())?;
    see_counts(&rt, &graph, (6, 3, 0));
    see_nodes(&rt, &graph);
    see_buf(&rt, &graph, 0, Some(0));
    see_buf(&rt, &graph, 1, None);
    see_buf(&rt, &graph, 2, None);
    Ok(())
}

#[test]
fn a_cleared_graph_takes_another(rt: HostRuntime) -> Result<(), Fail> {
    let mut graph = large_write(rt.alloc())?;
    let ret = Ret { unit: 1, buf: 0 };
    graph.push_ret(ret);
    see_ret(&rt, &graph, 0, ret);
    graph.clear();
    see_counts(&rt, &graph, (0, 0, 0));
    graph.push_node(Node::Trm);
    see_node(&rt, &graph, 0, Node::Trm, &[], &[]);
    Ok(())
}
