//! A graph for examples and tests: the large write of unit 0 of three columns, which reads unit 1. It is the example of
//! docs/GRAPHS.md. It writes block 0 of an array whose stripes have two data units of one sector and a check unit.
ghost use Rattle.std.specs.Prelude.{◌≡◌, IfOk};
ghost use Rattle.graph_mean.specs.Graph.{blank};
ghost use Rattle.graph_mean.specs.LargeWrite.{in_room, large, large_bufs, large_front};

use crate::graph::{Buf, Graph, Node};
use crate::memory::Memory;
use std::alloc::Global;

// The new data of unit 0, what is read of unit 1, and the new check unit.
fn push_bufs(graph: &mut Graph)
    requires { graph.old ≡ in_room blank }
    ensures { graph.new ≡ in_room large_bufs }
{
    let plain = Buf {
        stripe: 0,
        from: 0,
        count: 1,
        new_of: None,
    };
    graph.push_buf(Buf {
        new_of: Some(0),
        ..plain
    });
    graph.push_buf(plain);
    graph.push_buf(plain);
}

// The read of unit 1, the sum that makes the check unit, and the commit.
fn push_front(graph: &mut Graph)
    requires { graph.old ≡ in_room large_bufs }
    ensures { graph.new ≡ in_room large_front }
{
    graph.push_node(Node::Rd { unit: 1, buf: 1 });
    graph.push_node(Node::Xor { to: 2 });
    graph.push_source(1);
    graph.push_source(0);
    graph.push_ante(0);
    graph.push_node(Node::Cmt);
    graph.push_ante(0);
    graph.push_ante(1);
}

// The two writes and the terminator.
fn push_back(graph: &mut Graph)
    requires { graph.old ≡ in_room large_front }
    ensures { graph.new ≡ in_room large }
{
    graph.push_node(Node::Wr { unit: 0, buf: 0 });
    graph.push_ante(2);
    graph.push_node(Node::Wr { unit: 2, buf: 2 });
    graph.push_ante(2);
    graph.push_node(Node::Trm);
    graph.push_ante(3);
    graph.push_ante(4);
}

/// Its three buffers, in room for the whole of it.
pub fn large_bufs(alloc: Global) -> Result<Graph, Memory>
    ensures { IfOk result (λ g. g ≡ in_room large_bufs) }
{
    let mut graph = Graph::with_room(alloc, 6, 3, 9)?;
    push_bufs(&mut graph);
    Ok(graph)
}

/// The same with its nodes up to the commit.
pub fn large_front(alloc: Global) -> Result<Graph, Memory>
    ensures { IfOk result (λ g. g ≡ in_room large_front) }
{
    let mut graph = large_bufs(alloc)?;
    push_front(&mut graph);
    Ok(graph)
}

/// The whole graph.
pub fn large_write(alloc: Global) -> Result<Graph, Memory>
    ensures { IfOk result (λ g. g ≡ in_room large) }
{
    let mut graph = large_front(alloc)?;
    push_back(&mut graph);
    Ok(graph)
}
