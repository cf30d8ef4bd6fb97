//! A graph, copied into room for no more than it has.
ghost use Rattle.std.specs.Prelude.{◌≡◌, ◌≤◌, [], length, IfOk};
ghost use Rattle.graph_mean.specs.Graph.{edge_count};

use crate::push::push_vertex;
use graph_mean::{Graph, Memory};
use std::alloc::Global;

fn copy_bufs(from: &Graph, to: &mut Graph)
    requires empty { to.old.drawn.bufs ≡ [] }
    requires room { length from.now.drawn.bufs ≤ to.old.buf_room }
    ensures { to.new
        ≡ record to.old { drawn = record to.old.drawn { bufs = from.now.drawn.bufs } } }
{
    for i in 0..from.bufs() {
        to.push_buf(from.buf(i));
    }
}

fn copy_nodes(from: &Graph, to: &mut Graph)
    requires empty { to.old.drawn.nodes ≡ [] }
    requires room { length from.now.drawn.nodes ≤ to.old.node_room }
    requires edges { edge_count from.now.drawn ≤ to.old.edge_room }
    ensures { to.new
        ≡ record to.old { drawn = record to.old.drawn { nodes = from.now.drawn.nodes } } }
{
    for i in 0..from.nodes() {
        push_vertex(to, from.node(i), from.sources(i), from.antes(i));
    }
}

fn copy_rets(from: &Graph, to: &mut Graph)
    requires empty { to.old.drawn.rets ≡ [] }
    requires room { length from.now.drawn.rets ≤ to.old.buf_room }
    ensures { to.new
        ≡ record to.old { drawn = record to.old.drawn { rets = from.now.drawn.rets } } }
{
    for i in 0..from.rets() {
        to.push_ret(from.ret(i));
    }
}

/// The graph, which has so many sources and antecedents together, in room for no more than it has.
pub fn fitted(alloc: Global, graph: &Graph, edges: u32) -> Result<Graph, Memory>
    requires { edges ≡ edge_count graph.now.drawn }
    ensures drawn { IfOk result (λ g. g.drawn ≡ graph.now.drawn) }
    ensures nodes { IfOk result (λ g. g.node_room ≡ length graph.now.drawn.nodes) }
    ensures edges { IfOk result (λ g. g.edge_room ≡ edges) }
{
    let bufs = graph.bufs().max(graph.rets());
    let mut copy = Graph::with_room(alloc, graph.nodes(), bufs, edges)?;
    copy_bufs(graph, &mut copy);
    copy_nodes(graph, &mut copy);
    copy_rets(graph, &mut copy);
    Ok(copy)
}
