//! Whole nodes, pushed onto a graph with room for them.
ghost use Rattle.std.specs.Prelude.{◌≡◌, ◌+◌, ◌<◌, ◌≤◌, length, IsTrue};
ghost use Rattle.graph_mean.specs.Graph.{edge_count, is_xor, last_vertex};
ghost use Rattle.graph_text.specs.Pushed.{with_antes, with_sources, with_vertex};

use graph_mean::{Graph, Node};

// Appends to the sources of the last node, which is an exclusive-or if there are any.
fn push_sources(graph: &mut Graph, sources: &[u32])
    requires some { 0 < length graph.old.drawn.nodes }
    requires sum { 0 < length sources.now → IsTrue (is_xor (last_vertex graph.old.drawn).kind) }
    requires room { edge_count graph.old.drawn + length sources.now ≤ graph.old.edge_room }
    ensures { graph.new ≡ with_sources graph.old sources.now }
{
    for source in sources {
        graph.push_source(*source);
    }
}

// Appends to the antecedents of the last node.
fn push_antes(graph: &mut Graph, antes: &[u32])
    requires some { 0 < length graph.old.drawn.nodes }
    requires room { edge_count graph.old.drawn + length antes.now ≤ graph.old.edge_room }
    ensures { graph.new ≡ with_antes graph.old antes.now }
{
    for ante in antes {
        graph.push_ante(*ante);
    }
}

/// Appends a node, which is an exclusive-or if it has sources.
pub fn push_vertex(graph: &mut Graph, node: Node, sources: &[u32], antes: &[u32])
    requires sum { 0 < length sources.now → IsTrue (is_xor node) }
    requires room { length graph.old.drawn.nodes < graph.old.node_room }
    requires edges { edge_count graph.old.drawn + (length sources.now + length antes.now)
        ≤ graph.old.edge_room }
    ensures { graph.new
        ≡ with_vertex graph.old (record { kind = node; sources = sources.now; antes = antes.now }) }
{
    graph.push_node(node);
    push_sources(graph, sources);
    push_antes(graph, antes);
}
