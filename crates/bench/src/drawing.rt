//! The graph that is run.
ghost use Rattle.std.specs.Prelude.{◌≡◌, ℕ, ◌+◌, ◌<◌, ◌≤◌, ◌↔◌, All, IsTrue, length};
ghost use Rattle.graph_mean.specs.Graph.{edge_count};
ghost use Rattle.eng_one.specs.Counts.{CanStart};

use blk_plain::limits;
use graph_mean::{Graph, Node};

fn add(graph: &mut Graph, node: Node)
    requires { length graph.old.drawn.nodes < graph.old.node_room }
    ensures nodes { length graph.new.drawn.nodes ≡ length graph.old.drawn.nodes + 1 }
    ensures edges { edge_count graph.new.drawn ≡ edge_count graph.old.drawn }
    ensures room { (graph.new.node_room ≡ graph.old.node_room)
        × (graph.new.edge_room ≡ graph.old.edge_room) }
{
    graph.push_node(node);
}

// Has the last node follow this one.
fn follow(graph: &mut Graph, node: u32)
    requires some { 0 < length graph.old.drawn.nodes }
    requires room { edge_count graph.old.drawn < graph.old.edge_room }
    ensures nodes { length graph.new.drawn.nodes ≡ length graph.old.drawn.nodes }
    ensures edges { edge_count graph.new.drawn ≡ edge_count graph.old.drawn + 1 }
    ensures room { (graph.new.node_room ≡ graph.old.node_room)
        × (graph.new.edge_room ≡ graph.old.edge_room) }
{
    graph.push_ante(node);
}

fn add_reads(graph: &mut Graph, count: u32)
    requires { length graph.old.drawn.nodes + count ≤ graph.old.node_room }
    ensures nodes { length graph.new.drawn.nodes ≡ length graph.old.drawn.nodes + count }
    ensures edges { edge_count graph.new.drawn ≡ edge_count graph.old.drawn }
    ensures room { (graph.new.node_room ≡ graph.old.node_room)
        × (graph.new.edge_room ≡ graph.old.edge_room) }
{
    for _ in 0..count {
        add(graph, Node::Rd { unit: 0, buf: 0 });
    }
}

// Has the last node follow so many, from the first on.
fn follow_first(graph: &mut Graph, count: u32)
    requires some { 0 < length graph.old.drawn.nodes }
    requires room { edge_count graph.old.drawn + count ≤ graph.old.edge_room }
    ensures nodes { length graph.new.drawn.nodes ≡ length graph.old.drawn.nodes }
    ensures edges { edge_count graph.new.drawn ≡ edge_count graph.old.drawn + count }
    ensures room { (graph.new.node_room ≡ graph.old.node_room)
        × (graph.new.edge_room ≡ graph.old.edge_room) }
{
    for node in 0..count {
        follow(graph, node);
    }
}

// Draws, in a graph of nothing, so many reads, a commit that follows all of them, and a terminator.
pub(crate) fn draw(graph: &mut Graph, reads: u32)
    requires bare { (length graph.old.drawn.nodes ≡ 0) × (edge_count graph.old.drawn ≡ 0) }
    requires nodes { reads + 2 ≤ graph.old.node_room }
    requires edges { reads + 1 ≤ graph.old.edge_room }
{
    add_reads(graph, reads);
    add(graph, Node::Cmt);
    follow_first(graph, reads);
    add(graph, Node::Trm);
    follow(graph, reads);
}

fn are_below(numbers: &[u32], bound: u32) -> bool
    ensures { IsTrue result → All (λ a. a < bound) numbers.now }
{
    numbers.iter().all(|number| *number < bound)
}

pub(crate) fn can_start(graph: &Graph) -> bool
    ensures { IsTrue result → CanStart graph.now.drawn }
{
    let nodes = graph.nodes();
    let mut left = limits::EDGES as usize;
    for n in 0..nodes {
        let antes = graph.antes(n);
        if antes.len() > left || !are_below(antes, nodes) {
            return false;
        }
        left -= antes.len();
    }
    nodes <= limits::NODES
}
