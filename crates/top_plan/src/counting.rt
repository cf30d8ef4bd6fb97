//! What a graph does, counted.
ghost use Rattle.std.specs.Prelude.{◌≡◌, ◌<◌, ◌≤◌, ◌^◌};
ghost use Rattle.graph_mean.specs.Fewest.{read_count, read_sectors};
ghost use Rattle.graph_mean.specs.Graph.{buf_at};
ghost use Rattle.top_plan.specs.Counts.{sum_count, sum_sectors, write_count, write_sectors};

use graph_mean::{Graph, Node};

// The sectors of a buffer, and 0 past the last.
fn sectors_of(graph: &Graph, buf: u32) -> u32
    ensures { result ≡ (buf_at graph.now.drawn buf).count }
{
    if buf < graph.bufs() {
        graph.buf(buf).count
    } else {
        0
    }
}

// The sectors that a node reads.
fn read_count(graph: &Graph, node: Node) -> u32
    ensures { result ≡ read_count graph.now.drawn node }
{
    match node {
        Node::Rd { buf, .. } => sectors_of(graph, buf),
        Node::Wr { .. } | Node::Xor { .. } | Node::Cmt | Node::Trm => 0,
    }
}

// The sectors that it writes.
fn write_count(graph: &Graph, node: Node) -> u32
    ensures { result ≡ write_count graph.now.drawn node }
{
    match node {
        Node::Wr { buf, .. } => sectors_of(graph, buf),
        Node::Rd { .. } | Node::Xor { .. } | Node::Cmt | Node::Trm => 0,
    }
}

// The sectors of its sum.
fn sum_count(graph: &Graph, node: Node) -> u32
    ensures { result ≡ sum_count graph.now.drawn node }
{
    match node {
        Node::Xor { to } => sectors_of(graph, to),
        Node::Rd { .. } | Node::Wr { .. } | Node::Cmt | Node::Trm => 0,
    }
}

/// The sectors that a graph reads.
pub(crate) fn read_sectors(graph: &Graph) -> u64
    ensures { result ≡ read_sectors graph.now.drawn }
{
    let mut sectors = 0;
    for node in 0..graph.nodes() {
        sectors += u64::from(read_count(graph, graph.node(node)));
    }
    sectors
}

/// The sectors that it writes.
pub(crate) fn write_sectors(graph: &Graph) -> u64
    ensures { result ≡ write_sectors graph.now.drawn }
{
    let mut sectors = 0;
    for node in 0..graph.nodes() {
        sectors += u64::from(write_count(graph, graph.node(node)));
    }
    sectors
}

/// The sectors of its sums.
pub(crate) fn sum_sectors(graph: &Graph) -> u64
    ensures { result ≡ sum_sectors graph.now.drawn }
{
    let mut sectors = 0;
    for node in 0..graph.nodes() {
        sectors += u64::from(sum_count(graph, graph.node(node)));
    }
    sectors
}
