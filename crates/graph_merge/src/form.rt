//! Whether a graph may be joined with another.
ghost use Rattle.std.specs.Prelude.{◌≡◌, ℕ, ◌+◌, ◌<◌, ◌≤◌, ◌↔◌, IsTrue, Any, MatchOption, length};
ghost use Rattle.graph_mean.specs.Graph.{IsAnte, kind_at, ret_at};
ghost use Rattle.graph_merge.specs.Form.{NamesNone, IsMisformed, IsFormed, IsOnly, IsFollowed, AreBelow, AreFollowed, AreMovable, kind_of};

use crate::half::{Ends, Mark};
use graph_mean::{Graph, Node};

// Whether a node names a buffer that there isn't, its sources aside.
fn names_none(node: Node, bufs: u32) -> bool
    ensures { IsTrue result ↔ NamesNone bufs node }
{
    match node {
        Node::Rd { buf, .. } | Node::Wr { buf, .. } => buf >= bufs,
        Node::Xor { to } => to >= bufs,
        Node::Cmt | Node::Trm => false,
    }
}

// Whether one of the numbers isn't below the bound.
fn reaches(numbers: &[u32], bound: u32) -> bool
    ensures { IsTrue result ↔ Any (λ x. bound ≤ x) numbers.now }
{
    numbers.iter().any(|x| *x >= bound)
}

fn is_misformed(graph: &Graph, n: u32) -> bool
    requires { n < length graph.now.drawn.nodes }
    ensures { IsTrue result ↔ IsMisformed graph.now.drawn n }
{
    names_none(graph.node(n), graph.bufs())
        || reaches(graph.sources(n), graph.bufs())
        || reaches(graph.antes(n), n)
}

// Whether a node names a buffer or an antecedent that there isn't, or one that doesn't go before it.
fn has_misformed(graph: &Graph) -> bool
    ensures { IsTrue result ↔ ((n : ℕ) × IsMisformed graph.now.drawn n) }
{
    for n in 0..graph.nodes() {
        if is_misformed(graph, n) {
            return true;
        }
    }
    false
}

// Whether a return names a buffer that there isn't.
fn has_foreign_ret(graph: &Graph) -> bool
    ensures { IsTrue result ↔ ((k : ℕ) × (k < length graph.now.drawn.rets)
        × (length graph.now.drawn.bufs ≤ (ret_at graph.now.drawn k).buf)) }
{
    for k in 0..graph.rets() {
        if graph.ret(k).buf >= graph.bufs() {
            return true;
        }
    }
    false
}

// Whether a node has this one among its antecedents.
fn has_ante(graph: &Graph, m: u32, n: u32) -> bool
    requires { m < length graph.now.drawn.nodes }
    ensures { IsTrue result ↔ IsAnte graph.now.drawn m n }
{
    graph.antes(m).contains(&n)
}

// Whether some node has this one among its antecedents.
fn is_ante(graph: &Graph, n: u32) -> bool
    ensures { IsTrue result ↔
        ((m : ℕ) × (m < length graph.now.drawn.nodes) × IsAnte graph.now.drawn m n) }
{
    for m in 0..graph.nodes() {
        if has_ante(graph, m, n) {
            return true;
        }
    }
    false
}

fn is_followed(graph: &Graph, end: u32, n: u32) -> bool
    ensures { IsTrue result ↔ IsFollowed graph.now.drawn end n }
{
    n == end || is_ante(graph, n)
}

// Whether each node but this one is an antecedent of another.
fn are_followed(graph: &Graph, end: u32) -> bool
    ensures { IsTrue result ↔ AreFollowed graph.now.drawn end }
{
    for n in 0..graph.nodes() {
        if !is_followed(graph, end, n) {
            return false;
        }
    }
    true
}

fn is_of(node: Node, mark: Mark) -> bool
    ensures { IsTrue result ↔ (node ≡ kind_of mark) }
{
    match mark {
        Mark::Commit => matches!(node, Node::Cmt),
        Mark::End => matches!(node, Node::Trm),
    }
}

// The first node of a kind from this one on.
fn next_of(graph: &Graph, mark: Mark, from: u32) -> Option<u32>
    requires { from ≤ length graph.now.drawn.nodes }
    ensures { MatchOption result
        ((n : ℕ) → from ≤ n → n < length graph.now.drawn.nodes
        → kind_at graph.now.drawn n ≡ kind_of mark → ⊥)
        (λ c. (from ≤ c) × (c < length graph.now.drawn.nodes)
        × (kind_at graph.now.drawn c ≡ kind_of mark)
        × ((n : ℕ) → from ≤ n → n < c → kind_at graph.now.drawn n ≡ kind_of mark → ⊥)) }
{
    for n in from..graph.nodes() {
        if is_of(graph.node(n), mark) {
            return Some(n);
        }
    }
    None
}

// The one node of a kind, if there is one and no more.
fn only_of(graph: &Graph, mark: Mark) -> Option<u32>
    ensures { MatchOption result ((c : ℕ) → IsOnly graph.now.drawn mark c → ⊥)
        (IsOnly graph.now.drawn mark) }
{
    let nodes = graph.nodes();
    let Some(only) = next_of(graph, mark, 0) else {
        return None;
    };
    prove!(only < nodes);
    match next_of(graph, mark, only + 1) {
        Some(_) => None,
        None => Some(only),
    }
}

/// The commit and the terminator of a graph that is formed.
pub(crate) fn ends_of(graph: &Graph) -> Option<Ends>
    ensures { MatchOption result ((c e : ℕ) → IsFormed graph.now.drawn c e → ⊥)
        (λ r. IsFormed graph.now.drawn r.commit r.end) }
{
    if has_misformed(graph) {
        return None;
    }
    if has_foreign_ret(graph) {
        return None;
    }
    let Some(commit) = only_of(graph, Mark::Commit) else {
        return None;
    };
    let Some(end) = only_of(graph, Mark::End) else {
        return None;
    };
    if are_followed(graph, end) {
        Some(Ends { commit, end })
    } else {
        None
    }
}

/// Whether the stripes of all buffers are below this one.
pub(crate) fn are_below(graph: &Graph, shift: u32) -> bool
    ensures { IsTrue result ↔ AreBelow graph.now.drawn shift }
{
    for b in 0..graph.bufs() {
        if graph.buf(b).stripe >= shift {
            return false;
        }
    }
    true
}

/// Whether the stripes of all buffers, moved up by so many, have numbers.
pub(crate) fn are_movable(graph: &Graph, shift: u32) -> bool
    ensures { IsTrue result ↔ AreMovable graph.now.drawn shift }
{
    for b in 0..graph.bufs() {
        if graph.buf(b).stripe > u32::MAX - shift {
            return false;
        }
    }
    true
}
