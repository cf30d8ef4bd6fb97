//! What each node of a graph waits for as its run begins.
ghost use Rattle.std.specs.Prelude.{◌≡◌, ℕ, ◌<◌, ◌≤◌, ◌==◌, ◌||◌, if◌then◌else◌, length, slice_index_or, vec_capacity};
ghost use Rattle.graph_mean.specs.Graph.{vertex_at};
ghost use Rattle.eng_one.specs.Bits.{has};
ghost use Rattle.eng_one.specs.Counts.{CanStart, AreFollowers};
ghost use Rattle.eng_one.specs.Followers.{IsBare};

use crate::followers::Followers;
use crate::node_set::NodeSet;
use crate::room::append;
use graph_mean::Graph;

// Puts a node into the set, if it waits for none.
fn insert_if_none(ready: &mut NodeSet, node: u32, count: u32)
    requires { node < 2048 }
    ensures { (k : ℕ) → has ready.new k
        ≡ (if k == node then (count == 0) || has ready.old k else has ready.old k) }
{
    if count == 0 {
        ready.insert(node);
    }
}

// Counts the antecedents of each node, makes it a follower of each of them, and puts it into the set where it has none.
// What was counted and what was in the set is forgotten.
pub(crate) fn begin_all(
    graph: &Graph,
    unmet: &mut Vec<u32>,
    followers: &mut Followers,
    ready: &mut NodeSet,
)
    requires can { CanStart graph.now.drawn }
    requires room { length graph.now.drawn.nodes ≤ vec_capacity unmet.old }
    requires bare { IsBare followers.old (length graph.now.drawn.nodes) }
    ensures all { AreFollowers graph.now.drawn followers.new }
    ensures nodes { length followers.new.first ≡ length graph.now.drawn.nodes }
    ensures counts { (k : ℕ) → k < length graph.now.drawn.nodes
        → slice_index_or unmet.new.items k 0 ≡ length (vertex_at graph.now.drawn k).antes }
    ensures long { length unmet.new.items ≡ length graph.now.drawn.nodes }
    ensures room { vec_capacity unmet.old ≤ vec_capacity unmet.new }
    ensures ready { (k : ℕ) → has ready.new k ≡ (slice_index_or unmet.new.items k 1 == 0) }
{
    unmet.clear();
    ready.clear();
    for n in 0..graph.nodes() {
        let antes = graph.antes(n);
        let count = antes.len() as u32;
        append(unmet, count);
        followers.enter(n, antes);
        insert_if_none(ready, n, count);
    }
}
