//! Which nodes follow which: for each node a list of those that name it as an antecedent.
ghost use Rattle.std.specs.Prelude.{◌≡◌, ◌≢◌, ℕ, ◌+◌, ◌<◌, ◌≤◌, ◌==◌, ◌∷◌, ◌↔◌, All, IfOk, IsTrue, length, if◌then◌else◌, slice_index_or, slice_set, ◌-◌};
ghost use Rattle.eng_one.specs.Followers.{followers_in, names_from, IsBare};
ghost use Rattle.eng_one.specs.Counts.{times, AreWaiting};

use crate::marks::is_idle;
use crate::memory::Memory;
use crate::node_set::NodeSet;
use crate::room::{append, refill};
use blk_plain::limits;
use graph_mean::{Status, room_for};
use std::alloc::Global;
use std::marker::Model;

// The lists of all nodes in one run of entries, since a list of its own for each node would take memory.
//
// A link is one more than the number of an entry, and 0 where there is none.
#[derive(Drop)]
pub(crate) struct Followers {
    // For each node the link to the first entry of its list.
    first: Vec<u32>,
    // For each entry the link to the next of its list, which was made before it, and the follower.
    next: Vec<u32>,
    names: Vec<u32>,
}

impl Model for Followers {
    ghost use Rattle.std.specs.Prelude.{◌≤◌, vec_capacity};
    ghost use Rattle.eng_one.specs.Followers.{Links, AreLinked};

    ghost Value = { Links };

    ghost view = { λ f. record { first = f.first.items; next = f.next.items; names = f.names.items } };

    ghost invariant = { λ f. record {
      linked : AreLinked (record { first = f.first.items; next = f.next.items; names = f.names.items });
      room : (2048 ≤ vec_capacity f.first) × (16384 ≤ vec_capacity f.next) × (16384 ≤ vec_capacity f.names);
    } };
}

impl Followers {
    // Those of no node, with room for 2,048 nodes and 16,384 followers.
    pub(crate) fn open(alloc: Global) -> Result<Followers, Memory>
        ensures { IfOk result (λ f. IsBare f 0) }
    {
        Ok(Followers {
            first: Vec::with_capacity(alloc, room_for(limits::NODES))?,
            next: Vec::with_capacity(alloc, room_for(limits::EDGES))?,
            names: Vec::with_capacity(alloc, room_for(limits::EDGES))?,
        })
    }

    // So many nodes, without followers yet.
    pub(crate) fn reset(&mut self, nodes: u32)
        requires { nodes ≤ 2048 }
        ensures { IsBare self.new nodes }
    {
        self.next.clear();
        self.names.clear();
        refill(&mut self.first, 0, nodes);
    }

    pub(crate) fn push(&mut self, node: u32, follower: u32)
        requires node { node < length self.old.first }
        requires room { length self.old.names < 16384 }
        ensures lists { (c : ℕ) → followers_in self.new c
            ≡ (if c == node then follower ∷ followers_in self.old c else followers_in self.old c) }
        ensures nodes { length self.new.first ≡ length self.old.first }
        ensures entries { length self.new.names ≡ length self.old.names + 1 }
    {
        let at = node as usize;
        append(&mut self.next, self.first[at]);
        append(&mut self.names, follower);
        self.first[at] = self.names.len() as u32;
    }

    // One more entry for each antecedent of a node.
    pub(crate) fn enter(&mut self, follower: u32, antes: &[u32])
        requires nodes { All (λ a. a < length self.old.first) antes.now }
        requires room { length self.old.names + length antes.now ≤ 16384 }
        ensures lists { (c k : ℕ) → times k (followers_in self.new c)
            ≡ times k (followers_in self.old c) + (if k == follower then times c antes.now else 0) }
        ensures nodes { length self.new.first ≡ length self.old.first }
        ensures entries { length self.new.names ≡ length self.old.names + length antes.now }
    {
        for ante in antes {
            self.push(*ante, follower);
        }
    }

    // A node has ended: each of its followers waits for one node less, once for each time that it names it.
    pub(crate) fn lower(&self, node: u32, marks: &[Status], unmet: &mut [u32], ready: &mut NodeSet)
        requires node { node < length self.now.first }
        requires fits { (k : ℕ)
            → times k (followers_in self.now node) ≤ slice_index_or unmet.old k 0 }
        requires few { (length unmet.old ≡ length marks.now) × (length marks.now ≤ 2048) }
        requires ready { AreWaiting marks.now unmet.old ready.old }
        ensures counts { (k : ℕ) → slice_index_or unmet.new k 0
            + times k (followers_in self.now node) ≡ slice_index_or unmet.old k 0 }
        ensures all { length unmet.new ≡ length unmet.old }
        ensures ready { AreWaiting marks.now unmet.new ready.new }
    {
        let first = self.first[node as usize];
        lower_from(&self.next, &self.names, first, marks, unmet, ready);
    }
}

// The nodes of the list from a link on wait for one node less, once for each time that they stand in it.
fn lower_from(
    next: &[u32],
    names: &[u32],
    first: u32,
    marks: &[Status],
    unmet: &mut [u32],
    ready: &mut NodeSet,
)
    requires linked { (e : ℕ) → slice_index_or next.now e 0 ≤ e }
    requires entries { (length next.now ≡ length names.now) × (first ≤ length names.now) }
    requires fits { (k : ℕ)
        → times k (names_from next.now names.now first) ≤ slice_index_or unmet.old k 0 }
    requires few { (length unmet.old ≡ length marks.now) × (length marks.now ≤ 2048) }
    requires ready { AreWaiting marks.now unmet.old ready.old }
    ensures counts { (k : ℕ) → slice_index_or unmet.new k 0
        + times k (names_from next.now names.now first) ≡ slice_index_or unmet.old k 0 }
    ensures all { length unmet.new ≡ length unmet.old }
    ensures ready { AreWaiting marks.now unmet.new ready.new }
{
    let mut at = first;
    while at != 0 {
        let entry = at as usize - 1;
        lower_one(names[entry], marks, unmet, ready);
        at = next[entry];
    }
}

// A node waits for one node less. It is ready once it waits for none, unless it has been fired.
fn lower_one(node: u32, marks: &[Status], unmet: &mut [u32], ready: &mut NodeSet)
    requires fits { 0 < slice_index_or unmet.old node 0 }
    requires few { (length unmet.old ≡ length marks.now) × (length marks.now ≤ 2048) }
    requires ready { AreWaiting marks.now unmet.old ready.old }
    ensures counts { unmet.new ≡ slice_set unmet.old node (slice_index_or unmet.old node 0 - 1) }
    ensures ready { AreWaiting marks.now unmet.new ready.new }
{
    let at = node as usize;
    let left = unmet[at] - 1;
    unmet[at] = left;
    if left == 0 && is_idle(marks[at]) {
        ready.insert(node);
    }
}
