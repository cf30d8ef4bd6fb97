//! Numbers of a line, of which no more are kept than a graph can have, and one.
ghost use Rattle.std.specs.Prelude.{◌≡◌, ◌∷◌, ◌++◌, ◌<◌, ◌≤◌, [], length, vec_len, vec_capacity, IfOk};
ghost use Rattle.graph_text.specs.Kept.{firsts};

use blk_plain::limits;
use graph_mean::Memory;
use std::alloc::Global;
use std::marker::Model;

/// How many numbers are kept: one more than the sources and antecedents that a graph can have.
const KEPT: usize = limits::EDGES as usize + 1;

/// The first 16,385 numbers of a list. It takes no memory after `new`.
#[derive(Drop)]
pub struct Kept {
    items: Vec<u32>,
}

impl Model for Kept {
    ghost use Rattle.std.specs.Prelude.{ℕ, ◌≤◌, List, length, vec_capacity};

    ghost Value = { List ℕ };

    ghost view = { λ k. k.items.items };

    ghost invariant = { λ k. (length k.items.items ≤ 16385) × (16385 ≤ vec_capacity k.items) };
}

#[tactic(auto, unfolding(crate::specs::Kept::firsts))]
impl Kept {
    /// An empty list.
    pub fn new(alloc: Global) -> Result<Kept, Memory>
        ensures { IfOk result (λ k. k ≡ []) }
    {
        Ok(Kept {
            items: Vec::with_capacity(alloc, KEPT)?,
        })
    }

    /// Makes it empty.
    pub fn clear(&mut self)
        ensures { self.new ≡ [] }
    {
        self.items.clear();
    }

    /// Appends a number, if it is one of the first 16,385.
    pub fn keep(&mut self, n: u32)
        ensures kept { self.new ≡ firsts (self.old ++ n ∷ []) }
        ensures few { length self.new ≤ 16385 }
    {
        if self.items.len() < KEPT {
            self.items.push_reserved(n);
        }
    }

    /// The numbers that are kept.
    pub fn as_slice(&self) -> &[u32]
        ensures all { result.now ≡ self.now }
        ensures few { length result.now ≤ 16385 }
    {
        &self.items
    }
}

/// The numbers of a node's line: its sources and its antecedents, of each the first 16,385.
#[derive(Drop)]
pub struct Edges {
    pub sources: Kept,
    pub antes: Kept,
}

impl Edges {
    /// No sources and no antecedents.
    pub fn new(alloc: Global) -> Result<Edges, Memory>
        ensures { IfOk result (λ e. (e.sources ≡ []) × (e.antes ≡ [])) }
    {
        Ok(Edges {
            sources: Kept::new(alloc)?,
            antes: Kept::new(alloc)?,
        })
    }

    /// Makes both empty.
    pub fn clear(&mut self)
        ensures sources { self.new.sources ≡ [] }
        ensures antes { self.new.antes ≡ [] }
    {
        self.sources.clear();
        self.antes.clear();
    }
}
