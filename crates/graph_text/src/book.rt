//! The graphs of a file.
ghost use Rattle.std.specs.Prelude.{◌≡◌, ◌<◌, ◌≤◌, ◌++◌, ◌∷◌, [], Some, length, map, position, option_map, slice_get, vec_len, vec_capacity, IfOk, IfSome};
ghost use Rattle.std.specs.List.{list_any};
ghost use Rattle.std.specs.Str.{bytes_eq};
ghost use Rattle.graph_text.specs.Steps.{has_name};

use crate::name::Name;
use blk_plain::limits;
use graph_mean::{Graph, Memory};
use std::alloc::Global;
use std::marker::Model;

/// The graphs of a file with their names, in the order of the file.
#[derive(Drop)]
pub struct Book {
    names: Vec<Name>,
    graphs: Vec<Graph>,
}

impl Model for Book {
    ghost use Rattle.std.specs.Prelude.{◌≡◌, ◌≤◌, List, length, vec_capacity};
    ghost use Rattle.graph_text.specs.Format.{Named};
    ghost use Rattle.graph_text.specs.BookView.{named_graphs};

    ghost Value = { List Named };

    ghost view = { λ b. named_graphs b.names.items b.graphs.items };

    ghost invariant = { λ b. record {
      pairs : length b.names.items ≡ length b.graphs.items;
      few : length b.names.items ≤ 64;
      room : (64 ≤ vec_capacity b.names) × (64 ≤ vec_capacity b.graphs);
    } };
}

#[tactic(auto, using(crate::proofs::NamedGraphs::length_named, crate::proofs::NamedGraphs::named_push, crate::proofs::NamedGraphs::has_named, crate::proofs::NamedGraphs::position_named, crate::proofs::NamedGraphs::graph_named, crate::proofs::NamedGraphs::graphs_named))]
impl Book {
    /// A book without a graph, and with room for 64.
    #[tactic(auto, unfolding(crate::specs::BookView::named_graphs))]
    pub(crate) fn new(alloc: Global) -> Result<Book, Memory>
        ensures { IfOk result (λ b. b ≡ []) }
    {
        Ok(Book {
            names: Vec::with_capacity(alloc, limits::GRAPHS as usize)?,
            graphs: Vec::with_capacity(alloc, limits::GRAPHS as usize)?,
        })
    }

    pub(crate) fn push(&mut self, name: Name, graph: Graph)
        requires { length self.old < 64 }
        ensures { self.new ≡ self.old ++ record { name = name; graph = graph.drawn } ∷ [] }
    {
        self.names.push_reserved(name);
        self.graphs.push_reserved(graph);
    }

    pub(crate) fn has(&self, name: &[u8]) -> bool
        ensures { result ≡ has_name self.now name.now }
    {
        is_among(&self.names, name)
    }

    /// How many graphs it has, at most 64.
    pub fn count(&self) -> u32
        ensures count { result ≡ length self.now }
        ensures few { result ≤ 64 }
    {
        self.names.len() as u32
    }

    /// The number of the graph of this name, or none exactly where no graph has it.
    pub fn find(&self, name: &[u8]) -> Option<u32>
        ensures { result ≡ position (λ g. bytes_eq g.name name.now) self.now }
    {
        match place(&self.names, name) {
            Some(i) => Some(i as u32),
            None => None,
        }
    }

    /// The graph of a number.
    pub fn graph(&self, i: u32) -> &Graph
        requires { i < length self.now }
        ensures { option_map (λ g. g.graph) (slice_get self.now i) ≡ Some result.now.drawn }
    {
        &self.graphs[i as usize]
    }

    /// All graphs in their order, without their names.
    pub fn into_graphs(self) -> Vec<Graph>
        ensures { map (λ g. g.drawn) result.items ≡ map (λ g. g.graph) self }
    {
        self.graphs
    }
}

fn is_among(names: &[Name], name: &[u8]) -> bool
    ensures { result ≡ list_any (λ n. bytes_eq n name.now) names.now }
{
    names.iter().any(|n| n.is(name))
}

// The first place at which the name stands, or none where it doesn't.
fn place(names: &[Name], name: &[u8]) -> Option<usize>
    ensures place { result ≡ position (λ n. bytes_eq n name.now) names.now }
    ensures within { IfSome result (λ i. i < length names.now) }
{
    names.iter().position(|n| n.is(name))
}
