//! The graph that is being read.
ghost use Rattle.std.specs.Prelude.{◌≡◌, ◌+◌, ◌≤◌, ◌&&◌, nat_le, nat_lt, length, IfOk};
ghost use Rattle.raid_text.specs.Seen.{words_left};
ghost use Rattle.graph_mean.specs.Graph.{blank};
ghost use Rattle.graph_text.specs.Answers.{Gives};
ghost use Rattle.graph_text.specs.Format.{with_buffer_line, with_node_line, with_return_line};

use crate::codes::{LIMIT, WORD};
use crate::copy::fitted;
use crate::kept::Edges;
use crate::lines::{buffer_in, return_in};
use crate::nodes::node_in;
use crate::push::push_vertex;
use blk_plain::limits;
use graph_mean::{Graph, Memory};
use raid_text::Words;
use std::alloc::Global;
use std::marker::Model;

/// A graph that grows line by line, in room for as much as a graph can have. It takes no memory
/// after `new`.
#[derive(Drop)]
pub struct Draft {
    graph: Graph,
    // The sources and antecedents of the graph together.
    count: u32,
    // Those of the line that is being read.
    edges: Edges,
}

impl Model for Draft {
    ghost use Rattle.std.specs.Prelude.{◌≡◌, ◌≤◌, length};
    ghost use Rattle.graph_mean.specs.Graph.{View, edge_count};

    ghost Value = { View };

    ghost view = { λ d. d.graph.drawn };

    ghost invariant = { λ d. record {
      count : d.count ≡ edge_count d.graph.drawn;
      few : d.count ≤ 16384;
      bufs : length d.graph.drawn.bufs ≤ 2048;
      nodes : length d.graph.drawn.nodes ≤ 2048;
      rets : length d.graph.drawn.rets ≤ 2048;
      room : (d.graph.buf_room ≡ 2048) × (d.graph.node_room ≡ 2048) × (d.graph.edge_room ≡ 16384);
    } };
}

impl Draft {
    /// A graph of nothing.
    pub fn new(alloc: Global) -> Result<Draft, Memory>
        ensures { IfOk result (λ d. d ≡ blank) }
    {
        Ok(Draft {
            graph: Graph::with_room(alloc, limits::NODES, limits::BUFFERS, limits::EDGES)?,
            count: 0,
            edges: Edges::new(alloc)?,
        })
    }

    /// Begins a graph anew.
    pub fn clear(&mut self)
        ensures { self.new ≡ blank }
    {
        self.graph.clear();
        self.count = 0;
    }

    /// Adds the buffer of a line, or answers the code by which the line is refused.
    #[tactic(auto, unfolding(crate::specs::Format::with_buffer_line))]
    pub fn add_buffer(&mut self, words: &mut Words) -> Result<(), u8>
        ensures { Gives (λ _. self.new) result (with_buffer_line self.old (words_left words.old)) }
    {
        if self.graph.nodes() != 0 || self.graph.rets() != 0 {
            return Err(WORD);
        }
        let buf = buffer_in(self.graph.bufs(), words)?;
        if self.graph.bufs() == limits::BUFFERS {
            return Err(LIMIT);
        }
        self.graph.push_buf(buf);
        Ok(())
    }

    /// Adds the node of a line, or answers the code by which the line is refused.
    #[tactic(auto, unfolding(crate::specs::Format::with_node_line))]
    pub fn add_node(&mut self, words: &mut Words) -> Result<(), u8>
        ensures { Gives (λ _. self.new) result (with_node_line self.old (words_left words.old)) }
    {
        if self.graph.rets() != 0 {
            return Err(WORD);
        }
        let node = node_in(self.graph.nodes(), words, &mut self.edges)?;
        let sources = self.edges.sources.as_slice();
        let antes = self.edges.antes.as_slice();
        if !has_room(self.graph.nodes(), self.count, sources, antes) {
            return Err(LIMIT);
        }
        push_vertex(&mut self.graph, node, sources, antes);
        self.count += (sources.len() + antes.len()) as u32;
        Ok(())
    }

    /// Adds the return of a line, or answers the code by which the line is refused.
    #[tactic(auto, unfolding(crate::specs::Format::with_return_line))]
    pub fn add_return(&mut self, words: &mut Words) -> Result<(), u8>
        ensures { Gives (λ _. self.new) result (with_return_line self.old (words_left words.old)) }
    {
        let ret = return_in(words)?;
        if self.graph.rets() == limits::RETURNS {
            return Err(LIMIT);
        }
        self.graph.push_ret(ret);
        Ok(())
    }

    /// The graph, in room for no more than it has.
    pub fn graph(&self, alloc: Global) -> Result<Graph, Memory>
        ensures { IfOk result (λ g. g.drawn ≡ self.now) }
    {
        fitted(alloc, &self.graph, self.count)
    }
}

// Whether a graph with so many nodes, and so many sources and antecedents, may have a node of these.
fn has_room(nodes: u32, count: u32, sources: &[u32], antes: &[u32]) -> bool
    requires sources { length sources.now ≤ 16385 }
    requires antes { length antes.now ≤ 16385 }
    ensures { result
        ≡ (nat_lt nodes 2048 && nat_le (count + (length sources.now + length antes.now)) 16384) }
{
    let edges = count as usize + (sources.len() + antes.len());
    nodes < limits::NODES && edges <= limits::EDGES as usize
}
