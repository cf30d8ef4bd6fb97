//! The graphs that a script's join lines ask for, joined of two graphs of the file over the layout of an array.
//!
//! The item of a join line writes two spans, and names a graph whose number is behind those of the file. [`join_all`]
//! joins the graphs in the order of the lines: the second's stripes are moved up by as many as the first span touches, so
//! that the joined graph is one for the write of both. Where the spans are past the blocks, or touch more than 16 stripes,
//! nothing is joined, and an empty graph stands there: the item is refused for its spans.
#![tactic(auto)]

mod fault;
mod joining;
mod laws;
mod spans;
mod written;

pub use fault::JoinFault;
pub use joining::join_all;
pub use laws::{
    joined_graph_writes_both_spans, joined_graphs_fit_the_pool, joining_has_one_end,
    lines_have_their_items,
};
