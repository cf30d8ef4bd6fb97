//! Graph files: texts that hold access graphs, read and printed.
//!
//! A file is graphs one behind the other, each a line `graph NAME`, the lines of its buffers, those
//! of its nodes, those of its returns, and a line `end`; each of the three kinds may have no line.
//! The lines of a graph are
//!
//! - `buffer I stripe S from O count L`: a buffer of the operation's stripe S, counted from 0, of L
//!   sectors from sector O of the unit on; `new U` behind it where the new data of data unit U
//!   fills it;
//! - `node I read UNIT BUFFER`: a read of a unit into a buffer;
//! - `node I write UNIT BUFFER`: a write of a buffer to a unit;
//! - `node I xor TARGET SOURCE ..`: the exclusive-or of the source buffers, of which there may be
//!   none, into the target buffer;
//! - `node I commit` and `node I terminate`: the commit and the terminator;
//! - `return UNIT BUFFER`: a buffer that is the reply for a data unit.
//!
//! A node's line may end with `after A ..`, the numbers of the nodes that it follows. I is how many
//! buffers or nodes stand before it in its graph. A name is 1 to 32 of `a` to `z`, `0` to `9`, `_`
//! and `-`, and no two graphs of a file have the same. Lines, words, comments and numbers are those
//! of `raid_text`. A file has at most 64 graphs, and a graph at most 2,048 buffers, 2,048 nodes,
//! 2,048 returns, and 16,384 sources and antecedents together.
//!
//! The reader goes over a text once, word by word, and names the first line that it refuses
//! ([`BookFault`]). The printer gives the canonical text of a graph, which is read as that graph.
#![tactic(auto)]

mod book;
mod codes;
mod copy;
mod draft;
mod edges;
mod fault;
mod kept;
mod laws;
mod lines;
mod name;
mod nodes;
mod print;
mod push;
mod reader;
mod steps;

pub use book::Book;
pub use fault::BookFault;
pub use laws::{file_is_of_the_form, file_is_read, file_text_is_read, graph_text_is_read};
pub use print::print_graph;
pub use reader::read_graphs;
