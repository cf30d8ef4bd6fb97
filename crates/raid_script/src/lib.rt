//! Scripts: what up to sixteen clients ask of an array, read from a text, or drawn from a number.
//!
//! A script has one item a line; C is the client, 0 to 15:
//!
//! - `C write FIRST COUNT PATTERN`: writes COUNT blocks from block FIRST on, each filled with the
//!   pattern; `C read FIRST COUNT`: reads them. Both by the library's graph;
//! - `C writes FIRST COUNT PATTERN ..`: one to eight such writes as one operation. No two of its
//!   spans share a block;
//! - `C use NAME write ..`, `C use NAME writes ..` and `C use NAME read ..`: the same by the graph of
//!   the file that has this name;
//! - `C join NAME FIRST COUNT PATTERN NAME FIRST COUNT PATTERN`: two writes as one operation, by the
//!   graph that the two of these names are joined to. There are at most 64 such lines; the graph of
//!   the first has the number behind those of the file;
//! - `C sync STRIPE`: makes a stripe's check unit from its data units;
//! - `C fail COLUMN`: the operator fails a column.
//!
//! Blocks and stripes are counted from 0, a block is a sector, and COUNT isn't 0. Lines, words,
//! comments, numbers and patterns are those of `raid_text`. The items of a client are numbered from
//! 0 in the order of the lines. There are at most 65,536 items, and the COUNTs of all reads are at
//! most 262,144 together.
//!
//! What they were replied is printed by `put_replies`, `put_history`, `put_trace` and `put_summary`,
//! one line a call of the sink.
#![tactic(auto)]

mod causes;
mod codes;
mod drawn;
mod entry;
mod fault;
mod history;
mod join;
mod joining;
mod kinds;
mod laws;
mod lines;
mod memory;
mod patches;
mod reader;
mod repetition;
mod replies;
mod runs;
mod script;
mod summary;
mod sums;
mod trace;
mod words;

pub use drawn::generate;
pub use fault::ScriptFault;
pub use history::put_history;
pub use join::{JOINS, Join};
pub use laws::{own_items_touch_their_share, script_is_of_the_form, script_is_read};
pub use memory::Memory;
pub use reader::read_script;
pub use repetition::shortest_string;
pub use replies::put_replies;
pub use runs::{put_blocks, run_length, stored_run};
pub use script::Script;
pub use summary::put_summary;
pub use trace::put_trace;
