//! The plain machine: a list of blocks that each operation changes at once, and the replay of a history on it.
//!
//! It is what a redundant array is to look like from outside, the logical view of raid(4). No other code of the engine
//! keeps such a list.
#![tactic(auto)]

mod apart;
mod blocks;
pub mod limits;
mod memory;
mod op;

pub use apart::are_apart;
pub use blocks::{Blocks, fill, replay};
pub use memory::Memory;
pub use op::{Op, OpId, Outcome, Patch, Patches, Pattern, SECTOR, Span};
