//! The events that start something: an item begins, an operation is taken or goes back, a node is fired or skipped,
//! a rebuild begins. Each call is one event of `eng_world`.
#![tactic(auto)]

mod backs;
mod begins;
mod fires;
mod moving;
mod rebuild;
mod skips;
mod takes;

pub use backs::back;
pub use begins::begin;
pub use fires::fire;
pub use rebuild::{fill, resume, spread};
pub use skips::skip;
pub use takes::take;
