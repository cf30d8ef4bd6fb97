//! Locks of stripes: who may work on which stripe, shared or alone.
//!
//! An operation takes all its stripes at once before it begins and gives them back at its end, so
//! no two that wait can stand in each other's way. Reads share a stripe; what writes takes it alone.
#![tactic(auto)]

mod holder;
mod locks;
mod mode;
mod row;

pub use locks::{Locks, Memory};
pub use mode::Mode;
