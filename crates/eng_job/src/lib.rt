//! What a node does outside the engine's lock: one call of a device, one exclusive-or, or nothing.
//!
//! A job takes its device and its buffers along, so that a worker can perform it while others have
//! the lock, and gives them back as its work left them. Its list of sources is made beforehand, so
//! that no job takes memory.
#![tactic(auto)]

mod bytes;
mod job;
mod lists;
mod perform;

pub use blk_plain::Outcome;
pub use job::{Job, Source, Work};
pub use lists::{Lists, MOST, Memory};
