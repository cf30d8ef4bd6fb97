//! The unit buffers of a run: taken from memory once, and then lent out in leases.
//!
//! An operation leases as many buffers as its graph has before it begins, so that no operation
//! that has begun can be stopped by want of memory. A buffer of a lease leaves the pool while a
//! job works on it, on any thread, and comes back with what it then holds.
#![tactic(auto)]

mod buffer;
mod lease;
mod pool;
mod reserve;
mod seat;
mod zeroed;

pub use buffer::{Buffer, Memory};
pub use lease::{Full, Lease};
pub use pool::Pool;
pub use reserve::Reserve;
pub use zeroed::Zeroed;
