//! What is told of an array that is only looked at: how its columns and spares stand, what its parity
//! map marks, what the label of a component holds, and its configuration.
//!
//! Each printer puts one line a call, and takes no memory. Its clauses say the same: where it
//! answers Ok all of its text was put, else a front of it, and that only where the sink's count
//! of faults rose. No device is called.
#![tactic(auto)]

mod columns;
mod doubt;
mod label;
mod laws;
mod map;
mod printed;
mod show;
mod spares;

pub use doubt::{Doubt, doubt_of};
pub use label::put_label;
pub use laws::devices_are_own_or_spares;
pub use map::{Marked, put_map};
pub use printed::printed_conf;
pub use show::put_show;
