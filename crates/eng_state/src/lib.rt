//! An array with its devices, clients and log, what holds of it between two events, and what its events share.
#![tactic(auto)]

mod array;
mod buffers;
mod coming;
mod place;
mod told;

pub use array::Array;
pub use coming::Coming;
