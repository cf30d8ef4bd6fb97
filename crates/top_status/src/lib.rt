//! How a call of the program ends: its status, the columns that are dead in the end, and how both
//! are printed.
//!
//! Each printer puts one line a call, and takes no memory. Its clauses say the same: where it
//! answers Ok all of its text was put, else a front of it, and that only where the sink's count
//! of faults rose.
#![tactic(auto)]

mod dead;
mod ending;
mod refusal;
mod status;
mod status_line;

pub use dead::put_dead;
pub use ending::{put_ending, put_refusal};
pub use refusal::Refusal;
pub use status::Status;
pub use status_line::put_status;
