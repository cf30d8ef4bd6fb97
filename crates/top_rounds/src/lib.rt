//! Labels, written in rounds.
//!
//! A round raises the counter of an array's label by 1 and writes the label into sector 0 of each
//! device in use, in the order of the columns. A device whose write fails is failed: its column is
//! dead, the seat of that column becomes 255, and the next round begins. Where that leaves the array
//! lost, a column that was filling is dead, and one round more is written, not clean, whose failed
//! writes are passed over.
#![tactic(auto)]

mod pass;
mod rounds;
mod seating;

pub use pass::{last_round, try_round};
pub use rounds::round;
pub use seating::{give_up, seats};
