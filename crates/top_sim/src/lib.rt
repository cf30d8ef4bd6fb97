//! How one simulated disk serves the requests of a text.
//!
//! The text is `disk SECTORS`, 1 to 262,144, and then up to 4,096 lines of two forms, the ticks of
//! which never fall:
//!
//! - `at TICK write FIRST COUNT PATTERN`: COUNT sectors from FIRST on are filled with the pattern;
//! - `at TICK read FIRST COUNT`: they are read. All reads have at most 262,144 sectors together.
//!
//! Lines, words, comments, numbers and patterns are those of `raid_text`. A line is refused by one
//! of these codes, whatever its words from left to right show first:
//!
//! | code | when |
//! |---|---|
//! | 1 | a word that the form doesn't have there, or too few or too many |
//! | 2 | no number, a COUNT of 0, or SECTORS out of range |
//! | 14 | a span past the disk |
//! | 15 | a TICK below that of the line before |
//! | 16 | one request more, or more sectors read, than there may be, behind all words of its line |
//! | 17 | no pattern |
//!
//! [`simulate`] reads the text and serves the requests by one of the queues of `sim_queue`, and
//! [`put_simulated`] prints in which order and at which ticks they are served, and what each is
//! replied. No device is taken.
#![tactic(auto)]

mod lines;
mod requests;
mod simulating;
mod words;

pub use lines::put_simulated;
pub use simulating::{Simulated, simulate};
