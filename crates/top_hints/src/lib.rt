//! What stands on standard error beside a status: a sentence for each status that isn't ok, a warning for each
//! component that failed, and one of an array that isn't clean and lacks a column.
//!
//! They say which word, file or column a status is about, and what can be done. Each is one line, in which names and
//! the words of the system are shown without the bytes by which a terminal would do something. Behind words of no form
//! stands the program's help too. Nothing goes by what stands there: a call has ended by then.
#![tactic(auto)]

mod advice;
mod labels;
mod piece;
mod sentences;
mod tables;
mod telling;
mod trouble;
mod words;

pub use telling::{doubt, hint, warning};
pub use trouble::Trouble;
