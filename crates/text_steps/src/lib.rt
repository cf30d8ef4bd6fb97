//! The steps of a reader: the next line of a text, and the next word of a line.
//!
//! A text is read line by line, and a line word by word from left to right. A step answers what
//! comes next, or the code by
//! which the line is refused there: [`WORD`] where there is no word, or one too many, or a byte
//! that no word has;
//! [`NUMBER`] where a word is no number. Lines, words and numbers are those of `raid_text`.
#![tactic(auto)]

mod at;
mod codes;
mod lines;
mod steps;

pub use at::At;
pub use codes::{NUMBER, WORD};
pub use lines::{Next, at_line, line_if_any, next_line};
pub use steps::{next_number, next_word, number_in, pass_end, pass_number, pass_word, text_of};
