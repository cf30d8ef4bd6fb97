//! Lines, words, numbers and patterns of a text, read from left to right without memory.
//!
//! A text is bytes. A line ends with byte 10 or with the text, and a byte 13 right before that end
//! isn't part of it. Spaces and tabs separate words; a `#` and all that follows it on its line are
//! a comment, of any bytes. Lines are numbered from 1; one without a word is counted, and skipped.
//! A word has bytes 33 to 126 without `#`. A text has at most 16,777,216 bytes.
#![tactic(auto)]

mod cuts;
mod laws;
mod numbers;
mod patterns;
mod readers;
mod reading;

pub use laws::{lines_are_read_again, numbers_are_read_again, patterns_are_read_again};
pub use numbers::number;
pub use patterns::pattern;
pub use readers::{Line, Lines, Words};
