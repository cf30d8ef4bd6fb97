//! Two graphs of the file that a line joins.

/// The most join lines of a script, by its format (docs/FORMATS.md): as many as a file may have
/// graphs. Once the array is opened each has a graph of its own, with room for the largest.
pub const JOINS: u32 = 64;

/// A join line: its number, from 1 on, and the numbers of its two graphs in the book.
#[derive(Clone, Copy, Debug, PartialEq, Eq)]
pub struct Join {
    pub line: u32,
    pub first: u32,
    pub second: u32,
}
