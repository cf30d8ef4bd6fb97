//! The codes by which a line of a graph file is refused.

/// A word that the form doesn't have there, a line out of order, too few or too many words, or a
/// name that isn't one.
pub const WORD: u8 = 1;

/// A word that is no number, where the form has one.
pub const NUMBER: u8 = 2;

/// A buffer's or a node's number that isn't the next one.
pub const INDEX: u8 = 3;

/// A name that an earlier graph of the file has.
pub const NAME: u8 = 4;

/// One more graph, buffer, node or return, or more sources and antecedents, than there may be.
pub const LIMIT: u8 = 5;

/// The text ends within a graph.
pub const CUT: u8 = 6;
