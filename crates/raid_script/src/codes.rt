//! The codes by which a line of a script is refused.

/// A word that the form doesn't have there, or too few or too many words.
pub const WORD: u8 = 1;

/// A word that is no number where the form has one, or a COUNT of 0.
pub const NUMBER: u8 = 2;

/// A client that isn't below 16.
pub const CLIENT: u8 = 3;

/// A word that is no pattern where the form has one.
pub const PATTERN: u8 = 4;

/// A column that the array hasn't.
pub const COLUMN: u8 = 5;

/// A name that no graph of the file has.
pub const GRAPH: u8 = 6;

/// One item more, or more sectors read, than there may be.
pub const LIMIT: u8 = 7;

/// Two spans of the line that share a block.
pub const SHARED: u8 = 9;

/// One join line more than there may be.
pub const JOINED: u8 = 13;
