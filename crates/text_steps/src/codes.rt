//! The codes that all formats have in common.

/// A word that the form doesn't have there, or too few or too many words, or a byte that no word
/// has.
pub const WORD: u8 = 1;

/// A word that is no number where the form has one, or a number out of its range.
pub const NUMBER: u8 = 2;
