//! Where a text is refused.

/// The first line of a text that can't be read, and why.
#[derive(Clone, Copy, Debug, PartialEq, Eq)]
pub struct At {
    /// The line's number, from 1.
    pub line: u32,
    /// The code of its refusal, which the text's format gives its meaning.
    pub code: u8,
}
