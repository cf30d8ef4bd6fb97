//! What is asked of a configuration alone.

/// What is told of a configuration, none of whose components is taken.
#[derive(Clone, Copy, Debug, PartialEq, Eq)]
pub enum Study {
    /// Its layout, over so many rows, or else over those after which it comes again.
    Layout { rows: Option<u32> },
}
