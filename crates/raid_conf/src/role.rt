//! What a name is for.

/// A disk of a column, or a spare.
#[derive(Clone, Copy, Debug, PartialEq, Eq)]
pub(crate) enum Role {
    Disk,
    Spare,
}
