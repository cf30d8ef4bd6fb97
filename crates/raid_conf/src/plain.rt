//! The levels that stand on no block design.

/// A layout of a level that stands on no block design.
#[derive(Clone, Copy, Debug, PartialEq, Eq)]
pub(crate) enum Plain {
    Striped,
    Mirrored,
    LastChecked,
    LeftSymmetric,
    Chained,
}
