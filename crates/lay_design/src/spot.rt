//! A place in rows.

/// A row, as a tuple, and a place in it.
#[derive(Clone, Copy)]
pub(crate) struct Spot {
    pub(crate) row: u32,
    pub(crate) place: u32,
}
