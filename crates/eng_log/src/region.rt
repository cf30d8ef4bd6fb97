//! Where the sectors of a read lie.

/// The sectors that an item hands out: so many, from this one on. An item that is no read has none.
#[derive(Clone, Copy, Debug, PartialEq, Eq)]
pub struct Region {
    pub first: u32,
    pub count: u32,
}
