//! The numbers of a block design.

/// The numbers of a block design, all 0 where there is none.
#[derive(Clone, Copy, Debug, PartialEq, Eq)]
pub struct Parameters {
    /// The tuples.
    pub b: u32,
    /// The objects of a tuple.
    pub k: u32,
    /// In how many tuples each object stands.
    pub r: u32,
    /// In how many each two objects stand.
    pub lambda: u32,
}
