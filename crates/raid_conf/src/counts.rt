//! The numbers of a listed design.

/// So many tuples of k objects; each object stands in r tuples, and each two in lambda.
#[derive(Clone, Copy)]
pub(crate) struct Counts {
    pub(crate) b: u32,
    pub(crate) k: u32,
    pub(crate) r: u32,
    pub(crate) lambda: u32,
}
