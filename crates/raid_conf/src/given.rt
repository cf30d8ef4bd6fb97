//! Block designs, as a configuration gives them.
use crate::numbers::Numbers;

/// A block design as it is written.
#[derive(Drop)]
pub enum Given {
    /// b tuples of k objects below v, one after the other; each object stands in r tuples, and each
    /// two in lambda.
    Listed {
        b: u32,
        v: u32,
        k: u32,
        r: u32,
        lambda: u32,
        tuples: Numbers,
    },
    /// v tuples, each the base tuple moved on around the v objects.
    Cyclic {
        v: u32,
        base: Numbers,
    },
    /// All tuples of k of v objects.
    Complete {
        v: u32,
        k: u32,
    },
}
