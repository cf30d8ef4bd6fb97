//! What is chosen.
use eng_cols::Spot;
use eng_world::Event;

/// An event that can be done, and where the unit of its node stands: it was looked for to choose it, and needn't be looked
/// for again to fire it.
#[derive(Clone, Copy, Debug, PartialEq, Eq)]
pub struct Chosen {
    /// It can be done while nothing else happens to the core.
    pub event: Event,
    /// Where its node's unit stands. None where it has no node, and for a node that makes no call.
    pub at: Option<Spot>,
}
