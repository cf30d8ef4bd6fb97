//! Which sweep it is, and what stops a stripe's turn.

/// What a sweep does with the stripes that lack no unit.
#[derive(Clone, Copy, Debug, PartialEq, Eq)]
pub enum Sweep {
    /// Counts those whose units don't sum to zero.
    Check,
    /// Rewrites the check units of those.
    Sync,
    /// Rewrites the check unit of each.
    Init,
}

/// The device of this column failed a call.
#[derive(Clone, Copy, Debug, PartialEq, Eq)]
pub struct FailedAt {
    pub column: u32,
}
