//! How a stripe is held.

/// How an owner holds its stripes.
#[derive(Clone, Copy, Debug, PartialEq, Eq)]
pub enum Mode {
    /// Beside others that share, as for reads.
    Share,
    /// Alone.
    Exclude,
}
