//! Why nothing was served.
use eng_array::{Loss, Setup};

/// Why nothing was served.
#[derive(Clone, Copy, Debug, PartialEq, Eq)]
pub enum ServeFault {
    /// The array is lost by its columns.
    Lost(Loss),
    /// There was no memory for a core.
    Memory,
}

/// Nothing was served, and what was handed in comes back as it was.
#[derive(Drop)]
pub struct Refused<L, D> {
    pub fault: ServeFault,
    pub setup: Setup<L, D>,
}
