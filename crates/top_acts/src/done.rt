//! What was done to an array.

/// What was done to an array.
#[derive(Clone, Copy, Debug, PartialEq, Eq)]
pub enum Done {
    /// The array is lost.
    Nothing,
    /// So many check units were written, whatever they held.
    Init(u64),
    /// So many stripes were found that aren't in sync.
    Check(u64),
    /// So many check units were rewritten, of stripes that weren't in sync.
    Rewrite(u64),
    /// This column was failed.
    Killed(u32),
    /// The labels of so many columns were written.
    Labelled(u32),
}
