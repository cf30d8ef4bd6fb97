//! Why a layout isn't made.

/// Why a layout isn't made of these numbers, the first that is so.
#[derive(Clone, Copy, Debug, PartialEq, Eq)]
pub enum MakeFault {
    /// The level doesn't allow this number of columns.
    Columns,
    /// A unit isn't of 1 to 128 sectors.
    Unit,
    /// There are too few rows for the level, or they give more than 1,048,576 stripes.
    Rows,
}
