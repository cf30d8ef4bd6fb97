//! Why a declustered layout isn't made.

/// Why a layout isn't made of a design and numbers, the first that is so.
#[derive(Clone, Copy, Debug, PartialEq, Eq)]
pub enum TableFault {
    /// The tuples of the design have too few objects: with a spare place in each there are to be 3.
    Width,
    /// A unit isn't of 1 to 128 sectors.
    Unit,
    /// The rows aren't a whole number of full tables, or there are none, or they give more than
    /// 1,048,576 stripes.
    Rows,
    /// There is no memory.
    Memory,
}
