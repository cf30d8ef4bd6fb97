//! Why a label isn't the wanted one.

/// What was found in place of what was wanted.
#[derive(Clone, Copy, Debug, PartialEq, Eq)]
pub enum LabelFault {
    /// There is no label. Both numbers are 0.
    NoLabel { found: u32, wanted: u32 },
    /// It is of another array: the serial numbers.
    Serial { found: u32, wanted: u32 },
    /// It is of another column: the columns.
    Column { found: u32, wanted: u32 },
    /// It is of an array of another shape: the first number of it that differs.
    Shape { found: u32, wanted: u32 },
    /// It is of another version: the versions, of which 2 is wanted.
    Version { found: u32, wanted: u32 },
}
