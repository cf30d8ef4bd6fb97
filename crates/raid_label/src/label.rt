//! What a label is.

/// The eight bytes with which a label begins.
pub(crate) const MAGIC: [u8; 8] = *b"RFLABEL1";

/// The fields of a label.
///
/// On a device each number takes four bytes, the lowest first, in this order.
#[derive(Clone, Copy, Debug, PartialEq, Eq)]
pub struct Label {
    /// 2; or 1 in a label that was written before an array could have a column that is filling.
    pub version: u32,
    /// The array that the device is of, by the number that its operator gave it.
    pub serial: u32,
    /// How often the labels of the array were written; of two labels the greater one is newer.
    pub counter: u32,
    /// The column that the device serves, and of how many.
    pub column: u32,
    pub columns: u32,
    /// The sectors of a unit.
    pub unit: u32,
    /// The rows of a column.
    pub rows: u32,
    /// The ASCII number of the level's letter.
    pub level: u32,
    /// 1 where the array was closed in order, else 0.
    pub clean: u32,
    /// The numbers of the block design by which stripes lie, where the level has one, else 0: its
    /// tuples,
    pub b: u32,
    /// the objects of a tuple,
    pub k: u32,
    /// the tuples that an object stands in,
    pub r: u32,
    /// and those that two objects both stand in.
    pub lambda: u32,
    /// What stands for each column: 0 its configured disk, j + 1 spare j, 254 the spare places of
    /// the other columns, 255 nothing; and 0 past the columns.
    pub seats: [u8; 32],
    /// The column that is filling plus 1, or 0 where none is. A label of version 1 names none.
    pub filling: u32,
    /// How many of its stripes, from the first on, are done.
    pub done: u32,
}
