//! The codes by which a line of a configuration is refused, beside those that all formats have in
//! common.

/// A section that is unknown, repeated, out of order or missing.
pub const SECTION: u8 = 3;

/// A number of columns that the level or the design can't have.
pub const COLUMNS: u8 = 4;

/// More or fewer disks than columns.
pub const DISKS: u8 = 5;

/// More or fewer spares than the array's line says.
pub const SPARES: u8 = 6;

/// A name that stands already among disks and spares, is too long, or is `absent` as a spare.
pub const NAME: u8 = 7;

/// A word that is no level.
pub const LEVEL: u8 = 8;

/// A second or third number of the layout that isn't 1.
pub const ONE: u8 = 9;

/// A queue that isn't `fifo`.
pub const QUEUE: u8 = 10;

/// A design that is missing, or a tuple with too few or too many objects, or too few tuples.
pub const TUPLES: u8 = 11;

/// Numbers and tuples that are no design, or one that the level can't stand on.
pub const DESIGN: u8 = 12;
