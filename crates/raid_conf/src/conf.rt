//! What a configuration says.
use crate::given::Given;
use crate::names::Names;

/// An array, as its configuration describes it.
#[derive(Drop)]
pub struct Conf {
    /// The columns, 1 to 32.
    pub columns: u32,
    /// The spares, at most 8.
    pub spares: u32,
    /// The sectors of a unit, 1 to 128.
    pub unit: u32,
    /// The level, by the ASCII number of its letter: one of `0 1 4 5 C T D`.
    pub level: u8,
    /// The number of the queue, where it is given; it has no effect.
    pub queue: Option<u32>,
    /// The names of the columns' disks, that of an absent one empty.
    pub disks: Names,
    /// The names of the spares.
    pub spare_names: Names,
    /// The block design, at levels T and D.
    pub design: Option<Given>,
}
