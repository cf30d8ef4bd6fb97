//! Why numbers and tuples are no block design.

/// The first cause that holds, in this order, each with its least place.
#[derive(Clone, Copy, Debug, PartialEq, Eq)]
pub enum DesignFault {
    /// There aren't 2 to 32 objects, 2 to v of them in a tuple, or 1 to 4,096 tuples; the list's
    /// length isn't b k; or b k isn't v r, or r (k - 1) isn't lambda (v - 1).
    Count,
    /// What stands in this place of this tuple isn't below v. It is the first such place, tuple by
    /// tuple; tuples and places count from 0.
    Element { tuple: u32, element: u32 },
    /// What stands in this place of this tuple stands in an earlier place of it too. It is the
    /// first such place, tuple by tuple.
    Repeat { tuple: u32, element: u32 },
    /// This object stands in so many tuples, not in r. It is the least such object.
    Degree { object: u32, has: u32 },
    /// These two objects, of which x is the lesser, stand together in so many tuples, not in
    /// lambda. They are the first such two, by x and then by y.
    Pair { x: u32, y: u32, has: u32 },
    /// There is no memory.
    Memory,
}
