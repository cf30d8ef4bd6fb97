//! The seats of a pool, one for each buffer.
use crate::zeroed::Zeroed;
use std::snapshot::Snapshot;

/// Whose a seat is: free, at this place of the list of free seats, or a lease's, which is named by
/// its first seat, at this place of it.
#[derive(Clone, Copy, Debug, PartialEq, Eq)]
pub(crate) enum Owner {
    Free(u32),
    Leased(u32, u32),
}

/// A buffer is at home, or it is out. Then a copy that holds no bytes tells contracts what it was
/// as it left.
#[derive(Drop)]
pub(crate) enum Place {
    Home(Zeroed),
    Out(Snapshot<Zeroed>),
}

/// Whose it is contracts see alone: no byte of it is written as a seat is leased or given back.
#[derive(Drop)]
pub(crate) struct Seat {
    pub(crate) owner: Snapshot<Owner>,
    pub(crate) place: Place,
}
