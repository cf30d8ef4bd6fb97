//! What an array engine is made of beside its clients and its log: its devices, at home or out with a job, and the room
//! in which all of it stands.
#![tactic(auto)]

mod core_room;
mod devices;
mod memory;
mod room;
mod setup;
mod slot;
mod spare;

pub use core_room::CoreRoom;
pub use devices::{DeviceRoom, Devices};
pub use memory::Memory;
pub use setup::{Closed, OpenFault, Setup};
pub use slot::Slot;
pub use spare::{Spare, SpareLists};
