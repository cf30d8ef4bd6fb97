//! The clients of an array: what each is asked, was replied and does now, with the run of its graph, its buffers, and
//! the units that its operation finds missing; and the room for the rebuilds that a client is given.
#![tactic(auto)]

mod client;
mod clients;
mod gather;
mod memory;
mod planned;
mod queries;
mod rebuilds;
mod returns;
mod rewritten;
mod scatter;
mod serving;
mod spots;
mod stage;
mod turns;

pub use client::Client;
pub use clients::{ClientRooms, Clients};
pub use memory::Memory;
pub use planned::Asked;
pub use rebuilds::Rebuilds;
pub use stage::Stage;
