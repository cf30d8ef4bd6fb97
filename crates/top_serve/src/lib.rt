//! A run of items over an array, from its opening to rest.
//!
//! [`serve`] opens a core over a setup, lets a crew of workers at it, drains what they leave, and closes it. What comes
//! of it is one record over what was handed in and what is handed back: a run of events of the clients alone leads from
//! an opening to a world in which every item has its reply and no job is out, and all that is handed back is that
//! world's.
//!
//! Where something is done to the array before it is served, [`room_for`] takes all memory first, and [`serve_in`] can't
//! be refused then. Columns may have died in between. A column may be rebuilt beside the clients, a dead one or one that is
//! filling: that starts before any of their events, and at the end the column is live or spread if all of it was rebuilt.
//! Else one that was to be spread is dead, and one that is rebuilt onto a device is filling still.
#![tactic(auto)]

mod asking;
mod judging;
mod opening;
mod refused;
mod serving;

pub use opening::room_for;
pub use refused::{Refused, ServeFault};
pub use serving::{serve, serve_in};
