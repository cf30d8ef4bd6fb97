//! How much an array engine has left to do: a number that falls with every event of an operation,
//! whatever devices fail. So an engine that goes on comes to rest, and each item has few events.
//!
//! There is no code here. The number is a definition over the worlds of `eng_world`, in
//! `specs/Left.antt`; the laws say how events change it.
#![tactic(auto)]

mod laws;

pub use laws::{all_falls, events_of_an_item_are_few, indexes_stay, somebody_goes_on, uses_up};
