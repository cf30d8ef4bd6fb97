//! Questions to an array: which event can be done, which is next, and whether all is done.
#![tactic(auto)]

mod chosen;
mod doable;
mod picks;
mod rests;
mod takable;
mod worlds;

pub use chosen::Chosen;
pub use doable::can;
pub use picks::pick;
pub use rests::rest;
pub use worlds::what_is_possible_can_be_done;
