//! What the planner makes of the items of a script, and its text.
//!
//! Each item is planned by itself, while the columns stand as they do: [`Planner::tell`] appends the
//! graph of an item, or the reply by which it is refused. Nothing is run, and no device is taken.
#![tactic(auto)]

mod counting;
mod judging;
mod planner;
mod telling;

pub use judging::Outside;
pub use planner::Planner;
pub use telling::tell_items;
