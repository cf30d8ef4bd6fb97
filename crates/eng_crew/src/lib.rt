//! A crew of workers, which is let at a core and hands it back, and the drain, which serves it alone.
//!
//! Up to 16 workers take turns at one core. In one turn a worker makes events until it has fired a node that calls a
//! device or sums much. That it performs outside the turn, beside the others, and brings it home in its next turn, in which
//! it goes on. What the workers leave is completed by the drain, on one thread.
#![tactic(auto)]

mod crew;
mod draining;
mod entries;
mod laws;
mod making;
mod rule;
mod turns;
mod waiting;
mod worker;

pub use crew::{Memory, run_crew};
pub use draining::drain;
pub use laws::{
    each_has_one_place, few_events_follow, what_fits_meets_the_invariant, what_follows_continues,
};
pub use rule::CrewRule;
pub use worker::work;
