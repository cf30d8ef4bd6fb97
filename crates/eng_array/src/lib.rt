//! The core of the array engine: each call is one event of `eng_world`, and leaves the core as steady as it was.
#![tactic(auto)]

mod calls;
mod core_calls;
mod core_open;
mod core_rebuild;
mod fitting;
mod progress;
mod start;
mod tickets;

pub use calls::Core;
pub use eng_choice::{Chosen, what_is_possible_can_be_done};
pub use eng_cols::{Column, Loss, Spot};
pub use eng_job::{Job, Lists, Outcome};
pub use eng_log::{Region, Regions};
pub use eng_parts::{Closed, CoreRoom, Memory, OpenFault, Setup};
pub use eng_state::Array;
pub use eng_world::{Event, Item, Reply, Traced};
pub use fitting::what_is_counted_fits_the_trace;
pub use progress::{
    each_event_leaves_less, events_of_an_item_are_few, leases_are_there, somebody_goes_on,
};
pub use start::Start;
pub use tickets::{
    chains_are_runs, failed_devices_are_blamed, looks_are_quiet, what_is_out_has_one_place,
    what_was_handed_in_comes_back,
};
