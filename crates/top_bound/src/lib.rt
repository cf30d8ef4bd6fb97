//! The bound of a trace: whether all events that the items of a script may come to have room in it.
//!
//! A trace has room for 1,048,576 events of items. What a script may come to is counted beforehand,
//! item by item and by their graphs, so that no run stops for want of room.
//!
//! Beside it stand the laws by which a core may be opened over a script and graphs that were read:
//! what their readers promise is what the core asks of its items and graphs.
#![tactic(auto)]

mod bound;
mod laws;

pub use bound::trace_fits;
pub use laws::{
    few_items_have_room, file_graphs_fit_the_pool, sectors_are_counted_alike,
    traces_are_counted_alike, what_fits_has_room,
};
