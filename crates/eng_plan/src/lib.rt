//! What an operation asks of an array, and what it is planned to be: its blocks and stripes, how it holds them, the
//! units that are missing, what kind of task it is, how many buffers it leases, and that the checker takes the graph
//! that is drawn for it.
#![tactic(auto)]

mod checked;
mod planning;
mod pooled;

pub use checked::plan_and_check;
pub use planning::{kind_of, lease_size, list_missing, mode_by, span_count, split_op};
pub use pooled::{leases_are_no_greater, own_leases, row_leases};
