//! Parity declustering: layouts whose stripes are narrower than the array, so that the work after a
//! failure is spread over all columns alike.
//!
//! The stripes of a full table take their columns from the tuples of a block design. (Holland and
//! Gibson, "Parity Declustering for Continuous Operation in Redundant Disk Arrays".)
#![tactic(auto)]

mod declustered;
mod fault;
mod laws;
mod limits;
mod offsets;
mod positions;
mod spared;
mod table;

pub use declustered::Declustered;
pub use fault::TableFault;
pub use laws::{
    data_units_stand_in_tuple_order, rows_are_the_lowest_free, spare_places_lie_by_units,
};
pub use spared::Spared;
