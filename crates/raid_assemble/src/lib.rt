//! Which arrays the labels of a list of devices make up.
//!
//! Labels of one serial are of one array. The newest of them, those with the greatest counter, are its members where
//! they agree with the first of them, one for each column.
#![tactic(auto)]

mod grouping;
mod laws;
mod memory;
mod sets;
mod standings;

pub use grouping::group;
pub use laws::{
    members_have_columns_of_the_set, members_have_columns_of_their_own, set_has_one_counter,
    set_is_of_the_serial,
};
pub use memory::Memory;
pub use sets::{Set, SetList, Sets, Standing, Standings};
