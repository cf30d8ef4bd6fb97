//! The end of a run: the devices in use come to rest, and whether the array is lost is judged once
//! more.
//!
//! No call of the devices comes behind this. A device that fails as it is settled takes its column
//! along, so an array may be lost by its end alone.
#![tactic(auto)]

mod ending;
mod judging;
mod laws;
mod settling;

pub use ending::{Ending, Hand, settle};
pub use judging::loss_of;
pub use laws::{
    agreement_goes_by_the_devices_in_use, both_columns_of_a_loss_lack_a_unit,
    columns_close_without_harm, deaths_bring_no_unit_back,
};
