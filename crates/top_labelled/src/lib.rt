//! A run of clients over an array with labels, from its opening round to its closing one.
//!
//! [`run_labelled`] takes all memory first. Then it reads the maps of the devices, writes the first round
//! of labels, and sweeps the check units where the newest label said that the array was in use, or those
//! of the stripes that the maps mark. With a map that is kept the devices are marked in the place of that
//! round. A column that is to be rebuilt anew
//! dies then. What is asked is served, beside the rebuild, and the array is closed: its devices are settled,
//! get their last labels, and are settled again; then marks are cleared, where there were any. An array that is lost before it is served is left
//! with labels that aren't clean, and nothing is served.
#![tactic(auto)]

mod beginning;
mod closing;
mod in_place;
mod in_turn;
mod labelled;
mod line;
mod marking;
mod opening;
mod outliving;
mod running;

pub use in_turn::a_sweep_comes_client_after_client;
pub use labelled::{Labelled, Outcome};
pub use outliving::{what_is_not_lost_is_answered, what_is_outlived_is_not_lost};
pub use running::run_labelled;
