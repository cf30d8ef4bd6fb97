//! What is told of a layout: its numbers, where each unit of each stripe stands, what each column
//! has, and what a rebuild and writes cost under it.
//!
//! [`put_layout`] prints it. No device is called.
#![tactic(auto)]

mod columns;
mod costs;
mod loads;
mod show;
mod stripes;
mod tally;

pub use show::put_layout;
pub use tally::{Tally, count_such};
