//! The sectors that operations bring and hand out, and what a run leaves behind: its history, its trace, and how many
//! stripes were rebuilt.
#![tactic(auto)]

mod fill;
mod given;
mod handed;
mod log;
mod memory;
mod patched;
mod region;

pub use fill::fill_fresh;
pub use given::count_of;
pub use handed::{Handed, Regions};
pub use log::Log;
pub use memory::Memory;
pub use region::Region;
