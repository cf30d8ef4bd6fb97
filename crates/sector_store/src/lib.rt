//! Sectors that are zero until they are put. One that was kept not long ago isn't kept again.
#![tactic(auto)]

mod memory;
mod places;
mod store;

pub use memory::Memory;
pub use store::Store;
