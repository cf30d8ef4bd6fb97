//! Layouts whose places follow a rule, with no table: levels 0, 1, 4 and 5, and chained
//! declustering.
#![tactic(auto)]

mod chain;
mod fault;
mod level_five;
mod level_four;
mod level_one;
mod level_zero;

pub use chain::Chain;
pub use fault::MakeFault;
pub use level_five::Raid5;
pub use level_four::Raid4;
pub use level_one::Raid1;
pub use level_zero::Raid0;
