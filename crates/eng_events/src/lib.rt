//! An array is opened and closed, and a job comes home, by which its node ends good or bad.
#![tactic(auto)]

mod closes;
mod home;
mod opens;

pub use closes::close;
pub use home::goes_home;
pub use opens::open;
