//! Bad ends: a column fails, a read or a write ends bad, and what comes home once the array is lost.
#![tactic(auto)]

mod bad;
mod bad_jobs;
mod fails;
mod lost;

pub use bad_jobs::bad_returns;
pub use fails::{fail, fail_column, is_dead};
pub use lost::nothing_comes_home;
