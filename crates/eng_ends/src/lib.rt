//! Good ends of jobs: of a read, a write, an exclusive-or, the commit and a terminator.
#![tactic(auto)]

mod commit;
mod end;
mod finish;
mod nothing;
mod rebuilt;
mod returned;
mod sum;

pub use finish::{read_returns, write_returns};
pub use nothing::nothing_returns;
pub use sum::sum_returns;
