//! What is done to an array that has been opened, without a core: its check units are tested or
//! rewritten, a column is failed, or its devices get their first labels.
//!
//! Each of these takes the columns as they were opened, and leaves them as they are in the end. It
//! tells what was done, and that is nothing exactly where the array is lost.
#![tactic(auto)]

mod beginning;
mod checking;
mod clearing;
mod closing;
mod done;
mod done_line;
mod ending;
mod failing;
mod judging;
mod killing;
mod labelling;
mod maps;
mod opening;
mod renewing;
mod sweeping;

pub use beginning::begin_labelled;
pub use checking::check;
pub use clearing::{end_and_clear, end_mapped};
pub use closing::close;
pub use done::Done;
pub use done_line::put_done;
pub use ending::end_labelled;
pub use failing::fail_column;
pub use killing::{kill, settle_and_close};
pub use labelling::label;
pub use maps::{Maps, look_at_maps};
pub use opening::{Notice, Opening, Sweeps};
pub use renewing::{renew, renew_unlabelled};
pub use sweeping::Renewal;
