//! The top call: all that the program does, from its words to its status.
//!
//! [`run`] reads the words, which decide what is read next: the configuration of an array with the
//! texts and devices that go with it, or alone, a list of components, requests to a simulated disk, or
//! nothing, where only one of the program's own texts is told. It does what is asked, puts the
//! devices back, and prints what came of it. Clients of a script, or such that are drawn, are run
//! on an array; its parity is tested or rewritten, its devices get labels, or a column is failed;
//! or the array, a label or the configuration is shown. The statuses and lines are those of
//! docs/FORMATS.md, after NetBSD's raidctl(8).
#![tactic(auto)]

mod act;
mod array;
mod came;
mod changing;
mod doing;
mod doubting;
mod finished;
mod invoking;
mod laws;
mod order;
mod paging;
mod performing;
mod printing;
mod rebuilt;
mod running;
mod setup;
mod showing;
mod top;

pub use doubting::Doubts;
pub use laws::{
    a_column_dead_as_opened_has_a_cause, a_device_that_fails_late_was_read,
    a_refused_loss_lacks_two_units, what_dies_has_a_cause, what_is_drawn_comes_in_turn,
    what_is_rebuilt_is_worth_it, what_is_refused_changes_nothing, what_is_right_is_answered,
};
pub use top::run;
pub use top_looks::Doubt;
pub use top_status::Status;
