//! A run of clients over an array without labels, from its opening to its end.
//!
//! [`run_clients`] serves what is asked and then ends the run. What comes of it is one record over the devices as they
//! were taken and as they are put back: what is printed tells of a run of events that leads from an opening to rest,
//! and of its end. Such a run rebuilds nothing; but the words that say what it is are those of a run that begins with the
//! rebuild of a column too, and a [`Line`] tells what became of that.
#![tactic(auto)]

mod ending;
mod in_turn;
mod outliving;
mod rebuilding;
mod replied;
mod running;
mod service;

pub use in_turn::a_sweep_comes_client_after_client;
pub use outliving::{what_is_not_lost_is_answered, what_is_outlived_is_not_lost};
pub use rebuilding::what_is_rebuilt_stands;
pub use replied::{a_loss_comes_of_one_event, each_reply_has_a_cause};
pub use running::run_clients;
pub use service::{Line, Service, Told};
