//! The order in which one simulated disk serves its requests, by one of three queues.
#![tactic(auto)]

mod choice;
mod laws;
mod memory;
mod replies;
mod request;
mod service;
mod waiting;

pub use laws::{
    each_is_served_once, first_is_served_first, none_is_served_early, service_is_one,
    services_follow_one_another,
};
pub use memory::Memory;
pub use replies::{Replies, reply_all};
pub use request::{Queue, Request, Served};
pub use service::serve;
