//! Texts and devices of a bay, each by its name, and the statuses by which they are refused.
//!
//! What there isn't is `NoFile`, a text of more than 16,777,216 bytes `LongText`. `BayFault` comes
//! only where the bay's count of
//! faults rose, `Memory` at any point. Where something is refused, the bay has all that it had.
#![tactic(auto)]

mod devices;
mod texts;

pub use devices::{look_device, take_device};
pub use texts::open_text;
