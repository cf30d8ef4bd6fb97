//! From a command to what it asks for, by the texts and devices of a bay.
//!
//! [`ask`] reads the configuration that the command names, the file of graphs and the script, and
//! takes the devices that
//! the action goes by, those of the columns before the spares. What is refused is refused in this order, and no device is
//! then taken; [`put_all`] puts the devices back. The statuses are those of docs/FORMATS.md.
#![tactic(auto)]

mod asked;
mod component;
mod devices;
mod names;
mod opening;

pub use asked::{Asked, Taken, ask};
pub use devices::put_all;
pub use opening::open_conf;
