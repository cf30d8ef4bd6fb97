//! What is to be done with an array, before anything of it is written: its opening, its layout, the items of its clients, and
//! whether it is refused.
//!
//! [`admit`] asks for what a command says, looks at the devices, and judges the array. Behind the
//! refusals of `top_bay` come, in
//! this order, what the labels and sizes of the devices call for, an array that is lost by its columns, a rebuild beside
//! another column that is filling, a column that there is nowhere to rebuild to or none to go on with, a join line whose graphs
//! can't be joined, and a trace that would pass its bound. What is refused is put back.
#![tactic(auto)]

mod admitting;
mod clients;
mod duty;
mod judge;
mod kind;
mod layouts;
mod looking;
mod needs;
mod opening;
mod plan;
mod preparing;
mod refusing;
mod start;

pub use admitting::{Admitted, admit};
pub use clients::choose;
pub use duty::{Duty, Ready};
pub use judge::traces;
pub use layouts::layout_of;
pub use plan::plan_of;
