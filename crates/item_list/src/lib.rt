//! The items of a client, in little room: the patches of a write of several spans stand apart from the list.
#![tactic(auto)]

mod items;
mod slot;

pub use items::Items;
