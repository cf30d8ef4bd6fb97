//! Two graphs joined under one commit.
#![tactic(auto)]

mod fault;
mod form;
mod half;
mod joining;
mod laws;
mod marks;
mod pushing;
mod sizes;

pub use fault::MergeFault;
pub use joining::merge;
pub use laws::{
    joined_is_accepted, joined_is_in_order, joined_is_small, joined_is_unique, spans_in_turn_follow,
};
