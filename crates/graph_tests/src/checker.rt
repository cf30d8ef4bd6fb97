//! What no clause shows: that there is memory, and that graphs that people draw get the answers that
//! were worked out for them by hand.

mod accepted;
pub(crate) mod drawing;
mod layouts;
mod limits;
mod pieces;
mod refused;
