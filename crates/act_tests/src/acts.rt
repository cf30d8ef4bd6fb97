//! What no clause can show: which calls devices in memory have had, in which order, which labels
//! they have in the end, and what was told, worked by hand.
//!
//! Most arrays have three columns of level 5, whose units are one sector, and three stripes. Stripe 0
//! has its data units on devices 0 and 1 and its check unit on device 2; stripe 1 has its data units
//! on devices 2 and 0 and its check unit on device 1; stripe 2 has its data units on devices 1 and 2
//! and its check unit on device 0.
pub(crate) mod asked;
mod beginnings;
mod endings;
mod renewals;
