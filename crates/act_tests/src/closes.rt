//! What no clause can show: that there is memory, and which calls devices in memory have had, and
//! by what their array is lost, worked by hand.
mod asked;
mod endings;
