//! Tests of sweeps over an array's stripes: what they answer, which calls they make, and what a device that fails leaves of
//! them. What no clause can show: that there is memory, and that the places, calls and sums are those of the field, worked
//! by hand.
//!
//! They stand in a crate of their own, since a crate with tests is proved twice.
#![tactic(auto)]

#[cfg(test)]
mod ahead;
#[cfg(test)]
mod asked;
#[cfg(test)]
mod failures;
#[cfg(test)]
mod judging;
#[cfg(test)]
mod spare_places;
#[cfg(test)]
mod sweeps;
