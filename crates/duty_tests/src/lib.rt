//! Tests of what is to be done: what words ask of a bay, how an array is opened, what is admitted or refused, and what is shown.
//!
//! They stand in a crate of their own, since a crate with tests is proved twice.
#![tactic(auto)]

#[cfg(test)]
mod admitted;
#[cfg(test)]
mod asked;
#[cfg(test)]
mod bounds;
#[cfg(test)]
mod commands;
#[cfg(test)]
mod filling;
#[cfg(test)]
mod judging;
#[cfg(test)]
mod opened;
#[cfg(test)]
mod shown;
#[cfg(test)]
mod statuses;
