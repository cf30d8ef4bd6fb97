//! Tests of what several workers do: turns, the crew, and runs of it on arrays with and without labels.
//!
//! They stand in a crate of their own, since a crate with tests is proved twice.
#![tactic(auto)]

#[cfg(test)]
mod arrays;
#[cfg(test)]
mod crews;
#[cfg(test)]
mod judging;
#[cfg(test)]
mod labelled;
#[cfg(test)]
mod serves;
#[cfg(test)]
mod turns;
