//! Tests of access graphs: what they mean, the checker, the planner, and the run of one graph.
//!
//! They stand in a crate of their own, since a crate with tests is proved twice.
#![tactic(auto)]

#[cfg(test)]
mod checker;
#[cfg(test)]
mod judging;
#[cfg(test)]
mod meaning;
#[cfg(test)]
mod planner;
#[cfg(test)]
mod plans;
#[cfg(test)]
mod runs;
