//! Tests of the core of the array engine over devices in memory, and of the world that it keeps.
//!
//! They stand in a crate of their own, since a crate with tests is proved twice.
#![tactic(auto)]

#[cfg(test)]
mod tests;
