//! Tests of the top call, `raid_top::run`, over a bay and a sink in memory.
//!
//! They stand in a crate of their own, since a crate with tests is proved twice. What is printed, held and called is worked
//! by hand from docs/FORMATS.md and docs/GRAPHS.md.
#![tactic(auto)]

#[cfg(test)]
mod judging;
#[cfg(test)]
mod tests;
