//! Tests of the top call, `raid_top::run`, in which each call of a device, of the bay and of the sink fails in turn, or the
//! power stops behind it.
//!
//! They stand in a crate of their own, since a crate with tests is proved twice. What is printed, held and called is worked
//! by hand from docs/FORMATS.md and docs/GRAPHS.md.
#![tactic(auto)]

#[cfg(test)]
mod judging;
#[cfg(test)]
mod tests;
