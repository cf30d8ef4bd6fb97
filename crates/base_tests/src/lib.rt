//! Tests of what all else stands on: plain blocks, devices, bays and sinks, words of texts, labels, kernels, buffers, stored sectors, locks and jobs.
//!
//! They stand in a crate of their own, since a crate with tests is proved twice.
#![tactic(auto)]

#[cfg(test)]
mod bays;
#[cfg(test)]
mod blocks;
#[cfg(test)]
mod buffers;
#[cfg(test)]
mod disks;
#[cfg(test)]
mod jobs;
#[cfg(test)]
mod judging;
#[cfg(test)]
mod labels;
#[cfg(test)]
mod locks;
#[cfg(test)]
mod spans;
#[cfg(test)]
mod stores;
#[cfg(test)]
mod sums;
#[cfg(test)]
mod words;
