//! Tests of what reads and prints texts: lines, configurations, graph files, scripts, the words of the
//! command line, and what is told beside a status.
//!
//! They stand in a crate of their own, since a crate with tests is proved twice.
#![tactic(auto)]

#[cfg(test)]
mod conf;
#[cfg(test)]
mod graphs;
#[cfg(test)]
mod hints;
#[cfg(test)]
mod judging;
#[cfg(test)]
mod lines;
#[cfg(test)]
mod scripts;
#[cfg(test)]
mod texts;
#[cfg(test)]
mod words;
