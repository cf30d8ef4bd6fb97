//! Tests of layouts: levels 0, 1, 4, 5 and chained, block designs, declustered tables, and columns over them.
//!
//! They stand in a crate of their own, since a crate with tests is proved twice.
#![tactic(auto)]

#[cfg(test)]
mod columns;
#[cfg(test)]
mod declustered;
#[cfg(test)]
mod designs;
#[cfg(test)]
mod joint;
#[cfg(test)]
mod judging;
#[cfg(test)]
mod levels;
