//! Tests of what becomes of an array's labels and columns around a run: settling, rounds of labels, acts, and
//! parity maps.
//!
//! They stand in a crate of their own, since a crate with tests is proved twice.
#![tactic(auto)]

#[cfg(test)]
mod acts;
#[cfg(test)]
mod closes;
#[cfg(test)]
mod judging;
#[cfg(test)]
mod maps;
#[cfg(test)]
mod rounds;
