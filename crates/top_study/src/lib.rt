//! What is told of a configuration alone: its layout, over so many rows.
//!
//! [`study_in`] reads the configuration and makes what is asked of it, and [`put_studied`] prints
//! that. No device is taken.
#![tactic(auto)]

mod rows;
mod studying;

pub use studying::{Studied, put_studied, study_in};
