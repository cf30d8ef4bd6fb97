//! Which arrays the components of a list make up, told by their labels.
//!
//! [`scan`] reads a text of names, one a line, and sector 0 of the device of each name. A device is taken, read and
//! put back before the next one is taken, and nothing is written. [`put_scan`] prints the arrays, and what each
//! component is.
//!
//! A line is refused where a byte stands on it that no word has (code 1), where its name stands already or is longer
//! than 255 bytes (code 7), where another word stands behind it (code 1), and where its name is the 1,025th (code 13).
//! Of several the first in this order counts.
#![tactic(auto)]

mod lines;
mod list;
mod looking;
mod members;
mod named;
mod scanning;
mod sets;

pub use lines::put_scan;
pub use scanning::{Scanned, scan};
