//! Labels: what stands in sector 0 of each component of a labelled array.
//!
//! A label is the eight bytes `RFLABEL1`, thirteen numbers of four bytes, the lowest byte first, in
//! the order of the fields of `Label`, a byte for the seat of each of 32 columns, the two numbers of
//! the column that is filling, and zeros to the end of the sector. A sector is well formed where the
//! eight bytes are right, the clean field is 0 or 1, the version is 1 or 2, and the zeros are there;
//! one of version 1 has zeros for the two numbers too, and one of version 2 names a column that there
//! is, or none, of which no stripe is done then.
//!
//! No call takes memory.
#![tactic(auto)]

mod fault;
mod judging;
mod label;
mod laws;
mod read;
mod write;

pub use fault::LabelFault;
pub use judging::{fault_of_version, judge};
pub use label::Label;
pub use laws::{held_labels_are_written, written_labels_are_read};
pub use read::{found_version, read_label};
pub use write::write_label;
