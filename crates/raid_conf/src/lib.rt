//! The configuration of an array: read from a text, and printed.
//!
//! A configuration has these sections, in this order; those of the spares, the queue and the debug
//! lines may be left out:
//!
//! - `START array`: `1 numCol numSpare`, or `numCol numSpare`. The first number counts rows. There
//!   are 1 to 32 columns, and up to 8 spares;
//! - `START disks`: the names of the columns' disks, one a line; `absent` is a missing one;
//! - `START spare`: the names of the spares, one a line;
//! - `START layout`: `sectPerSU 1 1 level`, the sectors of a unit, 1 to 128, two numbers that are 1,
//!   and the level, one of `0 1 4 5 C T D`. At levels T and D a block design of numCol objects comes
//!   behind it: `design b v k r lambda` and b lines of k numbers; `cyclic v : e1 .. ek`; or
//!   `complete v k`;
//! - `START queue`: `fifo number`, which has no effect;
//! - `START debug`: any lines, which are passed over unread.
//!
//! Lines, words, comments and numbers are those of `raid_text`. No name stands there twice but
//! `absent`, and names have at most 255 bytes. (raidctl(8) describes such files.)
//!
//! `AnyLayout` is the layout that a configuration describes.
#![tactic(auto)]

mod any_fault;
mod codes;
mod conf;
mod counts;
mod design_lines;
mod designs;
mod fault;
mod given;
mod laws;
mod layouts;
mod make;
mod memory;
mod name_lines;
mod names;
mod numbers;
mod parameters;
mod plain;
mod print;
mod reader;
mod role;
mod sections;
mod tables;

pub use any_fault::AnyFault;
pub use conf::Conf;
pub use fault::ConfFault;
pub use given::Given;
pub use laws::{
    conf_is_of_the_form, conf_is_read, conf_text_is_printed_again, conf_text_is_read,
    spare_places_lie_by_units,
};
pub use layouts::AnyLayout;
pub use memory::Memory;
pub use names::Names;
pub use numbers::Numbers;
pub use parameters::Parameters;
pub use print::print_conf;
pub use reader::read_conf;
pub use tables::{design_parameters, table_rows, table_stripes};
