//! Lines of output: a line is put together of its pieces, and put by one call of a sink; and pages, by which a sink gets
//! the lines.
//!
//! Pieces are bytes, numbers in decimal and bytes in hexadecimal. A line stands in room of its own,
//! so that it takes no memory, and nothing of it is put before it is whole.
#![tactic(auto)]

mod page;
mod paging;
mod text_line;

pub use page::{Room, page_room};
pub use paging::{Prints, put_by_pages};
pub use text_line::Line;
