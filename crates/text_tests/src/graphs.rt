//! What no clause can show: that there is memory, and that a file which people write is what the
//! definition speaks of.

mod limits;
mod printing;
mod reading;

use graph_text::{Book, read_graphs};
use std::alloc::Global;
use std::process::Abort;

// A large write of one block of the first of two data units.
pub const LARGE: &[u8] =
    b"graph large\nbuffer 0 stripe 0 from 0 count 1 new 0\nbuffer 1 stripe 0 from 0 count 1\nbuffer 2 stripe 0 from 0 count 1\nnode 0 read 1 1\nnode 1 xor 2 1 0 after 0\nnode 2 commit after 0 1\nnode 3 write 0 0 after 2\nnode 4 write 2 2 after 2\nnode 5 terminate after 3 4\nend\n";

// The graphs of a short text.
pub fn read(rt: &impl Abort, alloc: Global, text: &[u8]) -> Book {
    assert!(rt; text.len() < 1_000);
    read_graphs(alloc, text).expect(rt, "graphs")
}
