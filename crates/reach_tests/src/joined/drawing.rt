//! Graphs by the lines in which they differ from the large write of docs/GRAPHS.md.
use graph_text::{Book, read_graphs};
use std::alloc::Global;
use std::process::Abort;
use std::test::Fail;

// The lines of the large write.
const LARGE: &[&str] = &[
    "graph large",
    "buffer 0 stripe 0 from 0 count 1 new 0",
    "buffer 1 stripe 0 from 0 count 1",
    "buffer 2 stripe 0 from 0 count 1",
    "node 0 read 1 1",
    "node 1 xor 2 1 0 after 0",
    "node 2 commit after 0 1",
    "node 3 write 0 0 after 2",
    "node 4 write 2 2 after 2",
    "node 5 terminate after 3 4",
    "end",
];

// What stands at a line: what it is changed to, or what the large write has there.
fn line_at<'a>(changes: &[(usize, &'a str)], at: usize, own: &'a str) -> &'a str {
    for change in changes {
        if change.0 == at {
            return change.1;
        }
    }
    own
}

/// A file of the large write, with these lines, counted from 0, changed.
pub(super) fn large_with(
    rt: &impl Abort,
    alloc: Global,
    changes: &[(usize, &str)],
) -> Result<Book, Fail> {
    let mut text = String::new(alloc);
    for (at, line) in LARGE.iter().enumerate() {
        text.push_str(line_at(changes, at, *line))?;
        text.push_str("\n")?;
    }
    assert!(rt; text.len() <= 16_777_216);
    let book = read_graphs(alloc, text.as_bytes())?;
    Ok(book)
}
