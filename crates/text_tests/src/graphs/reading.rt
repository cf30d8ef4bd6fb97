//! Files that are read, and one text for each way to be refused.
use crate::graphs::{LARGE, read};
use crate::judging::{same, same_at};
use crate::texts::joined;
use graph_mean::{Buf, Graph, Node, Ret};
use graph_text::{Book, BookFault, read_graphs};
use std::alloc::{AllocError, Global};
use std::process::Abort;
use std::test::Fail;

// The same graph, as someone else might write it.
const LOOSE: &[u8] =
    b"# a large write\r\n\n\tgraph  large\r\nbuffer 00 stripe 0000000000 from 0 count 01 new 0 # the new data\n buffer\t1 stripe 0 from 0 count 1\nbuffer 2 stripe 0 from 0 count 1\t\n\nnode 0 read 1 1#\xff\nnode 1 xor 2 1 0 after 0\nnode 2 commit after 0 1\n#\nnode 3 write 0 0 after 2\nnode 4 write 2 2 after 2\nnode 5 terminate after 3 4\nend\r";

// Why a short text isn't read, or line 0 where it is.
pub(super) fn refusal(rt: &impl Abort, alloc: Global, text: &[u8]) -> (u32, u8) {
    assert!(rt; text.len() < 1_000_000);
    match read_graphs(alloc, text) {
        Ok(_) => (0, 0),
        Err(BookFault::At { line, code }) => (line, code),
        Err(BookFault::Memory) => (0, 9),
    }
}

// Each name is found in its place, or isn't.
fn see_names(rt: &impl Abort, book: &Book, rows: &[(&[u8], Option<u32>)]) {
    for (name, place) in rows {
        same_at(rt, *name, book.find(*name), *place);
    }
}

fn see_work(rt: &impl Abort, graph: &Graph, i: u32, node: Node) {
    assert!(rt; i < graph.nodes());
    same_at(rt, i, graph.node(i), node);
}

fn see_sources(rt: &impl Abort, graph: &Graph, i: u32, sources: &[u32]) {
    assert!(rt; i < graph.nodes());
    same_at(rt, i, graph.sources(i), sources);
}

// A node's antecedents are these.
fn see_antes(rt: &impl Abort, graph: &Graph, i: u32, antes: &[u32]) {
    assert!(rt; i < graph.nodes());
    same_at(rt, i, graph.antes(i), antes);
}

fn see_node(rt: &impl Abort, graph: &Graph, i: u32, node: Node, sources: &[u32], antes: &[u32]) {
    see_work(rt, graph, i, node);
    see_sources(rt, graph, i, sources);
    see_antes(rt, graph, i, antes);
}

// A buffer of one sector is filled so.
fn see_buf(rt: &impl Abort, graph: &Graph, i: u32, new_of: Option<u32>) {
    assert!(rt; i < graph.bufs());
    let wanted = Buf {
        stripe: 0,
        from: 0,
        count: 1,
        new_of,
    };
    same_at(rt, i, graph.buf(i), wanted);
}

fn see_large(rt: &impl Abort, graph: &Graph) {
    same(rt, (graph.nodes(), graph.bufs(), graph.rets()), (6, 3, 0));
    see_buf(rt, graph, 0, Some(0));
    see_buf(rt, graph, 1, None);
    see_buf(rt, graph, 2, None);
    see_node(rt, graph, 0, Node::Rd { unit: 1, buf: 1 }, &[], &[]);
    see_node(rt, graph, 1, Node::Xor { to: 2 }, &[1, 0], &[0]);
    see_node(rt, graph, 2, Node::Cmt, &[], &[0, 1]);
    see_node(rt, graph, 3, Node::Wr { unit: 0, buf: 0 }, &[], &[2]);
    see_node(rt, graph, 4, Node::Wr { unit: 2, buf: 2 }, &[], &[2]);
    see_node(rt, graph, 5, Node::Trm, &[], &[3, 4]);
}

#[test]
fn a_file_is_read_as_its_graphs(rt: HostRuntime) -> Result<(), Fail> {
    for text in [LARGE, LOOSE] {
        let book = read(&rt, rt.alloc(), text);
        assert!(rt; book.count() == 1);
        see_names(&rt, &book, &[(b"large", Some(0)), (b"larg", None)]);
        see_large(&rt, book.graph(0));
    }
    Ok(())
}

// The graph returns a buffer of the last unit.
fn see_return(rt: &impl Abort, graph: &Graph) {
    assert!(rt; graph.rets() == 1);
    let wanted = Ret {
        unit: 4_294_967_295,
        buf: 7,
    };
    same(rt, graph.ret(0), wanted);
}

// The graph is a sum of nothing.
fn see_sum(rt: &impl Abort, graph: &Graph) {
    same(rt, graph.nodes(), 1);
    see_node(rt, graph, 0, Node::Xor { to: 3 }, &[], &[]);
}

#[test]
fn graphs_are_found_by_their_names(rt: HostRuntime) -> Result<(), Fail> {
    let text =
        b"graph b\nreturn 4294967295 7\nend\ngraph 0-9_az\nnode 0 xor 3\nend\ngraph abcdefghijklmnopqrstuvwxyz012345\nend";
    let book = read(&rt, rt.alloc(), text);
    same(&rt, book.count(), 3);
    const ROWS: &[(&[u8], Option<u32>)] = &[
        (b"b", Some(0)),
        (b"0-9_az", Some(1)),
        (b"abcdefghijklmnopqrstuvwxyz012345", Some(2)),
        (b"", None),
    ];
    see_names(&rt, &book, ROWS);
    let graphs = book.into_graphs();
    assert!(rt; graphs.len() == 3);
    see_return(&rt, &graphs[0]);
    see_sum(&rt, &graphs[1]);
    let empty = &graphs[2];
    same(&rt, (empty.nodes(), empty.bufs(), empty.rets()), (0, 0, 0));
    Ok(())
}

#[test]
fn lines_between_graphs_are_refused(rt: HostRuntime) {
    const ROWS: &[(&[u8], u32, u8)] = &[
        (b"", 0, 0),
        (b"\n# no graph\n", 0, 0),
        (b"graph g\nend", 0, 0),
        (b"graf g", 1, 1),
        (b"end", 1, 1),
        (b"\n# a\n\ngraph", 4, 1),
        (b"graph G", 1, 1),
        (b"graph a.b", 1, 1),
        (b"graph abcdefghijklmnopqrstuvwxyz0123456", 1, 1),
        (b"graph g h", 1, 1),
        (b"graph g\x7f", 1, 1),
        (b"graph g\r\r\nend", 1, 1),
        (
            b"graph g\nend\ngraph h\nend\nbuffer 0 stripe 0 from 0 count 1",
            5,
            1,
        ),
        (b"graph g\nend\ngraph g", 3, 4),
        (b"graph g\nend\n\ngraph h\nend\ngraph g h", 6, 4),
    ];
    for (text, line, code) in ROWS {
        same_at(&rt, *text, refusal(&rt, rt.alloc(), *text), (*line, *code));
    }
}

// Why a graph with this second line isn't read.
fn with_second(rt: &impl Abort, alloc: Global, line: &str) -> Result<(u32, u8), AllocError> {
    let text = joined(alloc, &[b"graph g\n", line.as_bytes(), b"\nend\n"])?;
    Ok(refusal(rt, alloc, &text))
}

// Each line is the second of a graph.
fn see_second(rt: &impl Abort, alloc: Global, lines: &[&str], code: u8) -> Result<(), AllocError> {
    let want = if code == 0 { 0 } else { 2 };
    for line in lines {
        same_at(rt, *line, with_second(rt, alloc, *line)?, (want, code));
    }
    Ok(())
}

#[test]
fn lines_of_a_graph_are_read(rt: HostRuntime) -> Result<(), Fail> {
    const LINES: &[&str] = &[
        "buffer 0 stripe 1 from 2 count 3",
        "buffer 0 stripe 4294967295 from 4294967295 count 0 new 4294967295",
        "node 0 read 9 9 after 9",
        "node 0 write 0 0",
        "node 0 xor 0",
        "node 0 xor 0 after 0",
        "node 0 xor 0 1 1 2 after 0 0",
        "node 0 commit",
        "node 0 terminate after 0",
        "return 0 0",
        "# no line",
    ];
    see_second(&rt, rt.alloc(), LINES, 0)?;
    Ok(())
}

#[test]
fn words_that_a_line_doesnt_have_are_code_1(rt: HostRuntime) -> Result<(), Fail> {
    const LINES: &[&str] = &[
        "graph h",
        "Buffer 0 stripe 0 from 0 count 1",
        "buffer",
        "buffer 0",
        "buffer 0 strip 0 from 0 count 1",
        "buffer 0 stripe",
        "buffer 0 stripe 0 count 1 from 0",
        "buffer 0 stripe 0 from 0 count",
        "buffer 0 stripe 0 from 0 count 1 old 0",
        "buffer 0 stripe 0 from 0 count 1 new",
        "buffer 0 stripe 0 from 0 count 1 new 0 0",
        "node",
        "node 0",
        "node 0 sync",
        "node 0 read 0",
        "node 0 write 0",
        "node 0 read 0 0 0",
        "node 0 read 0 0 after",
        "node 0 xor",
        "node 0 xor 0 after",
        "node 0 commit 0",
        "node 0 commit after",
        "node 0 terminate 0",
        "return",
        "return 0",
        "return 0 0 0",
        "end 0",
        "node 0 commit\u{7}",
    ];
    see_second(&rt, rt.alloc(), LINES, 1)?;
    Ok(())
}

#[test]
fn words_that_are_no_number_are_code_2(rt: HostRuntime) -> Result<(), Fail> {
    const LINES: &[&str] = &[
        "buffer x",
        "buffer 00000000000 stripe 0 from 0 count 1",
        "buffer 0 stripe -1",
        "buffer 0 stripe 0 from 4294967296 count 1",
        "buffer 0 stripe 0 from 0 count one",
        "buffer 0 stripe 0 from 0 count 1 new new",
        "node one",
        "node 0 read x 0",
        "node 0 write 0 after",
        "node 0 xor after 0",
        "node 0 xor 0 1 x after 0",
        "node 0 xor 0 1 Xfter",
        "node 0 xor 0 1 after x",
        "node 0 commit after 0 after 0",
        "return x 0",
        "return 0 x 0",
    ];
    see_second(&rt, rt.alloc(), LINES, 2)?;
    Ok(())
}

#[test]
fn a_number_that_isnt_the_next_is_code_3(rt: HostRuntime) -> Result<(), Fail> {
    const LINES: &[&str] = &[
        "buffer 1 stripe 0 from 0 count 1",
        "buffer 1",
        "node 1 commit",
        "node 4294967295 x",
    ];
    const TEXTS: &[(&[u8], u32)] = &[
        (
            b"graph g\nbuffer 0 stripe 0 from 0 count 1\nbuffer 0 stripe 0 from 0 count 1",
            3,
        ),
        (
            b"graph g\nbuffer 0 stripe 0 from 0 count 1\nnode 1 commit",
            3,
        ),
        (b"graph g\nnode 0 commit\nend\ngraph h\nnode 1 commit", 5),
    ];
    see_second(&rt, rt.alloc(), LINES, 3)?;
    for (text, line) in TEXTS {
        same_at(&rt, *text, refusal(&rt, rt.alloc(), *text), (*line, 3));
    }
    Ok(())
}

#[test]
fn lines_out_of_order_are_code_1(rt: HostRuntime) -> Result<(), Fail> {
    const LINES: &[(&str, &str)] = &[
        ("node 0 commit", "buffer x"),
        ("return 0 0", "buffer 0 stripe 0 from 0 count 1"),
        ("return 0 0", "node x"),
    ];
    for row in LINES {
        let (first, second) = *row;
        let parts = [
            b"graph g\n".as_slice(),
            first.as_bytes(),
            b"\n\n",
            second.as_bytes(),
            b"\nend\n",
        ];
        let text = joined(rt.alloc(), &parts)?;
        same_at(&rt, second, refusal(&rt, rt.alloc(), &text), (4, 1));
    }
    Ok(())
}

// How many bytes 10 a text has.
fn ends_in(text: &[u8]) -> u32 {
    let mut ends: u32 = 0;
    for byte in text {
        if *byte == b'\n' {
            ends = ends.saturating_add(1);
        }
    }
    ends
}

// How many lines a text has; an empty piece behind its last byte 10 is none.
fn lines_in(text: &[u8]) -> u32 {
    let ends = ends_in(text);
    if text.ends_with(b"\n") {
        ends
    } else {
        ends.saturating_add(1)
    }
}

#[test]
fn a_file_cut_at_each_byte_is_refused_at_its_end(rt: HostRuntime) {
    for end in 1..LARGE.len() - 1 {
        let text = &LARGE[..end];
        let (line, code) = refusal(&rt, rt.alloc(), text);
        let last = lines_in(text);
        let within = code == 6 && line == last.saturating_add(1);
        let broken = (1..=3).contains(&code) && line == last;
        same_at(&rt, (end, line, code), within || broken, true);
    }
    same(&rt, refusal(&rt, rt.alloc(), b""), (0, 0));
}

// The place behind the first so many lines.
fn behind(text: &[u8], lines: usize) -> usize {
    let mut seen: usize = 0;
    for (i, byte) in text.iter().enumerate() {
        if seen == lines {
            return i;
        }
        if *byte == b'\n' {
            seen = seen.saturating_add(1);
        }
    }
    text.len()
}

// Why the large write isn't read, or line 0 where it is, where so many bytes are cut from the end of its first lines.
fn cut(rt: &impl Abort, alloc: Global, lines: usize, bytes: usize) -> (u32, u8) {
    let end = behind(LARGE, lines);
    assert!(rt; bytes < end && end <= LARGE.len());
    refusal(rt, alloc, &LARGE[..end - bytes])
}

fn see_last_cut(rt: &impl Abort, alloc: Global) {
    same(rt, behind(LARGE, 11), LARGE.len());
    const CUTS: &[(usize, (u32, u8))] = &[(1, (0, 0)), (2, (11, 1)), (4, (11, 6))];
    for row in CUTS {
        let (bytes, at) = *row;
        same_at(rt, bytes, cut(rt, alloc, 11, bytes), at);
    }
}

// Two short texts end within a graph.
fn see_short(rt: &impl Abort, alloc: Global) {
    const TEXTS: &[(&[u8], (u32, u8))] = &[
        (b"graph g\n\n# more\n", (4, 6)),
        (b"graph g\nbuffer 0 stripe 0 fr", (2, 1)),
    ];
    for row in TEXTS {
        let (text, at) = *row;
        same_at(rt, text, refusal(rt, alloc, text), at);
    }
}

#[test]
fn a_cut_file_is_refused_behind_its_last_line(rt: HostRuntime) {
    for lines in 1..11 {
        let at = (lines as u32 + 1, 6);
        same(&rt, cut(&rt, rt.alloc(), lines, 0), at);
        same(&rt, cut(&rt, rt.alloc(), lines, 1), at);
    }
    see_last_cut(&rt, rt.alloc());
    see_short(&rt, rt.alloc());
}
