//! One text for each way to be refused, and for each order of two faults in a line.
use crate::graphs;
use crate::judging::same;
use graph_text::Book;
use raid_script::{ScriptFault, read_script};
use std::alloc::{AllocError, Global};
use std::process::Abort;
use std::test::Fail;

// Why a script for five columns isn't read, or line 0 where it is.
fn refusal(rt: &impl Abort, alloc: Global, text: &[u8], book: &Book) -> (u32, u8) {
    assert!(rt; text.len() < 10_000_000);
    match read_script(alloc, text, book, 5) {
        Ok(_) => (0, 0),
        Err(ScriptFault::At { line, code }) => (line, code),
        Err(ScriptFault::Memory) => (0, 9),
    }
}

// A graph of the name `g`.
fn one_graph(rt: &impl Abort, alloc: Global) -> Book {
    graphs::read(rt, alloc, b"graph g\nend")
}

// Each line is refused by its code.
fn see(rt: &impl Abort, alloc: Global, rows: &[(&[u8], u8)]) {
    let book = one_graph(rt, alloc);
    for (text, code) in rows {
        same(rt, refusal(rt, alloc, *text, &book), (1, *code));
    }
}

// Lines that have not the words of their kind.
fn see_kinds(rt: &impl Abort, alloc: Global) {
    const ROWS: &[(&[u8], u8)] = &[
        (b"0", 1),
        (b"0 erase 0 1", 1),
        (b"0 Read 0 1", 1),
        (b"0 read", 1),
        (b"0 read 0", 1),
        (b"0 read 0 1 2", 1),
        (b"0 write 0 1", 1),
        (b"0 write 0 1 aa bb", 1),
        (b"0 writes", 1),
        (b"0 writes 0 1", 1),
        (b"0 writes 0 1 aa 3", 1),
        (b"0 writes 0 1 aa 3 1", 1),
        (b"0 use g writes 0 1 aa 3 1", 1),
        (
            b"0 writes 0 1 00 1 1 00 2 1 00 3 1 00 4 1 00 5 1 00 6 1 00 7 1 00 8 1 00",
            1,
        ),
        (b"0 sync", 1),
        (b"0 sync 0 0", 1),
        (b"0 fail", 1),
        (b"0 fail 1 2", 1),
        (b"0 use", 1),
        (b"0 use g", 1),
        (b"0 use g sync 0", 1),
        (b"0 use g fail 0", 1),
        (b"0 use g use g read 0 1", 1),
        (b"0 join", 1),
        (b"0 join g 0 1 aa", 1),
        (b"0 join g 0 1 aa g", 1),
        (b"0 join g 0 1 aa g 1 1", 1),
        (b"0 join g 0 1 aa g 1 1 bb g", 1),
        (b"0 use join write 0 1", 6),
        (b"0 use g read 0 1 2", 1),
        (b"0 read 0 1\r\r", 1),
        (b"0 read 0 1 \x7f", 1),
    ];
    see(rt, alloc, ROWS);
}

// Lines with a word out of its range.
fn see_ranges(rt: &impl Abort, alloc: Global) {
    const ROWS: &[(&[u8], u8)] = &[
        (b"x read 0 1", 2),
        (b"-1 read 0 1", 2),
        (b"0 read x 1", 2),
        (b"0 read 4294967296 1", 2),
        (b"0 read 0 x", 2),
        (b"0 read 0 0", 2),
        (b"0 write 0 0 a5", 2),
        (b"0 writes x 1 aa", 2),
        (b"0 writes 0 1 aa 3 0 bb", 2),
        (b"0 use g writes 0 1 aa x", 2),
        (b"0 use g read 0 00", 2),
        (b"0 sync x", 2),
        (b"0 fail x", 2),
        (b"16 read 0 1", 3),
        (b"4294967295 sync 0", 3),
        (b"0 write 0 1 a", 4),
        (b"0 write 0 1 0g", 4),
        (b"0 write 0 1 abcdef", 4),
        (b"0 use g write 0 1 5", 4),
        (b"0 writes 0 1 a", 4),
        (b"0 writes 0 1 aa 3 1 abcdef", 4),
        (b"0 fail 5", 5),
        (b"0 use h read 0 1", 6),
        (b"0 use G read 0 1", 6),
        (b"0 use gg write 0 1 00", 6),
        (b"0 read 0 262145", 7),
        (b"0 writes 0 2 11 1 1 22", 9),
        (b"0 use g writes 1 1 22 0 2 11", 9),
        (b"0 writes 3 1 00 0 1 11 7 9 22 3 1 33", 9),
        (b"0 join g x 1 aa g 1 1 bb", 2),
        (b"0 join g 0 1 aa g 1 0 bb", 2),
        (b"0 join g 0 1 0g g 1 1 bb", 4),
        (b"0 join g 0 1 aa g 1 1 b", 4),
        (b"0 join h 0 1 aa g 1 1 bb", 6),
        (b"0 join g 0 1 aa h 1 1 bb", 6),
        (b"0 join g 0 2 aa g 1 1 bb", 9),
    ];
    see(rt, alloc, ROWS);
}

#[test]
fn each_code_has_its_lines(rt: HostRuntime) {
    see_kinds(&rt, rt.alloc());
    see_ranges(&rt, rt.alloc());
}

#[test]
fn of_two_faults_the_first_word_is_judged_first(rt: HostRuntime) {
    const ROWS: &[(&[u8], u8)] = &[
        // a byte that no word has, before all words
        (b"16 read 0 0 \x01", 1),
        (b"x \x01", 1),
        // the client
        (b"x erase", 2),
        (b"16 erase", 3),
        (b"16 read x 1", 3),
        (b"16 write 0 1 0g", 3),
        (b"16 fail 5", 3),
        (b"16 use h read 0 1", 3),
        (b"16 read 0 262145", 3),
        // the kind
        (b"0 erase x", 1),
        (b"0 erase h read 0 1", 1),
        // FIRST and COUNT
        (b"0 read x", 2),
        (b"0 read x 0 0", 2),
        (b"0 write 0 0", 2),
        (b"0 write 0 0 0g", 2),
        (b"0 read 0 0 0", 2),
        // PATTERN
        (b"0 write 0 1 0g bb", 4),
        // the words of all spans, before it is judged whether they share a block
        (b"0 writes 0 2 11 1 1", 1),
        (b"0 writes 0 2 11 1 1 22 x", 2),
        (b"0 writes 0 2 11 1 0 22", 2),
        (b"0 writes 0 2 11 1 1 0g", 4),
        (b"16 writes 0 2 11 1 1 22", 3),
        (
            b"0 writes 0 2 00 1 1 00 2 1 00 3 1 00 4 1 00 5 1 00 6 1 00 7 1 00 8",
            1,
        ),
        // COLUMN
        (b"0 fail 5 6", 5),
        (b"0 fail x 6", 2),
        // NAME
        (b"0 use h", 6),
        (b"0 use h erase", 6),
        (b"0 use h read 0 0", 6),
        (b"0 use h write 0 1 0g", 6),
        (b"0 use h writes 0 2 11 1 1 22", 6),
        (b"0 use g erase 0 0", 1),
        (b"0 join h 0 0 aa g 1 1 bb", 6),
        (b"0 join g 0 0 aa h 1 1 bb", 2),
        (b"0 join g 0 2 aa g 1 1 bb x", 1),
        (b"0 join g 1 1 aa g 0 2", 1),
        // the limits, behind the whole line
        (b"0 read 0 262145 1", 1),
        (b"0 use h read 0 262145", 6),
    ];
    see(&rt, rt.alloc(), ROWS);
}

#[test]
fn of_two_lines_the_first_is_refused(rt: HostRuntime) {
    const ROWS: &[(&[u8], u32, u8)] = &[
        (b"0 read 0 1\n\n# x\n0 fail 5\n0 erase\n", 4, 5),
        (b"\r\n\t\n16 sync 0", 3, 3),
        (b"0 read 0 262144\n0 write 0 9 00\n1 read 0 1\n", 3, 7),
        (
            b"0 use g read 0 262143\n1 read 0 1\n2 use g read 0 1\n",
            3,
            7,
        ),
        (b"0 read 0 262144\n1 read 0 1 x\n", 2, 1),
        (b"0 read 0 262144\n1 sync 0\n", 0, 0),
        (b"0 writes 0 2 11 2 1 22\n0 writes 0 2 11 1 1 22", 2, 9),
    ];
    let book = one_graph(&rt, rt.alloc());
    for (text, line, code) in ROWS {
        same(&rt, refusal(&rt, rt.alloc(), *text, &book), (*line, *code));
    }
}

// So many lines of a sync, and a line behind them.
fn many_lines(alloc: Global, count: u32, last: &[u8]) -> Result<Vec<u8>, AllocError> {
    let mut text = Vec::new(alloc);
    for _i in 0..count {
        text.extend_from_slice(b"0 sync 0\n")?;
    }
    text.extend_from_slice(last)?;
    Ok(text)
}

#[test]
fn there_are_at_most_65536_items(rt: HostRuntime) -> Result<(), Fail> {
    const ROWS: &[(&[u8], u32, u8)] = &[
        (b"", 0, 0),
        (b"1 sync 0", 65_537, 7),
        (b"16 sync 0", 65_537, 3),
        (b"1 writes 0 2 11 1 1 22", 65_537, 9),
        (b"1 writes 0 1 11 1 1 22", 65_537, 7),
    ];
    let book = one_graph(&rt, rt.alloc());
    for (last, line, code) in ROWS {
        let text = many_lines(rt.alloc(), 65_536, *last)?;
        same(&rt, refusal(&rt, rt.alloc(), &text, &book), (*line, *code));
    }
    Ok(())
}

// So many lines that join two graphs, and a line behind them.
fn many_joins(alloc: Global, count: u32, last: &[u8]) -> Result<Vec<u8>, AllocError> {
    let mut text = Vec::new(alloc);
    for _i in 0..count {
        text.extend_from_slice(b"0 join g 0 1 aa g 1 1 bb\n")?;
    }
    text.extend_from_slice(last)?;
    Ok(text)
}

// The 65th is judged behind the words and the spans of its line, and before the limits of items and sectors.
#[test]
fn there_are_at_most_64_join_lines(rt: HostRuntime) -> Result<(), Fail> {
    const ROWS: &[(&[u8], u32, u8)] = &[
        (b"", 0, 0),
        (b"1 writes 0 1 aa 1 1 bb", 0, 0),
        (b"1 join g 0 1 aa g 1 1 bb", 65, 13),
        (b"1 join g 0 1 aa g 1 1 bb g", 65, 1),
        (b"1 join g 0 1 aa h 1 1 bb", 65, 6),
        (b"1 join g 0 1 aa g 0 1 bb", 65, 9),
        (b"0 read 0 262144\n1 join g 0 1 aa g 1 1 bb", 66, 13),
        (b"0 read 0 262144\n0 read 0 1", 66, 7),
    ];
    let book = one_graph(&rt, rt.alloc());
    for (last, line, code) in ROWS {
        let text = many_joins(rt.alloc(), 64, *last)?;
        same(&rt, refusal(&rt, rt.alloc(), &text, &book), (*line, *code));
    }
    Ok(())
}
