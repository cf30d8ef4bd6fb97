//! Graphs that are printed, and read again.
ghost use Rattle.std.specs.Prelude.{◌≡◌, ◌∷◌, [], IsTrue, MatchResult};
ghost use Rattle.graph_text.specs.Format.{is_name};
ghost use Rattle.graph_text.specs.FormatForm.{IsInLimits};
ghost use Rattle.graph_text.specs.declared.fault.BookFault.TheVariants.{Memory as NoMemory};

use crate::graphs::{LARGE, read};
use crate::judging::same;
use crate::texts::joined;
use graph_mean::Graph;
use graph_mean::samples::large_write;
use graph_text::{Book, BookFault, print_graph, read_graphs};
use std::alloc::Global;
use std::process::Abort;
use std::test::Fail;

// A graph with each kind of line and of node, as someone might write it.
const LOOSE: &[u8] =
    b"\n graph\tz-0_9 # each kind\nbuffer 0 stripe 01 from 2 count 003 new 4\nbuffer 1 stripe 0 from 4294967295 count 0000000000\n\nnode 0 read 5 1\nnode 1 xor 00\nnode 2 xor 0 1 1 after 01\nnode 3 xor 1 after 0\r\nnode 4 write 6 0 after 0 2 3 # both\nnode 5 commit\nnode 6 terminate after 5 4\nreturn 7 1\nreturn\t8 00\n  end";

// The same graph, as it is printed.
const EACH: &[u8] =
    b"graph z-0_9\nbuffer 0 stripe 1 from 2 count 3 new 4\nbuffer 1 stripe 0 from 4294967295 count 0\nnode 0 read 5 1\nnode 1 xor 0\nnode 2 xor 0 1 1 after 1\nnode 3 xor 1 after 0\nnode 4 write 6 0 after 0 2 3\nnode 5 commit\nnode 6 terminate after 5 4\nreturn 7 1\nreturn 8 0\nend\n";

// Prints a graph of this name and reads the text, which gives that graph.
fn reread(alloc: Global, name: &[u8], graph: &Graph) -> Result<Book, BookFault>
    requires named { IsTrue (is_name name.now) }
    requires limits { IsInLimits graph.now.drawn }
    ensures { MatchResult result (λ book. book ≡ record { name = name.now; graph = graph.now.drawn } ∷ []) (λ fault. fault ≡ NoMemory) }
{
    let mut text = Vec::new(alloc);
    match print_graph(alloc, name, graph, &mut text) {
        Ok(()) => {}
        Err(_) => return Err(BookFault::Memory),
    }
    read_graphs(alloc, &text)
}

// Prints a graph of this name behind a text.
fn push(alloc: Global, name: &[u8], graph: &Graph, text: &mut Vec<u8>) -> Result<(), Fail> {
    print_graph(alloc, name, graph, text)?;
    Ok(())
}

// The large write is printed behind a line.
fn see_behind(rt: &impl Abort, alloc: Global, graph: &Graph) -> Result<(), Fail> {
    let mut text = Vec::from_slice(alloc, b"# one\n")?;
    push(alloc, b"large", graph, &mut text)?;
    let want = joined(alloc, &[b"# one\n", LARGE])?;
    same(rt, text.as_slice(), want.as_slice());
    Ok(())
}

#[test]
#[tactic(auto, unfolding(graph_text::specs::Format::is_name))]
fn a_graph_is_printed_behind_what_stands_there(rt: HostRuntime) -> Result<(), Fail> {
    let alloc = rt.alloc();
    let graph = large_write(alloc)?;
    see_behind(&rt, alloc, &graph)?;
    let book = reread(alloc, b"large", &graph).expect(&rt, "a graph");
    same(&rt, book.find(b"large"), Some(0));
    Ok(())
}

// The name is that of a book's graph in this place, which is printed behind a text.
fn reprint(
    rt: &impl Abort,
    alloc: Global,
    book: &Book,
    name: &[u8],
    place: u32,
    text: &mut Vec<u8>,
) -> Result<(), Fail> {
    same(rt, book.find(name), Some(place));
    assert!(rt; place < book.count());
    push(alloc, name, book.graph(place), text)
}

#[test]
fn what_is_printed_is_read_and_printed_the_same(rt: HostRuntime) -> Result<(), Fail> {
    let alloc = rt.alloc();
    const ROWS: &[(&[u8], &[u8], &[u8])] = &[
        (LARGE, b"large", LARGE),
        (LOOSE, b"z-0_9", EACH),
        (EACH, b"z-0_9", EACH),
    ];
    for row in ROWS {
        let (text, name, want) = *row;
        let book = read(&rt, alloc, text);
        same(&rt, book.count(), 1);
        let mut printed = Vec::new(alloc);
        reprint(&rt, alloc, &book, name, 0, &mut printed)?;
        same(&rt, printed.as_slice(), want);
    }
    Ok(())
}

#[test]
fn graphs_that_are_printed_in_turn_are_one_file(rt: HostRuntime) -> Result<(), Fail> {
    let alloc = rt.alloc();
    let graph = large_write(alloc)?;
    let mut text = Vec::new(alloc);
    push(alloc, b"a", &graph, &mut text)?;
    push(alloc, b"b", &graph, &mut text)?;
    let book = read(&rt, alloc, &text);
    same(&rt, book.count(), 2);
    let mut printed = Vec::new(alloc);
    reprint(&rt, alloc, &book, b"a", 0, &mut printed)?;
    reprint(&rt, alloc, &book, b"b", 1, &mut printed)?;
    same(&rt, printed.as_slice(), text.as_slice());
    Ok(())
}
