//! Scripts that are read.
use crate::graphs;
use crate::judging::{holds, same, same_at};
use blk_plain::{Op, Patch, Patches, Pattern, Span};
use eng_world::Item;
use graph_text::{Book, read_graphs};
use item_list::Items;
use raid_script::{Join, Memory, ScriptFault, generate, read_script};
use std::alloc::Global;
use std::process::Abort;
use std::test::Fail;

// The pattern of two bytes, or of one where the second is none.
fn pattern(first: u8, second: Option<u8>) -> Pattern {
    let mut bytes = [0u8; 32];
    bytes[0] = first;
    match second {
        Some(byte) => {
            bytes[1] = byte;
            Pattern { len: 2, bytes }
        }
        None => Pattern { len: 1, bytes },
    }
}

fn read(first: u64, count: u32, graph: Option<u32>) -> Item {
    let span = Span { first, count };
    Item::Run {
        op: Op::Read { span },
        graph,
    }
}

fn write(first: u64, count: u32, pattern: Pattern, graph: Option<u32>) -> Item {
    let span = Span { first, count };
    Item::Run {
        op: Op::Write { span, pattern },
        graph,
    }
}

fn see(rt: &impl Abort, clients: &[Items], client: usize, items: &[Item]) {
    assert!(rt; client < clients.len());
    let own = &clients[client];
    assert!(rt; own.len() == items.len());
    for at in 0..items.len() {
        same_at(rt, at, own.get(at), items[at]);
    }
}

// The items of each client in a short text.
fn items(rt: &impl Abort, alloc: Global, text: &[u8], book: &Book, columns: u32) -> Vec<Items> {
    assert!(rt; text.len() < 1_000);
    read_script(alloc, text, book, columns)
        .expect(rt, "a script")
        .clients()
}

// Each kind of line, loosely written.
const LOOSE: &[u8] =
    b"# a script\r\n\n1 write 5 3 a5F0\r\n0 read 0 1\n\t1 \t use h  read 7 2# by the second graph\n3 use g write 4294967295 4294967295 00\n01 sync 9\n0 fail 4\n15 read 0000000002 01";

#[test]
fn each_kind_of_line_is_read(rt: HostRuntime) -> Result<(), Fail> {
    let book = graphs::read(&rt, rt.alloc(), b"graph g\nend\ngraph h\nend\n");
    let clients = items(&rt, rt.alloc(), LOOSE, &book, 5);
    same(&rt, clients.len(), 16);
    see(
        &rt,
        &clients,
        0,
        &[read(0, 1, None), Item::Fail { column: 4 }],
    );
    see(
        &rt,
        &clients,
        1,
        &[
            write(5, 3, pattern(0xa5, Some(0xf0)), None),
            read(7, 2, Some(1)),
            Item::Run {
                op: Op::Sync { stripe: 9 },
                graph: None,
            },
        ],
    );
    see(&rt, &clients, 2, &[]);
    let most = u64::from(u32::MAX);
    see(
        &rt,
        &clients,
        3,
        &[write(most, u32::MAX, pattern(0, None), Some(0))],
    );
    see(&rt, &clients, 15, &[read(2, 1, None)]);
    Ok(())
}

// What a write of several spans writes, and by which graph.
fn written(item: &Item) -> Option<(Patches, Option<u32>)> {
    match item {
        Item::Run {
            op: Op::Writes { patches },
            graph,
        } => Some((*patches, *graph)),
        Item::Run { .. } | Item::Fail { .. } => None,
    }
}

// These patches are in use.
fn see_patches(rt: &impl Abort, patches: &Patches, wanted: &[Patch]) {
    assert!(rt; wanted.len() <= 8);
    same(rt, usize::from(patches.used), wanted.len());
    for i in 0..wanted.len() {
        same_at(rt, i, patches.list[i], wanted[i]);
    }
}

// A client's one item writes these spans.
fn see_spans(
    rt: &impl Abort,
    clients: &[Items],
    client: usize,
    graph: Option<u32>,
    wanted: &[Patch],
) {
    assert!(rt; client < clients.len());
    let own = &clients[client];
    assert!(rt; own.len() == 1);
    match written(&own.get(0)) {
        Some((patches, by)) => {
            same(rt, by, graph);
            see_patches(rt, &patches, wanted);
        }
        None => holds(rt, false),
    }
}

fn patch(first: u64, count: u32, pattern: Pattern) -> Patch {
    let span = Span { first, count };
    Patch { span, pattern }
}

// Two spans; eight that touch each other, in descending order; and one alone.
const SPANS: &[u8] =
    b"0 writes 0 1 11 3 1 22\n1 writes 7 1 07 6 1 06 5 1 05 4 1 04 3 1 03 2 1 02 1 1 01 0 1 00\n2 use g writes 4294967295 4294967295 a5F0 # alone\n";

#[test]
fn a_write_of_up_to_eight_spans_is_read(rt: HostRuntime) -> Result<(), Fail> {
    let book = graphs::read(&rt, rt.alloc(), b"graph g\nend\n");
    let clients = items(&rt, rt.alloc(), SPANS, &book, 5);
    let two = [
        patch(0, 1, pattern(0x11, None)),
        patch(3, 1, pattern(0x22, None)),
    ];
    see_spans(&rt, &clients, 0, None, &two);
    let mut eight = [patch(0, 1, pattern(0, None)); 8];
    for i in 0..8u8 {
        eight[usize::from(i)] = patch(u64::from(7 - i), 1, pattern(7 - i, None));
    }
    see_spans(&rt, &clients, 1, None, &eight);
    let most = patch(u64::from(u32::MAX), u32::MAX, pattern(0xa5, Some(0xf0)));
    see_spans(&rt, &clients, 2, Some(0), &[most]);
    Ok(())
}

// A short text is a script that asks for nothing.
fn see_nothing(rt: &impl Abort, alloc: Global, text: &[u8], book: &Book) {
    assert!(rt; text.len() < 100);
    let clients = items(rt, alloc, text, book, 2);
    same(rt, clients.len(), 16);
    see(rt, &clients, 0, &[]);
    see(rt, &clients, 15, &[]);
}

#[test]
fn a_text_without_a_line_is_a_script(rt: HostRuntime) -> Result<(), Fail> {
    let book = graphs::read(&rt, rt.alloc(), b"");
    see_nothing(&rt, rt.alloc(), b"", &book);
    see_nothing(&rt, rt.alloc(), b"\n \n# nothing\n", &book);
    Ok(())
}

#[test]
fn a_name_is_that_of_a_graph(rt: HostRuntime) -> Result<(), Fail> {
    let text = b"0 read 0 1\n0 use g read 0 1";
    let none = graphs::read(&rt, rt.alloc(), b"");
    let other = graphs::read(&rt, rt.alloc(), b"graph f\nend");
    for book in [&none, &other] {
        let is = read_script(rt.alloc(), text, book, 2).err();
        same(&rt, is, Some(ScriptFault::At { line: 2, code: 6 }));
    }
    let both = graphs::read(&rt, rt.alloc(), b"graph f\nend\ngraph g\nend");
    let clients = items(&rt, rt.alloc(), text, &both, 2);
    same(&rt, clients.len(), 16);
    see(&rt, &clients, 0, &[read(0, 1, None), read(0, 1, Some(1))]);
    Ok(())
}

// The items of join lines name the graphs behind those of the file, in the order of the lines.
#[test]
fn join_lines_name_graphs_behind_those_of_the_file(rt: HostRuntime) -> Result<(), Fail> {
    let book = graphs::read(&rt, rt.alloc(), b"graph f\nend\ngraph g\nend");
    let text =
        b"1 join g 4 2 a5 f 9 1 b6\n# nothing\n0 read 0 1\n2 join f 0 1 00 f 7 1 11\n".as_slice();
    let script = read_script(rt.alloc(), text, &book, 2).expect(&rt, "a script");
    let joins = [
        Join {
            line: 1,
            first: 1,
            second: 0,
        },
        Join {
            line: 4,
            first: 0,
            second: 0,
        },
    ];
    same(&rt, script.joins(), joins.as_slice());
    let clients = script.clients();
    same(&rt, clients.len(), 16);
    see(&rt, &clients, 0, &[read(0, 1, None)]);
    let first = [
        patch(4, 2, pattern(0xa5, None)),
        patch(9, 1, pattern(0xb6, None)),
    ];
    see_spans(&rt, &clients, 1, Some(2), &first);
    let second = [
        patch(0, 1, pattern(0, None)),
        patch(7, 1, pattern(0x11, None)),
    ];
    see_spans(&rt, &clients, 2, Some(3), &second);
    Ok(())
}

// Three clients have four items each, or there is no memory.
fn see_drawn(rt: &impl Abort, alloc: Global) {
    match generate(alloc, 9, 3, 4, 100) {
        Ok(script) => {
            let clients = script.clients();
            assert!(rt; clients.len() == 3);
            same(rt, clients[2].len(), 4);
        }
        Err(Memory) => {}
    }
}

// Where each allocation is refused in turn, as `rt try --test --fail-alloc N` does, there is no other
// answer than the script and want of memory.
#[test]
fn want_of_memory_is_the_only_other_answer(rt: HostRuntime) -> Result<(), Fail> {
    let Ok(book) = read_graphs(rt.alloc(), b"graph g\nend") else {
        return Ok(());
    };
    let text = b"0 use g read 0 1\n3 sync 2\n0 fail 1\n0 read 2 3\n0 read 4 5\n0 read 6 7\n";
    match read_script(rt.alloc(), text, &book, 2) {
        Ok(script) => {
            let clients = script.clients();
            assert!(rt; clients.len() == 16);
            same(&rt, (clients[0].len(), clients[3].len()), (5, 1));
        }
        Err(fault) => same(&rt, fault, ScriptFault::Memory),
    }
    see_drawn(&rt, rt.alloc());
    Ok(())
}
