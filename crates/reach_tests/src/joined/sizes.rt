//! How large two graphs may be together.
use crate::judging::same_at;
use graph_mean::Graph;
use graph_merge::{MergeFault, merge};
use graph_text::{Book, read_graphs};
use std::alloc::Global;
use std::process::Abort;
use std::test::Fail;

// How many buffers a graph has and returns of the first of them; how many sums stand between its commit and its terminator,
// each behind the one before, and how often the first of these has the buffer as a source.
#[derive(Clone, Copy)]
struct Size {
    bufs: u16,
    rets: u16,
    sums: u16,
    sources: u16,
}

const SMALL: Size = Size {
    bufs: 1,
    rets: 0,
    sums: 1,
    sources: 0,
};

fn push_bufs(alloc: Global, text: &mut String, bufs: u16) -> Result<(), Fail> {
    for i in 0..bufs {
        let line = format!(in alloc; "buffer {i} stripe 0 from 0 count 1\n")?;
        text.push_str(&line)?;
    }
    Ok(())
}

fn push_sources(text: &mut String, sources: u16) -> Result<(), Fail> {
    for _i in 0..sources {
        text.push_str(" 0")?;
    }
    Ok(())
}

fn push_sums(alloc: Global, text: &mut String, size: Size) -> Result<(), Fail> {
    for i in 0..u32::from(size.sums) {
        let next = i + 1;
        let line = format!(in alloc; "node {next} xor 0")?;
        text.push_str(&line)?;
        if i == 0 {
            push_sources(text, size.sources)?;
        }
        let after = format!(in alloc; " after {i}\n")?;
        text.push_str(&after)?;
    }
    Ok(())
}

fn push_rets(text: &mut String, rets: u16) -> Result<(), Fail> {
    for _i in 0..rets {
        text.push_str("return 0 0\n")?;
    }
    Ok(())
}

// A file of a graph of this size.
fn sized(rt: &impl Abort, alloc: Global, size: Size) -> Result<Book, Fail> {
    let mut text = String::new(alloc);
    text.push_str("graph g\n")?;
    push_bufs(alloc, &mut text, size.bufs)?;
    text.push_str("node 0 commit\n")?;
    push_sums(alloc, &mut text, size)?;
    let last = u32::from(size.sums);
    let end = last + 1;
    let line = format!(in alloc; "node {end} terminate after {last}\n")?;
    text.push_str(&line)?;
    push_rets(&mut text, size.rets)?;
    text.push_str("end\n")?;
    assert!(rt; text.len() <= 16_777_216);
    let book = read_graphs(alloc, text.as_bytes())?;
    Ok(book)
}

// Two graphs, the shift, and what joining them answers, with how many nodes, buffers and returns the joined graph has.
struct Row<'a> {
    name: &'a str,
    first: Size,
    second: Size,
    shift: u32,
    answer: Result<(), MergeFault>,
    has: (u32, u32, u32),
}

const NOTHING: (u32, u32, u32) = (0, 0, 0);

// A graph has two nodes more than sums. It has an antecedent for each sum and one more, and its sources.
const ROWS: &[Row] = &[
    Row {
        name: "2,050 nodes",
        first: Size {
            sums: 1023,
            ..SMALL
        },
        second: Size {
            sums: 1023,
            ..SMALL
        },
        shift: 1,
        answer: Ok(()),
        has: (2048, 2, 0),
    },
    Row {
        name: "2,051 nodes",
        first: Size {
            sums: 1023,
            ..SMALL
        },
        second: Size {
            sums: 1024,
            ..SMALL
        },
        shift: 1,
        answer: Err(MergeFault::Large),
        has: NOTHING,
    },
    Row {
        name: "2,048 buffers",
        first: Size {
            bufs: 1024,
            ..SMALL
        },
        second: Size {
            bufs: 1024,
            ..SMALL
        },
        shift: 1,
        answer: Ok(()),
        has: (4, 2048, 0),
    },
    Row {
        name: "2,049 buffers",
        first: Size {
            bufs: 1025,
            ..SMALL
        },
        second: Size {
            bufs: 1024,
            ..SMALL
        },
        shift: 1,
        answer: Err(MergeFault::Large),
        has: NOTHING,
    },
    Row {
        name: "2,048 returns",
        first: Size {
            bufs: 1024,
            rets: 1024,
            ..SMALL
        },
        second: Size {
            bufs: 1024,
            rets: 1024,
            ..SMALL
        },
        shift: 1,
        answer: Ok(()),
        has: (4, 2048, 2048),
    },
    Row {
        name: "2,049 returns",
        first: Size {
            rets: 1024,
            ..SMALL
        },
        second: Size {
            rets: 1025,
            ..SMALL
        },
        shift: 1,
        answer: Err(MergeFault::Large),
        has: NOTHING,
    },
    Row {
        name: "16,384 sources and antecedents",
        first: Size {
            sources: 8190,
            ..SMALL
        },
        second: Size {
            sources: 8190,
            ..SMALL
        },
        shift: 1,
        answer: Ok(()),
        has: (4, 2, 0),
    },
    Row {
        name: "16,385 sources and antecedents",
        first: Size {
            sources: 8191,
            ..SMALL
        },
        second: Size {
            sources: 8190,
            ..SMALL
        },
        shift: 1,
        answer: Err(MergeFault::Large),
        has: NOTHING,
    },
    Row {
        name: "2,051 nodes, and a stripe that isn't below the shift",
        first: Size {
            sums: 1023,
            ..SMALL
        },
        second: Size {
            sums: 1024,
            ..SMALL
        },
        shift: 0,
        answer: Err(MergeFault::Form { which: 0 }),
        has: NOTHING,
    },
];

#[test]
fn two_graphs_may_be_as_large_as_an_operation(rt: HostRuntime) -> Result<(), Fail> {
    for row in ROWS {
        let first = sized(&rt, rt.alloc(), row.first)?;
        assert!(rt; first.count() == 1);
        let second = sized(&rt, rt.alloc(), row.second)?;
        assert!(rt; second.count() == 1);
        let mut out = Graph::with_room(rt.alloc(), 2048, 2048, 16_384)?;
        let answer = merge(first.graph(0), second.graph(0), row.shift, &mut out);
        same_at(&rt, row.name, answer, row.answer);
        let has = (out.nodes(), out.bufs(), out.rets());
        same_at(&rt, row.name, has, row.has);
    }
    Ok(())
}
