//! A growth of memory is refused. None is here: `tools/refused-growths fault_tests --only growths` runs this test alone, once for each.
use super::*;

const NAMES: &[&str] = &["d0", "d1", "d2"];

const CONF: &str = "START array\n1 3 0\nSTART disks\nd0\nd1\nd2\nSTART layout\n1 1 1 5\n";

// The write of block 0 by a read of unit 1.
const GRAPH: &str =
    "graph large\nbuffer 0 stripe 0 from 0 count 1 new 0\nbuffer 1 stripe 0 from 0 count 1\nbuffer 2 stripe 0 from 0 count 1\nnode 0 read 1 1\nnode 1 xor 2 1 0 after 0\nnode 2 commit after 0 1\nnode 3 write 0 0 after 2\nnode 4 write 2 2 after 2\nnode 5 terminate after 3 4\nend\n";

const SCRIPT: &str = "0 use large write 0 1 a5\n0 read 0 1\n";

const TRACED: &[u8] =
    b"reply 0.0 done\nreply 0.1 data\nblock 0 1 a5\ncommit 0.0\ncommit 0.1\nbegin 0.0\ntake 0.0\nfire 0.0 0\ngood 0.0 0\nfire 0.0 1\ngood 0.0 1\nfire 0.0 2\ngood 0.0 2\nfire 0.0 3\ngood 0.0 3\nfire 0.0 4\ngood 0.0 4\nfire 0.0 5\ngood 0.0 5\nbegin 0.1\ntake 0.1\nfire 0.1 0\ngood 0.1 0\nfire 0.1 1\ngood 0.1 1\nfire 0.1 2\ngood 0.1 2\nstatus ok\n";

const CREWED: &[u8] =
    b"reply 0.0 done\nreply 0.1 data\nblock 0 1 a5\ncommit 0.0\ncommit 0.1\nstatus ok\n";

/// An array with labels and what its components hold, the words of a call, and where its output goes.
#[derive(Drop)]
struct Labelled {
    bay: MemBay<MemDisk>,
    held: Held,
    words: Vec<Name>,
    out: MemSink,
}

fn with_labels<R: Threads + Wait + Sync>(
    rt: &R,
    alloc: Global,
    words: &str,
) -> Result<Labelled, Fail> {
    let blank = blank(alloc, NAMES, 72)?;
    let texts = text_list(alloc, &[("r5", CONF), ("s1", SCRIPT), ("g1", GRAPH)])?;
    let mut bay = bay_of(alloc, texts, &blank, None)?;
    let mut out = sink(alloc)?;
    if ended(rt, alloc, &mut bay, "r5 -I 7", &mut out)? != 0 {
        return Err("not labelled".into());
    }
    Ok(Labelled {
        held: held_by(alloc, &bay, NAMES)?,
        bay,
        words: names_of(alloc, words)?,
        out: sink(alloc)?,
    })
}

// A call for which memory was wanted has changed nothing; else it printed this.
fn answers<R: Abort + Threads + Wait + Sync>(
    rt: &R,
    alloc: Global,
    words: &str,
    printed: &[u8],
) -> Result<(), Fail> {
    let Labelled {
        mut bay,
        held,
        words: asked,
        mut out,
    } = with_labels(rt, alloc, words)?;
    let number = run(rt, alloc, &asked, &mut bay, &mut out, &Silent).number();
    if number != 70 {
        same_at(rt, number, out.bytes(), printed);
        same_at(rt, words, number, 0);
        return Ok(());
    }
    same_at(rt, words, out.bytes(), b"status memory\n".as_slice());
    hold(rt, &bay, 70, &held)
}

// Without workers, with a trace, and by two workers.
#[test]
fn a_growth_that_is_refused_changes_nothing(rt: HostRuntime) -> Result<(), Fail> {
    let alloc = rt.alloc();
    answers(&rt, alloc, "r5 --io s1 --graphs g1 --trace -w 0", TRACED)?;
    answers(&rt, alloc, "r5 --io s1 --graphs g1 -w 2", CREWED)
}
