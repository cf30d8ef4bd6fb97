//! Configurations that are read.
use crate::conf::read;
use crate::judging::{holds, same};
use crate::texts::joined;
use raid_conf::{Given, Names};
use std::alloc::{AllocError, Global};
use std::process::Abort;
use std::test::Fail;

// The canonical text of an array with a spare.
const SPARE: &[u8] =
    b"START array\n1 5 1\nSTART disks\nd0\nd1\nd2\nd3\nd4\nSTART spare\ns0\nSTART layout\n32 1 1 5\nSTART queue\nfifo 100\n";

fn see_name(rt: &impl Abort, names: &Names, i: u32, wanted: &str) {
    assert!(rt; i < names.len());
    same(rt, names.get(i), wanted);
}

fn see(rt: &impl Abort, names: &Names, wanted: &[&str]) {
    assert!(rt; names.len() as usize == wanted.len());
    for (i, name) in wanted.iter().enumerate() {
        see_name(rt, names, i as u32, *name);
    }
}

#[test]
fn an_array_with_a_spare_is_read(rt: HostRuntime) -> Result<(), Fail> {
    let conf = read(&rt, rt.alloc(), SPARE);
    same(&rt, (conf.columns, conf.spares, conf.unit), (5, 1, 32));
    same(&rt, (conf.level, conf.design.is_none()), (b'5', true));
    same(&rt, conf.queue, Some(100));
    see(&rt, &conf.disks, &["d0", "d1", "d2", "d3", "d4"]);
    see(&rt, &conf.spare_names, &["s0"]);
    Ok(())
}

// Two numbers for the array, absent disks, an empty section of the spares, comments, debug lines.
const LOOSE: &[u8] =
    b"# an array\r\n\nSTART array # two numbers\n 04\t0\nSTART disks\nabsent\n/dev/wd0e\nabsent\n#\n/dev/wd1e # the last\nSTART spare\nSTART layout\n001 1 01 1\nSTART debug\n\x01 anything\nSTART array";

#[test]
fn what_may_be_left_out_is_left_out(rt: HostRuntime) -> Result<(), Fail> {
    let conf = read(&rt, rt.alloc(), LOOSE);
    same(&rt, (conf.columns, conf.spares, conf.unit), (4, 0, 1));
    same(&rt, (conf.level, conf.queue.is_none()), (b'1', true));
    see(&rt, &conf.disks, &["", "/dev/wd0e", "", "/dev/wd1e"]);
    same(&rt, conf.spare_names.len(), 0);
    Ok(())
}

// The text of three columns at level T with a design.
fn with_design(alloc: Global, design: &[u8]) -> Result<Vec<u8>, AllocError> {
    let front = b"START array\n3 0\nSTART disks\na\nb\nc\nSTART layout\n8 1 1 T\n";
    joined(alloc, &[front, design])
}

// All pairs of three objects, tuple by tuple.
fn see_listed(rt: &impl Abort, design: &Option<Given>) {
    match design {
        Some(
            Given::Listed {
                b,
                v,
                k,
                r,
                lambda,
                tuples,
            },
        ) => {
            same(rt, (*b, *v, *k), (3, 3, 2));
            same(rt, (*r, *lambda), (2, 1));
            same(rt, tuples.as_slice(), &[0, 1, 0, 2, 1, 2]);
        }
        _ => holds(rt, false),
    }
}

// The same pairs, by the base tuple 2 0.
fn see_cyclic(rt: &impl Abort, design: &Option<Given>) {
    match design {
        Some(Given::Cyclic { v, base }) => {
            same(rt, *v, 3);
            same(rt, base.as_slice(), &[2, 0]);
        }
        _ => holds(rt, false),
    }
}

// The one tuple of all three objects.
fn see_complete(rt: &impl Abort, design: &Option<Given>) {
    match design {
        Some(Given::Complete { v, k }) => same(rt, (*v, *k), (3, 3)),
        _ => holds(rt, false),
    }
}

#[test]
fn designs_are_read_in_three_ways(rt: HostRuntime) -> Result<(), Fail> {
    let text = with_design(
        rt.alloc(),
        b"design 3 3 2 2 1\n0 1\n0 2\n1 2\nSTART queue\nfifo 7",
    )?;
    let conf = read(&rt, rt.alloc(), &text);
    same(&rt, conf.queue, Some(7));
    see_listed(&rt, &conf.design);
    let text = with_design(rt.alloc(), b"cyclic 3 : 2 0")?;
    see_cyclic(&rt, &read(&rt, rt.alloc(), &text).design);
    let text = with_design(rt.alloc(), b"complete 3 3")?;
    see_complete(&rt, &read(&rt, rt.alloc(), &text).design);
    Ok(())
}
