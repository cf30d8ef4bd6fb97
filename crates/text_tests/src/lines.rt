//! What a line holds, and how it is put.
use crate::judging::same;
use blk_disk::Failed;
use put_line::Line;
use raid_bay::{MemSink, Sink};
use std::alloc::Global;
use std::process::Abort;
use std::test::Fail;

// A line of each kind of piece.
fn mixed_line() -> Line {
    let mut line = Line::new();
    line.push(b"gone");
    line.clear();
    line.push(b"block ");
    line.push_number(18_446_744_073_709_551_616_u128);
    line.push(b" ");
    line.push_number(0_u32);
    line.push(b" ");
    line.push_hex(&[0x5a, 0xf0, 0]);
    line.push(b"\n");
    line
}

const MIXED: &[u8] = b"block 18446744073709551616 0 5af000\n";

#[test]
fn a_line_is_its_pieces(rt: HostRuntime) {
    same(&rt, mixed_line().bytes(), MIXED);
    same(&rt, Line::new().bytes(), b"");
}

// Puts the line twice into a sink that fails these calls, and has room for so many bytes.
fn put_twice(alloc: Global, room: u32, fails: &[u32]) -> Result<(Vec<u8>, bool, bool), Fail> {
    let line = mixed_line();
    let mut out = MemSink::new(alloc, room, fails.to_vec(alloc)?)?;
    let first = line.put(&mut out) == Ok(());
    let second = line.put(&mut out) == Ok(());
    Ok((out.bytes().to_vec(alloc)?, first, second))
}

// Where a sink of this room fails these calls, two lines are put so: whether the first is, whether the
// second is, and what the sink has of them.
fn see_put(
    rt: &impl Abort,
    alloc: Global,
    room: u32,
    fails: &[u32],
    done: (bool, bool),
    wanted: &[u8],
) -> Result<(), Fail> {
    let (bytes, first, second) = put_twice(alloc, room, fails)?;
    same(rt, (first, second), done);
    same(rt, bytes.as_slice(), wanted);
    Ok(())
}

// A sink that fails the second call has had the first line whole and nothing of the second, so a
// line is one call.
#[test]
fn a_line_is_put_by_one_call(rt: HostRuntime) -> Result<(), Fail> {
    let (bytes, first, second) = put_twice(rt.alloc(), 100, &[])?;
    same(&rt, (bytes.len(), first, second), (72, true, true));
    const CUT: &[u8] = b"block 18446744073709551616 0 5af000\nbloc";
    const ROWS: &[(u32, &[u32], (bool, bool), &[u8])] = &[
        (100, &[1], (true, false), MIXED),
        (40, &[0], (false, true), MIXED),
        (40, &[], (true, false), CUT),
    ];
    for (room, fails, done, wanted) in ROWS {
        see_put(&rt, rt.alloc(), *room, *fails, *done, *wanted)?;
    }
    Ok(())
}
