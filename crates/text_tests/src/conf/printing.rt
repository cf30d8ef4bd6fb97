//! Configurations that are printed, and read again.
use crate::conf::read;
use crate::judging::same;
use crate::texts::joined;
use raid_conf::print_conf;
use std::alloc::Global;
use std::process::Abort;
use std::test::Fail;

fn print(rt: &impl Abort, alloc: Global, text: &[u8], out: &mut Vec<u8>) -> Result<(), Fail> {
    let conf = read(rt, alloc, text);
    print_conf(alloc, &conf, out)?;
    Ok(())
}

// Prints what a text says behind a byte that stands there, and sees what was printed.
fn see(rt: &impl Abort, alloc: Global, text: &[u8], wanted: &[u8]) -> Result<(), Fail> {
    let mut printed = Vec::from_slice(alloc, b"#")?;
    print(rt, alloc, text, &mut printed)?;
    let want = joined(alloc, &[b"#", wanted])?;
    same(rt, printed.as_slice(), want.as_slice());
    Ok(())
}

// The canonical text of an array with a spare and a queue.
const SPARE: &[u8] =
    b"START array\n1 5 1\nSTART disks\nd0\nd1\nd2\nd3\nd4\nSTART spare\ns0\nSTART layout\n32 1 1 5\nSTART queue\nfifo 100\n";

#[test]
fn a_canonical_text_is_printed_as_it_was_read(rt: HostRuntime) -> Result<(), Fail> {
    see(&rt, rt.alloc(), SPARE, SPARE)
}

#[test]
fn what_may_be_left_out_is_not_printed(rt: HostRuntime) -> Result<(), Fail> {
    let loose =
        b"# two numbers\nSTART array\n 04\t0\nSTART disks\nabsent\n/dev/wd0e\nabsent\n#\n/dev/wd1e # the last\nSTART spare\nSTART layout\n001 1 01 1\nSTART debug\n\x01";
    let tight =
        b"START array\n1 4 0\nSTART disks\nabsent\n/dev/wd0e\nabsent\n/dev/wd1e\nSTART layout\n1 1 1 1\n";
    see(&rt, rt.alloc(), loose, tight)
}

#[test]
fn a_listed_design_is_printed_tuple_by_tuple(rt: HostRuntime) -> Result<(), Fail> {
    let text =
        b"START array\n1 3 0\nSTART disks\na\nb\nc\nSTART layout\n8 1 1 T\ndesign 3 3 2 2 1\n0 1\n0 2\n1 2\nSTART queue\nfifo 0\n";
    see(&rt, rt.alloc(), text, text)
}

#[test]
fn a_cyclic_design_is_printed_as_its_base(rt: HostRuntime) -> Result<(), Fail> {
    let text =
        b"START array\n1 7 0\nSTART disks\na\nb\nc\nd\ne\nf\ng\nSTART layout\n1 1 1 D\ncyclic 7 : 0 1 3\n";
    see(&rt, rt.alloc(), text, text)
}

#[test]
fn a_complete_design_is_printed_as_two_numbers(rt: HostRuntime) -> Result<(), Fail> {
    let text =
        b"START array\n1 4 0\nSTART disks\na\nb\nc\nd\nSTART layout\n128 1 1 T\ncomplete 4 3\n";
    see(&rt, rt.alloc(), text, text)
}
