//! Five columns with units of 32 sectors and a spare, labelled and in sync; and a script whose write meets a fault of column 3.
use super::*;

pub(super) const CONF: &str =
    "START array\n1 5 1\nSTART disks\nd0\nd1\nd2\nd3\nd4\nSTART spare\ns0\nSTART layout\n32 1 1 5\nSTART queue\nfifo 100\n";

pub(super) const SCRIPT: &str = "0 write 64 256 5a\n0 read 64 256\n";

pub(super) const PRINTED: &[u8] =
    b"reply 0.0 done\nreply 0.1 data\nblock 64 256 5a\ncommit 0.0\ncommit 0.1\ndead 3\nstatus ok\n";

pub(super) const WORDS: &str = "r5 --io s1 -w 0";

pub(super) const NAMES: &[&str] = &["d0", "d1", "d2", "d3", "d4", "s0"];

// The first sector and the map of column 3 are read, its label written, and it is settled; then the write of its sectors 64 to 95
// fails.
pub(super) const FAULT: Fault = (3, 4);

// The configuration and the script.
pub(super) fn texts_of(alloc: Global) -> Result<Vec<(Name, Vec<u8>)>, Fail> {
    text_list(alloc, &[("r5", CONF), ("s1", SCRIPT)])
}

// What its components hold before the script.
pub(super) fn labelled<R: Abort + Threads + Wait + Sync>(
    rt: &R,
    alloc: Global,
) -> Result<Held, Fail> {
    let blank = blank(alloc, NAMES, 2112)?;
    let mut bay = bay_of(alloc, texts_of(alloc)?, &blank, None)?;
    for (words, printed) in [
        ("r5 -I 1001", "labels written 5\nstatus ok\n"),
        ("r5 -i", "parity initialised 64\nstatus ok\n"),
    ] {
        prints(rt, alloc, &mut bay, (0, 0), words, (0, printed.as_bytes()))?;
    }
    held_by(alloc, &bay, NAMES)
}
