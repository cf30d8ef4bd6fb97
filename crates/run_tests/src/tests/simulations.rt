//! Requests to a simulated disk.
use super::*;
use crate::judging::{same, same_at};

const REQUESTS: &str = "disk 1000\nat 0 write 640 1 11\nat 0 write 64 1 22\nat 0 read 640 1\n";

const REPLIES: &str = "reply 0 done\nreply 1 done\nreply 2 data\nblock 640 1 11\nstatus ok\n";

// First in, first out, the ways are 640, 577 and 575 sectors; else 64, 575 and 1, where the scan turns before the last one.
const ORDERS: &[(&str, &str)] = &[
    (
        "t1 --sim fifo",
        "served 0 0 11\nserved 1 11 21\nserved 2 21 30\n",
    ),
    (
        "t1 --sim sstf",
        "served 1 0 2\nserved 0 2 11\nserved 2 11 12\n",
    ),
    (
        "t1 --sim scan",
        "served 1 0 2\nserved 0 2 11\nserved 2 11 12\n",
    ),
];

#[test]
fn requests_are_served_in_three_orders(rt: HostRuntime) -> Result<(), Fail> {
    let alloc = rt.alloc();
    let session = Session {
        other: REQUESTS,
        ..PLAIN
    };
    let mut bay = bay_of(alloc, &session)?;
    for (words, served) in ORDERS {
        let wanted = format!(in alloc; "{served}{REPLIES}")?;
        says(&rt, alloc, &mut bay, *words, 0, &wanted)?;
    }
    same(&rt, bay.disk("d0").is_some(), true);
    Ok(())
}

// Nothing waits between the ticks 5 and 100. At 100 the head stands at 130: sectors 129 and 131 are as near, and the lesser
// number goes first; upwards 131 comes first, and the head turns for 129. A read of blocks that differ has a line for each run.
#[test]
fn the_disk_waits_and_the_head_turns(rt: HostRuntime) -> Result<(), Fail> {
    const SESSIONS: &[Session] = &[Session {
        other: "disk 262144\nat 2 write 128 2 0102\nat 100 read 129 1\nat 100 write 131 1 33\n",
        more: "disk 4\nat 0 write 1 1 a5\nat 0 read 0 4\n",
        steps: &[
            Step::Run(
                "t1 --sim sstf",
                0,
                "served 0 2 6\nserved 1 100 101\nserved 2 101 102\nreply 0 done\nreply 1 data\nblock 129 1 0102\nreply 2 done\nstatus ok\n",
            ),
            Step::Run(
                "t1 --sim scan",
                0,
                "served 0 2 6\nserved 2 100 101\nserved 1 101 102\nreply 0 done\nreply 1 data\nblock 129 1 0102\nreply 2 done\nstatus ok\n",
            ),
            Step::Run(
                "t2 --sim fifo",
                0,
                "served 0 0 1\nserved 1 1 5\nreply 0 done\nreply 1 data\nblock 0 1 00\nblock 1 1 a5\nblock 2 2 00\nstatus ok\n",
            ),
        ],
        ..PLAIN
    }];
    play(&rt, rt.alloc(), SESSIONS)
}

// A text that is no list of requests, and the line and code by which it is refused. Words are judged from left to right, and
// the limits at the end of the line.
const REFUSED: &[(&str, &str)] = &[
    ("", "1 1"),
    ("# nothing\n", "2 1"),
    ("disc 5\n", "1 1"),
    ("disk 0\n", "1 2"),
    ("disk 262145\n", "1 2"),
    ("disk 5 5\n", "1 1"),
    ("disk 5\nin 0 read 0 1\n", "2 1"),
    ("disk 5\nat x read 0 1\n", "2 2"),
    ("disk 5\nat 0 look 0 1\n", "2 1"),
    ("disk 5\nat 0 read 0 0\n", "2 2"),
    ("disk 5\nat 0 read 0 1 11\n", "2 1"),
    ("disk 5\nat 0 read 4 2\n", "2 14"),
    ("disk 5\nat 0 write 4 2 1\n", "2 14"),
    ("disk 5\nat 7 read 0 1\n\nat 6 read 4 2\n", "4 15"),
    ("disk 5\nat 0 write 0 1 1\n", "2 17"),
    ("disk 5\nat 0 write 0 1\n", "2 1"),
    ("disk 262144\nat 0 read 0 262144\nat 0 read 0 1\n", "3 16"),
    ("disk 262144\nat 0 read 0 262144\nat 0 read 0 1 1\n", "3 1"),
];

#[test]
fn requests_are_refused(rt: HostRuntime) -> Result<(), Fail> {
    let alloc = rt.alloc();
    for (other, place) in REFUSED {
        let session = Session {
            other: *other,
            ..PLAIN
        };
        let mut bay = bay_of(alloc, &session)?;
        let wanted = format!(in alloc; "status conf {place}\n")?;
        let found = answer(&rt, alloc, &mut bay, "t1 --sim scan")?;
        same_at(&rt, *other, found.1.as_slice(), wanted.as_bytes());
        same_at(&rt, *other, found.0, 2);
    }
    Ok(())
}

// So many writes of one sector, one after another.
fn writes(alloc: Global, count: u32) -> Result<String, Fail> {
    let mut text = String::from_str(alloc, "disk 1\n")?;
    for _ in 0..count {
        text.push_str("at 0 write 0 1 11\n")?;
    }
    Ok(text)
}

#[test]
fn a_disk_has_4096_requests_at_most(rt: HostRuntime) -> Result<(), Fail> {
    let alloc = rt.alloc();
    let requests = writes(alloc, 4097)?;
    let texts = vec![in alloc; text(alloc, "q", &requests)?]?;
    let mut bay = MemBay::<MemDisk>::new(alloc, texts, Vec::new(alloc), Vec::new(alloc));
    says(
        &rt,
        alloc,
        &mut bay,
        "q --sim fifo",
        2,
        "status conf 4098 16\n",
    )
}
