//! Texts of requests to a simulated disk: what is printed of them, or how they are refused.
use crate::judging::{holds, same};
use blk_disk::MemDisk;
use raid_bay::{MemBay, MemSink, Name};
use sim_queue::Queue;
use std::alloc::Global;
use std::test::Fail;
use top_sim::{put_simulated, simulate};
use top_status::{Refusal, put_refusal};

const ORDERS: [Queue; 3] = [Queue::Fifo, Queue::Sstf, Queue::Scan];

// A bay with this text alone.
fn bay_of(alloc: Global, text: &str) -> Result<MemBay<MemDisk>, Fail> {
    let mut texts = Vec::new(alloc);
    texts.push((Name::new(alloc, "load")?, text.as_bytes().to_vec(alloc)?))?;
    Ok(MemBay::new(alloc, texts, Vec::new(alloc), Vec::new(alloc)))
}

// What is printed of these requests, or of their refusal.
fn printed(alloc: Global, text: &str, order: Queue) -> Result<MemSink, Fail> {
    let mut bay = bay_of(alloc, text)?;
    let mut out = MemSink::new(alloc, 524_288, Vec::new(alloc))?;
    match simulate(alloc, "load", order, &mut bay) {
        Ok(simulated) => put_simulated(&simulated, &mut out)?,
        Err(status) => put_refusal(&Refusal::only(alloc, status), &mut out)?,
    }
    Ok(out)
}

const THREE: &str = "disk 1000\nat 0 write 640 1 11\nat 0 write 64 1 22\nat 0 read 640 1\n";

const THREE_REPLIED: &str = "reply 0 done\nreply 1 done\nreply 2 data\nblock 640 1 11\n";

// Nothing waits between the ticks 6 and 100. At 100 the head stands at 130: sectors 129 and 131 are
// as near, and the lesser number goes first; upwards 131 comes first, and the head turns for 129.
const WAITING: &str = "disk 132\nat 2 write 128 2 0102\nat 100 read 129 1\nat 100 write 131 1 33\n";

const WAITING_REPLIED: &str = "reply 0 done\nreply 1 data\nblock 129 1 0102\nreply 2 done\n";

// A comment, a tab, a carriage return, zeros before a number; and a read of sectors that differ.
const LOOSE: &str = "disk\t4 # small\r\n\nat 00 write 1 1 A5 # one\nat 0 read 0 4";

const LOOSE_REPLIED: &str =
    "reply 0 done\nreply 1 data\nblock 0 1 00\nblock 1 1 a5\nblock 2 2 00\n";

// Texts, the order in which they are served, and what is printed: services, and replies. In the first
// rows the ways are 640, 577 and 575 sectors, and then 64, 575 and 1, where the scan turns before the
// last.
const SERVED: &[(&str, Queue, &str, &str)] = &[
    (
        THREE,
        Queue::Fifo,
        "served 0 0 11\nserved 1 11 21\nserved 2 21 30\n",
        THREE_REPLIED,
    ),
    (
        THREE,
        Queue::Sstf,
        "served 1 0 2\nserved 0 2 11\nserved 2 11 12\n",
        THREE_REPLIED,
    ),
    (
        THREE,
        Queue::Scan,
        "served 1 0 2\nserved 0 2 11\nserved 2 11 12\n",
        THREE_REPLIED,
    ),
    (
        WAITING,
        Queue::Sstf,
        "served 0 2 6\nserved 1 100 101\nserved 2 101 102\n",
        WAITING_REPLIED,
    ),
    (
        WAITING,
        Queue::Scan,
        "served 0 2 6\nserved 2 100 101\nserved 1 101 102\n",
        WAITING_REPLIED,
    ),
    (
        LOOSE,
        Queue::Fifo,
        "served 0 0 1\nserved 1 1 5\n",
        LOOSE_REPLIED,
    ),
];

#[test]
fn requests_are_served_and_replied(rt: HostRuntime) -> Result<(), Fail> {
    for row in SERVED {
        let (text, order, served, replied) = *row;
        let wanted = format!(in rt.alloc(); "{served}{replied}")?;
        let out = printed(rt.alloc(), text, order)?;
        same(&rt, out.bytes(), wanted.as_bytes());
    }
    Ok(())
}

// Texts that are no requests, and the line and the code by which they are refused. Words are judged
// from left to right, and the limits at the end of the line.
const REFUSED: &[(&str, &str)] = &[
    ("", "status conf 1 1\n"),
    ("# nothing\n", "status conf 2 1\n"),
    ("disc 5\n", "status conf 1 1\n"),
    ("disk\n", "status conf 1 1\n"),
    ("disk x\n", "status conf 1 2\n"),
    ("disk 0\n", "status conf 1 2\n"),
    ("disk 262145 5\n", "status conf 1 2\n"),
    ("disk 5 5\n", "status conf 1 1\n"),
    ("disk 5\nin 0 read 0 1\n", "status conf 2 1\n"),
    ("disk 5\n\ndisk 5\n", "status conf 3 1\n"),
    ("disk 5\nat\n", "status conf 2 1\n"),
    ("disk 5\nat 4294967296 read 0 1\n", "status conf 2 2\n"),
    ("disk 5\nat 0 look 0 1\n", "status conf 2 1\n"),
    ("disk 5\nat 0 read x 0\n", "status conf 2 2\n"),
    ("disk 5\nat 0 read 9 0\n", "status conf 2 2\n"),
    ("disk 5\nat 0 read 0 1 11\n", "status conf 2 1\n"),
    ("disk 5\nat 0 read 4 2\n", "status conf 2 14\n"),
    ("disk 5\nat 0 read 4294967295 1\n", "status conf 2 14\n"),
    ("disk 5\nat 0 write 4 2 1\n", "status conf 2 14\n"),
    (
        "disk 5\nat 7 read 0 1\n\nat 6 read 4 2\n",
        "status conf 4 15\n",
    ),
    ("disk 5\nat 0 write 0 1 1\n", "status conf 2 17\n"),
    ("disk 5\nat 0 write 0 1 1 1\n", "status conf 2 17\n"),
    ("disk 5\nat 0 write 0 1\n", "status conf 2 1\n"),
    ("disk 5\nat 0 write 0 1 11 11\n", "status conf 2 1\n"),
    (
        "disk 262144\nat 0 read 0 262143\nat 0 read 0 1\nat 0 read 0 1\n",
        "status conf 4 16\n",
    ),
    (
        "disk 262144\nat 0 read 0 262144\nat 0 read 0 1 1\n",
        "status conf 3 1\n",
    ),
];

#[test]
fn texts_are_refused_by_their_first_fault(rt: HostRuntime) -> Result<(), Fail> {
    for row in REFUSED {
        let (text, wanted) = *row;
        let out = printed(rt.alloc(), text, Queue::Scan)?;
        same(&rt, out.bytes(), wanted.as_bytes());
    }
    Ok(())
}

/// How many requests there may be.
const MOST: u32 = 4096;

// So many requests at one tick, from the last sector of a disk of 4,096 down to its first: a write,
// and then a read, in turn. One more begins at the last sector again.
fn downwards(alloc: Global, count: u32) -> Result<String, Fail> {
    let mut text = String::from_str(alloc, "disk 4096\n")?;
    for number in 0..count {
        let first = MOST - 1 - number % MOST;
        let line = match number % 2 {
            0 => format!(in alloc; "at 0 write {first} 1 5a\n")?,
            _ => format!(in alloc; "at 0 read {first} 1\n")?,
        };
        text.push_str(&line)?;
    }
    Ok(text)
}

// In the order of their numbers the first way is 4,095 sectors, 63 ticks, and each other one 2
// sectors, no tick. From the first sector upwards, the numbers descend and no way takes a tick.
fn services(alloc: Global, order: Queue) -> Result<String, Fail> {
    let mut text = String::new(alloc);
    for place in 0..MOST {
        let line = match (order, place) {
            (Queue::Fifo, 0) => format!(in alloc; "served 0 0 64\n")?,
            (Queue::Fifo, _) => format!(in alloc;
                "served {place} {} {}\n",
                63 + place,
                64 + place
            )?,
            _ => format!(in alloc; "served {} {place} {}\n", MOST - 1 - place, place + 1)?,
        };
        text.push_str(&line)?;
    }
    Ok(text)
}

// The same lines in each order, and each read is of a sector that was never written.
fn replies(alloc: Global) -> Result<String, Fail> {
    let mut text = String::new(alloc);
    for number in 0..MOST {
        let line = match number % 2 {
            0 => format!(in alloc; "reply {number} done\n")?,
            _ => format!(in alloc; "reply {number} data\nblock {} 1 00\n", MOST - 1 - number)?,
        };
        text.push_str(&line)?;
    }
    Ok(text)
}

#[test]
fn as_many_requests_as_there_may_be(rt: HostRuntime) -> Result<(), Fail> {
    let text = downwards(rt.alloc(), MOST)?;
    for order in ORDERS {
        let mut wanted = services(rt.alloc(), order)?;
        wanted.push_str(&replies(rt.alloc())?)?;
        let out = printed(rt.alloc(), &text, order)?;
        same(&rt, out.bytes(), wanted.as_bytes());
    }
    Ok(())
}

#[test]
fn one_request_more_is_refused(rt: HostRuntime) -> Result<(), Fail> {
    let text = downwards(rt.alloc(), MOST + 1)?;
    let out = printed(rt.alloc(), &text, Queue::Fifo)?;
    same(&rt, out.bytes(), b"status conf 4098 16\n".as_slice());
    Ok(())
}

// A sink that fails the call of a line has had the lines before it.
#[test]
fn a_front_is_printed_where_the_sink_fails(rt: HostRuntime) -> Result<(), Fail> {
    let lines = ["served 0 0 1\n", "reply 0 data\n", "block 0 1 00\n"];
    let mut bay = bay_of(rt.alloc(), "disk 1\nat 0 read 0 1\n")?;
    let mut front = String::new(rt.alloc());
    for (call, line) in lines.iter().enumerate() {
        let fails = vec![in rt.alloc(); call as u32]?;
        let mut out = MemSink::new(rt.alloc(), 4096, fails)?;
        match simulate(rt.alloc(), "load", Queue::Fifo, &mut bay) {
            Ok(simulated) => holds(&rt, put_simulated(&simulated, &mut out).is_err()),
            Err(_) => holds(&rt, false),
        }
        same(&rt, out.bytes(), front.as_bytes());
        front.push_str(line)?;
    }
    Ok(())
}
