//! Who is told how far a call is.
use super::*;
use crate::judging::same_at;
use raid_top::Doubt;
use std::sync::atomic::{AtomicU64, Ordering};

/// Keeps what it is told.
#[derive(Drop)]
struct Kept {
    /// How often it was told, and how often it was told the end.
    told: AtomicU64,
    ends: AtomicU64,
    /// The numbers of the last time.
    done: AtomicU64,
    all: AtomicU64,
    /// How often fewer of as many were done than the time before, and how often more than all.
    fell: AtomicU64,
    /// How often there was a doubt about the array, and how often the newest label named a device for what it lacked.
    doubts: AtomicU64,
    named: AtomicU64,
}

impl Kept {
    fn new() -> Kept {
        Kept {
            told: AtomicU64::new(0),
            ends: AtomicU64::new(0),
            done: AtomicU64::new(0),
            all: AtomicU64::new(0),
            fell: AtomicU64::new(0),
            doubts: AtomicU64::new(0),
            named: AtomicU64::new(0),
        }
    }
}

impl Progress for Kept {
    fn tell(&self, done: u64, all: u64) {
        let before = self.done.swap(done, Ordering::SeqCst);
        let as_many = self.all.swap(all, Ordering::SeqCst) == all;
        if done > all || (as_many && done < before) {
            self.fell.fetch_add(1, Ordering::SeqCst);
        }
        self.told.fetch_add(1, Ordering::SeqCst);
    }

    fn end(&self) {
        self.ends.fetch_add(1, Ordering::SeqCst);
    }
}

impl Doubts for Kept {
    fn doubt(&self, doubt: Doubt) {
        self.doubts.fetch_add(1, Ordering::SeqCst);
        if doubt.named {
            self.named.fetch_add(1, Ordering::SeqCst);
        }
    }
}

// The words end well, and this is how often they told how far they are, and which numbers last.
fn tells<R: Abort + Threads + Wait + Sync>(
    rt: &R,
    alloc: Global,
    bay: &mut MemBay<MemDisk>,
    words: &str,
    wanted: [u64; 3],
) -> Result<(), Fail> {
    let kept = Kept::new();
    let (number, _) = answer_telling(rt, alloc, bay, words, &kept)?;
    same_at(rt, words, number, 0);
    let told = [
        kept.told.load(Ordering::SeqCst),
        kept.done.load(Ordering::SeqCst),
        kept.all.load(Ordering::SeqCst),
    ];
    same_at(rt, words, told, wanted);
    same_at(rt, words, kept.fell.load(Ordering::SeqCst), 0);
    same_at(rt, words, kept.ends.load(Ordering::SeqCst), 1);
    Ok(())
}

// Each column has 64 rows, so there are 64 stripes. A sweep tells each; what goes over no stripe tells nothing but its end.
const TOLD: &[(&str, [u64; 3])] = &[
    ("r5 -s", [0, 0, 0]),
    ("r5 -I 7", [0, 0, 0]),
    ("r5 -i", [64, 64, 64]),
    ("r5 -p", [64, 64, 64]),
    ("r5 -P", [64, 64, 64]),
];

#[test]
fn numbers_ascend_to_all(rt: HostRuntime) -> Result<(), Fail> {
    let alloc = rt.alloc();
    let mut bay = bay_of(alloc, &PLAIN)?;
    for (words, wanted) in TOLD {
        tells(&rt, alloc, &mut bay, *words, *wanted)?;
    }
    Ok(())
}

// These words end well, and tell so many doubts, and that so many devices are named.
fn doubts<R: Abort + Threads + Wait + Sync>(
    rt: &R,
    alloc: Global,
    bay: &mut MemBay<MemDisk>,
    words: &str,
    wanted: [u64; 2],
) -> Result<(), Fail> {
    let kept = Kept::new();
    let (number, _) = answer_telling(rt, alloc, bay, words, &kept)?;
    same_at(rt, words, number, 0);
    let told = [
        kept.doubts.load(Ordering::SeqCst),
        kept.named.load(Ordering::SeqCst),
    ];
    same_at(rt, words, told, wanted);
    Ok(())
}

// The labels aren't clean until the parity is initialised, and a column is lacking behind `-f`. Behind `-R` both is mended.
const FAILED: &[(&str, [u64; 2])] = &[
    ("r5 -s", [0, 0]),
    ("r5 -I 7", [0, 0]),
    ("r5 -s", [0, 0]),
    ("r5 -f d1", [0, 0]),
    ("r5 -s", [1, 0]),
    ("r5 -p", [1, 0]),
    ("r5 -g d0", [0, 0]),
    ("r5 -G", [0, 0]),
    ("r5 -R d1 -w 0", [1, 0]),
    ("r5 -s", [0, 0]),
    ("r5 -f d1", [0, 0]),
    ("r5 -s", [0, 0]),
];

// A label that is older than the others, which aren't clean: its device is named until it is left out of a round.
const STALE: &[(&str, [u64; 2])] = &[
    ("r5 -s", [1, 1]),
    ("r5 -p", [1, 1]),
    ("r5 -s --adopt", [0, 0]),
    ("r5 -f d1", [1, 1]),
    ("r5 -s", [1, 0]),
    ("r5 -s --adopt", [1, 0]),
];

fn doubt_all<R: Abort + Threads + Wait + Sync>(
    rt: &R,
    alloc: Global,
    bay: &mut MemBay<MemDisk>,
    table: &[(&str, [u64; 2])],
) -> Result<(), Fail> {
    for (words, wanted) in table {
        doubts(rt, alloc, bay, *words, *wanted)?;
    }
    Ok(())
}

#[test]
fn a_doubt_is_told_of_what_is_not_clean_and_lacks_a_column(rt: HostRuntime) -> Result<(), Fail> {
    let alloc = rt.alloc();
    let mut bay = bay_of(alloc, &PLAIN)?;
    doubt_all(&rt, alloc, &mut bay, FAILED)?;
    let mut bay = bay_of(alloc, &PLAIN)?;
    says(
        &rt,
        alloc,
        &mut bay,
        "r5 -I 7",
        0,
        "labels written 3\nstatus ok\n",
    )?;
    put(alloc, &mut bay, "d0", 16, 2)?;
    put(alloc, &mut bay, "d2", 16, 2)?;
    doubt_all(&rt, alloc, &mut bay, STALE)
}
