//! Calls that were stopped within a round of labels, with all that a stop may leave of that: of each device the label of the
//! round is kept or lost. What stands then is adopted.
ghost use Rattle.std.specs.Prelude.{◌≤◌};

use super::*;
use calls::{AFTER, ARRAY, BEFORE, CALLS, DEAD, FAILED, LABELLED, Label, OPENING, Round, Stopped};

mod calls;

// Which labels of a round a stop leaves.
const KEPT: [[bool; 3]; 8] = [
    [false, false, false],
    [true, false, false],
    [false, true, false],
    [false, false, true],
    [true, true, false],
    [true, false, true],
    [false, true, true],
    [true, true, true],
];

/// An array before a call and behind it.
#[derive(Drop)]
struct Pair {
    before: MemBay<MemDisk>,
    after: MemBay<MemDisk>,
}

// Each of these calls ends with 0.
fn call_all<R: Abort + Threads + Wait + Sync>(
    rt: &R,
    alloc: Global,
    bay: &mut MemBay<MemDisk>,
    calls: &[&str],
) -> Result<(), Fail> {
    for words in calls {
        let (number, _) = answer(rt, alloc, bay, *words)?;
        same_at(rt, *words, number, 0);
    }
    Ok(())
}

// The array of a call.
fn made<R: Abort + Threads + Wait + Sync>(
    rt: &R,
    alloc: Global,
    stopped: &Stopped,
) -> Result<MemBay<MemDisk>, Fail> {
    let mut bay = bay_of(alloc, &ARRAY)?;
    call_all(rt, alloc, &mut bay, stopped.setup)?;
    if stopped.renewed {
        renew(alloc, &mut bay, "d1")?;
    }
    Ok(bay)
}

fn pair_of<R: Abort + Threads + Wait + Sync>(
    rt: &R,
    alloc: Global,
    stopped: &Stopped,
) -> Result<Pair, Fail> {
    let before = made(rt, alloc, stopped)?;
    let mut after = made(rt, alloc, stopped)?;
    call_all(rt, alloc, &mut after, &[stopped.words])?;
    Ok(Pair { before, after })
}

// Sector 0 of the one, and behind it what the other has.
fn under(alloc: Global, first: &[u8], rest: &[u8]) -> Result<Vec<u8>, Fail> {
    let mut bytes = Vec::new(alloc);
    if let Some(sector) = first.chunks(SECTOR).next() {
        bytes.extend_from_slice(sector)?;
    }
    for (number, sector) in rest.chunks(SECTOR).enumerate() {
        if number > 0 {
            bytes.extend_from_slice(sector)?;
        }
    }
    Ok(bytes)
}

// Gives a component this label, and the rows of before the call or of behind it.
fn label(
    alloc: Global,
    bay: &mut MemBay<MemDisk>,
    pair: &Pair,
    name: &str,
    written: bool,
    label: Label,
) -> Result<(), Fail> {
    let before = found(&pair.before, name)?.bytes();
    let after = found(&pair.after, name)?.bytes();
    let rows = if written { after } else { before };
    match label {
        Label::Found => replace(alloc, bay, name, under(alloc, before, rows)?),
        Label::Ended => replace(alloc, bay, name, under(alloc, after, rows)?),
        Label::Begun(counter) => {
            replace(alloc, bay, name, under(alloc, before, rows)?)?;
            put(alloc, bay, name, 16, counter)?;
            put(alloc, bay, name, 40, 0)
        }
    }
}

// The labels of the round that are kept.
fn keep(
    alloc: Global,
    bay: &mut MemBay<MemDisk>,
    pair: &Pair,
    round: &Round,
    kept: &[bool; 3],
) -> Result<(), Fail> {
    for (name, kept) in round.devices.iter().zip(kept.iter()) {
        if *kept {
            label(alloc, bay, pair, *name, round.written, round.to)?;
        }
    }
    Ok(())
}

// The regions that were marked before the round.
fn mark(alloc: Global, bay: &mut MemBay<MemDisk>, marks: u8) -> Result<(), Fail> {
    for name in ["d0", "d1", "d2"] {
        if marks > 0 {
            maps::marked_by_hand(alloc, bay, name, 7, marks)?;
        }
    }
    Ok(())
}

// What a stop within the round leaves.
fn left_by(
    alloc: Global,
    pair: &Pair,
    round: &Round,
    kept: &[bool; 3],
) -> Result<MemBay<MemDisk>, Fail> {
    let mut bay = bay_of(alloc, &ARRAY)?;
    for (name, from) in ["d0", "d1", "d2", "s0"].iter().zip(round.from.iter()) {
        label(alloc, &mut bay, pair, *name, round.written, *from)?;
    }
    keep(alloc, &mut bay, pair, round, kept)?;
    mark(alloc, &mut bay, round.marks)?;
    Ok(bay)
}

// These words end with 0, and what they print begins so.
fn begins_to_say<R: Abort + Threads + Wait + Sync>(
    rt: &R,
    alloc: Global,
    bay: &mut MemBay<MemDisk>,
    words: &str,
    lines: &str,
) -> Result<(), Fail> {
    let (number, printed) = answer(rt, alloc, bay, words)?;
    same_at(rt, words, number, 0);
    same_at(rt, words, printed.starts_with(lines.as_bytes()), true);
    Ok(())
}

// It is shown so, is in sync, is swept so, and has these blocks.
fn comes_back<R: Abort + Threads + Wait + Sync>(
    rt: &R,
    alloc: Global,
    bay: &mut MemBay<MemDisk>,
    wanted: (&str, &str),
    blocks: &str,
) -> Result<(), Fail> {
    let (shown, swept) = wanted;
    says(rt, alloc, bay, "r5 -s --adopt", 0, shown)?;
    begins_to_say(rt, alloc, bay, "r5 -p --adopt", "parity clean\n")?;
    says(rt, alloc, bay, "r5 -P --adopt", 0, swept)?;
    begins_to_say(rt, alloc, bay, "r5 --io t2 -w 0", blocks)
}

// The device of column 1 has no label, and others name it: it is left out.
fn comes_back_without<R: Abort + Threads + Wait + Sync>(
    rt: &R,
    alloc: Global,
    bay: &mut MemBay<MemDisk>,
    blocks: &str,
) -> Result<(), Fail> {
    says(rt, alloc, bay, "r5 -s --adopt", 9, "status label 1 1 0 0\n")?;
    let failed = "failed column 1\ndead 1\nstatus ok\n";
    says(rt, alloc, bay, "r5 -f d1 --adopt", 0, failed)?;
    comes_back(rt, alloc, bay, (FAILED, DEAD), blocks)
}

// A round is stopped, and these labels of it are left.
fn stop<R: Abort + Threads + Wait + Sync>(
    rt: &R,
    alloc: Global,
    pair: &Pair,
    round: &Round,
    kept: &[bool; 3],
    blocks: &str,
) -> Result<(), Fail> {
    let mut bay = left_by(alloc, pair, round, kept)?;
    let some = kept.iter().zip(round.devices.iter()).any(|(kept, _)| *kept);
    let bare = match round.bare {
        Some(place) => !kept.get(place).copied().unwrap_or(true),
        None => false,
    };
    match (some, bare) {
        (false, _) => comes_back(rt, alloc, &mut bay, round.none, blocks),
        (true, false) => comes_back(rt, alloc, &mut bay, round.some, blocks),
        (true, true) => comes_back_without(rt, alloc, &mut bay, blocks),
    }
}

// A round is stopped at each place, and all that may be left of it is.
fn stop_all<R: Abort + Threads + Wait + Sync>(
    rt: &R,
    alloc: Global,
    pair: &Pair,
    round: &Round,
    blocks: &str,
) -> Result<(), Fail> {
    for kept in KEPT.iter() {
        stop(rt, alloc, pair, round, kept, blocks)?;
    }
    Ok(())
}

// The blocks behind all that a call writes.
fn blocks_of(words: &str) -> &'static str {
    if words.starts_with("r5 --io") {
        AFTER
    } else {
        BEFORE
    }
}

fn stop_call<R: Abort + Threads + Wait + Sync>(
    rt: &R,
    alloc: Global,
    stopped: &Stopped,
) -> Result<(), Fail> {
    let pair = pair_of(rt, alloc, stopped)?;
    for round in stopped.rounds {
        let blocks = if round.written {
            blocks_of(stopped.words)
        } else {
            BEFORE
        };
        stop_all(rt, alloc, &pair, round, blocks)?;
    }
    Ok(())
}

// Each call of a table, each round of it, and each of the eight images that a stop in it may leave.
#[test]
fn each_stop_within_a_round_is_adopted(rt: HostRuntime) -> Result<(), Fail> {
    for stopped in CALLS {
        stop_call(&rt, rt.alloc(), stopped)?;
    }
    Ok(())
}

// The first column that has a label of the new array, where not all have one.
fn first_kept(kept: &[bool; 3]) -> Option<usize> {
    if kept.iter().all(|kept| *kept) {
        None
    } else {
        kept.iter().position(|kept| *kept)
    }
}

// What a stopped `-I` leaves is refused where some labels are those of the array of before, adopted or not.
fn is_labelled_again<R: Abort + Threads + Wait + Sync>(
    rt: &R,
    alloc: Global,
    pair: &Pair,
    kept: &[bool; 3],
) -> Result<(), Fail> {
    let round = Round {
        to: Label::Ended,
        ..OPENING
    };
    let mut bay = left_by(alloc, pair, &round, kept)?;
    if let Some(column) = first_kept(kept) {
        let refused = format!(in alloc; "status label {column} 2 8 7\n")?;
        says(rt, alloc, &mut bay, "r5 -s --adopt", 9, refused.as_str())?;
        says(rt, alloc, &mut bay, "r5 -P --adopt", 9, refused.as_str())?;
    }
    says(
        rt,
        alloc,
        &mut bay,
        "r5 -I 8",
        0,
        "labels written 3\nstatus ok\n",
    )?;
    begins_to_say(rt, alloc, &mut bay, "r5 --io t2 -w 0", BEFORE)
}

// An array is labelled anew, and that is stopped: it is given again.
#[test]
fn first_labels_that_were_stopped_are_written_again(rt: HostRuntime) -> Result<(), Fail> {
    let stopped = Stopped {
        setup: LABELLED,
        renewed: false,
        words: "r5 -I 8",
        rounds: &[],
    };
    let pair = pair_of(&rt, rt.alloc(), &stopped)?;
    for kept in KEPT.iter() {
        is_labelled_again(&rt, rt.alloc(), &pair, kept)?;
    }
    Ok(())
}
