//! Each call of the bay and of the sink fails in turn.
use super::realistic::{FAULT, NAMES, PRINTED, WORDS, labelled, texts_of};
use super::*;

// A bay whose call of this number fails.
fn failing(alloc: Global, held: &Held, call: u32) -> Result<MemBay<MemDisk>, Fail> {
    let texts = texts_of(alloc)?;
    let disks = disks_of(alloc, held, Some(FAULT))?;
    let faults = vec![in alloc; call]?;
    Ok(MemBay::new(alloc, texts, disks, faults))
}

// The configuration and the script are read, and five disks and a spare are taken. Where one of these calls fails, no sector
// has changed and every component is back; a ninth call there isn't.
#[test]
fn the_bay_fails_at_each_of_its_calls(rt: HostRuntime) -> Result<(), Fail> {
    let alloc = rt.alloc();
    let held = labelled(&rt, alloc)?;
    for call in 0..8 {
        let mut bay = failing(alloc, &held, call)?;
        prints(&rt, alloc, &mut bay, (9, call), WORDS, (5, b"status bay\n"))?;
        hold(&rt, &bay, call, &held)?;
    }
    let mut bay = failing(alloc, &held, 8)?;
    prints(&rt, alloc, &mut bay, (9, 8), WORDS, (0, PRINTED))
}

// Into a sink of this room, of which these calls fail, so many bytes of the output are written.
fn is_cut<R: Abort + Threads + Wait + Sync>(
    rt: &R,
    alloc: Global,
    before: &Held,
    after: &Held,
    room: u32,
    fails: Vec<u32>,
) -> Result<u8, Fail> {
    let mut bay = bay_of(alloc, texts_of(alloc)?, before, Some(FAULT))?;
    let mut out = MemSink::new(alloc, room, fails)?;
    let number = ended(rt, alloc, &mut bay, WORDS, &mut out)?;
    same_at(rt, room, PRINTED.starts_with(out.bytes()), true);
    hold(rt, &bay, 0, after)?;
    Ok(number)
}

// What the components hold behind a run whose output is whole.
fn behind<R: Abort + Threads + Wait + Sync>(
    rt: &R,
    alloc: Global,
    before: &Held,
) -> Result<Held, Fail> {
    let mut bay = bay_of(alloc, texts_of(alloc)?, before, Some(FAULT))?;
    prints(rt, alloc, &mut bay, FAULT, WORDS, (0, PRINTED))?;
    held_by(alloc, &bay, NAMES)
}

// How many calls the sink has: the first that fails and isn't made.
fn sink_calls<R: Abort + Threads + Wait + Sync>(
    rt: &R,
    alloc: Global,
    before: &Held,
    after: &Held,
) -> Result<u32, Fail> {
    for call in 0..100 {
        let fails = vec![in alloc; call]?;
        let number = is_cut(rt, alloc, before, after, 8192, fails)?;
        if number == 0 {
            return Ok(call);
        }
        same_at(rt, call, number, 7);
    }
    Err("the sink has no last call".into())
}

// The output is put by pages, of which there is one: the sink's first call fails, or has room for a part of it. What was
// written is a prefix of the output, and the components hold what they would.
#[test]
fn the_sink_fails_at_each_of_its_calls(rt: HostRuntime) -> Result<(), Fail> {
    let alloc = rt.alloc();
    let before = labelled(&rt, alloc)?;
    let after = behind(&rt, alloc, &before)?;
    let calls = sink_calls(&rt, alloc, &before, &after)?;
    same_at(&rt, calls, calls == 0, false);
    for room in [0, 1, 14, 15, 47, 84] {
        let number = is_cut(&rt, alloc, &before, &after, room, Vec::new(alloc))?;
        same_at(&rt, room, number, 7);
    }
    Ok(())
}
