//! Sessions: commands on a bay in memory, and what each of them prints and leaves.
use crate::judging::same_at;
use blk_disk::{Call, MemDisk, SECTOR, StopDisk};
use raid_bay::{Bay, MemBay, MemSink, Name};
use raid_progress::{Progress, Silent};
use raid_top::{Doubts, run};
use std::alloc::Global;
use std::process::Abort;
use std::sync::Wait;
use std::test::Fail;
use std::thread::Threads;

mod adopted;
mod crews;
mod faults;
mod join_lines;
mod joined;
mod layouts;
mod letters;
mod levels;
mod maps;
mod ordered;
mod parts;
mod progress;
mod rebuilds;
mod refused;
mod resumed;
mod rows;
mod scans;
mod several;
mod simulations;
mod stops;
mod topics;

const CONF: &str = "START array\n1 3 0\nSTART disks\nd0\nd1\nd2\nSTART layout\n1 1 1 5\n";

const SCRIPT: &str = "0 write 0 1 a5\n0 read 0 1\n";

// The components of each bay. A configuration names those that it takes.
const NAMES: &[&str] = &["d0", "d1", "d2", "d3", "d4", "d5", "d6", "s0", "z"];

/// A step of a session.
#[derive(Clone, Copy)]
enum Step {
    /// These words end with this number, and print this.
    Run(&'static str, u8, &'static str),
    /// The component holds this: a line for each sector that isn't zero, its number and the byte that fills it.
    Holds(&'static str, &'static str),
    /// The component's first bytes are these.
    Begins(&'static str, &'static [u8]),
    /// The component has had these calls, a line each.
    Calls(&'static str, &'static str),
    /// The component is replaced by one of as many zeros.
    Renew(&'static str),
    /// The component is replaced by one of so many sectors of zeros.
    Resize(&'static str, u16),
    /// The second of these components is replaced by one that holds what the first does.
    Copy(&'static str, &'static str),
    /// Its sector of this number is filled with this byte.
    Spoil(&'static str, u16, u8),
    /// Its sector 1 is replaced by a map of this serial number, which marks these of the first eight regions.
    Mark(&'static str, u16, u8),
    /// Its byte of this number is replaced by this one.
    Put(&'static str, u16, u8),
    /// The bay has it no more.
    Lose(&'static str),
}

/// A configuration `r5`, a script `s1` and other texts `t1` and `t2`; how many sectors each component has; which calls of which
/// components fail, by their numbers, and which calls of the bay; and what is done.
#[derive(Clone, Copy)]
struct Session {
    conf: &'static str,
    script: &'static str,
    other: &'static str,
    more: &'static str,
    sectors: u16,
    fails: &'static [(&'static str, u32)],
    faults: &'static [u32],
    steps: &'static [Step],
}

// Three columns at level 5, of which nothing is asked yet.
const PLAIN: Session = Session {
    conf: CONF,
    script: SCRIPT,
    other: "",
    more: "",
    sectors: 128,
    fails: &[],
    faults: &[],
    steps: &[],
};

fn zeros(alloc: Global, sectors: u16, fails: Vec<u32>) -> Result<MemDisk, Fail> {
    let bytes = vec![in alloc; 0; SECTOR * usize::from(sectors)]?;
    Ok(MemDisk::new(alloc, bytes, fails, 100)?)
}

fn fails_of(alloc: Global, name: &str, fails: &[(&str, u32)]) -> Result<Vec<u32>, Fail> {
    let mut calls = Vec::new(alloc);
    for (other, call) in fails {
        if *other == name {
            calls.push(*call)?;
        }
    }
    Ok(calls)
}

fn text(alloc: Global, name: &str, text: &str) -> Result<(Name, Vec<u8>), Fail> {
    Ok((Name::new(alloc, name)?, text.as_bytes().to_vec(alloc)?))
}

// These texts, each with its name.
fn text_list(alloc: Global, texts: &[(&str, &str)]) -> Result<Vec<(Name, Vec<u8>)>, Fail> {
    let mut list = Vec::new(alloc);
    for (name, words) in texts {
        list.push(text(alloc, *name, *words)?)?;
    }
    Ok(list)
}

fn bay_of(alloc: Global, session: &Session) -> Result<MemBay<MemDisk>, Fail> {
    let texts = [
        ("r5", session.conf),
        ("s1", session.script),
        ("t1", session.other),
        ("t2", session.more),
    ];
    let texts = text_list(alloc, &texts)?;
    let mut disks = Vec::new(alloc);
    for name in NAMES {
        let fails = fails_of(alloc, *name, session.fails)?;
        let disk = zeros(alloc, session.sectors, fails)?;
        disks.push((Name::new(alloc, *name)?, disk))?;
    }
    let faults = session.faults.to_vec(alloc)?;
    Ok(MemBay::new(alloc, texts, disks, faults))
}

fn names_of(alloc: Global, words: &str) -> Result<Vec<Name>, Fail> {
    let mut names = Vec::new(alloc);
    for word in words.split_whitespace() {
        names.push(Name::new(alloc, word)?)?;
    }
    Ok(names)
}

// The exit number of these words, and what they print; this is told how far they are.
fn answer_telling<D, R, P>(
    rt: &R,
    alloc: Global,
    bay: &mut MemBay<D>,
    words: &str,
    progress: &P,
) -> Result<(u8, Vec<u8>), Fail>
where
    D: StopDisk + Drop + Send,
    R: Threads + Wait + Sync,
    P: Progress + Doubts + Sync,
{
    let mut out = MemSink::new(alloc, 16_384, Vec::new(alloc))?;
    let words = names_of(alloc, words)?;
    let status = run(rt, alloc, &words, bay, &mut out, progress);
    Ok((status.number(), out.bytes().to_vec(alloc)?))
}

// The same, where nobody is told.
fn answer<D: StopDisk + Drop + Send, R: Threads + Wait + Sync>(
    rt: &R,
    alloc: Global,
    bay: &mut MemBay<D>,
    words: &str,
) -> Result<(u8, Vec<u8>), Fail> {
    answer_telling(rt, alloc, bay, words, &Silent)
}

// These words end with this number, and print this.
fn says<D: StopDisk + Drop + Send, R: Abort + Threads + Wait + Sync>(
    rt: &R,
    alloc: Global,
    bay: &mut MemBay<D>,
    words: &str,
    exit: u8,
    lines: &str,
) -> Result<(), Fail> {
    let (number, printed) = answer(rt, alloc, bay, words)?;
    same_at(rt, words, printed.as_slice(), lines.as_bytes());
    same_at(rt, words, number, exit);
    Ok(())
}

fn is_filled(bytes: &[u8], byte: u8) -> bool {
    for other in bytes {
        if *other != byte {
            return false;
        }
    }
    true
}

// The line of a sector: none where it is zero.
fn sector_line(alloc: Global, number: usize, sector: &[u8]) -> Result<String, Fail> {
    let byte = sector.first().copied().unwrap_or(0);
    if !is_filled(sector, byte) {
        Ok(format!(in alloc; "{number} mixed\n")?)
    } else if byte == 0 {
        Ok(String::new(alloc))
    } else {
        Ok(format!(in alloc; "{number} {byte:02x}\n")?)
    }
}

fn held_by(alloc: Global, disk: &MemDisk) -> Result<String, Fail> {
    let mut lines = String::new(alloc);
    for (number, sector) in disk.bytes().chunks(SECTOR).enumerate() {
        let line = sector_line(alloc, number, sector)?;
        lines.push_str(&line)?;
    }
    Ok(lines)
}

fn call_line(alloc: Global, call: &Call) -> Result<String, Fail> {
    let (first, count) = (call.first, call.count);
    let end = if call.good { "" } else { " bad" };
    if call.kind == Call::READ {
        Ok(format!(in alloc; "read {first} {count}{end}\n")?)
    } else if call.kind == Call::WRITE {
        Ok(format!(in alloc; "write {first} {count}{end}\n")?)
    } else {
        Ok(format!(in alloc; "settle{end}\n")?)
    }
}

fn calls_of(alloc: Global, disk: &MemDisk) -> Result<String, Fail> {
    let mut lines = String::new(alloc);
    for call in disk.calls() {
        let line = call_line(alloc, call)?;
        lines.push_str(&line)?;
    }
    Ok(lines)
}

// The bay has this component no more.
fn lose(alloc: Global, bay: &mut MemBay<MemDisk>, name: &str) -> Result<(), Fail> {
    match bay.take(alloc, name) {
        Ok(_) => Ok(()),
        Err(_) => Err("no component of that name".into()),
    }
}

// Puts a component of these bytes in the place of this one.
fn replace(
    alloc: Global,
    bay: &mut MemBay<MemDisk>,
    name: &str,
    bytes: Vec<u8>,
) -> Result<(), Fail> {
    if bytes.len() % SECTOR != 0 {
        return Err("not whole sectors".into());
    }
    let disk = MemDisk::new(alloc, bytes, Vec::new(alloc), 100)?;
    match bay.take(alloc, name) {
        Ok(_) => {}
        Err(_) => return Err("no component of that name".into()),
    }
    bay.put(name, disk);
    Ok(())
}

fn found<'a>(bay: &'a MemBay<MemDisk>, name: &str) -> Result<&'a MemDisk, Fail> {
    match bay.disk(name) {
        Some(disk) => Ok(disk),
        None => Err("no component of that name".into()),
    }
}

// A component of as many zeros in the place of this one.
fn renew(alloc: Global, bay: &mut MemBay<MemDisk>, name: &str) -> Result<(), Fail> {
    let bytes = vec![in alloc; 0; found(bay, name)?.bytes().len()]?;
    replace(alloc, bay, name, bytes)
}

// Puts a component of so many zeros in its place.
fn resize(alloc: Global, bay: &mut MemBay<MemDisk>, name: &str, sectors: u16) -> Result<(), Fail> {
    let bytes = vec![in alloc; 0; SECTOR * usize::from(sectors)]?;
    replace(alloc, bay, name, bytes)
}

// What the one holds in the place of the other.
fn copy(alloc: Global, bay: &mut MemBay<MemDisk>, from: &str, to: &str) -> Result<(), Fail> {
    let bytes = found(bay, from)?.bytes().to_vec(alloc)?;
    replace(alloc, bay, to, bytes)
}

fn spoil(
    alloc: Global,
    bay: &mut MemBay<MemDisk>,
    name: &str,
    sector: u16,
    byte: u8,
) -> Result<(), Fail> {
    let mut bytes = found(bay, name)?.bytes().to_vec(alloc)?;
    match bytes.chunks_mut(SECTOR).nth(usize::from(sector)) {
        Some(spoilt) => spoilt.fill(byte),
        None => return Err("no such sector".into()),
    }
    replace(alloc, bay, name, bytes)
}

fn put(
    alloc: Global,
    bay: &mut MemBay<MemDisk>,
    name: &str,
    place: u16,
    byte: u8,
) -> Result<(), Fail> {
    let mut bytes = found(bay, name)?.bytes().to_vec(alloc)?;
    match bytes.iter_mut().nth(usize::from(place)) {
        Some(old) => *old = byte,
        None => return Err("no such byte".into()),
    }
    replace(alloc, bay, name, bytes)
}

// The component holds what these lines say.
fn has_lines(
    rt: &impl Abort,
    alloc: Global,
    bay: &MemBay<MemDisk>,
    name: &str,
    lines: &str,
) -> Result<(), Fail> {
    let held = held_by(alloc, found(bay, name)?)?;
    same_at(rt, name, held.as_str(), lines);
    Ok(())
}

// It has had the calls of these lines.
fn was_called(
    rt: &impl Abort,
    alloc: Global,
    bay: &MemBay<MemDisk>,
    name: &str,
    lines: &str,
) -> Result<(), Fail> {
    let calls = calls_of(alloc, found(bay, name)?)?;
    same_at(rt, name, calls.as_str(), lines);
    Ok(())
}

// Its first bytes are these.
fn begins(rt: &impl Abort, bay: &MemBay<MemDisk>, name: &str, bytes: &[u8]) -> Result<(), Fail> {
    let disk = found(bay, name)?;
    same_at(rt, name, disk.bytes().starts_with(bytes), true);
    Ok(())
}

// Does what a step says, and looks at what comes of it.
fn act_out<R: Abort + Threads + Wait + Sync>(
    rt: &R,
    alloc: Global,
    bay: &mut MemBay<MemDisk>,
    step: Step,
) -> Result<(), Fail> {
    match step {
        Step::Run(words, exit, lines) => says(rt, alloc, bay, words, exit, lines),
        Step::Holds(name, lines) => has_lines(rt, alloc, bay, name, lines),
        Step::Begins(name, bytes) => begins(rt, bay, name, bytes),
        Step::Calls(name, lines) => was_called(rt, alloc, bay, name, lines),
        Step::Renew(name) => renew(alloc, bay, name),
        Step::Resize(name, sectors) => resize(alloc, bay, name, sectors),
        Step::Copy(from, to) => copy(alloc, bay, from, to),
        Step::Spoil(name, sector, byte) => spoil(alloc, bay, name, sector, byte),
        Step::Mark(name, serial, marks) => maps::marked_by_hand(alloc, bay, name, serial, marks),
        Step::Put(name, place, byte) => put(alloc, bay, name, place, byte),
        Step::Lose(name) => lose(alloc, bay, name),
    }
}

// One step after another.
fn act_all<R: Abort + Threads + Wait + Sync>(
    rt: &R,
    alloc: Global,
    bay: &mut MemBay<MemDisk>,
    steps: &[Step],
) -> Result<(), Fail> {
    for step in steps {
        act_out(rt, alloc, bay, *step)?;
    }
    Ok(())
}

// Sessions, each on its own bay.
fn play<R: Abort + Threads + Wait + Sync>(
    rt: &R,
    alloc: Global,
    sessions: &[Session],
) -> Result<(), Fail> {
    for session in sessions {
        let mut bay = bay_of(alloc, session)?;
        act_all(rt, alloc, &mut bay, session.steps)?;
    }
    Ok(())
}
