//! Commands on a bay in memory of which one call fails, or whose power stops, and what each of them prints and leaves.
use crate::judging::same_at;
use blk_disk::{MemDisk, SECTOR, StopDisk};
use raid_bay::{MemBay, MemSink, Name};
use raid_progress::Silent;
use raid_top::run;
use std::alloc::Global;
use std::process::Abort;
use std::sync::Wait;
use std::test::Fail;
use std::thread::Threads;

mod bays;
mod cuts;
mod devices;
mod growths;
mod realistic;
mod spreading;
mod stops;

/// A component by its number, and the number of its call that fails.
type Fault = (usize, u32);

/// What components hold, by their names.
#[derive(Drop)]
struct Held {
    names: &'static [&'static str],
    bytes: Vec<Vec<u8>>,
}

fn zeros(alloc: Global, sectors: usize) -> Result<Vec<u8>, Fail> {
    let mut bytes = Vec::new(alloc);
    for _ in 0..sectors {
        bytes.extend_from_slice(&[0; SECTOR])?;
    }
    Ok(bytes)
}

// Components of so many sectors of zeros.
fn blank(alloc: Global, names: &'static [&'static str], sectors: usize) -> Result<Held, Fail> {
    let mut all = Vec::new(alloc);
    for _ in names {
        let bytes = zeros(alloc, sectors)?;
        all.push(bytes)?;
    }
    Ok(Held { names, bytes: all })
}

// A component that holds this, and whose call of this number fails.
fn device(alloc: Global, held: &[u8], fail: Option<u32>) -> Result<MemDisk, Fail> {
    let bytes = held.to_vec(alloc)?;
    if bytes.len() % SECTOR != 0 {
        return Err("not whole sectors".into());
    }
    let mut fails = Vec::new(alloc);
    if let Some(call) = fail {
        fails.push(call)?;
    }
    Ok(MemDisk::new(alloc, bytes, fails, 400)?)
}

fn fault_of(at: usize, fault: Option<Fault>) -> Option<u32> {
    match fault {
        Some((component, call)) if component == at => Some(call),
        _ => None,
    }
}

// Components that hold this, and of which one call fails.
fn disks_of(
    alloc: Global,
    held: &Held,
    fault: Option<Fault>,
) -> Result<Vec<(Name, MemDisk)>, Fail> {
    let mut disks = Vec::new(alloc);
    for (at, (name, bytes)) in held.names.iter().zip(&held.bytes).enumerate() {
        let disk = device(alloc, bytes, fault_of(at, fault))?;
        disks.push((Name::new(alloc, name)?, disk))?;
    }
    Ok(disks)
}

fn text(alloc: Global, name: &str, text: &str) -> Result<(Name, Vec<u8>), Fail> {
    Ok((Name::new(alloc, name)?, text.as_bytes().to_vec(alloc)?))
}

// These texts, each with its name.
fn text_list(alloc: Global, texts: &[(&str, &str)]) -> Result<Vec<(Name, Vec<u8>)>, Fail> {
    let mut list = Vec::new(alloc);
    for (name, words) in texts {
        list.push(text(alloc, *name, *words)?)?;
    }
    Ok(list)
}

// A bay of these texts, and of components that hold this and of which one call fails.
fn bay_of(
    alloc: Global,
    texts: Vec<(Name, Vec<u8>)>,
    held: &Held,
    fault: Option<Fault>,
) -> Result<MemBay<MemDisk>, Fail> {
    let disks = disks_of(alloc, held, fault)?;
    Ok(MemBay::new(alloc, texts, disks, Vec::new(alloc)))
}

fn names_of(alloc: Global, words: &str) -> Result<Vec<Name>, Fail> {
    let mut names = Vec::new(alloc);
    for word in words.split_whitespace() {
        names.push(Name::new(alloc, word)?)?;
    }
    Ok(names)
}

fn sink(alloc: Global) -> Result<MemSink, Fail> {
    Ok(MemSink::new(alloc, 8192, Vec::new(alloc))?)
}

// The exit number of these words.
fn ended<D: StopDisk + Drop + Send, R: Threads + Wait + Sync>(
    rt: &R,
    alloc: Global,
    bay: &mut MemBay<D>,
    words: &str,
    out: &mut MemSink,
) -> Result<u8, Fail> {
    let words = names_of(alloc, words)?;
    Ok(run(rt, alloc, &words, bay, out, &Silent).number())
}

// These words end with this number and print this; what is wrong is told beside this fault.
fn prints<R: Abort + Threads + Wait + Sync>(
    rt: &R,
    alloc: Global,
    bay: &mut MemBay<MemDisk>,
    at: Fault,
    words: &str,
    wanted: (u8, &[u8]),
) -> Result<(), Fail> {
    let mut out = sink(alloc)?;
    let number = ended(rt, alloc, bay, words, &mut out)?;
    same_at(rt, (at, words), out.bytes(), wanted.1);
    same_at(rt, (at, words), number, wanted.0);
    Ok(())
}

fn found<'a>(bay: &'a MemBay<MemDisk>, name: &str) -> Result<&'a MemDisk, Fail> {
    match bay.disk(name) {
        Some(disk) => Ok(disk),
        None => Err("no component of that name".into()),
    }
}

// What these components hold: all of them are back.
fn held_by(
    alloc: Global,
    bay: &MemBay<MemDisk>,
    names: &'static [&'static str],
) -> Result<Held, Fail> {
    let mut all = Vec::new(alloc);
    for name in names {
        let bytes = found(bay, name)?.bytes().to_vec(alloc)?;
        all.push(bytes)?;
    }
    Ok(Held { names, bytes: all })
}

// All components are back, and hold this.
fn hold<R: Abort>(rt: &R, bay: &MemBay<MemDisk>, at: u32, held: &Held) -> Result<(), Fail> {
    for (name, bytes) in held.names.iter().zip(&held.bytes) {
        let disk = found(bay, name)?;
        same_at(rt, (at, *name), disk.bytes() == bytes.as_slice(), true);
    }
    Ok(())
}

// How many calls a component has had.
fn calls(bay: &MemBay<MemDisk>, held: &Held, component: usize) -> Result<usize, Fail> {
    match held.names.get(component) {
        Some(name) => Ok(found(bay, name)?.calls().len()),
        None => Err("no such component".into()),
    }
}
