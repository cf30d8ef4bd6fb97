//! The power stops behind each call of a run that keeps a parity map, whatever is kept of what the devices have logged.
//!
//! A write logs its sectors and a settle clears the log, so that a stop leaves what it would have left a call before with
//! few exceptions. Only these are tried: behind a write that it keeps all, one of the new sectors alone, or all but one;
//! behind a settle that it keeps nothing, or one sector alone. A sector that is written as it was settled is passed over.
use super::realistic::{CONF, SCRIPT, labelled};
use super::*;
use crate::judging::same;
use blk_disk::{Disk, MemStop};
use raid_bay::Bay;

mod noted;

use noted::{Change, Clock, Note, NotingDisk};

// The log has room for three units and three sectors more.
const ROOM: u32 = 99;

// The configuration, the script and an empty one.
fn texts_of(alloc: Global) -> Result<Vec<(Name, Vec<u8>)>, Fail> {
    text_list(alloc, &[("r5", CONF), ("s1", SCRIPT), ("t1", "")])
}

// A device that holds this.
fn stop_disk(alloc: Global, held: &[u8]) -> Result<MemStop, Fail> {
    let bytes = held.to_vec(alloc)?;
    if bytes.len() % SECTOR != 0 {
        return Err("not whole sectors".into());
    }
    Ok(MemStop::new(alloc, bytes, ROOM)?)
}

// Components that hold this, of which is noted what changes them.
fn noting_bay(alloc: Global, held: &Held) -> Result<MemBay<NotingDisk<MemStop>>, Fail> {
    let clock = Clock::new(alloc)?;
    let mut disks = Vec::new(alloc);
    for (name, bytes) in held.names.iter().zip(&held.bytes) {
        let noting = NotingDisk::new(alloc, stop_disk(alloc, bytes)?, clock.clone()?);
        disks.push((Name::new(alloc, name)?, noting))?;
    }
    Ok(MemBay::new(alloc, texts_of(alloc)?, disks, Vec::new(alloc)))
}

// These words end well and print this behind this stop.
fn says<D: StopDisk + Drop + Send, R: Abort + Threads + Wait + Sync>(
    rt: &R,
    alloc: Global,
    bay: &mut MemBay<D>,
    stop: Stop,
    words: &str,
    lines: &str,
) -> Result<(), Fail> {
    let mut out = sink(alloc)?;
    let number = ended(rt, alloc, bay, words, &mut out)?;
    same_at(rt, (stop, words), out.bytes(), lines.as_bytes());
    same_at(rt, (stop, words), number, 0);
    Ok(())
}

// What each component was asked for by the run, where nothing stops.
fn notes_of<R: Abort + Threads + Wait + Sync>(
    rt: &R,
    alloc: Global,
    held: &Held,
) -> Result<Vec<Vec<Note>>, Fail> {
    let mut bay = noting_bay(alloc, held)?;
    let lines =
        "reply 0.0 done\nreply 0.1 data\nblock 64 256 5a\ncommit 0.0\ncommit 0.1\nstatus ok\n";
    let words = "r5 --io s1 -w 0 --map";
    says(rt, alloc, &mut bay, BEFORE, words, lines)?;
    let mut all = Vec::new(alloc);
    for name in held.names {
        match bay.take(alloc, *name) {
            Ok(disk) => all.push(disk.into_notes())?,
            Err(_) => return Err("no component of that name".into()),
        }
    }
    Ok(all)
}

/// A logged sector: its component, and which of those that this has logged it is.
type Place = (usize, usize);

/// What a stop keeps of the logged sectors.
#[derive(Clone, Copy, Debug)]
enum Keep {
    All,
    Nothing,
    Alone(Place),
    AllBut(Place),
}

/// A stop behind so many of the noted calls, and what it keeps.
type Stop = (u64, Keep);

const BEFORE: Stop = (0, Keep::Nothing);

fn keeps(keep: Keep, place: Place) -> bool {
    match keep {
        Keep::All => true,
        Keep::Nothing => false,
        Keep::Alone(one) => place == one,
        Keep::AllBut(one) => place != one,
    }
}

// Makes a noted write.
fn write(disk: &mut MemStop, first: u64, bytes: &[u8]) -> Result<(), Fail> {
    let count = (bytes.len() / SECTOR) as u64;
    let sectors = disk.sectors();
    if bytes.len() % SECTOR != 0 || count > sectors || first > sectors - count {
        return Err("not sectors of the device".into());
    }
    match disk.write(first, bytes) {
        Ok(()) => Ok(()),
        Err(_) => Err("no room in the log".into()),
    }
}

// Makes a noted call.
fn make(disk: &mut MemStop, change: &Change) -> Result<(), Fail> {
    match change {
        Change::Write { first, bytes } => write(disk, *first, bytes),
        Change::Settle => match disk.settle() {
            Ok(()) => Ok(()),
            Err(_) => Err("a settle failed".into()),
        },
    }
}

// The device behind so many of all noted calls.
fn called(alloc: Global, held: &[u8], notes: &[Note], calls: u64) -> Result<MemStop, Fail> {
    let mut disk = stop_disk(alloc, held)?;
    for note in notes {
        if note.number < calls {
            make(&mut disk, &note.change)?;
        }
    }
    Ok(disk)
}

// What the stop leaves of this component.
fn left(alloc: Global, disk: MemStop, component: usize, keep: Keep) -> Result<MemStop, Fail> {
    let mut kept = Vec::new(alloc);
    for at in 0..disk.logged() {
        kept.push(keeps(keep, (component, at as usize)))?;
    }
    if kept.len() != disk.logged() as usize {
        return Err("not an entry for each sector".into());
    }
    Ok(disk.stop(&kept))
}

// What the stop leaves of all components.
fn stopped(
    alloc: Global,
    held: &Held,
    notes: &[Vec<Note>],
    (calls, keep): Stop,
) -> Result<MemBay<MemStop>, Fail> {
    let mut disks = Vec::new(alloc);
    let components = held.names.iter().zip(&held.bytes).zip(notes);
    for (component, ((name, bytes), notes)) in components.enumerate() {
        let disk = called(alloc, bytes, notes, calls)?;
        let disk = left(alloc, disk, component, keep)?;
        disks.push((Name::new(alloc, name)?, disk))?;
    }
    Ok(MemBay::new(alloc, texts_of(alloc)?, disks, Vec::new(alloc)))
}

/// A logged sector: where it stands, whether it is one of a label, whether it was written otherwise than it was settled,
/// and whether it was logged by the last call of all.
#[derive(Clone, Copy)]
struct Logged {
    place: Place,
    labels: bool,
    differs: bool,
    late: bool,
}

// Adds what a write logs on a component, whose settled bytes are these.
fn log(
    logged: &mut Vec<Logged>,
    component: usize,
    late: bool,
    settled: &[u8],
    (first, bytes): (u64, &[u8]),
) -> Result<(), Fail> {
    for (sector, bytes) in (first..u64::MAX).zip(bytes.chunks(SECTOR)) {
        let before = settled.chunks(SECTOR).nth(sector as usize);
        logged.push(Logged {
            place: (component, logged.len()),
            labels: sector == 0,
            differs: before != Some(bytes),
            late,
        })?;
    }
    Ok(())
}

// What a component has logged behind so many calls.
fn logged_by(
    alloc: Global,
    component: usize,
    settled: &[u8],
    notes: &[Note],
    calls: u64,
) -> Result<Vec<Logged>, Fail> {
    let mut logged = Vec::new(alloc);
    for note in notes {
        if note.number < calls {
            match &note.change {
                Change::Write { first, bytes } => {
                    let late = note.number == calls - 1;
                    log(&mut logged, component, late, settled, (*first, bytes))?;
                }
                Change::Settle => logged.clear(),
            }
        }
    }
    Ok(logged)
}

// What all components have logged behind so many calls.
fn log_behind(
    alloc: Global,
    held: &Held,
    notes: &[Vec<Note>],
    calls: u64,
) -> Result<Vec<Logged>, Fail> {
    let bay = stopped(alloc, held, notes, (calls, Keep::Nothing))?;
    let mut all = Vec::new(alloc);
    for (component, (name, notes)) in held.names.iter().zip(notes).enumerate() {
        let settled = match bay.disk(name) {
            Some(disk) => disk.bytes(),
            None => return Err("no component of that name".into()),
        };
        let own = logged_by(alloc, component, settled, notes, calls)?;
        all.extend_from_slice(&own)?;
    }
    Ok(all)
}

// Whether the last of so many calls is a settle.
fn settles(notes: &[Vec<Note>], calls: u64) -> Result<bool, Fail> {
    for note in notes.iter().flatten() {
        if note.number.checked_add(1) == Some(calls) {
            return Ok(matches!(&note.change, Change::Settle));
        }
    }
    Err("no call of that number".into())
}

// Adds the stops behind so many calls that leave what none behind fewer does, but for stops within a round of labels.
fn add_stops(
    stops: &mut Vec<Stop>,
    calls: u64,
    settles: bool,
    logged: &[Logged],
) -> Result<(), Fail> {
    let differs = logged.iter().any(|sector| sector.late && sector.differs);
    if logged.iter().any(|sector| sector.labels) || !(settles || differs) {
        return Ok(());
    }
    let whole = if settles { Keep::Nothing } else { Keep::All };
    stops.push((calls, whole))?;
    for sector in logged.iter().filter(|sector| sector.differs) {
        if settles || sector.late {
            stops.push((calls, Keep::Alone(sector.place)))?;
        }
        if !settles {
            stops.push((calls, Keep::AllBut(sector.place)))?;
        }
    }
    Ok(())
}

// The stops behind these calls.
fn stops_of(
    alloc: Global,
    held: &Held,
    notes: &[Vec<Note>],
    from: u64,
    to: u64,
) -> Result<Vec<Stop>, Fail> {
    let mut stops = Vec::new(alloc);
    for calls in from..to {
        let logged = log_behind(alloc, held, notes, calls)?;
        add_stops(&mut stops, calls, settles(notes, calls)?, &logged)?;
    }
    Ok(stops)
}

// The array is opened again: what is marked is swept, and then each stripe is in sync.
fn is_swept<R: Abort + Threads + Wait + Sync>(
    rt: &R,
    alloc: Global,
    held: &Held,
    notes: &[Vec<Note>],
    stop: Stop,
) -> Result<(), Fail> {
    let mut bay = stopped(alloc, held, notes, stop)?;
    says(rt, alloc, &mut bay, stop, "r5 --io t1 -w 0", "status ok\n")?;
    says(
        rt,
        alloc,
        &mut bay,
        stop,
        "r5 -p",
        "parity clean\nstatus ok\n",
    )
}

// The run is stopped behind each of these calls, which are so many stops.
fn are_swept<R: Abort + Threads + Wait + Sync>(
    rt: &R,
    alloc: Global,
    from: u64,
    to: u64,
    count: usize,
) -> Result<(), Fail> {
    let held = labelled(rt, alloc)?;
    let notes = notes_of(rt, alloc, &held)?;
    let stops = stops_of(alloc, &held, &notes, from, to)?;
    same(rt, stops.len(), count);
    for stop in &stops {
        is_swept(rt, alloc, &held, &notes, *stop)?;
    }
    Ok(())
}

// The map of each of five columns is written and settled: behind the write it is kept or lost.
#[test]
fn a_run_is_stopped_as_maps_are_marked(rt: HostRuntime) -> Result<(), Fail> {
    are_swept(&rt, rt.alloc(), 1, 11, 20)
}

// Of the first stripe and of the third two units are written, of the second four; and of each then the check unit, which
// stays zero. Behind the write of data unit number n of all, each of its 32 sectors is kept alone, and each of the 32 n that
// are logged is lost alone. Here n is 1 to 4.
#[test]
fn a_run_is_stopped_as_it_begins_to_write(rt: HostRuntime) -> Result<(), Fail> {
    are_swept(&rt, rt.alloc(), 11, 16, 452)
}

// The last two units of the second stripe.
#[test]
fn a_run_is_stopped_as_it_writes(rt: HostRuntime) -> Result<(), Fail> {
    are_swept(&rt, rt.alloc(), 16, 19, 418)
}

// The two units of the third stripe.
#[test]
fn a_run_is_stopped_as_its_writes_end(rt: HostRuntime) -> Result<(), Fail> {
    are_swept(&rt, rt.alloc(), 19, 22, 546)
}

// As the devices are settled, seven data units are left in the logs, six, four, two and none. Then labels are written, and at
// last the map of each column is cleared and settled.
#[test]
fn a_run_is_stopped_as_it_is_closed(rt: HostRuntime) -> Result<(), Fail> {
    are_swept(&rt, rt.alloc(), 22, 47, 634)
}
