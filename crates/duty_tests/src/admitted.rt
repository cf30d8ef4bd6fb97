//! What is admitted, and which refusal comes first. The rows are worked by hand: a component of 128 sectors has 64 of them for
//! units, behind the 64 that are kept free.
use crate::commands::command_of;
use crate::judging::{holds, len_at, same, same_at};
use blk_disk::{MemDisk, SECTOR};
use eng_array::Start;
use eng_cols::Column;
use lay_core::Layout;
use raid_bay::{MemBay, MemSink, Name};
use raid_label::{Label, write_label};
use std::alloc::Global;
use std::process::Abort;
use std::test::Fail;
use top_bay::put_all;
use top_duty::*;
use top_open::Front;
use top_status::{Refusal, put_refusal};

const CONF: &str = "START array\n1 3 0\nSTART disks\nd0\nd1\nd2\nSTART layout\n1 1 1 5\n";

// The second disk is absent, or the second and the third.
const ONE_AWAY: &str = "START array\n1 3 0\nSTART disks\nd0\nabsent\nd2\nSTART layout\n1 1 1 5\n";

const TWO_AWAY: &str =
    "START array\n1 3 0\nSTART disks\nd0\nabsent\nabsent\nSTART layout\n1 1 1 5\n";

// A read of all 128 blocks.
const READ: &str = "0 read 0 128\n";

// The text of so many reads.
fn script_of(alloc: Global, reads: u16) -> Result<(Name, Vec<u8>), Fail> {
    let name = Name::new(alloc, "script")?;
    Ok((name, READ.as_bytes().repeat(alloc, usize::from(reads))?))
}

// The label of a disk: serial number, counter and column.
type Mark = (u32, u32, u32);

const NONE: Mark = (0, 0, 0);

const BLANK: [Mark; 3] = [NONE, NONE, NONE];

const SOUND: [Mark; 3] = [(7, 3, 0), (7, 3, 1), (7, 3, 2)];

const STALE: [Mark; 3] = [(7, 3, 0), (7, 2, 1), (7, 3, 2)];

const FOREIGN: [Mark; 3] = [(1001, 3, 0), (1001, 3, 1), (7, 1, 2)];

const NEW: [Mark; 3] = [(7, 3, 0), (7, 3, 1), NONE];

// One more than the greatest counter of which labels may be written.
const WORN: [Mark; 3] = [
    (7, 4_294_901_761, 0),
    (7, 4_294_901_761, 1),
    (7, 4_294_901_761, 2),
];

const LAST: [Mark; 3] = [
    (7, 4_294_901_760, 0),
    (7, 4_294_901_760, 1),
    (7, 4_294_901_760, 2),
];

// The first sector of a disk with this label; of zeros where the counter is 0.
fn sector_of(mark: Mark) -> [u8; SECTOR] {
    let (serial, counter, column) = mark;
    let mut sector = [0; SECTOR];
    if counter > 0 {
        let label = Label {
            version: 1,
            serial,
            counter,
            column,
            columns: 3,
            unit: 1,
            rows: 64,
            level: 53,
            clean: 1,
            b: 0,
            k: 0,
            r: 0,
            lambda: 0,
            seats: [0; 32],
            filling: 0,
            done: 0,
        };
        write_label(&label, &mut sector);
    }
    sector
}

/// A disk of so many sectors, of which the first is this one and the others are zeros.
pub(crate) fn disk_of(
    alloc: Global,
    name: &str,
    sectors: u16,
    first: &[u8; SECTOR],
) -> Result<(Name, MemDisk), Fail> {
    let mut bytes = vec![in alloc; 0; SECTOR * usize::from(sectors)]?;
    for (byte, own) in bytes.iter_mut().zip(first.iter()) {
        *byte = *own;
    }
    let disk = MemDisk::new(alloc, bytes, Vec::new(alloc), 10)?;
    Ok((Name::new(alloc, name)?, disk))
}

// A disk of so many sectors, with this label in the first; with none where the counter is 0.
fn marked(alloc: Global, name: &str, sectors: u16, mark: Mark) -> Result<(Name, MemDisk), Fail> {
    disk_of(alloc, name, sectors, &sector_of(mark))
}

// The disks d0 to d2 with these labels, the second of so many sectors.
fn disks_of(alloc: Global, marks: [Mark; 3], sectors: u16) -> Result<Vec<(Name, MemDisk)>, Fail> {
    let [first, second, third] = marks;
    let mut disks = Vec::new(alloc);
    disks.push(marked(alloc, "d0", 128, first)?)?;
    disks.push(marked(alloc, "d1", sectors, second)?)?;
    disks.push(marked(alloc, "d2", 128, third)?)?;
    Ok(disks)
}

// The configuration, and a script of so many reads.
fn texts_of(alloc: Global, conf: &str, reads: u16) -> Result<Vec<(Name, Vec<u8>)>, Fail> {
    let mut texts = Vec::new(alloc);
    texts.push((Name::new(alloc, "conf")?, conf.as_bytes().to_vec(alloc)?))?;
    texts.push(script_of(alloc, reads)?)?;
    Ok(texts)
}

/// A bay with these disks, this configuration and a script of so many reads.
pub(crate) fn bay_with(
    alloc: Global,
    disks: Vec<(Name, MemDisk)>,
    conf: &str,
    reads: u16,
) -> Result<MemBay<MemDisk>, Fail> {
    let texts = texts_of(alloc, conf, reads)?;
    Ok(MemBay::new(alloc, texts, disks, Vec::new(alloc)))
}

// A bay with this configuration, a script of so many reads, and the disks d0 to d2, of which d1 has so many sectors.
fn bay_of(alloc: Global, conf: &str, reads: u16, sectors: u16) -> Result<MemBay<MemDisk>, Fail> {
    bay_with(alloc, disks_of(alloc, BLANK, sectors)?, conf, reads)
}

// A bay whose three disks have these labels, the second so many sectors; with a script of so many reads.
fn marked_bay(
    alloc: Global,
    marks: [Mark; 3],
    sectors: u16,
    reads: u16,
) -> Result<MemBay<MemDisk>, Fail> {
    bay_with(alloc, disks_of(alloc, marks, sectors)?, CONF, reads)
}

fn names(alloc: Global, words: &[&str]) -> Result<Vec<Name>, Fail> {
    let mut names = Vec::new(alloc);
    for word in words {
        names.push(Name::new(alloc, word)?)?;
    }
    Ok(names)
}

/// What is admitted, but for the devices.
#[derive(Drop)]
pub(crate) struct Made {
    sizes: Vec<u64>,
    fronts: Vec<Front>,
    pub(crate) duty: Duty,
}

// What the words are admitted for; the devices are put back.
fn make(alloc: Global, bay: &mut MemBay<MemDisk>, words: &[Name]) -> Result<Made, Refusal> {
    let command = match command_of(alloc, words) {
        Ok(command) => command,
        Err(status) => return Err(Refusal::only(alloc, status)),
    };
    match admit(alloc, command, bay) {
        Ok(
            Admitted {
                asked,
                devices,
                sizes,
                fronts,
                duty,
            },
        ) => {
            put_all(bay, &asked.conf, asked.command.action, devices);
            Ok(Made {
                sizes,
                fronts,
                duty,
            })
        }
        Err(refusal) => Err(refusal),
    }
}

/// What the words are admitted for.
pub(crate) fn accepted(
    alloc: Global,
    bay: &mut MemBay<MemDisk>,
    words: &[&str],
) -> Result<Made, Fail> {
    let words = names(alloc, words)?;
    match make(alloc, bay, &words) {
        Ok(made) => Ok(made),
        Err(_) => Err("refused".into()),
    }
}

/// The array that something is done with.
pub(crate) fn array_of(duty: Duty) -> Result<Ready, Fail> {
    match duty {
        Duty::OnArray(ready) => Ok(ready),
        Duty::Shows(_) | Duty::OneLabel | Duty::PrintConf => Err("another duty".into()),
    }
}

// The number of the status by which the words are refused, 0 where they aren't.
fn number_of(alloc: Global, bay: &mut MemBay<MemDisk>, words: &[Name]) -> u8 {
    match make(alloc, bay, words) {
        Ok(_) => 0,
        Err(refusal) => refusal.status().number(),
    }
}

fn all_at_home(rt: &impl Abort, bay: &MemBay<MemDisk>) {
    for name in ["d0", "d1", "d2"] {
        same_at(rt, name, bay.disk(name).is_some(), true);
    }
}

#[test]
fn an_array_is_made_ready(rt: HostRuntime) -> Result<(), Fail> {
    let alloc = rt.alloc();
    let mut bay = bay_of(alloc, CONF, 1, 128)?;
    let words = ["conf", "--sweep", "7", "--clients", "2", "--ops", "3"];
    let Made { sizes, duty, .. } = accepted(alloc, &mut bay, &words)?;
    all_at_home(&rt, &bay);
    same(&rt, sizes.as_slice(), [128, 128, 128].as_slice());
    let ready = array_of(duty)?;
    same(&rt, ready.opened.rows, 64);
    same(&rt, ready.opened.newest.is_none(), true);
    same(&rt, ready.layout.stripes(), 64);
    same(&rt, ready.drawn.len(), 2);
    same(&rt, len_at(&ready.drawn, 1), Some(3));
    Ok(())
}

// The configuration, the reads of the script, the sectors of the second disk, and the number of the answer. A read of 64
// stripes has at most 332 nodes, so 2,672 events: 392 have room in a trace.
const ORDERS: &[(&str, u16, u16, u8)] = &[
    (CONF, 392, 128, 0),
    (CONF, 393, 128, 3),
    (ONE_AWAY, 393, 128, 3),
    (TWO_AWAY, 393, 128, 8),
    (CONF, 393, 64, 10),
    (ONE_AWAY, 392, 64, 0),
];

// The script is answered so, and all disks are at home.
fn is_answered(rt: &impl Abort, alloc: Global, row: (&str, u16, u16, u8)) -> Result<(), Fail> {
    let (conf, reads, sectors, wanted) = row;
    let mut bay = bay_of(alloc, conf, reads, sectors)?;
    let words = names(alloc, &["conf", "--io", "script", "--trace"])?;
    same(rt, number_of(alloc, &mut bay, &words), wanted);
    all_at_home(rt, &bay);
    Ok(())
}

#[test]
fn refusals_come_in_order(rt: HostRuntime) -> Result<(), Fail> {
    for row in ORDERS {
        is_answered(&rt, rt.alloc(), *row)?;
    }
    Ok(())
}

/// The words of an action on the configuration.
pub(crate) fn words_of(alloc: Global, action: &[&str]) -> Result<Vec<Name>, Fail> {
    let mut words = names(alloc, &["conf"])?;
    for word in action {
        words.push(Name::new(alloc, word)?)?;
    }
    Ok(words)
}

fn text_of(alloc: Global, refusal: &Refusal) -> Result<Vec<u8>, Fail> {
    let mut out = MemSink::new(alloc, 1000, Vec::new(alloc))?;
    match put_refusal(refusal, &mut out) {
        Ok(()) => Ok(out.bytes().to_vec(alloc)?),
        Err(_) => Err("not printed".into()),
    }
}

/// What is printed where the words are refused, nothing where they aren't.
pub(crate) fn refusal_of(
    alloc: Global,
    bay: &mut MemBay<MemDisk>,
    words: &[Name],
) -> Result<Vec<u8>, Fail> {
    match make(alloc, bay, words) {
        Ok(_) => Ok(Vec::new(alloc)),
        Err(refusal) => text_of(alloc, &refusal),
    }
}

// The labels of the disks, the sectors of the second, the action, and what is printed of its refusal.
type Row = ([Mark; 3], u16, &'static [&'static str], &'static str);

// The action is refused so, or not at all, and all disks are at home.
fn is_judged(rt: &impl Abort, alloc: Global, row: Row) -> Result<(), Fail> {
    let (marks, sectors, action, wanted) = row;
    let mut bay = marked_bay(alloc, marks, sectors, 1)?;
    let words = words_of(alloc, action)?;
    let printed = refusal_of(alloc, &mut bay, &words)?;
    same_at(rt, wanted, printed.as_slice(), wanted.as_bytes());
    all_at_home(rt, &bay);
    Ok(())
}

fn are_judged(rt: &impl Abort, alloc: Global, rows: &[Row]) -> Result<(), Fail> {
    for row in rows {
        is_judged(rt, alloc, *row)?;
    }
    Ok(())
}

const LABELS_AND_SIZES: &[Row] = &[
    (BLANK, 128, &["-f", "d1"], "status label 1 1 0 0\n"),
    (BLANK, 64, &["-f", "d1"], "status label 1 1 0 0\n"),
    (BLANK, 64, &["-s"], "status small 1 64 65\n"),
    (SOUND, 128, &["-f", "d1"], ""),
    (SOUND, 100, &["-s"], "status small 1 100 128\n"),
    (SOUND, 100, &["-f", "d1"], ""),
    (SOUND, 100, &["-f", "d0"], "status small 1 100 128\n"),
    (STALE, 128, &["--io", "script"], ""),
    (STALE, 128, &["-s"], ""),
    (STALE, 128, &["-f", "d1"], ""),
    (
        STALE,
        128,
        &["-f", "d0"],
        "dead 0\ndead 1\nstatus lost 0 1 0\n",
    ),
    (FOREIGN, 128, &["-s"], "status label 2 2 7 1001\n"),
    (FOREIGN, 100, &["-s"], "status small 1 100 128\n"),
    (FOREIGN, 128, &["-f", "d2"], ""),
    (FOREIGN, 128, &["-I", "5"], ""),
    (NEW, 128, &["-p"], "status label 2 1 0 0\n"),
    (WORN, 128, &["-p"], ""),
    (
        WORN,
        128,
        &["-i"],
        "status label 0 6 4294901761 4294901760\n",
    ),
    (
        WORN,
        128,
        &["-f", "d1"],
        "status label 0 6 4294901761 4294901760\n",
    ),
    (LAST, 128, &["-i"], ""),
];

#[test]
fn labels_and_sizes_are_judged(rt: HostRuntime) -> Result<(), Fail> {
    are_judged(&rt, rt.alloc(), LABELS_AND_SIZES)
}

const MIDDLE_DEAD: [Column; 3] = [
    Column::Live { device: 0 },
    Column::Dead,
    Column::Live { device: 2 },
];

// A stale device makes its column dead, and the label that is newest is told.
#[test]
fn a_stale_array_is_opened(rt: HostRuntime) -> Result<(), Fail> {
    let alloc = rt.alloc();
    let mut bay = marked_bay(alloc, STALE, 128, 1)?;
    let Made { fronts, duty, .. } = accepted(alloc, &mut bay, &["conf", "-i"])?;
    same(&rt, fronts.len(), 3);
    holds(
        &rt,
        fronts.iter().all(|front| matches!(front, Front::Held(_))),
    );
    let ready = array_of(duty)?;
    same(&rt, ready.opened.columns.as_slice(), MIDDLE_DEAD.as_slice());
    same(&rt, ready.opened.newest.map(|label| label.counter), Some(3));
    Ok(())
}

// So many devices are looked at for what is only printed.
fn prints(rt: &impl Abort, alloc: Global, words: &[&str], count: usize) -> Result<(), Fail> {
    let mut bay = marked_bay(alloc, FOREIGN, 64, 1)?;
    let made = accepted(alloc, &mut bay, words)?;
    all_at_home(rt, &bay);
    same(rt, made.fronts.len(), count);
    holds(rt, matches!(&made.duty, Duty::OneLabel | Duty::PrintConf));
    Ok(())
}

// One device is looked at for its label, and none for the configuration.
#[test]
fn what_is_only_printed(rt: HostRuntime) -> Result<(), Fail> {
    prints(&rt, rt.alloc(), &["conf", "-g", "d2"], 1)?;
    prints(&rt, rt.alloc(), &["conf", "-G"], 0)
}

const REBUILDS: &[Row] = &[
    (BLANK, 64, &["-F", "d1"], "status label 1 1 0 0\n"),
    (SOUND, 128, &["-F", "d1"], "status nospare\n"),
    (SOUND, 100, &["-F", "d1"], "status nospare\n"),
    (SOUND, 128, &["-R", "d1"], ""),
    (SOUND, 100, &["-R", "d1"], "status small 1 100 128\n"),
    (FOREIGN, 128, &["-R", "d2"], ""),
    (
        STALE,
        128,
        &["-F", "d0"],
        "dead 0\ndead 1\nstatus lost 0 1 0\n",
    ),
    (
        WORN,
        128,
        &["-R", "d1"],
        "status label 0 6 4294901761 4294901760\n",
    ),
];

// A column is rebuilt of a labelled array alone, and where there is a spare, or in place. Its own device is refused for
// nothing, but the disk onto which it is rebuilt for its size. A lost array comes before a spare that there isn't.
#[test]
fn rebuilds_are_judged(rt: HostRuntime) -> Result<(), Fail> {
    are_judged(&rt, rt.alloc(), REBUILDS)
}

// A traced rebuild beside so many reads is refused so, or not at all.
fn is_traced(rt: &impl Abort, alloc: Global, reads: u16, wanted: &str) -> Result<(), Fail> {
    let mut bay = marked_bay(alloc, SOUND, 128, reads)?;
    let words = words_of(alloc, &["-R", "d1", "--io", "script", "--trace"])?;
    let printed = refusal_of(alloc, &mut bay, &words)?;
    same_at(rt, wanted, printed.as_slice(), wanted.as_bytes());
    Ok(())
}

// Each of the 64 stripes is a rebuild of at most 6 nodes, so of 64 events, beside reads of 2,672: 390 of these have room.
#[test]
fn rebuilds_are_traced_beside_the_script(rt: HostRuntime) -> Result<(), Fail> {
    is_traced(&rt, rt.alloc(), 390, "")?;
    is_traced(&rt, rt.alloc(), 391, "status script 0 8\n")
}

// Three columns and two spares.
const SPARES: &str =
    "START array\n1 3 2\nSTART disks\nd0\nd1\nd2\nSTART spare\ns0\ns1\nSTART layout\n1 1 1 5\n";

// A bay whose first spare has fewer sectors than the rows need.
fn spared_bay(alloc: Global) -> Result<MemBay<MemDisk>, Fail> {
    let mut disks = disks_of(alloc, SOUND, 128)?;
    disks.push(marked(alloc, "s0", 127, NONE)?)?;
    disks.push(marked(alloc, "s1", 128, NONE)?)?;
    bay_with(alloc, disks, SPARES, 0)
}

// The device that column 1 is filled onto, if that is the start.
fn filled_of(start: Option<Start>) -> Option<u32> {
    match start {
        Some(
            Start::Fill {
                column: 1,
                device,
                ..
            },
        ) => Some(device),
        _ => None,
    }
}

// Column 1 is filled onto this device.
fn fills(rt: &impl Abort, alloc: Global, letter: &str, device: u32) -> Result<(), Fail> {
    let mut bay = spared_bay(alloc)?;
    let made = accepted(alloc, &mut bay, &["conf", letter, "d1"])?;
    let ready = array_of(made.duty)?;
    same(rt, filled_of(ready.start), Some(device));
    same(rt, ready.failed, false);
    Ok(())
}

// The first spare is too small, so the second is taken; in place the column has its own disk.
#[test]
fn a_spare_is_found(rt: HostRuntime) -> Result<(), Fail> {
    fills(&rt, rt.alloc(), "-F", 4)?;
    fills(&rt, rt.alloc(), "-R", 1)
}
