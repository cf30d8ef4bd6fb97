//! Arrays of which a column is filling: how they are opened, and what is admitted or refused. Each of three columns of level 5
//! has a unit of all 64 stripes; at level 1 column 0 of four has one of each second of 128.
ghost use Rattle.std.specs.Prelude.{◌≤◌};

use crate::admitted::{accepted, array_of, bay_with, disk_of, refusal_of, words_of};
use crate::judging::{same, same_at};
use blk_disk::{MemDisk, SECTOR};
use eng_array::Start;
use eng_cols::Column;
use raid_bay::MemBay;
use raid_label::{Label, write_label};
use std::alloc::Global;
use std::process::Abort;
use std::test::Fail;

const PARITY: &str =
    "START array\n1 3 1\nSTART disks\nd0\nd1\nd2\nSTART spare\ns0\nSTART layout\n1 1 1 5\n";

fn word_of(clean: bool) -> u32
    ensures { result ≤ 1 }
{
    if clean { 1 } else { 0 }
}

// The label of a column of the three, of which column 1 is on the spare: so many of its stripes are done.
fn parity_label(column: u32, counter: u32, done: u32, clean: bool) -> [u8; SECTOR] {
    let mut seats = [0; 32];
    seats[1] = 1;
    let label = Label {
        version: 2,
        serial: 7,
        counter,
        column,
        columns: 3,
        unit: 1,
        rows: 64,
        level: 53,
        clean: word_of(clean),
        b: 0,
        k: 0,
        r: 0,
        lambda: 0,
        seats,
        filling: 2,
        done,
    };
    let mut sector = [0; SECTOR];
    write_label(&label, &mut sector);
    sector
}

// The three columns and the spare, by name, column and counter; the disk of column 1 had its label one round before.
const OF_PARITY: &[(&str, u32, u32)] = &[("d0", 0, 5), ("d1", 1, 4), ("d2", 2, 5), ("s0", 1, 5)];

fn parity_bay(alloc: Global, done: u32, clean: bool) -> Result<MemBay<MemDisk>, Fail> {
    let mut disks = Vec::new(alloc);
    for (name, column, counter) in OF_PARITY {
        let sector = parity_label(*column, *counter, done, clean);
        disks.push(disk_of(alloc, *name, 128, &sector)?)?;
    }
    bay_with(alloc, disks, PARITY, 1)
}

// How many stripes of column 1 are done, whether the labels are clean, the action, and what is printed of its refusal.
type Row = (u32, bool, &'static [&'static str], &'static str);

// The column is filling where the labels are clean and stripes are left; else it is dead. With column 0 the array is lost at the
// first stripe that isn't done, which is told before the column that is filling beside it. The spare is in a seat, so it isn't
// free.
const ROWS: &[Row] = &[
    (20, true, &["--resume"], ""),
    (63, true, &["--resume", "--limit", "1"], ""),
    (64, true, &["--resume"], "status norebuild\n"),
    (20, false, &["--resume"], "status norebuild\n"),
    (20, true, &["-R", "d1"], ""),
    (20, true, &["-R", "d1", "--limit", "1"], ""),
    (20, true, &["-F", "d1"], "status nospare\n"),
    (20, true, &["-f", "d1"], ""),
    (
        20,
        true,
        &["-R", "d0"],
        "dead 0\ndead 1\nstatus lost 0 1 20\n",
    ),
    (
        0,
        true,
        &["-f", "d2"],
        "dead 1\ndead 2\nstatus lost 1 2 0\n",
    ),
    (
        20,
        false,
        &["-f", "d2"],
        "dead 1\ndead 2\nstatus lost 1 2 0\n",
    ),
    (20, true, &["-i"], ""),
];

#[test]
fn an_array_is_judged_that_is_filling(rt: HostRuntime) -> Result<(), Fail> {
    let alloc = rt.alloc();
    for (done, clean, action, wanted) in ROWS {
        let mut bay = parity_bay(alloc, *done, *clean)?;
        let words = words_of(alloc, *action)?;
        let printed = refusal_of(alloc, &mut bay, &words)?;
        same_at(&rt, (*done, *wanted), printed.as_slice(), wanted.as_bytes());
    }
    Ok(())
}

// What is begun of column 1: the device, where one is filled anew, and how many stripes are rebuilt at most.
fn begun_of(start: Option<Start>) -> Option<(Option<u32>, u32)> {
    match start {
        Some(
            Start::Fill {
                column: 1,
                device,
                most,
            },
        ) => Some((Some(device), most)),
        Some(Start::Resume { column: 1, most }) => Some((None, most)),
        _ => None,
    }
}

type Begun = (&'static [&'static str], (Option<u32>, u32));

const BEGUN: &[Begun] = &[
    (&["conf", "--resume"], (None, u32::MAX)),
    (&["conf", "--resume", "--limit", "5"], (None, 5)),
    (&["conf", "-R", "d1"], (Some(1), u32::MAX)),
    (&["conf", "-R", "d1", "--limit", "5"], (Some(1), 5)),
];

const HALF: [Column; 3] = [
    Column::Live { device: 0 },
    Column::Filling {
        device: 3,
        done: 20,
    },
    Column::Live { device: 2 },
];

#[test]
fn a_column_goes_on_or_begins_anew(rt: HostRuntime) -> Result<(), Fail> {
    let alloc = rt.alloc();
    for (words, wanted) in BEGUN {
        let mut bay = parity_bay(alloc, 20, true)?;
        let ready = array_of(accepted(alloc, &mut bay, *words)?.duty)?;
        same(&rt, ready.opened.columns.as_slice(), HALF.as_slice());
        same(&rt, begun_of(ready.start), Some(*wanted));
    }
    Ok(())
}

const MIRRORS: &str =
    "START array\n1 4 2\nSTART disks\nd0\nd1\nd2\nd3\nSTART spare\ns0\ns1\nSTART layout\n1 1 1 1\n";

// The label of a column of the four, of which column 0 is on the first spare: so many of its stripes are done.
fn mirror_label(column: u32, counter: u32, done: u32) -> [u8; SECTOR] {
    let mut seats = [0; 32];
    seats[0] = 1;
    let label = Label {
        version: 2,
        serial: 7,
        counter,
        column,
        columns: 4,
        unit: 1,
        rows: 64,
        level: 49,
        clean: 1,
        b: 0,
        k: 0,
        r: 0,
        lambda: 0,
        seats,
        filling: 1,
        done,
    };
    let mut sector = [0; SECTOR];
    write_label(&label, &mut sector);
    sector
}

// The four columns and the first spare, by name, column and counter.
const OF_MIRRORS: &[(&str, u32, u32)] = &[
    ("d0", 0, 4),
    ("d1", 1, 5),
    ("d2", 2, 5),
    ("d3", 3, 5),
    ("s0", 0, 5),
];

fn mirror_bay(alloc: Global, done: u32) -> Result<MemBay<MemDisk>, Fail> {
    let mut disks = Vec::new(alloc);
    for (name, column, counter) in OF_MIRRORS {
        let sector = mirror_label(*column, *counter, done);
        disks.push(disk_of(alloc, *name, 128, &sector)?)?;
    }
    disks.push(disk_of(alloc, "s1", 128, &[0; SECTOR])?)?;
    bay_with(alloc, disks, MIRRORS, 1)
}

type Beside = (u32, &'static [&'static str], &'static str);

// Column 3 shares no stripe with column 0, so its death is no loss; but no two are rebuilt at a time. All 64 stripes of column
// 0 are done: it is dead then. Column 1 has the other unit of each of its stripes.
const BESIDE: &[Beside] = &[
    (1, &["-F", "d3"], "status rebuilding 0\n"),
    (1, &["-R", "d3"], "status rebuilding 0\n"),
    (1, &["-f", "d3"], ""),
    (1, &["-F", "d0"], ""),
    (1, &["-R", "d1"], "dead 0\ndead 1\nstatus lost 0 1 2\n"),
    (64, &["-F", "d3"], ""),
    (64, &["--resume"], "status norebuild\n"),
];

#[test]
fn one_column_is_rebuilt_at_a_time(rt: HostRuntime) -> Result<(), Fail> {
    let alloc = rt.alloc();
    for (done, action, wanted) in BESIDE {
        let mut bay = mirror_bay(alloc, *done)?;
        let words = words_of(alloc, *action)?;
        let printed = refusal_of(alloc, &mut bay, &words)?;
        same_at(&rt, (*done, *wanted), printed.as_slice(), wanted.as_bytes());
    }
    Ok(())
}
