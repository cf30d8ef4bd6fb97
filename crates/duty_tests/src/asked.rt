//! What words, texts and names ask for, and which refusal comes first. The wanted answers are read off the orders and codes
//! of docs/FORMATS.md.
use crate::commands::command_of;
use crate::judging::{len_at, same, same_at};
use blk_disk::{MemDisk, SECTOR};
use raid_bay::{MemBay, Name};
use std::alloc::Global;
use std::process::Abort;
use std::test::Fail;
use top_bay::*;
use top_status::Status;

// Three columns, whose second disk is absent, and a spare.
const CONF: &str =
    "START array\n1 3 1\nSTART disks\nd0\nabsent\nd2\nSTART spare\ns0\nSTART layout\n1 1 1 5\n";

// A disk of a sector.
fn disk(alloc: Global, name: &str) -> Result<(Name, MemDisk), Fail> {
    let bytes = vec![in alloc; 0; SECTOR]?;
    let disk = MemDisk::new(alloc, bytes, Vec::new(alloc), 10)?;
    Ok((Name::new(alloc, name)?, disk))
}

fn text(alloc: Global, name: &str, text: &str) -> Result<(Name, Vec<u8>), Fail> {
    Ok((Name::new(alloc, name)?, text.as_bytes().to_vec(alloc)?))
}

// Configurations, files of graphs and scripts that are right and wrong.
const TEXTS: &[(&str, &str)] = &[
    ("conf", CONF),
    ("no_conf", "START array\n1 3\n"),
    (
        "away",
        "START array\n1 3 0\nSTART disks\nd0\nd2\nd1\nSTART layout\n1 1 1 5\n",
    ),
    ("graphs", "graph g\nend\n"),
    ("no_graphs", "graph g\n"),
    ("script", "0 write 0 1 a5\n3 use g read 7 2\n0 fail 2\n"),
    ("no_script", "0 fail 3\n"),
    ("plain", "0 read 0 1\n"),
];

fn texts_of(alloc: Global) -> Result<Vec<(Name, Vec<u8>)>, Fail> {
    let mut texts = Vec::new(alloc);
    for (name, lines) in TEXTS {
        texts.push(text(alloc, *name, *lines)?)?;
    }
    Ok(texts)
}

fn disks_of(alloc: Global) -> Result<Vec<(Name, MemDisk)>, Fail> {
    let mut disks = Vec::new(alloc);
    for name in ["d0", "d2", "s0"] {
        disks.push(disk(alloc, name)?)?;
    }
    Ok(disks)
}

// A bay with the texts, and the disks d0 and d2 and the spare s0. Its calls of these numbers fail.
fn bay_of(alloc: Global, fails: &[u32]) -> Result<MemBay<MemDisk>, Fail> {
    let texts = texts_of(alloc)?;
    let disks = disks_of(alloc)?;
    Ok(MemBay::new(alloc, texts, disks, fails.to_vec(alloc)?))
}

fn names(alloc: Global, words: &[&str]) -> Result<Vec<Name>, Fail> {
    let mut names = Vec::new(alloc);
    for word in words {
        names.push(Name::new(alloc, word)?)?;
    }
    Ok(names)
}

/// What is asked for, and what was taken for it.
#[derive(Drop)]
struct Seen<'a> {
    asked: Asked<'a>,
    // How many devices the action goes by, and which of the first four are there.
    count: usize,
    there: [bool; 4],
    // The bay doesn't have d0.
    lent: bool,
}

// What the words ask for, the devices being put back.
fn look<'a>(
    alloc: Global,
    bay: &mut MemBay<MemDisk>,
    words: &'a [Name],
) -> Result<Seen<'a>, Status> {
    let command = match command_of(alloc, words) {
        Ok(command) => command,
        Err(status) => return Err(status),
    };
    let Taken { asked, devices } = match ask(alloc, command, bay) {
        Ok(taken) => taken,
        Err(status) => return Err(status),
    };
    let count = devices.len();
    let there = are_there(&devices);
    let lent = bay.disk("d0").is_none();
    put_all(bay, &asked.conf, asked.command.action, devices);
    Ok(Seen {
        asked,
        count,
        there,
        lent,
    })
}

// Which of the first four devices are there.
fn are_there(devices: &[Option<MemDisk>]) -> [bool; 4] {
    [0, 1, 2, 3].map(|d| matches!(devices.get(d), Some(Some(_))))
}

// How the words are answered, the devices being put back; Ok where nothing is refused.
fn answer(alloc: Global, bay: &mut MemBay<MemDisk>, words: &[Name]) -> Status {
    match look(alloc, bay, words) {
        Ok(_) => Status::Ok,
        Err(status) => status,
    }
}

// The number of a status, and the numbers or the length of the name that it comes with.
fn numbers(status: &Status) -> (u8, u32, u32) {
    match status {
        Status::Usage(case) => (1, u32::from(*case), 0),
        Status::Conf(line, code) => (2, *line, u32::from(*code)),
        Status::Script(line, code) => (3, *line, u32::from(*code)),
        Status::GraphText(line, code) => (4, *line, u32::from(*code)),
        other => (other.number(), 0, 0),
    }
}

fn all_at_home(rt: &impl Abort, bay: &MemBay<MemDisk>) {
    for name in ["d0", "d2", "s0"] {
        same_at(rt, name, bay.disk(name).is_some(), true);
    }
}

// Words, and the numbers of their answer.
type Row = (&'static [&'static str], (u8, u32, u32));

// The words are answered so, and all devices are at home.
fn is_answered(rt: &impl Abort, alloc: Global, row: Row) -> Result<(), Fail> {
    let (words, wanted) = row;
    let mut bay = bay_of(alloc, &[])?;
    let words = names(alloc, words)?;
    let status = answer(alloc, &mut bay, &words);
    same(rt, numbers(&status), wanted);
    all_at_home(rt, &bay);
    Ok(())
}

fn are_answered(rt: &impl Abort, alloc: Global, rows: &[Row]) -> Result<(), Fail> {
    for row in rows {
        is_answered(rt, alloc, *row)?;
    }
    Ok(())
}

const ORDERS: &[Row] = &[
    (&["conf", "-F", "d0", "-R", "d0"], (1, 1, 0)),
    (&["no", "--io", "script", "-w", "17"], (1, 3, 0)),
    (&["no", "--io", "no", "--graphs", "no"], (6, 0, 0)),
    (&["no_conf", "--io", "no", "--graphs", "no"], (2, 3, 3)),
    (&["conf", "--io", "no_script", "--graphs", "no"], (6, 0, 0)),
    (&["conf", "--io", "no", "--graphs", "no_graphs"], (4, 2, 6)),
    (&["away", "--io", "no", "--graphs", "graphs"], (6, 0, 0)),
    (
        &["away", "--io", "no_script", "--graphs", "graphs"],
        (3, 1, 5),
    ),
    (&["away", "--io", "script"], (3, 2, 6)),
    (&["away", "--io", "script", "--graphs", "graphs"], (6, 0, 0)),
    (&["conf", "--io", "script", "--graphs", "graphs"], (0, 0, 0)),
    (
        &["conf", "--sweep", "1", "--clients", "1", "--ops", "1"],
        (0, 0, 0),
    ),
];

#[test]
fn refusals_come_in_order(rt: HostRuntime) -> Result<(), Fail> {
    are_answered(&rt, rt.alloc(), ORDERS)
}

const COMPONENTS: &[Row] = &[
    (&["conf", "-F", "s0"], (1, 3, 0)),
    (&["conf", "-R", "d9", "--io", "no"], (1, 3, 0)),
    (&["conf", "-R", "d0", "--io", "no"], (6, 0, 0)),
    (&["conf", "-F", "d0", "--io", "no_script"], (3, 1, 5)),
    (&["no", "-f", "d9"], (6, 0, 0)),
    (&["no_conf", "-f", "d9"], (2, 3, 3)),
    (&["away", "-f", "d9"], (1, 3, 0)),
    (&["conf", "-f", "absent"], (1, 3, 0)),
    (&["conf", "-f", ""], (1, 3, 0)),
    (&["conf", "-f", "s0"], (1, 3, 0)),
    (&["conf", "-g", "s1"], (1, 3, 0)),
    (&["away", "-f", "d0"], (6, 0, 0)),
    (&["away", "-g", "d1"], (6, 0, 0)),
];

#[test]
fn components_are_judged_in_order(rt: HostRuntime) -> Result<(), Fail> {
    are_answered(&rt, rt.alloc(), COMPONENTS)
}

// Words, the component's place, and how many devices are taken.
type Taking = (&'static [&'static str], Option<u32>, usize);

const DEVICES: &[Taking] = &[
    (&["conf", "-F", "d2"], Some(2), 4),
    (&["conf", "-R", "d0", "--io", "plain"], Some(0), 4),
    (&["conf", "-f", "d2"], Some(2), 4),
    (&["conf", "-g", "d2"], Some(2), 1),
    (&["conf", "-g", "s0"], Some(3), 1),
    (&["away", "-g", "d0"], Some(0), 1),
    (&["away", "-G"], None, 0),
    (&["conf", "-s"], None, 4),
    (&["conf", "-I", "7"], None, 4),
];

// The words ask for that component and take so many devices.
fn takes(rt: &impl Abort, alloc: Global, row: Taking) -> Result<(), Fail> {
    let (words, comp, count) = row;
    let mut bay = bay_of(alloc, &[])?;
    let words = names(alloc, words)?;
    let Ok(seen) = look(alloc, &mut bay, &words) else {
        return Err("refused".into());
    };
    same(rt, seen.asked.comp, comp);
    same(rt, seen.count, count);
    all_at_home(rt, &bay);
    Ok(())
}

// The component's place and how many devices are taken: of a configuration whose last disk isn't there, too.
#[test]
fn devices_are_those_of_the_action(rt: HostRuntime) -> Result<(), Fail> {
    for row in DEVICES {
        takes(&rt, rt.alloc(), *row)?;
    }
    Ok(())
}

// All devices but the absent one were taken.
fn devices_are_lent(rt: &impl Abort, seen: &Seen<'_>) {
    same(rt, seen.count, 4);
    same(rt, seen.there, [true, false, true, true]);
    same(rt, seen.lent, true);
}

#[test]
fn what_is_asked_is_handed_out(rt: HostRuntime) -> Result<(), Fail> {
    let alloc = rt.alloc();
    let mut bay = bay_of(alloc, &[])?;
    let words = names(alloc, &["conf", "--io", "script", "--graphs", "graphs"])?;
    let Ok(seen) = look(alloc, &mut bay, &words) else {
        return Err("refused".into());
    };
    let asked = &seen.asked;
    same(&rt, asked.conf.columns, 3);
    same(&rt, asked.book.count(), 1);
    same(&rt, asked.clients.len(), 16);
    same(&rt, len_at(&asked.clients, 0), Some(2));
    same(&rt, len_at(&asked.clients, 3), Some(1));
    devices_are_lent(&rt, &seen);
    all_at_home(&rt, &bay);
    Ok(())
}

// Where this call of the bay fails, that is the answer, and all devices are at home.
fn falls(rt: &impl Abort, alloc: Global, call: u32) -> Result<(), Fail> {
    let mut bay = bay_of(alloc, &[call])?;
    let words = names(alloc, &["conf", "--io", "plain"])?;
    let status = answer(alloc, &mut bay, &words);
    same(rt, (call, status.number()), (call, 5));
    all_at_home(rt, &bay);
    Ok(())
}

// The calls of the bay are the configuration, the script, d0, d2 and s0.
#[test]
fn a_fault_of_the_bay_leaves_all_at_home(rt: HostRuntime) -> Result<(), Fail> {
    for call in 0..5 {
        falls(&rt, rt.alloc(), call)?;
    }
    Ok(())
}
