//! Lists of components, found by their labels: what is printed of each, worked by hand.
use crate::judging::{holds, same, same_at};
use blk_disk::{Call, MemDisk, SECTOR};
use raid_bay::{MemBay, MemSink, Name};
use raid_label::{Label, write_label};
use std::alloc::Global;
use std::process::Abort;
use std::test::Fail;
use top_scan::{put_scan, scan};
use top_status::{Status, put_status};

/// A component: its name, how many sectors it has, its label, and whether its first read fails.
type Component = (&'static str, u16, Mark, bool);

/// The serial number, counter, column and rows of a label; there is none where the counter is 0.
type Mark = (u32, u32, u32, u32);

const NONE: Mark = (0, 0, 0, 0);

/// A list, its components, and what is printed.
type Row = (&'static str, &'static [Component], &'static str);

const FOUND: &[Row] = &[
    (
        "d4\nd0\nz\n",
        &[
            ("d4", 96, (1001, 3, 4, 64), false),
            ("d0", 96, (1001, 3, 0, 64), false),
            ("z", 96, NONE, false),
        ],
        "set 1001 3 columns 5 level 53 members 2 of 5\nmember 0 d0\nmember 4 d4\nbare z\n",
    ),
    (
        "d4\nd0\nd2\n",
        &[
            ("d4", 96, (1001, 3, 4, 64), false),
            ("d0", 96, (1001, 3, 0, 64), false),
            ("d2", 96, (1001, 1, 2, 64), false),
        ],
        "set 1001 3 columns 5 level 53 members 2 of 5\nmember 0 d0\nmember 4 d4\nstale d2\n",
    ),
    // Two arrays, of which the second has a foreign component and a double.
    (
        "a\nb\nforeign # other rows\n\ndouble\nold\n",
        &[
            ("old", 96, (1001, 2, 1, 64), false),
            ("double", 96, (1001, 3, 0, 64), false),
            ("foreign", 96, (1001, 3, 1, 32), false),
            ("b", 96, (7, 1, 3, 64), false),
            ("a", 96, (1001, 3, 0, 64), false),
        ],
        "set 7 1 columns 5 level 53 members 1 of 5\nmember 3 b\n\
         set 1001 3 columns 5 level 53 members 1 of 5\nmember 0 a\n\
         foreign foreign\ndouble double\nstale old\n",
    ),
    // A column that the array doesn't have.
    (
        "d0\nd5\n",
        &[
            ("d0", 96, (1001, 3, 0, 64), false),
            ("d5", 96, (1001, 3, 5, 64), false),
        ],
        "set 1001 3 columns 5 level 53 members 1 of 5\nmember 0 d0\nforeign d5\n",
    ),
    // A file of fewer bytes than a sector has, and one whose label can't be read.
    (
        "short\nd0\nz\n",
        &[
            ("short", 0, NONE, false),
            ("d0", 96, (1001, 3, 0, 64), true),
            ("z", 1, NONE, false),
        ],
        "bare short\nunread d0\nbare z\n",
    ),
    ("# nothing\n", &[], ""),
];

const REFUSED: &[Row] = &[
    ("z\nz z\n", &[], "status conf 2 7\n"),
    ("z\ny z\n", &[], "status conf 2 1\n"),
    ("z \x01\n", &[], "status conf 1 1\n"),
    ("z\nz \x01\n", &[], "status conf 2 1\n"),
    ("z\n\nz\n", &[], "status conf 3 7\n"),
    ("z\ny\nx\n", &[("z", 1, NONE, false)], "status nofile y\n"),
    ("d0\n", &[], "status nofile d0\n"),
];

// The first sector of a component with this label; of zeros where it has none.
fn sector_of(mark: Mark) -> [u8; SECTOR] {
    let (serial, counter, column, rows) = mark;
    let mut sector = [0; SECTOR];
    if counter > 0 {
        let label = Label {
            version: 1,
            serial,
            counter,
            column,
            columns: 5,
            unit: 32,
            rows,
            level: 53,
            clean: 1,
            b: 0,
            k: 0,
            r: 0,
            lambda: 0,
            seats: [0; 32],
            filling: 0,
            done: 0,
        };
        write_label(&label, &mut sector);
    }
    sector
}

fn disk_of(alloc: Global, component: Component) -> Result<(Name, MemDisk), Fail> {
    let (name, sectors, mark, fails) = component;
    let mut bytes = vec![in alloc; 0; SECTOR * usize::from(sectors)]?;
    for (byte, label) in bytes.iter_mut().zip(sector_of(mark).iter()) {
        *byte = *label;
    }
    let numbers: &[u32] = if fails { &[0] } else { &[] };
    let disk = MemDisk::new(alloc, bytes, numbers.to_vec(alloc)?, 10)?;
    Ok((Name::new(alloc, name)?, disk))
}

// A bay with a list and these components.
fn bay_of(alloc: Global, list: &[u8], components: &[Component]) -> Result<MemBay<MemDisk>, Fail> {
    let mut texts = Vec::new(alloc);
    texts.push((Name::new(alloc, "list")?, list.to_vec(alloc)?))?;
    let mut disks = Vec::new(alloc);
    for component in components {
        disks.push(disk_of(alloc, *component)?)?;
    }
    Ok(MemBay::new(alloc, texts, disks, Vec::new(alloc)))
}

fn status_of(alloc: Global, status: &Status) -> Result<Vec<u8>, Fail> {
    let mut out = MemSink::new(alloc, 1000, Vec::new(alloc))?;
    match put_status(status, &mut out) {
        Ok(()) => Ok(out.bytes().to_vec(alloc)?),
        Err(_) => Err("not printed".into()),
    }
}

// What is printed of the list, or the status by which it is refused.
fn printed(alloc: Global, bay: &mut MemBay<MemDisk>) -> Result<Vec<u8>, Fail> {
    match scan(alloc, "list", bay) {
        Ok(scanned) => {
            let mut out = MemSink::new(alloc, 20_000, Vec::new(alloc))?;
            match put_scan(&scanned, &mut out) {
                Ok(()) => Ok(out.bytes().to_vec(alloc)?),
                Err(_) => Err("not printed".into()),
            }
        }
        Err(status) => status_of(alloc, &status),
    }
}

// The component is at home, and had no call but a read of sector 0, where it has one.
fn is_read_once(rt: &impl Abort, bay: &MemBay<MemDisk>, component: Component) {
    let (name, sectors, _, fails) = component;
    let calls = [Call {
        kind: Call::READ,
        first: 0,
        count: 1,
        good: !fails,
    }];
    let count = usize::from(sectors > 0);
    match bay.disk(name) {
        Some(disk) => same_at(rt, name, disk.calls(), &calls[..count]),
        None => same_at(rt, name, false, true),
    }
}

fn is_found(rt: &impl Abort, alloc: Global, row: Row) -> Result<(), Fail> {
    let (list, components, wanted) = row;
    let mut bay = bay_of(alloc, list.as_bytes(), components)?;
    let found = printed(alloc, &mut bay)?;
    same_at(rt, list, found.as_slice(), wanted.as_bytes());
    for component in components {
        is_read_once(rt, &bay, *component);
    }
    Ok(())
}

#[test]
fn components_are_told_by_their_labels(rt: HostRuntime) -> Result<(), Fail> {
    for row in FOUND {
        is_found(&rt, rt.alloc(), *row)?;
    }
    Ok(())
}

fn is_refused(rt: &impl Abort, alloc: Global, row: Row) -> Result<(), Fail> {
    let (list, components, wanted) = row;
    let mut bay = bay_of(alloc, list.as_bytes(), components)?;
    let found = printed(alloc, &mut bay)?;
    same_at(rt, list, found.as_slice(), wanted.as_bytes());
    for component in components {
        holds(rt, bay.disk(component.0).is_some());
    }
    Ok(())
}

#[test]
fn the_first_fault_of_a_list_is_its_refusal(rt: HostRuntime) -> Result<(), Fail> {
    for row in REFUSED {
        is_refused(&rt, rt.alloc(), *row)?;
    }
    Ok(())
}

// A list of one name of so many bytes.
fn long_name(alloc: Global, bytes: usize) -> Result<Vec<u8>, Fail> {
    Ok(b"n".repeat(alloc, bytes)?)
}

#[test]
fn a_name_has_at_most_255_bytes(rt: HostRuntime) -> Result<(), Fail> {
    let alloc = rt.alloc();
    let mut longest = bay_of(alloc, &long_name(alloc, 255)?, &[])?;
    let refused = printed(alloc, &mut longest)?;
    holds(&rt, refused.starts_with(b"status nofile nnn"));
    let mut longer = bay_of(alloc, &long_name(alloc, 256)?, &[])?;
    let refused = printed(alloc, &mut longer)?;
    same(&rt, refused.as_slice(), b"status conf 1 7\n".as_slice());
    Ok(())
}

// A list of so many names of four digits.
fn numbered(alloc: Global, count: u16) -> Result<Vec<u8>, Fail> {
    let mut list = Vec::new(alloc);
    for number in 1000..1000 + u32::from(count) {
        let line = format!(in alloc; "{number}\n")?;
        list.extend_from_slice(line.as_bytes())?;
    }
    Ok(list)
}

// A bay with that list and a component without a sector for each of its names.
fn numbered_bay(alloc: Global, count: u16) -> Result<MemBay<MemDisk>, Fail> {
    let mut texts = Vec::new(alloc);
    texts.push((Name::new(alloc, "list")?, numbered(alloc, count)?))?;
    let mut disks = Vec::new(alloc);
    for number in 1000..1000 + u32::from(count) {
        let name = format!(in alloc; "{number}")?;
        let disk = MemDisk::new(alloc, Vec::new(alloc), Vec::new(alloc), 0)?;
        disks.push((Name::new(alloc, name.as_str())?, disk))?;
    }
    Ok(MemBay::new(alloc, texts, disks, Vec::new(alloc)))
}

#[test]
fn a_list_has_at_most_1024_names(rt: HostRuntime) -> Result<(), Fail> {
    let alloc = rt.alloc();
    let found = printed(alloc, &mut numbered_bay(alloc, 1024)?)?;
    same(&rt, found.len(), 1024 * "bare 1000\n".len());
    holds(&rt, found.starts_with(b"bare 1000\nbare 1001\n"));
    holds(&rt, found.ends_with(b"bare 2022\nbare 2023\n"));
    let refused = printed(alloc, &mut numbered_bay(alloc, 1025)?)?;
    same(&rt, refused.as_slice(), b"status conf 1025 13\n".as_slice());
    Ok(())
}
