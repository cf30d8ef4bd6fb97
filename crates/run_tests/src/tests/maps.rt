//! Parity maps: runs that keep one, and arrays that are opened with marks.
ghost use Rattle.std.specs.Prelude.{◌≤◌};

use super::*;
use blk_disk::{Disk, MemStop};
use eng_cols::Column;
use raid_map::{Map, mark_all};

const LABELLED: Step = Step::Run("r5 -I 7", 0, "labels written 3\nstatus ok\n");

const INITIALISED: Step = Step::Run("r5 -i", 0, "parity initialised 64\nstatus ok\n");

const CLEARED: Step = Step::Run("r5 -m", 0, "map regions 64 marked 0\nstatus ok\n");

const CLEAN: Step = Step::Run(
    "r5 -s",
    0,
    "column 0 d0 optimal\ncolumn 1 d1 optimal\ncolumn 2 d2 optimal\nparity clean\nstatus ok\n",
);

const DIRTY: Step = Step::Run(
    "r5 -s",
    0,
    "column 0 d0 optimal\ncolumn 1 d1 optimal\ncolumn 2 d2 optimal\nparity dirty\nstatus ok\n",
);

// One round of labels is written with a map, and no region stays marked.
#[test]
fn a_run_with_a_map_leaves_none_marked(rt: HostRuntime) -> Result<(), Fail> {
    const SESSIONS: &[Session] = &[Session {
        conf: letters::WIDE,
        script: "0 write 64 256 5a\n0 read 64 256\n",
        sectors: 2112,
        steps: &[
            Step::Run("r5 -I 1001", 0, "labels written 5\nstatus ok\n"),
            Step::Run("r5 -i", 0, "parity initialised 64\nstatus ok\n"),
            Step::Run("r5 -m", 0, "map none\nstatus ok\n"),
            Step::Run(
                "r5 --io s1 -w 0 --map",
                0,
                "reply 0.0 done\nreply 0.1 data\nblock 64 256 5a\ncommit 0.0\ncommit 0.1\nstatus ok\n",
            ),
            Step::Run("r5 -m", 0, "map regions 64 marked 0\nstatus ok\n"),
            Step::Run("r5 -g d0", 0, "label 2 1001 4 0 5 32 64 53 1\nstatus ok\n"),
            Step::Run("r5 -p", 0, "parity clean\nstatus ok\n"),
        ],
        ..PLAIN
    }];
    play(&rt, rt.alloc(), SESSIONS)
}

// Without labels there is no map.
#[test]
fn maps_want_labels(rt: HostRuntime) -> Result<(), Fail> {
    const SESSIONS: &[Session] = &[Session {
        steps: &[
            Step::Run("r5 -m", 9, "status label 0 1 0 0\n"),
            Step::Run("r5 --io s1 --map", 9, "status label 0 1 0 0\n"),
            Step::Run(
                "r5 --sweep 1 --clients 1 --ops 1 --map",
                9,
                "status label 0 1 0 0\n",
            ),
            Step::Run("r5 -R d1 --map", 9, "status label 1 1 0 0\n"),
            Step::Run("r5 -i --map", 1, "status usage 2\n"),
            Step::Run("r5 -m -s", 1, "status usage 1\n"),
            Step::Holds("d0", ""),
        ],
        ..PLAIN
    }];
    play(&rt, rt.alloc(), SESSIONS)
}

// The check units of stripes 0 and 3, on d2, aren't the sums of their data, and a map on d1 marks the
// first of the two: that is swept, and the other isn't. A map of another serial number marks nothing.
#[test]
fn marked_stripes_are_swept(rt: HostRuntime) -> Result<(), Fail> {
    const SESSIONS: &[Session] = &[
        Session {
            steps: &[
                LABELLED,
                INITIALISED,
                Step::Spoil("d2", 64, 0xff),
                Step::Spoil("d2", 67, 0xff),
                Step::Mark("d1", 7, 1),
                DIRTY,
                Step::Run("r5 -m", 0, "map regions 64 marked 1\nstatus ok\n"),
                Step::Run("r5 -p", 11, "status parity 2\n"),
                Step::Run("r5 --io t1 -w 0", 0, "status ok\n"),
                Step::Run("r5 -p", 11, "status parity 1\n"),
                CLEARED,
                CLEAN,
            ],
            ..PLAIN
        },
        Session {
            steps: &[
                LABELLED,
                INITIALISED,
                Step::Spoil("d2", 64, 0xff),
                Step::Mark("d0", 8, 1),
                CLEAN,
                Step::Run("r5 -m", 0, "map none\nstatus ok\n"),
                Step::Run("r5 --io t1 -w 0", 0, "status ok\n"),
                Step::Run("r5 -p", 11, "status parity 1\n"),
            ],
            ..PLAIN
        },
    ];
    play(&rt, rt.alloc(), SESSIONS)
}

// What is marked is swept with a map too, and then cleared. So it is by the letters that renew check
// units, and of an array that wasn't closed in order, of which every stripe is swept.
#[test]
fn marks_are_cleared(rt: HostRuntime) -> Result<(), Fail> {
    const SESSIONS: &[Session] = &[
        Session {
            steps: &[
                LABELLED,
                INITIALISED,
                Step::Spoil("d2", 64, 0xff),
                Step::Mark("d2", 7, 9),
                Step::Run(
                    "r5 --io s1 -w 0 --map",
                    0,
                    "reply 0.0 done\nreply 0.1 data\nblock 0 1 a5\ncommit 0.0\ncommit 0.1\nstatus ok\n",
                ),
                CLEARED,
                Step::Run("r5 -p", 0, "parity clean\nstatus ok\n"),
                Step::Mark("d2", 7, 9),
                Step::Run("r5 -P", 0, "parity rewritten 0\nstatus ok\n"),
                CLEARED,
                Step::Mark("d0", 7, 2),
                INITIALISED,
                CLEARED,
                CLEAN,
            ],
            ..PLAIN
        },
        Session {
            steps: &[
                LABELLED,
                Step::Spoil("d2", 64, 0xff),
                Step::Spoil("d2", 67, 0xff),
                Step::Mark("d2", 7, 1),
                Step::Run("r5 --io t1 -w 0 --map", 0, "status ok\n"),
                Step::Run("r5 -g d0", 0, "label 2 7 3 0 3 1 64 53 1\nstatus ok\n"),
                Step::Run("r5 -p", 0, "parity clean\nstatus ok\n"),
                CLEARED,
            ],
            ..PLAIN
        },
    ];
    play(&rt, rt.alloc(), SESSIONS)
}

// A run that loses its array leaves what it was to write marked: the stripes of its writes, beside
// that of the union.
#[test]
fn a_lost_array_stays_marked(rt: HostRuntime) -> Result<(), Fail> {
    const SESSIONS: &[Session] = &[Session {
        script: "0 write 4 2 a5\n0 read 8 1\n0 fail 0\n0 fail 1\n",
        steps: &[
            LABELLED,
            INITIALISED,
            Step::Mark("d0", 7, 1),
            Step::Run(
                "r5 --io s1 -w 0 --map",
                8,
                "reply 0.0 done\nreply 0.1 data\nblock 8 1 00\nreply 0.2 ok\nreply 0.3 ok\ncommit 0.0\ncommit 0.1\ndead 0\ndead 1\nstatus lost 0 1 0\n",
            ),
            Step::Run("r5 -m", 0, "map regions 64 marked 2\nstatus ok\n"),
        ],
        ..PLAIN
    }];
    play(&rt, rt.alloc(), SESSIONS)
}

// A column is rebuilt onto a spare, which has a map then too.
#[test]
fn a_rebuild_keeps_a_map(rt: HostRuntime) -> Result<(), Fail> {
    const SESSIONS: &[Session] = &[Session {
        conf: rebuilds::SPARED,
        steps: &[
            LABELLED,
            INITIALISED,
            Step::Run(
                "r5 -F d1 -w 0 --map",
                0,
                "reconstruct column 1 device 3 done 64\nstatus ok\n",
            ),
            CLEARED,
            Step::Run("r5 -g s0", 0, "label 2 7 4 1 3 1 64 53 1\nstatus ok\n"),
            Step::Run("r5 -p", 0, "parity clean\nstatus ok\n"),
        ],
        ..PLAIN
    }];
    play(&rt, rt.alloc(), SESSIONS)
}

const STOPPING: &[&str] = &["d0", "d1", "d2", "d3", "d4", "s0"];

// Devices whose power can be stopped.
fn stop_bay(alloc: Global) -> Result<MemBay<MemStop>, Fail> {
    let texts = text_list(alloc, &[("r5", letters::WIDE), ("s1", "")])?;
    let mut disks = Vec::new(alloc);
    for name in STOPPING {
        let bytes = vec![in alloc; 0; SECTOR * 2112]?;
        let disk = MemStop::new(alloc, bytes, 1000)?;
        disks.push((Name::new(alloc, *name)?, disk))?;
    }
    Ok(MemBay::new(alloc, texts, disks, Vec::new(alloc)))
}

// A sector with a map of this serial number, which marks these of the first eight regions. Each stripe
// is a region.
fn map_sector(serial: u16, marks: u8) -> [u8; SECTOR] {
    let mut sector = [0; SECTOR];
    sector[..8].copy_from_slice(b"RFPMAP01");
    sector[8] = (serial % 256) as u8;
    sector[9] = (serial / 256) as u8;
    sector[12] = 1;
    sector[16] = marks;
    sector
}

// Marks a device, as that of an array's one column.
fn mark_one(map: &Map, disk: MemStop) -> Option<MemStop>
    requires { 2 ≤ ⟦<MemStop as Disk>⟧.size disk }
{
    let mut devices = [Some(disk)];
    let mut columns = [Column::Live { device: 0 }];
    mark_all(map, &mut devices, &mut columns);
    let [disk] = devices;
    disk
}

// The first three stripes of the array are marked on a device.
fn mark(alloc: Global, bay: &mut MemBay<MemStop>, name: &str) -> Result<(), Fail> {
    let mut map = Map::open(alloc, 64, 1001)?;
    map.mark(0);
    map.mark(1);
    map.mark(2);
    let disk = match bay.take(alloc, name) {
        Ok(disk) => disk,
        Err(_) => return Err("no component of that name".into()),
    };
    if disk.sectors() < 65 {
        return Err("no sector".into());
    }
    match mark_one(&map, disk) {
        Some(disk) => bay.put(name, disk),
        None => return Err("no device".into()),
    }
    Ok(())
}

// Its first row is written, and kept as its power stops.
fn stop(alloc: Global, bay: &mut MemBay<MemStop>, name: &str) -> Result<(), Fail> {
    let mut disk = match bay.take(alloc, name) {
        Ok(disk) => disk,
        Err(_) => return Err("no component of that name".into()),
    };
    if disk.sectors() < 65 {
        return Err("no sector".into());
    }
    match disk.write(64, &[0xff; SECTOR]) {
        Ok(()) => {}
        Err(_) => return Err("no room".into()),
    }
    if disk.logged() != 1 {
        return Err("more than that is logged".into());
    }
    bay.put(name, disk.stop(&[true]));
    Ok(())
}

// The columns' disks, which are marked.
const MARKED: &[&str] = &["d0", "d1", "d2", "d3", "d4"];

// What comes behind the stop.
const BEHIND: &[(&str, u8, &str)] = &[
    ("r5 -m", 0, "map regions 64 marked 3\nstatus ok\n"),
    ("r5 -p", 11, "status parity 1\n"),
    ("r5 --io s1 -w 0", 0, "status ok\n"),
    ("r5 -p", 0, "parity clean\nstatus ok\n"),
    ("r5 -m", 0, "map regions 64 marked 0\nstatus ok\n"),
];

// The first three stripes are marked, and the power stops as one is written.
#[test]
fn what_a_stop_leaves_is_swept(rt: HostRuntime) -> Result<(), Fail> {
    let alloc = rt.alloc();
    let mut bay = stop_bay(alloc)?;
    says(
        &rt,
        alloc,
        &mut bay,
        "r5 -I 1001",
        0,
        "labels written 5\nstatus ok\n",
    )?;
    says(
        &rt,
        alloc,
        &mut bay,
        "r5 -i",
        0,
        "parity initialised 64\nstatus ok\n",
    )?;
    for name in MARKED {
        mark(alloc, &mut bay, *name)?;
    }
    stop(alloc, &mut bay, "d0")?;
    for (words, exit, lines) in BEHIND {
        says(&rt, alloc, &mut bay, *words, *exit, *lines)?;
    }
    Ok(())
}

/// A map by hand in the place of what stands in sector 1 of a component.
pub(super) fn marked_by_hand(
    alloc: Global,
    bay: &mut MemBay<MemDisk>,
    name: &str,
    serial: u16,
    marks: u8,
) -> Result<(), Fail> {
    let mut bytes = found(bay, name)?.bytes().to_vec(alloc)?;
    match bytes.chunks_mut(SECTOR).nth(1) {
        Some(sector) => sector.copy_from_slice(&map_sector(serial, marks)),
        None => return Err("no such sector".into()),
    }
    replace(alloc, bay, name, bytes)
}
