//! Openings of arrays, and why they are refused. The wanted answers are read off the rules by hand.
ghost use Rattle.std.specs.Prelude.{◌≤◌};

use crate::judging::same;
use blk_disk::MemDisk;
use eng_cols::Column;
use raid_label::{Label, write_label};
use std::alloc::Global;
use std::test::Fail;
use top_open::*;

// level 5 on three columns, one sector a unit
const PLAN: Plan = Plan {
    unit: 1,
    level: 53,
    b: 0,
    k: 0,
    r: 0,
    lambda: 0,
    spares: 0,
    step: 1,
    stripes: 1,
};

const NEEDS: Needs = Needs {
    plain: false,
    labels: false,
    excused: None,
    own: false,
    writes: true,
    adopts: false,
};

fn labelled(serial: u32, counter: u32, column: u32) -> Front {
    let label = Label {
        version: 1,
        serial,
        counter,
        column,
        columns: 3,
        unit: 1,
        rows: 64,
        level: 53,
        clean: 1,
        b: 0,
        k: 0,
        r: 0,
        lambda: 0,
        seats: [0; 32],
        filling: 0,
        done: 0,
    };
    let mut bytes = [0; 512];
    write_label(&label, &mut bytes);
    Front::Held(bytes)
}

fn blank() -> Front {
    Front::Held([0; 512])
}

// the opening of three columns
fn opened(
    rt: &HostRuntime,
    needs: &Needs,
    sizes: [u64; 3],
    fronts: [Front; 3],
) -> Result<Opened, OpenFault> {
    open_array(rt.alloc(), needs, &PLAN, &[true; 3], &sizes, &fronts)
}

const LIVE: [Column; 3] = [
    Column::Live { device: 0 },
    Column::Live { device: 1 },
    Column::Live { device: 2 },
];

const MIDDLE_DEAD: [Column; 3] = [
    Column::Live { device: 0 },
    Column::Dead,
    Column::Live { device: 2 },
];

#[test]
fn an_array_without_labels(rt: HostRuntime) -> Result<(), Fail> {
    let array = opened(&rt, &NEEDS, [128, 100, 128], [blank(), blank(), blank()]);
    let Ok(array) = array else {
        return Err("refused".into())
    };
    same(&rt, array.rows, 36);
    same(&rt, array.newest.is_none(), true);
    same(&rt, array.columns.as_slice(), LIVE.as_slice());
    let small = opened(
        &rt,
        &NEEDS,
        [128, 64, 128],
        [blank(), Front::Unread, blank()],
    );
    same(
        &rt,
        small.err(),
        Some(OpenFault::Small {
            column: 1,
            has: 64,
            needs: 65,
        }),
    );
    Ok(())
}

// A round was stopped behind its first label: by the counters two columns are dead, and none where the devices are adopted
// that the newest label names.
#[test]
fn an_array_that_is_adopted(rt: HostRuntime) -> Result<(), Fail> {
    let fronts = [labelled(7, 5, 0), labelled(7, 4, 1), labelled(7, 2, 2)];
    let Ok(array) = opened(&rt, &NEEDS, [128; 3], fronts) else {
        return Err("refused".into())
    };
    same(
        &rt,
        array.columns.as_slice(),
        [Column::Live { device: 0 }, Column::Dead, Column::Dead].as_slice(),
    );
    let needs = Needs {
        adopts: true,
        ..NEEDS
    };
    let fronts = [labelled(7, 5, 0), labelled(7, 4, 1), labelled(7, 2, 2)];
    let Ok(array) = opened(&rt, &needs, [128; 3], fronts) else {
        return Err("refused".into())
    };
    same(&rt, array.columns.as_slice(), LIVE.as_slice());
    let foreign = opened(
        &rt,
        &needs,
        [128; 3],
        [labelled(7, 5, 0), labelled(8, 4, 1), labelled(7, 4, 2)],
    );
    same(
        &rt,
        foreign.err(),
        Some(OpenFault::Label {
            column: 1,
            code: 2,
            found: 8,
            wanted: 7,
        }),
    );
    Ok(())
}

#[test]
fn an_array_with_labels(rt: HostRuntime) -> Result<(), Fail> {
    let stale = opened(
        &rt,
        &NEEDS,
        [128; 3],
        [labelled(7, 3, 0), labelled(7, 2, 1), labelled(7, 3, 2)],
    );
    let Ok(array) = stale else {
        return Err("refused".into())
    };
    same(&rt, array.rows, 64);
    same(&rt, array.columns.as_slice(), MIDDLE_DEAD.as_slice());
    let foreign = opened(
        &rt,
        &NEEDS,
        [128; 3],
        [
            labelled(1001, 1, 0),
            labelled(1001, 1, 1),
            labelled(7, 1, 2),
        ],
    );
    same(
        &rt,
        foreign.err(),
        Some(OpenFault::Label {
            column: 2,
            code: 2,
            found: 7,
            wanted: 1001,
        }),
    );
    let new = opened(
        &rt,
        &NEEDS,
        [128; 3],
        [labelled(7, 1, 0), labelled(7, 1, 1), blank()],
    );
    same(
        &rt,
        new.err(),
        Some(OpenFault::Label {
            column: 2,
            code: 1,
            found: 0,
            wanted: 0,
        }),
    );
    Ok(())
}

// A device of so many sectors of the byte 7, which fails its calls of these numbers.
fn sevens(alloc: Global, sectors: usize, fails: &[u32]) -> Result<MemDisk, Fail>
    requires { sectors ≤ 2 }
{
    let bytes = vec![in alloc; 7; 512 * sectors]?;
    Ok(MemDisk::new(alloc, bytes, fails.to_vec(alloc)?, 4)?)
}

// A device that is read, one whose read fails, one without a sector, and none.
fn devices(alloc: Global) -> Result<Vec<Option<MemDisk>>, Fail> {
    let mut disks = Vec::new(alloc);
    disks.push(Some(sevens(alloc, 2, &[])?))?;
    disks.push(Some(sevens(alloc, 1, &[0])?))?;
    disks.push(Some(sevens(alloc, 0, &[])?))?;
    disks.push(None)?;
    Ok(disks)
}

// The last byte of a device's first sector: of one that there isn't nothing, and of one that wasn't read no byte.
fn last_of(front: &Front) -> Option<Option<u8>> {
    match front {
        Front::Away => None,
        Front::Unread => Some(None),
        Front::Held(bytes) => Some(Some(bytes[511])),
    }
}

const LAST: [Option<Option<u8>>; 4] = [Some(Some(7)), Some(None), None, None];

#[test]
fn fronts_of_devices(rt: HostRuntime) -> Result<(), Fail> {
    let mut disks = devices(rt.alloc())?;
    let fronts = read_fronts(rt.alloc(), disks.as_mut_slice())?;
    same(&rt, fronts.len(), 4);
    for (front, wanted) in fronts.iter().zip(LAST.iter()) {
        same(&rt, last_of(front), *wanted);
    }
    Ok(())
}
