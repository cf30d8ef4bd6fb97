//! What is printed, worked by hand. With units of one sector, 64 rows need 128 sectors.
ghost use Rattle.std.specs.Prelude.{◌≡◌, length, IfOk};
ghost use Rattle.raid_conf.specs.Form.{IsConf};
ghost use Rattle.raid_label.specs.Bytes.{IsHeld};

use crate::judging::{holds, same};
use blk_disk::SECTOR;
use eng_cols::Column;
use raid_bay::MemSink;
use raid_conf::{Conf, read_conf};
use raid_label::{Label, write_label};
use std::alloc::Global;
use std::process::Abort;
use std::test::Fail;
use top_looks::*;
use top_open::{Front, Needs, Opened, Plan, open_array};

const SPARED: &[u8] =
    b"START array\n1 4 6\nSTART disks\nd0\nabsent\nd2\nd3\nSTART spare\ns0\ns1\ns2\ns3\ns4\ns5\nSTART layout\n1 1 1 5\n";

const PLAIN: &[u8] = b"START array\n1 3 0\nSTART disks\nd0\nd1\nd2\nSTART layout\n1 1 1 5\n";

// Comments, a queue, and numbers with leading zeros.
const LARGE: &[u8] =
    b"# five disks\nSTART array\n5 01\nSTART disks\nd0\n d1\nd2\nd3\nd4\nSTART spare\ns0 # one spare\nSTART layout\n32 1 1 5\nSTART queue\nfifo 100\nSTART debug\nany\n";

fn conf(alloc: Global, text: &[u8]) -> Result<Conf, Fail>
    ensures { IfOk result (λ conf. IsConf conf) }
{
    if text.len() >= 1_000 {
        return Err("a long text".into());
    }
    match read_conf(alloc, text) {
        Ok(conf) => Ok(conf),
        Err(_) => Err("no configuration".into()),
    }
}

// A label, not clean, of the array of three columns of level 5 with serial number 7.
fn label(counter: u32, column: u32, seats: [u8; 3]) -> Label
    ensures { IsHeld result }
{
    let mut all = [0; 32];
    all[..3].copy_from_slice(&seats);
    Label {
        version: 1,
        serial: 7,
        counter,
        column,
        columns: 3,
        unit: 1,
        rows: 64,
        level: 53,
        clean: 0,
        b: 0,
        k: 0,
        r: 0,
        lambda: 0,
        seats: all,
        filling: 0,
        done: 0,
    }
}

// One that is clean.
const CLEAN: Label = Label {
    version: 1,
    serial: 7,
    counter: 3,
    column: 0,
    columns: 3,
    unit: 1,
    rows: 64,
    level: 53,
    clean: 1,
    b: 0,
    k: 0,
    r: 0,
    lambda: 0,
    seats: [0; 32],
    filling: 0,
    done: 0,
};

// A sector that holds it.
fn held(label: &Label) -> Front
    requires { IsHeld label.now }
{
    let mut bytes = [0; SECTOR];
    write_label(label, &mut bytes);
    Front::Held(bytes)
}

// An array of four columns that was opened so.
fn spared(
    alloc: Global,
    newest: Option<Label>,
    seats: &[Column],
    columns: &[Column],
) -> Result<Opened, Fail> {
    Ok(Opened {
        rows: 64,
        seats: seats.to_vec(alloc)?,
        columns: columns.to_vec(alloc)?,
        newest,
    })
}

// The array with labels: column 1 is served by spare 0, and column 2 had spare 1, whose label couldn't be read.
fn with_labels(alloc: Global) -> Result<Opened, Fail> {
    spared(alloc, Some(CLEAN), &SEATS, &COLUMNS)
}

const SEATS: [Column; 4] = [
    Column::Live { device: 0 },
    Column::Live { device: 4 },
    Column::Live { device: 5 },
    Column::Spread,
];

const COLUMNS: [Column; 4] = [
    Column::Live { device: 0 },
    Column::Live { device: 4 },
    Column::Dead,
    Column::Spread,
];

// The sizes of its devices.
const SIZES: [u64; 10] = [128, 0, 128, 128, 128, 127, 128, 127, 128, 1];

fn fronts() -> [Front; 10] {
    [
        Front::Away,
        Front::Away,
        Front::Away,
        Front::Away,
        Front::Away,
        Front::Unread,
        Front::Unread,
        Front::Away,
        Front::Held([0; SECTOR]),
        Front::Unread,
    ]
}

// The array of six spares is printed; whether it was wholly.
fn puts(alloc: Global, opened: &Opened, out: &mut MemSink) -> Result<bool, Fail> {
    puts_marked(alloc, opened, false, out)
}

// The same where the maps mark something, or don't.
fn puts_marked(
    alloc: Global,
    opened: &Opened,
    marked: bool,
    out: &mut MemSink,
) -> Result<bool, Fail> {
    let conf = conf(alloc, SPARED)?;
    Ok(put_show(&conf, opened, &SIZES, &fronts(), marked, out).is_ok())
}

fn shows(rt: &impl Abort, alloc: Global, opened: &Opened, wanted: &[u8]) -> Result<(), Fail> {
    let mut out = MemSink::new(alloc, 1000, Vec::new(alloc))?;
    holds(rt, puts(alloc, opened, &mut out)?);
    same(rt, out.bytes(), wanted);
    Ok(())
}

const STANDS: &[u8] =
    b"column 0 d0 optimal\ncolumn 1 absent spared 0\ncolumn 2 d2 failed\ncolumn 3 d3 spread\n\
spare 0 s0 used\nspare 1 s1 used\nspare 2 s2 failed\nspare 3 s3 small\nspare 4 s4 free\nspare 5 s5 failed\n\
parity clean\n";

#[test]
fn columns_and_spares_stand_so(rt: HostRuntime) -> Result<(), Fail> {
    shows(&rt, rt.alloc(), &with_labels(rt.alloc())?, STANDS)
}

// What is marked may not be in sync, though the labels are clean. Without labels there are no marks.
#[test]
fn a_marked_array_is_dirty(rt: HostRuntime) -> Result<(), Fail> {
    let alloc = rt.alloc();
    let bare = spared(alloc, None, &ONE_DEAD, &TWO_DEAD)?;
    for (opened, ending) in [
        (with_labels(alloc)?, b"\nparity dirty\n" as &[u8]),
        (bare, b"\nparity unlabelled\n"),
    ] {
        let mut out = MemSink::new(alloc, 1000, Vec::new(alloc))?;
        holds(&rt, puts_marked(alloc, &opened, true, &mut out)?);
        holds(&rt, out.bytes().ends_with(ending));
    }
    Ok(())
}

// The line of a map, by one call; none where no device has a map.
#[test]
fn a_map_is_printed(rt: HostRuntime) -> Result<(), Fail> {
    let mut out = MemSink::new(rt.alloc(), 1000, Vec::new(rt.alloc()))?;
    let marked = Marked {
        regions: 3968,
        marked: 17,
    };
    for map in [Some(marked), None] {
        holds(&rt, put_map(map, &mut out).is_ok());
    }
    same(
        &rt,
        out.bytes(),
        b"map regions 3968 marked 17\nmap none\n" as &[u8],
    );
    let mut broken = MemSink::new(rt.alloc(), 1000, vec![in rt.alloc(); 0]?)?;
    holds(&rt, put_map(Some(marked), &mut broken).is_err());
    same(&rt, broken.bytes(), b"" as &[u8]);
    Ok(())
}

// A sink that fails call k has the k lines before it, and no other.
fn breaks_at(rt: &impl Abort, alloc: Global, opened: &Opened, k: u32) -> Result<(), Fail> {
    let mut out = MemSink::new(alloc, 1000, vec![in alloc; k]?)?;
    same(rt, puts(alloc, opened, &mut out)?, k == 11);
    let lines = out.bytes().iter().filter(|byte| **byte == 10).count();
    same(rt, lines, k as usize);
    holds(rt, STANDS.starts_with(out.bytes()));
    Ok(())
}

#[test]
fn a_line_is_one_call(rt: HostRuntime) -> Result<(), Fail> {
    let opened = with_labels(rt.alloc())?;
    for k in 0..12 {
        breaks_at(&rt, rt.alloc(), &opened, k)?;
    }
    Ok(())
}

const TWO_DEAD: [Column; 4] = [
    Column::Live { device: 0 },
    Column::Dead,
    Column::Live { device: 2 },
    Column::Dead,
];

const ONE_DEAD: [Column; 4] = [
    Column::Live { device: 0 },
    Column::Dead,
    Column::Live { device: 2 },
    Column::Live { device: 3 },
];

const UNLABELLED: &[u8] =
    b"column 0 d0 optimal\ncolumn 1 absent failed\ncolumn 2 d2 optimal\ncolumn 3 d3 failed\n\
spare 0 s0 free\nspare 1 s1 small\nspare 2 s2 free\nspare 3 s3 small\nspare 4 s4 free\nspare 5 s5 small\n\
parity unlabelled\n";

// Without labels no spare has a part: none is used, nor failed.
#[test]
fn spares_of_an_unlabelled_array(rt: HostRuntime) -> Result<(), Fail> {
    let opened = spared(rt.alloc(), None, &ONE_DEAD, &TWO_DEAD)?;
    shows(&rt, rt.alloc(), &opened, UNLABELLED)
}

// The array is opened for a look at it.
fn opened(alloc: Global, fronts: &[Front]) -> Result<Opened, Fail>
    requires { length fronts.now ≡ 3 }
{
    let needs = Needs {
        plain: false,
        labels: false,
        excused: None,
        own: false,
        writes: false,
        adopts: false,
    };
    let plan = Plan {
        unit: 1,
        level: 53,
        b: 0,
        k: 0,
        r: 0,
        lambda: 0,
        spares: 0,
        step: 1,
        stripes: 1,
    };
    match open_array(alloc, &needs, &plan, &[true; 3], &[128; 3], fronts) {
        Ok(opened) => Ok(opened),
        Err(_) => Err("not opened".into()),
    }
}

// Labels were written once, and then column 1 was failed, which wrote those of the others once more.
#[test]
fn a_column_was_failed(rt: HostRuntime) -> Result<(), Fail> {
    let alloc = rt.alloc();
    let conf = conf(alloc, PLAIN)?;
    let fronts = [
        held(&label(2, 0, [0, 255, 0])),
        held(&label(1, 1, [0; 3])),
        held(&label(2, 2, [0, 255, 0])),
    ];
    let opened = opened(alloc, &fronts)?;
    let mut out = MemSink::new(alloc, 1000, Vec::new(alloc))?;
    holds(
        &rt,
        put_show(&conf, &opened, &[128; 3], &fronts, false, &mut out).is_ok(),
    );
    holds(&rt, put_label(&fronts[0], &mut out).is_ok());
    let wanted: &[u8] =
        b"column 0 d0 optimal\ncolumn 1 d1 failed\ncolumn 2 d2 optimal\nparity dirty\nlabel 1 7 2 0 3 1 64 53 0\n";
    same(&rt, out.bytes(), wanted);
    Ok(())
}

// A sector that isn't well formed, one that couldn't be read, and a component without a sector.
#[test]
fn sectors_without_a_label(rt: HostRuntime) -> Result<(), Fail> {
    let alloc = rt.alloc();
    let mut out = MemSink::new(alloc, 1000, Vec::new(alloc))?;
    for front in [Front::Held([0; SECTOR]), Front::Unread, Front::Away] {
        holds(&rt, put_label(&front, &mut out).is_ok());
    }
    let wanted: &[u8] = b"label none\nlabel unread\nlabel none\n";
    same(&rt, out.bytes(), wanted);
    Ok(())
}

#[test]
fn a_configuration_is_printed(rt: HostRuntime) -> Result<(), Fail> {
    let alloc = rt.alloc();
    let conf = conf(alloc, LARGE)?;
    let Ok(text) = printed_conf(alloc, &conf) else {
        return Err("no memory".into());
    };
    let wanted: &[u8] =
        b"START array\n1 5 1\nSTART disks\nd0\nd1\nd2\nd3\nd4\nSTART spare\ns0\nSTART layout\n32 1 1 5\nSTART queue\nfifo 100\n";
    same(&rt, text.as_slice(), wanted);
    Ok(())
}
