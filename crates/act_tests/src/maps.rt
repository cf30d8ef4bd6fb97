//! What a stop leaves of an array with a parity map, what its maps are found to say, and which regions the items of a
//! script are marked in, worked by hand.
//!
//! The arrays have three columns of level 5, whose units are one sector, and six stripes. Each unit of stripe s stands
//! in sector 64 + s, and each stripe is a region.
ghost use Rattle.std.specs.Prelude.{◌≡◌, IfOk, IsTrue, length};
ghost use Rattle.eng_cols.specs.Cols.{IsFor};
ghost use Rattle.raid_map.specs.Asking.{HasSpans, IsSpanned};

use crate::acts::asked::can_act;
use crate::judging::{same, same_at};
use blk_disk::{Disk, MemDisk, MemStop, SECTOR, StopDisk};
use blk_plain::{Op, Span};
use eng_cols::{Cols, Column};
use eng_world::Item;
use graph_mean::{Buf, Graph, Node};
use item_list::Items;
use lay_core::{Layout, StripeMap};
use lay_plain::Raid5;
use raid_map::{Map, MapRoom, mark_all, mark_script, read_maps, sweep_marked};
use raid_progress::Silent;
use raid_recon::{Room, SweepRoom, sweep_check};
use std::alloc::Global;
use std::process::Abort;
use std::test::Fail;

// The serial of the array.
const SERIAL: u32 = 1001;

// An array of three devices, each in its column.
#[derive(Drop)]
struct Array<D: Disk> {
    devices: [Option<D>; 3],
    columns: Vec<Column>,
}

fn array_of<D: Disk + Drop>(alloc: Global, devices: [Option<D>; 3]) -> Result<Array<D>, Fail> {
    let mut columns = Vec::new(alloc);
    for device in 0..3 {
        columns.push(Column::Live { device })?;
    }
    Ok(Array { devices, columns })
}

// What an opening finds: whether a device has a map, how many regions the union marks, how many check units are
// rewritten, and how many stripes aren't in sync then.
#[derive(Clone, Copy, Debug, PartialEq, Eq)]
struct Found {
    any: bool,
    marked: u32,
    rewritten: u64,
    unsound: u64,
}

fn empty_map<L: Layout>(alloc: Global, layout: &L) -> Result<Map, Fail>
    ensures { IfOk result (λ map. map.stripes ≡ (L.shape layout.now).stripes) }
{
    if layout.stripes() == 0 || layout.stripes() > 1048576 {
        return Err("no stripes".into());
    }
    Ok(Map::open(alloc, layout.stripes(), SERIAL)?)
}

// Marks the first stripes of the array on all of its devices, so many.
fn mark_first<L: Layout, D: StopDisk>(
    alloc: Global,
    layout: &L,
    array: &mut Array<D>,
    count: u32,
) -> Result<(), Fail> {
    let mut map = empty_map(alloc, layout)?;
    for stripe in 0..count {
        if stripe < layout.stripes() {
            map.mark(stripe);
        }
    }
    if !can_act(layout, &array.columns, &array.devices) {
        return Err("no array".into());
    }
    mark_all(&map, &mut array.devices, array.columns.as_mut_slice());
    Ok(())
}

fn unsound<L: Layout, D: Disk>(
    alloc: Global,
    layout: &L,
    array: &mut Array<D>,
    judge: &mut Cols,
) -> Result<u64, Fail>
    requires { IsFor (L.shape layout.now) judge.old }
{
    if !can_act(layout, &array.columns, &array.devices) {
        return Err("no array".into());
    }
    let room = Room::open(alloc, 1024 * layout.unit_sectors())?;
    let mut room = SweepRoom::new(room, Silent);
    Ok(sweep_check(
        layout,
        &mut array.devices,
        array.columns.as_mut_slice(),
        &mut room,
        judge,
    ))
}

// Opens the array: its maps are read, what they mark is swept, and then it is checked.
fn opened<L: Layout, D: StopDisk>(
    alloc: Global,
    layout: &L,
    array: &mut Array<D>,
) -> Result<Found, Fail> {
    let mut union = empty_map(alloc, layout)?;
    if !can_act(layout, &array.columns, &array.devices) {
        return Err("no array".into());
    }
    let any = read_maps(&mut union, &mut array.devices, array.columns.as_mut_slice());
    if !can_act(layout, &array.columns, &array.devices) {
        return Err("no array".into());
    }
    let mut room = MapRoom::open(alloc, 1024 * layout.unit_sectors())?;
    let mut judge = Cols::with_room(alloc, layout.columns(), layout.stripes())?;
    let rewritten = sweep_marked(
        layout,
        &mut array.devices,
        array.columns.as_mut_slice(),
        &union,
        &mut room,
        &mut judge,
    );
    Ok(Found {
        any,
        marked: union.count(),
        rewritten,
        unsound: unsound(alloc, layout, array, &mut judge)?,
    })
}

fn write<D: Disk>(device: &mut Option<D>, sector: u64, byte: u8) -> Result<(), Fail> {
    let Some(disk) = device else {
        return Err("no device".into());
    };
    if sector >= disk.sectors() {
        return Err("no sector".into());
    }
    match disk.write(sector, &[byte; SECTOR]) {
        Ok(()) => Ok(()),
        Err(_) => Err("no room".into()),
    }
}

fn stopped(device: Option<MemStop>, keep: &[bool]) -> Result<Option<MemStop>, Fail> {
    let Some(disk) = device else {
        return Err("no device".into());
    };
    if keep.len() != disk.logged() as usize {
        return Err("not so many".into());
    }
    Ok(Some(disk.stop(keep)))
}

fn stop_disk(alloc: Global) -> Result<Option<MemStop>, Fail> {
    let bytes = vec![in alloc; 0; SECTOR * 70]?;
    Ok(Some(MemStop::new(alloc, bytes, 16)?))
}

// The first three stripes are marked. Then stripe 0 is written twice on one device, stripe 1 on another and stripe 2
// on the third.
fn written(alloc: Global, layout: &Raid5) -> Result<Array<MemStop>, Fail> {
    let disks = [stop_disk(alloc)?, stop_disk(alloc)?, stop_disk(alloc)?];
    let mut array = array_of(alloc, disks)?;
    mark_first(alloc, layout, &mut array, 3)?;
    write(&mut array.devices[0], 64, 0xa5)?;
    write(&mut array.devices[0], 64, 0xb6)?;
    write(&mut array.devices[1], 65, 1)?;
    write(&mut array.devices[2], 66, 1)?;
    Ok(array)
}

// The power stops, and these of the four sectors are kept.
fn stop(array: &mut Array<MemStop>, keep: [bool; 4]) -> Result<(), Fail> {
    array.devices[0] = stopped(array.devices[0].take(), &keep[..2])?;
    array.devices[1] = stopped(array.devices[1].take(), &keep[2..3])?;
    array.devices[2] = stopped(array.devices[2].take(), &keep[3..])?;
    Ok(())
}

// The array is opened, and so many stripes are marked, and so many check units rewritten.
fn is_opened(
    rt: &impl Abort,
    alloc: Global,
    array: &mut Array<MemStop>,
    keep: [bool; 4],
    marked: u32,
    rewritten: u64,
) -> Result<(), Fail> {
    let layout = Raid5::new(3, 1, 6)?;
    let found = opened(alloc, &layout, array)?;
    let wanted = Found {
        any: true,
        marked,
        rewritten,
        unsound: 0,
    };
    same_at(rt, keep, found, wanted);
    Ok(())
}

fn is_swept(rt: &impl Abort, alloc: Global, keep: [bool; 4]) -> Result<(), Fail> {
    let layout = Raid5::new(3, 1, 6)?;
    let mut array = written(alloc, &layout)?;
    stop(&mut array, keep)?;
    let rewritten = u64::from(keep[0] || keep[1]) + u64::from(keep[2]) + u64::from(keep[3]);
    is_opened(rt, alloc, &mut array, keep, 3, rewritten)?;
    mark_first(alloc, &layout, &mut array, 0)?;
    is_opened(rt, alloc, &mut array, keep, 0, 0)
}

// Whichever of the four sectors is kept.
#[test]
fn what_a_stop_leaves_unsound_is_swept(rt: HostRuntime) -> Result<(), Fail> {
    for kept in 0..16 {
        let keep = [
            kept % 2 == 1,
            kept / 2 % 2 == 1,
            kept / 4 % 2 == 1,
            kept / 8 == 1,
        ];
        is_swept(&rt, rt.alloc(), keep)?;
    }
    Ok(())
}

// A map of this serial with one byte of marks.
fn put_map(sector: &mut [u8], serial: u8, marks: u8)
    requires { length sector.old ≡ 512 }
    ensures { length sector.new ≡ 512 }
{
    sector[..8].copy_from_slice(b"RFPMAP01");
    sector[8] = serial;
    sector[9] = 3;
    sector[12] = 1;
    sector[16] = marks;
}

// Seventy sectors, of which sector 1 holds such a map, or nothing.
fn sectors(alloc: Global, map: Option<(u8, u8)>) -> Result<Vec<u8>, Fail>
    ensures { IfOk result (λ bytes. length bytes.items ≡ 35840) }
{
    let mut bytes = vec![in alloc; 0; SECTOR * 70]?;
    match map {
        Some((serial, marks)) => {
            put_map(&mut bytes.as_mut_slice()[SECTOR..2 * SECTOR], serial, marks);
            Ok(bytes)
        }
        None => Ok(bytes),
    }
}

// A device of such sectors, whose first call fails if that is wanted.
fn disk(alloc: Global, map: Option<(u8, u8)>, fails: bool) -> Result<Option<MemDisk>, Fail> {
    let bytes = sectors(alloc, map)?;
    let fails = [if fails { 0 } else { 99 }].to_vec(alloc)?;
    Ok(Some(MemDisk::new(alloc, bytes, fails, 100)?))
}

fn dead<D: Disk>(array: &Array<D>) -> [bool; 3] {
    let mut dead = [false; 3];
    for c in 0..3 {
        dead[c] = array.columns.get(c).copied() == Some(Column::Dead);
    }
    dead
}

// The maps of three devices, whether the first fails its first call, whether there is a map then, and how many regions
// are marked. Serial 1001 is 3 times 256 and 233. A map of another serial, or with a bit past the last region, counts for
// nothing.
type Maps = ([Option<(u8, u8)>; 3], bool, bool, u32);

const ROWS: [Maps; 6] = [
    ([None, None, None], false, false, 0),
    ([Some((233, 0)), None, None], false, true, 0),
    ([Some((233, 2)), None, Some((233, 34))], false, true, 2),
    (
        [Some((233, 1)), Some((233, 2)), Some((233, 4))],
        true,
        true,
        2,
    ),
    ([Some((232, 63)), None, None], false, false, 0),
    ([Some((233, 65)), None, Some((233, 63))], false, true, 6),
];

fn are_read(rt: &impl Abort, alloc: Global, row: Maps) -> Result<(), Fail> {
    let (maps, fails, any, marked) = row;
    let layout = Raid5::new(3, 1, 6)?;
    let disks = [
        disk(alloc, maps[0], fails)?,
        disk(alloc, maps[1], false)?,
        disk(alloc, maps[2], false)?,
    ];
    let mut array = array_of(alloc, disks)?;
    let found = opened(alloc, &layout, &mut array)?;
    let wanted = Found {
        any,
        marked,
        rewritten: 0,
        unsound: 0,
    };
    same_at(rt, maps, found, wanted);
    same(rt, dead(&array), [fails, false, false]);
    Ok(())
}

#[test]
fn maps_are_read_of_the_devices_in_use(rt: HostRuntime) -> Result<(), Fail> {
    for row in ROWS {
        are_read(&rt, rt.alloc(), row)?;
    }
    Ok(())
}

// Whether each operation has blocks. Writes of several spans aren't tried.
fn has_spans(op: &Op) -> bool
    ensures { IsTrue result → HasSpans op.now }
{
    match op {
        Op::Write { span, .. } | Op::Read { span } => span.count >= 1,
        Op::Writes { .. } => false,
        Op::Rebuild { .. } | Op::Sync { .. } => true,
    }
}

fn is_spanned(item: &Item) -> bool
    ensures { IsTrue result → IsSpanned item.now }
{
    match item {
        Item::Run { op, .. } => has_spans(op),
        Item::Fail { .. } => true,
    }
}

// A graph of one node, which writes or reads.
fn graph(alloc: Global, writes: bool) -> Result<Graph, Fail> {
    let mut graph = Graph::with_room(alloc, 1, 1, 1)?;
    graph.push_buf(Buf {
        stripe: 0,
        from: 0,
        count: 1,
        new_of: None,
    });
    if writes {
        graph.push_node(Node::Wr { unit: 0, buf: 0 });
    } else {
        graph.push_node(Node::Rd { unit: 0, buf: 0 });
    }
    Ok(graph)
}

// The stripes whose regions are marked for a script of one item.
fn marked_by(alloc: Global, item: Item) -> Result<[bool; 6], Fail> {
    let layout = Raid5::new(3, 1, 6)?;
    let mut map = empty_map(alloc, &layout)?;
    let mut room = StripeMap::with_room(alloc)?;
    let mut graphs = Vec::new(alloc);
    graphs.push(graph(alloc, false)?)?;
    graphs.push(graph(alloc, true)?)?;
    if !is_spanned(&item) {
        return Err("no blocks".into());
    }
    let mut items = Items::new(alloc);
    items.push(item)?;
    let mut clients = Vec::new(alloc);
    clients.push(items)?;
    mark_script(
        &layout,
        graphs.as_slice(),
        clients.as_slice(),
        &mut room,
        &mut map,
    );
    let mut marked = [false; 6];
    for stripe in 0..6 {
        if stripe < layout.stripes() {
            marked[stripe as usize] = map.marked(stripe);
        }
    }
    Ok(marked)
}

fn read(first: u64, count: u32, graph: Option<u32>) -> Item {
    let span = Span { first, count };
    Item::Run {
        op: Op::Read { span },
        graph,
    }
}

// A script of the item alone marks the regions of these stripes.
fn is_marked(rt: &impl Abort, alloc: Global, item: Item, marks: [u8; 6]) -> Result<(), Fail> {
    let mut found = [0; 6];
    let marked = marked_by(alloc, item)?;
    for stripe in 0..6 {
        found[stripe] = u8::from(marked[stripe]);
    }
    same_at(rt, item, found, marks);
    Ok(())
}

// A stripe has two blocks. Graph 0 has no write, and graph 1 has one.
#[test]
fn what_an_item_may_write_is_marked(rt: HostRuntime) -> Result<(), Fail> {
    const READS: &[(u64, u32, Option<u32>, [u8; 6])] = &[
        (3, 2, None, [0, 0, 0, 0, 0, 0]),
        (3, 2, Some(0), [0, 0, 0, 0, 0, 0]),
        (3, 2, Some(1), [0, 1, 1, 0, 0, 0]),
        (11, 1, Some(1), [0, 0, 0, 0, 0, 1]),
        (11, 2, Some(1), [0, 0, 0, 0, 0, 0]),
    ];
    let alloc = rt.alloc();
    for row in READS {
        let (first, count, graph, wanted) = *row;
        is_marked(&rt, alloc, read(first, count, graph), wanted)?;
    }
    let run = |op| Item::Run { op, graph: None };
    is_marked(&rt, alloc, run(Op::Sync { stripe: 5 }), [0, 0, 0, 0, 0, 1])?;
    is_marked(&rt, alloc, run(Op::Sync { stripe: 6 }), [0; 6])?;
    is_marked(
        &rt,
        alloc,
        run(Op::Rebuild { stripe: 0 }),
        [1, 0, 0, 0, 0, 0],
    )?;
    is_marked(&rt, alloc, Item::Fail { column: 1 }, [0; 6])
}
