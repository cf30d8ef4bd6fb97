//! Openings of small setups: what an opening asks is tested, and the test is proved.
ghost use Rattle.std.specs.Prelude.{ℕ, ◌≡◌, ◌≤◌, ◌*◌, ◌+◌, length, IfOk, IsTrue, All, List};
ghost use Rattle.blk_plain.specs.declared.op.Op.TheVariants as op;
ghost use Rattle.blk_plain.specs.Plain.{spans_of, used_of};
ghost use Rattle.eng_log.specs.Laid.{item_sectors};
ghost use Rattle.eng_cols.specs.Cols.{ColumnState};
ghost use Rattle.eng_world.specs.Step.{MayBeAsked};
ghost use Rattle.eng_plan.specs.Asked.{HasBlocks};
ghost use Rattle.eng_state.specs.Beginning.{IsAsked};
ghost use Rattle.eng_events.specs.Opened.{IsSetup, IsOpened, NamesGraph};
ghost use Rattle.eng_array.specs.Fitting.{FitsTrace, FitsRebuild, FitsRebuilding};
ghost use Rattle.array_tests.specs.Small.{HasSectors, IsOwn, AreOwn, IsSmall, IsSlim, IsScript, AreScripts, needed};
ghost use Rattle.eng_array.specs.Steady.{IsSteady};

use blk_disk::Disk;
use blk_plain::{Op, Patches, are_apart};
use eng_array::{Core, CoreRoom, Item, Setup};
use eng_cols::Column;
use graph_mean::Graph;
use item_list::Items;
use lay_core::Layout;
use std::alloc::Global;
use std::test::Fail;

// Whether there is a device of this number with so many sectors.
pub(super) fn has_sectors<D: Disk>(devices: &[Option<D>], at: usize, need: u64) -> bool
    ensures { IsTrue result → HasSectors D.Disk devices.now at need }
{
    match devices.get(at) {
        Some(Some(disk)) => need <= disk.sectors(),
        _ => false,
    }
}

// Whether the column is dead, or live on the device of its number.
fn is_own<D: Disk>(column: Column, number: usize, devices: &[Option<D>], need: u64) -> bool
    ensures { IsTrue result → IsOwn D.Disk devices.now need number column }
{
    match column {
        Column::Dead => true,
        Column::Live { device } => device as usize == number && has_sectors(devices, number, need),
        Column::Filling { .. } | Column::Spread => false,
    }
}

fn are_own<D: Disk>(columns: &[Column], devices: &[Option<D>], need: u64) -> bool
    ensures { IsTrue result → AreOwn D.Disk devices.now need columns.now }
{
    for number in 0..columns.len() {
        if !is_own(columns[number], number, devices, need) {
            return false;
        }
    }
    true
}

// Where each patch has a block each span has one.
fn spans_have_blocks(patches: &Patches)
    requires { All (λ p. 1 ≤ p.span.count) (used_of patches.now) }
    ensures { All (λ s. 1 ≤ s.count) (spans_of patches.now) }
{}

// Whether each of the spans of a write has a block, and no two share one.
fn are_sound(patches: &Patches) -> bool
    ensures { IsTrue result → HasBlocks (op.Writes patches.now) }
{
    if patches.used == 0 || patches.used > 8 {
        return false;
    }
    let used = &patches.list[..patches.used as usize];
    if !used.iter().all(|p| p.span.count > 0) {
        return false;
    }
    spans_have_blocks(patches);
    are_apart(patches)
}

// Whether the operation may be asked, with a graph of the file if one is named.
fn may_run<L: Layout>(layout: &L, graphs: usize, op: Op, graph: Option<u32>) -> bool
    ensures { IsTrue result → IsSmall (L.shape layout.now) graphs (Item.Run op graph) }
{
    if let Some(number) = graph {
        if number as usize >= graphs {
            return false;
        }
    }
    match op {
        Op::Write { span, .. } => 1 <= span.count,
        Op::Writes { patches } => are_sound(&patches),
        Op::Read { span } => 1 <= span.count && span.count <= 1024,
        Op::Rebuild { .. } => graph.is_none(),
        Op::Sync { .. } => true,
    }
}

// Whether the item may be asked.
fn is_small<L: Layout>(layout: &L, graphs: usize, item: Item) -> bool
    ensures { IsTrue result → IsSmall (L.shape layout.now) graphs item }
{
    match item {
        Item::Run { op, graph } => may_run(layout, graphs, op, graph),
        Item::Fail { column } => column < layout.columns(),
    }
}

// Whether the items are few and each may be asked.
fn is_script<L: Layout>(layout: &L, graphs: usize, items: &Items) -> bool
    ensures { IsTrue result → IsScript (L.shape layout.now) graphs items.now.items }
{
    if items.len() > 16 {
        return false;
    }
    for at in 0..items.len() {
        if !is_small(layout, graphs, items.get(at)) {
            return false;
        }
    }
    true
}

// Whether the clients are few and each has such items.
fn are_scripts<L: Layout>(layout: &L, graphs: usize, clients: &[Items]) -> bool
    ensures { IsTrue result → AreScripts (L.shape layout.now) graphs clients.now }
{
    if clients.len() > 16 {
        return false;
    }
    for items in clients {
        if !is_script(layout, graphs, items) {
            return false;
        }
    }
    true
}

// Whether no graph has more buffers than the pool.
fn are_slim(graphs: &[Graph]) -> bool
    ensures { IsTrue result → All IsSlim graphs.now }
{
    for graph in graphs {
        if graph.bufs() > 2048 {
            return false;
        }
    }
    true
}

// Whether a core may be opened over the setup.
pub(super) fn is_setup<L: Layout, D: Disk>(setup: &Setup<L, D>) -> bool
    ensures setup { IsTrue result → IsSetup L.Layout D.Disk setup.now }
    ensures scripts { IsTrue result → AreScripts (L.shape setup.now.layout)
        (length setup.now.graphs.items) setup.now.clients.items }
    ensures own { IsTrue result → AreOwn D.Disk setup.now.devices.items
        (needed (L.shape setup.now.layout)) setup.now.columns.items }
{
    let layout = &setup.layout;
    let need = 64 + u64::from(layout.rows()) * u64::from(layout.unit_sectors());
    if setup.columns.len() != layout.columns() as usize {
        return false;
    }
    if !are_own(&setup.columns, &setup.devices, need) {
        return false;
    }
    if !are_slim(&setup.graphs) {
        return false;
    }
    are_scripts(layout, setup.graphs.len(), &setup.clients)
}

// A core over a small setup.
pub(super) fn opened<L: Layout + Drop, D: Disk + Drop>(
    alloc: Global,
    setup: Setup<L, D>,
) -> Result<Core<L, D>, Fail>
    requires trace { FitsTrace L.Layout setup }
    ensures steady { IfOk result (λ core. IsSteady L.Layout D.Disk core.array) }
    ensures opened { IfOk result (λ core. IsOpened L.Layout D.Disk setup core.array) }
    ensures room { IfOk result (λ core. (cols : List ColumnState) (column asked : ℕ)
        → FitsRebuilding L.Layout setup cols column asked
        → FitsRebuild L.Layout core.array cols column asked) }
    ensures own { IfOk result (λ core.
        AreOwn D.Disk setup.devices.items (needed (L.shape setup.layout)) setup.columns.items) }
{
    if !is_setup(&setup) || setup.devices.len() > 64 {
        return Err(Fail::from("no setup"));
    }
    let devices = setup.devices.len() as u32;
    let room = CoreRoom::open(
        alloc,
        &setup.layout,
        devices,
        &setup.clients,
        &setup.graphs,
        setup.trace,
    )?;
    match Core::open(setup, room) {
        Ok(core) => Ok(core),
        Err(_) => Err(Fail::from("lost as it was opened")),
    }
}
