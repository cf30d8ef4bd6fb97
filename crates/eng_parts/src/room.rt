//! The room of a core is taken.
ghost use Rattle.std.specs.Prelude.{◌≡◌, ◌<◌, ◌≤◌, ◌*◌, ℕ, [], length, replicate, IfOk};
ghost use Rattle.buf_pool.specs.Reserve.{IsStocked};
ghost use Rattle.stripe_lock.specs.Table.{IsIdle};
ghost use Rattle.eng_cols.specs.Cols.{Dead};
ghost use Rattle.eng_log.specs.Laid.{items_before, sectors_before, IsLaidOut};
ghost use Rattle.eng_clients.specs.Fresh.{AreRoomsFor};
ghost use Rattle.eng_log.specs.Given.{items_at};
ghost use Rattle.eng_plan.specs.Pooled.{row_leases};
ghost use Rattle.eng_parts.specs.Fresh.{fresh_log, all_leases, stocked, IsRoomFor};

use crate::core_room::CoreRoom;
use crate::devices::DeviceRoom;
use crate::memory::Memory;
use crate::spare::Spare;
use blk_plain::limits;
use buf_pool::Reserve;
use eng_clients::{ClientRooms, Rebuilds};
use eng_cols::Cols;
use eng_job::Lists;
use eng_log::{Handed, Log};
use eng_plan::{own_leases, row_leases};
use graph_check::Scratch;
use graph_mean::Graph;
use item_list::Items;
use lay_core::Layout;
use std::alloc::Global;
use stripe_lock::Locks;

// The owners of locks: all clients, the engine's own included.
const OWNERS: u32 = limits::CLIENTS + 1;

// The columns, all dead.
fn cols_for<L: Layout>(alloc: Global, layout: &L) -> Result<Cols, Memory>
    ensures { IfOk result (λ cols. cols ≡ record {
      states = replicate (L.shape layout.now).columns
          Dead;
      stripes = (L.shape layout.now).stripes;
    }) }
{
    Ok(Cols::with_room(alloc, layout.columns(), layout.stripes())?)
}

// The most buffers that one of the client's items leases.
fn row_of<L: Layout>(layout: &L, clients: &[Items], client: u32, graphs: &[Graph]) -> u32
    ensures { result
        ≡ row_leases (L.shape layout.now) graphs.now (items_at clients.now client) }
{
    match clients.get(client as usize) {
        None => 0,
        Some(items) => row_leases(layout, items, graphs),
    }
}

// The buffers that the clients' items and the engine's own can lease at once.
fn all_leases<L: Layout>(layout: &L, clients: &[Items], graphs: &[Graph]) -> u64
    ensures { result ≡ all_leases (L.shape layout.now) graphs.now clients.now }
{
    let mut all = u64::from(own_leases(layout));
    for client in 0..limits::CLIENTS {
        all += u64::from(row_of(layout, clients, client, graphs));
    }
    all
}

// How many have memory: as many as can be leased at once, or as many as a pool has.
fn stocked<L: Layout>(layout: &L, clients: &[Items], graphs: &[Graph]) -> u32
    ensures count { result ≡ stocked (L.shape layout.now) graphs.now clients.now }
    ensures few { result ≤ 2048 }
{
    all_leases(layout, clients, graphs).min(u64::from(limits::BUFFERS)) as u32
}

// Buffers of the layout's units.
fn pool_for<L: Layout>(
    alloc: Global,
    layout: &L,
    clients: &[Items],
    graphs: &[Graph],
) -> Result<Reserve, Memory>
    ensures unit { IfOk result (λ pool. pool.unit ≡ 512 * (L.shape layout.now).unit_sectors) }
    ensures stocked { IfOk result
        (λ pool. IsStocked pool (stocked (L.shape layout.now) graphs.now clients.now)) }
{
    let count = stocked(layout, clients, graphs);
    Ok(Reserve::open(alloc, count, 512 * layout.unit_sectors())?)
}

// A history for each operation that there may be; and a trace, if it is kept, with the failure of each column, the
// start of a rebuild and one failure more. And a region for each item.
fn log_for<L: Layout>(
    alloc: Global,
    layout: &L,
    trace: bool,
    clients: &[Items],
) -> Result<Log, Memory>
    requires clients { length clients.now ≤ 16 }
    requires sectors { sectors_before clients.now 16 ≤ 262144 }
    ensures log { IfOk result (λ log. log ≡ fresh_log (L.shape layout.now) trace log.handed) }
    ensures laid { IfOk result
        (λ log. IsLaidOut clients.now (L.shape layout.now).stripes log.handed) }
{
    let events = if trace {
        limits::EVENTS + 2 + layout.columns()
    } else {
        0
    };
    let handed = Handed::open(alloc, clients, layout.stripes())?;
    Ok(Log::open(
        alloc,
        trace,
        handed,
        limits::ITEMS + layout.stripes(),
        events,
    )?)
}

// Room for the clients' items.
fn clients_for(alloc: Global, clients: &[Items]) -> Result<ClientRooms, Memory>
    requires clients { length clients.now ≤ 16 }
    requires items { items_before clients.now 16 ≤ 65536 }
    ensures { IfOk result (AreRoomsFor clients.now) }
{
    Ok(ClientRooms::open(alloc, clients)?)
}

// The room is taken in three groups: each part that may be wanting adds an exit on which all parts before it are let go.

// What depends on the layout's shape.
#[derive(Drop)]
struct Shaped {
    cols: Cols,
    pool: Reserve,
    log: Log,
}

// What an event works with.
#[derive(Drop)]
struct Tools<D> {
    devices: DeviceRoom<D>,
    locks: Locks,
    lists: Lists,
    scratch: Scratch,
}

// Room for the clients, the engine's own among them, and the lists that they are handed out in.
#[derive(Drop)]
struct Desks {
    clients: ClientRooms,
    rebuilds: Rebuilds,
    spare: Spare,
}

// All columns are dead, all buffers are free, and the log is empty.
fn shaped_for<L: Layout>(
    alloc: Global,
    layout: &L,
    trace: bool,
    clients: &[Items],
    graphs: &[Graph],
) -> Result<Shaped, Memory>
    requires clients { length clients.now ≤ 16 }
    requires sectors { sectors_before clients.now 16 ≤ 262144 }
    ensures cols { IfOk result (λ shaped. shaped.cols ≡ record {
      states = replicate
          (L.shape layout.now).columns Dead;
      stripes = (L.shape layout.now).stripes;
    }) }
    ensures unit { IfOk result
        (λ shaped. shaped.pool.unit ≡ 512 * (L.shape layout.now).unit_sectors) }
    ensures stocked { IfOk result
        (λ shaped. IsStocked shaped.pool (stocked (L.shape layout.now) graphs.now clients.now)) }
    ensures log { IfOk result
        (λ shaped. shaped.log ≡ fresh_log (L.shape layout.now) trace shaped.log.handed) }
    ensures laid { IfOk result
        (λ shaped. IsLaidOut clients.now (L.shape layout.now).stripes shaped.log.handed) }
{
    Ok(Shaped {
        cols: cols_for(alloc, layout)?,
        pool: pool_for(alloc, layout, clients, graphs)?,
        log: log_for(alloc, layout, trace, clients)?,
    })
}

// Room for so many devices; no stripe is held, and all lists are at home.
fn tools_for<D: Drop>(alloc: Global, devices: u32) -> Result<Tools<D>, Memory>
    ensures devices { IfOk result (λ tools. tools.devices ≡ devices) }
    ensures locks { IfOk result (λ tools. IsIdle tools.locks 17) }
    ensures lists { IfOk result (λ tools. tools.lists ≡ 32) }
{
    Ok(Tools {
        devices: DeviceRoom::open(alloc, devices)?,
        locks: Locks::open(alloc, OWNERS)?,
        lists: Lists::open(alloc)?,
        scratch: Scratch::open(alloc)?,
    })
}

// There is room for each client's items, and a rebuild's place for each stripe.
fn desks_for(alloc: Global, stripes: u32, clients: &[Items]) -> Result<Desks, Memory>
    requires clients { length clients.now ≤ 16 }
    requires items { items_before clients.now 16 ≤ 65536 }
    ensures clients { IfOk result (λ desks. AreRoomsFor clients.now desks.clients) }
    ensures rebuilds { IfOk result
        (λ desks. desks.rebuilds ≡ record { items = []; room = stripes }) }
    ensures spare { IfOk result (λ desks. desks.spare ≡ length clients.now) }
{
    Ok(Desks {
        clients: clients_for(alloc, clients)?,
        rebuilds: Rebuilds::open(alloc, stripes)?,
        spare: Spare::open(alloc, clients.len() as u32)?,
    })
}

impl<D: Drop> CoreRoom<D> {
    /// Takes all memory that a run takes over this layout, so many devices and these items, with the trace if it is to
    /// be kept. The only error is want of memory.
    pub fn open<L: Layout>(
        alloc: Global,
        layout: &L,
        devices: u32,
        clients: &[Items],
        graphs: &[Graph],
        trace: bool,
    ) -> Result<CoreRoom<D>, Memory>
        requires clients { length clients.now ≤ 16 }
        requires items { items_before clients.now 16 ≤ 65536 }
        requires sectors { sectors_before clients.now 16 ≤ 262144 }
        ensures { IfOk result
            (IsRoomFor (L.shape layout.now) devices clients.now graphs.now trace) }
    {
        let shaped = shaped_for(alloc, layout, trace, clients, graphs)?;
        let tools = tools_for(alloc, devices)?;
        let desks = desks_for(alloc, layout.stripes(), clients)?;
        Ok(CoreRoom {
            cols: shaped.cols,
            devices: tools.devices,
            pool: shaped.pool,
            locks: tools.locks,
            lists: tools.lists,
            clients: desks.clients,
            scratch: tools.scratch,
            log: shaped.log,
            rebuilds: desks.rebuilds,
            spare: desks.spare,
        })
    }
}
