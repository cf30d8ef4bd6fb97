//! A client, with the operation that it runs.
ghost use Rattle.std.specs.Prelude.{◌≡◌, ◌<◌, ◌≤◌, ℕ, Some, None, true, false, length, slice_get, slice_index, get_or};
ghost use Rattle.graph_mean.specs.Graph.{kind_at, buf_at};
ghost use Rattle.eng_one.specs.Control.{mark_of, IsReadyIn, IsWrite, MayEnd};
ghost use Rattle.graph_mean.specs.Task.{is_rebuild_of};
ghost use Rattle.buf_pool.specs.Pool.{IsLease, taken, put};
ghost use Rattle.eng_clients.specs.Seats.{bytes_at, seat_of};
ghost use Rattle.eng_clients.specs.Desk.{Desk, Lends, spot_at, with_fired, with_ended, with_reply, with_skipped, with_waiting};

mod fails;
mod open;

use crate::spots::Spots;
use crate::stage::Stage;
use blk_plain::Outcome;
use buf_pool::{Buffer, Lease, Reserve};
use eng_cols::Spot;
use eng_one::Run;
use eng_world::{Item, Reply};
use graph_mean::{Buf, Graph, Kind, Node, Phase, Status, Task};
use item_list::Items;
use lay_core::StripeMap;
pub use open::ClientRoom;
use std::marker::Model;

/// A client.
#[derive(Drop)]
pub struct Client {
    pub(crate) items: Items,
    // The item that it serves now or next, so that each is taken out of the list once.
    pub(crate) item: Option<Item>,
    pub(crate) replies: Vec<Reply>,
    pub(crate) stage: Stage,
    pub(crate) run: Run,
    pub(crate) graph: Graph,
    pub(crate) task: Task,
    pub(crate) map: StripeMap,
    pub(crate) missing: Vec<Option<u8>>,
    pub(crate) lease: Lease,
    pub(crate) spots: Spots,
    pub(crate) by: Option<u32>,
    pub(crate) file: Option<u32>,
}

impl Model for Client {
    ghost use Rattle.std.specs.Prelude.{◌≡◌, ◌≤◌, length, slice_get, vec_capacity};
    ghost use Rattle.eng_clients.specs.Desk.{Desk};

    ghost Value = { Desk };

    ghost view = { λ c. record {
      items = c.items.items;
      replies = c.replies.items;
      stage = c.stage;
      run = c.run;
      graph = c.graph;
      task = c.task;
      map = c.map;
      missing = c.missing.items;
      lease = c.lease;
      spots = c.spots;
      by = c.by;
      file = c.file;
    } };

    ghost invariant = { λ c. record {
      replies : (length c.items.items ≤ 4294967295) × (length c.replies.items ≤ length c.items.items) × (length c.items.items ≤ vec_capacity c.replies);
      item : c.item ≡ slice_get c.items.items (length c.replies.items);
      missing : 16 ≤ vec_capacity c.missing;
      graph : (c.graph.node_room ≡ 2048) × (c.graph.buf_room ≡ 2048) × (c.graph.edge_room ≡ 16384);
    } };
}

// The item at a place comes where none is. It isn't called for each item, and has room for one of its own.
#[inline(never)]
fn bring_first(items: &Items, at: usize, item: &mut Option<Item>)
    requires { at < length items.now.items }
    ensures { item.new ≡ slice_get items.now.items at }
{
    *item = Some(items.get(at));
}

// The item at a place, if there is one, comes in the place of another.
pub(crate) fn bring_item(items: &Items, at: usize, item: &mut Option<Item>)
    ensures { item.new ≡ slice_get items.now.items at }
{
    if at >= items.len() {
        *item = None;
        return;
    }
    match item.as_mut() {
        Some(item) => items.copy_to(at, item),
        None => bring_first(items, at, item),
    }
}

impl Client {
    /// The place of the item that it serves now or next.
    pub fn served(&self) -> u32
        ensures { result ≡ length self.now.replies }
    {
        self.replies.len() as u32
    }

    /// Node n of the operation's graph.
    pub fn node(&self, node: u32, graphs: &[Graph]) -> Node
        requires lends { Lends graphs.now self.now }
        requires node { node < length self.now.run.graph.nodes }
        ensures { result ≡ kind_at self.now.run.graph node }
    {
        match self.file {
            None => self.graph.node(node),
            Some(n) => graphs[n as usize].node(node),
        }
    }

    /// Buffer b of it.
    pub fn buf(&self, buf: u32, graphs: &[Graph]) -> Buf
        requires lends { Lends graphs.now self.now }
        requires buf { buf < length self.now.run.graph.bufs }
        ensures { result ≡ buf_at self.now.run.graph buf }
    {
        match self.file {
            None => self.graph.buf(buf),
            Some(n) => graphs[n as usize].buf(buf),
        }
    }

    /// The stripe at a position.
    pub fn stripe(&self, position: u32) -> u32
        requires { position < length self.now.map.stripes }
        ensures { result ≡ slice_index self.now.map.stripes position }
    {
        self.map.stripes()[position as usize]
    }

    /// Whether it is the rebuild of this unit.
    pub fn rebuilds(&self, unit_number: u32) -> bool
        ensures { result ≡ is_rebuild_of self.now.task.kind unit_number }
    {
        match self.task.kind() {
            Kind::Rebuild { unit } => unit_number == unit,
            Kind::Read | Kind::Write | Kind::Sync => false,
        }
    }

    /// A buffer of its lease leaves the pool, where it is at home.
    pub fn take(&self, buf: u32, pool: &mut Reserve) -> Buffer
        requires lease { IsLease pool.old self.now.lease }
        requires buf { buf < length self.now.lease }
        requires home { (seat_of pool.old self.now buf).out ≡ false }
        ensures bytes { result ≡ bytes_at pool.old self.now.lease buf }
        ensures long { length result ≡ pool.old.unit }
        ensures left { pool.new ≡ taken pool.old (get_or self.now.lease buf 0) }
    {
        pool.take(&self.lease, buf)
    }

    /// It comes home with these bytes.
    pub fn put(&self, buf: u32, buffer: Buffer, pool: &mut Reserve)
        requires lease { IsLease pool.old self.now.lease }
        requires buf { buf < length self.now.lease }
        requires out { (seat_of pool.old self.now buf).out ≡ true }
        requires long { length buffer ≡ pool.old.unit }
        ensures { pool.new ≡ put pool.old (get_or self.now.lease buf 0) buffer }
    {
        pool.put(&self.lease, buf, buffer);
    }

    /// A node is fired, whose unit stands there.
    pub fn fire(&mut self, node: u32, at: Option<Spot>, graphs: &[Graph])
        requires lends { Lends graphs.now self.old }
        requires few { length self.old.run.graph.nodes ≤ 2048 }
        requires ready { IsReadyIn self.old.run node }
        ensures { self.new ≡ with_fired self.old node at }
    {
        match self.file {
            None => self.run.fire(&self.graph, node),
            Some(n) => self.run.fire(&graphs[n as usize], node),
        }
        self.spots.set(node, at);
    }

    /// A node that is out ends.
    pub fn finish(&mut self, node: u32, outcome: Outcome, graphs: &[Graph])
        requires lends { Lends graphs.now self.old }
        requires node { node < length self.old.run.graph.nodes }
        requires out { mark_of self.old.run node ≡ Status.Out }
        requires may { MayEnd outcome (kind_at self.old.run.graph node) self.old.run.phase }
        ensures { self.new ≡ with_ended self.old node outcome }
    {
        match self.file {
            None => self.run.finish(&self.graph, node, outcome),
            Some(n) => self.run.finish(&graphs[n as usize], node, outcome),
        }
    }

    /// Where the unit of a node stood as it was fired.
    pub fn spot(&self, node: u32) -> Option<Spot>
        requires { node < 2048 }
        ensures { result ≡ spot_at self.now node }
    {
        self.spots.get(node)
    }

    /// Its item is replied, and it has no operation and no lease any more.
    pub fn reply(&mut self, reply: Reply)
        requires { length self.old.replies < length self.old.items }
        ensures { self.new ≡ with_reply self.old reply }
    {
        self.replies.push_reserved(reply);
        bring_item(&self.items, self.replies.len(), &mut self.item);
        self.stage = Stage::Nothing;
        self.lease.clear();
    }

    /// The write of a missing unit is skipped.
    pub fn skip(&mut self, node: u32, graphs: &[Graph])
        requires lends { Lends graphs.now self.old }
        requires ready { IsReadyIn self.old.run node }
        requires write { IsWrite (kind_at self.old.run.graph node) }
        requires after { self.old.run.phase ≡ Phase.After }
        ensures { self.new ≡ with_skipped self.old node }
    {
        match self.file {
            None => self.run.skip(&self.graph, node),
            Some(n) => self.run.skip(&graphs[n as usize], node),
        }
    }

    /// Its next item waits.
    pub fn wait(&mut self)
        ensures { self.new ≡ with_waiting self.old }
    {
        self.stage = Stage::Waits;
    }
}
