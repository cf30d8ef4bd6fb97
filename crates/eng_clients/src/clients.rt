//! All clients.
ghost use Rattle.std.specs.Prelude.{◌≡◌, ◌<◌, ◌≤◌, true, false, length, slice_index, slice_set, get_or};
ghost use Rattle.graph_mean.specs.Graph.{kind_at, buf_at};
ghost use Rattle.eng_one.specs.Control.{IsReadyIn, IsWrite, MayEnd, mark_of};
ghost use Rattle.graph_mean.specs.Task.{is_rebuild_of};
ghost use Rattle.buf_pool.specs.Pool.{IsLease, taken, put};
ghost use Rattle.eng_clients.specs.Seats.{bytes_at, seat_of};
ghost use Rattle.eng_clients.specs.Desk.{Desk, Lends, desk_at, spot_at, with_fired, with_ended, with_reply, with_skipped, with_waiting};

mod busy;
mod close;
mod fails;
mod open;

use crate::client::Client;
use blk_plain::Outcome;
use buf_pool::{Buffer, Reserve};
use eng_cols::Spot;
use eng_one::{with_bit, without_bit};
use eng_world::Reply;
use graph_mean::{Buf, Graph, Node, Phase, Status};
pub use open::ClientRooms;
use std::marker::Model;

/// The clients by number, client 16 the engine's own.
#[derive(Drop)]
pub struct Clients {
    pub(crate) list: Vec<Client>,
    // A bit for each client that may have something to do, so that who looks for one passes over the others: they have no
    // operation, and each of their items has a reply.
    pub(crate) busy: u64,
}

impl Model for Clients {
    ghost use Rattle.std.specs.Prelude.{List};
    ghost use Rattle.eng_clients.specs.Desk.{Desk};
    ghost use Rattle.eng_clients.specs.Busy.{AreKept};

    ghost Value = { List Desk };

    ghost view = { λ c. c.list.items };

    ghost invariant = { λ c. AreKept c.list.items c.busy };
}

impl Clients {
    /// The place of the item that the client serves now or next.
    pub fn served(&self, client: u32) -> u32
        requires { client < length self.now }
        ensures { result ≡ length (desk_at self.now client).replies }
    {
        self.list[client as usize].served()
    }

    /// Node n of the client's graph.
    pub fn node(&self, client: u32, node: u32, graphs: &[Graph]) -> Node
        requires client { client < length self.now }
        requires lends { Lends graphs.now (desk_at self.now client) }
        requires node { node < length (desk_at self.now client).run.graph.nodes }
        ensures { result ≡ kind_at (desk_at self.now client).run.graph node }
    {
        self.list[client as usize].node(node, graphs)
    }

    /// Buffer b of it.
    pub fn buf(&self, client: u32, buf: u32, graphs: &[Graph]) -> Buf
        requires client { client < length self.now }
        requires lends { Lends graphs.now (desk_at self.now client) }
        requires buf { buf < length (desk_at self.now client).run.graph.bufs }
        ensures { result ≡ buf_at (desk_at self.now client).run.graph buf }
    {
        self.list[client as usize].buf(buf, graphs)
    }

    /// The stripe at a position of its operation.
    pub fn stripe(&self, client: u32, position: u32) -> u32
        requires client { client < length self.now }
        requires position { position < length (desk_at self.now client).map.stripes }
        ensures { result ≡ slice_index (desk_at self.now client).map.stripes position }
    {
        self.list[client as usize].stripe(position)
    }

    /// Whether its operation is the rebuild of this unit.
    pub fn rebuilds(&self, client: u32, unit_number: u32) -> bool
        requires { client < length self.now }
        ensures { result ≡ is_rebuild_of (desk_at self.now client).task.kind unit_number }
    {
        self.list[client as usize].rebuilds(unit_number)
    }

    /// A buffer of its lease leaves the pool, where it is at home.
    pub fn take(&self, client: u32, buf: u32, pool: &mut Reserve) -> Buffer
        requires client { client < length self.now }
        requires lease { IsLease pool.old (desk_at self.now client).lease }
        requires buf { buf < length (desk_at self.now client).lease }
        requires home { (seat_of pool.old (desk_at self.now client) buf).out ≡ false }
        ensures bytes { result ≡ bytes_at pool.old (desk_at self.now client).lease buf }
        ensures long { length result ≡ pool.old.unit }
        ensures left { pool.new ≡ taken pool.old (get_or (desk_at self.now client).lease buf 0) }
    {
        self.list[client as usize].take(buf, pool)
    }

    /// It comes home with these bytes.
    pub fn put(&self, client: u32, buf: u32, buffer: Buffer, pool: &mut Reserve)
        requires client { client < length self.now }
        requires lease { IsLease pool.old (desk_at self.now client).lease }
        requires buf { buf < length (desk_at self.now client).lease }
        requires out { (seat_of pool.old (desk_at self.now client) buf).out ≡ true }
        requires long { length buffer ≡ pool.old.unit }
        ensures { pool.new ≡ put pool.old (get_or (desk_at self.now client).lease buf 0) buffer }
    {
        self.list[client as usize].put(buf, buffer, pool);
    }

    /// A node is fired, whose unit stands there.
    pub fn fire(&mut self, client: u32, node: u32, at: Option<Spot>, graphs: &[Graph])
        requires client { client < length self.old }
        requires lends { Lends graphs.now (desk_at self.old client) }
        requires few { length (desk_at self.old client).run.graph.nodes ≤ 2048 }
        requires ready { IsReadyIn (desk_at self.old client).run node }
        ensures { self.new
            ≡ slice_set self.old client (with_fired (desk_at self.old client) node at) }
    {
        self.list[client as usize].fire(node, at, graphs);
    }

    /// A node that is out ends.
    pub fn finish(&mut self, client: u32, node: u32, outcome: Outcome, graphs: &[Graph])
        requires client { client < length self.old }
        requires lends { Lends graphs.now (desk_at self.old client) }
        requires node { node < length (desk_at self.old client).run.graph.nodes }
        requires out { mark_of (desk_at self.old client).run node ≡ Status.Out }
        requires may { MayEnd outcome (kind_at (desk_at self.old client).run.graph node)
            (desk_at self.old client).run.phase }
        ensures { self.new
            ≡ slice_set self.old client (with_ended (desk_at self.old client) node outcome) }
    {
        self.list[client as usize].finish(node, outcome, graphs);
    }

    /// Where the unit of a node stood as it was fired.
    pub fn spot(&self, client: u32, node: u32) -> Option<Spot>
        requires client { client < length self.now }
        requires node { node < 2048 }
        ensures { result ≡ spot_at (desk_at self.now client) node }
    {
        self.list[client as usize].spot(node)
    }

    /// Its item is replied, and it has no operation and no lease any more.
    pub fn reply(&mut self, client: u32, reply: Reply)
        requires client { client < length self.old }
        requires left { length (desk_at self.old client).replies
            < length (desk_at self.old client).items }
        ensures { self.new
            ≡ slice_set self.old client (with_reply (desk_at self.old client) reply) }
    {
        self.list[client as usize].reply(reply);
        if self.list[client as usize].is_replied() {
            self.busy = without_bit(self.busy, client);
        }
    }

    /// The write of a missing unit is skipped.
    pub fn skip(&mut self, client: u32, node: u32, graphs: &[Graph])
        requires client { client < length self.old }
        requires lends { Lends graphs.now (desk_at self.old client) }
        requires ready { IsReadyIn (desk_at self.old client).run node }
        requires write { IsWrite (kind_at (desk_at self.old client).run.graph node) }
        requires after { (desk_at self.old client).run.phase ≡ Phase.After }
        ensures { self.new
            ≡ slice_set self.old client (with_skipped (desk_at self.old client) node) }
    {
        self.list[client as usize].skip(node, graphs);
    }

    /// Its next item waits.
    pub fn wait(&mut self, client: u32)
        requires { client < length self.old }
        ensures { self.new ≡ slice_set self.old client (with_waiting (desk_at self.old client)) }
    {
        self.list[client as usize].wait();
        self.busy = with_bit(self.busy, client);
    }
}
