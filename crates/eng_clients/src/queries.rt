//! What is asked of a client of any number; past the last one there is a client without items.
ghost use Rattle.std.specs.Prelude.{◌≡◌, ◌<◌, ◌↔◌, ℕ, All, IsTrue, IsSome, MatchOption, false, length};
ghost use Rattle.buf_pool.specs.Pool.{IsLease};
ghost use Rattle.eng_one.specs.Control.{IsReadyIn, NoneReady, IsLeastReady};
ghost use Rattle.graph_mean.specs.Graph.{vertex_at};
ghost use Rattle.eng_clients.specs.Seats.{seat_of};
ghost use Rattle.eng_clients.specs.Desk.{Lends, desk_at, item_at};
ghost use Rattle.eng_clients.specs.Gathered.{AreInLease};

use crate::client::Client;
use crate::clients::Clients;
use crate::stage::Stage;
use buf_pool::Reserve;
use graph_mean::{Graph, Phase};

impl Client {
    // Whether these buffers of its lease are at home.
    fn all_home(&self, named: &[u32], pool: &Reserve) -> bool
        requires lease { IsLease pool.now self.now.lease }
        requires named { AreInLease self.now.lease named.now }
        ensures { IsTrue result ↔ All (λ b. (seat_of pool.now self.now b).out ≡ false) named.now }
    {
        for buf in named {
            if !self.is_home(*buf, pool) {
                return false;
            }
        }
        true
    }

    fn sources_home(&self, node: u32, graphs: &[Graph], pool: &Reserve) -> bool
        requires lends { Lends graphs.now self.now }
        requires node { node < length self.now.run.graph.nodes }
        requires lease { IsLease pool.now self.now.lease }
        requires named { AreInLease self.now.lease (vertex_at self.now.run.graph node).sources }
        ensures { IsTrue result ↔ All (λ b. (seat_of pool.now self.now b).out ≡ false)
            (vertex_at self.now.run.graph node).sources }
    {
        match self.file {
            None => self.all_home(self.graph.sources(node), pool),
            Some(n) => self.all_home(graphs[n as usize].sources(node), pool),
        }
    }

    /// Whether each of its items has a reply.
    pub fn is_replied(&self) -> bool
        ensures { IsTrue result ↔ (length self.now.replies ≡ length self.now.items) }
    {
        self.replies.len() == self.items.len()
    }
}

impl Clients {
    /// What the client's item is doing.
    pub fn stage(&self, client: u32) -> Stage
        ensures { result ≡ (desk_at self.now client).stage }
    {
        match self.list.get(client as usize) {
            None => Stage::Nothing,
            Some(client) => client.stage,
        }
    }

    /// Whether it has an item left.
    pub fn has_item(&self, client: u32) -> bool
        ensures { IsTrue result ↔ IsSome (item_at (desk_at self.now client)) }
    {
        match self.list.get(client as usize) {
            None => false,
            Some(client) => client.item().is_some(),
        }
    }

    /// Whether each of its items has a reply.
    pub fn is_replied(&self, client: u32) -> bool
        requires { client < length self.now }
        ensures { IsTrue result ↔
            (length (desk_at self.now client).replies ≡ length (desk_at self.now client).items) }
    {
        self.list[client as usize].is_replied()
    }

    /// How far its run has come.
    pub fn phase(&self, client: u32) -> Phase
        requires { client < length self.now }
        ensures { result ≡ (desk_at self.now client).run.phase }
    {
        self.list[client as usize].run.phase()
    }

    /// Whether a node of its run is ready.
    pub fn ready(&self, client: u32, node: u32) -> bool
        requires client { client < length self.now }
        requires node { node < length (desk_at self.now client).run.graph.nodes }
        ensures { IsTrue result ↔ IsReadyIn (desk_at self.now client).run node }
    {
        self.list[client as usize].run.ready(node)
    }

    /// The first node of its run that is ready from this number on; None exactly where there is none.
    pub fn least_ready(&self, client: u32, from: u32) -> Option<u32>
        requires { client < length self.now }
        ensures { MatchOption result (NoneReady (desk_at self.now client).run from)
            (IsLeastReady (desk_at self.now client).run from) }
    {
        self.list[client as usize].run.least_ready(from)
    }

    /// Whether a buffer of its lease is at home.
    pub fn is_home(&self, client: u32, buf: u32, pool: &Reserve) -> bool
        requires client { client < length self.now }
        requires lease { IsLease pool.now (desk_at self.now client).lease }
        requires buf { buf < length (desk_at self.now client).lease }
        ensures { IsTrue result ↔ ((seat_of pool.now (desk_at self.now client) buf).out ≡ false) }
    {
        self.list[client as usize].is_home(buf, pool)
    }

    /// Whether the sources of a node are at home.
    pub fn sources_home(&self, client: u32, node: u32, graphs: &[Graph], pool: &Reserve) -> bool
        requires client { client < length self.now }
        requires lends { Lends graphs.now (desk_at self.now client) }
        requires node { node < length (desk_at self.now client).run.graph.nodes }
        requires lease { IsLease pool.now (desk_at self.now client).lease }
        requires named { AreInLease (desk_at self.now client).lease
            (vertex_at (desk_at self.now client).run.graph node).sources }
        ensures { IsTrue result ↔ All (λ b. (seat_of pool.now (desk_at self.now client) b).out
            ≡ false) (vertex_at (desk_at self.now client).run.graph node).sources }
    {
        self.list[client as usize].sources_home(node, graphs, pool)
    }
}
