//! The sources of an exclusive-or, each gathered once.
ghost use Rattle.std.specs.Prelude.{◌≡◌, ◌<◌, ◌≤◌, ◌+◌, ◌++◌, ◌∷◌, ◌↔◌, [], ℕ, IsTrue, true, false, All, length, get_or, map, vec_len, vec_capacity};
ghost use Rattle.buf_pool.specs.Pool.{IsLease, taken};
ghost use Rattle.graph_mean.specs.Graph.{vertex_at};
ghost use Rattle.eng_clients.specs.Seats.{bytes_at, seat_of};
ghost use Rattle.eng_clients.specs.Desk.{Desk, Lends, desk_at};
ghost use Rattle.eng_clients.specs.Gathered.{turned, source_of, GathersOne, Gathered, AreInLease};

use crate::client::Client;
use crate::clients::Clients;
use buf_pool::Reserve;
use eng_job::Source;
use graph_mean::Graph;

// The source, if it has this number, counts the other way.
fn turn_one(source: &mut Source, at: u32)
    ensures { source.new ≡ turned at source.old }
{
    if source.at == at {
        source.counts = !source.counts;
    }
}

// The source of this number counts the other way.
fn turn(sources: &mut [Source], at: u32)
    ensures { sources.new ≡ map (turned at) sources.old }
{
    for source in sources.iter_mut() {
        turn_one(source, at);
    }
}

impl Client {
    // Whether a buffer of its lease is at home.
    pub fn is_home(&self, buf: u32, pool: &Reserve) -> bool
        requires lease { IsLease pool.now self.now.lease }
        requires buf { buf < length self.now.lease }
        ensures { IsTrue result ↔ ((seat_of pool.now self.now buf).out ≡ false) }
    {
        pool.home(&self.lease, buf)
    }

    // One source more: it leaves the pool, or counts the other way if it has left already.
    fn gather_one(&self, buf: u32, pool: &mut Reserve, sources: &mut Vec<Source>)
        requires lease { IsLease pool.old self.now.lease }
        requires buf { buf < length self.now.lease }
        requires room { (seat_of pool.old self.now buf).out ≡ false
            → vec_len sources.old < vec_capacity sources.old }
        ensures one { GathersOne pool.old self.now.lease buf sources.old.items pool.new
            sources.new.items }
        ensures room { vec_capacity sources.new ≡ vec_capacity sources.old }
    {
        if self.is_home(buf, pool) {
            let buffer = self.take(buf, pool);
            sources.push_reserved(Source {
                at: buf,
                counts: true,
                buffer,
            });
        } else {
            turn(sources, buf);
        }
    }

    // All of them, one after another.
    fn gather_all(&self, named: &[u32], pool: &mut Reserve, sources: &mut Vec<Source>)
        requires lease { IsLease pool.old self.now.lease }
        requires named { AreInLease self.now.lease named.now }
        requires home { All (λ b. (seat_of pool.old self.now b).out ≡ false) named.now }
        requires empty { sources.old.items ≡ [] }
        requires room { 2048 ≤ vec_capacity sources.old }
        ensures gathered { Gathered pool.old self.now.lease named.now pool.new sources.new.items }
        ensures room { 2048 ≤ vec_capacity sources.new }
    {
        for i in 0..named.len() {
            self.gather_one(named[i], pool, sources);
        }
    }

    /// The sources of a node leave the pool, each once.
    pub fn gather(&self, node: u32, graphs: &[Graph], pool: &mut Reserve, sources: &mut Vec<Source>)
        requires lends { Lends graphs.now self.now }
        requires node { node < length self.now.run.graph.nodes }
        requires lease { IsLease pool.old self.now.lease }
        requires named { AreInLease self.now.lease (vertex_at self.now.run.graph node).sources }
        requires home { All (λ b. (seat_of pool.old self.now b).out ≡ false)
            (vertex_at self.now.run.graph node).sources }
        requires empty { sources.old.items ≡ [] }
        requires room { 2048 ≤ vec_capacity sources.old }
        ensures gathered { Gathered pool.old self.now.lease
            (vertex_at self.now.run.graph node).sources pool.new sources.new.items }
        ensures room { 2048 ≤ vec_capacity sources.new }
    {
        match self.file {
            None => self.gather_all(self.graph.sources(node), pool, sources),
            Some(n) => self.gather_all(graphs[n as usize].sources(node), pool, sources),
        }
    }
}

impl Clients {
    /// The sources of a node of the client's leave the pool, each once.
    pub fn gather(
        &self,
        client: u32,
        node: u32,
        graphs: &[Graph],
        pool: &mut Reserve,
        sources: &mut Vec<Source>,
    )
        requires client { client < length self.now }
        requires lends { Lends graphs.now (desk_at self.now client) }
        requires node { node < length (desk_at self.now client).run.graph.nodes }
        requires lease { IsLease pool.old (desk_at self.now client).lease }
        requires named { AreInLease (desk_at self.now client).lease
            (vertex_at (desk_at self.now client).run.graph node).sources }
        requires home { All (λ b. (seat_of pool.old (desk_at self.now client) b).out ≡ false)
            (vertex_at (desk_at self.now client).run.graph node).sources }
        requires empty { sources.old.items ≡ [] }
        requires room { 2048 ≤ vec_capacity sources.old }
        ensures gathered { Gathered pool.old (desk_at self.now client).lease
            (vertex_at (desk_at self.now client).run.graph node).sources pool.new
            sources.new.items }
        ensures room { 2048 ≤ vec_capacity sources.new }
    {
        self.list[client as usize].gather(node, graphs, pool, sources);
    }
}
