//! What a client does as its operation is taken, planned anew or given up.
ghost use Rattle.std.specs.Prelude.{◌≡◌, ◌<◌, ◌≤◌, ℕ, Some, None, length, option_map};
ghost use Rattle.buf_pool.specs.Pool.{IsLease, AllHome, Leases, StandsApart, Returns, KeepsOthers};
ghost use Rattle.buf_pool.specs.Reserve.{AreThere};
ghost use Rattle.eng_one.specs.Counts.{CanStart};
ghost use Rattle.eng_clients.specs.Desk.{graph_of, item_at, with_started, with_lease};
ghost use Rattle.eng_log.specs.Filled.{HasBuffers, Filled};
ghost use Rattle.eng_world.specs.Planning.{span_count};

use crate::client::Client;
use crate::stage::Stage;
use blk_plain::Op;
use buf_pool::Reserve;
use eng_log::fill_fresh;
use eng_world::{Item, Reply};
use graph_mean::Graph;
use lay_core::Layout;

impl Client {
    /// The item that it serves now or next.
    pub fn item(&self) -> Option<&Item>
        ensures { option_map (λ i. i.now) result ≡ item_at self.now }
    {
        self.item.as_ref()
    }

    /// The device by which its operation was abandoned.
    pub fn by(&self) -> Option<u32>
        ensures { result ≡ self.now.by }
    {
        self.by
    }

    /// Its graph is run from the beginning.
    pub fn start(&mut self, graphs: &[Graph])
        requires there { (n : ℕ) → self.old.file ≡ Some n → n < length graphs.now }
        requires can { CanStart (graph_of graphs.now self.old) }
        ensures { self.new ≡ with_started graphs.now self.old }
    {
        match self.file {
            None => self.run.start(&self.graph),
            Some(n) => self.run.start(&graphs[n as usize]),
        }
        self.stage = Stage::Runs;
        self.by = None;
    }

    /// It leases that many buffers, which are free and there.
    pub fn hold(&mut self, count: u32, pool: &mut Reserve)
        requires { AreThere pool.old count }
        ensures leased { Leases pool.old count self.new.lease pool.new }
        ensures apart { StandsApart pool.old self.new.lease pool.new }
        ensures now { self.new ≡ with_lease self.old self.new.lease }
    {
        pool.lease_into(count, &mut self.lease);
    }

    /// Its buffers are free again. Which they were it forgets with the reply.
    pub fn give_back(&self, pool: &mut Reserve)
        requires lease { IsLease pool.old self.now.lease }
        requires home { AllHome pool.old self.now.lease }
        ensures freed { Returns pool.old self.now.lease pool.new }
        ensures others { KeepsOthers pool.old self.now.lease pool.new }
    {
        pool.return_from(&self.lease);
    }

    /// Its buffers of new data are filled.
    pub fn fill<L: Layout>(&self, layout: &L, op: &Op, graphs: &[Graph], pool: &mut Reserve)
        requires there { (n : ℕ) → self.now.file ≡ Some n → n < length graphs.now }
        requires buffers { HasBuffers (graph_of graphs.now self.now) pool.old self.now.lease }
        requires few { span_count op.now ≤ 8 }
        ensures { Filled (L.shape layout.now) self.now.map.stripes (graph_of graphs.now self.now)
            op.now self.now.lease pool.old pool.new }
    {
        match self.file {
            None => fill_fresh(
                layout,
                self.map.stripes(),
                &self.graph,
                pool,
                &self.lease,
                op,
            ),
            Some(n) => fill_fresh(
                layout,
                self.map.stripes(),
                &graphs[n as usize],
                pool,
                &self.lease,
                op,
            ),
        }
    }
}
