//! The clients, as one of them is planned for, runs or is replied.
ghost use Rattle.std.specs.Prelude.{◌≡◌, ◌<◌, ◌≤◌, ℕ, Some, None, OnOk, IfErr, length, option_map, slice_set};
ghost use Rattle.eng_cols.specs.Cols.{IsFor};
ghost use Rattle.eng_cols.specs.Lost.{NotLost};
ghost use Rattle.buf_pool.specs.Pool.{IsLease, AllHome, Leases, StandsApart, Returns, KeepsOthers};
ghost use Rattle.buf_pool.specs.Reserve.{AreThere};
ghost use Rattle.eng_one.specs.Counts.{CanStart};
ghost use Rattle.eng_clients.specs.Desk.{desk_at, graph_of, item_at, with_started, with_lease};
ghost use Rattle.eng_log.specs.Filled.{HasBuffers, Filled};
ghost use Rattle.eng_plan.specs.Asked.{IsInside};
ghost use Rattle.eng_world.specs.Planning.{span_count};
ghost use Rattle.eng_clients.specs.Planned.{CanRun, IsRefusedFor, Replanned};

use crate::clients::Clients;
use crate::planned::Asked;
use blk_plain::Op;
use buf_pool::Reserve;
use eng_cols::Cols;
use eng_one::with_bit;
use eng_world::{Item, Reply};
use graph_check::Scratch;
use graph_mean::{Graph, Refusal};
use lay_core::Layout;

impl Clients {
    /// The item that the client serves now or next.
    pub fn item(&self, client: u32) -> Option<&Item>
        requires { client < length self.now }
        ensures { option_map (λ i. i.now) result ≡ item_at (desk_at self.now client) }
    {
        self.list[client as usize].item()
    }

    /// The device by which its operation was abandoned.
    pub fn by(&self, client: u32) -> Option<u32>
        requires { client < length self.now }
        ensures { result ≡ (desk_at self.now client).by }
    {
        self.list[client as usize].by()
    }

    /// The stripes of its operation.
    pub fn stripes(&self, client: u32) -> &[u32]
        requires { client < length self.now }
        ensures { result.now ≡ (desk_at self.now client).map.stripes }
    {
        self.list[client as usize].map.stripes()
    }

    /// Its operation is planned while the columns stand like this. The cause for which the checker refuses a graph of
    /// the file is the answer, where it does.
    pub fn plan<L: Layout>(
        &mut self,
        client: u32,
        layout: &L,
        cols: &Cols,
        asked: Asked<'_>,
        graphs: &[Graph],
        scratch: &mut Scratch,
    ) -> Result<(), Refusal>
        requires client { client < length self.old }
        requires fit { IsFor (L.shape layout.now) cols.now }
        requires op { IsInside (L.shape layout.now) asked.op.now }
        requires kept { NotLost (L.shape layout.now) cols.now.states }
        requires file { (n : ℕ) → asked.file ≡ Some n → n < length graphs.now }
        ensures planned { Replanned (L.shape layout.now) graphs.now cols.now.states
            asked.entry.op.now
            asked.entry.file (desk_at self.old client) (desk_at self.new client) }
        ensures now { self.new ≡ slice_set self.old client (desk_at self.new client) }
        ensures passes { OnOk result (CanRun graphs.now (desk_at self.new client)) }
        ensures refused { IfErr result
            (λ cause. IsRefusedFor graphs.now asked.entry.file (desk_at self.new client) cause) }
    {
        self.list[client as usize].plan(layout, cols, asked, graphs, scratch)
    }

    /// Its graph is run from the beginning.
    pub fn start(&mut self, client: u32, graphs: &[Graph])
        requires client { client < length self.old }
        requires there { (n : ℕ) → (desk_at self.old client).file ≡ Some n → n < length graphs.now }
        requires can { CanStart (graph_of graphs.now (desk_at self.old client)) }
        ensures { self.new
            ≡ slice_set self.old client (with_started graphs.now (desk_at self.old client)) }
    {
        self.list[client as usize].start(graphs);
        self.busy = with_bit(self.busy, client);
    }

    /// It leases that many buffers, which are free and there.
    pub fn hold(&mut self, client: u32, count: u32, pool: &mut Reserve)
        requires client { client < length self.old }
        requires there { AreThere pool.old count }
        ensures leased { Leases pool.old count (desk_at self.new client).lease pool.new }
        ensures apart { StandsApart pool.old (desk_at self.new client).lease pool.new }
        ensures now { self.new ≡ slice_set self.old client
            (with_lease (desk_at self.old client) (desk_at self.new client).lease) }
    {
        self.list[client as usize].hold(count, pool);
    }

    /// Its buffers are free again. Which they were it forgets with the reply.
    pub fn give_back(&self, client: u32, pool: &mut Reserve)
        requires client { client < length self.now }
        requires lease { IsLease pool.old (desk_at self.now client).lease }
        requires home { AllHome pool.old (desk_at self.now client).lease }
        ensures freed { Returns pool.old (desk_at self.now client).lease pool.new }
        ensures others { KeepsOthers pool.old (desk_at self.now client).lease pool.new }
    {
        self.list[client as usize].give_back(pool);
    }

    /// Its buffers of new data are filled.
    pub fn fill<L: Layout>(
        &self,
        client: u32,
        layout: &L,
        op: &Op,
        graphs: &[Graph],
        pool: &mut Reserve,
    )
        requires client { client < length self.now }
        requires there { (n : ℕ) → (desk_at self.now client).file ≡ Some n → n < length graphs.now }
        requires buffers { HasBuffers (graph_of graphs.now (desk_at self.now client)) pool.old
            (desk_at self.now client).lease }
        requires few { span_count op.now ≤ 8 }
        ensures { Filled (L.shape layout.now) (desk_at self.now client).map.stripes
            (graph_of graphs.now (desk_at self.now client)) op.now (desk_at self.now client).lease
            pool.old pool.new }
    {
        self.list[client as usize].fill(layout, op, graphs, pool);
    }
}
