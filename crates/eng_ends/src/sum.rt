//! An exclusive-or comes home.
ghost use Rattle.std.specs.Prelude.{◌≡◌, ◌<◌, ◌≤◌, ℕ, List, None, [], length, vec_capacity};
ghost use Rattle.buf_pool.specs.Pool.{IsLease};
ghost use Rattle.graph_mean.specs.Graph.{kind_at};
ghost use Rattle.eng_world.specs.declared.item.Traced.TheVariants as event;
ghost use Rattle.eng_state.specs.Room.{HasRoom};
ghost use Rattle.eng_clients.specs.Desk.{desk_at};
ghost use Rattle.eng_log.specs.Log.{noted};
ghost use Rattle.eng_state.specs.Sound.{IsSound, IsOutOf};
ghost use Rattle.eng_state.specs.Moves.{id_of};
ghost use Rattle.eng_state.specs.EndsNode.{EndsNode};
ghost use Rattle.eng_state.specs.Homes.{device_in};
ghost use Rattle.eng_state.specs.Out.{CameBack};
ghost use Rattle.eng_ends.specs.Summed.{SumBack, SumHome};
ghost use Rattle.eng_clients.specs.Scattered.{SourcesOut, SourcesHome};

use blk_disk::Disk;
use blk_plain::Outcome;
use buf_pool::Buffer;
use eng_job::{Job, Source, Work};
use eng_state::Array;
use eng_world::Traced;
use graph_mean::Node;
use lay_core::Layout;

fn sources_home<L: Layout, D: Disk>(array: &mut Array<L, D>, client: u32, sources: &mut Vec<Source>)
    requires client { client < length array.old.clients }
    requires lease { IsLease array.old.pool (desk_at array.old.clients client).lease }
    requires out { SourcesOut array.old.pool (desk_at array.old.clients client).lease
        sources.old.items }
    ensures home { SourcesHome array.old.pool (desk_at array.old.clients client).lease
        sources.old.items array.new.pool }
    ensures rest { array.new ≡ record array.old { pool = array.new.pool } }
    ensures empty { sources.new.items ≡ [] }
    ensures room { vec_capacity sources.new ≡ vec_capacity sources.old }
{
    array.clients.scatter(client, &mut array.pool, sources);
}

// The target of an exclusive-or.
fn sum_buf<L: Layout, D: Disk>(array: &Array<L, D>, client: u32, node: u32) -> u32
    requires sound { IsSound L.Layout D.Disk array.now }
    requires out { IsOutOf (desk_at array.now.clients client) node }
    requires node { node < length (desk_at array.now.clients client).run.graph.nodes }
    requires sum { (b : ℕ)
        × (kind_at (desk_at array.now.clients client).run.graph node ≡ Node.Xor b) }
    ensures { (b : ℕ) → kind_at (desk_at array.now.clients client).run.graph node ≡ Node.Xor b
        → result ≡ b }
{
    match array.clients.node(client, node, &array.graphs) {
        Node::Xor { to } => to,
        Node::Rd { .. } | Node::Wr { .. } | Node::Cmt | Node::Trm => unreachable!(),
    }
}

// The sources, the target and the list of an exclusive-or come home, and its node has ended good.
#[inline(always)]
fn sum_home<L: Layout, D: Disk>(
    array: &mut Array<L, D>,
    client: u32,
    node: u32,
    target: Buffer,
    sources: Vec<Source>,
    count: u32,
)
    requires sound { IsSound L.Layout D.Disk array.old }
    requires back { SumBack D.Disk array.old client node target sources.items count Outcome.Good }
    requires room { 2048 ≤ vec_capacity sources }
    ensures { (r : SumBack D.Disk array.old client node target sources.items count Outcome.Good)
        → SumHome array.old client node r.to target sources.items array.new }
{
    let _ = count;
    let to = sum_buf(array, client, node);
    let mut sources = sources;
    sources_home(array, client, &mut sources);
    array.buffer_home(client, to, target);
    array.plain_home(client, node, sources, Outcome::Good);
}

#[inline(always)]
fn sum_ends<L: Layout, D: Disk>(
    array: &mut Array<L, D>,
    client: u32,
    node: u32,
    target: Buffer,
    sources: Vec<Source>,
    count: u32,
)
    requires sound { IsSound L.Layout D.Disk array.old }
    requires place { HasRoom array.old.log }
    requires back { SumBack D.Disk array.old client node target sources.items count Outcome.Good }
    requires room { 2048 ≤ vec_capacity sources }
    ensures home { EndsNode L.Layout D.Disk array.old client node
        (event.Good (id_of array.old.clients client) node) None array.new }
    ensures trace { array.new.log
        ≡ noted array.old.log (event.Good (id_of array.old.clients client) node) }
{
    let id = array.id(client);
    sum_home(array, client, node, target, sources, count);
    array.note(Traced::Good { id, node });
}

/// A job that came back with an exclusive-or ends, whether or not the array is lost.
#[inline(always)]
pub fn sum_returns<L: Layout, D: Disk>(array: &mut Array<L, D>, job: Job<D>)
    requires sound { IsSound L.Layout D.Disk array.old }
    requires place { HasRoom array.old.log }
    requires back { CameBack D.Disk L.Layout array.old job Outcome.Good }
    requires sum { (target : List ℕ) × (count : ℕ) × (job.work ≡ Work.Sum target count) }
    ensures home { EndsNode L.Layout D.Disk array.old job.client job.node
        (event.Good (id_of array.old.clients job.client) job.node) (device_in job.work) array.new }
    ensures trace { array.new.log
        ≡ noted array.old.log (event.Good (id_of array.old.clients job.client) job.node) }
{
    let Job {
        client,
        node,
        work,
        sources,
    } = job;
    match work {
        Work::Sum { to, count } => sum_ends(array, client, node, to, sources, count),
        Work::Nothing | Work::Read { .. } | Work::Write { .. } => unreachable!(),
    }
}
