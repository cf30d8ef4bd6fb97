//! A node's good end.
ghost use Rattle.std.specs.Prelude.{◌≡◌, ◌<◌, ◌≤◌, ℕ, List, Some, [], false, length, vec_capacity};
ghost use Rattle.graph_mean.specs.Graph.{kind_at};
ghost use Rattle.graph_mean.specs.Steps.{IsCall};
ghost use Rattle.eng_world.specs.declared.item.Traced.TheVariants as event;
ghost use Rattle.eng_state.specs.Room.{HasRoom};
ghost use Rattle.eng_clients.specs.Desk.{desk_at, spot_at};
ghost use Rattle.eng_log.specs.Log.{noted};
ghost use Rattle.eng_parts.specs.Shelf.{has_failed};
ghost use Rattle.eng_state.specs.Sound.{IsSound, IsOutOf};
ghost use Rattle.eng_state.specs.Moves.{id_of};
ghost use Rattle.eng_state.specs.EndsNode.{EndsNode};
ghost use Rattle.eng_state.specs.Homes.{device_in};
ghost use Rattle.eng_state.specs.Out.{CameBack};
ghost use Rattle.eng_ends.specs.Calls.{ReadCame, WriteCame};

use blk_disk::Disk;
use blk_plain::Outcome;
use eng_cols::Spot;
use eng_job::{Job, Work};
use eng_state::{Array, Coming};
use eng_world::Traced;
use graph_mean::Node;
use lay_core::Layout;

fn call_buf<L: Layout, D: Disk>(array: &Array<L, D>, client: u32, node: u32) -> u32
    requires sound { IsSound L.Layout D.Disk array.now }
    requires out { IsOutOf (desk_at array.now.clients client) node }
    requires node { node < length (desk_at array.now.clients client).run.graph.nodes }
    requires call { IsCall (kind_at (desk_at array.now.clients client).run.graph node) }
    ensures read { (i b : ℕ)
        → kind_at (desk_at array.now.clients client).run.graph node ≡ Node.Rd i b → result ≡ b }
    ensures write { (i b : ℕ)
        → kind_at (desk_at array.now.clients client).run.graph node ≡ Node.Wr i b → result ≡ b }
{
    match array.clients.node(client, node, &array.graphs) {
        Node::Rd { buf, .. } | Node::Wr { buf, .. } => buf,
        Node::Xor { .. } | Node::Cmt | Node::Trm => unreachable!(),
    }
}

// A good read ends, whether or not the array is lost.
#[inline(always)]
fn read_ends<L: Layout, D: Disk>(array: &mut Array<L, D>, client: u32, node: u32, coming: Coming<D>)
    requires sound { IsSound L.Layout D.Disk array.old }
    requires place { HasRoom array.old.log }
    requires back { ReadCame L.Layout D.Disk array.old client node coming }
    requires empty { coming.sources.items ≡ [] }
    requires room { 2048 ≤ vec_capacity coming.sources }
    ensures home { EndsNode L.Layout D.Disk array.old client node
        (event.Good (id_of array.old.clients client) node) (Some coming.disk) array.new }
    ensures trace { array.new.log
        ≡ noted array.old.log (event.Good (id_of array.old.clients client) node) }
{
    let buf = call_buf(array, client, node);
    let id = array.id(client);
    let Some(at) = array.clients.spot(client, node) else {
        unreachable!()
    };
    array.call_home(client, node, buf, at, coming, Outcome::Good);
    array.note(Traced::Good { id, node });
}

// A good write ends, whose device hasn't failed since, whether or not the array is lost.
#[inline(always)]
fn write_ends<L: Layout, D: Disk>(
    array: &mut Array<L, D>,
    client: u32,
    node: u32,
    coming: Coming<D>,
)
    requires sound { IsSound L.Layout D.Disk array.old }
    requires place { HasRoom array.old.log }
    requires back { WriteCame L.Layout D.Disk array.old client node coming }
    requires empty { coming.sources.items ≡ [] }
    requires room { 2048 ≤ vec_capacity coming.sources }
    ensures home { EndsNode L.Layout D.Disk array.old client node
        (event.Good (id_of array.old.clients client) node) (Some coming.disk) array.new }
    ensures trace { array.new.log
        ≡ noted array.old.log (event.Good (id_of array.old.clients client) node) }
{
    let buf = call_buf(array, client, node);
    let id = array.id(client);
    let Some(at) = array.clients.spot(client, node) else {
        unreachable!()
    };
    array.call_home(client, node, buf, at, coming, Outcome::Good);
    array.note(Traced::Good { id, node });
}

/// A job that came back with a good read ends, whether or not the array is lost.
#[inline(always)]
pub fn read_returns<L: Layout, D: Disk>(array: &mut Array<L, D>, job: Job<D>)
    requires sound { IsSound L.Layout D.Disk array.old }
    requires place { HasRoom array.old.log }
    requires back { CameBack D.Disk L.Layout array.old job Outcome.Good }
    requires read { (disk : D) × (first : ℕ) × (buffer : List ℕ) × (count : ℕ)
        × (job.work ≡ Work.Read disk first buffer count) }
    ensures home { EndsNode L.Layout D.Disk array.old job.client job.node
        (event.Good (id_of array.old.clients job.client) job.node) (device_in job.work) array.new }
    ensures trace { array.new.log
        ≡ noted array.old.log (event.Good (id_of array.old.clients job.client) job.node) }
{
    let Job {
        client,
        node,
        work,
        sources,
    } = job;
    match work {
        Work::Read { disk, buffer, .. } => {
            let coming = Coming {
                disk,
                buffer,
                sources,
            };
            read_ends(array, client, node, coming);
        }
        Work::Nothing | Work::Write { .. } | Work::Sum { .. } => unreachable!(),
    }
}

/// A job that came back with a good write ends, whose device hasn't failed since, whether or not the array is lost.
#[inline(always)]
pub fn write_returns<L: Layout, D: Disk>(array: &mut Array<L, D>, job: Job<D>)
    requires sound { IsSound L.Layout D.Disk array.old }
    requires place { HasRoom array.old.log }
    requires back { CameBack D.Disk L.Layout array.old job Outcome.Good }
    requires write { (disk : D) × (first : ℕ) × (buffer : List ℕ) × (count : ℕ)
        × (job.work ≡ Work.Write disk first buffer count) }
    requires sane { (a : Spot) → spot_at (desk_at array.old.clients job.client) job.node ≡ Some a
        → has_failed array.old.devices a.device ≡ false }
    ensures home { EndsNode L.Layout D.Disk array.old job.client job.node
        (event.Good (id_of array.old.clients job.client) job.node) (device_in job.work) array.new }
    ensures trace { array.new.log
        ≡ noted array.old.log (event.Good (id_of array.old.clients job.client) job.node) }
{
    let Job {
        client,
        node,
        work,
        sources,
    } = job;
    match work {
        Work::Write { disk, buffer, .. } => {
            let coming = Coming {
                disk,
                buffer,
                sources,
            };
            write_ends(array, client, node, coming);
        }
        Work::Nothing | Work::Read { .. } | Work::Sum { .. } => unreachable!(),
    }
}
