//! A job without work that came back: a commit, or a terminator.
ghost use Rattle.std.specs.Prelude.{◌≡◌, ◌<◌, ◌≤◌, ℕ, Option, Some, None, [], length, vec_capacity};
ghost use Rattle.eng_world.specs.declared.item.Item.TheVariants as item;
ghost use Rattle.graph_mean.specs.Graph.{kind_at};
ghost use Rattle.eng_world.specs.declared.item.Traced.TheVariants as event;
ghost use Rattle.eng_state.specs.Room.{HasRoom, MayEnter};
ghost use Rattle.eng_clients.specs.Desk.{desk_at, item_at};
ghost use Rattle.eng_state.specs.Sound.{IsSound, IsOutOf};
ghost use Rattle.eng_state.specs.Moves.{id_of};
ghost use Rattle.eng_state.specs.EndsNode.{EndsNode};
ghost use Rattle.eng_state.specs.Homes.{device_in};
ghost use Rattle.eng_state.specs.Out.{CameBack};
ghost use Rattle.eng_ends.specs.Copied.{AreLaid};
ghost use Rattle.eng_ends.specs.EndLog.{LogEnds, LogEndsItem, LogEndsOp};
ghost use Rattle.eng_log.specs.Log.{MayCount};

use crate::commit::commit_ends;
use crate::end::end_plain;
use crate::rebuilt::end_rebuild;
use crate::returned::end_read;
use blk_disk::Disk;
use blk_plain::{Op, Outcome};
use eng_job::{Job, Source, Work};
use eng_state::Array;
use eng_world::Item;
use graph_mean::Node;
use lay_core::Layout;

fn node_out<L: Layout, D: Disk>(array: &Array<L, D>, client: u32, node: u32) -> Node
    requires sound { IsSound L.Layout D.Disk array.now }
    requires out { IsOutOf (desk_at array.now.clients client) node }
    requires node { node < length (desk_at array.now.clients client).run.graph.nodes }
    ensures { result ≡ kind_at (desk_at array.now.clients client).run.graph node }
{
    array.clients.node(client, node, &array.graphs)
}

// The terminator of this operation ends good.
#[inline(always)]
fn operation_ends<L: Layout, D: Disk>(
    array: &mut Array<L, D>,
    client: u32,
    node: u32,
    sources: Vec<Source>,
    op: Op,
)
    requires sound { IsSound L.Layout D.Disk array.old }
    requires place { HasRoom array.old.log }
    requires not_lost { array.old.lost ≡ None }
    requires out { IsOutOf (desk_at array.old.clients client) node }
    requires end { kind_at (desk_at array.old.clients client).run.graph node ≡ Node.Trm }
    requires serves { (file : Option ℕ)
        × (item_at (desk_at array.old.clients client) ≡ Some (item.Run op file)) }
    requires laid { AreLaid array.old.log.handed array.old.clients }
    requires count { MayCount array.old.log }
    requires empty { sources.items ≡ [] }
    requires room { 2048 ≤ vec_capacity sources }
    ensures home { EndsNode L.Layout D.Disk array.old client node
        (event.Good (id_of array.old.clients client) node) None array.new }
    ensures trace { LogEndsOp (L.shape array.old.layout) array.old.cols.states
        (desk_at array.old.clients client) array.old.log
        (event.Good (id_of array.old.clients client) node) array.new.log op }
{
    match op {
        Op::Write { .. } => end_plain(array, client, node, sources),
        Op::Writes { .. } => end_plain(array, client, node, sources),
        Op::Read { .. } => end_read(array, client, node, sources),
        Op::Rebuild { .. } => end_rebuild(array, client, node, sources),
        Op::Sync { .. } => end_plain(array, client, node, sources),
    }
}

// The terminator of the operation that a client runs ends good.
#[inline(always)]
fn terminator_ends<L: Layout, D: Disk>(
    array: &mut Array<L, D>,
    client: u32,
    node: u32,
    sources: Vec<Source>,
)
    requires sound { IsSound L.Layout D.Disk array.old }
    requires place { HasRoom array.old.log }
    requires not_lost { array.old.lost ≡ None }
    requires out { IsOutOf (desk_at array.old.clients client) node }
    requires end { kind_at (desk_at array.old.clients client).run.graph node ≡ Node.Trm }
    requires laid { AreLaid array.old.log.handed array.old.clients }
    requires count { MayCount array.old.log }
    requires empty { sources.items ≡ [] }
    requires room { 2048 ≤ vec_capacity sources }
    ensures home { EndsNode L.Layout D.Disk array.old client node
        (event.Good (id_of array.old.clients client) node) None array.new }
    ensures trace { LogEndsItem (L.shape array.old.layout)
        array.old.cols.states (desk_at array.old.clients client)
        array.old.log (event.Good (id_of array.old.clients client) node) array.new.log
        (item_at (desk_at array.old.clients client)) }
{
    let Some(item) = array.clients.item(client) else {
        unreachable!()
    };
    match item {
        Item::Run { op, .. } => {
            let op = *op;
            operation_ends(array, client, node, sources, op);
        }
        Item::Fail { .. } => unreachable!(),
    }
}

/// A job without work ends: a commit, by which its operation enters the history, or a terminator, by which its
/// item is replied.
#[inline(always)]
pub fn nothing_returns<L: Layout, D: Disk>(array: &mut Array<L, D>, job: Job<D>)
    requires sound { IsSound L.Layout D.Disk array.old }
    requires place { HasRoom array.old.log }
    requires history { kind_at (desk_at array.old.clients job.client).run.graph job.node ≡ Node.Cmt
        → MayEnter array.old.log }
    requires not_lost { array.old.lost ≡ None }
    requires back { CameBack D.Disk L.Layout array.old job Outcome.Good }
    requires nothing { job.work ≡ Work.Nothing }
    requires laid { AreLaid array.old.log.handed array.old.clients }
    requires count { kind_at (desk_at array.old.clients job.client).run.graph job.node ≡ Node.Trm
        → MayCount array.old.log }
    ensures home { EndsNode L.Layout D.Disk array.old job.client job.node
        (event.Good (id_of array.old.clients job.client) job.node) (device_in job.work) array.new }
    ensures trace { LogEnds
        (L.shape array.old.layout) array.old.cols.states (desk_at array.old.clients job.client)
        array.old.log (event.Good (id_of array.old.clients job.client) job.node) array.new.log
        (id_of array.old.clients job.client)
        (kind_at (desk_at array.old.clients job.client).run.graph job.node) array.old.lost }
{
    let Job {
        client,
        node,
        work,
        sources,
    } = job;
    match work {
        Work::Nothing => {}
        Work::Read { .. } | Work::Write { .. } | Work::Sum { .. } => unreachable!(),
    }
    match node_out(array, client, node) {
        Node::Cmt => commit_ends(array, client, node, sources),
        Node::Trm => terminator_ends(array, client, node, sources),
        Node::Rd { .. } | Node::Wr { .. } | Node::Xor { .. } => unreachable!(),
    }
}
