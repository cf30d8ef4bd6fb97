//! A node is fired.
ghost use Rattle.std.specs.Prelude.{◌≡◌, ◌<◌, ◌≤◌, length, slice_set, vec_capacity};
ghost use Rattle.graph_mean.specs.Graph.{kind_at, vertex_at};
ghost use Rattle.eng_one.specs.Control.{IsReadyIn};
ghost use Rattle.eng_world.specs.declared.item.Traced.TheVariants as event;
ghost use Rattle.eng_state.specs.Room.{HasRoom};
ghost use Rattle.eng_clients.specs.Desk.{Lends, desk_at, with_fired};
ghost use Rattle.eng_log.specs.Log.{noted};
ghost use Rattle.eng_state.specs.Sound.{IsSound};
ghost use Rattle.eng_state.specs.Can.{place_now, CanFire};
ghost use Rattle.eng_state.specs.Moves.{Fired, id_of};
ghost use Rattle.eng_state.specs.Out.{IsOut, IsWork};
ghost use Rattle.eng_state.specs.Steps.{Follows};

use crate::moving::{Packed, pack};
use blk_disk::Disk;
use eng_cols::Spot;
use eng_job::Job;
use eng_state::Array;
use eng_world::Traced;
use lay_core::Layout;

fn mark_out<L: Layout, D: Disk>(array: &mut Array<L, D>, client: u32, node: u32, at: Option<Spot>)
    requires client { client < length array.old.clients }
    requires lends { Lends array.old.graphs.items (desk_at array.old.clients client) }
    requires few { length (desk_at array.old.clients client).run.graph.nodes ≤ 2048 }
    requires ready { IsReadyIn (desk_at array.old.clients client).run node }
    ensures { array.new ≡ record array.old {
      clients = slice_set array.old.clients client
          (with_fired (desk_at array.old.clients client) node at);
    } }
{
    array.clients.fire(client, node, at, &array.graphs);
}

#[inline(always)]
fn fire_node<L: Layout, D: Disk>(
    array: &mut Array<L, D>,
    client: u32,
    node: u32,
    at: Option<Spot>,
) -> Job<D>
    requires sound { IsSound L.Layout D.Disk array.old }
    requires place { HasRoom array.old.log }
    requires can { CanFire L.Layout array.old client node }
    requires at { at ≡ place_now L.Layout array.old client node }
    ensures fired { Fired L.Layout array.old client node array.new }
    ensures work { IsWork D.Disk (L.shape array.old.layout) array.new.devices array.new.pool
        (desk_at array.old.clients client).run.graph (desk_at array.old.clients client).lease
        (place_now L.Layout array.old client node)
        (kind_at (desk_at array.old.clients client).run.graph node)
        (vertex_at (desk_at array.old.clients client).run.graph node).sources result.work
        result.sources.items }
    ensures room { 2048 ≤ vec_capacity result.sources }
    ensures job { (result.client ≡ client) × (result.node ≡ node) }
{
    let id = array.id(client);
    let Packed { work, sources } = pack(array, client, node, at);
    mark_out(array, client, node, at);
    array.note(Traced::Fire { id, node });
    Job {
        client,
        node,
        work,
        sources,
    }
}

/// Fires a node that is ready, whose unit stands there. Its device and its buffers leave with the job.
#[inline(always)]
pub fn fire<L: Layout, D: Disk>(
    array: &mut Array<L, D>,
    client: u32,
    node: u32,
    at: Option<Spot>,
) -> Job<D>
    requires sound { IsSound L.Layout D.Disk array.old }
    requires place { HasRoom array.old.log }
    requires can { CanFire L.Layout array.old client node }
    requires at { at ≡ place_now L.Layout array.old client node }
    ensures out { IsOut D.Disk L.Layout array.new result }
    ensures job { (result.client ≡ client) × (result.node ≡ node) }
    ensures step { Follows L.Layout D.Disk array.old
        (event.Fire (id_of array.old.clients client) node) array.new }
    ensures sound { IsSound L.Layout D.Disk array.new }
    ensures trace { array.new.log
        ≡ noted array.old.log (event.Fire (id_of array.old.clients client) node) }
    ensures stays { (job : Job D) → IsOut D.Disk L.Layout array.old job
        → IsOut D.Disk L.Layout array.new job }
    ensures fired { Fired L.Layout array.old client node array.new }
{
    fire_node(array, client, node, at)
}
