//! A commit or a terminator that comes home once the array is lost.
ghost use Rattle.std.specs.Prelude.{◌≡◌, ◌≤◌, ◌⊎◌, Some, None, [], vec_capacity};
ghost use Rattle.graph_mean.specs.Graph.{kind_at};
ghost use Rattle.eng_cols.specs.declared.spot.Loss.{Loss};
ghost use Rattle.eng_world.specs.declared.item.Traced.TheVariants as event;
ghost use Rattle.eng_state.specs.Room.{HasRoom};
ghost use Rattle.eng_clients.specs.Desk.{desk_at};
ghost use Rattle.eng_log.specs.Log.{noted};
ghost use Rattle.eng_state.specs.Sound.{IsSound, IsOutOf};
ghost use Rattle.eng_state.specs.Moves.{id_of};
ghost use Rattle.eng_state.specs.Homes.{device_in};
ghost use Rattle.eng_state.specs.Out.{CameBack};
ghost use Rattle.eng_state.specs.EndsNode.{EndsNode};

use blk_disk::Disk;
use blk_plain::Outcome;
use eng_job::{Job, Source, Work};
use eng_state::Array;
use eng_world::Traced;
use graph_mean::Node;
use lay_core::Layout;

// A commit or a terminator comes home: nothing is replied, committed or given back.
fn nothing_comes<L: Layout, D: Disk>(
    array: &mut Array<L, D>,
    client: u32,
    node: u32,
    sources: Vec<Source>,
)
    requires sound { IsSound L.Layout D.Disk array.old }
    requires place { HasRoom array.old.log }
    requires lost { (loss : Loss) × (array.old.lost ≡ Some loss) }
    requires out { IsOutOf (desk_at array.old.clients client) node }
    requires kind { (kind_at (desk_at array.old.clients client).run.graph node ≡ Node.Cmt) ⊎
        (kind_at (desk_at array.old.clients client).run.graph node ≡ Node.Trm) }
    requires empty { sources.items ≡ [] }
    requires room { 2048 ≤ vec_capacity sources }
    ensures home { EndsNode L.Layout D.Disk array.old client node
        (event.Good (id_of array.old.clients client) node) None array.new }
    ensures trace { array.new.log
        ≡ noted array.old.log (event.Good (id_of array.old.clients client) node) }
{
    let id = array.id(client);
    array.plain_home(client, node, sources, Outcome::Good);
    array.note(Traced::Good { id, node });
}

/// A job that came back with a commit or a terminator comes home to an array that is lost: nothing is replied,
/// committed or given back.
pub fn nothing_comes_home<L: Layout, D: Disk>(array: &mut Array<L, D>, job: Job<D>)
    requires sound { IsSound L.Layout D.Disk array.old }
    requires place { HasRoom array.old.log }
    requires lost { (loss : Loss) × (array.old.lost ≡ Some loss) }
    requires back { CameBack D.Disk L.Layout array.old job Outcome.Good }
    requires nothing { job.work ≡ Work.Nothing }
    ensures home { EndsNode L.Layout D.Disk array.old job.client job.node
        (event.Good (id_of array.old.clients job.client) job.node) (device_in job.work) array.new }
    ensures trace { array.new.log
        ≡ noted array.old.log (event.Good (id_of array.old.clients job.client) job.node) }
{
    let Job {
        client,
        node,
        work,
        sources,
    } = job;
    match work {
        Work::Nothing => nothing_comes(array, client, node, sources),
        Work::Read { .. } | Work::Write { .. } | Work::Sum { .. } => unreachable!(),
    }
}
