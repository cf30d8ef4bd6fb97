//! An operation commits.
ghost use Rattle.std.specs.Prelude.{◌≡◌, ◌<◌, ◌≤◌, None, [], length, vec_capacity};
ghost use Rattle.graph_mean.specs.Graph.{kind_at};
ghost use Rattle.eng_world.specs.declared.item.Traced.TheVariants as event;
ghost use Rattle.eng_state.specs.Room.{HasRoom, MayEnter};
ghost use Rattle.eng_clients.specs.Desk.{desk_at};
ghost use Rattle.eng_log.specs.Log.{noted, entered};
ghost use Rattle.eng_state.specs.Sound.{IsSound, IsOutOf};
ghost use Rattle.eng_state.specs.Moves.{id_of};
ghost use Rattle.eng_state.specs.EndsNode.{EndsNode};

use blk_disk::Disk;
use blk_plain::{OpId, Outcome};
use eng_job::Source;
use eng_state::Array;
use eng_world::Traced;
use graph_mean::Node;
use lay_core::Layout;

// The operation enters the history.
fn enter<L: Layout, D: Disk>(array: &mut Array<L, D>, id: OpId)
    requires { length array.old.log.history < array.old.log.history_room }
    ensures { array.new ≡ record array.old { log = entered array.old.log id } }
{
    array.log.enter(id);
}

// The commit ends good: the operation enters the history.
#[inline(always)]
pub(crate) fn commit_ends<L: Layout, D: Disk>(
    array: &mut Array<L, D>,
    client: u32,
    node: u32,
    sources: Vec<Source>,
)
    requires sound { IsSound L.Layout D.Disk array.old }
    requires place { HasRoom array.old.log }
    requires history { MayEnter array.old.log }
    requires not_lost { array.old.lost ≡ None }
    requires out { IsOutOf (desk_at array.old.clients client) node }
    requires commit { kind_at (desk_at array.old.clients client).run.graph node ≡ Node.Cmt }
    requires empty { sources.items ≡ [] }
    requires room { 2048 ≤ vec_capacity sources }
    ensures home { EndsNode L.Layout D.Disk array.old client node
        (event.Good (id_of array.old.clients client) node) None array.new }
    ensures trace { array.new.log ≡ noted (entered array.old.log (id_of array.old.clients client))
        (event.Good (id_of array.old.clients client) node) }
{
    let id = array.id(client);
    array.plain_home(client, node, sources, Outcome::Good);
    enter(array, id);
    array.note(Traced::Good { id, node });
}
