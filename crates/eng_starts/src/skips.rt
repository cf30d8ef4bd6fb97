//! The write of a missing unit is skipped.
ghost use Rattle.std.specs.Prelude.{◌≡◌, ◌<◌, length, slice_set};
ghost use Rattle.graph_mean.specs.Graph.{kind_at};
ghost use Rattle.eng_one.specs.Control.{IsReadyIn, IsWrite};
ghost use Rattle.eng_world.specs.declared.item.Traced.TheVariants as event;
ghost use Rattle.eng_state.specs.Room.{HasRoom};
ghost use Rattle.eng_clients.specs.Desk.{Lends, desk_at, with_skipped};
ghost use Rattle.eng_log.specs.Log.{noted};
ghost use Rattle.eng_state.specs.Sound.{IsSound};
ghost use Rattle.eng_state.specs.Can.{CanSkip};
ghost use Rattle.eng_state.specs.Moves.{id_of};
ghost use Rattle.eng_state.specs.Out.{IsOut};
ghost use Rattle.eng_state.specs.Steps.{Follows};

use blk_disk::Disk;
use eng_job::Job;
use eng_state::Array;
use eng_world::Traced;
use graph_mean::Phase;
use lay_core::Layout;

fn mark_skipped<L: Layout, D: Disk>(array: &mut Array<L, D>, client: u32, node: u32)
    requires client { client < length array.old.clients }
    requires lends { Lends array.old.graphs.items (desk_at array.old.clients client) }
    requires ready { IsReadyIn (desk_at array.old.clients client).run node }
    requires write { IsWrite (kind_at (desk_at array.old.clients client).run.graph node) }
    requires after { (desk_at array.old.clients client).run.phase ≡ Phase.After }
    ensures { array.new ≡ record array.old {
      clients = slice_set array.old.clients client
          (with_skipped (desk_at array.old.clients client) node);
    } }
{
    array.clients.skip(client, node, &array.graphs);
}

/// Passes over a ready write whose unit is missing, or of a rebuild, whose target is dead.
pub fn skip<L: Layout, D: Disk>(array: &mut Array<L, D>, client: u32, node: u32)
    requires sound { IsSound L.Layout D.Disk array.old }
    requires place { HasRoom array.old.log }
    requires can { CanSkip L.Layout array.old client node }
    ensures step { Follows L.Layout D.Disk array.old
        (event.Skip (id_of array.old.clients client) node) array.new }
    ensures sound { IsSound L.Layout D.Disk array.new }
    ensures trace { array.new.log
        ≡ noted array.old.log (event.Skip (id_of array.old.clients client) node) }
    ensures skipped { array.new ≡ record array.old {
      clients = slice_set
          array.old.clients client (with_skipped (desk_at array.old.clients client) node);
      log = noted array.old.log (event.Skip (id_of array.old.clients client) node);
    } }
    ensures stays { (job : Job D) → IsOut D.Disk L.Layout array.old job
        → IsOut D.Disk L.Layout array.new job }
{
    let id = array.id(client);
    mark_skipped(array, client, node);
    array.note(Traced::Skip { id, node });
}
