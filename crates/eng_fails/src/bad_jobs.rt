//! A job that came back with a read or a write that ends bad.
ghost use Rattle.std.specs.Prelude.{◌≡◌, ◌<◌, ◌≤◌, Some, None, [], vec_capacity};
ghost use Rattle.eng_world.specs.declared.item.Traced.TheVariants as event;
ghost use Rattle.eng_cols.specs.declared.spot.Loss.{Loss};
ghost use Rattle.eng_clients.specs.Desk.{desk_at, spot_at};
ghost use Rattle.eng_log.specs.Log.{noted};
ghost use Rattle.eng_state.specs.Room.{HasRoom};
ghost use Rattle.eng_state.specs.Sound.{IsSound};
ghost use Rattle.eng_state.specs.Moves.{id_of};
ghost use Rattle.eng_state.specs.Homes.{device_in};
ghost use Rattle.eng_state.specs.Bad.{Standing, IsOnColumn};
ghost use Rattle.eng_state.specs.EndsNode.{EndsNode};
ghost use Rattle.eng_fails.specs.Called.{CallCameBad};
ghost use Rattle.eng_fails.specs.Returned.{JobCameBad};

use crate::bad::{comes_bad, ends_bad};
use blk_disk::Disk;
use eng_cols::Spot;
use eng_job::{Job, Work};
use eng_state::{Array, Coming};
use lay_core::Layout;

// A read or a write ends bad, whether or not the array is lost.
fn call_ends_bad<L: Layout, D: Disk>(
    array: &mut Array<L, D>,
    client: u32,
    node: u32,
    coming: Coming<D>,
)
    requires sound { IsSound L.Layout D.Disk array.old }
    requires standing { array.old.lost ≡ None → Standing L.Layout array.old }
    requires within { (at : Spot) → spot_at (desk_at array.old.clients client) node ≡ Some at
        → at.column < (L.shape array.old.layout).columns }
    requires on { (loss : Loss) → array.old.lost ≡ Some loss → IsOnColumn array.old client node }
    requires back { CallCameBad L.Layout D.Disk array.old client node coming.disk coming.buffer }
    requires empty { coming.sources.items ≡ [] }
    requires list { 2048 ≤ vec_capacity coming.sources }
    requires room { HasRoom array.old.log }
    ensures home { EndsNode L.Layout D.Disk array.old client node
        (event.Bad (id_of array.old.clients client) node) (Some coming.disk) array.new }
    ensures trace { array.new.log
        ≡ noted array.old.log (event.Bad (id_of array.old.clients client) node) }
{
    match array.lost {
        None => ends_bad(array, client, node, coming),
        Some(_) => comes_bad(array, client, node, coming),
    }
}

/// A job that came back with a read or a write ends bad, whether or not the array is lost: the device answered so,
/// or it is a write whose device failed since it was fired.
pub fn bad_returns<L: Layout, D: Disk>(array: &mut Array<L, D>, job: Job<D>)
    requires sound { IsSound L.Layout D.Disk array.old }
    requires standing { array.old.lost ≡ None → Standing L.Layout array.old }
    requires within { (at : Spot)
        → spot_at (desk_at array.old.clients job.client) job.node ≡ Some at
        → at.column < (L.shape array.old.layout).columns }
    requires on { (loss : Loss) → array.old.lost ≡ Some loss
        → IsOnColumn array.old job.client job.node }
    requires back { JobCameBad L.Layout D.Disk array.old job }
    requires room { HasRoom array.old.log }
    ensures home { EndsNode L.Layout D.Disk array.old job.client job.node
        (event.Bad (id_of array.old.clients job.client) job.node) (device_in job.work) array.new }
    ensures trace { array.new.log
        ≡ noted array.old.log (event.Bad (id_of array.old.clients job.client) job.node) }
{
    let Job {
        client,
        node,
        work,
        sources,
    } = job;
    match work {
        Work::Read { disk, buffer, .. } => {
            let coming = Coming {
                disk,
                buffer,
                sources,
            };
            call_ends_bad(array, client, node, coming);
        }
        Work::Write { disk, buffer, .. } => {
            let coming = Coming {
                disk,
                buffer,
                sources,
            };
            call_ends_bad(array, client, node, coming);
        }
        Work::Nothing | Work::Sum { .. } => unreachable!(),
    }
}
