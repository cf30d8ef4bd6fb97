//! A read or a write ends bad.
ghost use Rattle.std.specs.Prelude.{◌≡◌, ◌<◌, ◌≤◌, ℕ, Some, None, [], length, vec_capacity};
ghost use Rattle.graph_mean.specs.Graph.{kind_at};
ghost use Rattle.graph_mean.specs.Steps.{IsCall};
ghost use Rattle.blk_plain.specs.declared.op.Outcome.TheVariants.{Bad};
ghost use Rattle.eng_world.specs.declared.item.Traced.TheVariants as event;
ghost use Rattle.eng_cols.specs.declared.spot.Spot.{Spot};
ghost use Rattle.eng_clients.specs.Desk.{spot_at, desk_at};
ghost use Rattle.eng_log.specs.Log.{noted};
ghost use Rattle.eng_state.specs.Room.{HasRoom};
ghost use Rattle.eng_state.specs.Sound.{IsSound, IsOutOf};
ghost use Rattle.eng_state.specs.Moves.{id_of, CameHome};
ghost use Rattle.eng_cols.specs.declared.spot.Loss.{Loss};
ghost use Rattle.eng_state.specs.Bad.{Standing, FailedIfAlive, IsOnColumn, struck_lost};
ghost use Rattle.eng_state.specs.EndsNode.{EndsNode};
ghost use Rattle.eng_fails.specs.Called.{CallCameBack, CallCameBad};

use crate::fails::{device_fails, fail_column, is_dead, kill};
use blk_disk::Disk;
use blk_plain::Outcome;
use eng_cols::Spot;
use eng_state::{Array, Coming};
use eng_world::Traced;
use graph_mean::Node;
use lay_core::Layout;

fn buf_of<L: Layout, D: Disk>(array: &Array<L, D>, client: u32, node: u32) -> u32
    requires sound { IsSound L.Layout D.Disk array.now }
    requires out { IsOutOf (desk_at array.now.clients client) node }
    requires node { node < length (desk_at array.now.clients client).run.graph.nodes }
    requires call { IsCall (kind_at (desk_at array.now.clients client).run.graph node) }
    ensures read { (i b : ℕ)
        → kind_at (desk_at array.now.clients client).run.graph node ≡ Node.Rd i b → result ≡ b }
    ensures write { (i b : ℕ)
        → kind_at (desk_at array.now.clients client).run.graph node ≡ Node.Wr i b → result ≡ b }
{
    match array.clients.node(client, node, &array.graphs) {
        Node::Rd { buf, .. } => buf,
        Node::Wr { buf, .. } => buf,
        Node::Xor { .. } | Node::Cmt | Node::Trm => unreachable!(),
    }
}

fn fail_if_alive<L: Layout, D: Disk>(array: &mut Array<L, D>, column: u32)
    requires sound { IsSound L.Layout D.Disk array.old }
    requires column { column < length array.old.cols.states }
    ensures { FailedIfAlive L.Layout array.old column array.new }
{
    if is_dead(array, column) {
        return;
    }
    fail_column(array, column);
}

// The device, the buffer and the list of a call come home, and its node has ended bad.
fn bad_home<L: Layout, D: Disk>(array: &mut Array<L, D>, client: u32, node: u32, coming: Coming<D>)
    requires sound { IsSound L.Layout D.Disk array.old }
    requires back { CallCameBack L.Layout D.Disk array.old client node coming.disk coming.buffer }
    requires empty { coming.sources.items ≡ [] }
    requires room { 2048 ≤ vec_capacity coming.sources }
    ensures { (r : CallCameBack L.Layout D.Disk array.old client node coming.disk coming.buffer)
        → CameHome array.old client node r.back.buf r.back.at coming.disk coming.buffer Bad
        array.new }
{
    let buf = buf_of(array, client, node);
    let Some(at) = array.clients.spot(client, node) else {
        unreachable!()
    };
    array.call_home(client, node, buf, at, coming, Outcome::Bad);
}

/// A read or a write ends bad, and the column of its device fails with it: the device answered so, or it is a write
/// whose device failed since it was fired.
pub(crate) fn ends_bad<L: Layout, D: Disk>(
    array: &mut Array<L, D>,
    client: u32,
    node: u32,
    coming: Coming<D>,
)
    requires sound { IsSound L.Layout D.Disk array.old }
    requires not_lost { array.old.lost ≡ None }
    requires standing { Standing L.Layout array.old }
    requires back { CallCameBad L.Layout D.Disk array.old client node coming.disk coming.buffer }
    requires empty { coming.sources.items ≡ [] }
    requires list { 2048 ≤ vec_capacity coming.sources }
    requires room { HasRoom array.old.log }
    ensures home { EndsNode L.Layout D.Disk array.old client node
        (event.Bad (id_of array.old.clients client) node) (Some coming.disk) array.new }
    ensures trace { array.new.log
        ≡ noted array.old.log (event.Bad (id_of array.old.clients client) node) }
{
    let id = array.id(client);
    array.clients.stands(client);
    let Some(at) = array.clients.spot(client, node) else {
        unreachable!()
    };
    fail_if_alive(array, at.column);
    bad_home(array, client, node, coming);
    array.note(Traced::Bad { id, node });
}

// The device has failed and the column is dead.
fn strike<L: Layout, D: Disk>(array: &mut Array<L, D>, at: Spot)
    requires device { at.device < length array.old.devices.slots }
    requires column { at.column < length array.old.cols.states }
    ensures { array.new ≡ struck_lost array.old at }
{
    device_fails(array, at.device);
    kill(array, at.column);
}

/// A read or a write ends bad once the array is lost: its device has failed, and its column is dead.
pub(crate) fn comes_bad<L: Layout, D: Disk>(
    array: &mut Array<L, D>,
    client: u32,
    node: u32,
    coming: Coming<D>,
)
    requires sound { IsSound L.Layout D.Disk array.old }
    requires lost { (loss : Loss) × (array.old.lost ≡ Some loss) }
    requires within { (at : Spot) → spot_at (desk_at array.old.clients client) node ≡ Some at
        → at.column < (L.shape array.old.layout).columns }
    requires on { IsOnColumn array.old client node }
    requires back { CallCameBad L.Layout D.Disk array.old client node coming.disk coming.buffer }
    requires empty { coming.sources.items ≡ [] }
    requires list { 2048 ≤ vec_capacity coming.sources }
    requires room { HasRoom array.old.log }
    ensures home { EndsNode L.Layout D.Disk array.old client node
        (event.Bad (id_of array.old.clients client) node) (Some coming.disk) array.new }
    ensures trace { array.new.log
        ≡ noted array.old.log (event.Bad (id_of array.old.clients client) node) }
{
    let id = array.id(client);
    let Some(at) = array.clients.spot(client, node) else {
        unreachable!()
    };
    strike(array, at);
    bad_home(array, client, node, coming);
    array.note(Traced::Bad { id, node });
}
