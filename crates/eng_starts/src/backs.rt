//! An operation that was undone is planned anew, or given up.
ghost use Rattle.std.specs.Prelude.{◌≡◌, ◌<◌, Some, None, true, length};
ghost use Rattle.buf_pool.specs.Pool.{IsLease, AllHome};
ghost use Rattle.stripe_lock.specs.Table.{owners_of};
ghost use Rattle.eng_world.specs.declared.item.Traced.TheVariants as event;
ghost use Rattle.eng_world.specs.declared.item.Reply.TheVariants as reply;
ghost use Rattle.eng_clients.specs.Desk.{desk_at};
ghost use Rattle.eng_log.specs.Log.{noted};
ghost use Rattle.eng_state.specs.Moves.{id_of};
ghost use Rattle.eng_state.specs.Serves.{Serves, Stands, CanBack};
ghost use Rattle.eng_state.specs.Sound.{IsSound};
ghost use Rattle.eng_state.specs.Out.{IsOut};
ghost use Rattle.eng_state.specs.Steps.{Follows};
ghost use Rattle.eng_state.specs.Taken.{BackAs, IsBack, Replaced, GivenUp};

use crate::takes::{fill_buffers, plan, start};
use blk_disk::Disk;
use blk_plain::Op;
use eng_job::Job;
use eng_state::Array;
use eng_world::{Item, Reply, Traced};
use lay_core::Layout;

// The operation is planned anew, under the same locks and on the same buffers.
fn plan_anew<L: Layout, D: Disk>(array: &mut Array<L, D>, client: u32, op: &Op)
    requires sound { IsSound L.Layout D.Disk array.old }
    requires stands { Stands L.Layout array.old }
    requires can { CanBack L.Layout array.old client }
    requires serves { Serves array.old.graphs.items (L.shape array.old.layout)
        (desk_at array.old.clients client) op.now None }
    requires place { array.old.log.keeps ≡ true
        → length array.old.log.trace < array.old.log.trace_room }
    ensures { Replaced L.Layout array.old client op.now
        (event.Back (id_of array.old.clients client))
        array.new }
{
    let id = array.id(client);
    match plan(array, client, op, None) {
        Ok(()) => {}
        Err(_) => unreachable!(),
    }
    start(array, client);
    fill_buffers(array, client, op);
    array.note(Traced::Back { id });
}

// The operation is replied undone by this device, and its stripes and buffers are free.
fn give_up<L: Layout, D: Disk>(array: &mut Array<L, D>, client: u32, device: u32)
    requires client { client < length array.old.clients }
    requires owner { client < owners_of array.old.locks }
    requires item { length (desk_at array.old.clients client).replies
        < length (desk_at array.old.clients client).items }
    requires lease { IsLease array.old.pool (desk_at array.old.clients client).lease }
    requires home { AllHome array.old.pool (desk_at array.old.clients client).lease }
    requires place { array.old.log.keeps ≡ true
        → length array.old.log.trace < array.old.log.trace_room }
    ensures { GivenUp L.Layout array.old client (reply.Undone device)
        (event.Back (id_of array.old.clients client)) array.new }
{
    let id = array.id(client);
    array.clients.give_back(client, &mut array.pool);
    array.clients.reply(client, Reply::Undone { device });
    array.locks.release(client);
    array.note(Traced::Back { id });
}

// What becomes of the core as the client's operation, which is this, goes back.
fn back_op<L: Layout, D: Disk>(array: &mut Array<L, D>, client: u32, op: &Op, file: Option<u32>)
    requires sound { IsSound L.Layout D.Disk array.old }
    requires stands { Stands L.Layout array.old }
    requires can { CanBack L.Layout array.old client }
    requires serves { Serves array.old.graphs.items (L.shape array.old.layout)
        (desk_at array.old.clients client) op.now file }
    requires place { array.old.log.keeps ≡ true
        → length array.old.log.trace < array.old.log.trace_room }
    ensures { BackAs L.Layout array.old client op.now file
        (event.Back (id_of array.old.clients client))
        array.new }
{
    match file {
        None => plan_anew(array, client, op),
        Some(_) => match array.clients.by(client) {
            Some(device) => give_up(array, client, device),
            None => unreachable!(),
        },
    }
}

// What becomes of the core as the client's operation goes back.
fn back_item<L: Layout, D: Disk>(array: &mut Array<L, D>, client: u32)
    requires sound { IsSound L.Layout D.Disk array.old }
    requires stands { Stands L.Layout array.old }
    requires can { CanBack L.Layout array.old client }
    requires place { array.old.log.keeps ≡ true
        → length array.old.log.trace < array.old.log.trace_room }
    ensures { IsBack L.Layout array.old client (event.Back (id_of array.old.clients client))
        array.new }
{
    let Some(item) = array.clients.item(client) else {
        unreachable!()
    };
    match item {
        Item::Run { op, graph } => {
            let graph = *graph;
            let op = *op;
            back_op(array, client, &op, graph);
        }
        Item::Fail { .. } => unreachable!(),
    }
}

/// The client's operation, which was undone, is planned anew; or, by a graph of the file, replied undone.
pub fn back<L: Layout, D: Disk>(array: &mut Array<L, D>, client: u32)
    requires sound { IsSound L.Layout D.Disk array.old }
    requires stands { Stands L.Layout array.old }
    requires can { CanBack L.Layout array.old client }
    requires place { array.old.log.keeps ≡ true
        → length array.old.log.trace < array.old.log.trace_room }
    ensures step { Follows L.Layout D.Disk array.old (event.Back (id_of array.old.clients client))
        array.new }
    ensures sound { IsSound L.Layout D.Disk array.new }
    ensures stands { Stands L.Layout array.new }
    ensures trace { array.new.log
        ≡ noted array.old.log (event.Back (id_of array.old.clients client)) }
    ensures became { IsBack L.Layout array.old client (event.Back (id_of array.old.clients client))
        array.new }
    ensures stays { (job : Job D) → IsOut D.Disk L.Layout array.old job
        → IsOut D.Disk L.Layout array.new job }
{
    back_item(array, client);
}
