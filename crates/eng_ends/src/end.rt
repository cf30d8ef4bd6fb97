//! An operation's end: it is replied, and gives all back.
ghost use Rattle.std.specs.Prelude.{◌≡◌, ◌<◌, ◌≤◌, None, [], length, vec_capacity};
ghost use Rattle.buf_pool.specs.Pool.{IsLease, AllHome, Returns, KeepsOthers};
ghost use Rattle.stripe_lock.specs.Table.{Releases, owners_of};
ghost use Rattle.graph_mean.specs.Graph.{kind_at};
ghost use Rattle.eng_world.specs.declared.item.Traced.TheVariants as event;
ghost use Rattle.eng_state.specs.Room.{HasRoom};
ghost use Rattle.eng_clients.specs.Desk.{desk_at, item_at};
ghost use Rattle.eng_log.specs.Log.{noted};
ghost use Rattle.eng_state.specs.Sound.{IsSound, IsOutOf};
ghost use Rattle.eng_state.specs.Moves.{id_of, Released, Terminated};
ghost use Rattle.eng_state.specs.EndsNode.{EndsNode};
ghost use Rattle.eng_ends.specs.Ends.{IsPlain};

use blk_disk::Disk;
use blk_plain::Outcome;
use eng_job::Source;
use eng_state::Array;
use eng_world::{Reply, Traced};
use graph_mean::Node;
use lay_core::Layout;

// The buffers of a client's lease are given back.
fn lease_home<L: Layout, D: Disk>(array: &mut Array<L, D>, client: u32)
    requires client { client < length array.old.clients }
    requires lease { IsLease array.old.pool (desk_at array.old.clients client).lease }
    requires home { AllHome array.old.pool (desk_at array.old.clients client).lease }
    ensures returns { Returns array.old.pool (desk_at array.old.clients client).lease
        array.new.pool }
    ensures others { KeepsOthers array.old.pool (desk_at array.old.clients client).lease
        array.new.pool }
    ensures rest { array.new ≡ record array.old { pool = array.new.pool } }
{
    array.clients.give_back(client, &mut array.pool);
}

// The stripes of a client are given back.
fn unlock<L: Layout, D: Disk>(array: &mut Array<L, D>, client: u32)
    requires { client < owners_of array.old.locks }
    ensures released { Releases array.old.locks client array.new.locks }
    ensures rest { array.new ≡ record array.old { locks = array.new.locks } }
{
    array.locks.release(client);
}

// A client's item is replied, and all is given back.
pub(crate) fn release<L: Layout, D: Disk>(array: &mut Array<L, D>, client: u32, reply: Reply)
    requires client { client < length array.old.clients }
    requires owner { client < owners_of array.old.locks }
    requires left { length (desk_at array.old.clients client).replies
        < length (desk_at array.old.clients client).items }
    requires lease { IsLease array.old.pool (desk_at array.old.clients client).lease }
    requires home { AllHome array.old.pool (desk_at array.old.clients client).lease }
    ensures released { Released array.old client reply array.new }
    ensures log { array.new.log ≡ array.old.log }
{
    lease_home(array, client);
    array.reply(client, reply);
    unlock(array, client);
}

// The terminator has ended, and all is given back.
pub(crate) fn terminate<L: Layout, D: Disk>(
    array: &mut Array<L, D>,
    client: u32,
    node: u32,
    sources: Vec<Source>,
    reply: Reply,
)
    requires sound { IsSound L.Layout D.Disk array.old }
    requires out { IsOutOf (desk_at array.old.clients client) node }
    requires end { kind_at (desk_at array.old.clients client).run.graph node ≡ Node.Trm }
    requires empty { sources.items ≡ [] }
    requires room { 2048 ≤ vec_capacity sources }
    ensures { Terminated array.old client node reply array.new }
{
    array.plain_home(client, node, sources, Outcome::Good);
    release(array, client, reply);
}

// The terminator of a write or a sync ends good.
pub(crate) fn end_plain<L: Layout, D: Disk>(
    array: &mut Array<L, D>,
    client: u32,
    node: u32,
    sources: Vec<Source>,
)
    requires sound { IsSound L.Layout D.Disk array.old }
    requires place { HasRoom array.old.log }
    requires not_lost { array.old.lost ≡ None }
    requires out { IsOutOf (desk_at array.old.clients client) node }
    requires end { kind_at (desk_at array.old.clients client).run.graph node ≡ Node.Trm }
    requires plain { IsPlain (item_at (desk_at array.old.clients client)) }
    requires empty { sources.items ≡ [] }
    requires room { 2048 ≤ vec_capacity sources }
    ensures home { EndsNode L.Layout D.Disk array.old client node
        (event.Good (id_of array.old.clients client) node) None array.new }
    ensures trace { array.new.log
        ≡ noted array.old.log (event.Good (id_of array.old.clients client) node) }
{
    let id = array.id(client);
    terminate(array, client, node, sources, Reply::Done);
    array.note(Traced::Good { id, node });
}
