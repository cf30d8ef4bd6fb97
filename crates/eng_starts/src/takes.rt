//! An operation is taken, or its graph refused.
ghost use Rattle.std.specs.Prelude.{◌≡◌, ◌<◌, ◌≤◌, ◌*◌, ℕ, Some, OnOk, IfErr, true, length, slice_set};
ghost use Rattle.buf_pool.specs.Pool.{Leases, StandsApart};
ghost use Rattle.buf_pool.specs.Reserve.{AreThere};
ghost use Rattle.stripe_lock.specs.Table.{Conflict, HoldsNothing, Acquires, owners_of};
ghost use Rattle.eng_one.specs.Counts.{CanStart};
ghost use Rattle.eng_cols.specs.Cols.{IsFor};
ghost use Rattle.eng_cols.specs.Lost.{NotLost};
ghost use Rattle.blk_plain.specs.declared.op.Op.TheVariants as ops;
ghost use Rattle.eng_world.specs.declared.item.Traced.TheVariants as event;
ghost use Rattle.eng_world.specs.declared.item.Reply.TheVariants as reply;
ghost use Rattle.eng_state.specs.declared.array.Array.{Array};
ghost use Rattle.eng_clients.specs.Desk.{desk_at, graph_of, with_reply, with_started, with_lease};
ghost use Rattle.eng_log.specs.Filled.{HasBuffers, Filled};
ghost use Rattle.eng_log.specs.Log.{noted};
ghost use Rattle.eng_state.specs.Moves.{id_of};
ghost use Rattle.eng_plan.specs.Asked.{IsInside, mode_by, lease_by, lease_for};
ghost use Rattle.eng_world.specs.Planning.{span_count};
ghost use Rattle.eng_clients.specs.Planned.{IsPlanned, CanRun, IsRefusedFor};
ghost use Rattle.eng_state.specs.Serves.{Serves, Stands, CanTake, HasThere};
ghost use Rattle.eng_state.specs.Sound.{IsSound};
ghost use Rattle.eng_state.specs.Out.{IsOut};
ghost use Rattle.eng_state.specs.Steps.{Follows};
ghost use Rattle.eng_state.specs.Taken.{PlannedFor, Settled, IsTaken};

use blk_disk::Disk;
use blk_plain::{Op, OpId, Patches, Pattern, Span};
use eng_clients::Asked;
use eng_job::Job;
use eng_plan::{lease_size, mode_by, span_count};
use eng_state::Array;
use eng_world::{Item, Reply, Traced};
use graph_mean::Refusal;
use lay_core::Layout;
use stripe_lock::Mode;

// The client's operation is planned while the columns stand like this.
pub(crate) fn plan<L: Layout, D: Disk>(
    array: &mut Array<L, D>,
    client: u32,
    op: &Op,
    file: Option<u32>,
) -> Result<(), Refusal>
    requires client { client < length array.old.clients }
    requires fit { IsFor (L.shape array.old.layout) array.old.cols }
    requires op { IsInside (L.shape array.old.layout) op.now }
    requires kept { NotLost (L.shape array.old.layout) array.old.cols.states }
    requires file { (n : ℕ) → file ≡ Some n → n < length array.old.graphs.items }
    ensures planned { PlannedFor L.Layout array.old client op.now file array.new }
    ensures passes { OnOk result
        (CanRun array.old.graphs.items (desk_at array.new.clients client)) }
    ensures refused { IfErr result (λ cause.
        IsRefusedFor array.old.graphs.items file (desk_at array.new.clients client) cause) }
{
    array.clients.plan(
        client,
        &array.layout,
        &array.cols,
        Asked { op, file },
        &array.graphs,
        &mut array.scratch,
    )
}

fn lock<L: Layout, D: Disk>(array: &mut Array<L, D>, client: u32, mode: Mode)
    requires client { client < length array.old.clients }
    requires owner { client < owners_of array.old.locks }
    requires few { length (desk_at array.old.clients client).map.stripes ≤ 16 }
    requires none { HoldsNothing array.old.locks client }
    requires is_free { Conflict array.old.locks client
        (desk_at array.old.clients client).map.stripes mode → ⊥ }
    ensures taken { Acquires array.old.locks client (desk_at array.old.clients client).map.stripes
        mode array.new.locks }
    ensures rest { array.new ≡ record array.old { locks = array.new.locks } }
{
    let taken = array
        .locks
        .take_all(client, array.clients.stripes(client), mode);
    prove!(taken);
}

// Leases the operation so many buffers.
fn lend<L: Layout, D: Disk>(array: &mut Array<L, D>, client: u32, count: u32)
    requires client { client < length array.old.clients }
    requires there { AreThere array.old.pool count }
    ensures leased { Leases array.old.pool count (desk_at array.new.clients client).lease
        array.new.pool }
    ensures apart { StandsApart array.old.pool (desk_at array.new.clients client).lease
        array.new.pool }
    ensures now { array.new
        ≡ record array.old {
          pool = array.new.pool;
          clients = slice_set array.old.clients client
              (with_lease (desk_at array.old.clients client)
              (desk_at array.new.clients client).lease);
        } }
{
    array.clients.hold(client, count, &mut array.pool);
}

// Its graph is run from the beginning.
pub(crate) fn start<L: Layout, D: Disk>(array: &mut Array<L, D>, client: u32)
    requires client { client < length array.old.clients }
    requires there { (n : ℕ) → (desk_at array.old.clients client).file ≡ Some n
        → n < length array.old.graphs.items }
    requires can { CanStart (graph_of array.old.graphs.items (desk_at array.old.clients client)) }
    ensures { array.new ≡ record array.old {
      clients = slice_set array.old.clients client
          (with_started array.old.graphs.items (desk_at array.old.clients client));
    } }
{
    array.clients.start(client, &array.graphs);
}

// Its buffers of new data are filled.
pub(crate) fn fill_buffers<L: Layout, D: Disk>(array: &mut Array<L, D>, client: u32, op: &Op)
    requires client { client < length array.old.clients }
    requires there { (n : ℕ) → (desk_at array.old.clients client).file ≡ Some n
        → n < length array.old.graphs.items }
    requires buffers { HasBuffers
        (graph_of array.old.graphs.items (desk_at array.old.clients client)) array.old.pool
        (desk_at array.old.clients client).lease }
    requires few { span_count op.now ≤ 8 }
    ensures filled { Filled (L.shape array.old.layout)
        (desk_at array.old.clients client).map.stripes
        (graph_of array.old.graphs.items (desk_at array.old.clients client)) op.now
        (desk_at array.old.clients client).lease array.old.pool array.new.pool }
    ensures rest { array.new ≡ record array.old { pool = array.new.pool } }
{
    array
        .clients
        .fill(client, &array.layout, op, &array.graphs, &mut array.pool);
}

// How many buffers its operation, which is planned, leases.
fn size<L: Layout, D: Disk>(array: &Array<L, D>, client: u32, op: &Op, file: Option<u32>) -> u32
    requires client { client < length array.now.clients }
    requires few { length (desk_at array.now.clients client).map.stripes ≤ 16 }
    requires spans { span_count op.now ≤ 8 }
    requires there { (n : ℕ) → file ≡ Some n → n < length array.now.graphs.items }
    ensures { result ≡ lease_by (L.shape array.now.layout) array.now.graphs.items
        (length (desk_at array.now.clients client).map.stripes) (span_count op.now) file }
{
    let stripes = array.clients.stripes(client).len() as u32;
    lease_size(&array.layout, stripes, span_count(op), file, &array.graphs)
}

// The planned operation takes its stripes and buffers, and its run begins.
fn settle<L: Layout, D: Disk>(array: &mut Array<L, D>, client: u32, op: &Op, file: Option<u32>)
    requires client { client < length array.old.clients }
    requires owner { client < owners_of array.old.locks }
    requires unit { array.old.pool.unit ≡ 512 * (L.shape array.old.layout).unit_sectors }
    requires none { HoldsNothing array.old.locks client }
    requires inside { IsInside (L.shape array.old.layout) op.now }
    requires there { (n : ℕ) → file ≡ Some n → n < length array.old.graphs.items }
    requires planned { IsPlanned (L.shape array.old.layout) array.old.graphs.items
        array.old.cols.states op.now file (desk_at array.old.clients client) }
    requires runs { CanRun array.old.graphs.items (desk_at array.old.clients client) }
    requires is_free { Conflict array.old.locks client
        (desk_at array.old.clients client).map.stripes (mode_by op.now) → ⊥ }
    requires buffers { AreThere array.old.pool
        (lease_for (L.shape array.old.layout) array.old.graphs.items op.now file) }
    ensures { Settled L.Layout array.old client op.now file array.new }
{
    lock(array, client, mode_by(op));
    let count = size(array, client, op, file);
    lend(array, client, count);
    start(array, client);
    fill_buffers(array, client, op);
}

// The planned operation begins, and the event is traced.
fn take_planned<L: Layout, D: Disk>(
    array: &mut Array<L, D>,
    client: u32,
    op: &Op,
    file: Option<u32>,
    id: OpId,
)
    requires client { client < length array.old.clients }
    requires owner { client < owners_of array.old.locks }
    requires unit { array.old.pool.unit ≡ 512 * (L.shape array.old.layout).unit_sectors }
    requires none { HoldsNothing array.old.locks client }
    requires inside { IsInside (L.shape array.old.layout) op.now }
    requires there { (n : ℕ) → file ≡ Some n → n < length array.old.graphs.items }
    requires planned { IsPlanned (L.shape array.old.layout) array.old.graphs.items
        array.old.cols.states op.now file (desk_at array.old.clients client) }
    requires runs { CanRun array.old.graphs.items (desk_at array.old.clients client) }
    requires is_free { Conflict array.old.locks client
        (desk_at array.old.clients client).map.stripes (mode_by op.now) → ⊥ }
    requires buffers { AreThere array.old.pool
        (lease_for (L.shape array.old.layout) array.old.graphs.items op.now file) }
    requires place { array.old.log.keeps ≡ true
        → length array.old.log.trace < array.old.log.trace_room }
    ensures { (mid : Array L D) × Settled L.Layout array.old client op.now file mid
        × (array.new ≡ record mid { log = noted mid.log (event.Take id) }) }
{
    settle(array, client, op, file);
    array.note(Traced::Take { id });
}

// Its item is replied, and the event is traced.
fn refuse<L: Layout, D: Disk>(array: &mut Array<L, D>, client: u32, cause: Refusal, id: OpId)
    requires client { client < length array.old.clients }
    requires item { length (desk_at array.old.clients client).replies
        < length (desk_at array.old.clients client).items }
    requires place { array.old.log.keeps ≡ true
        → length array.old.log.trace < array.old.log.trace_room }
    ensures { array.new ≡ record array.old {
      clients = slice_set array.old.clients
          client (with_reply (desk_at array.old.clients client) (reply.Refused cause));
      log = noted array.old.log (event.Take id);
    } }
{
    array.clients.reply(client, Reply::Refused(cause));
    array.note(Traced::Take { id });
}

// What becomes of the core as the client's operation, which is this, is taken.
fn take_op<L: Layout, D: Disk>(array: &mut Array<L, D>, client: u32, op: &Op, file: Option<u32>)
    requires sound { IsSound L.Layout D.Disk array.old }
    requires stands { Stands L.Layout array.old }
    requires can { CanTake L.Layout array.old client }
    requires there { HasThere L.Layout array.old client }
    requires serves { Serves array.old.graphs.items (L.shape array.old.layout)
        (desk_at array.old.clients client) op.now file }
    requires place { array.old.log.keeps ≡ true
        → length array.old.log.trace < array.old.log.trace_room }
    ensures { IsTaken L.Layout array.old client (event.Take (id_of array.old.clients client))
        array.new }
{
    let id = array.id(client);
    match plan(array, client, op, file) {
        Ok(()) => take_planned(array, client, op, file, id),
        Err(cause) => refuse(array, client, cause, id),
    }
}

// A write in the place of another operation. Each kind has a function of its own, which puts the few bytes that it has where
// they belong: what is put by several arms of a match is built elsewhere first, with the room of eight patches.
fn put_write(op: &mut Op, span: Span, pattern: &Pattern)
    ensures { op.new ≡ ops.Write span pattern.now }
{
    *op = Op::Write {
        span,
        pattern: *pattern,
    };
}

// A write of several spans in the place of another operation.
fn put_writes(op: &mut Op, patches: &Patches)
    ensures { op.new ≡ ops.Writes patches.now }
{
    *op = Op::Writes { patches: *patches };
}

// A read in the place of another operation.
fn put_read(op: &mut Op, span: Span)
    ensures { op.new ≡ ops.Read span }
{
    *op = Op::Read { span };
}

// A rebuild in the place of another operation.
fn put_rebuild(op: &mut Op, stripe: u32)
    ensures { op.new ≡ ops.Rebuild stripe }
{
    *op = Op::Rebuild { stripe };
}

// A sync in the place of another operation.
fn put_sync(op: &mut Op, stripe: u32)
    ensures { op.new ≡ ops.Sync stripe }
{
    *op = Op::Sync { stripe };
}

// An operation in the place of another: no more bytes than it has are copied.
fn put_op(op: &mut Op, from: &Op)
    ensures { op.new ≡ from.now }
{
    match from {
        Op::Write { span, pattern } => put_write(op, *span, pattern),
        Op::Writes { patches } => put_writes(op, patches),
        Op::Read { span } => put_read(op, *span),
        Op::Rebuild { stripe } => put_rebuild(op, *stripe),
        Op::Sync { stripe } => put_sync(op, *stripe),
    }
}

// What becomes of the core as the client's operation is taken.
fn take_item<L: Layout, D: Disk>(array: &mut Array<L, D>, client: u32)
    requires sound { IsSound L.Layout D.Disk array.old }
    requires stands { Stands L.Layout array.old }
    requires can { CanTake L.Layout array.old client }
    requires there { HasThere L.Layout array.old client }
    requires place { array.old.log.keeps ≡ true
        → length array.old.log.trace < array.old.log.trace_room }
    ensures { IsTaken L.Layout array.old client (event.Take (id_of array.old.clients client))
        array.new }
{
    let Some(item) = array.clients.item(client) else {
        unreachable!()
    };
    match item {
        Item::Run { op, graph } => {
            // The item lies in the core, which changes; so its operation is copied, once.
            let graph = *graph;
            let mut taken = Op::Sync { stripe: 0 };
            put_op(&mut taken, op);
            take_op(array, client, &taken, graph);
        }
        Item::Fail { .. } => unreachable!(),
    }
}

/// Takes the client's operation, which waits and whose buffers are there: it is planned, holds its stripes, leases its
/// buffers and begins. Where the checker refuses its graph, it is replied so in the same event.
pub fn take<L: Layout, D: Disk>(array: &mut Array<L, D>, client: u32)
    requires sound { IsSound L.Layout D.Disk array.old }
    requires stands { Stands L.Layout array.old }
    requires can { CanTake L.Layout array.old client }
    requires there { HasThere L.Layout array.old client }
    requires place { array.old.log.keeps ≡ true
        → length array.old.log.trace < array.old.log.trace_room }
    ensures step { Follows L.Layout D.Disk array.old (event.Take (id_of array.old.clients client))
        array.new }
    ensures sound { IsSound L.Layout D.Disk array.new }
    ensures stands { Stands L.Layout array.new }
    ensures trace { array.new.log
        ≡ noted array.old.log (event.Take (id_of array.old.clients client)) }
    ensures became { IsTaken L.Layout array.old client (event.Take (id_of array.old.clients client))
        array.new }
    ensures stays { (job : Job D) → IsOut D.Disk L.Layout array.old job
        → IsOut D.Disk L.Layout array.new job }
{
    take_item(array, client);
}
