//! What leaves with a job.
ghost use Rattle.std.specs.Prelude.{◌≡◌, ◌<◌, ◌≤◌, ◌+◌, ℕ, List, Some, [], false, All, length, get_or, vec_capacity};
ghost use Rattle.buf_pool.specs.Pool.{IsLease, taken};
ghost use Rattle.graph_mean.specs.Graph.{kind_at, vertex_at, buf_at};
ghost use Rattle.eng_clients.specs.declared.stage.Stage.TheVariants as stage;
ghost use Rattle.eng_parts.specs.Shelf.{IsHome, left, seen_at};
ghost use Rattle.eng_clients.specs.Seats.{seat_of, bytes_at, BuffersLeft};
ghost use Rattle.eng_clients.specs.Desk.{Lends, desk_at};
ghost use Rattle.eng_clients.specs.Gathered.{Gathered, AreInLease};
ghost use Rattle.eng_state.specs.Sound.{IsSound};
ghost use Rattle.eng_state.specs.Can.{place_now, CanFire};
ghost use Rattle.eng_state.specs.Moves.{DeviceLeft, IsTaken};
ghost use Rattle.eng_state.specs.Out.{AreSources, IsWork, first_of};

use blk_disk::{DATA_SECTOR, Disk};
use buf_pool::Buffer;
use eng_cols::Spot;
use eng_job::{Source, Work};
use eng_state::Array;
use graph_mean::Node;
use lay_core::Layout;

// What leaves with a read or a write.
pub struct Leaving<D> {
    pub(crate) disk: D,
    pub(crate) first: u64,
    pub(crate) buffer: Buffer,
    pub(crate) count: u32,
}

// A job's work, and its list of sources.
pub struct Packed<D> {
    pub(crate) work: Work<D>,
    pub(crate) sources: Vec<Source>,
}

fn device_leaves<L: Layout, D: Disk>(array: &mut Array<L, D>, device: u32) -> D
    requires { IsHome array.old.devices device }
    ensures was { seen_at array.old.devices device
        ≡ Some (record { out = false; device = result }) }
    ensures now { array.new ≡ record array.old { devices = left array.old.devices device result } }
{
    array.devices.leave(device)
}

#[inline(always)]
fn call_leaves<L: Layout, D: Disk>(
    array: &mut Array<L, D>,
    client: u32,
    buf: u32,
    at: Spot,
) -> Leaving<D>
    requires sound { IsSound L.Layout D.Disk array.old }
    requires runs { (desk_at array.old.clients client).stage ≡ stage.Runs }
    requires buf { buf < length (desk_at array.old.clients client).run.graph.bufs }
    requires device { IsHome array.old.devices at.device }
    requires home { (seat_of array.old.pool (desk_at array.old.clients client) buf).out ≡ false }
    ensures was { seen_at array.old.devices at.device
        ≡ Some (record { out = false; device = result.disk }) }
    ensures bytes { result.buffer
        ≡ bytes_at array.old.pool (desk_at array.old.clients client).lease buf }
    ensures long { length result.buffer ≡ array.old.pool.unit }
    ensures first { result.first
        ≡ first_of (L.shape array.old.layout) (desk_at array.old.clients client).run.graph buf at }
    ensures count { result.count ≡ (buf_at (desk_at array.old.clients client).run.graph buf).count }
    ensures now { array.new ≡ record array.old {
      devices = left array.old.devices at.device result.disk;
      pool = taken array.old.pool (get_or (desk_at array.old.clients client).lease buf 0);
    } }
{
    let range = array.clients.buf(client, buf, &array.graphs);
    let disk = device_leaves(array, at.device);
    let buffer = array.buffer_leaves(client, buf);
    Leaving {
        disk,
        first: DATA_SECTOR + at.row as u64 * array.layout.unit_sectors() as u64 + range.from as u64,
        buffer,
        count: range.count,
    }
}

fn list_leaves<L: Layout, D: Disk>(array: &mut Array<L, D>) -> Vec<Source>
    requires { 0 < array.old.lists }
    ensures less { array.new.lists + 1 ≡ array.old.lists }
    ensures empty { result.items ≡ [] }
    ensures room { 2048 ≤ vec_capacity result }
    ensures now { array.new ≡ record array.old { lists = array.new.lists } }
{
    array.lists.take()
}

// What a node works on leaves.
#[inline(always)]
pub(crate) fn pack<L: Layout, D: Disk>(
    array: &mut Array<L, D>,
    client: u32,
    node: u32,
    at: Option<Spot>,
) -> Packed<D>
    requires sound { IsSound L.Layout D.Disk array.old }
    requires can { CanFire L.Layout array.old client node }
    requires at { at ≡ place_now L.Layout array.old client node }
    ensures work { IsWork D.Disk (L.shape array.old.layout) array.new.devices array.new.pool
        (desk_at array.old.clients client).run.graph (desk_at array.old.clients client).lease at
        (kind_at (desk_at array.old.clients client).run.graph node)
        (vertex_at (desk_at array.old.clients client).run.graph node).sources result.work
        result.sources.items }
    ensures devices { DeviceLeft at array.old.devices array.new.devices }
    ensures pool { BuffersLeft array.old.pool (IsTaken (desk_at array.old.clients client) node)
        array.new.pool }
    ensures lists { array.new.lists + 1 ≡ array.old.lists }
    ensures rest { array.new ≡ record array.old
        { devices = array.new.devices; pool = array.new.pool; lists = array.new.lists } }
    ensures room { 2048 ≤ vec_capacity result.sources }
{
    match array.clients.node(client, node, &array.graphs) {
        Node::Rd { buf, .. } => {
            let Some(at) = at else { unreachable!() };
            let Leaving {
                disk,
                first,
                buffer,
                count,
            } = call_leaves(array, client, buf, at);
            Packed {
                work: Work::Read {
                    disk,
                    first,
                    buffer,
                    count,
                },
                sources: list_leaves(array),
            }
        }
        Node::Wr { buf, .. } => {
            let Some(at) = at else { unreachable!() };
            let Leaving {
                disk,
                first,
                buffer,
                count,
            } = call_leaves(array, client, buf, at);
            Packed {
                work: Work::Write {
                    disk,
                    first,
                    buffer,
                    count,
                },
                sources: list_leaves(array),
            }
        }
        Node::Xor { to } => sum_leaves(array, client, node, to),
        Node::Cmt | Node::Trm => Packed {
            work: Work::Nothing,
            sources: list_leaves(array),
        },
    }
}

// The sources of an exclusive-or leave, each once.
fn sources_leave<L: Layout, D: Disk>(
    array: &mut Array<L, D>,
    client: u32,
    node: u32,
    sources: &mut Vec<Source>,
)
    requires client { client < length array.old.clients }
    requires lends { Lends array.old.graphs.items (desk_at array.old.clients client) }
    requires node { node < length (desk_at array.old.clients client).run.graph.nodes }
    requires lease { IsLease array.old.pool (desk_at array.old.clients client).lease }
    requires named { AreInLease (desk_at array.old.clients client).lease
        (vertex_at (desk_at array.old.clients client).run.graph node).sources }
    requires home { All (λ b. (seat_of array.old.pool (desk_at array.old.clients client) b).out
        ≡ false) (vertex_at (desk_at array.old.clients client).run.graph node).sources }
    requires empty { sources.old.items ≡ [] }
    requires room { 2048 ≤ vec_capacity sources.old }
    ensures gathered { Gathered array.old.pool (desk_at array.old.clients client).lease
        (vertex_at (desk_at array.old.clients client).run.graph node).sources array.new.pool
        sources.new.items }
    ensures rest { array.new ≡ record array.old { pool = array.new.pool } }
    ensures room { 2048 ≤ vec_capacity sources.new }
{
    array
        .clients
        .gather(client, node, &array.graphs, &mut array.pool, sources);
}

// The target and the sources of an exclusive-or leave.
#[inline(always)]
fn sum_leaves<L: Layout, D: Disk>(
    array: &mut Array<L, D>,
    client: u32,
    node: u32,
    to: u32,
) -> Packed<D>
    requires sound { IsSound L.Layout D.Disk array.old }
    requires can { CanFire L.Layout array.old client node }
    requires sum { kind_at (desk_at array.old.clients client).run.graph node ≡ Node.Xor to }
    ensures work { (target : List ℕ)
        × (count : ℕ) × (result.work ≡ Work.Sum target count) × AreSources D.Disk array.new.pool
        (desk_at array.old.clients client).run.graph (desk_at array.old.clients client).lease
        to (vertex_at (desk_at array.old.clients client).run.graph node).sources target
        result.sources.items count }
    ensures pool { BuffersLeft array.old.pool (IsTaken (desk_at array.old.clients client) node)
        array.new.pool }
    ensures lists { array.new.lists + 1 ≡ array.old.lists }
    ensures rest { array.new ≡ record array.old { pool = array.new.pool; lists = array.new.lists } }
    ensures room { 2048 ≤ vec_capacity result.sources }
{
    let range = array.clients.buf(client, to, &array.graphs);
    let mut sources = list_leaves(array);
    sources_leave(array, client, node, &mut sources);
    let target = array.buffer_leaves(client, to);
    Packed {
        work: Work::Sum {
            to: target,
            count: range.count,
        },
        sources,
    }
}
