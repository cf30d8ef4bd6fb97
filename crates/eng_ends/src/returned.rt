//! What a read returns is copied out.
ghost use Rattle.std.specs.Prelude.{◌≡◌, ◌<◌, ◌≤◌, ◌+◌, ◌-◌, ◌*◌, Some, None, [], length, take, vec_capacity};
ghost use Rattle.blk_plain.specs.declared.op.Span.{Span};
ghost use Rattle.blk_disk.specs.Sectors.{put};
ghost use Rattle.buf_pool.specs.Pool.{AllHome};
ghost use Rattle.lay_core.specs.Layout.{block_of, data_units};
ghost use Rattle.graph_mean.specs.Graph.{kind_at, ret_at};
ghost use Rattle.eng_world.specs.declared.item.Traced.TheVariants as event;
ghost use Rattle.eng_clients.specs.declared.stage.Stage.TheVariants as stage;
ghost use Rattle.eng_state.specs.Room.{HasRoom};
ghost use Rattle.eng_clients.specs.Seats.{bytes_at};
ghost use Rattle.eng_clients.specs.Desk.{desk_at};
ghost use Rattle.eng_log.specs.Log.{noted, with_bytes};
ghost use Rattle.eng_state.specs.Sound.{IsSound, IsOutOf};
ghost use Rattle.eng_state.specs.Moves.{id_of};
ghost use Rattle.eng_state.specs.EndsNode.{EndsNode};
ghost use Rattle.eng_log.specs.Handed.{region_at};
ghost use Rattle.eng_ends.specs.Copied.{AreLaid, Reads, CopiesOne, Copies, sector_for};

use crate::end::terminate;
use blk_disk::Disk;
use blk_plain::{Op, Span};
use eng_job::Source;
use eng_state::Array;
use eng_world::{Item, Reply, Traced};
use graph_mean::Node;
use lay_core::Layout;

fn block_number<L: Layout>(layout: &L, stripe: u32, unit: u32, offset: u32) -> u64
    requires stripe { stripe < (L.shape layout.now).stripes }
    requires unit { unit < data_units (L.shape layout.now) }
    requires offset { offset < (L.shape layout.now).unit_sectors }
    ensures { result ≡ block_of (L.shape layout.now) stripe unit offset }
{
    let data = layout.width() - layout.checks();
    let units = u64::from(stripe) * u64::from(data) + u64::from(unit);
    units * u64::from(layout.unit_sectors()) + u64::from(offset)
}

// The first sectors of a buffer, which is at home, are copied out.
fn copy_front<L: Layout, D: Disk>(
    array: &mut Array<L, D>,
    client: u32,
    buf: u32,
    first: usize,
    count: u32,
)
    requires sound { IsSound L.Layout D.Disk array.old }
    requires runs { (desk_at array.old.clients client).stage ≡ stage.Runs }
    requires buf { buf < length (desk_at array.old.clients client).lease }
    requires home { AllHome array.old.pool (desk_at array.old.clients client).lease }
    requires count { 512 * count ≤ array.old.pool.unit }
    requires fits { 512 * first + 512 * count ≤ length array.old.log.handed.bytes }
    ensures now { array.new ≡ record array.old {
      log = with_bytes array.old.log (put array.old.log.handed.bytes first (take (512 * count)
          (bytes_at array.old.pool (desk_at array.old.clients client).lease buf)));
    } }
    ensures long { length (bytes_at array.old.pool (desk_at array.old.clients client).lease buf)
        ≡ array.old.pool.unit }
{
    let buffer = array.buffer_leaves(client, buf);
    array.log.hand(first, count, buffer.bytes());
    array.buffer_home(client, buf, buffer);
}

// A returned buffer's range is copied to the blocks of its unit.
fn copy_return<L: Layout, D: Disk>(array: &mut Array<L, D>, client: u32, number: u32, span: Span)
    requires sound { IsSound L.Layout D.Disk array.old }
    requires runs { (desk_at array.old.clients client).stage ≡ stage.Runs }
    requires number { number < length (desk_at array.old.clients client).run.graph.rets }
    requires reads { Reads array.old.clients client span }
    requires laid { AreLaid array.old.log.handed array.old.clients }
    requires home { AllHome array.old.pool (desk_at array.old.clients client).lease }
    ensures copied { CopiesOne (desk_at array.old.clients client).run.graph
        (sector_for (L.shape array.old.layout) (desk_at array.old.clients client) span (region_at
        array.old.log.handed client (length (desk_at array.old.clients client).replies)).first)
        (bytes_at array.old.pool (desk_at array.old.clients client).lease)
        (ret_at (desk_at array.old.clients client).run.graph number) array.old.log.handed.bytes
        array.new.log.handed.bytes }
    ensures rest { array.new
        ≡ record array.old { log = with_bytes array.old.log array.new.log.handed.bytes } }
{
    array.log.stands();
    let ret = array.clients.ret(client, number, &array.graphs);
    let range = array.clients.buf(client, ret.buf, &array.graphs);
    let stripe = array.clients.stripe(client, range.stripe);
    let block = block_number(&array.layout, stripe, ret.unit, range.from);
    let region = array.log.region(client, array.clients.served(client));
    let first = region.first as usize + (block - span.first) as usize;
    copy_front(array, client, ret.buf, first, range.count);
}

fn copy_returns<L: Layout, D: Disk>(array: &mut Array<L, D>, client: u32, span: Span)
    requires sound { IsSound L.Layout D.Disk array.old }
    requires runs { (desk_at array.old.clients client).stage ≡ stage.Runs }
    requires reads { Reads array.old.clients client span }
    requires laid { AreLaid array.old.log.handed array.old.clients }
    requires home { AllHome array.old.pool (desk_at array.old.clients client).lease }
    ensures copied { Copies (desk_at array.old.clients client).run.graph
        (sector_for (L.shape array.old.layout) (desk_at array.old.clients client) span (region_at
        array.old.log.handed client (length (desk_at array.old.clients client).replies)).first)
        (bytes_at array.old.pool (desk_at array.old.clients client).lease)
        (length (desk_at array.old.clients client).run.graph.rets) array.old.log.handed.bytes
        array.new.log.handed.bytes }
    ensures rest { array.new
        ≡ record array.old { log = with_bytes array.old.log array.new.log.handed.bytes } }
{
    for number in 0..array.clients.rets(client, &array.graphs) {
        copy_return(array, client, number, span);
    }
}

fn read_span<L: Layout, D: Disk>(array: &Array<L, D>, client: u32) -> Span
    requires client { client < length array.now.clients }
    requires reads { (span : Span) × Reads array.now.clients client span }
    ensures { Reads array.now.clients client result }
{
    match array.clients.item(client) {
        Some(
            Item::Run {
                op: Op::Read { span },
                ..
            },
        ) => *span,
        Some(_) | None => unreachable!(),
    }
}

// The terminator of a read ends good: what it returns is handed out.
pub(crate) fn end_read<L: Layout, D: Disk>(
    array: &mut Array<L, D>,
    client: u32,
    node: u32,
    sources: Vec<Source>,
)
    requires sound { IsSound L.Layout D.Disk array.old }
    requires place { HasRoom array.old.log }
    requires not_lost { array.old.lost ≡ None }
    requires out { IsOutOf (desk_at array.old.clients client) node }
    requires end { kind_at (desk_at array.old.clients client).run.graph node ≡ Node.Trm }
    requires reads { (span : Span) × Reads array.old.clients client span }
    requires laid { AreLaid array.old.log.handed array.old.clients }
    requires empty { sources.items ≡ [] }
    requires room { 2048 ≤ vec_capacity sources }
    ensures home { EndsNode L.Layout D.Disk array.old client node
        (event.Good (id_of array.old.clients client) node) None array.new }
    ensures trace { array.new.log ≡ noted (with_bytes array.old.log array.new.log.handed.bytes)
        (event.Good (id_of array.old.clients client) node) }
{
    let id = array.id(client);
    let span = read_span(array, client);
    array.log.stands();
    copy_returns(array, client, span);
    terminate(array, client, node, sources, Reply::Data);
    array.note(Traced::Good { id, node });
}
