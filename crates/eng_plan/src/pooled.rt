//! How many buffers an item can lease, and all items of a client.
ghost use Rattle.std.specs.Prelude.{◌≡◌, ◌≤◌, ◌+◌, ◌-◌, ◌/◌, ℕ, Some, None, List, sum_by, slice_get};
ghost use Rattle.blk_plain.specs.Plain.{spans_of};
ghost use Rattle.lay_core.specs.Layout.{Shape, IsLayout};
ghost use Rattle.graph_mean.specs.Graph.{Held};
ghost use Rattle.eng_world.specs.declared.item.Item.{Item as AnyItem};
ghost use Rattle.eng_world.specs.declared.item.Item.TheVariants as item;
ghost use Rattle.blk_plain.specs.declared.op.Op.TheVariants as op;
ghost use Rattle.eng_world.specs.Planning.{lease_of};
ghost use Rattle.eng_plan.specs.Pooled.{stripe_blocks, most_of_span, most_of_spans, most_stripes, most_spans, most_leased, item_leases, row_leases, own_leases, LeasesAtMost};

use blk_plain::{Op, Patches, Span, limits};
use eng_world::Item;
use graph_mean::Graph;
use item_list::Items;
use lay_core::Layout;

fn stripe_blocks<L: Layout>(layout: &L) -> u32
    ensures blocks { result ≡ stripe_blocks (L.shape layout.now) }
    ensures some { 1 ≤ result }
    ensures few { result ≤ 4096 }
{
    (layout.width() - layout.checks()) * layout.unit_sectors()
}

// How many stripes so many blocks take from the first block of one on. That they take one is told without a division.
fn stripes_over(reach: u64, blocks: u64) -> u64
    requires reach { reach ≤ 4294971392 }
    requires some { 1 ≤ blocks }
    requires few { blocks ≤ 4096 }
    ensures { result ≡ (reach + blocks - 1) / blocks }
{
    if 1 <= reach && reach <= blocks {
        return 1;
    }
    (reach + blocks - 1) / blocks
}

fn most_of_span<L: Layout>(layout: &L, span: Span) -> u32
    ensures most { result ≡ most_of_span (L.shape layout.now) span }
    ensures few { result ≤ 16 }
{
    let blocks = u64::from(stripe_blocks(layout));
    let stripes = stripes_over(span.first % blocks + u64::from(span.count), blocks);
    stripes.min(u64::from(limits::TASK_STRIPES)) as u32
}

// The sum of those of the spans.
fn sum_of_spans<L: Layout>(layout: &L, patches: &Patches) -> u32
    requires { patches.now.used ≤ 8 }
    ensures { result ≡ sum_by (most_of_span (L.shape layout.now)) (spans_of patches.now) }
{
    let mut stripes = 0;
    for i in 0..patches.used as usize {
        stripes += most_of_span(layout, patches.list[i].span);
    }
    stripes
}

fn most_of_spans<L: Layout>(layout: &L, patches: &Patches) -> u32
    ensures most { result ≡ most_of_spans (L.shape layout.now) patches.now }
    ensures few { result ≤ 16 }
{
    if u32::from(patches.used) > limits::SPANS {
        return limits::TASK_STRIPES;
    }
    sum_of_spans(layout, patches).min(limits::TASK_STRIPES)
}

fn most_stripes<L: Layout>(layout: &L, op: &Op) -> u32
    ensures most { result ≡ most_stripes (L.shape layout.now) op.now }
    ensures few { result ≤ 16 }
{
    match op {
        Op::Write { span, .. } | Op::Read { span } => most_of_span(layout, *span),
        Op::Writes { patches } => most_of_spans(layout, patches),
        Op::Rebuild { .. } | Op::Sync { .. } => 1,
    }
}

fn most_spans(op: &Op) -> u32
    ensures most { result ≡ most_spans op.now }
    ensures few { result ≤ 8 }
{
    match op {
        Op::Writes { patches } => u32::from(patches.used).min(limits::SPANS),
        Op::Write { .. } | Op::Read { .. } | Op::Rebuild { .. } | Op::Sync { .. } => 1,
    }
}

// The buffers of a graph of the library over so many stripes, for so many spans.
fn most_drawn<L: Layout>(layout: &L, stripes: u32, spans: u32) -> u32
    requires stripes { stripes ≤ 16 }
    requires spans { spans ≤ 8 }
    ensures { result ≡ lease_of (L.shape layout.now) stripes spans }
{
    let units = layout.width() - layout.checks();
    limits::BUFFERS.min((2 * units + 2) * (stripes + 2 * spans))
}

fn most_leased<L: Layout>(layout: &L, op: &Op, file: Option<u32>, graphs: &[Graph]) -> u32
    ensures { result ≡ most_leased (L.shape layout.now) graphs.now op.now file }
{
    match file {
        None => most_drawn(layout, most_stripes(layout, op), most_spans(op)),
        Some(n) => match graphs.get(n as usize) {
            None => 0,
            Some(graph) => graph.bufs(),
        },
    }
}

fn item_leases<L: Layout>(layout: &L, item: &Item, graphs: &[Graph]) -> u32
    ensures { result ≡ item_leases (L.shape layout.now) graphs.now (Some item.now) }
{
    match item {
        Item::Run { op, graph } => most_leased(layout, op, *graph, graphs),
        Item::Fail { .. } => 0,
    }
}

/// The most buffers that one of the items leases. A client leases for one at a time.
pub fn row_leases<L: Layout>(layout: &L, items: &Items, graphs: &[Graph]) -> u32
    ensures { result ≡ row_leases (L.shape layout.now) graphs.now items.now.items }
{
    let mut most = 0;
    let mut item = Item::Fail { column: 0 };
    for i in 0..items.len() {
        items.copy_to(i, &mut item);
        most = most.max(item_leases(layout, &item, graphs));
    }
    most
}

/// The buffers that the rebuild of a stripe leases.
pub fn own_leases<L: Layout>(layout: &L) -> u32
    ensures { result ≡ own_leases (L.shape layout.now) }
{
    most_drawn(layout, 1, 1)
}

/// An item that is served leases no more than is told of it, nor than is told of all items of its client;
/// nor does a rebuild.
pub fn leases_are_no_greater()
    ensures item { (y : Shape) → IsLayout y → (graphs : List Held) (i : AnyItem)
        → LeasesAtMost y graphs (item_leases y graphs (Some i)) i }
    ensures row { (y : Shape) → IsLayout y → (graphs : List Held) (items : List AnyItem) (n : ℕ)
        (i : AnyItem) → slice_get items n ≡ Some i
        → LeasesAtMost y graphs (row_leases y graphs items) i }
    ensures own { (y : Shape) → IsLayout y → (graphs : List Held) (stripe : ℕ)
        → LeasesAtMost y graphs (own_leases y) (item.Run (op.Rebuild stripe) None) }
{}
