//! How many events the items of a script may come to.
ghost use Rattle.std.specs.Prelude.{◌≡◌, ◌≤◌, ◌<◌, ◌+◌, ◌-◌, ◌*◌, length, map, nat_le, nat_lt, All};
ghost use Rattle.blk_plain.specs.Plain.{AreSound, spans_of};
ghost use Rattle.lay_core.specs.Layout.{data_units, blocks_in};
ghost use Rattle.lay_core.specs.Touched.{stripe_count};
ghost use Rattle.raid_script.specs.Asked.{seen};
ghost use Rattle.raid_script.specs.Steps.{seen_patches};
ghost use Rattle.top_bound.specs.Bound.{MayBeAsked, span_nodes, spans_nodes, item_nodes, item_bound, row_sum, trace_sum, graphs_in};
ghost use Rattle.top_bound.specs.Words.{graph_nodes, run_nodes, patches_nodes, rebuilds_sum};

use blk_plain::{Op, Patches, Span, limits};
use eng_world::Item;
use graph_mean::Graph;
use graph_text::Book;
use item_list::Items;
use lay_core::{Layout, blocks, count_all, some_passes_end};

// The most events of items that a trace has room for.
const EVENTS: u128 = limits::EVENTS as u128;

fn passes_end(blocks: u64, span: Span) -> bool
    ensures { result ≡ nat_lt blocks (span.first + span.count) }
{
    span.first > blocks || u64::from(span.count) > blocks - span.first
}

fn count_stripes<L: Layout>(layout: &L, span: Span) -> u64
    requires { span.first + span.count ≤ blocks_in (L.shape layout.now) }
    ensures value { result ≡ stripe_count (L.shape layout.now) span }
    ensures small { result ≤ 4294967297 }
{
    let units = u64::from(layout.width() - layout.checks());
    let sectors = u64::from(layout.unit_sectors());
    let end = span.first + u64::from(span.count);
    let last = end.saturating_sub(1) / sectors / units;
    (last + 1).saturating_sub(span.first / sectors / units)
}

// The most nodes of the library's graph of a span.
#[tactic(auto, unfolding(crate::specs::Bound::span_nodes))]
fn span_nodes<L: Layout>(layout: &L, span: Span) -> u64
    ensures value { result ≡ span_nodes (L.shape layout.now) span }
    ensures small { result ≤ 300000000000 }
{
    if passes_end(blocks(layout), span) {
        return 0;
    }
    let units = u64::from(layout.width() - layout.checks());
    (2 * units + 1) * (count_stripes(layout, span) + 2) + 2
}

// How many spans are in use.
fn count_spans(patches: &Patches) -> u32
    requires { patches.now.used ≤ 8 }
    ensures value { result ≡ length (spans_of patches.now) }
    ensures few { result ≤ 8 }
{
    let used = &patches.list[..patches.used as usize];
    used.len() as u32
}

#[tactic(auto, unfolding(crate::specs::Bound::spans_nodes))]
fn spans_nodes<L: Layout>(layout: &L, patches: &Patches) -> u64
    requires sound { AreSound patches.now }
    requires some { All (λ s. 1 ≤ s.count) (spans_of patches.now) }
    ensures value { result ≡ spans_nodes (L.shape layout.now) (spans_of patches.now) }
    ensures small { result ≤ 300000000000 }
{
    if some_passes_end(blocks(layout), patches) {
        0
    } else {
        let units = u64::from(layout.width() - layout.checks());
        let stripes = u64::from(count_all(layout, patches));
        (2 * units + 1) * (stripes + 2 * u64::from(count_spans(patches))) + 2
    }
}

fn graph_nodes(book: &Book, joined: &[Graph], n: u32) -> u32
    ensures { result ≡ graph_nodes (graphs_in book.now joined.now) n }
{
    if n < book.count() {
        return book.graph(n).nodes();
    }
    let k = (n - book.count()) as usize;
    if k < joined.len() {
        joined[k].nodes()
    } else {
        0
    }
}

// The most nodes of the graph of a write or read.
fn run_nodes<L: Layout>(
    layout: &L,
    book: &Book,
    joined: &[Graph],
    span: Span,
    graph: Option<u32>,
) -> u64
    ensures value { result
        ≡ run_nodes (L.shape layout.now) (graphs_in book.now joined.now) span graph }
    ensures small { result ≤ 300000000000 }
{
    match graph {
        None => span_nodes(layout, span),
        Some(n) => u64::from(graph_nodes(book, joined, n)),
    }
}

fn patches_nodes<L: Layout>(
    layout: &L,
    book: &Book,
    joined: &[Graph],
    patches: &Patches,
    graph: Option<u32>,
) -> u64
    requires sound { AreSound patches.now }
    requires some { All (λ s. 1 ≤ s.count) (spans_of patches.now) }
    ensures value { result ≡ patches_nodes (L.shape layout.now) (graphs_in book.now joined.now)
        (seen_patches patches.now) graph }
    ensures small { result ≤ 300000000000 }
{
    match graph {
        None => spans_nodes(layout, patches),
        Some(n) => u64::from(graph_nodes(book, joined, n)),
    }
}

fn item_nodes<L: Layout>(layout: &L, book: &Book, joined: &[Graph], item: &Item) -> u64
    requires { MayBeAsked (seen item.now) }
    ensures value { result
        ≡ item_nodes (L.shape layout.now) (graphs_in book.now joined.now) (seen item.now) }
    ensures small { result ≤ 300000000000 }
{
    match item {
        Item::Fail { .. } => 0,
        Item::Run { op, graph } => match op {
            Op::Write { span, .. } => run_nodes(layout, book, joined, *span, *graph),
            Op::Writes { patches } => patches_nodes(layout, book, joined, patches, *graph),
            Op::Read { span } => run_nodes(layout, book, joined, *span, *graph),
            Op::Sync { .. } | Op::Rebuild { .. } => u64::from(layout.width()) + 3,
        },
    }
}

fn item_bound(devices: u32, nodes: u64) -> u64
    requires devices { devices ≤ 40 }
    requires nodes { nodes ≤ 300000000000 }
    ensures value { result ≡ item_bound devices nodes }
    ensures small { result ≤ 70368744177664 }
{
    (2 * nodes + 4) * (1 + u64::from(devices))
}

// The most events of a client's items.
fn row_sum<L: Layout>(
    layout: &L,
    book: &Book,
    joined: &[Graph],
    devices: u32,
    items: &Items,
) -> u128
    requires devices { devices ≤ 40 }
    requires asked { All MayBeAsked (map seen items.now.items) }
    ensures value { result ≡ row_sum (L.shape layout.now) (graphs_in book.now joined.now) devices
        (map seen items.now.items) }
    ensures small { result ≤ 70368744177664 * length items.now.items }
    ensures few { length items.now.items ≤ 18446744073709551615 }
{
    let mut total: u128 = 0;
    for at in 0..items.len() {
        let nodes = item_nodes(layout, book, joined, &items.get(at));
        total += u128::from(item_bound(devices, nodes));
    }
    total
}

#[tactic(auto, unfolding(crate::specs::Bound::trace_sum))]
fn trace_sum<L: Layout>(
    layout: &L,
    book: &Book,
    joined: &[Graph],
    devices: u32,
    clients: &[Items],
) -> u128
    requires few { length clients.now ≤ 17 }
    requires devices { devices ≤ 40 }
    requires asked { All (λ items. All MayBeAsked (map seen items.items)) clients.now }
    ensures value { result ≡ trace_sum (L.shape layout.now) (graphs_in book.now joined.now) devices
        (map (λ items. map seen items.items) clients.now) }
    ensures small { result ≤ 41538374868278621028243970633760768 }
{
    let mut total: u128 = 0;
    for items in clients {
        total += row_sum(layout, book, joined, devices, items);
    }
    total
}

fn rebuilds_sum<L: Layout>(layout: &L, devices: u32, rebuilds: u32) -> u128
    requires { devices ≤ 40 }
    ensures value { result ≡ rebuilds_sum (L.shape layout.now) devices rebuilds }
    ensures small { result ≤ 70368744177664 * rebuilds }
{
    u128::from(rebuilds) * u128::from(item_bound(devices, u64::from(layout.width()) + 3))
}

/// Whether a trace has room for all events that these clients' items, and so many rebuilds beside
/// them, may come to: whether the sum of (2 N + 4) (1 + `devices`) over all items and rebuilds is at
/// most 1,048,576.
///
/// N bounds the nodes of the item's graph: (2 d + 1) (s + 2 r) + 2 for a write or read by the
/// library's graph whose r spans, one but for a write of several, touch s stripes of d data units
/// together, none of their blocks past the end; the nodes of the graph that is named, where
/// one is, those of the file before those that are joined of two; k + 3 for a sync or a rebuild, k
/// being the units of a stripe; and 0 for the rest. `devices` counts columns and spares; each may
/// fail in the run, and have an operation planned anew.
pub fn trace_fits<L: Layout>(
    layout: &L,
    book: &Book,
    joined: &[Graph],
    devices: u32,
    clients: &[Items],
    rebuilds: u32,
) -> bool
    requires few { length clients.now ≤ 17 }
    requires devices { devices ≤ 40 }
    requires asked { All (λ items. All MayBeAsked (map seen items.items)) clients.now }
    ensures { result
        ≡ nat_le (trace_sum (L.shape layout.now) (graphs_in book.now joined.now) devices
        (map (λ items. map seen items.items) clients.now)
        + rebuilds_sum (L.shape layout.now) devices rebuilds) 1048576 }
{
    let items = trace_sum(layout, book, joined, devices, clients);
    items + rebuilds_sum(layout, devices, rebuilds) <= EVENTS
}
