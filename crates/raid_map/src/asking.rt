//! The regions that the items of a script may write in.
ghost use Rattle.std.specs.Prelude.{◌≡◌, ◌<◌, ◌≤◌, ℕ, All, Contains, length, MatchBool};
ghost use Rattle.blk_plain.specs.declared.op.Op.TheVariants as op;
ghost use Rattle.eng_world.specs.declared.item.Item.TheVariants as item;
ghost use Rattle.raid_map.specs.Mapped.{HasWrite};
ghost use Rattle.raid_map.specs.Asking.{node_writes, file_of, FileWrites, MayWriteBy, HasSpans, IsSpanned, Reaches, MayWriteIn, SomeMayWrite, ScriptMayWrite, MarksAlso};

use crate::map::Map;
use blk_plain::{Op, Patches, Span};
use eng_world::Item;
use graph_mean::{Graph, Node};
use item_list::Items;
use lay_core::{Layout, StripeMap, split, split_all};

fn node_writes(node: Node) -> bool
    ensures { result ≡ node_writes node }
{
    match node {
        Node::Wr { .. } => true,
        Node::Rd { .. } | Node::Xor { .. } | Node::Cmt | Node::Trm => false,
    }
}

// Whether one of the graph's nodes is a write.
fn has_write(graph: &Graph) -> bool
    ensures { MatchBool result (HasWrite graph.now.drawn) (HasWrite graph.now.drawn → ⊥) }
{
    for n in 0..graph.nodes() {
        if node_writes(graph.node(n)) {
            return true;
        }
    }
    false
}

// Whether a graph of the file is named that has a write.
fn file_writes(graphs: &[Graph], graph: Option<u32>) -> bool
    ensures { MatchBool result (FileWrites (file_of graphs.now) graph)
        (FileWrites (file_of graphs.now) graph → ⊥) }
{
    match graph {
        None => false,
        Some(n) => {
            if (n as usize) < graphs.len() {
                has_write(&graphs[n as usize])
            } else {
                false
            }
        }
    }
}

// Marks the regions of these stripes.
fn mark_stripes(map: &mut Map, stripes: &[u32])
    requires { All (λ s. s < map.old.stripes) stripes.now }
    ensures { MarksAlso (Contains stripes.now) map.old map.new }
{
    for i in 0..stripes.len() {
        map.mark(stripes[i]);
    }
}

// Marks the regions of the stripes of a span that is in reach.
fn mark_span<L: Layout>(layout: &L, span: Span, room: &mut StripeMap, map: &mut Map)
    requires some { 1 ≤ span.count }
    requires map { map.old.stripes ≡ (L.shape layout.now).stripes }
    ensures { MarksAlso (Reaches (L.shape layout.now) (op.Read span)) map.old map.new }
{
    match split(layout, span, room) {
        Ok(()) => mark_stripes(map, room.stripes()),
        Err(_) => {}
    }
}

// Marks the regions of the stripes of some spans that are in reach.
fn mark_spans<L: Layout>(layout: &L, patches: &Patches, room: &mut StripeMap, map: &mut Map)
    requires spans { HasSpans (op.Writes patches.now) }
    requires map { map.old.stripes ≡ (L.shape layout.now).stripes }
    ensures { MarksAlso (Reaches (L.shape layout.now) (op.Writes patches.now)) map.old map.new }
{
    match split_all(layout, patches, room) {
        Ok(()) => mark_stripes(map, room.stripes()),
        Err(_) => {}
    }
}

// Marks the region of a stripe that is in range.
fn mark_stripe<L: Layout>(layout: &L, stripe: u32, map: &mut Map)
    requires { map.old.stripes ≡ (L.shape layout.now).stripes }
    ensures { MarksAlso (Reaches (L.shape layout.now) (op.Sync stripe)) map.old map.new }
{
    if stripe < layout.stripes() {
        map.mark(stripe);
    }
}

// Marks the regions of the stripes that an operation in reach concerns.
fn mark_op<L: Layout>(layout: &L, op: &Op, room: &mut StripeMap, map: &mut Map)
    requires spans { HasSpans op.now }
    requires map { map.old.stripes ≡ (L.shape layout.now).stripes }
    ensures { MarksAlso (Reaches (L.shape layout.now) op.now) map.old map.new }
{
    match op {
        Op::Write { span, .. } | Op::Read { span } => mark_span(layout, *span, room, map),
        Op::Writes { patches } => mark_spans(layout, patches, room, map),
        Op::Rebuild { stripe } | Op::Sync { stripe } => mark_stripe(layout, *stripe, map),
    }
}

// Whether an operation may write: it is no read, or it names a graph of the file that has a write.
fn may_write(graphs: &[Graph], op: &Op, graph: Option<u32>) -> bool
    ensures { MatchBool result (MayWriteBy (file_of graphs.now) op.now graph)
        (MayWriteBy (file_of graphs.now) op.now graph → ⊥) }
{
    match op {
        Op::Read { .. } => file_writes(graphs, graph),
        Op::Write { .. } | Op::Writes { .. } | Op::Rebuild { .. } | Op::Sync { .. } => true,
    }
}

fn mark_run<L: Layout>(
    layout: &L,
    graphs: &[Graph],
    op: &Op,
    graph: Option<u32>,
    room: &mut StripeMap,
    map: &mut Map,
)
    requires spans { HasSpans op.now }
    requires map { map.old.stripes ≡ (L.shape layout.now).stripes }
    ensures { MarksAlso (MayWriteIn (L.shape layout.now) (file_of graphs.now)
        (item.Run op.now graph)) map.old map.new }
{
    if may_write(graphs, op, graph) {
        mark_op(layout, op, room, map);
    }
}

fn mark_item<L: Layout>(
    layout: &L,
    graphs: &[Graph],
    item: &Item,
    room: &mut StripeMap,
    map: &mut Map,
)
    requires spans { IsSpanned item.now }
    requires map { map.old.stripes ≡ (L.shape layout.now).stripes }
    ensures { MarksAlso (MayWriteIn (L.shape layout.now) (file_of graphs.now) item.now)
        map.old map.new }
{
    match item {
        Item::Run { op, graph } => mark_run(layout, graphs, op, *graph, room, map),
        Item::Fail { .. } => {}
    }
}

fn mark_items<L: Layout>(
    layout: &L,
    graphs: &[Graph],
    items: &Items,
    room: &mut StripeMap,
    map: &mut Map,
)
    requires spans { All IsSpanned items.now.items }
    requires map { map.old.stripes ≡ (L.shape layout.now).stripes }
    ensures { MarksAlso (SomeMayWrite (L.shape layout.now) (file_of graphs.now) items.now.items)
        map.old map.new }
{
    for i in 0..items.len() {
        mark_item(layout, graphs, &items.get(i), room, map);
    }
}

/// Marks the regions in which the items of a script may write: those of the stripes that an operation in reach
/// concerns, unless it is a read. A read by a graph of the file that has a write counts as a write. The map was opened
/// for the layout's number of stripes. The room is that of one operation; no memory is taken.
pub fn mark_script<L: Layout>(
    layout: &L,
    graphs: &[Graph],
    clients: &[Items],
    room: &mut StripeMap,
    map: &mut Map,
)
    requires spans { All (λ items. All IsSpanned items.items) clients.now }
    requires map { map.old.stripes ≡ (L.shape layout.now).stripes }
    ensures { MarksAlso (ScriptMayWrite (L.shape layout.now) (file_of graphs.now) clients.now)
        map.old map.new }
{
    for c in 0..clients.len() {
        mark_items(layout, graphs, &clients[c], room, map);
    }
}
