//! The item that names a graph.
ghost use Rattle.std.specs.Prelude.{◌≡◌, ◌≤◌, ℕ, Some, None, map, option_map, All, IfSome};
ghost use Rattle.blk_plain.specs.Plain.{AreSound, spans_of};
ghost use Rattle.raid_script.specs.Asked.{seen};
ghost use Rattle.raid_script.specs.Steps.{seen_op};
ghost use Rattle.top_bound.specs.Bound.{MayBeAsked};
ghost use Rattle.top_join.specs.Joining.{spans_by};
ghost use Rattle.top_join.specs.Steps.{spans_in_row, spans_in};

use blk_plain::{Op, Patches};
use eng_world::Item;
use item_list::Items;

// The patches of a write that names a graph, if it is the one of this number.
fn patches_if(patches: &Patches, named: Option<u32>, graph: u32) -> Option<Patches>
    requires { MayBeAsked (seen_op (Op.Writes patches.now) named) }
    ensures spans { option_map spans_of result
        ≡ spans_by graph (seen_op (Op.Writes patches.now) named) }
    ensures sound { IfSome result AreSound }
    ensures some { IfSome result (λ p. All (λ s. 1 ≤ s.count) (spans_of p)) }
{
    match named {
        Some(named) => (named == graph).then_some(*patches),
        None => None,
    }
}

// What an item writes by the graph of this number, if it is a write of several spans by it.
fn patches_by(item: &Item, graph: u32) -> Option<Patches>
    requires { MayBeAsked (seen item.now) }
    ensures spans { option_map spans_of result ≡ spans_by graph (seen item.now) }
    ensures sound { IfSome result AreSound }
    ensures some { IfSome result (λ p. All (λ s. 1 ≤ s.count) (spans_of p)) }
{
    match item {
        Item::Run { op, graph: named } => match op {
            Op::Writes { patches } => patches_if(patches, *named, graph),
            Op::Write { .. } | Op::Read { .. } | Op::Sync { .. } | Op::Rebuild { .. } => None,
        },
        Item::Fail { .. } => None,
    }
}

fn patches_in_row(items: &Items, graph: u32) -> Option<Patches>
    requires { All MayBeAsked (map seen items.now.items) }
    ensures spans { option_map spans_of result ≡ spans_in_row graph (map seen items.now.items) }
    ensures sound { IfSome result AreSound }
    ensures some { IfSome result (λ p. All (λ s. 1 ≤ s.count) (spans_of p)) }
{
    for at in 0..items.len() {
        if let Some(patches) = patches_by(&items.get(at), graph) {
            return Some(patches);
        }
    }
    None
}

/// What the first item writes that does it by the graph of this number, if there is one.
pub(crate) fn patches_in(clients: &[Items], graph: u32) -> Option<Patches>
    requires { All (λ items. All MayBeAsked (map seen items.items)) clients.now }
    ensures spans { option_map spans_of result
        ≡ spans_in graph (map (λ items. map seen items.items) clients.now) }
    ensures sound { IfSome result AreSound }
    ensures some { IfSome result (λ p. All (λ s. 1 ≤ s.count) (spans_of p)) }
{
    for items in clients {
        if let Some(patches) = patches_in_row(items, graph) {
            return Some(patches);
        }
    }
    None
}
