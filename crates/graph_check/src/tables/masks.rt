//! Which nodes are followed by those of a block of 64 nodes, with one bit for each of these.

ghost use Rattle.std.specs.Prelude.{◌≡◌, ℕ, ◌<◌, ◌≤◌, ◌+◌, ◌^◌, ◌↔◌, ◌⊎◌, All, Contains, length};
ghost use Rattle.std.specs.Int.{bit_at};
ghost use Rattle.graph_check.specs.Following.{IsDescending, IsSeen, IsBlock};

use crate::tables::fills::fill_first;
use graph_mean::Graph;

// The nodes of a block.
const BLOCK: u32 = 64;

fn bit(j: u32) -> u64
    requires { j < 64 }
    ensures { result ≡ 2 ^ j }
{
    1 << j
}

// Sets the bits of a mask at each node of the list.
fn mark_each(antes: &[u32], mask: u64, masks: &mut [u64])
    requires { All (λ a. a < length masks.old) antes.now }
    ensures kept { (j k : ℕ) → IsSeen masks.old j k → IsSeen masks.new j k }
    ensures listed { (j k : ℕ) → Contains antes.now k → bit_at mask j ≡ 1 → IsSeen masks.new j k }
    ensures only { (j k : ℕ) → IsSeen masks.new j k
        → IsSeen masks.old j k ⊎ ((bit_at mask j ≡ 1) × Contains antes.now k) }
{
    for a in antes {
        masks[*a as usize] |= mask;
    }
}

// Those of the block's nodes that are this node or follow it.
fn mask_of(base: u32, n: u32, masks: &[u64]) -> u64
    requires n { n < length masks.now }
    requires block { n < base + 64 }
    ensures { (j : ℕ) → (bit_at result j ≡ 1) ↔ ((n ≡ base + j) ⊎ IsSeen masks.now j n) }
{
    let mask = masks[n as usize];
    if n >= base {
        mask | bit(n - base)
    } else {
        mask
    }
}

/// Notes at each node which nodes of the block from this one on follow it.
pub(crate) fn mark_block(graph: &Graph, base: u32, masks: &mut [u64])
    requires order { IsDescending graph.now.drawn }
    requires few { length graph.now.drawn.nodes ≤ 2048 }
    requires long { length graph.now.drawn.nodes ≤ length masks.old }
    requires base { base < length graph.now.drawn.nodes }
    ensures { IsBlock graph.now.drawn base masks.new }
{
    let end = graph.nodes().min(base + BLOCK);
    fill_first(masks, graph.nodes() as usize, 0);
    for c in (0..end).rev() {
        let mask = mask_of(base, c, masks);
        mark_each(graph.antes(c), mask, masks);
    }
}
