//! Whether spans have a block in common.
ghost use Rattle.std.specs.Prelude.{◌≡◌, ◌≤◌, ◌↔◌, All, AllPairs, IsTrue, take, slice_index_or};
ghost use Rattle.blk_plain.specs.Plain.{used_of, AreApart};

use crate::op::{Patch, Patches};

// Whether no block is in both spans: the later one begins behind the other's end.
fn is_apart(p: &Patch, q: &Patch) -> bool
    requires first { 1 ≤ p.now.span.count }
    requires second { 1 ≤ q.now.span.count }
    ensures { IsTrue result ↔ AreApart p.now q.now }
{
    if p.span.first <= q.span.first {
        q.span.first - p.span.first >= u64::from(p.span.count)
    } else {
        p.span.first - q.span.first >= u64::from(q.span.count)
    }
}

// Whether no block is in the span and in one of those before it.
fn is_apart_from(before: &[Patch], patch: &Patch) -> bool
    requires before { All (λ p. 1 ≤ p.span.count) before.now }
    requires own { 1 ≤ patch.now.span.count }
    ensures { IsTrue result ↔ All (λ p. AreApart p patch.now) before.now }
{
    before.iter().all(|p| is_apart(p, patch))
}

/// Whether no two of the spans in use share a block.
pub fn are_apart(patches: &Patches) -> bool
    requires few { patches.now.used ≤ 8 }
    requires some { All (λ p. 1 ≤ p.span.count) (used_of patches.now) }
    ensures { IsTrue result ↔ AllPairs AreApart (used_of patches.now) }
{
    let used = &patches.list[..patches.used as usize];
    for i in 0..used.len() {
        if !is_apart_from(&used[..i], &used[i]) {
            return false;
        }
    }
    true
}
