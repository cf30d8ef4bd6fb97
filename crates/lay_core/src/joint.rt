//! Several spans, split together into stripes and parts.
ghost use Rattle.std.specs.Prelude.{◌≡◌, ◌<◌, ◌≤◌, ◌+◌, ◌-◌, ◌↔◌, ℕ, All, Any, Contains, IsErrOf, OnOk, OnErr, IsTrue, Some, false, true, length, vec_capacity};
ghost use Rattle.blk_plain.specs.Plain.{AreSound, is_in_some, spans_of};
ghost use Rattle.lay_core.specs.Layout.{blocks_in, offset_of, stripe_of};
ghost use Rattle.lay_core.specs.Touched.{PassesEndSome, IsJointSplit, nothing, stripes_among};
ghost use Rattle.lay_core.specs.Joined.{nearer, IsNext, with_stripe, ends_with, with_part, meets, longer, added, began, IsWalked};

use crate::block_numbers::{blocks, data_units, home};
use crate::layout::Layout;
use crate::place::Part;
use crate::spans::{SplitFault, passes_end};
use crate::stripe_map::StripeMap;
use blk_plain::{Patches, Span, limits};

// The nearer of two spans that don't begin before this block.
fn nearer(next: Option<Span>, span: Span, at: u64) -> Option<Span>
    ensures { result ≡ nearer at next span }
{
    if span.first < at {
        return next;
    }
    match next {
        None => Some(span),
        Some(other) => {
            if other.first <= span.first {
                next
            } else {
                Some(span)
            }
        }
    }
}

// The span that begins next, of those that don't begin before this block.
fn next_span(patches: &Patches, at: u64) -> Option<Span>
    requires { patches.now.used ≤ 8 }
    ensures { IsNext at (spans_of patches.now) result }
{
    let mut next = None;
    for i in 0..patches.used as usize {
        next = nearer(next, patches.list[i].span, at);
    }
    next
}

/// Whether one of the spans passes the end of so many blocks.
pub fn some_passes_end(blocks: u64, patches: &Patches) -> bool
    requires { patches.now.used ≤ 8 }
    ensures { IsTrue result ↔ Any (λ s. blocks < s.first + s.count) (spans_of patches.now) }
{
    for i in 0..patches.used as usize {
        if passes_end(blocks, patches.list[i].span) {
            return true;
        }
    }
    false
}

// Puts a stripe at the end of the list, where it isn't there already.
fn add_stripe(stripes: &mut Vec<u32>, stripe: u32) -> Result<(), SplitFault>
    requires room { 16 ≤ vec_capacity stripes.old }
    requires few { length stripes.old.items ≤ 16 }
    ensures items { OnOk result (stripes.new.items ≡ with_stripe stripes.old.items stripe) }
    ensures few { OnOk result (length stripes.new.items ≤ 16) }
    ensures full { OnErr result
        ((length stripes.old.items ≡ 16) × (ends_with stripes.old.items stripe ≡ false)) }
    ensures room { vec_capacity stripes.old ≤ vec_capacity stripes.new }
{
    let len = stripes.len();
    if len > 0 && stripes[len - 1] == stripe {
        return Ok(());
    }
    if len == limits::TASK_STRIPES as usize {
        return Err(SplitFault::TooLong);
    }
    stripes.push_reserved(stripe);
    Ok(())
}

// Whether the one part ends where the other begins.
fn meets(a: &Part, b: &Part) -> bool
    requires { a.now.from + a.now.count ≤ 128 }
    ensures { result ≡ meets a.now b.now }
{
    a.stripe == b.stripe && a.unit == b.unit && a.from + a.count == b.from
}

// The part with so many sectors more.
fn longer(part: &mut Part, count: u32)
    requires { part.old.count + count ≤ 128 }
    ensures { part.new ≡ longer part.old count }
{
    part.count += count;
}

// Puts a part at the end of the list; it goes on with the last one where that meets it.
fn add_part(parts: &mut Vec<Part>, part: Part)
    requires room { length parts.old.items < vec_capacity parts.old }
    requires fit { All (λ p. p.from + p.count ≤ 128) parts.old.items }
    requires own { part.from + part.count ≤ 128 }
    ensures items { parts.new.items ≡ with_part parts.old.items part }
    ensures room { vec_capacity parts.old ≤ vec_capacity parts.new }
{
    let len = parts.len();
    if len > 0 && meets(&parts[len - 1], &part) {
        longer(&mut parts[len - 1], part.count);
        return;
    }
    parts.push_reserved(part);
}

// Puts the blocks from `low` to `high - 1`, which are of one data unit, into the map of those before them.
fn add_blocks<L: Layout>(
    layout: &L,
    map: &mut StripeMap,
    low: u64,
    high: u64,
) -> Result<(), SplitFault>
    requires some { low < high }
    requires inside { high ≤ blocks_in (L.shape layout.now) }
    requires one { offset_of (L.shape layout.now) low + (high - low)
        ≤ (L.shape layout.now).unit_sectors }
    requires few { length map.old.stripes ≤ 16 }
    requires room { length map.old.parts < 520 }
    requires fit { All (λ p. p.from + p.count ≤ 128) map.old.parts }
    ensures added { OnOk result (map.new ≡ added (L.shape layout.now) map.old low high) }
    ensures few { OnOk result (length map.new.stripes ≤ 16) }
    ensures full { OnErr result ((length map.old.stripes ≡ 16)
        × (ends_with map.old.stripes (stripe_of (L.shape layout.now) low) ≡ false)) }
{
    let sectors = u64::from(layout.unit_sectors());
    let units = u64::from(data_units(layout));
    let stripe = (low / sectors / units) as u32;
    match add_stripe(&mut map.stripes, stripe) {
        Ok(()) => {}
        Err(fault) => return Err(fault),
    }
    let part = Part {
        stripe: (map.stripes.len() - 1) as u32,
        unit: (low / sectors % units) as u32,
        from: (low % sectors) as u32,
        count: (high - low) as u32,
    };
    add_part(&mut map.parts, part);
    Ok(())
}

// Puts the blocks of a span, one of these, into the map of those before it.
fn add_span<L: Layout>(
    layout: &L,
    map: &mut StripeMap,
    patches: &Patches,
    span: Span,
) -> Result<(), SplitFault>
    requires some { 1 ≤ span.count }
    requires inside { span.first + span.count ≤ blocks_in (L.shape layout.now) }
    requires own { Contains (spans_of patches.now) span }
    requires walked { IsWalked (L.shape layout.now) (is_in_some (spans_of patches.now)) map.old
        span.first (began (spans_of patches.now) span.first) }
    requires less { began (spans_of patches.now) span.first ≤ 7 }
    ensures walked { OnOk result (IsWalked (L.shape layout.now) (is_in_some (spans_of patches.now))
        map.new (span.first + span.count) (began (spans_of patches.now) span.first + 1)) }
    ensures full { OnErr result
        (16 < stripes_among (L.shape layout.now) (is_in_some (spans_of patches.now))) }
{
    let _ = patches;
    let sectors = u64::from(layout.unit_sectors());
    let end = span.first + u64::from(span.count);
    let mut low = span.first;
    while low < end {
        let high = end.min((low / sectors + 1) * sectors);
        match add_blocks(layout, map, low, high) {
            Ok(()) => {}
            Err(fault) => return Err(fault),
        }
        low = high;
    }
    Ok(())
}

// Puts the blocks of all spans into the empty map.
fn add_all<L: Layout>(layout: &L, map: &mut StripeMap, patches: &Patches) -> Result<(), SplitFault>
    requires sound { AreSound patches.now }
    requires some { All (λ s. 1 ≤ s.count) (spans_of patches.now) }
    requires inside { PassesEndSome (L.shape layout.now) (spans_of patches.now) → ⊥ }
    requires empty { map.old ≡ nothing }
    ensures split { OnOk result (IsJointSplit (L.shape layout.now) (spans_of patches.now) map.new) }
    ensures full { OnErr result
        (16 < stripes_among (L.shape layout.now) (is_in_some (spans_of patches.now))) }
{
    let mut at = 0;
    while let Some(span) = next_span(patches, at) {
        match add_span(layout, map, patches, span) {
            Ok(()) => {}
            Err(fault) => return Err(fault),
        }
        at = span.first + u64::from(span.count);
    }
    Ok(())
}

/// Puts the stripes that some spans touch into the map, and the parts of each of their data units that lie in one of
/// the spans. Spans that meet within a unit give one part there.
///
/// After a refusal the map is empty. No memory is taken, and the time is in proportion to the touched units.
///
/// # Errors
///
/// - `OutOfRange` where one of the spans passes the end of the blocks;
/// - `TooLong` where none does, and they touch more than 16 stripes together.
pub fn split_all<L: Layout>(
    layout: &L,
    patches: &Patches,
    map: &mut StripeMap,
) -> Result<(), SplitFault>
    requires sound { AreSound patches.now }
    requires some { All (λ s. 1 ≤ s.count) (spans_of patches.now) }
    ensures split { OnOk result (IsJointSplit (L.shape layout.now) (spans_of patches.now) map.new) }
    ensures out_of_range { IsErrOf result SplitFault.OutOfRange ↔ PassesEndSome (L.shape layout.now)
        (spans_of patches.now) }
    ensures too_long { IsErrOf
        result SplitFault.TooLong ↔ ((PassesEndSome (L.shape layout.now) (spans_of patches.now) → ⊥)
        × (16 < stripes_among (L.shape layout.now) (is_in_some (spans_of patches.now)))) }
    ensures refused { OnErr result (map.new ≡ nothing) }
{
    map.clear();
    if some_passes_end(blocks(layout), patches) {
        return Err(SplitFault::OutOfRange);
    }
    match add_all(layout, map, patches) {
        Ok(()) => Ok(()),
        Err(_) => {
            map.clear();
            Err(SplitFault::TooLong)
        }
    }
}

/// How many stripes some spans touch together, which may be more than a map has room for.
pub fn count_all<L: Layout>(layout: &L, patches: &Patches) -> u32
    requires sound { AreSound patches.now }
    requires some { All (λ s. 1 ≤ s.count) (spans_of patches.now) }
    requires inside { PassesEndSome (L.shape layout.now) (spans_of patches.now) → ⊥ }
    ensures { result ≡ stripes_among (L.shape layout.now) (is_in_some (spans_of patches.now)) }
{
    let mut at = 0;
    let mut next = 0;
    let mut count = 0;
    while let Some(span) = next_span(patches, at) {
        let first = home(layout, span.first).stripe.max(next);
        at = span.first + u64::from(span.count);
        next = home(layout, at - 1).stripe + 1;
        count += next - first;
    }
    count
}
