//! The spans over which two graphs are joined.
ghost use Rattle.std.specs.Prelude.{◌≡◌, ◌<◌, ◌≤◌, ◌+◌, ◌-◌, ◌∷◌, [], All};
ghost use Rattle.blk_plain.specs.Plain.{AreSound, spans_of};
ghost use Rattle.lay_core.specs.Layout.{blocks_in, stripe_of};
ghost use Rattle.lay_core.specs.Touched.{stripe_count};
ghost use Rattle.top_join.specs.Steps.{is_before, may_join};

use blk_plain::{Patches, Span, limits};
use lay_core::{Layout, blocks, count_all, home, some_passes_end};

/// Whether no span passes the end, and they touch at most 16 stripes together.
pub(crate) fn may_join<L: Layout>(layout: &L, patches: &Patches) -> bool
    requires sound { AreSound patches.now }
    requires some { All (λ s. 1 ≤ s.count) (spans_of patches.now) }
    ensures { result ≡ may_join (L.shape layout.now) (spans_of patches.now) }
{
    if some_passes_end(blocks(layout), patches) {
        return false;
    }
    count_all(layout, patches) <= limits::TASK_STRIPES
}

// The stripe of a span's last block.
fn last_stripe<L: Layout>(layout: &L, span: Span) -> u32
    requires some { 1 ≤ span.count }
    requires within { span.first + span.count ≤ blocks_in (L.shape layout.now) }
    ensures { result ≡ stripe_of (L.shape layout.now) (span.first + span.count - 1) }
{
    home(layout, span.first + u64::from(span.count) - 1).stripe
}

/// Whether the one span's last stripe is below the other's first.
pub(crate) fn is_before<L: Layout>(layout: &L, one: Span, other: Span) -> bool
    requires some { 1 ≤ one.count }
    requires other { 1 ≤ other.count }
    requires within { one.first + one.count ≤ blocks_in (L.shape layout.now) }
    requires too { other.first + other.count ≤ blocks_in (L.shape layout.now) }
    ensures { result ≡ is_before (L.shape layout.now) one other }
{
    last_stripe(layout, one) < home(layout, other.first).stripe
}

/// How many stripes a span touches.
pub(crate) fn stripe_count<L: Layout>(layout: &L, span: Span) -> u32
    requires some { 1 ≤ span.count }
    requires within { span.first + span.count ≤ blocks_in (L.shape layout.now) }
    ensures { result ≡ stripe_count (L.shape layout.now) span }
{
    last_stripe(layout, span) + 1 - home(layout, span.first).stripe
}
