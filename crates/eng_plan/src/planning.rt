//! What an operation is planned to be: its stripes, its task, the units that are missing, and its graph.
ghost use Rattle.std.specs.Prelude.{◌≡◌, ◌<◌, ◌≤◌, ℕ, Some, None, true, length, map, vec_capacity, All};
ghost use Rattle.graph_mean.specs.Task.{HasUnitBelow};
ghost use Rattle.eng_cols.specs.Cols.{IsFor};
ghost use Rattle.eng_cols.specs.Lost.{missing_of as missing_unit};
ghost use Rattle.eng_world.specs.Planning.{kind_of, missing_for, if_seated, unit_or_first, span_count};
ghost use Rattle.eng_plan.specs.Asked.{whole, IsInside, IsOpSplit, mode_by, lease_by};
ghost use Rattle.blk_plain.specs.Plain.{AreSound, is_in_some, spans_of};
ghost use Rattle.lay_core.specs.Touched.{PassesEnd, PassesEndSome, IsSpanSplit, IsJointSplit, stripe_count, stripes_among};

use blk_plain::{Op, Patches, Span, limits};
use eng_cols::Cols;
use graph_mean::{Graph, Kind};
use lay_core::{Layout, SplitFault, StripeMap, split, split_all};
use stripe_lock::Mode;

fn whole<L: Layout>(layout: &L, stripe: u32) -> Span
    ensures { result ≡ whole (L.shape layout.now) stripe }
{
    let count = (layout.width() - layout.checks()) * layout.unit_sectors();
    Span {
        first: u64::from(stripe) * u64::from(count),
        count,
    }
}

// The stripes and parts that a span touches, which is in range and not too long.
fn split_span<L: Layout>(layout: &L, span: Span, map: &mut StripeMap)
    requires some { 1 ≤ span.count }
    requires inside { PassesEnd (L.shape layout.now) span → ⊥ }
    requires short { stripe_count (L.shape layout.now) span ≤ 16 }
    ensures { IsSpanSplit (L.shape layout.now) span map.new }
{
    match split(layout, span, map) {
        Ok(()) => {}
        Err(SplitFault::OutOfRange) => unreachable!(),
        Err(SplitFault::TooLong) => unreachable!(),
    }
}

// The stripes and parts that some spans touch, which are in range and not too long.
fn split_spans<L: Layout>(layout: &L, patches: &Patches, map: &mut StripeMap)
    requires sound { AreSound patches.now }
    requires some { All (λ s. 1 ≤ s.count) (spans_of patches.now) }
    requires inside { PassesEndSome (L.shape layout.now) (spans_of patches.now) → ⊥ }
    requires short { stripes_among (L.shape layout.now) (is_in_some (spans_of patches.now)) ≤ 16 }
    ensures { IsJointSplit (L.shape layout.now) (spans_of patches.now) map.new }
{
    match split_all(layout, patches, map) {
        Ok(()) => {}
        Err(SplitFault::OutOfRange) => unreachable!(),
        Err(SplitFault::TooLong) => unreachable!(),
    }
}

// The stripe, and the parts of its whole span.
fn split_stripe<L: Layout>(layout: &L, stripe: u32, map: &mut StripeMap)
    requires { stripe < (L.shape layout.now).stripes }
    ensures split { IsSpanSplit (L.shape layout.now) (whole (L.shape layout.now) stripe) map.new }
    ensures few { stripe_count (L.shape layout.now) (whole (L.shape layout.now) stripe) ≤ 16 }
{
    split_span(layout, whole(layout, stripe), map);
}

/// The stripes and parts that an operation touches.
pub fn split_op<L: Layout>(layout: &L, op: &Op, map: &mut StripeMap)
    requires { IsInside (L.shape layout.now) op.now }
    ensures { IsOpSplit (L.shape layout.now) op.now map.new }
{
    match op {
        Op::Write { span, .. } => split_span(layout, *span, map),
        Op::Writes { patches } => split_spans(layout, patches, map),
        Op::Read { span } => split_span(layout, *span, map),
        Op::Rebuild { stripe } => split_stripe(layout, *stripe, map),
        Op::Sync { stripe } => split_stripe(layout, *stripe, map),
    }
}

/// How it holds its stripes.
pub fn mode_by(op: &Op) -> Mode
    ensures { result ≡ mode_by op.now }
{
    match op {
        Op::Read { .. } => Mode::Share,
        Op::Write { .. } | Op::Writes { .. } | Op::Rebuild { .. } | Op::Sync { .. } =>
            Mode::Exclude,
    }
}

// Whether the stripe is done on each column, and none is spread. Then no unit of it is missing.
fn is_whole<L: Layout>(layout: &L, cols: &Cols, stripe: u32) -> bool
    requires fit { IsFor (L.shape layout.now) cols.now }
    requires stripe { stripe < cols.now.stripes }
    ensures { result ≡ true
        → missing_unit (L.shape layout.now) cols.now.states stripe ≡ None }
{
    for column in 0..layout.columns() {
        if cols.is_spread(column) || !cols.is_done(column, stripe) {
            return false;
        }
    }
    true
}

// The first unit of the stripe that stands nowhere.
fn find_missing<L: Layout>(layout: &L, cols: &Cols, stripe: u32) -> Option<u8>
    requires fit { IsFor (L.shape layout.now) cols.now }
    requires stripe { stripe < cols.now.stripes }
    ensures { result ≡ missing_unit (L.shape layout.now) cols.now.states stripe }
{
    for unit in 0..layout.width() {
        if cols.spot(layout, stripe, unit).is_none() {
            return Some(unit as u8);
        }
    }
    None
}

// The same. Where can be none, which is most often so, no unit is looked at.
fn missing_unit<L: Layout>(layout: &L, cols: &Cols, stripe: u32) -> Option<u8>
    requires fit { IsFor (L.shape layout.now) cols.now }
    requires stripe { stripe < cols.now.stripes }
    ensures { result ≡ missing_unit (L.shape layout.now) cols.now.states stripe }
{
    if is_whole(layout, cols, stripe) {
        return None;
    }
    find_missing(layout, cols, stripe)
}

// The missing unit, where it has a target.
fn if_seated<L: Layout>(layout: &L, cols: &Cols, stripe: u32, missing: Option<u8>) -> Option<u8>
    requires fit { IsFor (L.shape layout.now) cols.now }
    requires stripe { stripe < cols.now.stripes }
    requires missing { missing ≡ missing_unit (L.shape layout.now) cols.now.states stripe }
    ensures { result ≡ if_seated (L.shape layout.now) cols.now.states stripe missing }
{
    match missing {
        None => None,
        Some(unit) => match cols.target(layout, stripe, u32::from(unit)) {
            None => None,
            Some(_) => Some(unit),
        },
    }
}

// The unit of the stripe that counts as missing for the operation.
fn missing_for<L: Layout>(layout: &L, cols: &Cols, op: &Op, stripe: u32) -> Option<u8>
    requires fit { IsFor (L.shape layout.now) cols.now }
    requires stripe { stripe < cols.now.stripes }
    ensures { result ≡ missing_for (L.shape layout.now) cols.now.states op.now stripe }
{
    let missing = missing_unit(layout, cols, stripe);
    match op {
        Op::Rebuild { .. } => if_seated(layout, cols, stripe, missing),
        Op::Write { .. } | Op::Writes { .. } | Op::Read { .. } | Op::Sync { .. } => missing,
    }
}

/// The units of these stripes that count as missing.
pub fn list_missing<L: Layout>(
    layout: &L,
    cols: &Cols,
    op: &Op,
    stripes: &[u32],
    missing: &mut Vec<Option<u8>>,
)
    requires fit { IsFor (L.shape layout.now) cols.now }
    requires stripes { All (λ s. s < cols.now.stripes) stripes.now }
    requires room { length stripes.now ≤ vec_capacity missing.old }
    ensures items { missing.new.items
        ≡ map (missing_for (L.shape layout.now) cols.now.states op.now) stripes.now }
    ensures room { vec_capacity missing.old ≤ vec_capacity missing.new }
{
    missing.clear();
    for stripe in stripes {
        missing.push_reserved(missing_for(layout, cols, op, *stripe));
    }
}

// The unit of a rebuild, of which this one is missing.
fn kind_for(unit: Option<u8>) -> Kind
    ensures { result ≡ Kind.Rebuild (unit_or_first unit) }
{
    match unit {
        None => Kind::Rebuild { unit: 0 },
        Some(unit) => Kind::Rebuild {
            unit: u32::from(unit),
        },
    }
}

/// What kind of operation it is.
pub fn kind_of<L: Layout>(layout: &L, cols: &Cols, op: &Op) -> Kind
    requires fit { IsFor (L.shape layout.now) cols.now }
    requires op { IsInside (L.shape layout.now) op.now }
    ensures kind { result ≡ kind_of (L.shape layout.now) cols.now.states op.now }
    ensures unit { HasUnitBelow (L.shape layout.now).width result }
{
    match op {
        Op::Write { .. } | Op::Writes { .. } => Kind::Write,
        Op::Read { .. } => Kind::Read,
        Op::Rebuild { stripe } => kind_for(missing_unit(layout, cols, *stripe)),
        Op::Sync { .. } => Kind::Sync,
    }
}

/// How many spans it has.
pub fn span_count(op: &Op) -> u32
    ensures { result ≡ span_count op.now }
{
    match op {
        Op::Writes { patches } => u32::from(patches.used),
        Op::Write { .. } | Op::Read { .. } | Op::Rebuild { .. } | Op::Sync { .. } => 1,
    }
}

/// How many buffers are leased for an operation of so many stripes and spans.
pub fn lease_size<L: Layout>(
    layout: &L,
    stripes: u32,
    spans: u32,
    file: Option<u32>,
    graphs: &[Graph],
) -> u32
    requires few { stripes ≤ 16 }
    requires spans { spans ≤ 255 }
    requires there { (n : ℕ) → file ≡ Some n → n < length graphs.now }
    ensures { result ≡ lease_by (L.shape layout.now) graphs.now stripes spans file }
{
    match file {
        None => {
            let units = layout.width() - layout.checks();
            limits::BUFFERS.min((2 * units + 2) * (stripes + 2 * spans))
        }
        Some(n) => graphs[n as usize].bufs(),
    }
}
