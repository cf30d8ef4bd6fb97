//! Whether an operation that waits can be taken.
ghost use Rattle.std.specs.Prelude.{◌≡◌, ◌<◌, ◌≤◌, ◌+◌, ◌↔◌, ℕ, Some, None, IsTrue, length, get_or, All};
ghost use Rattle.blk_plain.specs.declared.op.Op.TheVariants as op;
ghost use Rattle.blk_plain.specs.Plain.{is_in, is_in_some, spans_of};
ghost use Rattle.lay_core.specs.Layout.{stripe_of};
ghost use Rattle.lay_core.specs.Touched.{HasBlock, PassesEnd, stripe_count};
ghost use Rattle.eng_clients.specs.declared.stage.Stage.TheVariants as stage;
ghost use Rattle.eng_clients.specs.Desk.{desk_at};
ghost use Rattle.eng_plan.specs.Asked.{IsInside, stripes_by, lease_for};
ghost use Rattle.eng_state.specs.Serves.{Serves, Stands, CanTake};
ghost use Rattle.eng_state.specs.Sound.{IsSound};
ghost use Rattle.eng_state.specs.Doing.{AreFree};
ghost use Rattle.eng_choice.specs.Free.{AreFreeOf, IsFreeCount};

use blk_disk::Disk;
use blk_plain::{Op, Patches, Span};
use eng_clients::Stage;
use eng_plan::{lease_size, span_count};
use eng_state::Array;
use eng_world::Item;
use lay_core::{Layout, SpanStripes, count_all, span_stripes};
use stripe_lock::Mode;

// The stripes of the span of an operation.
fn stripes_of<L: Layout>(layout: &L, span: Span) -> SpanStripes
    requires some { 1 ≤ span.count }
    requires inside { PassesEnd (L.shape layout.now) span → ⊥ }
    requires few { stripe_count (L.shape layout.now) span ≤ 16 }
    ensures first { result.first ≡ stripe_of (L.shape layout.now) span.first }
    ensures count { result.count ≡ stripe_count (L.shape layout.now) span }
    ensures few { result.count ≤ 16 }
    ensures within { result.first + result.count ≤ (L.shape layout.now).stripes }
{
    span_stripes(layout, span)
}

fn count_stripes<L: Layout>(layout: &L, op: &Op) -> u32
    requires { IsInside (L.shape layout.now) op.now }
    ensures count { result ≡ stripes_by (L.shape layout.now) op.now }
    ensures few { result ≤ 16 }
{
    match op {
        Op::Write { span, .. } => stripes_of(layout, *span).count,
        Op::Writes { patches } => count_all(layout, patches),
        Op::Read { span } => stripes_of(layout, *span).count,
        Op::Rebuild { .. } => 1,
        Op::Sync { .. } => 1,
    }
}

fn numbers_from(first: u32) -> [u32; 16]
    requires { first ≤ 1048576 }
    ensures each { (k : ℕ) → k < 16 → get_or result k 0 ≡ first + k }
    ensures long { length result ≡ 16 }
{
    let mut numbers = [0; 16];
    for i in 0..16 {
        numbers[i] = first + i as u32;
    }
    numbers
}

// How many stripes the span touches, where no other holds one of them, unless both read.
fn free_span<L: Layout, D: Disk>(
    array: &Array<L, D>,
    client: u32,
    span: Span,
    mode: Mode,
) -> Option<u32>
    requires some { 1 ≤ span.count }
    requires inside { PassesEnd (L.shape array.now.layout) span → ⊥ }
    requires few { stripe_count (L.shape array.now.layout) span ≤ 16 }
    ensures { IsFreeCount result
        (AreFreeOf array.now.locks client mode (HasBlock (L.shape array.now.layout) (is_in span)))
        (stripe_count (L.shape array.now.layout) span) }
{
    let stripes = stripes_of(&array.layout, span);
    let numbers = numbers_from(stripes.first);
    let free = array
        .locks
        .can_take(client, &numbers[..stripes.count as usize], mode);
    if free { Some(stripes.count) } else { None }
}

// Whether no other holds a stripe of the span, unless both read.
fn is_span_free<L: Layout, D: Disk>(
    array: &Array<L, D>,
    client: u32,
    span: Span,
    mode: Mode,
) -> bool
    requires some { 1 ≤ span.count }
    requires inside { PassesEnd (L.shape array.now.layout) span → ⊥ }
    requires few { stripe_count (L.shape array.now.layout) span ≤ 16 }
    ensures { IsTrue result ↔ AreFreeOf array.now.locks client mode
        (HasBlock (L.shape array.now.layout) (is_in span)) }
{
    free_span(array, client, span, mode).is_some()
}

// Whether no other holds the stripe.
fn is_stripe_free<L: Layout, D: Disk>(array: &Array<L, D>, client: u32, stripe: u32) -> bool
    ensures { IsTrue result ↔ AreFreeOf array.now.locks client Mode.Exclude (λ s. s ≡ stripe) }
{
    array.locks.can_take(client, &[stripe], Mode::Exclude)
}

// Whether no other holds a stripe of one of the spans.
fn are_spans_free<L: Layout, D: Disk>(array: &Array<L, D>, client: u32, patches: &Patches) -> bool
    requires { IsInside (L.shape array.now.layout) (op.Writes patches.now) }
    ensures { IsTrue result ↔ AreFreeOf array.now.locks client Mode.Exclude
        (HasBlock (L.shape array.now.layout) (is_in_some (spans_of patches.now))) }
{
    for i in 0..patches.used as usize {
        if !is_span_free(array, client, patches.list[i].span, Mode::Exclude) {
            return false;
        }
    }
    true
}

// Whether no other holds a stripe of the operation, unless both read.
fn are_free<L: Layout, D: Disk>(array: &Array<L, D>, client: u32, op: &Op) -> bool
    requires { IsInside (L.shape array.now.layout) op.now }
    ensures { IsTrue result ↔ AreFree L.Layout array.now client op.now }
{
    match op {
        Op::Write { span, .. } => is_span_free(array, client, *span, Mode::Exclude),
        Op::Writes { patches } => are_spans_free(array, client, patches),
        Op::Read { span } => is_span_free(array, client, *span, Mode::Share),
        Op::Rebuild { stripe } => is_stripe_free(array, client, *stripe),
        Op::Sync { stripe } => is_stripe_free(array, client, *stripe),
    }
}

// How many stripes the operation touches, where no other holds one of them, unless both read.
fn free_stripes<L: Layout, D: Disk>(array: &Array<L, D>, client: u32, op: &Op) -> Option<u32>
    requires { IsInside (L.shape array.now.layout) op.now }
    ensures { IsFreeCount result (AreFree L.Layout array.now client op.now)
        (stripes_by (L.shape array.now.layout) op.now) }
{
    if are_free(array, client, op) {
        Some(count_stripes(&array.layout, op))
    } else {
        None
    }
}

// The same. Those of one span are looked for once.
fn free_count<L: Layout, D: Disk>(array: &Array<L, D>, client: u32, op: &Op) -> Option<u32>
    requires { IsInside (L.shape array.now.layout) op.now }
    ensures { IsFreeCount result (AreFree L.Layout array.now client op.now)
        (stripes_by (L.shape array.now.layout) op.now) }
{
    match op {
        Op::Write { span, .. } => free_span(array, client, *span, Mode::Exclude),
        Op::Read { span } => free_span(array, client, *span, Mode::Share),
        Op::Writes { .. } | Op::Rebuild { .. } | Op::Sync { .. } => free_stripes(array, client, op),
    }
}

// Whether its buffers are free, where it touches so many stripes.
fn fits<L: Layout, D: Disk>(array: &Array<L, D>, op: &Op, stripes: u32, file: Option<u32>) -> bool
    requires inside { IsInside (L.shape array.now.layout) op.now }
    requires stripes { stripes ≡ stripes_by (L.shape array.now.layout) op.now }
    requires few { stripes ≤ 16 }
    requires there { (n : ℕ) → file ≡ Some n → n < length array.now.graphs.items }
    ensures { IsTrue result ↔ (lease_for (L.shape array.now.layout) array.now.graphs.items op.now
        file ≤ length array.now.pool.free) }
{
    lease_size(&array.layout, stripes, span_count(op), file, &array.graphs) <= array.pool.free()
}

// Whether the client's operation, which is this, can be taken, where it waits.
fn can_take_op<L: Layout, D: Disk>(
    array: &Array<L, D>,
    client: u32,
    op: &Op,
    file: Option<u32>,
) -> bool
    requires not_lost { array.now.lost ≡ None }
    requires waits { (desk_at array.now.clients client).stage ≡ stage.Waits }
    requires serves { Serves array.now.graphs.items (L.shape array.now.layout)
        (desk_at array.now.clients client) op.now file }
    ensures { IsTrue result ↔ CanTake L.Layout array.now client }
{
    match free_count(array, client, op) {
        Some(stripes) => fits(array, op, stripes, file),
        None => false,
    }
}

// Whether the client's operation can be taken, where it waits.
fn can_take_item<L: Layout, D: Disk>(array: &Array<L, D>, client: u32) -> bool
    requires sound { IsSound L.Layout D.Disk array.now }
    requires stands { Stands L.Layout array.now }
    requires not_lost { array.now.lost ≡ None }
    requires waits { (desk_at array.now.clients client).stage ≡ stage.Waits }
    ensures { IsTrue result ↔ CanTake L.Layout array.now client }
{
    let Some(item) = array.clients.item(client) else {
        unreachable!()
    };
    match item {
        Item::Run { op, graph } => can_take_op(array, client, op, *graph),
        Item::Fail { .. } => unreachable!(),
    }
}

// Whether the client's operation waits and can be taken.
pub(crate) fn can_take<L: Layout, D: Disk>(array: &Array<L, D>, client: u32) -> bool
    requires sound { IsSound L.Layout D.Disk array.now }
    requires stands { Stands L.Layout array.now }
    ensures { IsTrue result ↔ CanTake L.Layout array.now client }
{
    array.lost.is_none()
        && array.clients.stage(client) == Stage::Waits
        && can_take_item(array, client)
}
