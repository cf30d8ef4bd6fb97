//! Whether an operation is planned.
ghost use Rattle.std.specs.Prelude.{◌≡◌, ◌<◌, ◌≤◌, MatchResult};
ghost use Rattle.blk_plain.specs.declared.op.Op.TheVariants as op;
ghost use Rattle.eng_plan.specs.Asked.{HasBlocks};
ghost use Rattle.top_plan.specs.Sketched.{IsOutside, IsWithin};

use blk_plain::{Op, Patches, Span, limits};
use lay_core::{Layout, blocks, count_all, some_passes_end, span_stripes};

/// Why an operation isn't planned.
#[derive(Clone, Copy, Debug, PartialEq, Eq)]
pub enum Outside {
    /// A span passes the last block, or there is no such stripe.
    Range,
    /// Else, the spans touch more than 16 stripes together.
    Long,
}

fn judge_span<L: Layout>(layout: &L, span: Span) -> Result<(), Outside>
    requires { 1 ≤ span.count }
    ensures { MatchResult result (λ u. IsWithin (L.shape layout.now) (op.Read span))
        (IsOutside (L.shape layout.now) (op.Read span)) }
{
    let all = blocks(layout);
    let count = u64::from(span.count);
    if span.first > all || count > all - span.first {
        return Err(Outside::Range);
    }
    if span_stripes(layout, span).count > limits::TASK_STRIPES {
        return Err(Outside::Long);
    }
    Ok(())
}

fn judge_stripe<L: Layout>(layout: &L, stripe: u32) -> Result<(), Outside>
    ensures { MatchResult result (λ u. IsWithin (L.shape layout.now) (op.Sync stripe))
        (IsOutside (L.shape layout.now) (op.Sync stripe)) }
{
    if layout.stripes() <= stripe {
        return Err(Outside::Range);
    }
    Ok(())
}

fn judge_spans<L: Layout>(layout: &L, patches: &Patches) -> Result<(), Outside>
    requires { HasBlocks (op.Writes patches.now) }
    ensures { MatchResult result (λ u. IsWithin (L.shape layout.now) (op.Writes patches.now))
        (IsOutside (L.shape layout.now) (op.Writes patches.now)) }
{
    if some_passes_end(blocks(layout), patches) {
        return Err(Outside::Range);
    }
    if count_all(layout, patches) > limits::TASK_STRIPES {
        return Err(Outside::Long);
    }
    Ok(())
}

/// Whether an operation is out of range, or over too many stripes.
pub(crate) fn judge_op<L: Layout>(layout: &L, op: &Op) -> Result<(), Outside>
    requires { HasBlocks op.now }
    ensures { MatchResult result (λ u. IsWithin (L.shape layout.now) op.now)
        (IsOutside (L.shape layout.now) op.now) }
{
    match op {
        Op::Write { span, .. } => judge_span(layout, *span),
        Op::Writes { patches } => judge_spans(layout, patches),
        Op::Read { span } => judge_span(layout, *span),
        Op::Rebuild { stripe } => judge_stripe(layout, *stripe),
        Op::Sync { stripe } => judge_stripe(layout, *stripe),
    }
}
