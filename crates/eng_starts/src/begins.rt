//! A client's item begins.
ghost use Rattle.std.specs.Prelude.{◌≡◌, ◌<◌, ◌≤◌, ◌+◌, Some, MatchResult, length};
ghost use Rattle.blk_plain.specs.declared.op.Op.TheVariants as op;
ghost use Rattle.eng_world.specs.declared.item.Item.{Item};
ghost use Rattle.eng_world.specs.declared.item.Item.TheVariants as item;
ghost use Rattle.eng_world.specs.declared.item.Traced.TheVariants as event;
ghost use Rattle.eng_clients.specs.declared.stage.Stage.TheVariants as stage;
ghost use Rattle.eng_state.specs.declared.array.Array.{Array};
ghost use Rattle.eng_clients.specs.Desk.{desk_at, item_at};
ghost use Rattle.eng_log.specs.Log.{noted};
ghost use Rattle.eng_state.specs.Room.{HasRoom};
ghost use Rattle.eng_state.specs.Sound.{IsSound};
ghost use Rattle.eng_state.specs.Moves.{id_of};
ghost use Rattle.eng_state.specs.Out.{IsOut};
ghost use Rattle.eng_state.specs.Steps.{Follows};
ghost use Rattle.eng_plan.specs.Asked.{HasBlocks};
ghost use Rattle.eng_state.specs.Beginning.{AllAsked, CanBegin, IsRefusal, IsFine, waiting, replied, BegunAs};

use blk_disk::Disk;
use blk_plain::{Op, Patches, Span, limits};
use eng_fails::{fail_column, is_dead};
use eng_job::Job;
use eng_state::Array;
use eng_world::{Item, Reply, Traced};
use lay_core::{Layout, blocks, count_all, some_passes_end, span_stripes};

// Whether a span is refused: it passes the end, or touches more than 16 stripes.
fn judge_span<L: Layout, D: Disk>(array: &Array<L, D>, span: Span) -> Result<(), Reply>
    requires { 1 ≤ span.count }
    ensures read { MatchResult result (λ u. IsFine (L.shape array.now.layout) (op.Read span))
        (IsRefusal (L.shape array.now.layout) (op.Read span)) }
{
    let all = blocks(&array.layout);
    let count = u64::from(span.count);
    if span.first > all || count > all - span.first {
        return Err(Reply::Range);
    }
    if span_stripes(&array.layout, span).count > limits::TASK_STRIPES {
        return Err(Reply::Long);
    }
    Ok(())
}

// Whether a stripe is out of range.
fn judge_stripe<L: Layout, D: Disk>(array: &Array<L, D>, stripe: u32) -> Result<(), Reply>
    ensures { MatchResult result (λ u. IsFine (L.shape array.now.layout) (op.Sync stripe))
        (IsRefusal (L.shape array.now.layout) (op.Sync stripe)) }
{
    if array.layout.stripes() <= stripe {
        return Err(Reply::Range);
    }
    Ok(())
}

// Whether some spans are refused: one passes the end, or they touch more than 16 stripes together.
fn judge_spans<L: Layout, D: Disk>(array: &Array<L, D>, patches: &Patches) -> Result<(), Reply>
    requires { HasBlocks (op.Writes patches.now) }
    ensures { MatchResult result (λ u. IsFine (L.shape array.now.layout) (op.Writes patches.now))
        (IsRefusal (L.shape array.now.layout) (op.Writes patches.now)) }
{
    if some_passes_end(blocks(&array.layout), patches) {
        return Err(Reply::Range);
    }
    if count_all(&array.layout, patches) > limits::TASK_STRIPES {
        return Err(Reply::Long);
    }
    Ok(())
}

// Whether an operation is refused as it begins.
fn judge_op<L: Layout, D: Disk>(array: &Array<L, D>, op: &Op) -> Result<(), Reply>
    requires { HasBlocks op.now }
    ensures { MatchResult result (λ u. IsFine (L.shape array.now.layout) op.now)
        (IsRefusal (L.shape array.now.layout) op.now) }
{
    match op {
        Op::Write { span, .. } => judge_span(array, *span),
        Op::Writes { patches } => judge_spans(array, patches),
        Op::Read { span } => judge_span(array, *span),
        Op::Rebuild { stripe } => judge_stripe(array, *stripe),
        Op::Sync { stripe } => judge_stripe(array, *stripe),
    }
}

fn wait<L: Layout, D: Disk>(array: &mut Array<L, D>, client: u32)
    requires { client < length array.old.clients }
    ensures { array.new ≡ waiting array.old client }
{
    array.clients.wait(client);
}

// The client's item is replied, which has taken nothing.
fn reply_at_once<L: Layout, D: Disk>(array: &mut Array<L, D>, client: u32, reply: Reply)
    requires client { client < length array.old.clients }
    requires left { length (desk_at array.old.clients client).replies
        < length (desk_at array.old.clients client).items }
    ensures { array.new ≡ replied array.old client reply }
{
    array.reply(client, reply);
}

// The client waits with its operation, or it is replied, as that is judged.
fn begin_run<L: Layout, D: Disk>(array: &mut Array<L, D>, client: u32, judged: Result<(), Reply>)
    requires client { client < length array.old.clients }
    requires left { length (desk_at array.old.clients client).replies
        < length (desk_at array.old.clients client).items }
    ensures { MatchResult judged (λ u. array.new ≡ waiting array.old client)
        (λ reply. array.new ≡ replied array.old client reply) }
{
    match judged {
        Ok(()) => wait(array, client),
        Err(reply) => reply_at_once(array, client, reply),
    }
}

// A column is to fail: the item is replied ok.
fn begin_fail<L: Layout, D: Disk>(array: &mut Array<L, D>, client: u32, column: u32)
    requires sound { IsSound L.Layout D.Disk array.old }
    requires client { client < length array.old.clients }
    requires nothing { (desk_at array.old.clients client).stage ≡ stage.Nothing }
    requires left { length (desk_at array.old.clients client).replies
        < length (desk_at array.old.clients client).items }
    requires column { column < length array.old.cols.states }
    ensures { BegunAs L.Layout (item.Fail column) array.old client array.new }
{
    reply_at_once(array, client, Reply::Okay);
    if is_dead(array, column) {
        return;
    }
    fail_column(array, column);
}

fn begin_item<L: Layout, D: Disk>(array: &mut Array<L, D>, client: u32)
    requires sound { IsSound L.Layout D.Disk array.old }
    requires can { CanBegin array.old client }
    requires asked { AllAsked L.Layout array.old }
    ensures { (i : Item) × (item_at (desk_at array.old.clients client) ≡ Some i)
        × BegunAs L.Layout i array.old client array.new }
{
    match array.clients.next_item(client) {
        Item::Run { op, .. } => {
            let judged = judge_op(array, op);
            begin_run(array, client, judged);
        }
        Item::Fail { column } => {
            let column = *column;
            begin_fail(array, client, column);
        }
    }
}

/// Begins the client's next item, where it has no operation. An operation out of range is replied so, and else one
/// over more than 16 stripes; any other waits. The column of a Fail item fails, and the item is replied ok.
pub fn begin<L: Layout, D: Disk>(array: &mut Array<L, D>, client: u32)
    requires sound { IsSound L.Layout D.Disk array.old }
    requires can { CanBegin array.old client }
    requires asked { AllAsked L.Layout array.old }
    requires room { HasRoom array.old.log }
    ensures step { Follows L.Layout D.Disk array.old (event.Begin (id_of array.old.clients client))
        array.new }
    ensures sound { IsSound L.Layout D.Disk array.new }
    ensures trace { array.new.log
        ≡ noted array.old.log (event.Begin (id_of array.old.clients client)) }
    ensures begun { (i : Item)
        × (mid : Array L D) × (item_at (desk_at array.old.clients client) ≡ Some i)
        × BegunAs L.Layout i array.old client mid × (array.new
        ≡ record mid { log = noted mid.log (event.Begin (id_of array.old.clients client)) }) }
    ensures stays { (job : Job D) → IsOut D.Disk L.Layout array.old job
        → IsOut D.Disk L.Layout array.new job }
{
    let id = array.id(client);
    begin_item(array, client);
    array.note(Traced::Begin { id });
}
