//! One turn: one entry, and what comes of it.
ghost use Rattle.std.specs.Prelude.{◌≡◌, ◌⊎◌, None, Some, IfNone, IfSome};
ghost use Rattle.eng_turn.specs.Turn.{IsOf, IsOutside, opening_of, ticket_of, share_of};
ghost use Rattle.eng_crew.specs.Idle.{HasIdleMark};

use crate::rule::CrewRule;
use crate::turns::{Found, go_far};
use crate::waiting::Pace;
use blk_disk::Disk;
use eng_array::Job;
use eng_turn::{Pass, Turn};
use lay_core::Layout;
use std::sync::Wait;

// A worker that is the only one, or has had the core to itself for long, does the work of so many events in the turn
// itself: nobody waits for the core, since while devices are quick the others sleep.
const ALONE: u32 = 128;

// How much work is to be done in the turn. It is counted as so many turns: those that sleep judge by turns.
fn within<L: Layout + Drop, D: Disk + Drop>(turn: &Turn<CrewRule<L, D>>, pace: &mut Pace) -> u32 {
    if !pace.is_alone(turn.turns()) && !turn.is_single() {
        return 0;
    }
    turn.count(u64::from(ALONE));
    pace.counted(u64::from(ALONE));
    ALONE
}

/// A turn of a pass that has this job, if it has one: that is performed first, beside the others, and comes home in the
/// turn. What was found to do then, the clients tried from the last one on, and the job of a node that was fired and has
/// work.
///
/// `None` where there are workers enough at the core: then nothing was looked for, and the pass has no job any more.
pub(crate) fn turn_by<L: Layout + Drop, D: Disk + Drop, W: Wait>(
    rt: &W,
    turn: &Turn<CrewRule<L, D>>,
    pass: &mut Pass<CrewRule<L, D>>,
    job: Option<Job<D>>,
    last: u32,
    pace: &mut Pace,
) -> Option<(Found, Option<Job<D>>)>
    requires mine { IsOf pass.old turn.now × IsOutside pass.old }
    requires ticket { ticket_of pass.old ≡ job }
    ensures mine { IsOf pass.new turn.now × IsOutside pass.new }
    ensures none { IfNone result (ticket_of pass.new ≡ None) }
    ensures ticket { IfSome result (λ turned. ticket_of pass.new ≡ turned.1) }
    ensures share { share_of pass.new ≡ share_of pass.old }
    ensures idle { IfSome result (λ turned. (turned.0 ≡ Found.Event) ⊎
        ((turned.1 ≡ None) × HasIdleMark L.Layout D.Disk (opening_of turn.now) pass.new)) }
{
    match job {
        None => turn_without(rt, turn, pass, last, pace),
        Some(job) => turn_with(rt, turn, pass, job, last, pace),
    }
}

// The turn of a pass without a job, unless another has the core.
fn turn_without<L: Layout + Drop, D: Disk + Drop, W: Wait>(
    rt: &W,
    turn: &Turn<CrewRule<L, D>>,
    pass: &mut Pass<CrewRule<L, D>>,
    last: u32,
    pace: &mut Pace,
) -> Option<(Found, Option<Job<D>>)>
    requires mine { IsOf pass.old turn.now × IsOutside pass.old }
    requires ticket { ticket_of pass.old ≡ None }
    ensures mine { IsOf pass.new turn.now × IsOutside pass.new }
    ensures none { IfNone result (ticket_of pass.new ≡ None) }
    ensures ticket { IfSome result (λ turned. ticket_of pass.new ≡ turned.1) }
    ensures share { share_of pass.new ≡ share_of pass.old }
    ensures idle { IfSome result (λ turned. (turned.0 ≡ Found.Event) ⊎
        ((turned.1 ≡ None) × HasIdleMark L.Layout D.Disk (opening_of turn.now) pass.new)) }
{
    if turn.is_taken() {
        return None;
    }
    let mut core = turn.enter(rt, pass);
    let (found, ticket) = go_far(&mut *core, last, within(turn, pace));
    turn.leave(pass, core, &ticket);
    Some((found, ticket))
}

// The turn of a pass with a job. It fires nothing where it came to the core too often while others were there: their turns
// are as long as what is done outside, and each would only wait for the others.
fn turn_with<L: Layout + Drop, D: Disk + Drop, W: Wait>(
    rt: &W,
    turn: &Turn<CrewRule<L, D>>,
    pass: &mut Pass<CrewRule<L, D>>,
    mut job: Job<D>,
    last: u32,
    pace: &mut Pace,
) -> Option<(Found, Option<Job<D>>)>
    requires mine { IsOf pass.old turn.now × IsOutside pass.old }
    requires ticket { ticket_of pass.old ≡ Some job }
    ensures mine { IsOf pass.new turn.now × IsOutside pass.new }
    ensures none { IfNone result (ticket_of pass.new ≡ None) }
    ensures ticket { IfSome result (λ turned. ticket_of pass.new ≡ turned.1) }
    ensures share { share_of pass.new ≡ share_of pass.old }
    ensures idle { IfSome result (λ turned. (turned.0 ≡ Found.Event) ⊎
        ((turned.1 ≡ None) × HasIdleMark L.Layout D.Disk (opening_of turn.now) pass.new)) }
{
    let outcome = job.perform();
    let crowded = pace.is_crowded(turn.is_taken());
    let mut core = turn.enter(rt, pass);
    core.finish(job, outcome);
    if crowded {
        turn.leave(pass, core, &None);
        return None;
    }
    let (found, ticket) = go_far(&mut *core, last, within(turn, pace));
    turn.leave(pass, core, &ticket);
    Some((found, ticket))
}

/// How many items have a reply. A turn in which nothing is done, of a pass that has this job, if it has one.
pub(crate) fn look<L: Layout + Drop, D: Disk + Drop, W: Wait>(
    rt: &W,
    turn: &Turn<CrewRule<L, D>>,
    pass: &mut Pass<CrewRule<L, D>>,
    job: &Option<Job<D>>,
) -> u64
    requires mine { IsOf pass.old turn.now × IsOutside pass.old }
    requires ticket { ticket_of pass.old ≡ job.now }
    ensures mine { IsOf pass.new turn.now × IsOutside pass.new }
    ensures ticket { ticket_of pass.new ≡ job.now }
    ensures share { share_of pass.new ≡ share_of pass.old }
{
    let core = turn.enter(rt, pass);
    let replied = core.replied();
    turn.leave(pass, core, job);
    replied
}
