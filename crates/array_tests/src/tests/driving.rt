//! Drivers: events are done while there are any. A job that is fired is performed and comes home at once.
ghost use Rattle.std.specs.Prelude.{IfSome, IsTrue};
ghost use Rattle.eng_state.specs.Doing.{CanDo};
ghost use Rattle.eng_state.specs.Out.{CameBack};
ghost use Rattle.eng_array.specs.Fitting.{FitsTrace};
ghost use Rattle.eng_array.specs.Steady.{IsSteady};

use super::opening::opened;
use blk_disk::Disk;
use eng_array::{Closed, Core, Event, Job, Outcome, Setup};
use lay_core::Layout;
use std::alloc::Global;
use std::test::Fail;

// The most events of a run.
const TURNS: u32 = 10000;

pub(super) fn turn<L: Layout, D: Disk>(core: &mut Core<L, D>, event: Event)
    requires steady { IsSteady L.Layout D.Disk core.old.array }
    requires can { CanDo L.Layout core.old.array event }
    ensures { IsSteady L.Layout D.Disk core.new.array }
{
    match event {
        Event::Begin { client } => core.begin(client),
        Event::Take { client } => core.take(client),
        Event::Back { client } => core.back(client),
        Event::Skip { client, node } => core.skip(client, node),
        Event::Fire { client, node } => {
            let mut job = core.fire(client, node);
            let outcome = job.perform();
            core.finish(job, outcome);
        }
    }
}

// Does what can be done, until nothing can.
pub(super) fn drain<L: Layout, D: Disk>(core: &mut Core<L, D>)
    requires { IsSteady L.Layout D.Disk core.old.array }
    ensures { IsSteady L.Layout D.Disk core.new.array }
{
    for _ in 0..TURNS {
        match core.pick() {
            Some(event) => turn(core, event),
            None => return,
        }
    }
}

pub(super) fn rested<L: Layout + Drop, D: Disk + Drop>(
    core: Core<L, D>,
) -> Result<Closed<L, D>, Fail>
    requires { IsSteady L.Layout D.Disk core.array }
{
    if !core.rest() {
        return Err(Fail::from("not at rest"));
    }
    Ok(core.close())
}

// Does all that can be done, and closes the core.
pub(super) fn drained<L: Layout + Drop, D: Disk + Drop>(
    mut core: Core<L, D>,
) -> Result<Closed<L, D>, Fail>
    requires { IsSteady L.Layout D.Disk core.array }
{
    drain(&mut core);
    rested(core)
}

// Opens a core, does all that can be done, and closes it.
pub(super) fn run<L: Layout + Drop, D: Disk + Drop>(
    alloc: Global,
    setup: Setup<L, D>,
) -> Result<Closed<L, D>, Fail>
    requires { FitsTrace L.Layout setup }
{
    let core = opened(alloc, setup)?;
    drained(core)
}

// The node of the client's that can be skipped or fired, the least below 64.
fn node_of<L: Layout, D: Disk>(core: &Core<L, D>, client: u32) -> Option<Event>
    requires { IsSteady L.Layout D.Disk core.now.array }
    ensures { IfSome result (CanDo L.Layout core.now.array) }
{
    for node in 0..64 {
        for event in [Event::Skip { client, node }, Event::Fire { client, node }] {
            if core.can(event) {
                return Some(event);
            }
        }
    }
    None
}

// An event of the client that can be done.
fn event_of<L: Layout, D: Disk>(core: &Core<L, D>, client: u32) -> Option<Event>
    requires { IsSteady L.Layout D.Disk core.now.array }
    ensures { IfSome result (CanDo L.Layout core.now.array) }
{
    for event in [
        Event::Begin { client },
        Event::Take { client },
        Event::Back { client },
    ] {
        if core.can(event) {
            return Some(event);
        }
    }
    node_of(core, client)
}

// Does the client's events until this one can be done; whether it can.
pub(super) fn reaches<L: Layout, D: Disk>(core: &mut Core<L, D>, client: u32, wanted: Event) -> bool
    requires { IsSteady L.Layout D.Disk core.old.array }
    ensures steady { IsSteady L.Layout D.Disk core.new.array }
    ensures can { IsTrue result → CanDo L.Layout core.new.array wanted }
{
    for _ in 0..TURNS {
        if core.can(wanted) {
            return true;
        }
        match event_of(core, client) {
            Some(event) => turn(core, event),
            None => return false,
        }
    }
    false
}

// Does the client's events while there are any.
pub(super) fn serve<L: Layout, D: Disk>(core: &mut Core<L, D>, client: u32)
    requires { IsSteady L.Layout D.Disk core.old.array }
    ensures { IsSteady L.Layout D.Disk core.new.array }
{
    for _ in 0..TURNS {
        match event_of(core, client) {
            Some(event) => turn(core, event),
            None => return,
        }
    }
}

// A job that was performed, and is still out.
#[derive(Drop)]
pub(super) struct Held<D> {
    pub(super) job: Job<D>,
    pub(super) outcome: Outcome,
}

// Fires a node and performs its job, which stays out.
pub(super) fn hold<L: Layout, D: Disk>(core: &mut Core<L, D>, client: u32, node: u32) -> Held<D>
    requires steady { IsSteady L.Layout D.Disk core.old.array }
    requires can { CanDo L.Layout core.old.array (Event.Fire client node) }
    ensures steady { IsSteady L.Layout D.Disk core.new.array }
    ensures back { CameBack D.Disk L.Layout core.new.array result.job result.outcome }
{
    let mut job = core.fire(client, node);
    let outcome = job.perform();
    Held { job, outcome }
}

// The client's next item begins while the job is out.
pub(super) fn begin_beside<L: Layout, D: Disk>(core: &mut Core<L, D>, client: u32, held: &Held<D>)
    requires steady { IsSteady L.Layout D.Disk core.old.array }
    requires can { CanDo L.Layout core.old.array (Event.Begin client) }
    requires back { CameBack D.Disk L.Layout core.old.array held.now.job held.now.outcome }
    ensures steady { IsSteady L.Layout D.Disk core.new.array }
    ensures back { CameBack D.Disk L.Layout core.new.array held.now.job held.now.outcome }
{
    core.begin(client);
}
