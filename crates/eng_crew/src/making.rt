//! An event is made, with the end of the node that it fires.
ghost use Rattle.std.specs.Prelude.{◌≡◌, None, false, true};
ghost use Rattle.eng_array.specs.Progress.{Falls};
ghost use Rattle.eng_array.specs.Steady.{IsSteady};
ghost use Rattle.eng_choice.specs.Picked.{place_in};
ghost use Rattle.eng_state.specs.Can.{place_now, CanFire};
ghost use Rattle.eng_state.specs.Doing.{CanDo};
ghost use Rattle.eng_state.specs.Out.{IsOut};
ghost use Rattle.eng_crew.specs.Idle.{IsIdle};
ghost use Rattle.eng_crew.specs.Laws.{TurnsTo};
ghost use Rattle.eng_crew.specs.Made.{IsMadeSinceFiring, IsMadeSinceLook};

use blk_disk::Disk;
use eng_array::{Chosen, Core, Event, Job, Spot};
use eng_job::Work;
use lay_core::Layout;

// What comes after a look, which chose the event and told where the unit of its node stands, is said from before it on.

// The event and, if it fires a node, the end of its job.
fn make<L: Layout, D: Disk>(core: &mut Core<L, D>, event: Event, at: Option<Spot>)
    requires steady { IsSteady L.Layout D.Disk core.old.array }
    requires can { CanDo L.Layout core.old.array event }
    requires at { at ≡ place_in L.Layout core.old.array event }
    ensures { IsMadeSinceLook L.Layout D.Disk core.old core.new None }
{
    match event {
        Event::Begin { client } => core.begin(client),
        Event::Take { client } => core.take(client),
        Event::Fire { client, node } => fire_through(core, client, node, at),
        Event::Skip { client, node } => core.skip(client, node),
        Event::Back { client } => core.back(client),
    }
}

// A job that is out is performed, and comes home at once. It is long: handed on as an argument it stays where it is, and a
// variable for it would be a copy.
fn bring_home<L: Layout, D: Disk>(mut job: Job<D>, core: &mut Core<L, D>)
    requires steady { IsSteady L.Layout D.Disk core.old.array }
    requires out { IsOut D.Disk L.Layout core.old.array job }
    ensures { IsMadeSinceFiring L.Layout D.Disk job core.old core.new }
{
    let outcome = job.perform();
    core.finish(job, outcome);
}

// A node is fired, and its job is performed and comes home at once.
fn fire_through<L: Layout, D: Disk>(core: &mut Core<L, D>, client: u32, node: u32, at: Option<Spot>)
    requires steady { IsSteady L.Layout D.Disk core.old.array }
    requires can { CanFire L.Layout core.old.array client node }
    requires at { at ≡ place_now L.Layout core.old.array client node }
    ensures { IsMadeSinceLook L.Layout D.Disk core.old core.new None }
{
    bring_home(core.fire_at(client, node, at), core);
}

/// The next event that can be done, but the end of a job, and the end of the node that it fired; and whether there was one.
/// The clients are tried from one on.
pub(crate) fn make_next<L: Layout, D: Disk>(core: &mut Core<L, D>, from: u32) -> bool
    requires { IsSteady L.Layout D.Disk core.old.array }
    ensures turned { TurnsTo L.Layout D.Disk core.old None core.new None }
    ensures steady { IsSteady L.Layout D.Disk core.new.array }
    ensures falls { result ≡ true → Falls core.old.array core.new.array }
    ensures idle { result ≡ false → IsIdle L.Layout core.new.array }
{
    match core.choose_from(from) {
        None => return false,
        // Most events fire a node. Its numbers are read where they were chosen: a copy of them would wait for their stores.
        Some(
            Chosen {
                event: Event::Fire { client, node },
                at,
            },
        ) => {
            fire_through(core, client, node, at);
        }
        Some(Chosen { event, at }) => make(core, event, at),
    }
    true
}

// A sum of so many sectors of its sources takes less time than to come to the core once more.
const SHORT: usize = 64;

// Whether a job is to be performed outside the turn: not a commit's and a terminator's, which do nothing, and no short sum.
fn goes_out<D>(job: &Job<D>) -> bool
    ensures { job.now.work ≡ Work.Nothing → result ≡ false }
{
    match job.work {
        Work::Nothing => false,
        Work::Read { .. } | Work::Write { .. } => true,
        Work::Sum { count, .. } => (count as usize).saturating_mul(job.sources.len()) > SHORT,
    }
}

// A node is fired: its job, if that goes out. Else it comes home at once.
fn fire_out<L: Layout, D: Disk>(
    core: &mut Core<L, D>,
    client: u32,
    node: u32,
    at: Option<Spot>,
) -> Option<Job<D>>
    requires steady { IsSteady L.Layout D.Disk core.old.array }
    requires can { CanFire L.Layout core.old.array client node }
    requires at { at ≡ place_now L.Layout core.old.array client node }
    ensures { IsMadeSinceLook L.Layout D.Disk core.old core.new result }
{
    let mut job = core.fire_at(client, node, at);
    if goes_out(&job) {
        return Some(job);
    }
    let outcome = job.perform();
    core.finish(job, outcome);
    None
}

/// The event and, if it fires a node, its job, if that is to be performed outside the turn: else its end.
pub(crate) fn send<L: Layout, D: Disk>(
    core: &mut Core<L, D>,
    event: Event,
    at: Option<Spot>,
) -> Option<Job<D>>
    requires steady { IsSteady L.Layout D.Disk core.old.array }
    requires can { CanDo L.Layout core.old.array event }
    requires at { at ≡ place_in L.Layout core.old.array event }
    ensures { IsMadeSinceLook L.Layout D.Disk core.old core.new result }
{
    if let Event::Fire { client, node } = event {
        return fire_out(core, client, node, at);
    }
    make(core, event, at);
    None
}
