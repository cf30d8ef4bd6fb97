//! The events of one turn, and what they give to do outside.
ghost use Rattle.std.specs.Prelude.{◌≡◌, ◌⊎◌, true, None};
ghost use Rattle.eng_array.specs.Progress.{Falls};
ghost use Rattle.eng_array.specs.Steady.{IsSteady};
ghost use Rattle.eng_crew.specs.Idle.{IsIdle};
ghost use Rattle.eng_crew.specs.Laws.{TurnsTo};

use crate::making::{make_next, send};
use blk_disk::Disk;
use eng_array::{Chosen, Core, Job};
use lay_core::Layout;

/// How many items have a reply is looked at each so many turns.
pub(crate) const LOOK: u32 = 64;

/// What a turn found to do.
pub(crate) enum Found {
    /// An event, which was made.
    Event,
    /// Nothing now, but that a job comes home.
    Nothing,
    /// All is done.
    Rest,
}

// Where there is no event but the end of a job: whether all is done.
fn without_event<L: Layout, D: Disk>(core: &Core<L, D>) -> Found
    requires { IsSteady L.Layout D.Disk core.now.array }
    ensures { result ≡ Found.Event → ⊥ }
{
    if core.rest() {
        Found::Rest
    } else {
        Found::Nothing
    }
}

// So many events with the ends of their nodes, as long as there are any; and whether there were.
fn make_some<L: Layout, D: Disk>(core: &mut Core<L, D>, from: u32, count: u32) -> bool
    requires { IsSteady L.Layout D.Disk core.old.array }
    ensures turned { TurnsTo L.Layout D.Disk core.old None core.new None }
    ensures steady { IsSteady L.Layout D.Disk core.new.array }
    ensures idle { (result ≡ true) ⊎ IsIdle L.Layout core.new.array }
{
    let mut left = count;
    while left != 0 {
        if !make_next(core, from) {
            return false;
        }
        left -= 1;
    }
    true
}

// One event, if there is one but the end of a job; and the end of the node that it fired, where that calls no device and
// sums little. Else its job. The clients are tried from one on.
fn send_one<L: Layout, D: Disk>(core: &mut Core<L, D>, from: u32) -> (Found, Option<Job<D>>)
    requires { IsSteady L.Layout D.Disk core.old.array }
    ensures turned { TurnsTo L.Layout D.Disk core.old None core.new result.1 }
    ensures steady { IsSteady L.Layout D.Disk core.new.array }
    ensures event { result.0 ≡ Found.Event → Falls core.old.array core.new.array }
    ensures idle { (result.0 ≡ Found.Event) ⊎ ((result.1 ≡ None) × IsIdle L.Layout core.new.array) }
{
    let Some(Chosen { event, at }) = core.choose_from(from) else {
        return (without_event(core), None)
    };
    let job = send(core, event, at);
    (Found::Event, job)
}

/// So many events at once, each with the end of the node that it fires; then events, one after another, until a node is
/// fired that calls a device or sums much, and the job of that node. Or until there is no event but the end of a job. The
/// clients are tried from the same one on each time, so that a worker goes on with a client's operation while it can: what
/// it works on is near it.
pub(crate) fn go_far<L: Layout, D: Disk + Drop>(
    core: &mut Core<L, D>,
    from: u32,
    at_once: u32,
) -> (Found, Option<Job<D>>)
    requires { IsSteady L.Layout D.Disk core.old.array }
    ensures turned { TurnsTo L.Layout D.Disk core.old None core.new result.1 }
    ensures idle { (result.0 ≡ Found.Event) ⊎ ((result.1 ≡ None) × IsIdle L.Layout core.new.array) }
{
    if !make_some(core, from, at_once) {
        return (without_event(core), None);
    }
    loop {
        match send_one(core, from) {
            (Found::Event, None) => {}
            (found, ticket) => return (found, ticket),
        }
    }
}
