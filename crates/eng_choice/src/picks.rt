//! Which event is done next.
ghost use Rattle.std.specs.Prelude.{◌≡◌, ◌≤◌, ◌%◌, MatchOption, IfSome, option_map};
ghost use Rattle.eng_clients.specs.Desk.{desk_at};
ghost use Rattle.eng_world.specs.World.{World};
ghost use Rattle.eng_state.specs.Out.{IsOut};
ghost use Rattle.eng_state.specs.Serves.{Stands};
ghost use Rattle.eng_state.specs.Shows.{Shows};
ghost use Rattle.eng_state.specs.Sound.{IsSound};
ghost use Rattle.eng_state.specs.Doing.{CanDo};
ghost use Rattle.eng_choice.specs.Picked.{client_of, next_after, NoneReadyOf, IsLeastReadyOf, CanNoNode, IsFirstNode, CanNothing, CanNothingAmong, IsFirstOf, IsFirstAmong, half_from, half_to, IsPicked, IsStuck, StandsThere};

use crate::chosen::Chosen;
use crate::doable::{can_back, can_begin, can_fire_at, can_skip_at};
use crate::takable::can_take;
use blk_disk::Disk;
use blk_plain::limits;
use eng_clients::Stage;
use eng_job::Job;
use eng_state::Array;
use eng_world::Event;
use lay_core::Layout;

/// How many clients there are, the engine's own included.
pub(crate) const CLIENTS: u32 = limits::CLIENTS + 1;

fn client_of(event: Event) -> u32
    ensures { result ≡ client_of event }
{
    match event {
        Event::Begin { client } | Event::Take { client } | Event::Back { client } => client,
        Event::Fire { client, .. } | Event::Skip { client, .. } => client,
    }
}

// The number's place in the ring. Most are their own.
fn wrapped(number: u32) -> u32
    ensures { result ≡ number % 17 }
{
    if number < CLIENTS {
        number
    } else {
        number % CLIENTS
    }
}

// The first node that is ready, from this number on, of a client's run.
fn ready_from<L: Layout, D: Disk>(array: &Array<L, D>, client: u32, from: u32) -> Option<u32>
    requires { IsSound L.Layout D.Disk array.now }
    ensures { MatchOption result (NoneReadyOf array.now client from)
        (IsLeastReadyOf array.now client from) }
{
    match array.clients.stage(client) {
        Stage::Runs => array.clients.least_ready(client, from),
        Stage::Nothing | Stage::Waits => None,
    }
}

// The first node of the client's that can be skipped or fired. Only nodes that are ready are looked at, and where the
// unit of one stands is looked for once.
fn pick_node<L: Layout, D: Disk>(array: &Array<L, D>, client: u32) -> Option<Chosen>
    requires { IsSound L.Layout D.Disk array.now }
    ensures event { MatchOption result (CanNoNode L.Layout array.now client)
        (λ c. IsFirstNode L.Layout array.now client c.event) }
    ensures at { IfSome result (StandsThere L.Layout array.now) }
{
    if array.lost.is_some() {
        return None;
    }
    let mut from = 0;
    while let Some(node) = ready_from(array, client, from) {
        let at = array.place_of(client, node);
        if can_skip_at(array, client, node, at) {
            return Some(Chosen {
                event: Event::Skip { client, node },
                at,
            });
        }
        if can_fire_at(array, client, node, at) {
            return Some(Chosen {
                event: Event::Fire { client, node },
                at,
            });
        }
        from = node + 1;
    }
    None
}

// The first event of a client's that no operation of its own keeps busy.
fn pick_begin<L: Layout, D: Disk>(array: &Array<L, D>, client: u32) -> Option<Chosen>
    requires { (desk_at array.now.clients client).stage ≡ Stage.Nothing }
    ensures event { MatchOption result (CanNothing L.Layout array.now client)
        (λ c. IsFirstOf L.Layout array.now client c.event) }
    ensures at { IfSome result (StandsThere L.Layout array.now) }
{
    if can_begin(array, client) {
        return Some(Chosen {
            event: Event::Begin { client },
            at: None,
        });
    }
    None
}

// The first event of a client's whose operation waits.
fn pick_take<L: Layout, D: Disk>(array: &Array<L, D>, client: u32) -> Option<Chosen>
    requires sound { IsSound L.Layout D.Disk array.now }
    requires stands { Stands L.Layout array.now }
    requires waits { (desk_at array.now.clients client).stage ≡ Stage.Waits }
    ensures event { MatchOption result (CanNothing L.Layout array.now client)
        (λ c. IsFirstOf L.Layout array.now client c.event) }
    ensures at { IfSome result (StandsThere L.Layout array.now) }
{
    if can_take(array, client) {
        return Some(Chosen {
            event: Event::Take { client },
            at: None,
        });
    }
    None
}

// The first event of a client's whose operation runs.
fn pick_step<L: Layout, D: Disk>(array: &Array<L, D>, client: u32) -> Option<Chosen>
    requires sound { IsSound L.Layout D.Disk array.now }
    requires runs { (desk_at array.now.clients client).stage ≡ Stage.Runs }
    ensures event { MatchOption result (CanNothing L.Layout array.now client)
        (λ c. IsFirstOf L.Layout array.now client c.event) }
    ensures at { IfSome result (StandsThere L.Layout array.now) }
{
    if can_back(array, client) {
        return Some(Chosen {
            event: Event::Back { client },
            at: None,
        });
    }
    pick_node(array, client)
}

// The client's first event that can be done. By what the client is doing it is one of few.
fn pick_of<L: Layout, D: Disk>(array: &Array<L, D>, client: u32) -> Option<Chosen>
    requires sound { IsSound L.Layout D.Disk array.now }
    requires stands { Stands L.Layout array.now }
    ensures event { MatchOption result (CanNothing L.Layout array.now client)
        (λ c. IsFirstOf L.Layout array.now client c.event) }
    ensures at { IfSome result (StandsThere L.Layout array.now) }
{
    match array.clients.stage(client) {
        Stage::Nothing => pick_begin(array, client),
        Stage::Waits => pick_take(array, client),
        Stage::Runs => pick_step(array, client),
    }
}

// The first event of the first client that has one, of those from one number up to another. Only clients that may have
// something to do are looked at.
fn pick_among<L: Layout, D: Disk>(array: &Array<L, D>, from: u32, to: u32) -> Option<Chosen>
    requires sound { IsSound L.Layout D.Disk array.now }
    requires stands { Stands L.Layout array.now }
    requires from { from ≤ 17 }
    requires to { to ≤ 17 }
    ensures event { MatchOption result (CanNothingAmong L.Layout array.now from to)
        (λ c. IsFirstAmong L.Layout array.now from to c.event) }
    ensures at { IfSome result (StandsThere L.Layout array.now) }
{
    let mut from = from;
    while let Some(client) = array.clients.busy_from(from) {
        if client >= to {
            return None;
        }
        let chosen = pick_of(array, client);
        if chosen.is_some() {
            return chosen;
        }
        from = client + 1;
    }
    None
}

// The clients of one half of the ring: those from its start on, and then those before it.
fn half_of(next: u32, half: u32) -> (u32, u32)
    ensures from { result.0 ≡ half_from next half }
    ensures to { result.1 ≡ half_to next half }
{
    if half == 0 {
        (next, CLIENTS)
    } else {
        (0, next)
    }
}

// The first event of the first client in the ring that has one.
fn pick_first<L: Layout, D: Disk>(array: &Array<L, D>) -> Option<Chosen>
    requires sound { IsSound L.Layout D.Disk array.now }
    requires stands { Stands L.Layout array.now }
    ensures event { MatchOption result (IsStuck L.Layout array.now)
        (λ c. IsPicked L.Layout array.now c.event) }
    ensures at { IfSome result (StandsThere L.Layout array.now) }
{
    let next = wrapped(array.next);
    for half in 0..2 {
        let (from, to) = half_of(next, half);
        let chosen = pick_among(array, from, to);
        if chosen.is_some() {
            return chosen;
        }
    }
    None
}

/// Chooses the event that is done next: the clients are tried in a ring, from the one after that of the last
/// choice on, and of a client its begin, take and back, and then the least node that can be skipped or fired. It tells
/// where that node's unit stands. None exactly where no event can be done but the end of a job.
pub fn pick<L: Layout, D: Disk>(array: &mut Array<L, D>) -> Option<Chosen>
    requires sound { IsSound L.Layout D.Disk array.old }
    requires stands { Stands L.Layout array.old }
    ensures event { MatchOption result (IsStuck L.Layout array.old)
        (λ c. IsPicked L.Layout array.old c.event) }
    ensures can { IfSome result (λ c. CanDo L.Layout array.new c.event) }
    ensures at { IfSome result (StandsThere L.Layout array.new) }
    ensures next { array.new ≡ record array.old
        { next = next_after array.old.next (option_map (λ c. c.event) result) } }
    ensures sound { IsSound L.Layout D.Disk array.new }
    ensures stands { Stands L.Layout array.new }
    ensures shows { (w : World) → Shows D.Disk array.old w → Shows D.Disk array.new w }
    ensures stays { (job : Job D) → IsOut D.Disk L.Layout array.old job
        → IsOut D.Disk L.Layout array.new job }
{
    let chosen = pick_first(array);
    if let Some(chosen) = chosen {
        array.next = wrapped(client_of(chosen.event) + 1);
    }
    chosen
}
