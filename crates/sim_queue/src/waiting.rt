//! The requests that have arrived and wait, in an ordered map.
ghost use Rattle.std.specs.Prelude.{◌≡◌, ◌≤◌, Some, IsSome, IfOk, MatchOption, length};
ghost use Rattle.sim_queue.specs.Service.{IsAsked};
ghost use Rattle.sim_queue.specs.Waiting.{AddsArrived, IsNextDown, IsNextUp, IsStart, NoneFrom, NoneTo, TakesOut, held};

use crate::memory::Memory;
use crate::request::{Request, nth_request};
use std::collections::BTreeMap;

/// The count of sectors of each request that waits, by its first sector and its number.
pub(crate) type Waiting = BTreeMap<(u64, u32), u32>;

/// The least first sector from this one on, with its least number.
pub(crate) fn next_up(waiting: &Waiting, sector: u64) -> Option<(u64, u32)>
    ensures { MatchOption result (NoneFrom waiting.now sector) (IsNextUp waiting.now sector) }
{
    match waiting.range((sector, 0)..).next() {
        Some((place, _)) => Some(*place),
        None => None,
    }
}

/// The greatest first sector up to this one, with its least number.
pub(crate) fn next_down(waiting: &Waiting, sector: u64) -> Option<(u64, u32)>
    ensures { MatchOption result (NoneTo waiting.now sector) (IsNextDown waiting.now sector) }
{
    match waiting.range(..=(sector, u32::MAX)).next_back() {
        Some((place, _)) => next_up(waiting, place.0),
        None => None,
    }
}

/// Takes a place out, and answers its count.
pub(crate) fn take_out(waiting: &mut Waiting, place: (u64, u32)) -> u32
    requires { IsSome (held waiting.old place.0 place.1) }
    ensures count { held waiting.old place.0 place.1 ≡ Some result }
    ensures out { TakesOut place waiting.old waiting.new }
{
    match waiting.remove(&place) {
        Some(count) => count,
        None => unreachable!(),
    }
}

// Puts all requests from a number on that arrive by the tick to those that wait, and answers the number of the next.
fn arrive(
    waiting: &mut Waiting,
    requests: &[Request],
    from: usize,
    tick: u64,
) -> Result<usize, Memory>
    requires asked { IsAsked requests.now }
    requires from { from ≤ length requests.now }
    ensures { IfOk result
        (λ next. AddsArrived requests.now from next tick waiting.old waiting.new) }
{
    for number in from..requests.len() {
        let request = nth_request(requests, number);
        if request.tick > tick {
            return Ok(number);
        }
        let span = request.span();
        waiting.insert((span.first, number as u32), span.count)?;
    }
    Ok(requests.len())
}

/// The number of the next request to arrive, and the tick at which the next service begins.
#[derive(Clone, Copy)]
pub(crate) struct Gathered {
    pub(crate) next: usize,
    pub(crate) start: u64,
}

/// Puts all requests that have arrived to those that wait. Where none waits then, the tick goes on to the next arrival.
pub(crate) fn gather(
    waiting: &mut Waiting,
    requests: &[Request],
    from: usize,
    tick: u64,
) -> Result<Gathered, Memory>
    requires asked { IsAsked requests.now }
    requires from { from ≤ length requests.now }
    ensures arrived { IfOk result
        (λ r. AddsArrived requests.now from r.next r.start waiting.old waiting.new) }
    ensures start { IfOk result
        (λ r. IsStart requests.now waiting.old from tick waiting.new r.start) }
{
    let next = arrive(waiting, requests, from, tick)?;
    if !waiting.is_empty() {
        return Ok(Gathered { next, start: tick });
    }
    if next == requests.len() {
        return Ok(Gathered { next, start: tick });
    }
    let start = nth_request(requests, next).tick;
    let next = arrive(waiting, requests, next, start)?;
    Ok(Gathered { next, start })
}
