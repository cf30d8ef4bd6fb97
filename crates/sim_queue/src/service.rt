//! The service of all requests, one after another.
ghost use Rattle.std.specs.Prelude.{◌≡◌, ◌+◌, ◌-◌, ◌/◌, ◌^◌, ◌<◌, IfOk};
ghost use Rattle.sim_queue.specs.Service.{IsAsked, IsService, distance};
ghost use Rattle.sim_queue.specs.Waiting.{queue_of};
ghost use Rattle.sim_queue.specs.declared.request.Queue.TheVariants.{Fifo};

use crate::choice::{Rule, choose};
use crate::memory::Memory;
use crate::request::{Queue, Request, Served, nth_request};
use crate::waiting::{gather, take_out};
use std::alloc::Global;
use std::collections::BTreeMap;

/// How many sectors the head passes in a tick.
const SECTORS_PER_TICK: u64 = 64;

// How far two sectors are from one another.
fn distance(a: u64, b: u64) -> u64
    ensures { result ≡ distance a b }
{
    if a < b { b - a } else { a - b }
}

// The tick at which a service ends.
fn end(start: u64, head: u64, first: u64, count: u32) -> u64
    requires start { start < 2 ^ 48 }
    ensures { result ≡ start + distance first head / 64 + count }
{
    start + distance(first, head) / SECTORS_PER_TICK + u64::from(count)
}

/// Serves the requests in the order of their numbers.
fn in_turn(alloc: Global, requests: &[Request]) -> Result<Vec<Served>, Memory>
    requires { IsAsked requests.now }
    ensures { IfOk result (λ served. IsService requests.now Fifo served.items) }
{
    let mut served = Vec::with_capacity(alloc, requests.len())?;
    let mut head = 0;
    let mut tick = 0;
    for number in 0..requests.len() {
        let request = nth_request(requests, number);
        let span = request.span();
        let start = tick.max(request.tick);
        tick = end(start, head, span.first, span.count);
        head = span.first + u64::from(span.count);
        served.push_reserved(Served {
            request: number as u32,
            start,
            end: tick,
        });
    }
    Ok(served)
}

/// Serves the requests by a rule that goes by the head's place.
fn by_place(alloc: Global, requests: &[Request], rule: Rule) -> Result<Vec<Served>, Memory>
    requires { IsAsked requests.now }
    ensures { IfOk result (λ served. IsService requests.now (queue_of rule) served.items) }
{
    let mut served = Vec::with_capacity(alloc, requests.len())?;
    let mut waiting = BTreeMap::new(alloc);
    let mut next = 0;
    let mut head = 0;
    let mut tick = 0;
    let mut up = true;
    loop {
        let gathered = gather(&mut waiting, requests, next, tick)?;
        let Some(choice) = choose(&waiting, rule, head, up) else {
            return Ok(served);
        };
        let count = take_out(&mut waiting, choice.place);
        tick = end(gathered.start, head, choice.place.0, count);
        head = choice.place.0 + u64::from(count);
        up = choice.up;
        next = gathered.next;
        served.push_reserved(Served {
            request: choice.place.1,
            start: gathered.start,
            end: tick,
        });
    }
}

/// In which order the disk serves the requests, and from which tick to which each.
///
/// There are at most 4,096 requests by ascending tick, each a read or a write of sectors below 262,144. The head begins
/// at sector 0, at tick 0, and upwards. It passes 64 sectors in a tick, and one sector of a request takes a tick. The only
/// error is want of memory. The time it takes goes with the requests, by place up to a logarithm.
pub fn serve(alloc: Global, requests: &[Request], queue: Queue) -> Result<Vec<Served>, Memory>
    requires { IsAsked requests.now }
    ensures { IfOk result (λ served. IsService requests.now queue served.items) }
{
    match queue {
        Queue::Fifo => in_turn(alloc, requests),
        Queue::Sstf => by_place(alloc, requests, Rule::Nearest),
        Queue::Scan => by_place(alloc, requests, Rule::Onward),
    }
}
