//! What the reads of a service are replied.
ghost use Rattle.std.specs.Prelude.{◌≡◌, ◌+◌, ◌^◌, ◌<◌, ◌≤◌, [], IfOk, Some, take, drop, map, length, replicate, slice_get, slice_set};
ghost use Rattle.sim_queue.specs.Service.{IsTransfer};
ghost use Rattle.sim_queue.specs.Replies.{AreApart, AreKnown, AreReplies, AreWithin, read_from, service_at};

use crate::memory::Memory;
use crate::request::{Request, Served, nth_request};
use blk_plain::{Blocks, Op, SECTOR, Span};
use std::alloc::Global;
use std::marker::Model;

/// The sectors that each request is replied, none for a write. Contracts see it as a list with a list of sectors for
/// each request, by number.
#[derive(Drop)]
pub struct Replies {
    rows: Vec<Vec<[u8; SECTOR]>>,
}

impl Model for Replies {
    ghost use Rattle.std.specs.Prelude.{List, ℕ, map};

    ghost Value = { List (List (List ℕ)) };

    ghost view = { λ r. map (λ row. row.items) r.rows.items };
}

impl Replies {
    /// The sectors that a request is replied.
    pub fn sectors(&self, request: u32) -> &[[u8; SECTOR]]
        requires { request < length self.now }
        ensures { slice_get self.now request ≡ Some result.now }
    {
        self.rows[request as usize].as_slice()
    }
}

fn sector(blocks: &Blocks, block: u64) -> [u8; SECTOR]
    requires { block < length blocks.now }
    ensures { slice_get blocks.now block ≡ Some result }
{
    let mut sector = [0; SECTOR];
    sector.copy_from_slice(blocks.sector(block));
    sector
}

fn copy(alloc: Global, blocks: &Blocks, span: Span) -> Result<Vec<[u8; SECTOR]>, Memory>
    requires within { span.first + span.count ≤ length blocks.now }
    requires few { length blocks.now < 2 ^ 64 }
    ensures { IfOk result (λ row. row.items ≡ take span.count (drop span.first blocks.now)) }
{
    let mut row = Vec::with_capacity(alloc, span.count as usize)?;
    for i in 0..u64::from(span.count) {
        row.push_reserved(sector(blocks, span.first + i));
    }
    Ok(row)
}

// The sectors that an operation is replied.
fn read(alloc: Global, blocks: &Blocks, op: &Op) -> Result<Vec<[u8; SECTOR]>, Memory>
    requires within { IsTransfer (length blocks.now) op.now }
    requires few { length blocks.now < 2 ^ 64 }
    ensures { IfOk result (λ row. row.items ≡ read_from op.now blocks.now) }
{
    match op {
        Op::Read { span } => copy(alloc, blocks, *span),
        Op::Write { .. } | Op::Writes { .. } | Op::Rebuild { .. } | Op::Sync { .. } => {
            Ok(Vec::new(alloc))
        }
    }
}

#[tactic(auto, unfolding(crate::specs::Replies::service_at))]
fn nth_service(services: &[Served], place: usize) -> Served
    requires { place < length services.now }
    ensures { result ≡ service_at services.now place }
{
    services[place]
}

fn empty_rows(alloc: Global, count: usize) -> Result<Vec<Vec<[u8; SECTOR]>>, Memory>
    ensures { IfOk result (λ rows. map (λ row. row.items) rows.items ≡ replicate count []) }
{
    let mut rows = Vec::with_capacity(alloc, count)?;
    for _ in 0..count {
        rows.push_reserved(Vec::new(alloc));
    }
    Ok(rows)
}

fn put_row(rows: &mut Vec<Vec<[u8; SECTOR]>>, number: usize, row: Vec<[u8; SECTOR]>)
    requires { number < length rows.old.items }
    ensures { map (λ row. row.items) rows.new.items
        ≡ slice_set (map (λ row. row.items) rows.old.items) number row.items }
{
    rows[number] = row;
}

/// What each request is replied, where they are made in the order in which they are served, on a disk of so many sectors of
/// zeros. The only error is want of memory.
pub fn reply_all(
    alloc: Global,
    sectors: u64,
    requests: &[Request],
    services: &[Served],
) -> Result<Replies, Memory>
    requires within { AreWithin sectors requests.now }
    requires known { AreKnown (length requests.now) services.now }
    requires apart { AreApart services.now }
    ensures long { IfOk result (λ replies. length replies ≡ length requests.now) }
    ensures replies { IfOk result
        (λ replies. AreReplies sectors requests.now services.now replies) }
{
    let mut disk = Blocks::zeroed(alloc, sectors)?;
    let mut rows = empty_rows(alloc, requests.len())?;
    for place in 0..services.len() {
        let number = nth_service(services, place).request as usize;
        let request = nth_request(requests, number);
        let row = read(alloc, &disk, &request.op)?;
        put_row(&mut rows, number, row);
        disk.apply(&request.op);
    }
    Ok(Replies { rows })
}
