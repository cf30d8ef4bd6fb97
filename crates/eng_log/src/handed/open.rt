//! The regions of all items are laid out.
ghost use Rattle.std.specs.Prelude.{◌≡◌, ◌≤◌, ◌<◌, ◌+◌, length, replicate, IfOk, vec_capacity};
ghost use Rattle.eng_rest.specs.Left.{below};
ghost use Rattle.eng_log.specs.Given.{items_at};
ghost use Rattle.eng_log.specs.Handed.{no_region};
ghost use Rattle.eng_log.specs.Laid.{sectors_at, row_sectors, sectors_before, IsRow, AreRows, IsLaidOut};

use crate::handed::{Handed, Regions};
use crate::memory::Memory;
use crate::region::Region;
use blk_plain::limits;
use item_list::Items;
use sector_store::Store;
use std::alloc::Global;

// The most clients, the engine's own included.
const CLIENTS: usize = limits::CLIENTS as usize + 1;

// How many sectors the item at a place hands out.
fn sectors_at(items: &Items, at: usize) -> u32
    requires { at < length items.now.items }
    ensures { result ≡ sectors_at items.now.items at }
{
    match items.read_span(at) {
        Some(span) => span.count,
        None => 0,
    }
}

impl Regions {
    // A region for each item, one behind the other from this sector on, and where the next begins.
    fn open(alloc: Global, items: &Items, first: u32) -> Result<(Regions, u32), Memory>
        requires { first + below (sectors_at items.now.items) (length items.now.items) ≤ 262144 }
        ensures row { IfOk result
            (λ r. IsRow items.now.items first (length items.now.items) r.0) }
        ensures next { IfOk result
            (λ r. r.1 ≡ first + below (sectors_at items.now.items) (length items.now.items)) }
    {
        let mut list = Vec::with_capacity(alloc, items.len())?;
        let mut next = first;
        for i in 0..items.len() {
            let count = sectors_at(items, i);
            list.push_reserved(Region { first: next, count });
            next += count;
        }
        Ok((Regions { list }, next))
    }

    // So many regions without a sector.
    fn empty(alloc: Global, count: u32) -> Result<Regions, Memory>
        ensures { IfOk result (λ r. r ≡ replicate count no_region) }
    {
        let mut list = Vec::with_capacity(alloc, count as usize)?;
        for i in 0..count {
            list.push_reserved(Region { first: 0, count: 0 });
        }
        Ok(Regions { list })
    }
}

// The row of a client, which is empty past the last one, and where the next begins.
fn lay_row(
    alloc: Global,
    clients: &[Items],
    client: u32,
    first: u32,
) -> Result<(Regions, u32), Memory>
    requires { first + row_sectors clients.now client ≤ 262144 }
    ensures row { IfOk result (λ r. IsRow (items_at clients.now client) first
        (length (items_at clients.now client)) r.0) }
    ensures next { IfOk result (λ r. r.1 ≡ first + row_sectors clients.now client) }
{
    match clients.get(client as usize) {
        Some(items) => Regions::open(alloc, items, first),
        None => Ok((Regions::empty(alloc, 0)?, first)),
    }
}

// A row of regions for each client but the engine's own, with room for that one's, and how many sectors there are.
fn lay_rows(alloc: Global, clients: &[Items]) -> Result<(Vec<Regions>, u32), Memory>
    requires { sectors_before clients.now 16 ≤ 262144 }
    ensures rows { IfOk result (λ r. AreRows clients.now 16 r.0.items) }
    ensures room { IfOk result (λ r. 17 ≤ vec_capacity r.0) }
    ensures count { IfOk result (λ r. r.1 ≡ sectors_before clients.now 16) }
{
    let mut rows = Vec::with_capacity(alloc, CLIENTS)?;
    let mut next = 0;
    for client in 0..limits::CLIENTS {
        let laid = lay_row(alloc, clients, client, next)?;
        rows.push_reserved(laid.0);
        next = laid.1;
    }
    Ok((rows, next))
}

impl Handed {
    /// A region for each item of these clients, and so many empty ones for the engine's own, over bytes that are all
    /// zero. The only error is want of memory.
    pub fn open(alloc: Global, clients: &[Items], own: u32) -> Result<Handed, Memory>
        requires few { length clients.now ≤ 16 }
        requires sectors { sectors_before clients.now 16 ≤ 262144 }
        ensures { IfOk result (IsLaidOut clients.now own) }
    {
        let laid = lay_rows(alloc, clients)?;
        let mut regions = laid.0;
        regions.push_reserved(Regions::empty(alloc, own)?);
        let bytes = Store::open(alloc, laid.1 as usize)?;
        Ok(Handed { bytes, regions })
    }
}
