//! Where the units of nodes stood.
ghost use Rattle.std.specs.Prelude.{◌≡◌, ◌<◌, ◌≤◌, None, length, replicate, slice_set, slice_index_or, vec_capacity, IfOk};
ghost use Rattle.eng_clients.specs.Spots.{padded};

use crate::memory::Memory;
use blk_plain::limits;
use eng_cols::Spot;
use std::alloc::Global;
use std::marker::Model;

/// For each node that there may be, where its unit stood as it was fired, if it was. Contracts see a list of 2,048.
///
/// Room for all is taken at opening, which a system gives as it is touched: no more of it is touched than up to the last
/// node that was fired.
#[derive(Drop)]
pub struct Spots {
    list: Vec<Option<Spot>>,
}

impl Model for Spots {
    ghost use Rattle.std.specs.Prelude.{◌≤◌, List, Option, length, vec_capacity};
    ghost use Rattle.eng_cols.specs.declared.spot.Spot.{Spot as StoodAt};
    ghost use Rattle.eng_clients.specs.Spots.{padded};

    ghost Value = { List (Option StoodAt) };

    ghost view = { λ s. padded 2048 s.list.items };

    ghost invariant = { λ s. (length s.list.items ≤ 2048) × (2048 ≤ vec_capacity s.list) };
}

// None stand behind those that there are, so many in all. It isn't called for each node.
#[inline(never)]
fn fill(list: &mut Vec<Option<Spot>>, count: usize)
    requires count { count ≤ 2048 }
    requires few { length list.old.items ≤ 2048 }
    requires room { 2048 ≤ vec_capacity list.old }
    ensures same { padded 2048 list.new.items ≡ padded 2048 list.old.items }
    ensures long { count ≤ length list.new.items }
    ensures few { length list.new.items ≤ 2048 }
    ensures room { 2048 ≤ vec_capacity list.new }
{
    for _ in list.len()..count {
        list.push_reserved(None);
    }
}

// This place is in the list: where it is shorter, none stand behind it.
#[inline(always)]
fn reach(list: &mut Vec<Option<Spot>>, place: usize)
    requires place { place < 2048 }
    requires few { length list.old.items ≤ 2048 }
    requires room { 2048 ≤ vec_capacity list.old }
    ensures same { padded 2048 list.new.items ≡ padded 2048 list.old.items }
    ensures long { place < length list.new.items }
    ensures few { length list.new.items ≤ 2048 }
    ensures room { 2048 ≤ vec_capacity list.new }
{
    if place >= list.len() {
        fill(list, place + 1);
    }
}

// What stands at this place, or None where the list is shorter.
#[inline(always)]
fn at_or_none(list: &[Option<Spot>], place: usize) -> Option<Spot>
    ensures { result ≡ slice_index_or list.now place None }
{
    if place < list.len() {
        list[place]
    } else {
        None
    }
}

impl Spots {
    /// None for each node. The only error is want of memory.
    pub(crate) fn open(alloc: Global) -> Result<Spots, Memory>
        ensures { IfOk result (λ spots. spots ≡ replicate 2048 None) }
    {
        let list = Vec::with_capacity(alloc, limits::NODES as usize)?;
        Ok(Spots { list })
    }

    /// A node's unit stands there.
    #[inline(always)]
    pub(crate) fn set(&mut self, node: u32, at: Option<Spot>)
        requires { node < 2048 }
        ensures { self.new ≡ slice_set self.old node at }
    {
        let place = node as usize;
        reach(&mut self.list, place);
        self.list[place] = at;
    }

    /// Where a node's unit stood.
    #[inline(always)]
    pub(crate) fn get(&self, node: u32) -> Option<Spot>
        requires { node < 2048 }
        ensures { result ≡ slice_index_or self.now node None }
    {
        at_or_none(&self.list, node as usize)
    }
}
