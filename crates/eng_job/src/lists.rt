//! Lists for the sources of exclusive-ors, made once.
ghost use Rattle.std.specs.Prelude.{◌≡◌, ◌<◌, ◌≤◌, ◌+◌, [], length, IfOk, vec_capacity, All};

use crate::job::Source;
use blk_plain::limits;
use std::alloc::{AllocError, AllocFailed, Global};
use std::marker::Model;

/// There was no memory for the lists.
#[derive(Clone, Copy, Debug, PartialEq, Eq)]
pub struct Memory;

impl From<AllocError> for Memory {
    fn from(_: AllocError) -> Self {
        Memory
    }
}

impl<T: Drop> From<AllocFailed<T>> for Memory {
    fn from(_: AllocFailed<T>) -> Self {
        Memory
    }
}

/// The most jobs that are out at once.
pub const MOST: u32 = 32;

/// Empty lists of sources, each with room for as many as a job has. Contracts see how many there are.
///
/// Each job takes one along, and brings it back empty. No call but `open` takes memory.
#[derive(Drop)]
pub struct Lists {
    lists: Vec<Vec<Source>>,
}

impl Model for Lists {
    ghost use Rattle.std.specs.Prelude.{ℕ, ◌≤◌, length, vec_capacity};
    ghost use Rattle.eng_job.specs.Listed.{AreEmpty};

    ghost Value = { ℕ };

    ghost view = { λ l. length l.lists.items };

    ghost invariant = { λ l. (length l.lists.items ≤ 32) × (32 ≤ vec_capacity l.lists) × AreEmpty l.lists.items };
}

impl Lists {
    /// A list for each job that may be out.
    pub fn open(alloc: Global) -> Result<Lists, Memory>
        ensures { IfOk result (λ lists. lists ≡ 32) }
    {
        let mut lists = Vec::with_capacity(alloc, MOST as usize)?;
        for i in 0..MOST {
            lists.push_reserved(Vec::with_capacity(alloc, limits::SOURCES as usize)?);
        }
        Ok(Lists { lists })
    }

    /// How many lists there are.
    pub fn count(&self) -> u32
        ensures { result ≡ self.now }
    {
        self.lists.len() as u32
    }

    /// An empty list. There is one.
    pub fn take(&mut self) -> Vec<Source>
        requires { 0 < self.old }
        ensures less { self.new + 1 ≡ self.old }
        ensures empty { result.items ≡ [] }
        ensures room { 2048 ≤ vec_capacity result }
    {
        match self.lists.pop() {
            Some(list) => list,
            None => unreachable!(),
        }
    }

    /// Takes a list back, which is empty again.
    pub fn put(&mut self, list: Vec<Source>)
        requires few { self.old < 32 }
        requires empty { list.items ≡ [] }
        requires room { 2048 ≤ vec_capacity list }
        ensures { self.new ≡ self.old + 1 }
    {
        self.lists.push_reserved(list);
    }
}
