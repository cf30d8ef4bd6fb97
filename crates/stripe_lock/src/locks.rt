//! The table of locks.
ghost use Rattle.std.specs.Prelude.{◌≡◌, ◌<◌, ◌≤◌, ◌↔◌, length, IsTrue, IsFalse, IfOk};
ghost use Rattle.std.specs.Bool.{OnTrue, OnFalse};
ghost use Rattle.stripe_lock.specs.Table.{Table, IsIdle, HoldsNothing, Conflict, Acquires, Releases, IsApart, owners_of};

use crate::mode::Mode;
use crate::row::{ROWS, Row, hold, is_barred, leave};
use std::alloc::{AllocError, AllocFailed, Global};
use std::marker::Model;

/// There was no memory for the table.
#[derive(Clone, Copy, Debug, PartialEq, Eq)]
pub struct Memory;

impl From<AllocError> for Memory {
    fn from(_: AllocError) -> Self {
        Memory
    }
}

impl<T: Drop> From<AllocFailed<T>> for Memory {
    fn from(_: AllocFailed<T>) -> Self {
        Memory
    }
}

/// Which owner holds which stripes, and how. Owners are numbered from 0.
///
/// The held stripes stand in one table, in ascending order, each with its sharers or its excluder;
/// it has at most 272 rows, and a stripe is found in it by bisection. No two owners hold one stripe
/// unless both share it. No call but `open` takes memory.
#[derive(Drop)]
pub struct Locks {
    rows: Vec<Row>,
    owners: u32,
}

impl Model for Locks {
    ghost use Rattle.std.specs.Prelude.{vec_capacity};
    ghost use Rattle.stripe_lock.specs.Table.{Table, IsTable};

    ghost Value = { Table };

    ghost view = { λ l. record { owners = l.owners; rows = l.rows.items } };

    ghost invariant = { λ l. IsTable l.owners l.rows.items (vec_capacity l.rows) };
}

impl Locks {
    /// A table for so many owners, who hold nothing yet.
    pub fn open(alloc: Global, owners: u32) -> Result<Locks, Memory>
        requires { owners ≤ 17 }
        ensures { IfOk result (λ locks. IsIdle locks owners) }
    {
        let rows = Vec::with_capacity(alloc, ROWS)?;
        Ok(Locks { rows, owners })
    }

    /// Whether the owner could take all these stripes now: no other owner holds one of them, or
    /// those that do share it and the owner would share it too.
    pub fn can_take(&self, owner: u32, stripes: &[u32], mode: Mode) -> bool
        ensures conflict { IsFalse result ↔ Conflict self.now owner stripes.now mode }
    {
        !is_barred(self.rows.as_slice(), owner, stripes, mode)
    }

    /// Acquires all these stripes for an owner that holds none, and answers whether it did.
    ///
    /// False exactly where another owner holds one of the stripes and one of the two holds it
    /// alone, or would; nothing changes then.
    pub fn take_all(&mut self, owner: u32, stripes: &[u32], mode: Mode) -> bool
        requires owner { owner < owners_of self.old }
        requires few { length stripes.now ≤ 16 }
        requires none { HoldsNothing self.old owner }

        ensures conflict { IsFalse result ↔ Conflict self.old owner stripes.now mode }
        ensures taken { OnTrue result (Acquires self.old owner stripes.now mode self.new) }
        ensures refused { OnFalse result (self.new ≡ self.old) }
        ensures apart { IsApart self.new }
    {
        if !self.can_take(owner, stripes, mode) {
            return false;
        }
        hold(&mut self.rows, owner, stripes, mode);
        true
    }

    /// The owner holds nothing from now on.
    pub fn release(&mut self, owner: u32)
        requires { owner < owners_of self.old }
        ensures released { Releases self.old owner self.new }
        ensures apart { IsApart self.new }
    {
        leave(&mut self.rows, owner);
    }
}
