//! A lease of some of a pool's buffers.
ghost use Rattle.std.specs.Prelude.{◌≡◌, ◌<◌, ◌≤◌, [], length, get_or};

use std::marker::Model;

/// The most buffers of a pool, and so of a lease.
pub(crate) const MOST: usize = 2048;

/// Fewer buffers are free than the lease would have.
#[derive(Clone, Copy, Debug, PartialEq, Eq)]
pub struct Full;

/// Some buffers of a pool, numbered from 0. Contracts see the list of their seats.
///
/// It holds the numbers of its seats itself, so that it takes no memory. Who leases often keeps one
/// where it is, and has it filled there.
#[derive(Drop)]
pub struct Lease {
    seats: [u32; MOST],
    count: u32,
}

impl Model for Lease {
    ghost use Rattle.std.specs.Prelude.{List, ℕ, ◌≤◌, take};

    ghost Value = { List ℕ };

    ghost view = { λ l. take l.count l.seats };

    ghost invariant = { λ l. l.count ≤ 2048 };
}

impl Lease {
    /// A lease of none, which may be filled.
    pub fn empty() -> Lease
        ensures { result ≡ [] }
    {
        Lease {
            seats: [0; MOST],
            count: 0,
        }
    }

    /// It has no buffers any more. Only their numbers are forgotten.
    pub fn clear(&mut self)
        ensures { self.new ≡ [] }
    {
        self.count = 0;
    }

    /// It has these seats, and no others.
    pub(crate) fn fill(&mut self, seats: &[u32])
        requires { length seats.now ≤ 2048 }
        ensures { self.new ≡ seats.now }
    {
        self.seats[..seats.len()].copy_from_slice(seats);
        self.count = seats.len() as u32;
    }

    pub(crate) fn count(&self) -> u32
        ensures { result ≡ length self.now }
    {
        self.count
    }

    /// Its seats.
    pub(crate) fn seats(&self) -> &[u32]
        ensures { result.now ≡ self.now }
    {
        &self.seats[..self.count as usize]
    }

    pub(crate) fn seat(&self, i: u32) -> u32
        requires { i < length self.now }
        ensures { result ≡ get_or self.now i 0 }
    {
        self.seats[i as usize]
    }

    /// Its first seat, by which a pool names it.
    pub(crate) fn first(&self) -> u32
        ensures { result ≡ get_or self.now 0 0 }
    {
        if self.count == 0 {
            return 0;
        }
        self.seat(0)
    }
}
