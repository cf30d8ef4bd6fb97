//! The buffers of a run, of which those have memory that may be leased at once.
ghost use Rattle.std.specs.Prelude.{◌≡◌, ◌<◌, ◌≤◌, ◌+◌, ◌↔◌, false, true, length, get_or, IfOk, IsTrue};
ghost use Rattle.buf_pool.specs.Pool.{IsLease, AllHome, Leases, StandsApart, Returns, KeepsOthers, KeepsLeases, seat_at, taken, put};
ghost use Rattle.buf_pool.specs.Reserve.{IsStocked, AreThere};

use crate::buffer::{Buffer, Memory};
use crate::lease::{Full, Lease};
use crate::pool::Pool;
use std::alloc::Global;
use std::marker::Model;

/// A pool of 2,048 buffers, of which some have no memory. No call but `open` takes memory.
///
/// What is free it counts as a pool would that has memory for all, so that nothing which goes by that
/// is another with fewer. Who leases knows that there are as many as that.
#[derive(Drop)]
pub struct Reserve {
    pool: Pool,
}

impl Model for Reserve {
    ghost use Rattle.buf_pool.specs.Pool.{PoolView};
    ghost use Rattle.buf_pool.specs.Reserve.{whole};

    ghost Value = { PoolView };

    ghost view = { λ r. whole r.pool };
}

impl Reserve {
    /// All 2,048 are free, and that many of them are there, each of so many zero bytes.
    pub fn open(alloc: Global, count: u32, bytes: u32) -> Result<Reserve, Memory>
        requires count { count ≤ 2048 }
        requires bytes { bytes ≤ 65536 }
        ensures unit { IfOk result (λ reserve. reserve.unit ≡ bytes) }
        ensures stocked { IfOk result (λ reserve. IsStocked reserve count) }
    {
        let pool = Pool::open(alloc, count, bytes)?;
        Ok(Reserve { pool })
    }

    /// How many of the 2,048 are free.
    pub fn free(&self) -> u32
        ensures { result ≡ length self.now.free }
    {
        self.pool.free() + self.pool.lacks()
    }

    /// Leases that many buffers, which are there, into a lease that stands where it is kept: no more of it
    /// is written than the seats. What it held is forgotten.
    pub fn lease_into(&mut self, n: u32, lease: &mut Lease)
        requires { AreThere self.old n }
        ensures leased { Leases self.old n lease.new self.new }
        ensures apart { StandsApart self.old lease.new self.new }
    {
        if n > self.pool.free() {
            unreachable!()
        }
        match self.pool.lease_into(n, lease) {
            Ok(()) => {}
            Err(Full) => unreachable!(),
        }
    }

    /// Takes a lease's buffers back, which are all at home, each with the bytes that it has. The lease stays
    /// where it is kept; its seats are another's from then on.
    pub fn return_from(&mut self, lease: &Lease)
        requires lease { IsLease self.old lease.now }
        requires home { AllHome self.old lease.now }
        ensures freed { Returns self.old lease.now self.new }
        ensures others { KeepsOthers self.old lease.now self.new }
    {
        self.pool.return_from(lease);
    }

    /// Whether the lease's buffer of that number is at home, and not out.
    pub fn home(&self, lease: &Lease, i: u32) -> bool
        requires lease { IsLease self.now lease.now }
        requires i { i < length lease.now }
        ensures { IsTrue result ↔ ((seat_at self.now.seats (get_or lease.now i 0)).out ≡ false) }
    {
        self.pool.home(lease, i)
    }

    /// Lets the lease's buffer of that number go, which is at home.
    pub fn take(&mut self, lease: &Lease, i: u32) -> Buffer
        requires lease { IsLease self.old lease.now }
        requires i { i < length lease.now }
        requires home { (seat_at self.old.seats (get_or lease.now i 0)).out ≡ false }
        ensures bytes { result ≡ (seat_at self.old.seats (get_or lease.now i 0)).bytes }
        ensures long { length result ≡ self.old.unit }
        ensures left { self.new ≡ taken self.old (get_or lease.now i 0) }
        ensures leases { KeepsLeases self.old self.new }
    {
        self.pool.take(lease, i)
    }

    /// Takes the lease's buffer of that number home again, which is out.
    pub fn put(&mut self, lease: &Lease, i: u32, buffer: Buffer)
        requires lease { IsLease self.old lease.now }
        requires i { i < length lease.now }
        requires out { (seat_at self.old.seats (get_or lease.now i 0)).out ≡ true }
        requires long { length buffer ≡ self.old.unit }
        ensures back { self.new ≡ put self.old (get_or lease.now i 0) buffer }
        ensures leases { KeepsLeases self.old self.new }
    {
        self.pool.put(lease, i, buffer);
    }
}
