//! The pool.
ghost use Rattle.std.specs.Prelude.{◌≡◌, ◌<◌, ◌≤◌, ◌+◌, ◌-◌, ◌++◌, ◌↔◌, [], ◌∷◌, ℕ, List, length, get_or, IfOk, OnOk, OnErr, IsErr, IsTrue, map, vec_len, vec_capacity, true, false};
ghost use Rattle.buf_pool.specs.Pool.{PoolView, IsLease, AllHome, Leases, StandsApart, Returns, KeepsOthers, KeepsLeases, IsPool, claim, release, seen, seat_at, taken, put, leased_in, leased_count, IsFresh};

use crate::buffer::{Buffer, Memory};
use crate::lease::{Full, Lease, MOST};
use crate::seat::{Owner, Place, Seat};
use crate::zeroed::Zeroed;
use std::alloc::Global;
use std::marker::Model;
use std::mem;
use std::snapshot::Snapshot;

/// All unit buffers of a run. No call but `open` takes memory.
///
/// Each buffer has a seat, which is free or one lease's. The buffer of a free seat is at home; one
/// of a lease is at home or out, and while it is out contracts see the bytes with which it left.
#[derive(Drop)]
pub struct Pool {
    unit: u32,
    free: Vec<u32>,
    seats: Vec<Seat>,
}

impl Model for Pool {
    ghost use Rattle.std.specs.Prelude.{◌≤◌, vec_len, vec_capacity};
    ghost use Rattle.buf_pool.specs.Pool.{PoolView, IsPool, shown};

    ghost Value = { PoolView };

    ghost view = { λ p. shown p.unit p.free.items p.seats.items };

    // The list of free seats has room for all of them, so that a lease comes back without memory.
    ghost invariant = { λ p. IsPool (shown p.unit p.free.items p.seats.items) × (vec_len p.seats ≤ vec_capacity p.free) };
}

impl Pool {
    /// A pool of that many buffers of so many zero bytes, all free.
    ///
    /// All memory is taken here; the zeros of a buffer are written as it is first taken out.
    pub fn open(alloc: Global, count: u32, bytes: u32) -> Result<Pool, Memory>
        requires count { count ≤ 2048 }
        requires bytes { bytes ≤ 65536 }
        ensures unit { IfOk result (λ pool. pool.unit ≡ bytes) }
        ensures fresh { IfOk result (λ pool. IsFresh pool count) }
    {
        let mut free = Vec::with_capacity(alloc, count as usize)?;
        let mut seats = Vec::with_capacity(alloc, count as usize)?;
        for k in 0..count {
            let place = Place::Home(Zeroed::open(alloc, bytes as usize)?);
            free.push_reserved(k);
            seats.push_reserved(Seat {
                owner: Snapshot::of(&Owner::Free(k)),
                place,
            });
        }
        Ok(Pool {
            unit: bytes,
            free,
            seats,
        })
    }

    /// How many buffers are free. With those in leases they make up the pool.
    pub fn free(&self) -> u32
        ensures free { result ≡ length self.now.free }
        ensures whole { result + leased_count self.now.seats ≡ length self.now.seats }
        ensures most { length self.now.seats ≤ 2048 }
    {
        self.free.len() as u32
    }

    // How many fewer buffers it has than a pool may have.
    pub(crate) fn lacks(&self) -> u32
        ensures { result ≡ 2048 - length self.now.seats }
    {
        (MOST - self.seats.len()) as u32
    }

    // Gives the last free seat to a lease.
    fn claim(&mut self, first: u32, place: u32) -> u32
        requires { 0 < length self.old.free }
        ensures unit { self.new.unit ≡ self.old.unit }
        ensures free { self.old.free ≡ self.new.free ++ result ∷ [] }
        ensures seats { self.new.seats ≡ claim first place result self.old.seats }
        ensures inside { result < length self.old.seats }
        ensures was_free { (at : ℕ) × ((seat_at self.old.seats result).owner ≡ Owner.Free at) }
        ensures home { (seat_at self.old.seats result).out ≡ false }
    {
        let Some(seat) = self.free.pop() else {
            unreachable!()
        };
        self.seats[seat as usize].owner = Snapshot::of(&Owner::Leased(first, place));
        seat
    }

    /// Leases that many buffers, each with the bytes that it has. It looks at these alone, and
    /// never searches the pool.
    ///
    /// Full exactly where fewer are free; nothing changes then.
    pub fn lease(&mut self, n: u32) -> Result<Lease, Full>
        ensures full { IsErr result ↔ (length self.old.free < n) }
        ensures refused { OnErr result (self.new ≡ self.old) }
        ensures leased { IfOk result (λ l. Leases self.old n l self.new) }
        ensures apart { IfOk result (λ l. StandsApart self.old l self.new) }
    {
        let mut lease = Lease::empty();
        match self.lease_into(n, &mut lease) {
            Ok(()) => Ok(lease),
            Err(Full) => Err(Full),
        }
    }

    /// The same, into a lease that stands where it is kept: no more of it is written than the seats.
    /// What it held is forgotten.
    pub fn lease_into(&mut self, n: u32, lease: &mut Lease) -> Result<(), Full>
        ensures full { IsErr result ↔ (length self.old.free < n) }
        ensures refused { OnErr result (self.new ≡ self.old) }
        ensures kept { OnErr result (lease.new ≡ lease.old) }
        ensures leased { OnOk result (Leases self.old n lease.new self.new) }
        ensures apart { OnOk result (StandsApart self.old lease.new self.new) }
    {
        if n > self.free() {
            return Err(Full);
        }
        let from = self.free.len() - n as usize;
        lease.fill(&self.free.as_slice()[from..]);
        let first = lease.first();
        // Their numbers are copied at once. No byte is written to tell contracts whose a seat is, so of
        // the turns of this loop there is left how many fewer are free.
        for i in 0..n {
            self.claim(first, n - 1 - i);
        }
        Ok(())
    }

    /// Takes a lease's buffers back, each with the bytes that it has. All are at home.
    pub fn give_back(&mut self, lease: Lease)
        requires lease { IsLease self.old lease }
        requires home { AllHome self.old lease }
        ensures freed { Returns self.old lease self.new }
        ensures others { KeepsOthers self.old lease self.new }
    {
        self.return_from(&lease);
    }

    /// The same, of a lease that stays where it is kept. Its seats are another's from then on.
    pub fn return_from(&mut self, lease: &Lease)
        requires lease { IsLease self.old lease.now }
        requires home { AllHome self.old lease.now }
        ensures freed { Returns self.old lease.now self.new }
        ensures others { KeepsOthers self.old lease.now self.new }
    {
        let at = self.free.len() as u32;
        for i in 0..lease.count() {
            release(self.seats.as_mut_slice(), lease.seat(i), at + i);
        }
        put_back(&mut self.free, lease.seats());
    }

    /// Whether the lease's buffer of that number is at home, and not out.
    pub fn home(&self, lease: &Lease, i: u32) -> bool
        requires lease { IsLease self.now lease.now }
        requires i { i < length lease.now }
        ensures { IsTrue result ↔ ((seat_at self.now.seats (get_or lease.now i 0)).out ≡ false) }
    {
        match self.seats[lease.seat(i) as usize].place {
            Place::Home(_) => true,
            Place::Out(_) => false,
        }
    }

    /// Lets the lease's buffer of that number go, which is at home.
    pub fn take(&mut self, lease: &Lease, i: u32) -> Buffer
        requires lease { IsLease self.old lease.now }
        requires i { i < length lease.now }
        requires home { (seat_at self.old.seats (get_or lease.now i 0)).out ≡ false }
        ensures bytes { result ≡ (seat_at self.old.seats (get_or lease.now i 0)).bytes }
        ensures long { length result ≡ self.old.unit }
        ensures left { self.new ≡ taken self.old (get_or lease.now i 0) }
        ensures leases { KeepsLeases self.old self.new }
    {
        let seat = &mut self.seats[lease.seat(i) as usize];
        let copied = match &seat.place {
            Place::Home(bytes) => Snapshot::of(bytes),
            Place::Out(_) => unreachable!(),
        };
        match mem::replace(&mut seat.place, Place::Out(copied)) {
            Place::Home(bytes) => Buffer {
                bytes: bytes.into_vec(),
            },
            Place::Out(_) => unreachable!(),
        }
    }

    /// Takes the lease's buffer of that number home again, which is out.
    pub fn put(&mut self, lease: &Lease, i: u32, buffer: Buffer)
        requires lease { IsLease self.old lease.now }
        requires i { i < length lease.now }
        requires out { (seat_at self.old.seats (get_or lease.now i 0)).out ≡ true }
        requires long { length buffer ≡ self.old.unit }
        ensures back { self.new ≡ put self.old (get_or lease.now i 0) buffer }
        ensures leases { KeepsLeases self.old self.new }
    {
        self.seats[lease.seat(i) as usize].place = Place::Home(Zeroed::of(buffer.bytes));
    }
}

// A lease's seat is free again, at this place of the list of free seats. Contracts alone are told.
fn release(seats: &mut [Seat], seat: u32, at: u32)
    requires { seat < length seats.old }
    ensures { map seen seats.new ≡ release at seat (map seen seats.old) }
{
    seats[seat as usize].owner = Snapshot::of(&Owner::Free(at));
}

// These seats are listed as free again.
fn put_back(free: &mut Vec<u32>, seats: &[u32])
    requires { vec_len free.old + length seats.now ≤ vec_capacity free.old }
    ensures items { free.new.items ≡ free.old.items ++ seats.now }
    ensures room { vec_capacity free.old ≤ vec_capacity free.new }
{
    let back = free.extend_from_slice(seats).is_ok();
    prove!(back);
}
