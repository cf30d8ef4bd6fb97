//! The store.
ghost use Rattle.std.specs.Prelude.{◌≡◌, ◌≤◌, ◌+◌, ◌*◌, ◌%◌, ◌↔◌, IfOk, IsTrue, length, replicate};
ghost use Rattle.blk_disk.specs.Disk.{sector_at};
ghost use Rattle.blk_disk.specs.Sectors.{put};

use crate::memory::Memory;
use crate::places::{are_equal, place_for};
use blk_plain::SECTOR;
use std::alloc::Global;
use std::marker::Model;

/// Sectors by number, all zero at first. Contracts see their bytes, those of one sector behind those of the one before.
///
/// What is read from an array is often one of few sectors many times. So a sector isn't kept again where the last one that
/// was kept and begins with the same byte has its bytes. There is room for all sectors from the start, which a system
/// gives as it is touched; no more of it is touched than is kept.
#[derive(Drop)]
pub struct Store {
    // For each sector the place of its bytes among those that are kept.
    places: Vec<u32>,
    // The first are zeros.
    kept: Vec<[u8; SECTOR]>,
    // For each byte the place of the last one that was kept and begins with it, if there is one.
    recent: Vec<u32>,
}

impl Model for Store {
    ghost use Rattle.std.specs.Prelude.{◌≡◌, List, ℕ, length, map, vec_capacity};
    ghost use Rattle.std.specs.List.{concat};
    ghost use Rattle.sector_store.specs.Places.{kept_at, AreKept};

    ghost Value = { List ℕ };

    ghost view = { λ s. concat (map (kept_at s.kept.items) s.places.items) };

    ghost invariant = { λ s. record {
      kept : AreKept s.kept.items s.places.items (vec_capacity s.kept);
      recent : length s.recent.items ≡ 256;
    } };
}

impl Store {
    /// So many sectors of zeros. The only error is want of memory.
    pub fn open(alloc: Global, count: usize) -> Result<Store, Memory>
        requires { count ≤ 262144 }
        ensures zeros { IfOk result (λ store. store ≡ replicate (512 * count) 0) }
        ensures long { IfOk result (λ store. length store ≡ 512 * count) }
    {
        let places = vec![in alloc; 0; count]?;
        let recent = vec![in alloc; 0; 256]?;
        let mut kept = Vec::with_capacity(alloc, 2 * count + 1)?;
        kept.push_reserved([0; SECTOR]);
        Ok(Store {
            places,
            kept,
            recent,
        })
    }

    /// How many they are.
    pub fn len(&self) -> usize
        ensures { 512 * result ≡ length self.now }
    {
        self.places.len()
    }

    /// The bytes of a sector.
    pub fn sector(&self, at: usize) -> &[u8; SECTOR]
        requires { 512 * at + 512 ≤ length self.now }
        ensures { result.now ≡ sector_at self.now at }
    {
        &self.kept[self.places[at] as usize]
    }

    /// Whether two sectors have the same bytes.
    pub fn same(&self, one: usize, other: usize) -> bool
        requires one { 512 * one + 512 ≤ length self.now }
        requires other { 512 * other + 512 ≤ length self.now }
        ensures { IsTrue result ↔ (sector_at self.now one ≡ sector_at self.now other) }
    {
        self.places[one] == self.places[other] || are_equal(self.sector(one), self.sector(other))
    }

    // Puts these bytes in the place of a sector's.
    fn put_one(&mut self, at: usize, sector: &[u8; SECTOR])
        requires { 512 * at + 512 ≤ length self.old }
        ensures now { self.new ≡ put self.old at sector.now }
        ensures long { length self.new ≡ length self.old }
    {
        let count = self.places.len();
        let first = sector[0] as usize;
        let place = place_for(&mut self.kept, count, at, self.recent[first], sector);
        self.recent[first] = place;
        self.places[at] = place;
    }

    /// Puts the bytes of whole sectors in the place of those from a sector on.
    pub fn put(&mut self, first: usize, from: &[u8])
        requires whole { length from.now % 512 ≡ 0 }
        requires fits { 512 * first + length from.now ≤ length self.old }
        ensures now { self.new ≡ put self.old first from.now }
        ensures long { length self.new ≡ length self.old }
    {
        // A call of the store makes known that its numbers are small.
        let _count = self.len();
        let sectors = from.as_chunks::<SECTOR>().0;
        for i in 0..sectors.len() {
            self.put_one(first + i, &sectors[i]);
        }
    }
}
