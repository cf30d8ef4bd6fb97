//! What reads hand out.
ghost use Rattle.std.specs.Prelude.{◌≡◌, ◌<◌, ◌≤◌, ◌+◌, ◌*◌, length, take, [], slice_index_or};
ghost use Rattle.blk_disk.specs.Sectors.{put};
ghost use Rattle.eng_log.specs.Handed.{AreRegions, region_at};

mod open;

use crate::region::Region;
use blk_plain::SECTOR;
use sector_store::Store;
use std::marker::Model;

/// The regions of one client's items.
#[derive(Drop)]
pub struct Regions {
    pub(crate) list: Vec<Region>,
}

impl Model for Regions {
    ghost use Rattle.std.specs.Prelude.{List};
    ghost use Rattle.eng_log.specs.declared.region.Region.{Region};

    ghost Value = { List Region };

    ghost view = { λ r. r.list.items };
}

/// The sectors that reads hand out: a region for each read, so that no reply takes memory.
#[derive(Drop)]
pub struct Handed {
    pub(crate) bytes: Store,
    pub(crate) regions: Vec<Regions>,
}

impl Model for Handed {
    ghost use Rattle.eng_log.specs.Handed.{Handout, AreRegions};

    ghost Value = { Handout };

    ghost view = { λ h. record { bytes = h.bytes; regions = h.regions.items } };

    ghost invariant = { λ h. AreRegions (record { bytes = h.bytes; regions = h.regions.items }) };
}

impl Regions {
    /// The region of an item.
    pub fn region(&self, item: u32) -> Region
        requires { item < length self.now }
        ensures { result ≡ slice_index_or self.now item (record { first = 0; count = 0 }) }
    {
        self.list[item as usize]
    }
}

impl Handed {
    /// The region of an item.
    pub fn region(&self, client: u32, item: u32) -> Region
        requires client { client < length self.now.regions }
        requires item { item < length (slice_index_or self.now.regions client []) }
        ensures { result ≡ region_at self.now client item }
    {
        self.regions[client as usize].region(item)
    }

    /// Puts the first so many sectors of these bytes in the place of those from a sector on.
    pub(crate) fn copy(&mut self, first: usize, count: u32, from: &[u8])
        requires count { 512 * count ≤ length from.now }
        requires fits { 512 * first + 512 * count ≤ length self.old.bytes }
        ensures { self.new ≡ record self.old
            { bytes = put self.old.bytes first (take (512 * count) from.now) } }
    {
        self.bytes.put(first, &from[..SECTOR * count as usize]);
    }

    /// The sectors, and the regions of each client's items.
    pub fn close(self) -> (Store, Vec<Regions>)
        ensures bytes { result.0 ≡ self.bytes }
        ensures regions { result.1.items ≡ self.regions }
    {
        (self.bytes, self.regions)
    }

    /// What is so of the regions. It does nothing.
    pub fn stands(&self)
        ensures { AreRegions self.now }
    {
        let _regions = self.regions.len();
    }
}
