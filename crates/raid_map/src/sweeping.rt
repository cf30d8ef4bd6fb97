//! The sweep over the marked stripes.
ghost use Rattle.std.specs.Prelude.{◌≡◌, ◌<◌, ◌≤◌, ◌*◌, ℕ, IfOk, true};
ghost use Rattle.blk_disk.specs.Devices.{contents_of, calls_of};
ghost use Rattle.eng_cols.specs.Cols.{IsFor};
ghost use Rattle.eng_cols.specs.Contents.{InSync};
ghost use Rattle.eng_cols.specs.Settable.{IsSettable};
ghost use Rattle.eng_cols.specs.Stripes.{states_of};
ghost use Rattle.raid_recon.specs.Array.{IsArray};
ghost use Rattle.raid_recon.specs.Ends.{ChecksHold};
ghost use Rattle.raid_recon.specs.Units.{SweepsStripe};
ghost use Rattle.raid_recon.specs.declared.kind.Sweep.TheVariants as sweep;
ghost use Rattle.raid_map.specs.Sweeping.{marks_stripe, UnsoundAreMarked, IsSweptTo, IsCountedTo, CallsMarked};

use crate::map::Map;
use crate::memory::Memory;
use blk_disk::{Disk, StopDisk};
use eng_cols::{Cols, Column};
use lay_core::Layout;
use raid_recon::{Room, sync_one};
use std::alloc::Global;
use std::marker::Model;

/// Room for two units. A sweep needs 1,024 bytes for each sector of a unit.
#[derive(Drop)]
pub struct MapRoom {
    room: Room,
}

impl Model for MapRoom {
    ghost use Rattle.std.specs.Prelude.{ℕ};

    ghost Value = { ℕ };

    ghost view = { λ r. r.room };

    ghost invariant = { λ r. Unit {0} };
}

impl MapRoom {
    /// Room of so many bytes. The only error is want of memory.
    pub fn open(alloc: Global, bytes: u32) -> Result<MapRoom, Memory>
        ensures { IfOk result (λ room. room ≡ bytes) }
    {
        match Room::open(alloc, bytes) {
            Ok(room) => Ok(MapRoom { room }),
            Err(_) => Err(Memory),
        }
    }
}

/// Rewrites the check unit of each marked stripe that lacks no unit and doesn't sum to zero, and
/// answers how many it rewrote. The map was opened for the layout's number of stripes.
pub fn sweep_marked<L: Layout, D: StopDisk>(
    layout: &L,
    devices: &mut [Option<D>],
    columns: &mut [Column],
    map: &Map,
    room: &mut MapRoom,
    judge: &mut Cols,
) -> u64
    requires array { IsArray D.Disk (L.shape layout.now) columns.old devices.old }
    requires columns { IsSettable (L.shape layout.now) columns.old }
    requires map { map.now.stripes ≡ (L.shape layout.now).stripes }
    requires room { 1024 * (L.shape layout.now).unit_sectors ≤ room.old }
    requires judge { IsFor (L.shape layout.now) judge.old }
    ensures swept { (L.shape layout.now).checks ≡ 1 → IsSweptTo D.Disk (L.shape layout.now)
        (marks_stripe map.now) columns.old devices.old (L.shape layout.now).stripes
        columns.new devices.new }
    ensures counted { (L.shape layout.now).checks ≡ 1 → IsCountedTo D.Disk (L.shape layout.now)
        (marks_stripe map.now) columns.old devices.old (L.shape layout.now).stripes columns.new
        result }
    ensures checks { (L.shape layout.now).checks ≡ 1 → D.tells → ChecksHold D.Disk
        (L.shape layout.now) columns.old columns.new devices.old devices.new }
    ensures in_sync { D.tells → UnsoundAreMarked D.Disk (L.shape layout.now) (marks_stripe map.now)
        columns.old devices.old → InSync (L.shape layout.now) (contents_of D.Disk devices.new)
        (states_of (L.shape layout.now) columns.new) }
    ensures calls { (d : ℕ) → CallsMarked (L.shape layout.now)
        (states_of (L.shape layout.now) columns.old) (marks_stripe map.now) d
        (calls_of D.Disk devices.old d) (calls_of D.Disk devices.new d) }
    ensures none { (L.shape layout.now).checks ≡ 0 →
        (result ≡ 0) × ((columns.new ≡ columns.old) × (devices.new ≡ devices.old)) }
    ensures room { room.new ≡ room.old }
    ensures judge { IsFor (L.shape layout.now) judge.new }
{
    if layout.checks() == 0 {
        return 0;
    }
    judge.set(layout, columns);
    let mut count = 0;
    for stripe in 0..layout.stripes() {
        if map.marked(stripe) {
            if sync_one(layout, devices, columns, stripe, &mut room.room, judge) {
                count += 1;
            }
        }
    }
    count
}
