//! The maps of a labelled array: the memory that they take, and how they are read.
ghost use Rattle.std.specs.Prelude.{◌≡◌, ◌*◌, IfOk};
ghost use Rattle.eng_cols.specs.Cols.{IsFor};
ghost use Rattle.top_acts.specs.Begun.{CanAct};
ghost use Rattle.top_acts.specs.Mapped.{AreUnmarked, LooksAtMaps};

use crate::judging::judge_end;
use blk_disk::Disk;
use lay_core::{Layout, StripeMap};
use raid_map::{Map, MapRoom, Memory, read_maps};
use std::alloc::Global;
use top_close::{Hand, deaths_bring_no_unit_back};

/// The parity maps of a labelled array, with all the memory that they take.
#[derive(Drop)]
pub struct Maps {
    /// What the maps of the devices in use marked together as the array was opened.
    pub union: Map,
    /// What they are marked while clients are served.
    pub marks: Map,
    /// Room for the sweep of marked stripes: 1,024 bytes for each sector of a unit.
    pub room: MapRoom,
    /// Room for the stripes of one operation.
    pub cut: StripeMap,
}

impl Maps {
    /// Maps without marks, of an array of this layout and serial. The only error is want of memory.
    pub fn open<L: Layout>(alloc: Global, layout: &L, serial: u32) -> Result<Maps, Memory>
        ensures { IfOk result (AreUnmarked (L.shape layout.now) serial) }
    {
        let stripes = layout.stripes();
        let union = Map::open(alloc, stripes, serial)?;
        let marks = Map::open(alloc, stripes, serial)?;
        let room = MapRoom::open(alloc, 1024 * layout.unit_sectors())?;
        match StripeMap::with_room(alloc) {
            Ok(cut) => Ok(Maps {
                union,
                marks,
                room,
                cut,
            }),
            Err(_) => Err(Memory),
        }
    }
}

/// Reads sector 1 of each device in use, once, so that the union is what their maps mark together.
/// A device that can't be read makes its column dead; where the array is lost by that, a column that
/// was filling is dead. No sector changes.
///
/// The array isn't lost before. No memory is taken.
pub fn look_at_maps<L: Layout, D: Disk>(
    layout: &L,
    devices: &mut [Option<D>],
    hand: &mut Hand,
    union: &mut Map,
)
    requires can { CanAct D.Disk (L.shape layout.now) hand.old.ending.columns.items devices.old }
    requires map { union.old.stripes ≡ (L.shape layout.now).stripes }
    requires judge { IsFor (L.shape layout.now) hand.old.judge }
    ensures looks { LooksAtMaps D.Disk (L.shape layout.now) union.old union.new
        hand.old.ending.columns.items hand.new.ending.columns.items
        devices.old devices.new hand.new.ending.lost }
    ensures can { CanAct D.Disk (L.shape layout.now) hand.new.ending.columns.items devices.new }
    ensures judge { IsFor (L.shape layout.now) hand.new.judge }
{
    deaths_bring_no_unit_back();
    let _ = read_maps(union, devices, hand.ending.columns.as_mut_slice());
    judge_end(layout, hand);
}
