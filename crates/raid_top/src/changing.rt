//! An array that was admitted is changed without a core.
ghost use Rattle.std.specs.Prelude.{◌≤◌, ◌*◌, IfOk};
ghost use Rattle.eng_cols.specs.Cols.{IsFor};
ghost use Rattle.eng_cols.specs.Settable.{IsSettable};
ghost use Rattle.raid_conf.specs.Layouts.{shape_in};
ghost use Rattle.top_rounds.specs.Passes.{CanBeLabelled};
ghost use Rattle.raid_top.specs.Arrays.{HaveMapsFor, MayDo};
ghost use Rattle.raid_top.specs.Served.{ComesOfOrder};

use crate::array::{Array, Order};
use crate::came::Came;
use crate::doing::alter;
use blk_disk::StopDisk;
use lay_core::Layout;
use raid_map::Memory;
use raid_progress::Progress;
use raid_recon::SweepRoom;
use std::alloc::Global;
use top_acts::Maps;
use top_close::{Ending, Hand};
use top_duty::Ready;

/// The maps of an array of this layout, where its check units are renewed and it has labels.
pub(crate) fn maps_for<L: Layout>(
    alloc: Global,
    order: &Order,
    layout: &L,
) -> Result<Option<Maps>, Memory>
    ensures { IfOk result (HaveMapsFor (L.shape layout.now) order.now) }
{
    match order {
        Order::Renew(_, Some(newest)) => Ok(Some(Maps::open(alloc, layout, newest.serial)?)),
        Order::Renew(_, None) | Order::Check | Order::Kill(_, _) | Order::Label(_) => Ok(None),
    }
}

/// Does something to the array, and says what came of it, with its devices. No memory is taken.
pub(crate) fn change<D: StopDisk, P: Progress>(
    order: Order,
    ready: Ready,
    maps: Option<Maps>,
    mut devices: Vec<Option<D>>,
    progress: &P,
) -> (Came, Vec<Option<D>>)
    requires columns { IsSettable (shape_in ready.layout) ready.opened.columns.items }
    requires labels { CanBeLabelled D.Disk ready.opened.columns.items devices.items }
    requires judge { IsFor (shape_in ready.layout) ready.judge }
    requires room { 1024 * (shape_in ready.layout).unit_sectors ≤ ready.room }
    requires maps { HaveMapsFor (shape_in ready.layout) order maps }
    requires may { MayDo D.Disk (shape_in ready.layout) ready.opened.columns.items order
        devices.items }
    ensures { ComesOfOrder D.Disk (shape_in ready.layout) ready.opened.columns.items
        devices.items result.1.items order result.0 }
{
    let Ready {
        opened,
        layout,
        judge,
        room,
        ..
    } = ready;
    let ending = Ending {
        columns: opened.columns,
        lost: None,
    };
    let mut array = Array {
        layout,
        hand: Hand { ending, judge },
        room: SweepRoom::new(room, progress),
        maps,
    };
    let act = alter(order, devices.as_mut_slice(), &mut array);
    let Array { hand, .. } = array;
    (Came::Did(act, hand.ending), devices)
}
