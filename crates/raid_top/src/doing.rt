//! What is done to an array without a core.
ghost use Rattle.raid_top.specs.Arrays.{DoesOrder, HaveMaps, HaveMapsFor, IsNewest, IsSoundArray, MayDo, Renews, ending_seen};
ghost use Rattle.raid_recon.specs.Array.{IsArray};

use crate::array::{Array, Order};
use blk_disk::StopDisk;
use lay_core::Layout;
use raid_label::Label;
use raid_progress::Progress;
use top_acts::{Done, Renewal, check, kill, label, renew, renew_unlabelled};

// Rewrites the check units, and the labels where there are any.
fn rewrite<L: Layout, D: StopDisk, P: Progress>(
    kind: Renewal,
    newest: Option<Label>,
    devices: &mut [Option<D>],
    array: &mut Array<L, P>,
) -> Done
    requires sound { IsSoundArray L.Layout D.Disk array.old devices.old }
    requires large { IsArray D.Disk (L.shape array.old.layout) array.old.hand.ending.columns.items
        devices.old }
    requires newest { IsNewest array.old.hand.ending.columns.items newest }
    requires maps { HaveMaps (L.shape array.old.layout) newest array.old.maps }
    ensures { Renews D.Disk (L.shape array.old.layout) array.old.hand.ending.columns.items
        devices.old devices.new result (ending_seen array.new.hand.ending) kind newest }
{
    let layout = &array.layout;
    let hand = &mut array.hand;
    let room = &mut array.room;
    match (newest, &mut array.maps) {
        (Some(mut label), Some(maps)) => {
            renew(kind, layout, devices, hand, &mut label, room, maps)
        }
        (Some(_), None) => unreachable!(),
        (None, _) => renew_unlabelled(kind, layout, devices, hand, room),
    }
}

/// Does something to an array. No memory is taken.
pub(crate) fn alter<L: Layout, D: StopDisk, P: Progress>(
    order: Order,
    devices: &mut [Option<D>],
    array: &mut Array<L, P>,
) -> Done
    requires sound { IsSoundArray L.Layout D.Disk array.old devices.old }
    requires may { MayDo D.Disk (L.shape array.old.layout) array.old.hand.ending.columns.items order
        devices.old }
    requires maps { HaveMapsFor (L.shape array.old.layout) order array.old.maps }
    ensures { DoesOrder D.Disk (L.shape array.old.layout) array.old.hand.ending.columns.items
        devices.old devices.new result (ending_seen array.new.hand.ending) order }
{
    if let Order::Renew(kind, newest) = order {
        return rewrite(kind, newest, devices, array);
    }
    let layout = &array.layout;
    let hand = &mut array.hand;
    let room = &mut array.room;
    match order {
        Order::Check => check(layout, devices, hand, room),
        Order::Kill(column, mut newest) => kill(layout, devices, hand, column, &mut newest),
        Order::Label(mut first) => label(layout, devices, hand, &mut first),
        Order::Renew(_, _) => unreachable!(),
    }
}
