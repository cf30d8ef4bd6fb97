//! The end of a run.
ghost use Rattle.std.specs.Prelude.{ℕ, length};
ghost use Rattle.blk_disk.specs.Devices.{calls_of};
ghost use Rattle.eng_cols.specs.Cols.{IsFor, HasDeviceOn};
ghost use Rattle.eng_cols.specs.Settable.{IsSettable};
ghost use Rattle.top_close.specs.Calls.{EndsSettled};
ghost use Rattle.top_close.specs.Settled.{HaveDevices, AreSettled};
ghost use Rattle.eng_cols.specs.Stripes.{states_of};
ghost use Rattle.top_close.specs.Ended.{IsLossBy};

use crate::judging::loss_of;
use crate::settling::settle_all;
use blk_disk::Disk;
use eng_cols::{Cols, Column, Loss};
use lay_core::Layout;

/// How a run ends: its columns, and by what the array was lost, if it was.
#[derive(Drop)]
pub struct Ending {
    /// The columns, at most one of them filling.
    pub columns: Vec<Column>,
    /// By what the array is lost; None where it isn't.
    pub lost: Option<Loss>,
}

/// What work on an array changes beside its devices: its columns as they are by now, by what it is
/// lost, if it is, and room to judge that.
#[derive(Drop)]
pub struct Hand {
    pub ending: Ending,
    /// It may hold any columns, as many as the layout has.
    pub judge: Cols,
}

/// Settles each device in use, last of all its calls, one after the other; a column whose device
/// fails that is dead. Then the array is lost by what it was lost by before, or else by the columns
/// as they are in the end.
///
/// So ends a run over an array without labels. No sector changes, and no memory is taken.
pub fn settle<L: Layout, D: Disk>(layout: &L, devices: &mut [Option<D>], hand: &mut Hand)
    requires devices { HaveDevices hand.old.ending.columns.items devices.old }
    requires columns { IsSettable (L.shape layout.now) hand.old.ending.columns.items }
    requires judge { IsFor (L.shape layout.now) hand.old.judge }
    ensures settled { AreSettled D.Disk (length hand.old.ending.columns.items)
        hand.old.ending.columns.items hand.new.ending.columns.items devices.old devices.new }
    ensures last { (c d : ℕ) → HasDeviceOn hand.new.ending.columns.items c d →
        EndsSettled (calls_of D.Disk devices.new d) }
    ensures lost { IsLossBy (L.shape layout.now) hand.old.ending.lost
        (states_of (L.shape layout.now) hand.new.ending.columns.items) hand.new.ending.lost }
    ensures judge { IsFor (L.shape layout.now) hand.new.judge }
{
    let columns = hand.ending.columns.as_mut_slice();
    settle_all(devices, columns);
    if hand.ending.lost.is_none() {
        hand.ending.lost = loss_of(layout, columns, &mut hand.judge);
    }
}
