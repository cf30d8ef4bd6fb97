//! The stripes are tested.
ghost use Rattle.std.specs.Prelude.{◌≡◌, ◌≤◌, ◌*◌};
ghost use Rattle.eng_cols.specs.Cols.{IsFor};
ghost use Rattle.raid_recon.specs.Array.{IsArray};
ghost use Rattle.eng_cols.specs.Settable.{IsSettable};
ghost use Rattle.top_acts.specs.Checked.{IsChecked};

use crate::done::Done;
use crate::judging::judge_end;
use blk_disk::Disk;
use lay_core::Layout;
use raid_progress::Progress;
use raid_recon::{SweepRoom, sweep_check};
use top_close::{Hand, deaths_bring_no_unit_back};

/// Counts the stripes that aren't in sync, of those that lack no unit. A column is dead whose device
/// fails a read; then the array may be lost, and a column that was filling is dead.
///
/// No sector changes: no label is written, and nothing is settled. The array isn't lost as it is
/// opened. `room` has 1,024 bytes for each sector of a unit. No memory is taken.
pub fn check<L: Layout, D: Disk, P: Progress>(
    layout: &L,
    devices: &mut [Option<D>],
    hand: &mut Hand,
    room: &mut SweepRoom<P>,
) -> Done
    requires array { IsArray D.Disk (L.shape layout.now) hand.old.ending.columns.items devices.old }
    requires columns { IsSettable (L.shape layout.now) hand.old.ending.columns.items }
    requires room { 1024 * (L.shape layout.now).unit_sectors ≤ room.old }
    requires judge { IsFor (L.shape layout.now) hand.old.judge }
    ensures checked { IsChecked D.Disk (L.shape layout.now) hand.old.ending.columns.items
        hand.new.ending.columns.items devices.old devices.new hand.new.ending.lost result }
    ensures room { room.new ≡ room.old }
    ensures judge { IsFor (L.shape layout.now) hand.new.judge }
{
    deaths_bring_no_unit_back();
    let columns = hand.ending.columns.as_mut_slice();
    let count = sweep_check(layout, devices, columns, room, &mut hand.judge);
    judge_end(layout, hand);
    match hand.ending.lost {
        Some(_) => Done::Nothing,
        None => Done::Check(count),
    }
}
