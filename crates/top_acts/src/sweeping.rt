//! The check units of an array are renewed, in one sweep over its stripes.
ghost use Rattle.std.specs.Prelude.{◌≡◌, ◌≤◌, ◌*◌, None};
ghost use Rattle.eng_cols.specs.Cols.{IsFor};
ghost use Rattle.raid_recon.specs.Array.{IsArray};
ghost use Rattle.eng_cols.specs.Settable.{IsSettable};
ghost use Rattle.raid_map.specs.Sweeping.{marks_stripe};
ghost use Rattle.top_acts.specs.Sweeps.{sweep_of};
ghost use Rattle.top_acts.specs.Begun.{CanAct};
ghost use Rattle.top_acts.specs.Marking.{MarksAll};
ghost use Rattle.top_acts.specs.Sweeping.{DoesSweep, SweepsMarked};
ghost use Rattle.eng_cols.specs.Stripes.{states_of};
ghost use Rattle.top_close.specs.Ended.{IsLossBy};

use blk_disk::{Disk, StopDisk};
use eng_cols::{Cols, Column};
use lay_core::Layout;
use raid_map::{Map, MapRoom, mark_all, sweep_marked};
use raid_progress::Progress;
use raid_recon::{SweepRoom, sweep_init, sweep_sync};
use top_close::{Hand, deaths_bring_no_unit_back, loss_of};

/// Which check units are written, of the stripes that lack no unit.
#[derive(Clone, Copy, Debug, PartialEq, Eq)]
pub enum Renewal {
    /// All, whatever they hold.
    Init,
    /// Those of stripes that aren't in sync.
    Rewrite,
}

// One sweep over the columns' stripes. Says how many check units were written.
fn sweep<L: Layout, D: Disk, P: Progress>(
    kind: Renewal,
    layout: &L,
    devices: &mut [Option<D>],
    columns: &mut [Column],
    room: &mut SweepRoom<P>,
    judge: &mut Cols,
) -> u64
    requires array { IsArray D.Disk (L.shape layout.now) columns.old devices.old }
    requires columns { IsSettable (L.shape layout.now) columns.old }
    requires room { 1024 * (L.shape layout.now).unit_sectors ≤ room.old }
    requires judge { IsFor (L.shape layout.now) judge.old }
    ensures swept { DoesSweep D.Disk (sweep_of kind) (L.shape layout.now)
        columns.old columns.new devices.old devices.new result }
    ensures room { room.new ≡ room.old }
    ensures judge { IsFor (L.shape layout.now) judge.new }
{
    match kind {
        Renewal::Init => sweep_init(layout, devices, columns, room, judge),
        Renewal::Rewrite => sweep_sync(layout, devices, columns, room, judge),
    }
}

/// The same, and by what the array is lost behind it.
pub(crate) fn sweep_and_judge<L: Layout, D: Disk, P: Progress>(
    kind: Renewal,
    layout: &L,
    devices: &mut [Option<D>],
    hand: &mut Hand,
    room: &mut SweepRoom<P>,
) -> u64
    requires array { IsArray D.Disk (L.shape layout.now) hand.old.ending.columns.items devices.old }
    requires columns { IsSettable (L.shape layout.now) hand.old.ending.columns.items }
    requires room { 1024 * (L.shape layout.now).unit_sectors ≤ room.old }
    requires judge { IsFor (L.shape layout.now) hand.old.judge }
    ensures swept { DoesSweep D.Disk (sweep_of kind) (L.shape layout.now)
        hand.old.ending.columns.items hand.new.ending.columns.items devices.old devices.new result }
    ensures lost { IsLossBy (L.shape layout.now) None
        (states_of (L.shape layout.now) hand.new.ending.columns.items) hand.new.ending.lost }
    ensures room { room.new ≡ room.old }
    ensures judge { IsFor (L.shape layout.now) hand.new.judge }
{
    deaths_bring_no_unit_back();
    let columns = hand.ending.columns.as_mut_slice();
    let count = sweep(kind, layout, devices, columns, room, &mut hand.judge);
    hand.ending.lost = loss_of(layout, columns, &mut hand.judge);
    count
}

/// Rewrites the check units of the stripes that a map marks, which lack no unit and aren't in sync, and
/// says how many; and by what the array is lost behind it.
pub(crate) fn sweep_marks_and_judge<L: Layout, D: StopDisk>(
    map: &Map,
    layout: &L,
    devices: &mut [Option<D>],
    hand: &mut Hand,
    room: &mut MapRoom,
) -> u64
    requires array { IsArray D.Disk (L.shape layout.now) hand.old.ending.columns.items devices.old }
    requires columns { IsSettable (L.shape layout.now) hand.old.ending.columns.items }
    requires map { map.now.stripes ≡ (L.shape layout.now).stripes }
    requires room { 1024 * (L.shape layout.now).unit_sectors ≤ room.old }
    requires judge { IsFor (L.shape layout.now) hand.old.judge }
    ensures swept { SweepsMarked D.Disk (L.shape layout.now) (marks_stripe map.now)
        hand.old.ending.columns.items hand.new.ending.columns.items devices.old devices.new result }
    ensures lost { IsLossBy (L.shape layout.now) None
        (states_of (L.shape layout.now) hand.new.ending.columns.items) hand.new.ending.lost }
    ensures room { room.new ≡ room.old }
    ensures judge { IsFor (L.shape layout.now) hand.new.judge }
{
    deaths_bring_no_unit_back();
    let columns = hand.ending.columns.as_mut_slice();
    let count = sweep_marked(layout, devices, columns, map, room, &mut hand.judge);
    hand.ending.lost = loss_of(layout, columns, &mut hand.judge);
    count
}

/// Writes a map on each device in use, and settles it; and by what the array is lost behind it.
pub(crate) fn mark_and_judge<L: Layout, D: StopDisk>(
    map: &Map,
    layout: &L,
    devices: &mut [Option<D>],
    hand: &mut Hand,
)
    requires can { CanAct D.Disk (L.shape layout.now) hand.old.ending.columns.items devices.old }
    requires judge { IsFor (L.shape layout.now) hand.old.judge }
    ensures marked { MarksAll D.Disk map.now
        hand.old.ending.columns.items hand.new.ending.columns.items devices.old devices.new }
    ensures lost { IsLossBy (L.shape layout.now) None
        (states_of (L.shape layout.now) hand.new.ending.columns.items) hand.new.ending.lost }
    ensures judge { IsFor (L.shape layout.now) hand.new.judge }
{
    deaths_bring_no_unit_back();
    let columns = hand.ending.columns.as_mut_slice();
    mark_all(map, devices, columns);
    hand.ending.lost = loss_of(layout, columns, &mut hand.judge);
}
