//! The check units of an array are initialised, or those rewritten that aren't in sync.
ghost use Rattle.std.specs.Prelude.{◌≡◌, ◌≤◌, ◌<◌, ◌+◌, ◌*◌, ◌^◌};
ghost use Rattle.eng_cols.specs.Cols.{IsFor};
ghost use Rattle.raid_recon.specs.Array.{IsArray};
ghost use Rattle.eng_cols.specs.Settable.{IsSettable};
ghost use Rattle.top_acts.specs.Begun.{CanAct};
ghost use Rattle.top_acts.specs.Done.{unless_lost};
ghost use Rattle.top_acts.specs.Mapped.{AreMaps, AreUnmarked};
ghost use Rattle.top_acts.specs.Renewed.{IsRenewed, IsRenewedPlain, renewed};
ghost use Rattle.top_rounds.specs.Labels.{IsLabelFor};

use crate::beginning::begin_labelled;
use crate::clearing::end_mapped;
use crate::done::Done;
use crate::maps::{Maps, look_at_maps};
use crate::opening::{Notice, Opening, Sweeps};
use crate::sweeping::{Renewal, sweep_and_judge};
use blk_disk::{Disk, StopDisk};
use eng_cols::Loss;
use lay_core::Layout;
use raid_label::Label;
use raid_progress::Progress;
use raid_recon::SweepRoom;
use top_close::{Hand, deaths_bring_no_unit_back, settle};

// What was done, of so many check units.
fn done(kind: Renewal, count: u64, lost: Option<Loss>) -> Done
    ensures { result ≡ unless_lost lost (renewed kind count) }
{
    if lost.is_some() {
        return Done::Nothing;
    }
    match kind {
        Renewal::Init => Done::Init(count),
        Renewal::Rewrite => Done::Rewrite(count),
    }
}

/// Renews the check units of a labelled array: the maps of its devices are read, the opening round is
/// written, the stripes are swept, each device in use is settled, the closing round is written, whose
/// labels are clean, and each is settled again; and where one of the maps marked something they are
/// cleared. A column is dead whose device fails. Where the array is lost on the way, what is
/// left of that isn't done, but for the one round of a lost array; one that is lost as its maps are
/// read is left as it is. Tells how many check units were written.
///
/// `label` is the newest's, and in the end the label of the last round. All else is as in
/// [`begin_labelled`](crate::begin_labelled).
pub fn renew<L: Layout, D: StopDisk, P: Progress>(
    kind: Renewal,
    layout: &L,
    devices: &mut [Option<D>],
    hand: &mut Hand,
    label: &mut Label,
    room: &mut SweepRoom<P>,
    maps: &mut Maps,
) -> Done
    requires can { CanAct D.Disk (L.shape layout.now) hand.old.ending.columns.items devices.old }
    requires held { IsLabelFor hand.old.ending.columns.items label.old }
    requires counter { label.old.counter + 132 < 2 ^ 32 }
    requires room { 1024 * (L.shape layout.now).unit_sectors ≤ room.old }
    requires maps { AreUnmarked (L.shape layout.now) label.old.serial maps.old }
    requires judge { IsFor (L.shape layout.now) hand.old.judge }
    ensures renewed { IsRenewed D.Disk kind (L.shape layout.now) label.old label.new
        hand.old.ending.columns.items hand.new.ending.columns.items
        devices.old devices.new hand.new.ending.lost result
        maps.old.union maps.new.union }
    ensures room { room.new ≡ room.old }
    ensures maps { AreMaps (L.shape layout.now) maps.new }
    ensures kept { (maps.new.marks ≡ maps.old.marks) × (maps.new.room ≡ maps.old.room) }
    ensures judge { IsFor (L.shape layout.now) hand.new.judge }
{
    deaths_bring_no_unit_back();
    look_at_maps(layout, devices, hand, &mut maps.union);
    if hand.ending.lost.is_some() {
        return Done::Nothing;
    }
    let opening = Opening {
        notice: Notice::Round,
        sweeps: Sweeps::Over(kind),
    };
    let count = begin_labelled(opening, layout, devices, hand, label, room, &mut maps.room);
    if hand.ending.lost.is_some() {
        return Done::Nothing;
    }
    label.clean = 1;
    let clear = (maps.union.count() > 0).then_some(&maps.marks);
    end_mapped(layout, devices, hand, label, clear);
    done(kind, count, hand.ending.lost)
}

/// Renews the check units of an array without labels: the stripes are swept, and then each device in
/// use is settled, whether the array is lost or not. A column is dead whose device fails. Tells how
/// many check units were written.
///
/// The array isn't lost as it is opened. `room` has 1,024 bytes for each sector of a unit. No
/// memory is taken.
pub fn renew_unlabelled<L: Layout, D: Disk, P: Progress>(
    kind: Renewal,
    layout: &L,
    devices: &mut [Option<D>],
    hand: &mut Hand,
    room: &mut SweepRoom<P>,
) -> Done
    requires array { IsArray D.Disk (L.shape layout.now) hand.old.ending.columns.items devices.old }
    requires columns { IsSettable (L.shape layout.now) hand.old.ending.columns.items }
    requires room { 1024 * (L.shape layout.now).unit_sectors ≤ room.old }
    requires judge { IsFor (L.shape layout.now) hand.old.judge }
    ensures renewed { IsRenewedPlain D.Disk kind (L.shape layout.now)
        hand.old.ending.columns.items hand.new.ending.columns.items
        devices.old devices.new hand.new.ending.lost result }
    ensures room { room.new ≡ room.old }
    ensures judge { IsFor (L.shape layout.now) hand.new.judge }
{
    deaths_bring_no_unit_back();
    let count = sweep_and_judge(kind, layout, devices, hand, room);
    hand.ending.lost = None;
    settle(layout, devices, hand);
    done(kind, count, hand.ending.lost)
}
