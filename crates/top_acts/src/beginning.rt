//! A labelled array is begun with: its opening round, or marks in its place, and the sweep behind that.
ghost use Rattle.std.specs.Prelude.{◌≡◌, ◌≤◌, ◌<◌, ◌+◌, ◌*◌, ◌^◌, ◌&&◌, All, None, length};
ghost use Rattle.eng_cols.specs.Cols.{IsFor};
ghost use Rattle.raid_map.specs.Sweeping.{marks_stripe};
ghost use Rattle.top_acts.specs.Begun.{CanAct, HasBegun, Opens};
ghost use Rattle.top_acts.specs.Behind.{SweepsLabelled};
ghost use Rattle.top_acts.specs.Mapped.{FitsLayout, IsOpeningFor};
ghost use Rattle.top_acts.specs.Seats.{names};
ghost use Rattle.top_acts.specs.Sweeps.{Marked, Marks, Over, notice_seen, sweep_of, sweeps_seen};
ghost use Rattle.eng_cols.specs.Stripes.{states_of};
ghost use Rattle.top_close.specs.Ended.{IsLossBy};
ghost use Rattle.top_rounds.specs.Labels.{IsLabelFor, IsNumbered};

use crate::closing::close;
use crate::ending::write_lost;
use crate::opening::{Notice, Opening, Sweeps};
use crate::sweeping::{Renewal, mark_and_judge, sweep_and_judge, sweep_marks_and_judge};
use blk_disk::StopDisk;
use eng_cols::Column;
use lay_core::Layout;
use raid_label::Label;
use raid_map::{Map, MapRoom};
use raid_progress::Progress;
use raid_recon::SweepRoom;
use top_close::{Hand, deaths_bring_no_unit_back};
use top_rounds::seats;

// The sweep over all stripes, and the one round of an array that is lost by it.
fn sweep_labelled<L: Layout, D: StopDisk, P: Progress>(
    kind: Renewal,
    layout: &L,
    devices: &mut [Option<D>],
    hand: &mut Hand,
    label: &mut Label,
    room: &mut SweepRoom<P>,
) -> u64
    requires can { CanAct D.Disk (L.shape layout.now) hand.old.ending.columns.items devices.old }
    requires held { IsLabelFor hand.old.ending.columns.items label.old }
    requires counter { label.old.counter + 33 < 2 ^ 32 }
    requires room { 1024 * (L.shape layout.now).unit_sectors ≤ room.old }
    requires judge { IsFor (L.shape layout.now) hand.old.judge }
    ensures swept { SweepsLabelled D.Disk (Over (sweep_of kind)) (L.shape layout.now)
        label.old label.new
        hand.old.ending.columns.items hand.new.ending.columns.items
        devices.old devices.new hand.new.ending.lost result }
    ensures held { IsLabelFor hand.new.ending.columns.items label.new }
    ensures lost { IsLossBy (L.shape layout.now) None
        (states_of (L.shape layout.now) hand.new.ending.columns.items) hand.new.ending.lost }
    ensures room { room.new ≡ room.old }
    ensures judge { IsFor (L.shape layout.now) hand.new.judge }
{
    deaths_bring_no_unit_back();
    let count = sweep_and_judge(kind, layout, devices, hand, room);
    if hand.ending.lost.is_some() {
        write_lost(layout, devices, hand, label);
    }
    count
}

// The sweep over the stripes that a map marks, and the one round of an array that is lost by it.
fn sweep_marks<L: Layout, D: StopDisk>(
    map: &Map,
    layout: &L,
    devices: &mut [Option<D>],
    hand: &mut Hand,
    label: &mut Label,
    room: &mut MapRoom,
) -> u64
    requires can { CanAct D.Disk (L.shape layout.now) hand.old.ending.columns.items devices.old }
    requires map { map.now.stripes ≡ (L.shape layout.now).stripes }
    requires held { IsLabelFor hand.old.ending.columns.items label.old }
    requires counter { label.old.counter + 33 < 2 ^ 32 }
    requires room { 1024 * (L.shape layout.now).unit_sectors ≤ room.old }
    requires judge { IsFor (L.shape layout.now) hand.old.judge }
    ensures swept { SweepsLabelled D.Disk (Marked (marks_stripe map.now)) (L.shape layout.now)
        label.old label.new
        hand.old.ending.columns.items hand.new.ending.columns.items
        devices.old devices.new hand.new.ending.lost result }
    ensures held { IsLabelFor hand.new.ending.columns.items label.new }
    ensures lost { IsLossBy (L.shape layout.now) None
        (states_of (L.shape layout.now) hand.new.ending.columns.items) hand.new.ending.lost }
    ensures room { room.new ≡ room.old }
    ensures judge { IsFor (L.shape layout.now) hand.new.judge }
{
    deaths_bring_no_unit_back();
    let count = sweep_marks_and_judge(map, layout, devices, hand, room);
    if hand.ending.lost.is_some() {
        write_lost(layout, devices, hand, label);
    }
    count
}

// Whether the label has the seats of these columns.
fn names(label: &Label, columns: &[Column]) -> bool
    requires columns { length columns.now ≤ 32 }
    requires numbered { All (IsNumbered (length columns.now)) columns.now }
    ensures { result ≡ names label.now columns.now }
{
    label.seats == seats(columns)
}

// Whether it does so still.
fn names_still(named: bool, label: &Label, columns: &[Column]) -> bool
    requires columns { length columns.now ≤ 32 }
    requires numbered { All (IsNumbered (length columns.now)) columns.now }
    ensures { result ≡ (named && names label.now columns.now) }
{
    named && names(label, columns)
}

// The map on each device in use. Where the array is lost by that, its one round is written. Else, where
// the label doesn't name the columns as they are opened, or as this leaves them, labels are written that
// do, so that no device that is left out comes back as if it had what is going to be written.
fn mark<L: Layout, D: StopDisk>(
    map: &Map,
    layout: &L,
    devices: &mut [Option<D>],
    hand: &mut Hand,
    label: &mut Label,
)
    requires can { CanAct D.Disk (L.shape layout.now) hand.old.ending.columns.items devices.old }
    requires map { map.now.stripes ≡ (L.shape layout.now).stripes }
    requires held { IsLabelFor hand.old.ending.columns.items label.old }
    requires counter { label.old.counter + 65 < 2 ^ 32 }
    requires judge { IsFor (L.shape layout.now) hand.old.judge }
    ensures opens { Opens D.Disk (Marks map.now) (L.shape layout.now) hand.new.ending.lost
        label.old label.new hand.old.ending.columns.items hand.new.ending.columns.items
        devices.old devices.new }
    ensures held { IsLabelFor hand.new.ending.columns.items label.new }
    ensures lost { IsLossBy (L.shape layout.now) None
        (states_of (L.shape layout.now) hand.new.ending.columns.items) hand.new.ending.lost }
    ensures judge { IsFor (L.shape layout.now) hand.new.judge }
{
    deaths_bring_no_unit_back();
    let named = names(label, &hand.ending.columns);
    mark_and_judge(map, layout, devices, hand);
    let still = names_still(named, label, &hand.ending.columns);
    if hand.ending.lost.is_some() {
        write_lost(layout, devices, hand, label);
    } else if !still {
        close(layout, devices, hand, label);
    }
}

// It is announced that sectors of the rows are going to be written, so that no stop leaves one of
// those writes without what announces it.
fn announce<L: Layout, D: StopDisk>(
    notice: Notice<'_>,
    layout: &L,
    devices: &mut [Option<D>],
    hand: &mut Hand,
    label: &mut Label,
)
    requires can { CanAct D.Disk (L.shape layout.now) hand.old.ending.columns.items devices.old }
    requires notice { IsOpeningFor (L.shape layout.now) (notice_seen notice) }
    requires held { IsLabelFor hand.old.ending.columns.items label.old }
    requires counter { label.old.counter + 65 < 2 ^ 32 }
    requires judge { IsFor (L.shape layout.now) hand.old.judge }
    ensures opens { Opens D.Disk (notice_seen notice.entry) (L.shape layout.now)
        hand.new.ending.lost label.old label.new hand.old.ending.columns.items
        hand.new.ending.columns.items devices.old devices.new }
    ensures few { label.new.counter ≤ label.old.counter + 33 }
    ensures held { IsLabelFor hand.new.ending.columns.items label.new }
    ensures lost { IsLossBy (L.shape layout.now) None
        (states_of (L.shape layout.now) hand.new.ending.columns.items) hand.new.ending.lost }
    ensures judge { IsFor (L.shape layout.now) hand.new.judge }
{
    deaths_bring_no_unit_back();
    match notice {
        Notice::Round => {
            label.clean = 0;
            close(layout, devices, hand, label);
        }
        Notice::Marks(map) => mark(map, layout, devices, hand, label),
    }
}

/// Begins what is done to a labelled array. It is announced that sectors of its rows are going to be
/// written: by the opening round, whose labels aren't clean, or, in the place of that, by a map on each
/// device in use, and behind it a round that is as clean as before where the label doesn't name the
/// columns. Each device in use is settled behind that, before any sector of the rows is written. Then
/// check units are rewritten, if any are to be. A column is dead whose device fails.
/// Where the array is lost by the opening round, that ends with the one round of a lost array; where it
/// is lost by the map or by the sweep, that one round is written behind it; and nothing is swept behind
/// a loss. Says how many check units were rewritten.
///
/// `label` is the newest's, and in the end the label of the last round. The array isn't lost as it
/// is opened. Both rooms have 1,024 bytes for each sector of a unit. No memory is taken.
pub fn begin_labelled<L: Layout, D: StopDisk, P: Progress>(
    opening: Opening<'_>,
    layout: &L,
    devices: &mut [Option<D>],
    hand: &mut Hand,
    label: &mut Label,
    room: &mut SweepRoom<P>,
    marked: &mut MapRoom,
) -> u64
    requires can { CanAct D.Disk (L.shape layout.now) hand.old.ending.columns.items devices.old }
    requires opening { FitsLayout (L.shape layout.now) (notice_seen opening.notice)
        opening.sweeps }
    requires held { IsLabelFor hand.old.ending.columns.items label.old }
    requires counter { label.old.counter + 66 < 2 ^ 32 }
    requires room { 1024 * (L.shape layout.now).unit_sectors ≤ room.old }
    requires marked { 1024 * (L.shape layout.now).unit_sectors ≤ marked.old }
    requires judge { IsFor (L.shape layout.now) hand.old.judge }
    ensures begun { HasBegun D.Disk (notice_seen opening.entry.notice)
        (sweeps_seen opening.entry.sweeps) (L.shape layout.now) label.old label.new
        hand.old.ending.columns.items hand.new.ending.columns.items
        devices.old devices.new hand.new.ending.lost result }
    ensures lost { IsLossBy (L.shape layout.now) None
        (states_of (L.shape layout.now) hand.new.ending.columns.items) hand.new.ending.lost }
    ensures can { CanAct D.Disk (L.shape layout.now) hand.new.ending.columns.items devices.new }
    ensures held { IsLabelFor hand.new.ending.columns.items label.new }
    ensures rooms { (room.new ≡ room.old) × (marked.new ≡ marked.old) }
    ensures judge { IsFor (L.shape layout.now) hand.new.judge }
{
    deaths_bring_no_unit_back();
    announce(opening.notice, layout, devices, hand, label);
    if hand.ending.lost.is_some() {
        return 0;
    }
    match opening.sweeps {
        Sweeps::Nothing => 0,
        Sweeps::Over(kind) => sweep_labelled(kind, layout, devices, hand, label, room),
        Sweeps::Marked(map) => sweep_marks(map, layout, devices, hand, label, marked),
    }
}
