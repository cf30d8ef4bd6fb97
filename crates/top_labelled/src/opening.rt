//! The beginning of an array, up to the opening of a core.
ghost use Rattle.std.specs.Prelude.{◌≡◌, ◌≤◌, ◌<◌, ◌+◌, ◌*◌, ◌^◌, ℕ, None, length};
ghost use Rattle.lay_core.specs.Layout.{Shape};
ghost use Rattle.eng_cols.specs.Cols.{IsFor};
ghost use Rattle.top_acts.specs.Begun.{CanAct, HasBegun};
ghost use Rattle.top_acts.specs.Failed.{EndsFailed};
ghost use Rattle.top_acts.specs.Mapped.{AreMaps, FitsLayout};
ghost use Rattle.top_acts.specs.Sweeps.{Round, notice_seen, sweeps_seen};
ghost use Rattle.eng_cols.specs.Stripes.{states_of};
ghost use Rattle.top_close.specs.Ended.{IsLossBy};
ghost use Rattle.top_rounds.specs.Labels.{IsLabelFor};
ghost use Rattle.top_labelled.specs.Begun.{IsAlone, IsColumnWithin, anew_of, sweeps_in, without};
ghost use Rattle.top_labelled.specs.Words.{BeginsUnless, notice_in};
ghost use Rattle.top_labelled.specs.Between.{HasOpened};

use crate::in_place::{is_in_place, unless_failed};
use blk_disk::{Disk, StopDisk};
use eng_array::Start;
use lay_core::Layout;
use raid_label::Label;
use raid_map::Map;
use raid_progress::Progress;
use raid_recon::SweepRoom;
use top_acts::{Maps, Notice, Opening, Renewal, Sweeps, begin_labelled, fail_column};
use top_close::Hand;

/// What is asked of the opening.
#[derive(Clone, Copy)]
pub(crate) struct AskedOpening {
    /// The rebuild that is to begin, or to go on, where one is. Its column isn't dead yet.
    pub start: Option<Start>,
    /// Whether the device onto which that goes has failed in this call already.
    pub failed: bool,
    /// Whether the column was live on that device, or filling it, before the maps were read.
    pub was_in_place: bool,
    /// Whether a parity map is kept.
    pub keeps: bool,
}

// The column that is to be rebuilt anew, where one is.
fn anew(start: Option<Start>) -> Option<u32>
    ensures { result ≡ anew_of start }
{
    match start {
        Some(Start::Fill { column, .. } | Start::Spread { column }) => Some(column),
        Some(Start::Resume { .. }) | None => None,
    }
}

// The column is dead that is to be rebuilt anew, where one is. No other is filling.
fn fail_asked<L: Layout, D: Disk>(
    start: Option<Start>,
    layout: &L,
    devices: &mut [Option<D>],
    hand: &mut Hand,
    label: &mut Label,
)
    requires within { IsColumnWithin start (length hand.old.ending.columns.items) }
    requires alone { IsAlone start hand.old.ending.columns.items }
    requires can { CanAct D.Disk (L.shape layout.now) hand.old.ending.columns.items devices.old }
    requires held { IsLabelFor hand.old.ending.columns.items label.old }
    requires counter { label.old.counter + 33 < 2 ^ 32 }
    requires by { IsLossBy (L.shape layout.now) None
        (states_of (L.shape layout.now) hand.old.ending.columns.items) hand.old.ending.lost }
    requires judge { IsFor (L.shape layout.now) hand.old.judge }
    ensures ends { EndsFailed D.Disk hand.old.ending.lost hand.new.ending.lost label.old label.new
        (without start hand.old.ending.columns.items) hand.new.ending.columns.items
        devices.old devices.new }
    ensures lost { IsLossBy (L.shape layout.now) None
        (states_of (L.shape layout.now) hand.new.ending.columns.items) hand.new.ending.lost }
    ensures can { CanAct D.Disk (L.shape layout.now) hand.new.ending.columns.items devices.new }
    ensures held { IsLabelFor hand.new.ending.columns.items label.new }
    ensures judge { IsFor (L.shape layout.now) hand.new.judge }
{
    match anew(start) {
        Some(column) => fail_column(layout, devices, hand, column, label),
        None => {}
    }
}

// Which check units are rewritten: all of an array that wasn't closed in order, else those of the
// stripes that its maps mark.
fn sweeps_in<'m>(label: &Label, union: &'m Map) -> Sweeps<'m>
    ensures seen { sweeps_seen result ≡ sweeps_in label.now union.now }
    ensures fits { (y : Shape) → union.now.stripes ≡ y.stripes → FitsLayout y Round result }
{
    if label.clean == 0 {
        Sweeps::Over(Renewal::Rewrite)
    } else if union.count() > 0 {
        Sweeps::Marked(union)
    } else {
        Sweeps::Nothing
    }
}

// By what it is announced that the rows are going to be written: by a map, where one is kept.
fn notice_in<'m>(keeps: bool, marks: &'m Map) -> Notice<'m>
    ensures { notice_seen result ≡ notice_in keeps marks.now }
{
    if keeps {
        Notice::Marks(marks)
    } else {
        Notice::Round
    }
}

// Writes the opening round, or the map in its place, and sweeps the check units that may not fit their
// data.
fn begin<L: Layout, D: StopDisk, P: Progress>(
    keeps: bool,
    layout: &L,
    devices: &mut [Option<D>],
    hand: &mut Hand,
    label: &mut Label,
    room: &mut SweepRoom<P>,
    maps: &mut Maps,
)
    requires can { CanAct D.Disk (L.shape layout.now) hand.old.ending.columns.items devices.old }
    requires held { IsLabelFor hand.old.ending.columns.items label.old }
    requires counter { label.old.counter + 66 < 2 ^ 32 }
    requires room { 1024 * (L.shape layout.now).unit_sectors ≤ room.old }
    requires maps { AreMaps (L.shape layout.now) maps.old }
    requires judge { IsFor (L.shape layout.now) hand.old.judge }
    ensures begun { (found : ℕ) × HasBegun D.Disk (notice_in keeps maps.old.marks)
        (sweeps_in label.old maps.old.union) (L.shape layout.now) label.old label.new
        hand.old.ending.columns.items hand.new.ending.columns.items
        devices.old devices.new hand.new.ending.lost found }
    ensures lost { IsLossBy (L.shape layout.now) None
        (states_of (L.shape layout.now) hand.new.ending.columns.items) hand.new.ending.lost }
    ensures can { CanAct D.Disk (L.shape layout.now) hand.new.ending.columns.items devices.new }
    ensures held { IsLabelFor hand.new.ending.columns.items label.new }
    ensures maps { (maps.new.union ≡ maps.old.union) × (maps.new.marks ≡ maps.old.marks)
        × (maps.new.room ≡ maps.old.room) }
    ensures judge { IsFor (L.shape layout.now) hand.new.judge }
{
    let Maps {
        union,
        marks,
        room: marked,
        ..
    } = maps;
    let opening = Opening {
        notice: notice_in(keeps, marks),
        sweeps: sweeps_in(label, union),
    };
    let _ = begin_labelled(opening, layout, devices, hand, label, room, marked);
}

// Unless the array is lost, as its maps were read, it is begun.
fn begin_unless_lost<L: Layout, D: StopDisk, P: Progress>(
    keeps: bool,
    layout: &L,
    devices: &mut [Option<D>],
    hand: &mut Hand,
    label: &mut Label,
    room: &mut SweepRoom<P>,
    maps: &mut Maps,
)
    requires can { CanAct D.Disk (L.shape layout.now) hand.old.ending.columns.items devices.old }
    requires held { IsLabelFor hand.old.ending.columns.items label.old }
    requires counter { label.old.counter + 66 < 2 ^ 32 }
    requires room { 1024 * (L.shape layout.now).unit_sectors ≤ room.old }
    requires maps { AreMaps (L.shape layout.now) maps.old }
    requires lost { IsLossBy (L.shape layout.now) None
        (states_of (L.shape layout.now) hand.old.ending.columns.items) hand.old.ending.lost }
    requires judge { IsFor (L.shape layout.now) hand.old.judge }
    ensures begun { (found : ℕ) × BeginsUnless D.Disk hand.old.ending.lost
        (notice_in keeps maps.old.marks) (sweeps_in label.old maps.old.union) (L.shape layout.now)
        label.old label.new hand.old.ending.columns.items hand.new.ending.columns.items
        devices.old devices.new hand.new.ending.lost found }
    ensures lost { IsLossBy (L.shape layout.now) None
        (states_of (L.shape layout.now) hand.new.ending.columns.items) hand.new.ending.lost }
    ensures can { CanAct D.Disk (L.shape layout.now) hand.new.ending.columns.items devices.new }
    ensures held { IsLabelFor hand.new.ending.columns.items label.new }
    ensures maps { (maps.new.union ≡ maps.old.union) × (maps.new.marks ≡ maps.old.marks)
        × (maps.new.room ≡ maps.old.room) }
    ensures judge { IsFor (L.shape layout.now) hand.new.judge }
{
    if hand.ending.lost.is_some() {
        return;
    }
    begin(keeps, layout, devices, hand, label, room, maps);
}

/// Unless the array is lost, as its maps were read, the opening round is written, or the map in its
/// place, and the check units are swept: all where the newest label isn't clean, else those of the
/// stripes that the maps mark. Then the column is dead
/// that is to be rebuilt anew, and where the array is lost by that, its one round is written. Says
/// what begins of the rebuild.
pub(crate) fn opened<L: Layout, D: StopDisk, P: Progress>(
    asked: AskedOpening,
    layout: &L,
    devices: &mut [Option<D>],
    hand: &mut Hand,
    label: &mut Label,
    room: &mut SweepRoom<P>,
    maps: &mut Maps,
) -> Option<Start>
    requires within { IsColumnWithin asked.start (length hand.old.ending.columns.items) }
    requires alone { IsAlone asked.start hand.old.ending.columns.items }
    requires can { CanAct D.Disk (L.shape layout.now) hand.old.ending.columns.items devices.old }
    requires held { IsLabelFor hand.old.ending.columns.items label.old }
    requires counter { label.old.counter + 67 < 2 ^ 32 }
    requires room { 1024 * (L.shape layout.now).unit_sectors ≤ room.old }
    requires maps { AreMaps (L.shape layout.now) maps.old }
    requires lost { IsLossBy (L.shape layout.now) None
        (states_of (L.shape layout.now) hand.old.ending.columns.items) hand.old.ending.lost }
    requires judge { IsFor (L.shape layout.now) hand.old.judge }
    ensures opened { HasOpened D.Disk (L.shape layout.now) asked
        (notice_in asked.keeps maps.old.marks) maps.old.union hand.old.ending.lost
        label.old label.new hand.old.ending.columns.items hand.new.ending.columns.items
        devices.old devices.new hand.new.ending.lost result }
    ensures maps { (maps.new.union ≡ maps.old.union) × (maps.new.marks ≡ maps.old.marks)
        × AreMaps (L.shape layout.now) maps.new }
    ensures can { CanAct D.Disk (L.shape layout.now) hand.new.ending.columns.items devices.new }
    ensures held { IsLabelFor hand.new.ending.columns.items label.new }
    ensures judge { IsFor (L.shape layout.now) hand.new.judge }
{
    let AskedOpening {
        start,
        failed,
        was_in_place,
        keeps,
    } = asked;
    begin_unless_lost(keeps, layout, devices, hand, label, room, maps);
    let is = is_in_place(start, &hand.ending.columns);
    fail_asked(start, layout, devices, hand, label);
    unless_failed(failed, start, was_in_place, is)
}
