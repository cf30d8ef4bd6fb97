//! The array is begun.
ghost use Rattle.std.specs.Prelude.{◌≡◌};
ghost use Rattle.top_acts.specs.Mapped.{AreUnmarked};
ghost use Rattle.top_serve.specs.Setups.{shape_in};
ghost use Rattle.top_labelled.specs.Given.{CanRunLabelled};
ghost use Rattle.top_labelled.specs.Begun.{is_kept};
ghost use Rattle.top_labelled.specs.Words.{writes_maps};
ghost use Rattle.top_labelled.specs.Between.{IsBegun, asked_of};

use crate::in_place::is_in_place;
use crate::labelled::Labelled;
use crate::line::onto;
use crate::marking::mark_asked;
use crate::opening::{AskedOpening, opened};
use blk_disk::StopDisk;
use eng_array::{Column, Loss, Setup, Start};
use eng_cols::Cols;
use lay_core::Layout;
use raid_label::Label;
use raid_map::Map;
use raid_progress::Progress;
use raid_recon::SweepRoom;
use top_acts::{Maps, look_at_maps};
use top_close::{Ending, Hand};

/// An array that was begun: what is to be served over it, the label that was written last, what its
/// end wants, by what it is lost, if it is, what was to be rebuilt, onto which device, and what of that
/// begins; and its maps, and whether they are to be cleared.
#[derive(Drop)]
pub(crate) struct Started<L, D> {
    pub setup: Setup<L, D>,
    pub label: Label,
    pub judge: Cols,
    pub lost: Option<Loss>,
    pub asked: Option<Start>,
    pub device: Option<u32>,
    pub began: Option<Start>,
    pub maps: Maps,
    pub clears: bool,
}

// What is asked of the opening of an array with this label and these columns.
fn asked_of(
    start: Option<Start>,
    failed: bool,
    map: bool,
    label: &Label,
    columns: &[Column],
) -> AskedOpening
    ensures { result ≡ asked_of start failed (is_kept map label.now) columns.now }
{
    AskedOpening {
        start,
        failed,
        was_in_place: is_in_place(start, columns),
        keeps: map && label.clean == 1,
    }
}

// Whether maps are written, and so cleared in the end: one is kept, or those that were read mark some
// region together.
fn writes_maps(keeps: bool, union: &Map) -> bool
    ensures { result ≡ writes_maps keeps union.now }
{
    keeps || union.count() > 0
}

/// Reads the maps, writes the opening round, or marks the devices in its place, sweeps the check units
/// where the newest label isn't clean, or those that the maps mark, and lets the column die that is to
/// be rebuilt anew.
pub(crate) fn begun<L: Layout + Drop, D: StopDisk + Drop, P: Progress>(
    labelled: Labelled<L, D>,
    mut maps: Maps,
    progress: &P,
) -> Started<L, D>
    requires can { CanRunLabelled L.Layout D.Disk labelled }
    requires maps { AreUnmarked (shape_in L.Layout labelled.setup) labelled.label.serial maps }
    ensures { IsBegun L.Layout D.Disk labelled result }
{
    let mut setup = labelled.setup;
    let mut label = labelled.label;
    let start = labelled.start;
    let device = onto(start, &setup.columns);
    let asked = asked_of(start, labelled.failed, labelled.map, &label, &setup.columns);
    let mut devices = setup.devices;
    let mut hand = Hand {
        ending: Ending {
            columns: setup.columns,
            lost: None,
        },
        judge: labelled.judge,
    };
    let room = &mut SweepRoom::new(labelled.room, progress);
    let slice = devices.as_mut_slice();
    let (layout, graphs, clients) = (&setup.layout, &setup.graphs, &setup.clients);
    look_at_maps(layout, slice, &mut hand, &mut maps.union);
    let read = &hand.ending.columns;
    mark_asked(asked.keeps, layout, graphs, clients, read, start, &mut maps);
    let began = opened(asked, layout, slice, &mut hand, &mut label, room, &mut maps);
    let Hand { ending, judge } = hand;
    let Ending { columns, lost } = ending;
    setup.devices = devices;
    setup.columns = columns;
    Started {
        setup,
        label,
        judge,
        lost,
        asked: start,
        device,
        began,
        clears: writes_maps(asked.keeps, &maps.union),
        maps,
    }
}
