//! What is asked is served over an array with labels.
ghost use Rattle.std.specs.Prelude.{◌≡◌, ◌≤◌, ◌&&◌, not, is_some, IfOk, IfErr, length};
ghost use Rattle.top_run.specs.Works.{service_seen};
ghost use Rattle.top_labelled.specs.Effect.{TookEffect};
ghost use Rattle.top_labelled.specs.Between.{CanServe, HasServed, IsLeftBy};
ghost use Rattle.top_labelled.specs.Given.{CameTo, CanRunLabelled, OutcomeCanBePrinted};

use crate::beginning::{Started, begun};
use crate::closing::ended;
use crate::labelled::{Labelled, Outcome};
use blk_disk::StopDisk;
use eng_array::{CoreRoom, Loss, Setup};
use lay_core::Layout;
use raid_progress::Progress;
use std::alloc::Global;
use std::sync::Wait;
use std::thread::Threads;
use top_acts::Maps;
use top_close::Ending;
use top_run::Service;
use top_serve::{room_for, serve_in};

/// Reads the maps of an array with labels, begins it, serves the setup's clients with so many workers until each item has
/// its reply and no job is out, and closes the array. The opening round's labels aren't clean; behind
/// it the check units of a dirty array are swept. At the close each device in use is settled, gets
/// its label, which is clean, and is settled again; one that fails takes its column along, and the
/// labels are written anew. Where the array is lost by its end, or was in the run, one round is
/// written that isn't clean, and nothing is settled behind it.
///
/// `progress` is told after each stripe how far the sweep is, and then how many items have a reply.
///
/// An array that is lost as it is begun, or as that column dies, isn't served: its last round isn't
/// clean either.
///
/// The only error is want of memory. All that the run takes is taken first, so that what was handed
/// in then comes back as it was.
pub fn run_labelled<
    L: Layout + Drop + Send,
    D: StopDisk + Drop + Send,
    R: Threads + Wait + Sync,
    P: Progress + Sync,
>(
    rt: &R,
    alloc: Global,
    labelled: Labelled<L, D>,
    workers: u32,
    progress: &P,
) -> Result<(Outcome, Vec<Option<D>>), Labelled<L, D>>
    requires workers { workers ≤ 16 }
    requires can { CanRunLabelled L.Layout D.Disk labelled }
    ensures came { IfOk result (λ r. CameTo L.Layout D.Disk labelled r.0 r.1.items) }
    ensures effect { IfOk result (λ r. TookEffect L.Layout D.Disk labelled r.0 r.1.items) }
    ensures stands { IfOk result (λ r. OutcomeCanBePrinted r.0) }
    ensures many { IfOk result (λ r. length r.1.items ≡ length labelled.setup.devices.items) }
    ensures back { IfErr result (λ r. r ≡ labelled) }
{
    let Some(room) = room_for(alloc, &labelled.setup) else {
        return Err(labelled);
    };
    let serial = labelled.label.serial;
    let Ok(maps) = Maps::open(alloc, &labelled.setup.layout, serial) else {
        return Err(labelled);
    };
    let started = begun(labelled, maps, progress);
    if started.lost.is_some() {
        return Ok(lost(started));
    }
    let (service, devices) = served(rt, alloc, started, room, workers, progress);
    Ok((Outcome::Ran(service), devices))
}

// What came of an array that was lost as it was begun.
fn lost<L: Layout + Drop, D: StopDisk + Drop>(started: Started<L, D>) -> (Outcome, Vec<Option<D>>)
    ensures { IsLeftBy started result.0 result.1 }
{
    let Started { setup, lost, .. } = started;
    let Setup {
        devices,
        columns,
        ..
    } = setup;
    (Outcome::Lost(Ending { columns, lost }), devices)
}

// Whether maps are cleared, where they are to be: those of an array that was lost are left.
fn clears_behind(clears: bool, lost: Option<Loss>) -> bool
    ensures { result ≡ (clears && not (is_some lost)) }
{
    clears && lost.is_none()
}

// What was begun is served in the room, and closed.
fn served<
    L: Layout + Drop + Send,
    D: StopDisk + Drop + Send,
    R: Threads + Wait + Sync,
    P: Progress + Sync,
>(
    rt: &R,
    alloc: Global,
    started: Started<L, D>,
    room: CoreRoom<D>,
    workers: u32,
    progress: &P,
) -> (Service, Vec<Option<D>>)
    requires workers { workers ≤ 16 }
    requires can { CanServe L.Layout D.Disk started room }
    ensures { HasServed L.Layout D.Disk started (service_seen result.0) result.1.items }
{
    let Started {
        setup,
        label,
        judge,
        asked,
        device,
        began,
        mut maps,
        clears,
        ..
    } = started;
    let closed = serve_in(rt, alloc, setup, room, began, workers, progress);
    maps.marks.clear();
    let clear = clears_behind(clears, closed.lost).then_some(&maps.marks);
    ended(closed, label, judge, clear, asked, device)
}
