//! A core is opened, served and closed.
ghost use Rattle.std.specs.Prelude.{◌≡◌, ◌≤◌, IfOk, IfErr, None};
ghost use Rattle.eng_log.specs.Handed.{AreRegions};
ghost use Rattle.eng_events.specs.Opened.{IsOpened, IsSetup, NoneOut, OpensWorlds};
ghost use Rattle.eng_choice.specs.Picked.{IsResting};
ghost use Rattle.eng_array.specs.Fitting.{FitsTrace};
ghost use Rattle.eng_array.specs.Steady.{IsSteady};
ghost use Rattle.eng_array.specs.Tickets.{After};
ghost use Rattle.top_serve.specs.Judged.{CanBegin, HasStarted, HasColumn, IsClosedBy, JudgesAt};
ghost use Rattle.top_serve.specs.Setups.{IsFew, IsNotLost, IsServeRefusal, IsRoomOf, MayStart, SectorsAreLong};
ghost use Rattle.top_serve.specs.Served.{IsServed};

use crate::asking::asked;
use crate::judging::judge;
use crate::opening::{opened_in, room_for};
use crate::refused::{Refused, ServeFault};
use blk_disk::Disk;
use eng_array::{Closed, Core, CoreRoom, Setup, Start};
use eng_crew::{drain, run_crew};
use eng_world::a_rebuild_goes_so_far;
use lay_core::Layout;
use raid_progress::Progress;
use std::alloc::Global;
use std::sync::Wait;
use std::thread::Threads;

/// Serves the setup's clients until each item has its reply and no job is out: with a crew of 1 to 16 workers and then
/// on this thread alone, or with 0 workers on this thread alone. So it is too where there is no memory for the crew.
///
/// `progress` is told every now and then, and in the end, how many items have a reply.
///
/// All memory that the run itself takes is taken first. Refused are an array that is lost by its columns, and want of
/// that memory; the setup then comes back as it was.
pub fn serve<
    L: Layout + Drop + Send,
    D: Disk + Drop + Send,
    R: Threads + Wait + Sync,
    P: Progress + Sync,
>(
    rt: &R,
    alloc: Global,
    setup: Setup<L, D>,
    workers: u32,
    progress: &P,
) -> Result<Closed<L, D>, Refused<L, D>>
    requires workers { workers ≤ 16 }
    requires setup { IsSetup L.Layout D.Disk setup }
    requires few { IsFew setup }
    requires trace { FitsTrace L.Layout setup }
    ensures kept { IfOk result (λ closed. IsNotLost L.Layout setup) }
    ensures served { IfOk result (IsServed L.Layout D.Disk setup None) }
    ensures fault { IfErr result (λ refused. IsServeRefusal L.Layout setup refused.fault) }
    ensures back { IfErr result (λ refused. refused.setup ≡ setup) }
{
    let Some(room) = room_for(alloc, &setup) else {
        let fault = ServeFault::Memory;
        return Err(Refused { fault, setup });
    };
    let all = asked(&setup, None);
    match opened_in(setup, room) {
        Ok(core) => Ok(served(rt, alloc, core, None, workers, progress, all)),
        Err((loss, setup)) => {
            let fault = ServeFault::Lost(loss);
            Err(Refused { fault, setup })
        }
    }
}

/// Serves the setup's clients as [`serve`] does, in room that was taken before. Nothing can refuse it: the array isn't
/// lost by its columns, and the run takes no memory.
///
/// A column is rebuilt beside the clients where a start is given. At rest it is live on the device that was filled, or
/// spread, if each of its stripes is done there; else one that was to be spread is dead, and one that is filling stays so.
/// Its stripes are items of which `progress` is told.
pub fn serve_in<
    L: Layout + Drop + Send,
    D: Disk + Drop + Send,
    R: Threads + Wait + Sync,
    P: Progress + Sync,
>(
    rt: &R,
    alloc: Global,
    setup: Setup<L, D>,
    room: CoreRoom<D>,
    start: Option<Start>,
    workers: u32,
    progress: &P,
) -> Closed<L, D>
    requires workers { workers ≤ 16 }
    requires setup { IsSetup L.Layout D.Disk setup }
    requires room { IsRoomOf L.Layout setup room }
    requires trace { FitsTrace L.Layout setup }
    requires kept { IsNotLost L.Layout setup }
    requires start { MayStart L.Layout D.Disk setup start }
    ensures { IsServed L.Layout D.Disk setup start result }
{
    let all = asked(&setup, start);
    match opened_in(setup, room) {
        Ok(core) => served(rt, alloc, core, start, workers, progress, all),
        Err(_) => unreachable!(),
    }
}

// All that the core's clients ask is served, beside a rebuild where one is to start, and the core is closed.
fn served<
    L: Layout + Drop + Send,
    D: Disk + Drop + Send,
    R: Threads + Wait + Sync,
    P: Progress + Sync,
>(
    rt: &R,
    alloc: Global,
    core: Core<L, D>,
    start: Option<Start>,
    workers: u32,
    progress: &P,
    all: u64,
) -> Closed<L, D>
    requires workers { workers ≤ 16 }
    requires steady { IsSteady L.Layout D.Disk core.array }
    requires home { NoneOut core.array.clients }
    requires can { CanBegin L.Layout D.Disk core.array start }
    ensures { (setup : Setup L D) → IsSetup L.Layout D.Disk setup
        → MayStart L.Layout D.Disk setup start
        → IsOpened L.Layout D.Disk setup core.array → OpensWorlds L.Layout D.Disk core.array
        → SectorsAreLong D.Disk → IsServed L.Layout D.Disk setup start result }
{
    a_rebuild_goes_so_far();
    let begun = begun(core, start);
    let left = worked(rt, alloc, begun, workers, progress, all);
    let rested = at_rest(left, progress, all);
    closed(rested, start)
}

// The core once the rebuild has started, where one is to start.
fn begun<L: Layout, D: Disk>(mut core: Core<L, D>, start: Option<Start>) -> Core<L, D>
    requires steady { IsSteady L.Layout D.Disk core.array }
    requires home { NoneOut core.array.clients }
    requires can { CanBegin L.Layout D.Disk core.array start }
    ensures begun { HasStarted L.Layout D.Disk core.array start result.array }
    ensures steady { IsSteady L.Layout D.Disk result.array }
    ensures home { NoneOut result.array.clients }
    ensures column { HasColumn L.Layout D.Disk result.array start }
{
    match start {
        Some(start) => core.start(start),
        None => {}
    }
    core
}

// The core after so many workers were at it, if there was memory for them.
fn worked<
    L: Layout + Drop + Send,
    D: Disk + Drop + Send,
    R: Threads + Wait + Sync,
    P: Progress + Sync,
>(rt: &R, alloc: Global, core: Core<L, D>, workers: u32, progress: &P, all: u64) -> Core<L, D>
    requires workers { workers ≤ 16 }
    requires steady { IsSteady L.Layout D.Disk core.array }
    requires home { NoneOut core.array.clients }
    ensures after { After L.Layout D.Disk core.array result.array }
    ensures steady { IsSteady L.Layout D.Disk result.array }
    ensures home { NoneOut result.array.clients }
{
    if workers == 0 {
        return core;
    }
    match run_crew(rt, alloc, core, workers, progress, all) {
        Ok(core) => core,
        Err((core, _)) => core,
    }
}

// The core at rest: all that the crew left is done.
fn at_rest<L: Layout + Drop, D: Disk + Drop, P: Progress>(
    mut core: Core<L, D>,
    progress: &P,
    all: u64,
) -> Core<L, D>
    requires steady { IsSteady L.Layout D.Disk core.array }
    requires home { NoneOut core.array.clients }
    ensures after { After L.Layout D.Disk core.array result.array }
    ensures steady { IsSteady L.Layout D.Disk result.array }
    ensures home { NoneOut result.array.clients }
    ensures rest { IsResting result.array }
{
    drain(&mut core, progress, all);
    core
}

// The column that is judged as the core is closed: the one that was to be spread, or else the one that
// is filling.
fn judged<L: Layout, D: Disk>(core: &Core<L, D>, start: Option<Start>) -> Option<u32>
    requires steady { IsSteady L.Layout D.Disk core.now.array }
    requires column { HasColumn L.Layout D.Disk core.now.array start }
    ensures { JudgesAt (L.shape core.now.array.layout) core.now.array.cols.states start result }
{
    match start {
        Some(Start::Spread { column }) => Some(column),
        _ => core.filling(),
    }
}

// What the core has, handed back, once the column that was being rebuilt is judged.
fn closed<L: Layout + Drop, D: Disk + Drop>(core: Core<L, D>, start: Option<Start>) -> Closed<L, D>
    requires steady { IsSteady L.Layout D.Disk core.array }
    requires home { NoneOut core.array.clients }
    requires column { HasColumn L.Layout D.Disk core.array start }
    ensures closed { IsClosedBy L.Layout core.array start result }
    ensures regions { AreRegions core.array.log.handed }
{
    core.regions_stand();
    match judged(&core, start) {
        Some(column) => {
            let whole = core.whole(column);
            let mut closed = core.close();
            judge(closed.columns.as_mut_slice(), column, whole);
            closed
        }
        None => core.close(),
    }
}
