//! Clients are served, and the run is ended.
ghost use Rattle.std.specs.Prelude.{◌≡◌, ◌≤◌, IfOk, IfErr, None, length, count_by};
ghost use Rattle.eng_cols.specs.Cols.{IsFor, is_set_filling};
ghost use Rattle.eng_events.specs.Opened.{IsSetup};
ghost use Rattle.eng_array.specs.Fitting.{FitsTrace};
ghost use Rattle.raid_script.specs.Replies.{StandFor};
ghost use Rattle.top_serve.specs.Setups.{IsFew, IsNotLost, IsServeRefusal};
ghost use Rattle.top_run.specs.Works.{work_of, service_seen};
ghost use Rattle.run_effect.specs.Effect.{TakesEffect};
ghost use Rattle.top_run.specs.Effect.{answer_of, request_of};
ghost use Rattle.top_run.specs.Ran.{RanPlain};

use crate::ending::ended;
use crate::service::Service;
use blk_disk::Disk;
use eng_array::Setup;
use eng_cols::Cols;
use lay_core::Layout;
use raid_progress::Progress;
use std::alloc::Global;
use std::sync::Wait;
use std::thread::Threads;
use top_serve::{Refused, serve};

/// Serves the setup's clients until each item has its reply and no job is out, with so many workers, and ends the run:
/// each device in use is settled, and a column whose device fails that is dead. No column is filling: that takes labels.
///
/// `progress` is told every now and then, and in the end, how many items have a reply.
///
/// By `judge` it is judged whether the array is lost in the end; it may hold any columns, as many as the layout has. All
/// memory that the run itself takes is taken first. Refused are an array that is lost by its columns, and want of that
/// memory; the setup then comes back as it was.
pub fn run_clients<
    L: Layout + Drop + Send,
    D: Disk + Drop + Send,
    R: Threads + Wait + Sync,
    P: Progress + Sync,
>(
    rt: &R,
    alloc: Global,
    setup: Setup<L, D>,
    judge: Cols,
    workers: u32,
    progress: &P,
) -> Result<(Service, Vec<Option<D>>), Refused<L, D>>
    requires workers { workers ≤ 16 }
    requires setup { IsSetup L.Layout D.Disk setup }
    requires judge { IsFor (L.shape setup.layout) judge }
    requires filling { count_by is_set_filling setup.columns.items ≡ 0 }
    requires few { IsFew setup }
    requires trace { FitsTrace L.Layout setup }
    ensures kept { IfOk result (λ r. IsNotLost L.Layout setup) }
    ensures ran { IfOk result (λ r. RanPlain D.Disk (work_of L.Layout setup None)
        setup.devices.items (service_seen r.0) r.1.items) }
    ensures effect { IfOk result (λ r. TakesEffect D.Disk (request_of (work_of L.Layout setup None))
        setup.devices.items r.1.items (answer_of (service_seen r.0))) }
    ensures stands { IfOk result
        (λ r. StandFor r.0.clients.items r.0.replies.items r.0.sectors) }
    ensures many { IfOk result (λ r. length r.1.items ≡ length setup.devices.items) }
    ensures fault { IfErr result (λ refused. IsServeRefusal L.Layout setup refused.fault) }
    ensures back { IfErr result (λ refused. refused.setup ≡ setup) }
{
    match serve(rt, alloc, setup, workers, progress) {
        Ok(closed) => Ok(ended(closed, judge)),
        Err(refused) => Err(refused),
    }
}
