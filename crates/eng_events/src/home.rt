//! A job comes home.
ghost use Rattle.std.specs.Prelude.{◌≡◌, ◌<◌, Some, None, false, length};
ghost use Rattle.graph_mean.specs.Graph.{kind_at};
ghost use Rattle.eng_cols.specs.declared.spot.Loss.{Loss};
ghost use Rattle.eng_world.specs.declared.item.Traced.TheVariants as event;
ghost use Rattle.eng_state.specs.Room.{HasRoom, MayEnter};
ghost use Rattle.eng_clients.specs.Desk.{desk_at, spot_at};
ghost use Rattle.eng_state.specs.Sound.{IsSound};
ghost use Rattle.eng_state.specs.Moves.{id_of};
ghost use Rattle.eng_state.specs.EndsNode.{EndsNode};
ghost use Rattle.eng_state.specs.Homes.{device_in};
ghost use Rattle.eng_state.specs.Out.{CameBack};
ghost use Rattle.eng_state.specs.Bad.{Standing, IsOnColumn};
ghost use Rattle.eng_ends.specs.Copied.{AreLaid};
ghost use Rattle.eng_ends.specs.EndLog.{LogEnds};
ghost use Rattle.eng_fails.specs.Returned.{IsWriteJob, DeviceFailed, failed_at, ends_bad, ended_by};
ghost use Rattle.eng_log.specs.Log.{MayCount};

use blk_disk::Disk;
use blk_plain::Outcome;
use eng_cols::Spot;
use eng_ends::{nothing_returns, read_returns, sum_returns, write_returns};
use eng_fails::{bad_returns, nothing_comes_home};
use eng_job::{Job, Work};
use eng_state::Array;
use graph_mean::Node;
use lay_core::Layout;

// Whether the device on which the unit of a node stood as it was fired has failed.
fn has_failed_since<L: Layout, D: Disk>(array: &Array<L, D>, client: u32, node: u32) -> bool
    requires client { client < length array.now.clients }
    requires node { node < 2048 }
    requires there { (at : Spot) → spot_at (desk_at array.now.clients client) node ≡ Some at
        → at.device < length array.now.devices.slots }
    ensures { result
        ≡ failed_at array.now.devices (spot_at (desk_at array.now.clients client) node) }
{
    match array.clients.spot(client, node) {
        Some(at) => array.devices.has_failed(at.device),
        None => false,
    }
}

// Whether a job that came back ends bad.
fn comes_back_bad<L: Layout, D: Disk>(array: &Array<L, D>, job: &Job<D>, outcome: Outcome) -> bool
    requires sound { IsSound L.Layout D.Disk array.now }
    requires back { CameBack D.Disk L.Layout array.now job.now outcome }
    ensures { result ≡ ends_bad array.now job.now outcome }
{
    match outcome {
        Outcome::Bad => true,
        Outcome::Good => match &job.work {
            Work::Write { .. } => has_failed_since(array, job.client, job.node),
            Work::Nothing | Work::Read { .. } | Work::Sum { .. } => false,
        },
    }
}

// A job without work that came back: it ends, or only comes home where the array is lost.
#[inline(always)]
fn nothing_goes_home<L: Layout, D: Disk>(array: &mut Array<L, D>, job: Job<D>)
    requires sound { IsSound L.Layout D.Disk array.old }
    requires place { HasRoom array.old.log }
    requires history { array.old.lost ≡ None
        → kind_at (desk_at array.old.clients job.client).run.graph job.node ≡ Node.Cmt
        → MayEnter array.old.log }
    requires back { CameBack D.Disk L.Layout array.old job Outcome.Good }
    requires nothing { job.work ≡ Work.Nothing }
    requires laid { array.old.lost ≡ None → AreLaid array.old.log.handed array.old.clients }
    requires count { array.old.lost ≡ None
        → kind_at (desk_at array.old.clients job.client).run.graph job.node ≡ Node.Trm
        → MayCount array.old.log }
    ensures home { EndsNode L.Layout D.Disk array.old job.client job.node
        (event.Good (id_of array.old.clients job.client) job.node) (device_in job.work) array.new }
    ensures trace { LogEnds
        (L.shape array.old.layout) array.old.cols.states (desk_at array.old.clients job.client)
        array.old.log (event.Good (id_of array.old.clients job.client) job.node) array.new.log
        (id_of array.old.clients job.client)
        (kind_at (desk_at array.old.clients job.client).run.graph job.node) array.old.lost }
{
    match array.lost {
        None => nothing_returns(array, job),
        Some(_) => nothing_comes_home(array, job),
    }
}

// A job that came back ends good, or comes home so where the array is lost.
#[inline(always)]
fn good_returns<L: Layout, D: Disk>(array: &mut Array<L, D>, job: Job<D>)
    requires sound { IsSound L.Layout D.Disk array.old }
    requires place { HasRoom array.old.log }
    requires history { array.old.lost ≡ None
        → kind_at (desk_at array.old.clients job.client).run.graph job.node ≡ Node.Cmt
        → MayEnter array.old.log }
    requires back { CameBack D.Disk L.Layout array.old job Outcome.Good }
    requires sane { IsWriteJob job → DeviceFailed array.old job false }
    requires laid { array.old.lost ≡ None → AreLaid array.old.log.handed array.old.clients }
    requires count { array.old.lost ≡ None
        → kind_at (desk_at array.old.clients job.client).run.graph job.node ≡ Node.Trm
        → MayCount array.old.log }
    ensures home { EndsNode L.Layout D.Disk array.old job.client job.node
        (event.Good (id_of array.old.clients job.client) job.node) (device_in job.work) array.new }
    ensures trace { LogEnds
        (L.shape array.old.layout) array.old.cols.states (desk_at array.old.clients job.client)
        array.old.log (event.Good (id_of array.old.clients job.client) job.node) array.new.log
        (id_of array.old.clients job.client)
        (kind_at (desk_at array.old.clients job.client).run.graph job.node) array.old.lost }
{
    match &job.work {
        Work::Nothing => nothing_goes_home(array, job),
        Work::Read { .. } => read_returns(array, job),
        Work::Write { .. } => write_returns(array, job),
        Work::Sum { .. } => sum_returns(array, job),
    }
}

/// A job that came back ends, good or bad, or comes home so where the array is lost.
#[inline(always)]
pub fn goes_home<L: Layout, D: Disk>(array: &mut Array<L, D>, job: Job<D>, outcome: Outcome)
    requires sound { IsSound L.Layout D.Disk array.old }
    requires place { HasRoom array.old.log }
    requires history { array.old.lost ≡ None
        → kind_at (desk_at array.old.clients job.client).run.graph job.node ≡ Node.Cmt
        → MayEnter array.old.log }
    requires standing { array.old.lost ≡ None → Standing L.Layout array.old }
    requires within { (at : Spot)
        → spot_at (desk_at array.old.clients job.client) job.node ≡ Some at
        → at.column < (L.shape array.old.layout).columns }
    requires on { (loss : Loss) → array.old.lost ≡ Some loss
        → IsOnColumn array.old job.client job.node }
    requires back { CameBack D.Disk L.Layout array.old job outcome }
    requires laid { array.old.lost ≡ None → AreLaid array.old.log.handed array.old.clients }
    requires count { array.old.lost ≡ None
        → kind_at (desk_at array.old.clients job.client).run.graph job.node ≡ Node.Trm
        → MayCount array.old.log }
    ensures home { EndsNode L.Layout D.Disk array.old job.client job.node
        (ended_by array.old job outcome) (device_in job.work) array.new }
    ensures trace { LogEnds (L.shape array.old.layout)
        array.old.cols.states (desk_at array.old.clients job.client) array.old.log
        (ended_by array.old job outcome) array.new.log (id_of array.old.clients job.client)
        (kind_at (desk_at array.old.clients job.client).run.graph job.node) array.old.lost }
{
    if comes_back_bad(array, &job, outcome) {
        bad_returns(array, job);
    } else {
        good_returns(array, job);
    }
}
