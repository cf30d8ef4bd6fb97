//! What a simulation gives.
ghost use Rattle.std.specs.Prelude.{◌≡◌, IfOk, IfErr, IsErrOf};
ghost use Rattle.blk_disk.specs.Disk.{Rose};
ghost use Rattle.sim_queue.specs.Replies.{AreWithin};
ghost use Rattle.sim_queue.specs.Service.{IsAsked};
ghost use Rattle.top_fetch.specs.Answers.{IsEarly, AnswersAs};
ghost use Rattle.top_fetch.specs.Told.{IsRead};
ghost use Rattle.top_sim.specs.Asked.{workload_by};
ghost use Rattle.top_sim.specs.Simulated.{IsSimulated, workload_in};
ghost use Rattle.top_sim.specs.Views.{workload_seen};

use crate::requests::{RequestsFault, Workload, read_workload};
use raid_bay::Bay;
use sim_queue::{Memory, Queue, Replies, Request, Served, each_is_served_once, reply_all, serve};
use std::alloc::Global;
use top_fetch::open_text;
use top_status::Status;

/// Requests, when each was served, and what it was replied.
#[derive(Drop)]
pub struct Simulated {
    /// The sectors of the disk.
    pub sectors: u32,
    /// The requests, in the order of their lines.
    pub requests: Vec<Request>,
    /// When each was served, in the order in which they were.
    pub services: Vec<Served>,
    /// What each was replied, by its number.
    pub replies: Replies,
}

// The requests of the text of that name.
#[tactic(auto, unfolding(crate::specs::Simulated::workload_in))]
fn open_workload<B: Bay>(alloc: Global, name: &str, bay: &mut B) -> Result<Workload, Status>
    ensures answer { B.tells →
        AnswersAs workload_seen result (workload_in (B.text_of bay.old) name.now) }
    ensures asked { IfOk result (λ w. IsAsked w.requests.items) }
    ensures within { IfOk result (λ w. AreWithin w.sectors w.requests.items) }
    ensures kind { IfErr result IsEarly }
    ensures cause { IsErrOf result Status.BayFault → Rose (B.faults bay.old) (B.faults bay.new) }
    ensures read { IsRead B.tells (B.text_of bay.old) (B.text_of bay.new)
        (B.home bay.old) (B.home bay.new) (B.faults bay.old) (B.faults bay.new) }
{
    let text = match open_text(alloc, name, bay) {
        Ok(text) => text,
        Err(status) => return Err(status),
    };
    match read_workload(alloc, &text) {
        Ok(workload) => Ok(workload),
        Err(RequestsFault::At { line, code }) => Err(Status::Conf(line, code)),
        Err(RequestsFault::Memory) => Err(Status::Memory),
    }
}

// Serves the requests.
fn run(alloc: Global, workload: Workload, order: Queue) -> Result<Simulated, Memory>
    requires asked { IsAsked workload.requests.items }
    requires within { AreWithin workload.sectors workload.requests.items }
    ensures sectors { IfOk result (λ s. s.sectors ≡ workload.sectors) }
    ensures requests { IfOk result (λ s. s.requests ≡ workload.requests) }
    ensures simulated { IfOk result (λ s.
        IsSimulated order s.sectors s.requests.items s.services.items s.replies) }
{
    let Workload { sectors, requests } = workload;
    let services = serve(alloc, &requests, order)?;
    // Each request is served once, so that each has a reply of its own.
    each_is_served_once();
    let replies = reply_all(alloc, u64::from(sectors), &requests, &services)?;
    Ok(Simulated {
        sectors,
        requests,
        services,
        replies,
    })
}

/// Reads the requests of the text of that name, and serves them in this order.
///
/// Refused is the text, where there is none of its name (`NoFile`), or it is longer than 16,777,216
/// bytes (`LongText`), or not in its form (`Conf`, with its first line that isn't, and the code).
/// `BayFault` comes only where the bay's count of faults rose, and want of memory at any point. No
/// device is taken.
pub fn simulate<B: Bay>(
    alloc: Global,
    requests: &str,
    order: Queue,
    bay: &mut B,
) -> Result<Simulated, Status>
    ensures answer { B.tells → AnswersAs (λ s. workload_by s.sectors s.requests.items) result
        (workload_in (B.text_of bay.old) requests.now) }
    ensures simulated { IfOk result (λ s.
        IsSimulated order s.sectors s.requests.items s.services.items s.replies) }
    ensures kind { IfErr result IsEarly }
    ensures cause { IsErrOf result Status.BayFault → Rose (B.faults bay.old) (B.faults bay.new) }
    ensures read { IsRead B.tells (B.text_of bay.old) (B.text_of bay.new)
        (B.home bay.old) (B.home bay.new) (B.faults bay.old) (B.faults bay.new) }
{
    let workload = match open_workload(alloc, requests, bay) {
        Ok(workload) => workload,
        Err(status) => return Err(status),
    };
    match run(alloc, workload, order) {
        Ok(simulated) => Ok(simulated),
        Err(Memory) => Err(Status::Memory),
    }
}
