//! What comes of the words.
ghost use Rattle.std.specs.Prelude.{◌≡◌, ◌≤◌, IfOk, IfErr};
ghost use Rattle.top_words.specs.Asked.{AreNumbersInRange};
ghost use Rattle.top_words.specs.Judged.{IsInRange, OnArray, OnConf, Scan, Simulate};
ghost use Rattle.top_words.specs.Views.{action_seen, command_seen, invocation_seen};
ghost use Rattle.raid_top.specs.Ends.{Followed, Follows};
ghost use Rattle.raid_top.specs.Finished.{CanBeTold, finished_seen, refusal_of};
ghost use Rattle.raid_top.specs.Refused.{CallIsRefused, IsRefusedOf};
ghost use Rattle.raid_top.specs.Bays.{told_of};

use crate::act::act;
use crate::doubting::Doubts;
use crate::finished::Finished;
use blk_disk::StopDisk;
use raid_bay::{Bay, Name};
use raid_progress::Progress;
use sim_queue::Queue;
use std::alloc::Global;
use std::sync::Wait;
use std::thread::Threads;
use top_scan::scan;
use top_sim::simulate;
use top_status::{Refusal, Status};
use top_study::study_in;
use top_words::{Command, Invocation, Study, WordsFault, read_words};

// An action on an array.
fn act_on<'a, B: Bay, R: Threads + Wait + Sync, P: Progress + Doubts + Sync>(
    rt: &R,
    alloc: Global,
    command: Command<'a>,
    bay: &mut B,
    progress: &P,
) -> Result<Finished<'a>, Refusal>
where
    B::D: StopDisk + Send + Drop,
    requires { AreNumbersInRange (action_seen command.action) }
    ensures followed { IfOk result (λ f. Follows B.D.Disk (told_of B.Bay bay.old bay.new)
        (OnArray (command_seen command.entry)) (finished_seen f)) }
    ensures told { IfOk result CanBeTold }
    ensures refused { IfErr result (IsRefusedOf B.D.Disk (told_of B.Bay bay.old bay.new)
        (OnArray (command_seen command.entry))) }
    ensures later { B.faults bay.old ≤ B.faults bay.new }
{
    match act(rt, alloc, command, bay, progress) {
        Ok(ended) => Ok(Finished::OfArray(ended)),
        Err(refusal) => Err(refusal),
    }
}

// A list of components.
fn scan_list<'a, B: Bay>(alloc: Global, list: &str, bay: &mut B) -> Result<Finished<'a>, Refusal>
    ensures followed { IfOk result (λ f. Follows B.D.Disk (told_of B.Bay bay.old bay.new)
        (Scan list.now) (finished_seen f)) }
    ensures told { IfOk result CanBeTold }
    ensures refused { IfErr result (IsRefusedOf B.D.Disk (told_of B.Bay bay.old bay.new)
        (Scan list.now)) }
    ensures later { B.faults bay.old ≤ B.faults bay.new }
{
    match scan(alloc, list, bay) {
        Ok(scanned) => Ok(Finished::OfScan(scanned)),
        Err(status) => Err(Refusal::only(alloc, status)),
    }
}

// Requests to a simulated disk.
fn simulate_in<'a, B: Bay>(
    alloc: Global,
    requests: &str,
    order: Queue,
    bay: &mut B,
) -> Result<Finished<'a>, Refusal>
    ensures followed { IfOk result (λ f. Follows B.D.Disk (told_of B.Bay bay.old bay.new)
        (Simulate requests.now order) (finished_seen f)) }
    ensures told { IfOk result CanBeTold }
    ensures refused { IfErr result (IsRefusedOf B.D.Disk (told_of B.Bay bay.old bay.new)
        (Simulate requests.now order)) }
    ensures later { B.faults bay.old ≤ B.faults bay.new }
{
    match simulate(alloc, requests, order, bay) {
        Ok(simulated) => Ok(Finished::OfSimulation(simulated)),
        Err(status) => Err(Refusal::only(alloc, status)),
    }
}

// What is told of a configuration alone.
fn study_conf<'a, B: Bay>(
    alloc: Global,
    conf: &str,
    study: Study,
    bay: &mut B,
) -> Result<Finished<'a>, Refusal>
    ensures followed { IfOk result (λ f. Follows B.D.Disk (told_of B.Bay bay.old bay.new)
        (OnConf conf.now study) (finished_seen f)) }
    ensures told { IfOk result CanBeTold }
    ensures refused { IfErr result (IsRefusedOf B.D.Disk (told_of B.Bay bay.old bay.new)
        (OnConf conf.now study)) }
    ensures later { B.faults bay.old ≤ B.faults bay.new }
{
    match study_in(alloc, conf, study, bay) {
        Ok(studied) => Ok(Finished::OfConf(studied)),
        Err(status) => Err(Refusal::only(alloc, status)),
    }
}

// What was asked for.
fn follow<'a, B: Bay, R: Threads + Wait + Sync, P: Progress + Doubts + Sync>(
    rt: &R,
    alloc: Global,
    invocation: Invocation<'a>,
    bay: &mut B,
    progress: &P,
) -> Result<Finished<'a>, Refusal>
where
    B::D: StopDisk + Send + Drop,
    requires { IsInRange (invocation_seen invocation) }
    ensures followed { IfOk result (λ f. Follows B.D.Disk (told_of B.Bay bay.old bay.new)
        (invocation_seen invocation.entry) (finished_seen f)) }
    ensures told { IfOk result CanBeTold }
    ensures refused { IfErr result (IsRefusedOf B.D.Disk (told_of B.Bay bay.old bay.new)
        (invocation_seen invocation.entry)) }
    ensures later { B.faults bay.old ≤ B.faults bay.new }
{
    match invocation {
        Invocation::Tell { topic } => Ok(Finished::OfTopic(topic)),
        Invocation::OnArray { command } => act_on(rt, alloc, command, bay, progress),
        Invocation::Scan { list } => scan_list(alloc, list, bay),
        Invocation::Simulate { requests, order } => simulate_in(alloc, requests, order, bay),
        Invocation::OnConf { conf, study } => study_conf(alloc, conf, study, bay),
    }
}

// The words ask for nothing, or there was no memory to read them.
fn refuse(alloc: Global, fault: WordsFault) -> Refusal
    ensures { result ≡ refusal_of fault }
{
    match fault {
        WordsFault::Usage(case) => Refusal::only(alloc, Status::Usage(case)),
        WordsFault::Memory => Refusal::only(alloc, Status::Memory),
    }
}

/// Does what the words ask for: one of the program's own texts, an action on an array, a list of
/// components, requests to a simulated disk, or a configuration alone. Each device that was taken is put back.
pub(crate) fn invoke<'a, B: Bay, R: Threads + Wait + Sync, P: Progress + Doubts + Sync>(
    rt: &R,
    alloc: Global,
    words: &'a [Name],
    bay: &mut B,
    progress: &P,
) -> Result<Finished<'a>, Refusal>
where
    B::D: StopDisk + Send + Drop,
    ensures followed { IfOk result (λ f. Followed B.D.Disk (told_of B.Bay bay.old bay.new)
        words.entry.now (finished_seen f)) }
    ensures told { IfOk result CanBeTold }
    ensures refused { IfErr result (CallIsRefused B.D.Disk (told_of B.Bay bay.old bay.new)
        words.entry.now) }
    ensures later { B.faults bay.old ≤ B.faults bay.new }
{
    match read_words(alloc, words) {
        Ok(invocation) => follow(rt, alloc, invocation, bay, progress),
        Err(fault) => Err(refuse(alloc, fault)),
    }
}
