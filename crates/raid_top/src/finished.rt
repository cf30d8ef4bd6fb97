//! What came of a call, and what is printed of it.
ghost use Rattle.std.specs.Prelude.{◌≡◌, ◌≤◌, ◌++◌, is_ok, OnErr};
ghost use Rattle.blk_disk.specs.Disk.{Rose};
ghost use Rattle.raid_bay.specs.Sink.{Puts};
ghost use Rattle.top_scan.specs.Lines.{scan_text};
ghost use Rattle.top_scan.specs.Scanned.{IsComplete};
ghost use Rattle.top_sim.specs.Lines.{sim_text};
ghost use Rattle.top_status.specs.Status.{status_text};
ghost use Rattle.top_study.specs.Views.{studied_text};
ghost use Rattle.raid_top.specs.Calls.{call_text};
ghost use Rattle.raid_top.specs.Finished.{CanBeServed, CanBeTold, finished_seen, status_finished};

use crate::came::Ended;
use crate::printing::{put_ended, status_of};
use blk_disk::Failed;
use raid_bay::Sink;
use top_help::put_topic;
use top_scan::{Scanned, put_scan};
use top_sim::{Simulated, put_simulated};
use top_status::{Status, put_status};
use top_study::{Studied, put_studied};
use top_words::Topic;

/// What came of a call that wasn't refused.
#[derive(Drop)]
pub(crate) enum Finished<'a> {
    /// An action on an array.
    OfArray(Ended<'a>),
    /// A list of components was scanned.
    OfScan(Scanned),
    /// Requests to a simulated disk were served.
    OfSimulation(Simulated),
    /// A configuration alone was asked.
    OfConf(Studied),
    /// One of the program's own texts is told.
    OfTopic(Topic),
}

/// Its status.
pub(crate) fn status_finished(finished: &Finished<'_>) -> Status
    ensures { result ≡ status_finished finished.now }
{
    match finished {
        Finished::OfArray(ended) => status_of(&ended.came),
        Finished::OfScan(_)
        | Finished::OfSimulation(_)
        | Finished::OfConf(_)
        | Finished::OfTopic(_) => Status::Ok,
    }
}

// Prints what a scan found, and the status.
fn put_scanned<K: Sink>(scanned: &Scanned, status: &Status, out: &mut K) -> Result<(), Failed>
    requires { IsComplete scanned.now.names.items scanned.now.fronts.items scanned.now.sets.sets
        scanned.now.sets.places }
    ensures output { K.tells → Puts (is_ok result) (K.output out.old)
        (scan_text scanned.now.names.items scanned.now.fronts.items scanned.now.sets.sets
        scanned.now.sets.places
        ++ status_text status.now) (K.output out.new) }
    ensures later { K.faults out.old ≤ K.faults out.new }
    ensures cause { OnErr result (Rose (K.faults out.old) (K.faults out.new)) }
{
    put_scan(scanned, out)?;
    put_status(status, out)
}

// Prints what a simulation gave, and the status.
fn put_served<K: Sink>(simulated: &Simulated, status: &Status, out: &mut K) -> Result<(), Failed>
    requires { CanBeServed simulated.now }
    ensures output { K.tells → Puts (is_ok result) (K.output out.old)
        (sim_text simulated.now.requests.items simulated.now.services.items simulated.now.replies
        ++ status_text status.now) (K.output out.new) }
    ensures later { K.faults out.old ≤ K.faults out.new }
    ensures cause { OnErr result (Rose (K.faults out.old) (K.faults out.new)) }
{
    put_simulated(simulated, out)?;
    put_status(status, out)
}

// Prints what is told of a configuration, and the status.
fn put_told<K: Sink>(studied: &Studied, status: &Status, out: &mut K) -> Result<(), Failed>
    ensures output { K.tells → Puts (is_ok result) (K.output out.old)
        (studied_text studied.now ++ status_text status.now) (K.output out.new) }
    ensures later { K.faults out.old ≤ K.faults out.new }
    ensures cause { OnErr result (Rose (K.faults out.old) (K.faults out.new)) }
{
    put_studied(studied, out)?;
    put_status(status, out)
}

/// Prints what came of a call: behind all but one of the program's own texts stands the status.
pub(crate) fn put_finished<K: Sink>(
    finished: &Finished<'_>,
    status: &Status,
    out: &mut K,
) -> Result<(), Failed>
    requires told { CanBeTold finished.now }
    requires status { status.now ≡ status_finished finished.now }
    ensures output { K.tells → Puts (is_ok result) (K.output out.old)
        (call_text (finished_seen finished.now)) (K.output out.new) }
    ensures later { K.faults out.old ≤ K.faults out.new }
    ensures cause { OnErr result (Rose (K.faults out.old) (K.faults out.new)) }
{
    match finished {
        Finished::OfArray(ended) => put_ended(ended, status, out),
        Finished::OfScan(scanned) => put_scanned(scanned, status, out),
        Finished::OfSimulation(simulated) => put_served(simulated, status, out),
        Finished::OfConf(studied) => put_told(studied, status, out),
        Finished::OfTopic(topic) => put_topic(*topic, out),
    }
}
