//! The run of the words, and what it prints.
ghost use Rattle.std.specs.Prelude.{◌≡◌, ◌≤◌, OnOk, OnErr};
ghost use Rattle.blk_disk.specs.Disk.{Rose};
ghost use Rattle.raid_top.specs.Ends.{Answers};
ghost use Rattle.raid_top.specs.Bays.{told_of};
ghost use Rattle.raid_top.specs.Headline.{Headline};

use crate::doubting::Doubts;
use crate::finished::status_finished;
use crate::invoking::invoke;
use crate::paging::Telling;
use blk_disk::{Failed, StopDisk};
use put_line::{page_room, put_by_pages};
use raid_bay::{Bay, Name, Sink};
use raid_progress::Progress;
use std::alloc::Global;
use std::sync::Wait;
use std::thread::Threads;
use top_status::{Status, put_refusal};

// The status, or that its output could not be printed.
fn answer_of(status: Status, printed: Result<(), Failed>) -> Status
    ensures ok { OnOk printed (result ≡ status) }
    ensures err { OnErr printed (result ≡ Status.SinkFault) }
{
    match printed {
        Ok(()) => status,
        Err(Failed) => Status::SinkFault,
    }
}

/// Does all that the program does: what the words ask for is done, and what came of it is printed.
/// The answer is the status, or `SinkFault` where the output could not be printed whole.
///
/// What came of the words is printed by pages, for which room is taken first; where there is none, line by line.
///
/// `progress` is told how far it is, by numbers alone, and the doubt about an array that is opened: nothing that is done or
/// printed rests on that.
///
/// What is right isn't refused: see [`what_is_right_is_answered`](crate::what_is_right_is_answered), which is so of every answer.
///
/// Memory that is wanted behind the opening of the core is wanted before any device is written. On every path each device
/// that was taken is put back.
pub fn run<B: Bay, K: Sink, R: Threads + Wait + Sync, P: Progress + Doubts + Sync>(
    rt: &R,
    alloc: Global,
    words: &[Name],
    bay: &mut B,
    out: &mut K,
    progress: &P,
) -> Status
where
    B::D: StopDisk + Send + Drop,
    ensures answer { Answers B.D.Disk (told_of B.Bay bay.old bay.new) words.now K.tells
        (Rose (K.faults out.old) (K.faults out.new)) result (K.output out.old) (K.output out.new) }
    ensures headline { Headline B.D.Disk (told_of B.Bay bay.old bay.new) K.tells
        (K.output out.old) (K.output out.new) words.now result }
    ensures bay_later { B.faults bay.old ≤ B.faults bay.new }
    ensures sink_later { K.faults out.old ≤ K.faults out.new }
{
    let room = page_room(alloc).ok();
    let came = invoke(rt, alloc, words, bay, progress);
    progress.end();
    match came {
        Ok(finished) => {
            let status = status_finished(&finished);
            let told = Telling {
                finished: &finished,
                status: &status,
            };
            let printed = put_by_pages(&told, room, out);
            answer_of(status, printed)
        }
        Err(refusal) => {
            let printed = put_refusal(&refusal, out);
            answer_of(refusal.into_status(), printed)
        }
    }
}
