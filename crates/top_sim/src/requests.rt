//! The reader of requests.
ghost use Rattle.std.specs.Prelude.{◌≡◌, ◌≤◌, length, map, IfOk};
ghost use Rattle.raid_text.specs.Seen.{left};
ghost use Rattle.sim_queue.specs.Replies.{AreWithin};
ghost use Rattle.sim_queue.specs.Service.{IsAsked};
ghost use Rattle.text_steps.specs.Answers.{Gives};
ghost use Rattle.text_steps.specs.Steps.{rest_of};
ghost use Rattle.top_sim.specs.Answers.{GivesIfRoom};
ghost use Rattle.top_sim.specs.Steps.{seen};
ghost use Rattle.top_sim.specs.Format.{disk_line, requests_behind};
ghost use Rattle.top_sim.specs.Texts.{workload_of};
ghost use Rattle.top_sim.specs.Views.{workload_seen};
ghost use Rattle.top_sim.specs.declared.requests.RequestsFault.TheVariants.{At as Refused, Memory};

use crate::words::{disk_in, next_request, read_sectors};
use raid_text::Lines;
use sim_queue::Request;
use std::alloc::{AllocFailed, Global};
use text_steps::{At, WORD, at_line, next_line};

/// Why a text wasn't read as requests.
#[derive(Clone, Copy, Debug, PartialEq, Eq)]
pub(crate) enum RequestsFault {
    /// The first line that can't be read, numbered from 1, and the code of its refusal.
    At { line: u32, code: u8 },
    /// There was no memory for the requests.
    Memory,
}

impl From<At> for RequestsFault {
    ghost from_gives = { λ at e. e ≡ Refused at.line at.code };

    fn from(at: At) -> RequestsFault {
        RequestsFault::At {
            line: at.line,
            code: at.code,
        }
    }
}

impl<T: Drop> From<AllocFailed<T>> for RequestsFault {
    ghost from_gives = { λ _ e. e ≡ Memory };

    fn from(_: AllocFailed<T>) -> RequestsFault {
        RequestsFault::Memory
    }
}

/// Requests to a disk of so many sectors.
#[derive(Drop)]
pub(crate) struct Workload {
    pub sectors: u32,
    pub requests: Vec<Request>,
}

// The sectors of the disk, which the first line says.
#[tactic(auto, unfolding(crate::specs::Format::disk_line, text_steps::specs::Steps::rest_of))]
fn read_disk(lines: &mut Lines) -> Result<u32, At>
    ensures value { Gives (λ sectors. (sectors, left lines.new)) result
        (disk_line (rest_of lines.old)) }
    ensures most { IfOk result (λ sectors. sectors ≤ 262144) }
{
    let mut line = next_line(lines, WORD)?;
    at_line(line.at, disk_in(&mut line.words))
}

// The requests of the lines that are left.
fn read_requests(
    alloc: Global,
    sectors: u32,
    lines: &mut Lines,
) -> Result<Vec<Request>, RequestsFault>
    requires { sectors ≤ 262144 }
    ensures requests { GivesIfRoom (λ v. map seen v.items) result
        (requests_behind sectors 0 0 0 (left lines.old)) }
    ensures asked { IfOk result (λ v. IsAsked v.items) }
    ensures within { IfOk result (λ v. AreWithin sectors v.items) }
{
    let mut requests = Vec::new(alloc);
    let mut low = 0;
    let mut read = 0;
    while let Some(line) = lines.next() {
        match next_request(sectors, low, requests.len(), read, &line) {
            Ok(request) => {
                low = request.tick;
                read += read_sectors(&request.op);
                requests.push(request)?;
            }
            Err(code) => {
                return Err(RequestsFault::At {
                    line: line.at(),
                    code,
                });
            }
        }
    }
    Ok(requests)
}

/// The requests of a text of at most 16,777,216 bytes, and the sectors of the disk that they are
/// for.
pub(crate) fn read_workload(alloc: Global, text: &[u8]) -> Result<Workload, RequestsFault>
    requires { length text.now ≤ 16777216 }
    ensures workload { GivesIfRoom workload_seen result (workload_of text.now) }
    ensures asked { IfOk result (λ w. IsAsked w.requests.items) }
    ensures within { IfOk result (λ w. AreWithin w.sectors w.requests.items) }
{
    let mut lines = Lines::new(text);
    let sectors = read_disk(&mut lines)?;
    let requests = read_requests(alloc, sectors, &mut lines)?;
    Ok(Workload { sectors, requests })
}
