//! Requests, and what comes of them.
ghost use Rattle.std.specs.Prelude.{◌≡◌, ◌<◌, length};
ghost use Rattle.sim_queue.specs.Service.{request_at, span_of};

use blk_plain::{Op, Span};

/// A read or a write, and the tick at which it arrives.
#[derive(Clone, Copy, Debug, PartialEq, Eq)]
pub struct Request {
    pub tick: u64,
    pub op: Op,
}

impl Request {
    /// The span that it reads or writes, in sectors; an empty one where it is neither.
    pub fn span(&self) -> Span
        ensures { result ≡ span_of self.now.op }
    {
        match self.op {
            Op::Write { span, .. } | Op::Read { span } => span,
            Op::Writes { .. } | Op::Rebuild { .. } | Op::Sync { .. } => Span { first: 0, count: 0 },
        }
    }
}

#[tactic(auto, unfolding(crate::specs::Service::request_at))]
pub(crate) fn nth_request(requests: &[Request], number: usize) -> Request
    requires { number < length requests.now }
    ensures { result ≡ request_at requests.now number }
{
    requests[number]
}

/// A request, by its place among the requests, from 0, and the ticks at which its service began and ended.
#[derive(Clone, Copy, Debug, PartialEq, Eq)]
pub struct Served {
    pub request: u32,
    pub start: u64,
    pub end: u64,
}

/// By which rule the next request is chosen of those that have arrived.
#[derive(Clone, Copy, Debug, PartialEq, Eq)]
pub enum Queue {
    /// First in, first out: the least number.
    Fifo,
    /// Shortest seek time first: the least distance of its first sector from the head, then the least number.
    Sstf,
    /// The nearest ahead in the head's direction, then the least number; the head turns where none is ahead.
    Scan,
}
