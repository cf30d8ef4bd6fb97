//! The log is opened, and closed.
ghost use Rattle.std.specs.Prelude.{◌≡◌, [], IfOk};

use crate::handed::Handed;
use crate::log::Log;
use crate::memory::Memory;
use blk_plain::OpId;
use eng_world::Traced;
use std::alloc::Global;

impl Log {
    /// An empty log with this room, and what reads hand out. The only error is want of memory.
    pub fn open(
        alloc: Global,
        keeps: bool,
        handed: Handed,
        history_room: u32,
        trace_room: u32,
    ) -> Result<Log, Memory>
        ensures { IfOk result (λ log. log ≡ record {
          history = [];
          trace = [];
          keeps = keeps;
          rebuilt = 0;
          handed = handed;
          history_room = history_room;
          trace_room = trace_room;
        }) }
    {
        Ok(Log {
            history: Vec::with_capacity(alloc, history_room as usize)?,
            trace: Vec::with_capacity(alloc, trace_room as usize)?,
            keeps,
            rebuilt: 0,
            handed,
            history_room,
            trace_room,
        })
    }

    /// History, trace, how many stripes were rebuilt, and what reads hand out.
    pub fn close(self) -> (Vec<OpId>, Vec<Traced>, u32, Handed)
        ensures history { result.0.items ≡ self.history }
        ensures trace { result.1.items ≡ self.trace }
        ensures rebuilt { result.2 ≡ self.rebuilt }
        ensures handed { result.3 ≡ self.handed }
    {
        (self.history, self.trace, self.rebuilt, self.handed)
    }
}
