//! What a run leaves behind.
ghost use Rattle.std.specs.Prelude.{◌≡◌, ◌<◌, ◌≤◌, ◌+◌, ◌*◌, [], true, length, take, slice_index_or};
ghost use Rattle.blk_disk.specs.Sectors.{put};
ghost use Rattle.eng_log.specs.Handed.{AreRegions, region_at};
ghost use Rattle.eng_log.specs.Log.{noted, entered, with_bytes, counted, MayCount};

use crate::handed::Handed;
use crate::region::Region;

mod open;

use blk_plain::OpId;
use eng_world::Traced;
use std::marker::Model;

/// The history, the trace if it is kept, how many stripes were rebuilt, and what reads hand out.
#[derive(Drop)]
pub struct Log {
    history: Vec<OpId>,
    trace: Vec<Traced>,
    keeps: bool,
    rebuilt: u32,
    pub(crate) handed: Handed,
    history_room: u32,
    trace_room: u32,
}

impl Model for Log {
    ghost use Rattle.std.specs.Prelude.{◌≤◌, length, vec_capacity};
    ghost use Rattle.eng_log.specs.Log.{Logged};

    ghost Value = { Logged };

    ghost view = { λ l. record {
      history = l.history.items;
      trace = l.trace.items;
      keeps = l.keeps;
      rebuilt = l.rebuilt;
      handed = l.handed;
      history_room = l.history_room;
      trace_room = l.trace_room;
    } };

    ghost invariant = { λ l. record {
      history : (length l.history.items ≤ l.history_room) × (l.history_room ≤ vec_capacity l.history);
      trace : (length l.trace.items ≤ l.trace_room) × (l.trace_room ≤ vec_capacity l.trace);
    } };
}

impl Log {
    /// The event is traced, if events are.
    pub fn note(&mut self, event: Traced)
        requires { self.old.keeps ≡ true → length self.old.trace < self.old.trace_room }
        ensures { self.new ≡ noted self.old event }
    {
        if self.keeps {
            self.trace.push_reserved(event);
        }
    }

    /// The operation enters the history.
    pub fn enter(&mut self, id: OpId)
        requires { length self.old.history < self.old.history_room }
        ensures { self.new ≡ entered self.old id }
    {
        self.history.push_reserved(id);
    }

    /// One stripe more was rebuilt.
    pub fn count(&mut self)
        requires { MayCount self.old }
        ensures { self.new ≡ counted self.old }
    {
        self.rebuilt += 1;
    }

    /// The region of an item.
    pub fn region(&self, client: u32, item: u32) -> Region
        requires client { client < length self.now.handed.regions }
        requires item { item < length (slice_index_or self.now.handed.regions client []) }
        ensures { result ≡ region_at self.now.handed client item }
    {
        self.handed.region(client, item)
    }

    /// What is so of the regions. It does nothing.
    pub fn stands(&self)
        ensures { AreRegions self.now.handed }
    {
        self.handed.stands();
    }

    /// The first so many sectors of these bytes are handed out from a sector on.
    pub fn hand(&mut self, first: usize, count: u32, from: &[u8])
        requires count { 512 * count ≤ length from.now }
        requires fits { 512 * first + 512 * count ≤ length self.old.handed.bytes }
        ensures { self.new ≡ with_bytes self.old
            (put self.old.handed.bytes first (take (512 * count) from.now)) }
    {
        self.handed.copy(first, count, from);
    }
}
