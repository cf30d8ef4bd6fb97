//! The drain: it serves the core alone, on this thread, waits for nobody and takes no memory.
ghost use Rattle.std.specs.Prelude.{◌≡◌, true, false};
ghost use Rattle.eng_events.specs.Opened.{NoneOut};
ghost use Rattle.eng_choice.specs.Picked.{IsResting};
ghost use Rattle.eng_array.specs.Progress.{Falls};
ghost use Rattle.eng_array.specs.Steady.{IsSteady};
ghost use Rattle.eng_array.specs.Tickets.{After};
ghost use Rattle.eng_crew.specs.Drained.{Drained};
ghost use Rattle.eng_crew.specs.Idle.{IsIdle};

use crate::making::make_next;
use crate::turns::LOOK;
use blk_disk::Disk;
use eng_array::Core;
use lay_core::Layout;
use raid_progress::Progress;

/// Serves the core, which has no job out, until every item has its reply, or the array is lost, and no job is out. A
/// node that is fired is performed and comes home before the next event.
///
/// An item of which no graph has more than m nodes has at most 2 m + 4 events, and as many again for each column that
/// dies meanwhile. It waits for nobody and takes no memory. It tells every now and then, and in the end, how many items
/// have a reply, of so many in all.
pub fn drain<L: Layout, D: Disk, P: Progress>(core: &mut Core<L, D>, progress: &P, all: u64)
    requires steady { IsSteady L.Layout D.Disk core.old.array }
    requires home { NoneOut core.old.array.clients }
    ensures steady { IsSteady L.Layout D.Disk core.new.array }
    ensures home { NoneOut core.new.array.clients }
    ensures rest { IsResting core.new.array }
    ensures drained { Drained L.Layout D.Disk core.old.array core.new.array }
{
    let mut turns: u32 = 0;
    while drain_one(core) {
        turns = turns.wrapping_add(1);
        if turns % LOOK == 0 {
            progress.tell(core.replied(), all);
        }
    }
    progress.tell(core.replied(), all);
}

// One event and, if it fires a node, the end of its job; and whether there was one.
fn drain_one<L: Layout, D: Disk>(core: &mut Core<L, D>) -> bool
    requires steady { IsSteady L.Layout D.Disk core.old.array }
    requires home { NoneOut core.old.array.clients }
    ensures steady { IsSteady L.Layout D.Disk core.new.array }
    ensures home { NoneOut core.new.array.clients }
    ensures after { After L.Layout D.Disk core.old.array core.new.array }
    ensures falls { result ≡ true → Falls core.old.array core.new.array }
    ensures idle { result ≡ false → IsIdle L.Layout core.new.array }
{
    let next = core.next();
    make_next(core, next)
}
