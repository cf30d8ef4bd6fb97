//! Events of two clients in orders that are given by hand. Client 0 writes block 0, and reads blocks 0 and 1; client 1
//! writes block 1: all of them are of stripe 0.
ghost use Rattle.eng_array.specs.Steady.{IsSteady};

use super::closed::{handed, history, holds, replied};
use super::driving::{rested, turn};
use super::judging::same;
use super::opening::opened;
use super::{id, level_five, read, write};
use blk_disk::{Disk, MemDisk};
use blk_plain::OpId;
use eng_array::{Closed, Core, Event, Reply};
use lay_core::Layout;
use lay_plain::Raid5;
use std::alloc::Global;
use std::process::Abort;
use std::test::Fail;

// What happens to a client: its item begins; its operation can't be taken, or is taken; the nodes below this number are
// fired one by one, and come home.
#[derive(Clone, Copy)]
enum Step {
    Begins,
    Waits,
    Takes,
    Fires { nodes: u32 },
}

// Does an event, which can be done.
fn does<L: Layout, D: Disk>(rt: &impl Abort, core: &mut Core<L, D>, event: Event)
    requires { IsSteady L.Layout D.Disk core.old.array }
    ensures { IsSteady L.Layout D.Disk core.new.array }
{
    let can = core.can(event);
    same(rt, can, true);
    if can {
        turn(core, event);
    }
}

// Fires the nodes below this number.
fn fires<L: Layout, D: Disk>(rt: &impl Abort, core: &mut Core<L, D>, client: u32, nodes: u32)
    requires { IsSteady L.Layout D.Disk core.old.array }
    ensures { IsSteady L.Layout D.Disk core.new.array }
{
    for node in 0..nodes {
        does(rt, core, Event::Fire { client, node });
    }
}

// Does a step of the client's.
fn goes<L: Layout, D: Disk>(rt: &impl Abort, core: &mut Core<L, D>, client: u32, step: Step)
    requires { IsSteady L.Layout D.Disk core.old.array }
    ensures { IsSteady L.Layout D.Disk core.new.array }
{
    match step {
        Step::Begins => does(rt, core, Event::Begin { client }),
        Step::Waits => same(rt, core.can(Event::Take { client }), false),
        Step::Takes => does(rt, core, Event::Take { client }),
        Step::Fires { nodes } => fires(rt, core, client, nodes),
    }
}

// Does the steps, each of the client beside it.
fn go<L: Layout, D: Disk>(rt: &impl Abort, core: &mut Core<L, D>, steps: &[(u32, Step)])
    requires { IsSteady L.Layout D.Disk core.old.array }
    ensures { IsSteady L.Layout D.Disk core.new.array }
{
    for at in steps {
        goes(rt, core, at.0, at.1);
    }
}

// A write reads the other data unit: a read, an exclusive-or, the commit, two writes, the terminator.
const WRITES: Step = Step::Fires { nodes: 6 };

// The read of both units: two reads, the commit, the terminator.
const READS: Step = Step::Fires { nodes: 4 };

// Client 1's write waits for client 0's write and then for its read.
const LAST: [(u32, Step); 11] = [
    (0, Step::Begins),
    (0, Step::Takes),
    (1, Step::Begins),
    (1, Step::Waits),
    (0, WRITES),
    (0, Step::Begins),
    (0, Step::Takes),
    (1, Step::Waits),
    (0, READS),
    (1, Step::Takes),
    (1, WRITES),
];

// Client 1's write is taken between the two.
const BETWEEN: [(u32, Step); 10] = [
    (0, Step::Begins),
    (0, Step::Takes),
    (1, Step::Begins),
    (0, WRITES),
    (1, Step::Takes),
    (0, Step::Begins),
    (0, Step::Waits),
    (1, WRITES),
    (0, Step::Takes),
    (0, READS),
];

// Client 1's write is taken before both.
const FIRST: [(u32, Step); 10] = [
    (0, Step::Begins),
    (1, Step::Begins),
    (1, Step::Takes),
    (0, Step::Waits),
    (1, WRITES),
    (0, Step::Takes),
    (0, WRITES),
    (0, Step::Begins),
    (0, Step::Takes),
    (0, READS),
];

// What the two clients leave by these steps.
fn gone(
    rt: &impl Abort,
    alloc: Global,
    steps: &[(u32, Step)],
) -> Result<Closed<Raid5, MemDisk>, Fail> {
    let first = [write(0, 1, 0x11), read(0, 2)];
    let second = [write(1, 1, 0x22)];
    let setup = level_five(rt, alloc, &[&[], &[], &[]], &[&first, &second])?;
    let mut core = opened(alloc, setup)?;
    go(rt, &mut core, steps);
    rested(core)
}

// By these steps the history is this one, and block 1 is read as this byte.
fn ends(
    rt: &impl Abort,
    alloc: Global,
    steps: &[(u32, Step)],
    operations: &[OpId],
    byte: u8,
) -> Result<(), Fail> {
    let closed = gone(rt, alloc, steps)?;
    history(rt, &closed, operations);
    replied(rt, &closed, 0, &[Reply::Done, Reply::Data]);
    replied(rt, &closed, 1, &[Reply::Done]);
    handed(rt, &closed, &[0x11, byte]);
    holds(rt, &closed, 0, 64, &[0x11]);
    holds(rt, &closed, 1, 64, &[0x22]);
    holds(rt, &closed, 2, 64, &[0x33]);
    Ok(())
}

// Block 1 is read as it was, where its write comes behind the read in the history, and else as it was written.
#[test]
fn a_read_is_as_the_history_has_it(rt: HostRuntime) -> Result<(), Fail> {
    let alloc = rt.alloc();
    ends(&rt, alloc, &LAST, &[id(0, 0), id(0, 1), id(1, 0)], 0x00)?;
    ends(&rt, alloc, &BETWEEN, &[id(0, 0), id(1, 0), id(0, 1)], 0x22)?;
    ends(&rt, alloc, &FIRST, &[id(1, 0), id(0, 0), id(0, 1)], 0x22)
}
