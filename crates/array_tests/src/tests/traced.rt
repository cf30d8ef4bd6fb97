//! The trace of a run.
ghost use Rattle.std.specs.Prelude.{◌≡◌, ◌≤◌, ◌+◌, ◌*◌, [], ℕ, length, IfOk};
ghost use Rattle.eng_array.specs.Fitting.{FitsTrace, row_events};

use super::closed::{history, holds, replied};
use super::driving::run;
use super::judging::same;
use super::{devices, id, live, read, write};
use blk_disk::MemDisk;
use blk_plain::OpId;
use eng_array::{Closed, Reply, Setup, Traced};
use item_list::Items;
use lay_core::Layout;
use lay_plain::Raid5;
use std::alloc::Global;
use std::process::Abort;
use std::test::Fail;

// One client with a short script, of which the trace is kept.
fn traced(
    alloc: Global,
    layout: Raid5,
    fails: &[&[u32]],
    items: Items,
) -> Result<Setup<Raid5, MemDisk>, Fail>
    requires few { length fails.now ≤ 5 }
    requires short { (n : ℕ)
        → row_events (⟦<Raid5 as Layout>⟧.shape layout) [] n items.items ≤ 72 + n * 70 }
    ensures { IfOk result (FitsTrace ⟦<Raid5 as Layout>⟧) }
{
    Ok(Setup {
        layout,
        devices: devices(alloc, fails)?,
        columns: live(alloc, fails.len() as u32)?,
        clients: vec![in alloc; items]?,
        graphs: Vec::new(alloc),
        trace: true,
    })
}

// An operation begins and is taken, and so many nodes of its end well, one by one.
fn served(alloc: Global, id: OpId, nodes: u32) -> Result<Vec<Traced>, Fail> {
    let mut wanted = vec![in alloc; Traced::Begin { id }, Traced::Take { id }]?;
    for node in 0..nodes {
        wanted.extend_from_slice(&[Traced::Fire { id, node }, Traced::Good { id, node }])?;
    }
    Ok(wanted)
}

// The four units of the stripe are filled with this byte, and the check unit is zero.
fn are_whole(rt: &impl Abort, closed: &Closed<Raid5, MemDisk>, byte: u8) {
    for device in 0..4 {
        holds(rt, closed, device, 64, &[byte]);
    }
    holds(rt, closed, 4, 64, &[]);
}

// Nodes are xor, commit, five writes, terminator.
#[test]
fn a_whole_stripe_is_written_without_a_read(rt: HostRuntime) -> Result<(), Fail> {
    let alloc = rt.alloc();
    let layout = Raid5::new(5, 1, 64).expect(&rt, "a layout");
    let items = Items::from_slice(alloc, &[write(0, 4, 0x3c)])?;
    let closed = run(
        alloc,
        traced(alloc, layout, &[&[], &[], &[], &[], &[]], items)?,
    )?;
    replied(&rt, &closed, 0, &[Reply::Done]);
    history(&rt, &closed, &[id(0, 0)]);
    let wanted = served(alloc, id(0, 0), 8)?;
    same(&rt, closed.trace.as_slice(), wanted.as_slice());
    are_whole(&rt, &closed, 0x3c);
    Ok(())
}

// The operation is taken, its node 0 fails, and it goes back.
fn goes_back(rt: &impl Abort, trace: &[Traced], id: OpId) {
    let first = [
        Traced::Begin { id },
        Traced::Take { id },
        Traced::Fire { id, node: 0 },
        Traced::Bad { id, node: 0 },
        Traced::Back { id },
    ];
    same(rt, trace.get(..5), Some(first.as_slice()));
}

fn ends_well(event: &Traced, operation: OpId) -> bool {
    match event {
        Traced::Good { id, .. } => *id == operation,
        _ => false,
    }
}

fn end_well(rt: &impl Abort, trace: &[Traced], operation: OpId, nodes: usize) {
    let good = trace.iter().filter(|event| ends_well(*event, operation));
    same(rt, good.count(), nodes);
}

// The large write reads unit 1 on device 1, which fails; the new graph is small, and has 7 nodes.
#[test]
fn a_failed_read_is_traced_bad_and_its_operation_back(rt: HostRuntime) -> Result<(), Fail> {
    let alloc = rt.alloc();
    let layout = Raid5::new(3, 1, 64).expect(&rt, "a layout");
    let items = Items::from_slice(alloc, &[write(0, 1, 0xa5), read(0, 1)])?;
    let closed = run(alloc, traced(alloc, layout, &[&[], &[0], &[]], items)?)?;
    replied(&rt, &closed, 0, &[Reply::Done, Reply::Data]);
    goes_back(&rt, &closed.trace, id(0, 0));
    end_well(&rt, &closed.trace, id(0, 0), 7);
    Ok(())
}
