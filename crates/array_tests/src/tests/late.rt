//! A column fails while a job is out.
ghost use Rattle.std.specs.Prelude.{IfOk};
ghost use Rattle.eng_state.specs.Out.{CameBack};
ghost use Rattle.eng_array.specs.Steady.{IsSteady};

use super::closed::{handed, history, holds, lost, replied};
use super::driving::{Held, begin_beside, drained, hold, reaches};
use super::judging::same;
use super::opening::opened;
use super::{fail, id, level_five, read, write};
use blk_disk::{Disk, MemDisk};
use eng_array::{Closed, Column, Core, Event, Reply};
use lay_core::Layout;
use lay_plain::Raid5;
use std::alloc::Global;
use std::process::Abort;
use std::test::Fail;

// Client 0 does what it can until this node of its can be fired, which then is out.
fn held_at<L: Layout, D: Disk + Drop>(core: &mut Core<L, D>, node: u32) -> Result<Held<D>, Fail>
    requires { IsSteady L.Layout D.Disk core.old.array }
    ensures steady { IsSteady L.Layout D.Disk core.new.array }
    ensures back { IfOk result (λ h. CameBack D.Disk L.Layout core.new.array h.job h.outcome) }
{
    if !reaches(core, 0, Event::Fire { client: 0, node }) {
        return Err(Fail::from("the node is never fired"));
    }
    Ok(hold(core, 0, node))
}

// Client 1 has its column fail while the job is out, which then comes home.
fn fails_beside<L: Layout, D: Disk + Drop>(core: &mut Core<L, D>, held: Held<D>) -> Result<(), Fail>
    requires steady { IsSteady L.Layout D.Disk core.old.array }
    requires back { CameBack D.Disk L.Layout core.old.array held.job held.outcome }
    ensures { IsSteady L.Layout D.Disk core.new.array }
{
    if !core.can(Event::Begin { client: 1 }) {
        return Err(Fail::from("client 1 can't begin"));
    }
    begin_beside(core, 1, &held);
    if core.rest() {
        return Err(Fail::from("at rest with a job out"));
    }
    core.finish(held.job, held.outcome);
    Ok(())
}

// The run from its opening to its close. While this node of client 0 is out, client 1 has its column fail.
fn failed_beside<L: Layout + Drop, D: Disk + Drop>(
    mut core: Core<L, D>,
    node: u32,
) -> Result<Closed<L, D>, Fail>
    requires { IsSteady L.Layout D.Disk core.array }
{
    let held = held_at(&mut core, node)?;
    fails_beside(&mut core, held)?;
    drained(core)
}

// Client 0 writes and reads block 0. While this node of the write is out, client 1 has a column fail.
fn failing(
    rt: &impl Abort,
    alloc: Global,
    node: u32,
    column: u32,
) -> Result<Closed<Raid5, MemDisk>, Fail> {
    let first = [write(0, 1, 0xa5), read(0, 1)];
    let second = [fail(column)];
    let setup = level_five(rt, alloc, &[&[], &[], &[]], &[&first, &second])?;
    failed_beside(opened(alloc, setup)?, node)
}

// Node 3 writes unit 0 on device 0. Its call went well, and the column has failed meanwhile.
#[test]
fn a_late_write_is_bad_and_the_operation_done(rt: HostRuntime) -> Result<(), Fail> {
    let closed = failing(&rt, rt.alloc(), 3, 0)?;
    replied(&rt, &closed, 0, &[Reply::Done, Reply::Data]);
    replied(&rt, &closed, 1, &[Reply::Okay]);
    history(&rt, &closed, &[id(0, 0), id(0, 1)]);
    lost(&rt, &closed, None);
    same(&rt, closed.columns.first().copied(), Some(Column::Dead));
    handed(&rt, &closed, &[0xa5]);
    holds(&rt, &closed, 0, 64, &[0xa5]);
    holds(&rt, &closed, 2, 64, &[0xa5]);
    Ok(())
}

// Node 0 reads unit 1 on device 1, whose column has failed meanwhile: the write is planned anew.
#[test]
fn a_late_read_is_planned_anew(rt: HostRuntime) -> Result<(), Fail> {
    let closed = failing(&rt, rt.alloc(), 0, 1)?;
    replied(&rt, &closed, 0, &[Reply::Done, Reply::Data]);
    history(&rt, &closed, &[id(0, 0), id(0, 1)]);
    same(&rt, closed.columns.get(1).copied(), Some(Column::Dead));
    handed(&rt, &closed, &[0xa5]);
    holds(&rt, &closed, 0, 64, &[0xa5]);
    holds(&rt, &closed, 2, 64, &[0xa5]);
    Ok(())
}
