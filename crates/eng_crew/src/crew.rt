//! The crew: a worker in each of several threads.
ghost use Rattle.std.specs.Prelude.{◌≡◌, ◌<◌, ◌≤◌, ◌+◌, IfOk, IfErr, All, vec_len, vec_capacity};
ghost use Rattle.std.specs.Thread.{IsSync};
ghost use Rattle.eng_events.specs.Opened.{NoneOut};
ghost use Rattle.eng_array.specs.Steady.{IsSteady};
ghost use Rattle.eng_array.specs.Tickets.{After};
ghost use Rattle.eng_turn.specs.Turn.{opening_of, share_of};
ghost use Rattle.eng_crew.specs.Idle.{IsReady, IsSpare, HasIdleMark, WasIdle};

use crate::rule::CrewRule;
use crate::worker::work;
use blk_disk::Disk;
use eng_array::Core;
use eng_turn::{Pass, Turn};
use lay_core::Layout;
use raid_progress::Progress;
use std::alloc::{AllocFailed, Global};
use std::sync::Wait;
use std::thread;
use std::thread::Threads;

/// There was no memory.
#[derive(Clone, Copy, Debug, PartialEq, Eq)]
pub struct Memory;

/// Lets 1 to 16 workers at the core, which has no job out, until each of them found nothing to do, and hands it back:
/// with all jobs home, and by events of clients alone. On its way it was idle: at rest, or with nothing to do but that jobs
/// came home. Where the system makes no more threads, this one does the work
/// of those that are missing. Each worker tells every now and then how many items have a reply, of so many in all.
///
/// All passes are made, and the memory for them, for the turn and for the box in which the core lies meanwhile is taken,
/// before the first event. `Memory` where there was none: it comes only then, and the core comes back as it was.
pub fn run_crew<
    L: Layout + Drop + Send,
    D: Disk + Drop + Send,
    R: Threads + Wait + Sync,
    P: Progress + Sync,
>(
    rt: &R,
    alloc: Global,
    core: Core<L, D>,
    workers: u32,
    progress: &P,
    all: u64,
) -> Result<Core<L, D>, (Core<L, D>, Memory)>
    requires workers { (1 ≤ workers) × (workers ≤ 16) }
    requires steady { IsSteady L.Layout D.Disk core.array }
    requires home { NoneOut core.array.clients }
    ensures after { IfOk result (λ now. After L.Layout D.Disk core.array now.array) }
    ensures idle { IfOk result (λ now. WasIdle L.Layout D.Disk core.array now.array) }
    ensures steady { IfOk result (λ now. IsSteady L.Layout D.Disk now.array) }
    ensures home { IfOk result (λ now. NoneOut now.array.clients) }
    ensures err { IfErr result (λ e. e.0 ≡ core) }
{
    let Ok(mut others) = Vec::with_capacity(alloc, workers as usize) else {
        return Err((core, Memory))
    };
    let boxed = match Box::new(alloc, core) {
        Ok(boxed) => boxed,
        Err(AllocFailed { value: core }) => return Err((core, Memory)),
    };
    let (turn, mut pass) = match Turn::<CrewRule<L, D>>::open(alloc, boxed) {
        Ok(opened) => opened,
        Err((boxed, _)) => return Err((Box::into_inner(boxed), Memory)),
    };
    split_all(&turn, &mut pass, &mut others, workers - 1);
    let pass = crew(rt, &turn, pass, others, progress, all);
    let Some(boxed) = turn.close(pass) else {
        unreachable!()
    };
    Ok(Box::into_inner(boxed))
}

// As many more passes, of one share each.
fn split_all<L: Layout + Drop, D: Disk + Drop>(
    turn: &Turn<CrewRule<L, D>>,
    pass: &mut Pass<CrewRule<L, D>>,
    others: &mut Vec<Pass<CrewRule<L, D>>>,
    count: u32,
)
    requires ready { IsReady turn.now pass.old }
    requires shares { count < share_of pass.old }
    requires none { vec_len others.old ≡ 0 }
    requires room { count ≤ vec_capacity others.old }
    ensures ready { IsReady turn.now pass.new }
    ensures share { share_of pass.new + count ≡ share_of pass.old }
    ensures spare { All (IsSpare turn.now) others.new.items }
    ensures count { vec_len others.new ≡ count }
{
    for _ in 0..count {
        others.push_reserved(turn.split(pass));
    }
}

// A thread for each of the other passes, and this one for its own.
fn crew<
    L: Layout + Drop + Send,
    D: Disk + Drop + Send,
    R: Threads + Wait + Sync,
    P: Progress + Sync,
>(
    rt: &R,
    turn: &Turn<CrewRule<L, D>>,
    mut pass: Pass<CrewRule<L, D>>,
    mut others: Vec<Pass<CrewRule<L, D>>>,
    progress: &P,
    all: u64,
) -> Pass<CrewRule<L, D>>
    requires ready { IsReady turn.now pass }
    requires others { All (IsSpare turn.now) others.items }
    ensures ready { IsReady turn.now result }
    ensures share { share_of result ≡ share_of pass + vec_len others }
    ensures idle { HasIdleMark L.Layout D.Disk (opening_of turn.now) result }
{
    let Some(other) = others.pop() else {
        return worked(rt, turn, pass, progress, all)
    };
    let (other, mut pass) = thread::join(
        rt,
        || -> Pass<CrewRule<L, D>>
            requires { IsSpare turn.now other }
            ensures { IsSpare turn.entry.now result }
        { worked(rt, turn, other, progress, all) },
        || -> Pass<CrewRule<L, D>>
            requires { IsSync R.row × IsSync P.row
                × (IsReady turn.now pass × All (IsSpare turn.now) others.items) }
            ensures { IsReady turn.entry.now result
                × (share_of result ≡ share_of pass + vec_len others)
                × HasIdleMark L.Layout D.Disk (opening_of turn.entry.now) result }
        { crew(rt, turn, pass, others, progress, all) },
    );
    turn.join(&mut pass, other);
    pass
}

// One worker, with a pass of its own.
fn worked<L: Layout + Drop, D: Disk + Drop, W: Wait, P: Progress>(
    rt: &W,
    turn: &Turn<CrewRule<L, D>>,
    mut pass: Pass<CrewRule<L, D>>,
    progress: &P,
    all: u64,
) -> Pass<CrewRule<L, D>>
    requires { IsReady turn.now pass }
    ensures ready { IsReady turn.now result }
    ensures share { share_of result ≡ share_of pass }
    ensures idle { HasIdleMark L.Layout D.Disk (opening_of turn.now) result }
{
    work(rt, turn, &mut pass, progress, all);
    pass
}
