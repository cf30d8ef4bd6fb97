//! Threads that take units out of a shared number one by one, and count each unit that they took.
ghost use Rattle.std.specs.Prelude.{◌≡◌, ◌<◌, ◌≤◌, ◌+◌, IfSome};
ghost use Rattle.std.specs.Thread.{IsSync};
ghost use Rattle.eng_turn.specs.Turn.{share_of};
ghost use Rattle.eng_turn.specs.Tally.{IsReady, HasNoneLeft};

use eng_turn::{Pass, Turn, TurnRule};
use std::alloc::Global;
use std::hint::spin_loop;
use std::sync::Wait;
use std::thread;
use std::thread::{Threads, yield_now};

// The value is the number of units left and the number counted. The ticket says whether the pass has a unit in hand.
pub struct Tally;

impl TurnRule for Tally {
    ghost use Rattle.std.specs.Prelude.{false};
    ghost use Rattle.eng_turn.specs.Tally.{Fits, Steps, After, empty_comes, empty_goes, after_itself, after_later};

    type Value = (u64, u64);

    type Ticket = bool;

    ghost empty = { false };

    ghost fits = { Fits };

    ghost step = { Steps };

    ghost after = { After };

    ghost empty_comes = { empty_comes };

    ghost empty_goes = { empty_goes };

    ghost after_itself = { after_itself };

    ghost after_later = { after_later };

    ghost after_step = { λ _ _ _ _ step. step };
}

// How long the value is held.
const LOOKS: u32 = 1_048_576;

// Lets time pass, and now and then another thread run.
fn pass_time() {
    for look in 0..LOOKS {
        if look % 65_536 == 0 {
            yield_now();
        } else {
            spin_loop();
        }
    }
}

// Holds the value for a while, and changes nothing. Who comes meanwhile has to wait, and is to be woken.
fn hold<W: Wait>(rt: &W, turn: &Turn<Tally>, pass: &mut Pass<Tally>)
    requires { IsReady turn.now pass.old }
    ensures ready { IsReady turn.now pass.new }
    ensures share { share_of pass.new ≡ share_of pass.old }
{
    let value = turn.enter(rt, pass);
    pass_time();
    turn.leave(pass, value, &false);
}

// Holds the value for a while, and then takes a unit in one turn and counts it in another, until none is left.
fn work<W: Wait>(rt: &W, turn: &Turn<Tally>, pass: &mut Pass<Tally>)
    requires { IsReady turn.now pass.old }
    ensures ready { IsReady turn.now pass.new }
    ensures share { share_of pass.new ≡ share_of pass.old }
    ensures none_left { HasNoneLeft pass.new }
{
    hold(rt, turn, pass);
    for _ in rt.forever() {
        let (left, counted) = turn.enter(rt, pass);
        if left == 0 {
            turn.leave(pass, (left, counted), &false);
            return;
        }
        turn.leave(pass, (left - 1, counted), &true);
        let (left, counted) = turn.enter(rt, pass);
        turn.leave(pass, (left, counted + 1), &false);
    }
    unreachable!()
}

fn worked<W: Wait>(rt: &W, turn: &Turn<Tally>, mut pass: Pass<Tally>) -> Pass<Tally>
    requires { IsReady turn.now pass }
    ensures ready { IsReady turn.now result }
    ensures share { share_of result ≡ share_of pass }
    ensures none_left { HasNoneLeft result }
{
    work(rt, turn, &mut pass);
    pass
}

// The caller's thread works with one pass, and `workers - 1` more threads with a pass of their own.
fn crew<R: Threads + Wait + Sync>(
    rt: &R,
    turn: &Turn<Tally>,
    mut pass: Pass<Tally>,
    workers: u32,
) -> Pass<Tally>
    requires ready { IsReady turn.now pass }
    requires shares { (1 ≤ workers) × (workers ≤ share_of pass) }
    ensures ready { IsReady turn.now result }
    ensures share { share_of result ≡ share_of pass }
    ensures none_left { HasNoneLeft result }
{
    if workers == 1 {
        return worked(rt, turn, pass);
    }
    let other = turn.split(&mut pass);
    let (other, mut pass) = thread::join(
        rt,
        || -> Pass<Tally>
            requires { IsReady turn.now other × (share_of other ≡ 1) }
            ensures { IsReady turn.entry.now result × (share_of result ≡ 1) }
        { worked(rt, turn, other) },
        || -> Pass<Tally>
            requires { IsSync R.row × (IsReady turn.now pass × (2 ≤ workers) × (workers ≤ share_of pass + 1)) }
            ensures { IsReady turn.entry.now result × (share_of result ≡ share_of pass) × HasNoneLeft result }
        { crew(rt, turn, pass, workers - 1) },
    );
    turn.join(&mut pass, other);
    pass
}

// How many units the workers counted: all of them.
pub fn count<R: Threads + Wait + Sync>(
    rt: &R,
    alloc: Global,
    units: u64,
    workers: u32,
) -> Option<u64>
    requires { (1 ≤ workers) × (workers ≤ 16) }
    ensures { IfSome result (λ counted. counted ≡ units) }
{
    let Ok((turn, pass)) = Turn::<Tally>::open(alloc, (units, 0)) else {
        return None;
    };
    let pass = crew(rt, &turn, pass, workers);
    let Some((_, counted)) = turn.close(pass) else {
        unreachable!()
    };
    Some(counted)
}
