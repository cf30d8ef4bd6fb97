//! A worker.
ghost use Rattle.std.specs.Prelude.{◌≡◌};
ghost use Rattle.eng_turn.specs.Turn.{opening_of, share_of};
ghost use Rattle.eng_crew.specs.Idle.{IsReady, HasIdleMark};

use crate::entries::{look, turn_by};
use crate::rule::CrewRule;
use crate::turns::{Found, LOOK};
use crate::waiting::Pace;
use blk_disk::Disk;
use eng_array::Job;
use eng_turn::{Pass, Turn};
use lay_core::Layout;
use raid_progress::Progress;
use std::sync::Wait;

// A worker ends after so many turns in a row in which there was nothing to do.
const EMPTY: u32 = 1_048_576;

// The client whose job it is; where there is none, the one before.
fn client_of<D>(job: &Option<Job<D>>, before: u32) -> u32 {
    match job {
        Some(job) => job.client,
        None => before,
    }
}

/// Takes turns until every item has its reply and no job is out, or until 1,048,576 turns in a row found nothing to do.
/// The pass must be this turn's and outside, with no job; it is so again, and has the share that it had.
///
/// The core that the pass left last is then at rest, or one in which nothing can be done but that jobs come home, and it
/// comes after the one with which the turn was opened.
/// Nobody else needs to be there: what is left over the drain completes. It waits for the turn, and takes no memory. It
/// tells every now and then how many items have a reply, of so many in all.
pub fn work<L: Layout + Drop, D: Disk + Drop, W: Wait, P: Progress>(
    rt: &W,
    turn: &Turn<CrewRule<L, D>>,
    pass: &mut Pass<CrewRule<L, D>>,
    progress: &P,
    all: u64,
)
    requires { IsReady turn.now pass.old }
    ensures ready { IsReady turn.now pass.new }
    ensures share { share_of pass.new ≡ share_of pass.old }
    ensures idle { HasIdleMark L.Layout D.Disk (opening_of turn.now) pass.new }
{
    let mut pace = Pace::new();
    let mut held = None;
    let mut last: u32 = 0;
    let mut empty = 0;
    let mut turns: u32 = 0;
    for _ in rt.forever() {
        turns = turns.wrapping_add(1);
        if turns % LOOK == 0 {
            progress.tell(look(rt, turn, pass, &held), all);
            pace.looked();
            // Nobody's items wait for all of another's.
            last = last.wrapping_add(1);
        }
        let Some((found, job)) = turn_by(rt, turn, pass, held, last, &mut pace) else {
            held = None;
            pace.wait(rt, turn);
            continue;
        };
        last = client_of(&job, last);
        held = job;
        match found {
            Found::Event => {
                empty = 0;
                pace.worked();
            }
            Found::Rest => return,
            Found::Nothing => {
                empty += 1;
                if empty == EMPTY {
                    return;
                }
                pace.wait(rt, turn);
            }
        }
    }
    unreachable!()
}
