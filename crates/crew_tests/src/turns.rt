//! What no clause says: that a turn opens, that passes of several threads get through, and that they come to an end.
use crate::judging::{same, same_at};
use eng_turn::Turn;
use std::test::Fail;

mod tally;

use tally::{Tally, count};

// Four passes, three of them in threads of their own, take 4,000 units one by one and count each.
#[test]
fn four_passes_count_every_unit(rt: HostRuntime) -> Result<(), Fail> {
    let sum = count(&rt, rt.alloc(), 4000, 4).ok_or("no memory")?;
    same(&rt, sum, 4000);
    Ok(())
}

// Each of two passes holds the value for a while, and has then nothing to do: the one that comes second waits, and goes on only
// where the first wakes it.
#[test]
fn a_pass_that_waits_is_woken(rt: HostRuntime) -> Result<(), Fail> {
    let sum = count(&rt, rt.alloc(), 0, 2).ok_or("no memory")?;
    same(&rt, sum, 0);
    Ok(())
}

// A turn closes with its value once the second pass is joined, and with nothing where it isn't.
#[test]
fn closes_with_every_share_alone(rt: HostRuntime) -> Result<(), Fail> {
    for joined in [true, false] {
        let Ok((turn, mut pass)) = Turn::<Tally>::open(rt.alloc(), (3, 4)) else {
            return Err("no memory".into());
        };
        let other = turn.split(&mut pass);
        if joined {
            turn.join(&mut pass, other);
        }
        let wanted = if joined { Some((3, 4)) } else { None };
        same_at(&rt, joined, turn.close(pass) == wanted, true);
    }
    Ok(())
}
