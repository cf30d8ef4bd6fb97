//! Locks among a few owners.
use crate::judging::same;
use std::test::Fail;
use stripe_lock::{Locks, Mode};

#[test]
fn readers_share_and_a_writer_comes_after_both(rt: HostRuntime) -> Result<(), Fail> {
    let mut locks = Locks::open(rt.alloc(), 3)?;
    same(&rt, locks.take_all(0, &[3, 4], Mode::Share), true);
    same(&rt, locks.take_all(1, &[4], Mode::Share), true);
    same(&rt, locks.can_take(2, &[4], Mode::Exclude), false);
    assert!(rt; !locks.take_all(2, &[4], Mode::Exclude));
    locks.release(0);
    locks.release(1);
    same(&rt, locks.can_take(2, &[4], Mode::Exclude), true);
    same(&rt, locks.take_all(2, &[4], Mode::Exclude), true);
    Ok(())
}

#[test]
fn two_modes_on_one_stripe_agree_only_to_share(rt: HostRuntime) -> Result<(), Fail> {
    const ROWS: &[(Mode, Mode, u32, bool)] = &[
        (Mode::Share, Mode::Share, 4, true),
        (Mode::Share, Mode::Exclude, 4, false),
        (Mode::Exclude, Mode::Share, 4, false),
        (Mode::Exclude, Mode::Exclude, 4, false),
        (Mode::Exclude, Mode::Exclude, 5, true),
    ];
    for row in ROWS {
        let (held, wanted, stripe, want) = *row;
        let mut locks = Locks::open(rt.alloc(), 2)?;
        same(&rt, locks.take_all(0, &[3, 4], held), true);
        let taken = locks.take_all(1, &[stripe], wanted);
        same(&rt, (held, wanted, taken), (held, wanted, want));
    }
    Ok(())
}

#[test]
fn a_refusal_takes_none_of_the_stripes(rt: HostRuntime) -> Result<(), Fail> {
    let mut locks = Locks::open(rt.alloc(), 3)?;
    same(&rt, locks.take_all(0, &[4], Mode::Exclude), true);
    assert!(rt; !locks.take_all(1, &[7, 4], Mode::Exclude));
    same(&rt, locks.take_all(2, &[7], Mode::Exclude), true);
    locks.release(0);
    same(&rt, locks.take_all(1, &[4], Mode::Exclude), true);
    Ok(())
}
