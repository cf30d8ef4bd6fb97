//! What passes do at a turn.
ghost use Rattle.std.specs.Prelude.{◌≡◌, ◌<◌, ◌≤◌, ◌+◌, [], ◌∷◌, Some, IfOk, IfErr, IfSome, IfNone, OnSome};
ghost use Rattle.std.specs.Option.{ForSome};
ghost use Rattle.eng_turn.specs.Turn.{opening_of, IsOf, ticket_of, mark_of, share_of, IsOutside, IsInside, FitsAmong, KeepsFit};

use super::{Memory, Pass, SHARES, Turn};
use crate::rule::TurnRule;
use crate::table_rule::{CountDown, CountUp, Give, Shares, Take};
use crate::view::Resting;
use atomic_table::Table;
use std::alloc::{AllocFailed, Global};
use std::hint::spin_loop;
use std::snapshot::Snapshot;
use std::sync::Wait;
use std::sync::atomic::{AtomicU64, Ordering};

// A pass that finds the value away pauses so many times before it is counted, and parks.
const PAUSES: u32 = 11;

// The word is below this where there is one pass, which may have the value.
const SEVERAL: u64 = 4;

// Pauses the processor, twice as long for each look that there was.
fn pause(looks: u32)
    requires { looks < 11 }
{
    for _ in 0..1u32 << looks {
        spin_loop();
    }
}

impl<R: TurnRule> Turn<R> {
    /// A turn that holds this value, and a pass with every share, the empty ticket and the value as its mark.
    /// The value must fit with itself as the opening and one empty ticket.
    ///
    /// `Memory` where there was none: then the value comes back. No other call takes memory.
    pub fn open(alloc: Global, value: R::Value) -> Result<(Turn<R>, Pass<R>), (R::Value, Memory)>
        requires { R.fits value value (R.empty ∷ []) }
        ensures opening { IfOk result (λ t. opening_of t.0 ≡ value) }
        ensures mine { IfOk result (λ t. IsOf t.1 t.0 × IsOutside t.1) }
        ensures ticket { IfOk result (λ t. ticket_of t.1 ≡ R.empty) }
        ensures mark { IfOk result (λ t. mark_of t.1 ≡ Some value) }
        ensures share { IfOk result (λ t. share_of t.1 ≡ SHARES) }
        ensures err { IfErr result (λ e. e.0 ≡ value) }
    {
        let about = Snapshot::of(&value);
        let mut slots = Vec::new(alloc);
        if let Err(failed) = slots.push(Some(Resting {
            value,
            ticket: None,
        })) {
            let AllocFailed { value: refused } = failed;
            slots.destroy_empty();
            let Some(resting) = refused else {
                unreachable!()
            };
            return Err((resting.value, Memory));
        }
        match Table::new(alloc, &[2], slots, &about) {
            Ok((table, seat)) => {
                let turn = Turn {
                    table,
                    parked: AtomicU64::new(0),
                    turns: AtomicU64::new(0),
                };
                Ok((turn, Pass { seat }))
            }
            Err(mut refused) => {
                let Some(Some(resting)) = refused.slots.pop() else {
                    unreachable!()
                };
                Err((resting.value, Memory))
            }
        }
    }

    /// Waits until no pass has the value, and takes it. The pass must be this turn's and outside.
    ///
    /// The value fits among the tickets of all passes, this pass's included, and comes after this pass's mark. No
    /// other pass gets it before this one leaves.
    pub fn enter<W: Wait>(&self, rt: &W, pass: &mut Pass<R>) -> R::Value
        requires mine { IsOf pass.old self.now }
        requires outside { IsOutside pass.old }
        ensures mine { IsOf pass.new self.now }
        ensures inside { IsInside pass.new result }
        ensures ticket { ticket_of pass.new ≡ ticket_of pass.old }
        ensures mark { mark_of pass.new ≡ mark_of pass.old }
        ensures share { share_of pass.new ≡ share_of pass.old }
        ensures fits { FitsAmong R.fits (opening_of self.now) result (ticket_of pass.old) }
        ensures after { ForSome (mark_of pass.old) (λ mark. R.after mark result) }
    {
        let mut looks = 0;
        for _ in rt.forever() {
            let found = self.table.shared.fetch_or::<Take<R>>(&mut pass.seat, 0, 1);
            if found % 2 == 0 {
                self.got_in(looks);
                let taken = self.table.shared.exchange(&mut pass.seat, 0, None);
                let Some(resting) = taken else { unreachable!() };
                return resting.value;
            }
            self.wait(rt, found as u32, looks);
            looks = looks.saturating_add(1);
        }
        unreachable!()
    }

    // A pass found the value away, for the first time or after so many looks. At first it pauses, longer each time, since a
    // turn is short; then it is counted, and is to look once more; from then on it parks while the word is as it was found.
    fn wait<W: Wait>(&self, rt: &W, found: u32, looks: u32) {
        if looks < PAUSES {
            pause(looks);
        } else if looks == PAUSES {
            self.parked.fetch_add(1, Ordering::SeqCst);
        } else {
            self.table.shared.park(rt, 0, found);
        }
    }

    // A pass got in after so many looks, and is no longer counted, if it was.
    fn got_in(&self, looks: u32) {
        if looks > PAUSES {
            self.parked.fetch_sub(1, Ordering::SeqCst);
        }
    }

    // Wakes one pass, if one is parked or about to be. The word was made even before.
    //
    // No pass sleeps on for want of this wake. All steps have one order. Where the count is read as 0 here, a pass that parks
    // later was counted later still than the word was made even, and looked at the word after that: it found it even and got
    // in, or found it odd by another pass inside, which reads the count when it leaves. That pass made the word even after
    // that look, or the look would have found what came of it; so it finds the sleeper counted, and wakes one. Who is woken,
    // and doesn't get in, parks anew, still counted; who gets in wakes the next when it leaves.
    fn wake(&self) {
        if self.parked.load(Ordering::SeqCst) != 0 {
            self.table.shared.wake_one(0);
        }
    }

    /// Gives a value back, with which the pass gets a new ticket. The pass must be this turn's and inside.
    ///
    /// What the caller owes: one step of the rule leads from the value that was entered and the pass's ticket to this
    /// value and this ticket; and whatever the other tickets are among which the value that was entered fits, this
    /// value fits among them. The value is the pass's mark from now on.
    pub fn leave(&self, pass: &mut Pass<R>, value: R::Value, ticket: &R::Ticket)
        requires mine { IsOf pass.old self.now }
        requires step { (entered : R.Value) × IsInside pass.old entered
            × R.step entered (ticket_of pass.old) value ticket.now
            × KeepsFit R.fits (opening_of self.now) entered (ticket_of pass.old) value ticket.now }
        ensures mine { IsOf pass.new self.now }
        ensures outside { IsOutside pass.new }
        ensures ticket { ticket_of pass.new ≡ ticket.now }
        ensures mark { mark_of pass.new ≡ Some value }
        ensures share { share_of pass.new ≡ share_of pass.old }
    {
        let copy = Snapshot::of(ticket);
        let resting = Resting {
            value,
            ticket: Some(copy),
        };
        let _none = self.table.shared.exchange(&mut pass.seat, 0, Some(resting));
        self.turns.fetch_add(1, Ordering::SeqCst);
        self.table.shared.fetch_sub::<Give>(&mut pass.seat, 0, 1);
        self.wake();
    }

    /// How many turns there were, as far as is known, modulo 2^64. It is for choosing when to enter: nothing rests on it.
    pub fn turns(&self) -> u64 {
        self.turns.load(Ordering::SeqCst)
    }

    /// Counts so many turns more, for as much that is done in one turn. As `turns`, which tells them too.
    pub fn count(&self, turns: u64) {
        self.turns.fetch_add(turns, Ordering::SeqCst);
    }

    /// Whether a pass had the value a moment ago. As `turns`.
    pub fn is_taken(&self) -> bool {
        self.table.shared.peek(0) % 2 == 1
    }

    /// Whether there was one pass alone a moment ago. As `turns`.
    pub fn is_single(&self) -> bool {
        self.table.shared.peek(0) < SEVERAL
    }

    /// A new pass, outside, with the empty ticket and this pass's mark, to which this pass gives up one share. This
    /// pass must be this turn's and outside, and have at least two shares.
    pub fn split(&self, pass: &mut Pass<R>) -> Pass<R>
        requires mine { IsOf pass.old self.now }
        requires outside { IsOutside pass.old }
        requires shares { 2 ≤ share_of pass.old }
        ensures mine { IsOf pass.new self.now × IsOutside pass.new }
        ensures ticket { ticket_of pass.new ≡ ticket_of pass.old }
        ensures mark { mark_of pass.new ≡ mark_of pass.old }
        ensures share { share_of pass.new + 1 ≡ share_of pass.old }
        ensures new { IsOf result self.now × IsOutside result }
        ensures new_ticket { ticket_of result ≡ R.empty }
        ensures new_mark { mark_of result ≡ mark_of pass.old }
        ensures new_share { share_of result ≡ 1 }
    {
        self.table.shared.fetch_add::<CountUp>(&mut pass.seat, 0, 2);
        let seat = self.table.shared.split_seat::<Shares<R>>(&mut pass.seat);
        Pass { seat }
    }

    /// Takes another pass in, whose shares go to this one. Both must be this turn's and outside, and the other must
    /// have the empty ticket.
    pub fn join(&self, pass: &mut Pass<R>, other: Pass<R>)
        requires mine { IsOf pass.old self.now }
        requires outside { IsOutside pass.old }
        requires other { IsOf other self.now }
        requires other_outside { IsOutside other }
        requires other_empty { ticket_of other ≡ R.empty }
        ensures mine { IsOf pass.new self.now × IsOutside pass.new }
        ensures ticket { ticket_of pass.new ≡ ticket_of pass.old }
        ensures mark { mark_of pass.new ≡ mark_of pass.old }
        ensures share { share_of pass.new ≡ share_of pass.old + share_of other }
    {
        let Pass { seat } = other;
        self.table
            .shared
            .join_seat::<Shares<R>>(&mut pass.seat, seat);
        self.table
            .shared
            .fetch_sub::<CountDown>(&mut pass.seat, 0, 2);
    }

    /// The value, exactly where this pass has every share: it fits with this pass's ticket alone, and comes after this
    /// pass's mark. The pass must be this turn's and outside.
    ///
    /// `None` where another pass is left, whether or not it has the value, and also where it was dropped. Then the
    /// turn, the pass and the value are given up.
    pub fn close(self, pass: Pass<R>) -> Option<R::Value>
        requires mine { IsOf pass self }
        requires outside { IsOutside pass }
        ensures some { OnSome result (share_of pass ≡ SHARES) }
        ensures none { IfNone result (share_of pass < SHARES) }
        ensures fits { IfSome result
            (λ value. R.fits (opening_of self) value (ticket_of pass ∷ [])) }
        ensures after { IfSome result
            (λ value. ForSome (mark_of pass) (λ mark. R.after mark value)) }
    {
        let Pass { seat } = pass;
        let mut closed = self.table.close_with(seat);
        let word = closed.word(0);
        let slot = closed.take(0);
        closed.free();
        if word == 2 {
            let Some(resting) = slot else { unreachable!() };
            return Some(resting.value);
        }
        None
    }
}
