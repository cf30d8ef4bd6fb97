//! The rule of the table behind a turn, and what each step on its word tells.
use crate::rule::TurnRule;
use crate::view::{PassView, Resting};
use atomic_table::{Join, Play, Split, TableRule};
use std::marker::PhantomData;
use std::snapshot::Snapshot;

/// A `TurnRule` as the rule of a table of one word and one slot, which is told the opening as it is made.
pub struct TurnTable<R> {
    rule: PhantomData<R>,
}

impl<R: TurnRule> TableRule<
    Option<Resting<R::Value, R::Ticket>>,
    PassView<R::Value, R::Ticket>,
    Snapshot<R::Value>,
> for TurnTable<R> {
    ghost use Rattle.eng_turn.specs.Rule.{Kept};
    ghost use Rattle.eng_turn.specs.View.{opener};

    ghost holds = { λ k. Kept R.empty R.fits R.after k.value };

    ghost first = { λ k. opener R.empty k.value };
}

// Sets the lowest bit, and takes the slot out where it wasn't set.
pub(crate) struct Take<R> {
    rule: PhantomData<R>,
}

impl<R: TurnRule> Play<Option<Resting<R::Value, R::Ticket>>, PassView<R::Value, R::Ticket>>
    for Take<R> {
    ghost use Rattle.eng_turn.specs.Steps.{Took};

    ghost then = { Took R.fits R.after };
}

// Takes the lowest bit away, and gives the slot back.
pub(crate) struct Give;

impl<V, T> Play<Option<Resting<V, T>>, PassView<V, T>> for Give {
    ghost use Rattle.eng_turn.specs.Steps.{Gave};

    ghost then = { Gave };
}

// Counts the pass that a split is about to make.
pub(crate) struct CountUp;

impl<V, T> Play<Option<Resting<V, T>>, PassView<V, T>> for CountUp {
    ghost use Rattle.eng_turn.specs.Steps.{CountedUp};

    ghost then = { CountedUp };
}

// Counts the pass no more that a join has taken in.
pub(crate) struct CountDown;

impl<V, T> Play<Option<Resting<V, T>>, PassView<V, T>> for CountDown {
    ghost use Rattle.eng_turn.specs.Steps.{CountedDown};

    ghost then = { CountedDown };
}

// A pass makes another, or takes another in.
pub(crate) struct Shares<R> {
    rule: PhantomData<R>,
}

impl<R: TurnRule> Split<PassView<R::Value, R::Ticket>> for Shares<R> {
    ghost use Rattle.eng_turn.specs.declared.view.Change.TheVariants.{Settled};
    ghost use Rattle.eng_turn.specs.View.{with_share, split_off};

    ghost left = { λ v. with_share v v.share Settled };

    ghost right = { split_off R.empty };
}

impl<R: TurnRule> Join<PassView<R::Value, R::Ticket>> for Shares<R> {
    ghost use Rattle.std.specs.Prelude.{◌+◌};
    ghost use Rattle.eng_turn.specs.declared.view.Change.TheVariants.{Joining};
    ghost use Rattle.eng_turn.specs.View.{with_share, spent_view};

    ghost both = { λ v w. with_share v (v.share + w.share) Joining };

    ghost spent = { spent_view R.empty };
}
