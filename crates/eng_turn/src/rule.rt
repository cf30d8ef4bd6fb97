//! What the user of a turn states of its value.
ghost use Rattle.std.specs.Prelude.{List, [], ◌∷◌, ◌++◌};

/// How the value of a turn fits together with the tickets of all passes, and what one turn may do to it.
pub trait TurnRule {
    /// What threads take turns at.
    type Value: Drop;

    /// What a pass tells the rule of its thread. The turn keeps no ticket in memory.
    type Ticket;

    /// The ticket of a pass whose thread has taken nothing away.
    ghost empty: { Self.Ticket };

    /// The value with which the turn was opened, a later value and the tickets of all passes fit together.
    ghost fits: { Self.Value → Self.Value → List Self.Ticket → Type 0 };

    /// One turn may lead from a value and the pass's ticket to a value and the pass's next ticket.
    ghost step: { Self.Value → Self.Ticket → Self.Value → Self.Ticket → Type 0 };

    /// A value may come to be, by any number of turns, from another.
    ghost after: { Self.Value → Self.Value → Type 0 };

    /// A pass with the empty ticket may come.
    ghost empty_comes: { (o v : Self.Value) (xs : List Self.Ticket) → fits o v xs → fits o v (xs ++ empty ∷ []) };

    /// A pass with the empty ticket may go.
    ghost empty_goes: { (o v : Self.Value) (xs ys : List Self.Ticket) → fits o v (xs ++ empty ∷ ys) → fits o v (xs ++ ys) };

    /// Each value comes after itself.
    ghost after_itself: { (v : Self.Value) → after v v };

    /// What comes after a later value comes after the earlier one.
    ghost after_later: { (u v w : Self.Value) → after u v → after v w → after u w };

    /// What one turn leads to comes after what it began with.
    ghost after_step: { (v w : Self.Value) (s t : Self.Ticket) → step v s w t → after v w };
}
