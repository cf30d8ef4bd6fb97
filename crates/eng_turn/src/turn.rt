//! The turn and its passes.
ghost use Rattle.std.specs.Prelude.{◌≡◌, ◌<◌};

use crate::rule::TurnRule;
use crate::table_rule::TurnTable;
use crate::view::{PassView, Resting};
use atomic_table::{Seat, Table};
use std::alloc::Global;
use std::snapshot::Snapshot;
use std::sync::atomic::AtomicU64;

mod calls;

/// The shares of a turn: the pass of its opening has them all, and a split hands one on. So a turn never has more passes.
pub const SHARES: u64 = 65_536;

/// There was no memory.
#[derive(Clone, Copy, Debug, PartialEq, Eq)]
pub struct Memory;

/// A value that one pass at a time has.
///
/// It is one word and one slot. The word is twice the number of passes, plus 1 while a pass has the value; the slot
/// holds the value while none has. Beside them stands how many passes are parked, or about to be, which only saves wakes
/// of nobody, and how many turns there were, with what was counted as turns, which only helps to choose when to enter: so no
/// rule speaks of either.
#[derive(Drop)]
pub struct Turn<R: TurnRule> {
    table: Table<
        Option<Resting<R::Value, R::Ticket>>,
        PassView<R::Value, R::Ticket>,
        Snapshot<R::Value>,
        TurnTable<R>,
        Global,
    >,
    parked: AtomicU64,
    turns: AtomicU64,
    ghost shape: { (table.shared.table_id.words ≡ 1) × (table.shared.table_id.slots ≡ 1) },
}

/// The right to enter one turn. It has no bytes, and may go to another thread.
///
/// A pass that is dropped is not joined: its turn can then never be closed with `Some`, and can never be entered again
/// if the pass had the value.
#[derive(Drop)]
pub struct Pass<R: TurnRule> {
    seat: Seat<Option<Resting<R::Value, R::Ticket>>, PassView<R::Value, R::Ticket>>,
}
