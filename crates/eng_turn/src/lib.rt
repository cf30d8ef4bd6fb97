//! A lock through which threads take turns at one value. Each finds a value that fits, by a rule, with its own ticket
//! among those of the others.
//!
//! A `Turn` holds the value. A `Pass` is the right to take it: a token of no bytes, which a thread owns. It carries a
//! ticket, which says what its thread has taken away and not yet brought back, and a mark, the value as the pass left
//! it last. A `TurnRule` says how value and tickets fit, and which change one turn may make.
//!
//! So a thread may take something out of the value in one turn, work on it while other threads have theirs, and bring
//! it back in another turn: in between, the rule knows of it by the pass's ticket.
#![tactic(auto)]

mod laws;
mod rule;
mod table_rule;
mod turn;
mod view;

pub use laws::the_word_tells_where_the_value_is;
pub use rule::TurnRule;
pub use turn::{Memory, Pass, SHARES, Turn};
