//! What a turn's word says of its value, between any two steps of any passes.
ghost use Rattle.std.specs.Prelude.{◌≡◌, ◌%◌, slice_index};
ghost use Rattle.atomic_table.specs.Table.{State};
ghost use Rattle.eng_turn.specs.declared.view.PassView.{PassView};
ghost use Rattle.eng_turn.specs.View.{Content};
ghost use Rattle.eng_turn.specs.Rule.{Kept, IsFree, IsHeld};

use crate::rule::TurnRule;

/// While the word is even no pass has the value: it lies in the slot, fits among the tickets of all
/// passes, and comes after the mark of each. While the word is odd one pass has it and no other does,
/// and the value fitted as that pass entered, among the tickets that all passes have still.
pub fn the_word_tells_where_the_value_is<R: TurnRule>()
    ensures even { (opening : R.Value)
        (s : State (Content R.Value R.Ticket) (PassView R.Value R.Ticket))
        → Kept R.empty R.fits R.after opening s → slice_index s.words 0 % 2 ≡ 0
        → IsFree R.empty R.fits R.after opening s }
    ensures odd { (opening : R.Value)
        (s : State (Content R.Value R.Ticket) (PassView R.Value R.Ticket))
        → Kept R.empty R.fits R.after opening s → slice_index s.words 0 % 2 ≡ 1
        → IsHeld R.empty R.fits R.after opening s }
{}
