//! That the reader reads exactly the scripts of the form, and what an item of a client's own blocks
//! touches. These calls do nothing: what each ensures is the law.
ghost use Rattle.raid_script.specs.Drawn.{OwnItemsTouchTheirShare};
ghost use Rattle.raid_script.specs.Laws.{ScriptIsOfTheForm, ScriptIsRead};

/// What is read as a script is of its form, line by line and word by word.
pub fn script_is_of_the_form()
    ensures { ScriptIsOfTheForm }
{}

/// A text of the form of a script is read as its items.
pub fn script_is_read()
    ensures { ScriptIsRead }
{}

/// An item that asks for blocks of its client's share alone is a write or a read that touches no
/// other block.
pub fn own_items_touch_their_share()
    ensures { OwnItemsTouchTheirShare }
{}
