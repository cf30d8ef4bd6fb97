//! That the reader reads exactly the configurations of the form; and what is so of every layout. These
//! calls do nothing: what each ensures is the law.
ghost use Rattle.lay_core.specs.Layout.{SparesLieByUnits};
ghost use Rattle.raid_conf.specs.declared.layouts.AnyLayout.{AnyLayout};
ghost use Rattle.raid_conf.specs.Laws.{ConfIsOfTheForm, ConfIsRead, ConfTextIsPrintedAgain, ConfTextIsRead};
ghost use Rattle.raid_conf.specs.Layouts.{shape_in};

/// What is read as a configuration is of its form, line by line and word by word.
pub fn conf_is_of_the_form()
    ensures { ConfIsOfTheForm }
{}

/// A text of the form of a configuration is read as it.
pub fn conf_is_read()
    ensures { ConfIsRead }
{}

/// The canonical text of a configuration is short enough to be read, and is read as it.
pub fn conf_text_is_read()
    ensures { ConfTextIsRead }
{}

/// A canonical text that is read and printed again is the same text.
pub fn conf_text_is_printed_again()
    ensures { ConfTextIsPrintedAgain }
{}

/// A column of a layout that has spare places on it has units too.
pub fn spare_places_lie_by_units()
    ensures { (layout : AnyLayout) → SparesLieByUnits (shape_in layout) }
{}
