//! What is printed is read again. These calls do nothing: what each ensures is the law.
ghost use Rattle.raid_text.specs.Printed.{LinesAreReadAgain, NumbersAreReadAgain, PatternsAreReadAgain};

/// Lines printed with one space between their words are read as those words.
pub fn lines_are_read_again()
    ensures { LinesAreReadAgain }
{}

/// A number printed in decimal is read as itself.
pub fn numbers_are_read_again()
    ensures { NumbersAreReadAgain }
{}

/// A pattern printed in hexadecimal is read as itself.
pub fn patterns_are_read_again()
    ensures { PatternsAreReadAgain }
{}
