//! Sentences on labels.
ghost use Rattle.std.specs.Prelude.{◌≡◌, [], ◌∷◌, IfOk, codes, decimal};
ghost use Rattle.top_hints.specs.Hint.{compared_hint, label_hint, label_words};
ghost use Rattle.top_hints.specs.Line.{hint_line};

use crate::piece::{Piece, line};
use std::alloc::{AllocError, Global};

// A column whose disk has no label.
#[tactic(auto, unfolding(crate::specs::Line::hint_line))]
fn no_label(alloc: Global, column: u32) -> Result<Vec<u8>, AllocError>
    ensures { IfOk result (λ line. line.items ≡ hint_line (codes "column " ∷ decimal column
        ∷ codes " has no label: -I SERIAL writes the first ones of an array, -R COMP that of a new disk; where a rebuild was stopped as it wrote labels, -f COMP --adopt goes on without it" ∷ [])) }
{
    line(
        alloc,
        &[
            Piece::Words("column "),
            Piece::Number(u64::from(column)),
            Piece::Words(
                " has no label: -I SERIAL writes the first ones of an array, -R COMP that of a new disk; where a rebuild was stopped as it wrote labels, -f COMP --adopt goes on without it",
            ),
        ],
    )
}

// The disk of one column at another.
#[tactic(auto, unfolding(crate::specs::Line::hint_line))]
fn misplaced(alloc: Global, column: u32, found: u32) -> Result<Vec<u8>, AllocError>
    ensures { IfOk result (λ line. line.items ≡ hint_line (codes "the disk at column "
        ∷ decimal column ∷ codes " is that of column " ∷ decimal found ∷ [])) }
{
    line(
        alloc,
        &[
            Piece::Words("the disk at column "),
            Piece::Number(u64::from(column)),
            Piece::Words(" is that of column "),
            Piece::Number(u64::from(found)),
        ],
    )
}

// Labels that were written too often.
#[tactic(auto, unfolding(crate::specs::Line::hint_line))]
fn worn(alloc: Global, found: u32, wanted: u32) -> Result<Vec<u8>, AllocError>
    ensures { IfOk result (λ line. line.items ≡ hint_line (codes "the newest label has counter "
        ∷ decimal found ∷ codes ", and labels are written up to " ∷ decimal wanted ∷ [])) }
{
    line(
        alloc,
        &[
            Piece::Words("the newest label has counter "),
            Piece::Number(u64::from(found)),
            Piece::Words(", and labels are written up to "),
            Piece::Number(u64::from(wanted)),
        ],
    )
}

// What a label has that is compared.
#[tactic(auto, unfolding(crate::specs::Hint::label_words))]
fn label_words(code: u8) -> &'static str
    ensures { result.now ≡ label_words code }
{
    match code {
        2 => " has serial number ",
        4 => " is of an array of another shape: it has ",
        _ => " has version ",
    }
}

// A number of a label that isn't the one wanted.
#[tactic(auto, unfolding(crate::specs::Line::hint_line, crate::specs::Hint::compared_hint))]
fn compared(
    alloc: Global,
    column: u32,
    words: &'static str,
    found: u32,
    wanted: u32,
) -> Result<Vec<u8>, AllocError>
    ensures { IfOk result (λ line. line.items ≡ compared_hint column words.entry.now found wanted) }
{
    line(
        alloc,
        &[
            Piece::Words("the label of column "),
            Piece::Number(u64::from(column)),
            Piece::Words(words),
            Piece::Number(u64::from(found)),
            Piece::Words(" where "),
            Piece::Number(u64::from(wanted)),
            Piece::Words(" is wanted"),
        ],
    )
}

/// The label of a column is refused for this code, with what it says and what is wanted.
#[tactic(auto, unfolding(crate::specs::Hint::label_hint))]
pub(crate) fn label(
    alloc: Global,
    column: u32,
    code: u8,
    found: u32,
    wanted: u32,
) -> Result<Vec<u8>, AllocError>
    ensures { IfOk result (λ line. line.items ≡ label_hint column code found wanted) }
{
    match code {
        1 => no_label(alloc, column),
        3 => misplaced(alloc, column, found),
        6 => worn(alloc, found, wanted),
        _ => compared(alloc, column, label_words(code), found, wanted),
    }
}
