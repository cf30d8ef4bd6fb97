//! The sources and the antecedents on a node's line.
ghost use Rattle.std.specs.Prelude.{◌≤◌, length};
ghost use Rattle.raid_text.specs.Seen.{words_left};
ghost use Rattle.graph_text.specs.Answers.{Gives};
ghost use Rattle.text_steps.specs.Steps.{numbers_of};
ghost use Rattle.graph_text.specs.FormatLines.{after_of, antes_of, sources_of};
ghost use Rattle.graph_text.specs.Kept.{behind, with_kept, with_kept_sources};

use crate::codes::WORD;
use crate::kept::Kept;
use crate::steps::{next_number, number_in};
use raid_text::Words;

/// Keeps the numbers up to the line's end.
#[tactic(auto, unfolding(text_steps::specs::Steps::numbers_of))]
fn numbers_in(words: &mut Words, kept: &mut Kept) -> Result<(), u8>
    requires { length kept.old ≤ 16385 }
    ensures { Gives (λ _. kept.new) result
        (with_kept kept.old (numbers_of (words_left words.old))) }
{
    while let Some(word) = words.next() {
        let n = number_in(word)?;
        kept.keep(n);
    }
    Ok(())
}

/// Passes `after`, if a word is left, and answers whether it did.
#[tactic(auto, unfolding(crate::specs::FormatLines::after_of))]
pub fn pass_after(words: &mut Words) -> Result<bool, u8>
    ensures { Gives (λ more. behind more (words_left words.new)) result
        (after_of (words_left words.old)) }
{
    match words.next() {
        Some(word) if word == b"after".as_slice() => Ok(true),
        Some(_) => Err(WORD),
        None => Ok(false),
    }
}

/// Keeps the antecedents behind `after`, if it was passed.
#[tactic(auto, unfolding(crate::specs::FormatLines::antes_of))]
pub fn antes_in(more: bool, words: &mut Words, kept: &mut Kept) -> Result<(), u8>
    requires { length kept.old ≤ 16385 }
    ensures { Gives (λ _. kept.new) result
        (with_kept kept.old (antes_of (behind more (words_left words.old)))) }
{
    if !more {
        return Ok(());
    }
    let first = next_number(words)?;
    kept.keep(first);
    numbers_in(words, kept)
}

/// Keeps the sources up to `after` or to the line's end, and answers whether it passed `after`.
#[tactic(auto, unfolding(crate::specs::FormatLines::sources_of))]
pub fn sources_in(words: &mut Words, kept: &mut Kept) -> Result<bool, u8>
    requires { length kept.old ≤ 16385 }
    ensures { Gives (λ more. (kept.new, behind more (words_left words.new))) result
        (with_kept_sources kept.old (sources_of (words_left words.old))) }
{
    while let Some(word) = words.next() {
        if word == b"after".as_slice() {
            return Ok(true);
        }
        let n = number_in(word)?;
        kept.keep(n);
    }
    Ok(false)
}
