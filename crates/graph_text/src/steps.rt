//! What a line has next, read word by word.
//!
//! Each step answers the code by which the line is refused where it has something else there.
ghost use Rattle.std.specs.Prelude.{◌≡◌};
ghost use Rattle.raid_text.specs.Seen.{words_left};
ghost use Rattle.graph_text.specs.Answers.{Gives};
ghost use Rattle.graph_text.specs.FormatSteps.{next_pair};
ghost use Rattle.text_steps.specs.Steps.{next_word, next_number, at_end, number_in, after_word, after_number};

use crate::codes::{INDEX, NUMBER, WORD};
use raid_text::{Words, number};

/// The next word.
#[tactic(auto, unfolding(text_steps::specs::Steps::next_word))]
pub fn next_word<'a>(words: &mut Words<'a>) -> Result<&'a [u8], u8>
    ensures { Gives (λ word. (word.now, words_left words.new)) result
        (next_word (words_left words.old)) }
{
    match words.next() {
        Some(word) => Ok(word),
        None => Err(WORD),
    }
}

/// Passes this word.
#[tactic(auto, unfolding(text_steps::specs::Steps::after_word))]
pub fn pass_word(words: &mut Words, wanted: &[u8]) -> Result<(), u8>
    ensures { Gives (λ _. words_left words.new) result
        (after_word wanted.now 1 (words_left words.old)) }
{
    match words.next() {
        Some(word) if word == wanted => Ok(()),
        _ => Err(WORD),
    }
}

/// The number that a word is.
#[tactic(auto, unfolding(text_steps::specs::Steps::number_in))]
pub fn number_in(word: &[u8]) -> Result<u32, u8>
    ensures { result ≡ number_in word.now }
{
    match number(word) {
        Some(n) => Ok(n),
        None => Err(NUMBER),
    }
}

/// The next word, which is a number.
#[tactic(auto, unfolding(text_steps::specs::Steps::next_number))]
pub fn next_number(words: &mut Words) -> Result<u32, u8>
    ensures { Gives (λ n. (n, words_left words.new)) result (next_number (words_left words.old)) }
{
    match words.next() {
        Some(word) => number_in(word),
        None => Err(WORD),
    }
}

/// Passes this number, by which the line counts itself.
#[tactic(auto, unfolding(text_steps::specs::Steps::after_number))]
pub fn pass_index(words: &mut Words, wanted: u32) -> Result<(), u8>
    ensures { Gives (λ _. words_left words.new) result (after_number wanted 3 (words_left words.old)) }
{
    let n = next_number(words)?;
    if n == wanted { Ok(()) } else { Err(INDEX) }
}

/// The next two words, which are numbers.
#[tactic(auto, unfolding(crate::specs::FormatSteps::next_pair))]
pub fn next_pair(words: &mut Words) -> Result<(u32, u32), u8>
    ensures { Gives (λ pair. (pair.0, pair.1, words_left words.new)) result
        (next_pair (words_left words.old)) }
{
    let first = next_number(words)?;
    let second = next_number(words)?;
    Ok((first, second))
}

/// Sees that no word is left.
#[tactic(auto, unfolding(text_steps::specs::Steps::at_end))]
pub fn pass_end(words: &mut Words) -> Result<(), u8>
    ensures { result ≡ at_end (words_left words.old) }
{
    match words.next() {
        Some(_) => Err(WORD),
        None => Ok(()),
    }
}
