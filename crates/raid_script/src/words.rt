//! What a line has next, read word by word.
//!
//! Each step answers the code by which the line is refused where it has something else there.
ghost use Rattle.std.specs.Prelude.{◌≡◌, ◌<◌, ◌≤◌, ◌∷◌, IfOk};
ghost use Rattle.raid_text.specs.Pattern.{pattern_bytes};
ghost use Rattle.raid_text.specs.Seen.{words_left};
ghost use Rattle.graph_text.specs.Answers.{Gives};
ghost use Rattle.text_steps.specs.Steps.{at_end, next_number, next_word, number_in};
ghost use Rattle.raid_script.specs.Format.{next_client, next_column, next_graph, next_pattern, next_span};

use crate::codes::{CLIENT, COLUMN, GRAPH, NUMBER, PATTERN, WORD};
use blk_plain::{Pattern, Span, limits};
use graph_text::Book;
use raid_text::{Words, number, pattern};

/// The next word.
#[tactic(auto, unfolding(text_steps::specs::Steps::next_word))]
pub fn next_word<'a>(words: &mut Words<'a>) -> Result<&'a [u8], u8>
    ensures { Gives (λ word. (word.now, words_left words.new)) result
        (next_word (words_left words.old)) }
{
    match words.next() {
        Some(word) => Ok(word),
        None => Err(WORD),
    }
}

// The number that a word is.
#[tactic(auto, unfolding(text_steps::specs::Steps::number_in))]
fn number_in(word: &[u8]) -> Result<u32, u8>
    ensures { result ≡ number_in word.now }
{
    match number(word) {
        Some(n) => Ok(n),
        None => Err(NUMBER),
    }
}

/// The next word, which is a number.
#[tactic(auto, unfolding(text_steps::specs::Steps::next_number))]
pub fn next_number(words: &mut Words) -> Result<u32, u8>
    ensures { Gives (λ n. (n, words_left words.new)) result (next_number (words_left words.old)) }
{
    match words.next() {
        Some(word) => number_in(word),
        None => Err(WORD),
    }
}

/// Sees that no word is left.
#[tactic(auto, unfolding(text_steps::specs::Steps::at_end))]
pub fn pass_end(words: &mut Words) -> Result<(), u8>
    ensures { result ≡ at_end (words_left words.old) }
{
    match words.next() {
        Some(_) => Err(WORD),
        None => Ok(()),
    }
}

/// C, a client.
#[tactic(auto, unfolding(crate::specs::Format::next_client))]
pub fn next_client(words: &mut Words) -> Result<u32, u8>
    ensures value { Gives (λ n. (n, words_left words.new)) result
        (next_client (words_left words.old)) }
    ensures small { IfOk result (λ n. n < 16) }
{
    let client = next_number(words)?;
    if client < limits::CLIENTS {
        Ok(client)
    } else {
        Err(CLIENT)
    }
}

/// FIRST, which is this word, and COUNT, which isn't 0.
#[tactic(auto, unfolding(crate::specs::Format::next_span, text_steps::specs::Steps::next_number))]
pub fn span_from(word: &[u8], words: &mut Words) -> Result<Span, u8>
    ensures value { Gives (λ span. (span.first, span.count, words_left words.new)) result
        (next_span (word.now ∷ words_left words.old)) }
    ensures some { IfOk result (λ span. 1 ≤ span.count) }
{
    let first = number_in(word)?;
    let count = next_number(words)?;
    if count == 0 {
        return Err(NUMBER);
    }
    Ok(Span {
        first: u64::from(first),
        count,
    })
}

/// FIRST and COUNT, which isn't 0.
#[tactic(auto, unfolding(crate::specs::Format::next_span, text_steps::specs::Steps::next_number))]
pub fn next_span(words: &mut Words) -> Result<Span, u8>
    ensures { Gives (λ span. (span.first, span.count, words_left words.new)) result
        (next_span (words_left words.old)) }
{
    match words.next() {
        Some(word) => span_from(word, words),
        None => Err(WORD),
    }
}

/// PATTERN.
#[tactic(auto, unfolding(crate::specs::Format::next_pattern))]
pub fn next_pattern(words: &mut Words) -> Result<Pattern, u8>
    ensures { Gives (λ pattern. (pattern_bytes pattern, words_left words.new)) result
        (next_pattern (words_left words.old)) }
{
    let word = next_word(words)?;
    match pattern(word) {
        Some(pattern) => Ok(pattern),
        None => Err(PATTERN),
    }
}

/// COLUMN, one of so many.
#[tactic(auto, unfolding(crate::specs::Format::next_column))]
pub fn next_column(columns: u32, words: &mut Words) -> Result<u32, u8>
    ensures { Gives (λ n. (n, words_left words.new)) result
        (next_column columns (words_left words.old)) }
{
    let column = next_number(words)?;
    if column < columns {
        Ok(column)
    } else {
        Err(COLUMN)
    }
}

/// NAME, as the number of the graph that has it.
#[tactic(auto, unfolding(crate::specs::Format::next_graph, crate::specs::Steps::graph_of))]
pub fn next_graph(book: &Book, words: &mut Words) -> Result<u32, u8>
    ensures { Gives (λ n. (n, words_left words.new)) result
        (next_graph book.now (words_left words.old)) }
{
    let name = next_word(words)?;
    match book.find(name) {
        Some(graph) => Ok(graph),
        None => Err(GRAPH),
    }
}
