//! The lines of designs.
ghost use Rattle.std.specs.Prelude.{◌≡◌, ◌∷◌, []};
ghost use Rattle.raid_text.specs.Seen.{words_left};
ghost use Rattle.raid_conf.specs.Answers.{GivesIfRoom};
ghost use Rattle.raid_conf.specs.Format.{next_tuple, tuples_in};
ghost use Rattle.raid_conf.specs.Sections.{complete_of, cyclic_of, first_of, listed_of, numbers_behind, tuple_behind, tuple_of, with_number};
ghost use Rattle.raid_conf.specs.Steps.{after_objects, no_design};
ghost use Rattle.text_steps.specs.Steps.{at_line, rest_of};
ghost use Rattle.text_steps.specs.Answers.{Gives};

use crate::codes::{COLUMNS, TUPLES};
use crate::counts::Counts;
use crate::fault::ConfFault;
use crate::given::Given;
use crate::numbers::Numbers;
use raid_text::{Lines, Words};
use std::alloc::Global;
use text_steps::{
    WORD, at_line, next_line, next_number, next_word, number_in, pass_end, pass_number, pass_word,
};

// Passes v, which is the number of columns.
#[tactic(auto, unfolding(crate::specs::Steps::after_objects))]
fn pass_objects(columns: u32, words: &mut Words) -> Result<(), u8>
    ensures { Gives (λ _. words_left words.new) result
        (after_objects columns (words_left words.old)) }
{
    pass_number(words, columns, COLUMNS)
}

/// The numbers behind `design`.
#[tactic(auto, unfolding(crate::specs::Sections::listed_of, crate::specs::Steps::after_objects))]
pub(crate) fn listed_line(columns: u32, words: &mut Words) -> Result<Counts, u8>
    ensures { Gives
        (λ counts. record { b = counts.b; k = counts.k; r = counts.r; lambda = counts.lambda })
        result (listed_of columns (words_left words.old)) }
{
    let b = next_number(words)?;
    pass_objects(columns, words)?;
    let k = next_number(words)?;
    let r = next_number(words)?;
    let lambda = next_number(words)?;
    pass_end(words)?;
    Ok(Counts { b, k, r, lambda })
}

#[tactic(auto, unfolding(crate::specs::Sections::with_number))]
fn push_number(line: u32, word: &[u8], numbers: &mut Numbers) -> Result<(), ConfFault>
    ensures { GivesIfRoom (λ _. numbers.new) result
        (at_line line (with_number numbers.old word.now)) }
{
    let n = at_line(line, number_in(word))?;
    numbers.push(n)
}

// Appends so many numbers, with which the line ends.
fn push_tuple(
    line: u32,
    count: u32,
    words: &mut Words,
    tuples: &mut Numbers,
) -> Result<(), ConfFault>
    ensures { GivesIfRoom (λ _. tuples.new) result
        (at_line line (tuple_behind count tuples.old (words_left words.old))) }
{
    for i in 0..count {
        let Some(word) = words.next() else {
            return Err(ConfFault::At { line, code: TUPLES });
        };
        match push_number(line, word, tuples) {
            Ok(()) => {}
            Err(fault) => return Err(fault),
        }
    }
    match words.next() {
        None => Ok(()),
        Some(_) => Err(ConfFault::At { line, code: TUPLES }),
    }
}

// The first word of a tuple's line, which begins no section.
#[tactic(auto, unfolding(crate::specs::Sections::first_of))]
fn first_in<'a>(words: &mut Words<'a>) -> Result<&'a [u8], u8>
    ensures { Gives (λ word. (word.now, words_left words.new)) result
        (first_of (words_left words.old)) }
{
    let word = next_word(words)?;
    if word == b"START".as_slice() {
        Err(TUPLES)
    } else {
        Ok(word)
    }
}

// Appends the tuple of k numbers on a line that begins with this word.
fn tuple_from(
    line: u32,
    k: u32,
    first: &[u8],
    words: &mut Words,
    tuples: &mut Numbers,
) -> Result<(), ConfFault>
    ensures { GivesIfRoom (λ _. tuples.new) result
        (at_line line (tuple_behind k tuples.old (first.now ∷ words_left words.old))) }
{
    if k == 0 {
        return Err(ConfFault::At { line, code: TUPLES });
    }
    match push_number(line, first, tuples) {
        Ok(()) => {}
        Err(fault) => return Err(fault),
    }
    push_tuple(line, k - 1, words, tuples)
}

#[tactic(auto, unfolding(crate::specs::Sections::tuple_of))]
fn tuple_line(line: u32, k: u32, words: &mut Words, tuples: &mut Numbers) -> Result<(), ConfFault>
    ensures { GivesIfRoom (λ _. tuples.new) result
        (at_line line (tuple_of k tuples.old (words_left words.old))) }
{
    let first = at_line(line, first_in(words))?;
    tuple_from(line, k, first, words, tuples)
}

#[tactic(auto, unfolding(crate::specs::Format::next_tuple))]
fn next_tuple(lines: &mut Lines, k: u32, tuples: &mut Numbers) -> Result<(), ConfFault>
    ensures { GivesIfRoom (λ _. (tuples.new, rest_of lines.new)) result
        (next_tuple k tuples.old (rest_of lines.old)) }
{
    let mut line = next_line(lines, TUPLES)?;
    tuple_line(line.at, k, &mut line.words, tuples)
}

/// b tuples of k numbers, one a line.
pub(crate) fn read_tuples(
    alloc: Global,
    lines: &mut Lines,
    b: u32,
    k: u32,
) -> Result<Numbers, ConfFault>
    ensures { GivesIfRoom (λ tuples. (tuples, rest_of lines.new)) result
        (tuples_in b k [] (rest_of lines.old)) }
{
    let mut tuples = Numbers::new(alloc);
    for i in 0..b {
        match next_tuple(lines, k, &mut tuples) {
            Ok(()) => {}
            Err(fault) => return Err(fault),
        }
    }
    Ok(tuples)
}

// The numbers up to the line's end.
fn read_numbers(alloc: Global, line: u32, words: &mut Words) -> Result<Numbers, ConfFault>
    ensures { GivesIfRoom (λ numbers. numbers) result
        (at_line line (numbers_behind [] (words_left words.old))) }
{
    let mut numbers = Numbers::new(alloc);
    while let Some(word) = words.next() {
        match push_number(line, word, &mut numbers) {
            Ok(()) => {}
            Err(fault) => return Err(fault),
        }
    }
    Ok(numbers)
}

/// The numbers behind `cyclic`.
#[tactic(auto, unfolding(crate::specs::Sections::cyclic_of, crate::specs::Steps::after_objects))]
pub(crate) fn cyclic_line(
    alloc: Global,
    columns: u32,
    line: u32,
    words: &mut Words,
) -> Result<Given, ConfFault>
    ensures { GivesIfRoom (λ given. given) result
        (at_line line (cyclic_of columns (words_left words.old))) }
{
    at_line(line, pass_objects(columns, words))?;
    at_line(line, pass_word(words, b":", WORD))?;
    let base = read_numbers(alloc, line, words)?;
    if base.as_slice().is_empty() {
        return Err(ConfFault::At { line, code: WORD });
    }
    Ok(Given::Cyclic { v: columns, base })
}

/// The numbers behind `complete`.
#[tactic(auto, unfolding(crate::specs::Sections::complete_of, crate::specs::Steps::after_objects))]
pub(crate) fn complete_line(columns: u32, words: &mut Words) -> Result<Given, u8>
    ensures { Gives (λ given. given) result (complete_of columns (words_left words.old)) }
{
    pass_objects(columns, words)?;
    let k = next_number(words)?;
    pass_end(words)?;
    Ok(Given::Complete { v: columns, k })
}

/// The code of a line in the design's place that begins with this word, which is no design word.
pub(crate) fn no_design(word: &[u8]) -> u8
    ensures { result ≡ no_design word.now }
{
    if word == b"START".as_slice() {
        TUPLES
    } else {
        WORD
    }
}
