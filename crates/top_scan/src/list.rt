//! The reader of a list of components.
ghost use Rattle.std.specs.Prelude.{◌≡◌, ◌<◌, ◌≤◌, length, IfOk, IsTrue};
ghost use Rattle.raid_text.specs.Seen.{seen, words_left};
ghost use Rattle.raid_text.specs.Text.{is_word};
ghost use Rattle.text_steps.specs.Answers.{Gives};
ghost use Rattle.top_scan.specs.List.{AreApart, GivesList, name_of};
ghost use Rattle.top_scan.specs.Steps.{has_name, line_name, list_of};
ghost use Rattle.top_scan.specs.declared.list.ListFault.TheVariants.{Memory as NoMemory};

use raid_bay::{Memory, Name};
use raid_text::{Line, Lines, Words};
use std::alloc::{AllocFailed, Global};
use text_steps::{WORD, next_word, pass_end, text_of};

/// The most bytes of a name.
const NAME_BYTES: usize = 255;

/// The most names of a list.
const NAMES: usize = 1024;

/// The code of a name that stands already, or is too long.
const NAME: u8 = 7;

/// The code of one name more than there may be.
const LIMIT: u8 = 13;

/// Why a text wasn't read as a list of components.
#[derive(Clone, Copy, Debug, PartialEq, Eq)]
pub(crate) enum ListFault {
    /// The first line that can't be read, numbered from 1, and the code of its refusal.
    At { line: u32, code: u8 },
    /// There was no memory for the names.
    Memory,
}

impl From<Memory> for ListFault {
    ghost from_gives = { λ _ e. e ≡ NoMemory };

    fn from(_: Memory) -> ListFault {
        ListFault::Memory
    }
}

impl<T: Drop> From<AllocFailed<T>> for ListFault {
    ghost from_gives = { λ _ e. e ≡ NoMemory };

    fn from(_: AllocFailed<T>) -> ListFault {
        ListFault::Memory
    }
}

// Whether one of these is this name.
#[tactic(auto, unfolding(crate::specs::Steps::has_name))]
fn has_name(names: &[Name], word: &[u8]) -> bool
    ensures { result ≡ has_name names.now word.now }
{
    names.iter().any(|name| name.text().as_bytes() == word)
}

// The name that is alone on a line, behind these names.
#[tactic(auto, unfolding(crate::specs::List::name_of, crate::specs::Steps::has_name))]
fn name_in<'a>(names: &[Name], words: &mut Words<'a>) -> Result<&'a [u8], u8>
    ensures name { Gives (λ name. name.now) result (name_of names.now (words_left words.old)) }
    ensures word { IfOk result (λ name. IsTrue (is_word name.now)) }
{
    let word = next_word(words)?;
    if word.len() > NAME_BYTES || has_name(names, word) {
        return Err(NAME);
    }
    pass_end(words)?;
    if names.len() < NAMES {
        Ok(word)
    } else {
        Err(LIMIT)
    }
}

// The name of a line, behind these names.
#[tactic(auto, unfolding(crate::specs::Steps::line_name, text_steps::specs::Steps::words_in))]
fn line_name<'a>(names: &[Name], line: &Line<'a>) -> Result<&'a [u8], u8>
    ensures name { Gives (λ name. name.now) result (line_name names.now (seen line.now)) }
    ensures word { IfOk result (λ name. IsTrue (is_word name.now)) }
{
    if !line.sound() {
        return Err(WORD);
    }
    name_in(names, &mut line.words())
}

/// The names of a text, in the order of its lines, which is at most 16,777,216 bytes long. No two are the same.
pub(crate) fn read_list(alloc: Global, text: &[u8]) -> Result<Vec<Name>, ListFault>
    requires { length text.now ≤ 16777216 }
    ensures names { GivesList (λ v. v.items) result (list_of text.now) }
    ensures few { IfOk result (λ v. length v.items ≤ 1024) }
    ensures apart { IfOk result (λ v. AreApart v.items) }
{
    let mut names = Vec::new(alloc);
    let mut lines = Lines::new(text);
    while let Some(line) = lines.next() {
        match line_name(&names, &line) {
            Ok(word) => names.push(Name::new(alloc, text_of(word))?)?,
            Err(code) => {
                return Err(ListFault::At {
                    line: line.at(),
                    code,
                });
            }
        }
    }
    Ok(names)
}
