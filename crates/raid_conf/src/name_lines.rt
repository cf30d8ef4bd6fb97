//! The lines of names.
ghost use Rattle.std.specs.Prelude.{◌≡◌, ◌+◌, ◌<◌, ◌≤◌, ◌++◌, [], length, IfOk, IsTrue};
ghost use Rattle.raid_text.specs.Seen.{words_left};
ghost use Rattle.raid_text.specs.Text.{is_word};
ghost use Rattle.raid_conf.specs.Answers.{GivesIfRoom};
ghost use Rattle.raid_conf.specs.Format.{names_in, next_name, with_name};
ghost use Rattle.raid_conf.specs.Sections.{absent_as, count_code, name_in, name_of};
ghost use Rattle.raid_conf.specs.Steps.{has_name, new_name};
ghost use Rattle.text_steps.specs.Steps.{rest_of};
ghost use Rattle.text_steps.specs.Answers.{Gives};

use crate::codes::{DISKS, NAME, SPARES};
use crate::fault::ConfFault;
use crate::names::Names;
use crate::role::Role;
use raid_text::{Lines, Words};
use std::alloc::Global;
use text_steps::{At, at_line, next_line, next_word, pass_end};

/// The most bytes of a name.
const NAME_BYTES: usize = 255;

/// The code of a line where a name is missing, or one too many.
pub(crate) fn count_code(role: Role) -> u8
    ensures { result ≡ count_code role }
{
    match role {
        Role::Disk => DISKS,
        Role::Spare => SPARES,
    }
}

// The text of a word, whose bytes are all ASCII.
fn text_of(word: &[u8]) -> &str
    requires { IsTrue (is_word word.now) }
    ensures { result.now ≡ word.now }
{
    match str::from_utf8(word) {
        Ok(text) => text,
        Err(_) => unreachable!(),
    }
}

#[tactic(auto, unfolding(crate::specs::Steps::new_name))]
fn new_name<'a>(before: &Names, names: &Names, word: &'a [u8]) -> Result<&'a str, u8>
    requires { IsTrue (is_word word.now) }
    ensures { Gives (λ name. name.now) result (new_name (before.now ++ names.now) word.now) }
{
    let name = text_of(word);
    if word.len() <= NAME_BYTES && !has_either(before, names, name) {
        Ok(name)
    } else {
        Err(NAME)
    }
}

fn has_either(before: &Names, names: &Names, name: &str) -> bool
    ensures { result ≡ has_name (before.now ++ names.now) name.now }
{
    before.has(name) || names.has(name)
}

fn absent_as(role: Role) -> Result<&'static str, u8>
    ensures { Gives (λ name. name.now) result (absent_as role) }
{
    match role {
        Role::Disk => Ok(""),
        Role::Spare => Err(NAME),
    }
}

#[tactic(auto, unfolding(crate::specs::Sections::name_in, crate::specs::Steps::new_name, crate::specs::Steps::has_name))]
fn name_in<'a>(role: Role, before: &Names, names: &Names, word: &'a [u8]) -> Result<&'a str, u8>
    requires { IsTrue (is_word word.now) }
    ensures { Gives (λ name. name.now) result (name_in role (before.now ++ names.now) word.now) }
{
    if word == b"absent".as_slice() {
        absent_as(role)
    } else {
        new_name(before, names, word)
    }
}

/// The name that is alone on a line, behind two lists of names.
#[tactic(auto, unfolding(crate::specs::Sections::name_of))]
pub(crate) fn name_line<'a>(
    role: Role,
    before: &Names,
    names: &Names,
    words: &mut Words<'a>,
) -> Result<&'a str, u8>
    ensures { Gives (λ name. name.now) result
        (name_of role (before.now ++ names.now) (words_left words.old)) }
{
    let word = next_word(words)?;
    if word == b"START".as_slice() {
        return Err(count_code(role));
    }
    let name = name_in(role, before, names, word)?;
    pass_end(words)?;
    Ok(name)
}

// The name on the next line, behind two lists of names.
#[tactic(auto, unfolding(crate::specs::Format::next_name))]
fn next_name<'a>(
    lines: &mut Lines<'a>,
    role: Role,
    before: &Names,
    names: &Names,
) -> Result<&'a str, At>
    ensures { Gives (λ name. (name.now, rest_of lines.new)) result
        (next_name role (before.now ++ names.now) (rest_of lines.old)) }
{
    let mut line = next_line(lines, count_code(role))?;
    at_line(line.at, name_line(role, before, names, &mut line.words))
}

#[tactic(auto, unfolding(crate::specs::Format::with_name))]
fn push_name(
    alloc: Global,
    lines: &mut Lines,
    role: Role,
    before: &Names,
    names: &mut Names,
) -> Result<(), ConfFault>
    requires { length names.old < 32 }
    ensures count { IfOk result (λ _. length names.new ≡ length names.old + 1) }
    ensures value { GivesIfRoom (λ _. (names.new, rest_of lines.new)) result
        (with_name role before.now names.old (rest_of lines.old)) }
{
    let name = next_name(lines, role, before, names)?;
    names.push(alloc, name)
}

/// So many names, one a line, none of which is among those before.
pub(crate) fn read_names(
    alloc: Global,
    lines: &mut Lines,
    role: Role,
    count: u32,
    before: &Names,
) -> Result<Names, ConfFault>
    requires { count ≤ 32 }
    ensures { GivesIfRoom (λ names. (names, rest_of lines.new)) result
        (names_in role count before.now [] (rest_of lines.old)) }
{
    let mut names = Names::new(alloc);
    for i in 0..count {
        match push_name(alloc, lines, role, before, &mut names) {
            Ok(()) => {}
            Err(fault) => return Err(fault),
        }
    }
    Ok(names)
}
