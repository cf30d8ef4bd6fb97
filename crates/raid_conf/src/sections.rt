//! The lines that begin sections, and those of the array, the layout and the queue.
ghost use Rattle.std.specs.Prelude.{◌≡◌, ◌≤◌, IfOk, IsTrue};
ghost use Rattle.raid_text.specs.Seen.{words_left};
ghost use Rattle.raid_conf.specs.Levels.{allows, is_level};
ghost use Rattle.raid_conf.specs.Sections.{array_of, counts_of, layout_of, level_in, pass_start, queue_begins, queue_of, spares_begin, start_of};
ghost use Rattle.raid_conf.specs.Steps.{may_be_columns, queue_or_debug, spare_or_layout};
ghost use Rattle.text_steps.specs.Answers.{Gives};

use crate::codes::{COLUMNS, DISKS, LEVEL, ONE, QUEUE, SECTION, SPARES};
use blk_plain::limits;
use raid_text::Words;
use text_steps::{
    NUMBER, WORD, next_number, next_word, number_in, pass_end, pass_number, pass_word,
};

// The name of the section that a line begins.
#[tactic(auto, unfolding(crate::specs::Sections::start_of))]
fn start_in<'a>(words: &mut Words<'a>, code: u8) -> Result<&'a [u8], u8>
    ensures { Gives (λ name. (name.now, words_left words.new)) result
        (start_of code (words_left words.old)) }
{
    pass_word(words, b"START", code)?;
    next_word(words)
}

/// Passes the line that begins the section of this name; `code` where it begins none.
#[tactic(auto, unfolding(crate::specs::Sections::pass_start))]
pub(crate) fn pass_start(words: &mut Words, name: &[u8], code: u8) -> Result<(), u8>
    ensures { result ≡ pass_start code name.now (words_left words.old) }
{
    let found = start_in(words, code)?;
    if found != name {
        return Err(SECTION);
    }
    pass_end(words)
}

// Whether the section of this name is that of the spares, or else that of the layout.
#[tactic(auto, unfolding(crate::specs::Steps::spare_or_layout))]
fn spare_or_layout(spares: u32, name: &[u8], words: &mut Words) -> Result<bool, u8>
    ensures { result ≡ spare_or_layout spares name.now (words_left words.old) }
{
    if name == b"spare".as_slice() {
        pass_end(words)?;
        Ok(true)
    } else if name == b"layout".as_slice() {
        if spares != 0 {
            return Err(SPARES);
        }
        pass_end(words)?;
        Ok(false)
    } else {
        Err(SECTION)
    }
}

/// Whether a line behind the disks begins the section of the spares, or else that of the layout.
#[tactic(auto, unfolding(crate::specs::Sections::spares_begin, crate::specs::Steps::spare_or_layout))]
pub(crate) fn spares_begin(spares: u32, words: &mut Words) -> Result<bool, u8>
    ensures { result ≡ spares_begin spares (words_left words.old) }
{
    let name = start_in(words, DISKS)?;
    spare_or_layout(spares, name, words)
}

// Whether the section of this name is that of the queue, or else that of the debug lines.
#[tactic(auto, unfolding(crate::specs::Steps::queue_or_debug))]
fn queue_or_debug(name: &[u8], words: &mut Words) -> Result<bool, u8>
    ensures { result ≡ queue_or_debug name.now (words_left words.old) }
{
    if name == b"queue".as_slice() {
        pass_end(words)?;
        Ok(true)
    } else if name == b"debug".as_slice() {
        pass_end(words)?;
        Ok(false)
    } else {
        Err(SECTION)
    }
}

/// Whether a line behind the layout begins the section of the queue, or else that of the debug lines.
#[tactic(auto, unfolding(crate::specs::Sections::queue_begins, crate::specs::Steps::queue_or_debug))]
pub(crate) fn queue_begins(words: &mut Words) -> Result<bool, u8>
    ensures { result ≡ queue_begins (words_left words.old) }
{
    let name = start_in(words, WORD)?;
    queue_or_debug(name, words)
}

fn may_be_columns(n: u32) -> bool
    ensures { result ≡ may_be_columns n }
{
    1 <= n && n <= limits::COLUMNS
}

/// How many columns and spares an array has.
#[derive(Clone, Copy)]
pub(crate) struct Sizes {
    pub(crate) columns: u32,
    pub(crate) spares: u32,
}

// The columns and spares of a line whose first two numbers are these.
#[tactic(auto, unfolding(crate::specs::Sections::counts_of))]
fn counts_in(first: u32, second: u32, words: &mut Words) -> Result<Sizes, u8>
    requires { first ≤ 32 }
    ensures columns { IfOk result (λ sizes. sizes.columns ≤ 32) }
    ensures spares { IfOk result (λ sizes. sizes.spares ≤ 8) }
    ensures value { Gives (λ sizes. (sizes.columns, sizes.spares)) result
        (counts_of first second (words_left words.old)) }
{
    let Some(word) = words.next() else {
        if second > limits::SPARES {
            return Err(NUMBER);
        }
        return Ok(Sizes {
            columns: first,
            spares: second,
        });
    };
    if first != 1 || !may_be_columns(second) {
        return Err(NUMBER);
    }
    let spares = number_in(word)?;
    if spares > limits::SPARES {
        return Err(NUMBER);
    }
    pass_end(words)?;
    Ok(Sizes {
        columns: second,
        spares,
    })
}

/// The array's line, `1 numCol numSpare` or `numCol numSpare`.
#[tactic(auto, unfolding(crate::specs::Sections::array_of))]
pub(crate) fn array_line(words: &mut Words) -> Result<Sizes, u8>
    ensures columns { IfOk result (λ sizes. sizes.columns ≤ 32) }
    ensures spares { IfOk result (λ sizes. sizes.spares ≤ 8) }
    ensures value { Gives (λ sizes. (sizes.columns, sizes.spares)) result
        (array_of (words_left words.old)) }
{
    let first = next_number(words)?;
    if !may_be_columns(first) {
        return Err(NUMBER);
    }
    let second = next_number(words)?;
    counts_in(first, second, words)
}

// Whether this is the ASCII number of a level.
#[tactic(auto, unfolding(crate::specs::Levels::is_level))]
fn is_level(b: u8) -> bool
    ensures { result ≡ is_level b }
{
    (b == b'0' || b == b'1')
        || ((b == b'4' || b == b'5') || (b == b'C' || (b == b'T' || b == b'D')))
}

#[tactic(auto, unfolding(crate::specs::Levels::allows))]
fn allows(level: u8, columns: u32) -> bool
    ensures { result ≡ allows level columns }
{
    (level == b'0' || 2 <= columns) && (level != b'1' || columns % 2 == 0)
}

#[tactic(auto, unfolding(crate::specs::Sections::level_in))]
fn level_in(word: &[u8]) -> Result<u8, u8>
    ensures { result ≡ level_in word.now }
{
    match word {
        [b] if is_level(*b) => Ok(*b),
        _ => Err(LEVEL),
    }
}

/// The sectors of a unit, and the level.
#[derive(Clone, Copy)]
pub(crate) struct Kind {
    pub(crate) unit: u32,
    pub(crate) level: u8,
}

/// The layout's line, `sectPerSU 1 1 level`, in an array of so many columns.
#[tactic(auto, unfolding(crate::specs::Sections::layout_of))]
pub(crate) fn layout_line(columns: u32, words: &mut Words) -> Result<Kind, u8>
    ensures { Gives (λ kind. (kind.unit, kind.level)) result
        (layout_of columns (words_left words.old)) }
{
    let unit = next_number(words)?;
    if unit < 1 || limits::UNIT_SECTORS < unit {
        return Err(NUMBER);
    }
    pass_number(words, 1, ONE)?;
    pass_number(words, 1, ONE)?;
    let word = next_word(words)?;
    let level = level_in(word)?;
    if !allows(level, columns) {
        return Err(COLUMNS);
    }
    pass_end(words)?;
    Ok(Kind { unit, level })
}

/// The queue's line, `fifo number`.
#[tactic(auto, unfolding(crate::specs::Sections::queue_of))]
pub(crate) fn queue_line(words: &mut Words) -> Result<u32, u8>
    ensures { result ≡ queue_of (words_left words.old) }
{
    pass_word(words, b"fifo", QUEUE)?;
    let number = next_number(words)?;
    pass_end(words)?;
    Ok(number)
}
