//! The reader of a whole configuration.
ghost use Rattle.std.specs.Prelude.{◌≡◌, ◌≤◌, length, IfOk};
ghost use Rattle.raid_text.specs.Seen.{words_left};
ghost use Rattle.raid_conf.specs.Answers.{GivesConf, GivesIfRoom};
ghost use Rattle.raid_conf.specs.Form.{IsConf};
ghost use Rattle.raid_conf.specs.Format.{after_start, array_in, design_in, given_in, kind_in, layout_in, queue_in, spares_in};
ghost use Rattle.raid_conf.specs.Texts.{conf_of};
ghost use Rattle.raid_conf.specs.Steps.{conf_in, disks_in, listed_in, spare_lines, tail_in};
ghost use Rattle.text_steps.specs.Steps.{rest_of};
ghost use Rattle.text_steps.specs.Answers.{Gives};

use crate::codes::{DESIGN, SECTION, SPARES, TUPLES};
use crate::conf::Conf;
use crate::design_lines::{complete_line, cyclic_line, listed_line, no_design, read_tuples};
use crate::designs::{has_design, serves};
use crate::fault::ConfFault;
use crate::given::Given;
use crate::name_lines::read_names;
use crate::names::Names;
use crate::role::Role;
use crate::sections::{
    Kind, Sizes, array_line, layout_line, pass_start, queue_begins, queue_line, spares_begin,
};
use raid_text::{Lines, Words};
use std::alloc::Global;
use text_steps::{At, WORD, at_line, line_if_any, next_line, next_word};

// Passes the line that begins this section; `code` where the next line begins none.
#[tactic(auto, unfolding(crate::specs::Format::after_start))]
fn pass_section(lines: &mut Lines, name: &[u8], code: u8) -> Result<(), At>
    ensures { Gives (λ _. rest_of lines.new) result
        (after_start code name.now (rest_of lines.old)) }
{
    let mut line = next_line(lines, SECTION)?;
    at_line(line.at, pass_start(&mut line.words, name, code))
}

// How many columns and spares there are.
#[tactic(auto, unfolding(crate::specs::Format::array_in))]
fn read_array(lines: &mut Lines) -> Result<Sizes, At>
    ensures value { Gives (λ sizes. (sizes.columns, sizes.spares, rest_of lines.new)) result
        (array_in (rest_of lines.old)) }
    ensures columns { IfOk result (λ sizes. sizes.columns ≤ 32) }
    ensures spares { IfOk result (λ sizes. sizes.spares ≤ 8) }
{
    pass_section(lines, b"array", WORD)?;
    let mut line = next_line(lines, WORD)?;
    at_line(line.at, array_line(&mut line.words))
}

#[tactic(auto, unfolding(crate::specs::Steps::disks_in))]
fn read_disks(alloc: Global, lines: &mut Lines, columns: u32) -> Result<Names, ConfFault>
    requires { columns ≤ 32 }
    ensures { GivesIfRoom (λ names. (names, rest_of lines.new)) result
        (disks_in columns (rest_of lines.old)) }
{
    pass_section(lines, b"disks", WORD)?;
    read_names(alloc, lines, Role::Disk, columns, &Names::new(alloc))
}

// The names of the spares, and the line that begins the layout.
#[tactic(auto, unfolding(crate::specs::Steps::spare_lines))]
fn read_spare_lines(
    alloc: Global,
    lines: &mut Lines,
    spares: u32,
    disks: &Names,
) -> Result<Names, ConfFault>
    requires { spares ≤ 8 }
    ensures { GivesIfRoom (λ names. (names, rest_of lines.new)) result
        (spare_lines spares disks.now (rest_of lines.old)) }
{
    let names = read_names(alloc, lines, Role::Spare, spares, disks)?;
    pass_section(lines, b"layout", SPARES)?;
    Ok(names)
}

// The same with the line that begins the section of the spares, which may be left out.
#[tactic(auto, unfolding(crate::specs::Format::spares_in, crate::specs::Steps::spare_lines))]
fn read_spares(
    alloc: Global,
    lines: &mut Lines,
    spares: u32,
    disks: &Names,
) -> Result<Names, ConfFault>
    requires { spares ≤ 8 }
    ensures { GivesIfRoom (λ names. (names, rest_of lines.new)) result
        (spares_in spares disks.now (rest_of lines.old)) }
{
    let mut line = next_line(lines, SECTION)?;
    if at_line(line.at, spares_begin(spares, &mut line.words))? {
        read_spare_lines(alloc, lines, spares, disks)
    } else {
        Ok(Names::new(alloc))
    }
}

// The sectors of a unit, and the level.
#[tactic(auto, unfolding(crate::specs::Format::layout_in))]
fn read_layout(lines: &mut Lines, columns: u32) -> Result<Kind, At>
    ensures { Gives (λ kind. (kind.unit, kind.level, rest_of lines.new)) result
        (layout_in columns (rest_of lines.old)) }
{
    let mut line = next_line(lines, WORD)?;
    at_line(line.at, layout_line(columns, &mut line.words))
}

// A listed design, on whose line `design` was passed.
#[tactic(auto, unfolding(crate::specs::Steps::listed_in))]
fn read_listed(
    alloc: Global,
    lines: &mut Lines,
    columns: u32,
    at: u32,
    words: &mut Words,
) -> Result<Given, ConfFault>
    ensures { GivesIfRoom (λ given. (given, rest_of lines.new)) result
        (listed_in columns at (words_left words.old) (rest_of lines.old)) }
{
    let counts = at_line(at, listed_line(columns, words))?;
    let tuples = read_tuples(alloc, lines, counts.b, counts.k)?;
    Ok(Given::Listed {
        b: counts.b,
        v: columns,
        k: counts.k,
        r: counts.r,
        lambda: counts.lambda,
        tuples,
    })
}

#[tactic(auto, unfolding(crate::specs::Format::kind_in, crate::specs::Steps::listed_in))]
fn read_kind(
    alloc: Global,
    lines: &mut Lines,
    columns: u32,
    at: u32,
    kind: &[u8],
    words: &mut Words,
) -> Result<Given, ConfFault>
    ensures { GivesIfRoom (λ given. (given, rest_of lines.new)) result
        (kind_in kind.now columns at (words_left words.old) (rest_of lines.old)) }
{
    if kind == b"design".as_slice() {
        read_listed(alloc, lines, columns, at, words)
    } else if kind == b"cyclic".as_slice() {
        cyclic_line(alloc, columns, at, words)
    } else if kind == b"complete".as_slice() {
        let given = at_line(at, complete_line(columns, words))?;
        Ok(given)
    } else {
        Err(ConfFault::At {
            line: at,
            code: no_design(kind),
        })
    }
}

#[tactic(auto, unfolding(crate::specs::Format::given_in))]
fn read_given(alloc: Global, lines: &mut Lines, level: u8, columns: u32) -> Result<Given, ConfFault>
    ensures { GivesIfRoom (λ given. (given, rest_of lines.new)) result
        (given_in level columns (rest_of lines.old)) }
{
    let mut line = next_line(lines, TUPLES)?;
    let at = line.at;
    let kind = at_line(at, next_word(&mut line.words))?;
    let given = read_kind(alloc, lines, columns, at, kind, &mut line.words)?;
    match serves(alloc, level, &given) {
        Ok(true) => Ok(given),
        Ok(false) => Err(ConfFault::At {
            line: at,
            code: DESIGN,
        }),
        Err(_) => Err(ConfFault::Memory),
    }
}

#[tactic(auto, unfolding(crate::specs::Format::design_in))]
fn read_design(
    alloc: Global,
    lines: &mut Lines,
    level: u8,
    columns: u32,
) -> Result<Option<Given>, ConfFault>
    ensures { GivesIfRoom (λ design. (design, rest_of lines.new)) result
        (design_in level columns (rest_of lines.old)) }
{
    if has_design(level) {
        let given = read_given(alloc, lines, level, columns)?;
        Ok(Some(given))
    } else {
        Ok(None)
    }
}

// The queue's number, with which the text ends but for debug lines.
#[tactic(auto, unfolding(crate::specs::Format::queue_in))]
fn read_queue(lines: &mut Lines) -> Result<u32, At>
    ensures { result ≡ queue_in (rest_of lines.old) }
{
    let mut line = next_line(lines, WORD)?;
    let number = at_line(line.at, queue_line(&mut line.words))?;
    if let Some(mut last) = line_if_any(lines)? {
        at_line(last.at, pass_start(&mut last.words, b"debug", WORD))?;
    }
    Ok(number)
}

// The queue's number, where its section comes.
#[tactic(auto, unfolding(crate::specs::Steps::tail_in))]
fn read_tail(lines: &mut Lines) -> Result<Option<u32>, At>
    ensures { result ≡ tail_in (rest_of lines.old) }
{
    let Some(mut line) = line_if_any(lines)? else {
        return Ok(None);
    };
    if at_line(line.at, queue_begins(&mut line.words))? {
        let number = read_queue(lines)?;
        Ok(Some(number))
    } else {
        Ok(None)
    }
}

#[tactic(auto, unfolding(crate::specs::Steps::conf_in))]
fn read_lines(alloc: Global, lines: &mut Lines) -> Result<Conf, ConfFault>
    ensures { GivesConf result (conf_in (rest_of lines.old)) }
{
    let sizes = read_array(lines)?;
    let disks = read_disks(alloc, lines, sizes.columns)?;
    let spare_names = read_spares(alloc, lines, sizes.spares, &disks)?;
    let kind = read_layout(lines, sizes.columns)?;
    let design = read_design(alloc, lines, kind.level, sizes.columns)?;
    let queue = read_tail(lines)?;
    Ok(Conf {
        columns: sizes.columns,
        spares: sizes.spares,
        unit: kind.unit,
        level: kind.level,
        queue,
        disks,
        spare_names,
        design,
    })
}

/// What a configuration says.
///
/// The text has at most 16,777,216 bytes. `At` comes exactly where it isn't of the form that this
/// crate's page describes, with the first line that can't be read and the code of its refusal;
/// `Memory` comes where there is none for the names or the design. The time it takes goes with the
/// text's length.
pub fn read_conf(alloc: Global, text: &[u8]) -> Result<Conf, ConfFault>
    requires { length text.now ≤ 16777216 }
    ensures value { GivesConf result (conf_of text.now) }

    // What is read is within the limits of a configuration, and its names differ.
    ensures conf { IfOk result (λ conf. IsConf conf) }
{
    let mut lines = Lines::new(text);
    read_lines(alloc, &mut lines)
}
