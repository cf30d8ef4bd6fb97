//! What the words of a call name, and what is wrong with them.
ghost use Rattle.std.specs.Prelude.{◌≡◌, [], ◌∷◌, IfOk, codes, option_map};
ghost use Rattle.std.specs.Option.{option_map_or};
ghost use Rattle.top_help.specs.declared.TheConstants.{HELP};
ghost use Rattle.top_words.specs.Judged.{invocation_of};
ghost use Rattle.top_words.specs.Misuse.{misuse_of};
ghost use Rattle.top_words.specs.Views.{beside_seen, misuse_seen};
ghost use Rattle.top_hints.specs.Line.{hint_line};
ghost use Rattle.top_hints.specs.Views.{texts_seen};
ghost use Rattle.top_hints.specs.Words.{component_hint, misuse_hint, number_hint, only_conf, queue_hint, rows_hint, texts_of, texts_with, unformed, unknown_hint, usage_hint};

use crate::piece::{Piece, line};
use crate::sentences::plain;
use raid_bay::Name;
use std::alloc::{AllocError, Global};
use top_help::HELP;
use top_words::{Beside, Invocation, Misuse, WordsFault, misuse_of, read_words};

/// The names of the texts that a call reads; empty where it doesn't read one.
#[derive(Clone, Copy)]
pub(crate) struct Texts<'a> {
    pub conf: &'a str,
    pub script: &'a str,
    pub graphs: &'a str,
}

// A text that stands in the place of CONF, and nothing beside it.
fn only_conf(name: &str) -> Texts<'_>
    ensures { texts_seen result ≡ only_conf name.entry.now }
{
    Texts {
        conf: name,
        script: "",
        graphs: "",
    }
}

// CONF, and what goes with a script where there is one.
fn texts_with<'a>(name: &'a str, beside: Option<Beside<'a>>) -> Texts<'a>
    ensures { texts_seen result ≡ texts_with name.entry.now (option_map beside_seen beside.entry) }
{
    match beside {
        None => only_conf(name),
        Some(beside) => Texts {
            conf: name,
            script: beside.script,
            graphs: beside.graphs.unwrap_or(""),
        },
    }
}

/// The texts that the words name.
pub(crate) fn texts_of<'a>(alloc: Global, words: &'a [Name]) -> Result<Texts<'a>, AllocError>
    ensures { IfOk result (λ texts. texts_seen texts ≡ texts_of words.entry.now) }
{
    match read_words(alloc, words) {
        Ok(Invocation::Tell { .. }) | Err(WordsFault::Usage(_)) => Ok(only_conf("")),
        Ok(Invocation::OnArray { command }) => {
            Ok(texts_with(command.conf, command.action.beside()))
        }
        Ok(Invocation::Scan { list }) => Ok(only_conf(list)),
        Ok(Invocation::Simulate { requests, .. }) => Ok(only_conf(requests)),
        Ok(Invocation::OnConf { conf, .. }) => Ok(only_conf(conf)),
        Err(WordsFault::Memory) => Err(AllocError),
    }
}

// The word begins as an option that there isn't.
#[tactic(auto, unfolding(crate::specs::Line::hint_line, crate::specs::Words::unknown_hint))]
fn unknown(alloc: Global, word: &str) -> Result<Vec<u8>, AllocError>
    ensures { IfOk result (λ line. line.items ≡ unknown_hint word.now) }
{
    line(
        alloc,
        &[
            Piece::Shown(word),
            Piece::Words(": there is no such option"),
        ],
    )
}

// The words are of no form otherwise.
#[tactic(auto, unfolding(crate::specs::Words::unformed))]
fn unformed(alloc: Global) -> Result<Vec<u8>, AllocError>
    ensures { IfOk result (λ line. line.items ≡ unformed) }
{
    plain(
        alloc,
        "the words can't be taken apart: an option twice or without its value, a word too many, one that isn't UTF-8, or no CONF",
    )
}

// An option without what it goes with.
#[tactic(auto, unfolding(crate::specs::Line::hint_line))]
fn apart(alloc: Global, option: &'static str, with: &'static str) -> Result<Vec<u8>, AllocError>
    ensures { IfOk result (λ line. line.items
        ≡ hint_line (option.entry.now ∷ codes " needs " ∷ with.entry.now ∷ [])) }
{
    let needs = Piece::Words(" needs ");
    line(alloc, &[Piece::Words(option), needs, Piece::Words(with)])
}

// The word behind an option isn't a number of that range.
#[tactic(auto, unfolding(crate::specs::Line::hint_line, crate::specs::Words::number_hint))]
fn no_number(
    alloc: Global,
    option: &'static str,
    word: &str,
    low: u32,
    high: u32,
) -> Result<Vec<u8>, AllocError>
    ensures { IfOk result (λ line. line.items ≡ number_hint option.entry.now word.now low high) }
{
    line(
        alloc,
        &[
            Piece::Words(option),
            Piece::Words(" "),
            Piece::Shown(word),
            Piece::Words(": not a number from "),
            Piece::Number(u64::from(low)),
            Piece::Words(" to "),
            Piece::Number(u64::from(high)),
        ],
    )
}

// The word behind `--sim` is no queue.
#[tactic(auto, unfolding(crate::specs::Line::hint_line, crate::specs::Words::queue_hint))]
fn no_queue(alloc: Global, word: &str) -> Result<Vec<u8>, AllocError>
    ensures { IfOk result (λ line. line.items ≡ queue_hint word.now) }
{
    line(
        alloc,
        &[
            Piece::Words("--sim "),
            Piece::Shown(word),
            Piece::Words(": the queue is fifo, sstf or scan"),
        ],
    )
}

// The layout can't have so many rows.
#[tactic(auto, unfolding(crate::specs::Line::hint_line, crate::specs::Words::rows_hint))]
fn no_rows(alloc: Global, word: &str) -> Result<Vec<u8>, AllocError>
    ensures { IfOk result (λ line. line.items ≡ rows_hint word.now) }
{
    line(
        alloc,
        &[
            Piece::Words("--rows "),
            Piece::Shown(word),
            Piece::Words(
                ": the layout can't have so many rows: whole tables are wanted, of at most 1048576 stripes",
            ),
        ],
    )
}

// The word behind an option is no component that it may be.
#[tactic(auto, unfolding(crate::specs::Line::hint_line, crate::specs::Words::component_hint))]
fn no_component(
    alloc: Global,
    option: &'static str,
    word: &str,
    among: &'static str,
) -> Result<Vec<u8>, AllocError>
    ensures { IfOk result (λ line. line.items
        ≡ component_hint option.entry.now word.now among.entry.now) }
{
    line(
        alloc,
        &[
            Piece::Words(option),
            Piece::Words(" "),
            Piece::Shown(word),
            Piece::Words(": not a name of the configuration's "),
            Piece::Words(among),
        ],
    )
}

// Which word is wrong.
#[tactic(auto, unfolding(crate::specs::Words::misuse_hint))]
fn misused(alloc: Global, misuse: Misuse<'_>) -> Result<Vec<u8>, AllocError>
    ensures { IfOk result (λ line. line.items ≡ misuse_hint (misuse_seen misuse.entry)) }
{
    match misuse {
        Misuse::Unknown { word } => unknown(alloc, word),
        Misuse::NoForm => unformed(alloc),
        Misuse::NoAction => plain(
            alloc,
            "no action: one of --io, --sweep, --resume, --scan, --sim, --layout and the letters is wanted; see raidctl --help",
        ),
        Misuse::ManyActions => plain(
            alloc,
            "more than one action: only --io goes beside another: -F, -R or --resume",
        ),
        Misuse::Apart { option, with } => apart(alloc, option, with),
        Misuse::Number {
            option,
            word,
            low,
            high,
        } => no_number(alloc, option, word, low, high),
        Misuse::Queue { word } => no_queue(alloc, word),
        Misuse::Rows { word } => no_rows(alloc, word),
        Misuse::Component {
            option,
            word,
            among,
        } => no_component(alloc, option, word, among),
    }
}

// What is wrong with the words, as far as they tell it.
fn told(alloc: Global, words: &[Name]) -> Result<Vec<u8>, AllocError>
    ensures { IfOk result (λ text. text.items
        ≡ option_map_or misuse_hint (misuse_of words.now) unformed) }
{
    match misuse_of(alloc, words)? {
        Some(misuse) => misused(alloc, misuse),
        None => unformed(alloc),
    }
}

/// The words are refused by this case.
#[tactic(auto, unfolding(crate::specs::Words::usage_hint))]
pub(crate) fn refused(alloc: Global, case: u8, words: &[Name]) -> Result<Vec<u8>, AllocError>
    ensures { IfOk result (λ text. text.items ≡ usage_hint case (misuse_of words.now)) }
{
    let mut text = told(alloc, words)?;
    if case == 0 {
        text.extend_from_slice(HELP.as_bytes())?;
    }
    Ok(text)
}
