//! What is wrong with words that are refused.
ghost use Rattle.std.specs.Prelude.{◌≡◌, IfOk, option_map};
ghost use Rattle.top_words.specs.Misuse.{apart_in, component_in, lone, misuse_of, misused, not_one, unformed, wrong, wrong_number, wrong_queue};
ghost use Rattle.top_words.specs.Views.{given_seen, misuse_seen, text_of};

use crate::app;
use crate::given::{Given, given_by};
use crate::judge::{
    actions, has_adopt_apart, has_limit_apart, has_map_apart, has_one_action, has_rows_apart,
    has_sweep_alone, has_workers_apart, number_within, queue_of, stands,
};
use crate::unknown::unknown_in;
use blk_plain::limits;
use clap::error::ErrorKind;
use raid_bay::Name;
use std::alloc::{AllocError, Global};

/// What is wrong with words that are refused, as far as they tell it.
#[derive(Clone, Copy)]
pub enum Misuse<'a> {
    /// They are of no form: this one begins as an option that there isn't.
    Unknown {
        word: &'a str,
    },
    /// They are of no form: an option twice or without its value, no name of what is read, or a word
    /// too many.
    NoForm,
    /// No action stands there.
    NoAction,
    /// More than one action stands there.
    ManyActions,
    /// An option stands there without what it goes with.
    Apart {
        option: &'static str,
        with: &'static str,
    },
    /// The word behind an option isn't a number from `low` to `high`.
    Number {
        option: &'static str,
        word: &'a str,
        low: u32,
        high: u32,
    },
    /// The word behind `--sim` is no queue.
    Queue {
        word: &'a str,
    },
    /// Nothing is: they ask for the layout over this number of rows.
    Rows {
        word: &'a str,
    },
    /// Nothing is: they are a command, with this component behind an option that takes one of these.
    Component {
        option: &'static str,
        word: &'a str,
        among: &'static str,
    },
}

/// What is wrong with the words, judged in the order in which they are read; where nothing is, the
/// component that they name, if they name one. It fails only for want of memory.
pub fn misuse_of<'a>(alloc: Global, words: &'a [Name]) -> Result<Option<Misuse<'a>>, AllocError>
    ensures { IfOk result (λ misuse. option_map misuse_seen misuse ≡ misuse_of words.entry.now) }
{
    let app = app::command(alloc)?;
    match app.try_get_matches_from(words) {
        Ok(matches) => Ok(misused(given_by(&matches))),
        Err(error) => match error.kind() {
            ErrorKind::OutOfMemory => Err(AllocError),
            _ => Ok(Some(unformed(words))),
        },
    }
}

// Which way the words are of no form.
#[tactic(auto, unfolding(crate::specs::Misuse::unformed))]
fn unformed<'a>(words: &'a [Name]) -> Misuse<'a>
    ensures { misuse_seen result ≡ unformed words.entry.now }
{
    match unknown_in(words) {
        Some(word) => Misuse::Unknown { word },
        None => Misuse::NoForm,
    }
}

// What is wrong with what is given.
#[tactic(auto, unfolding(crate::specs::Misuse::misused))]
fn misused<'a>(given: Given<'a>) -> Option<Misuse<'a>>
    ensures { option_map misuse_seen result ≡ misused (given_seen given.entry) }
{
    if !has_one_action(given) {
        return Some(not_one(given));
    }
    apart(given)
        .or(wrong_number(given))
        .or(wrong_queue(given.sim))
        .or(component(given))
}

// Which way it isn't one action.
#[tactic(auto, unfolding(crate::specs::Misuse::not_one))]
fn not_one<'a>(given: Given<'a>) -> Misuse<'a>
    ensures { misuse_seen result ≡ not_one (given_seen given.entry) }
{
    if actions(given) == 0 {
        Misuse::NoAction
    } else {
        Misuse::ManyActions
    }
}

// An option that goes with another one.
fn lone<'a>(option: &'static str, with: &'static str) -> Option<Misuse<'a>>
    ensures { option_map misuse_seen result ≡ lone option.entry.now with.entry.now }
{
    Some(Misuse::Apart { option, with })
}

// The first option that stands without what it goes with.
#[tactic(auto, unfolding(crate::specs::Misuse::apart_in))]
fn apart<'a>(given: Given<'a>) -> Option<Misuse<'a>>
    ensures { option_map misuse_seen result ≡ apart_in (given_seen given.entry) }
{
    if has_workers_apart(given) {
        return lone("-w", "--io, --sweep, -F, -R or --resume");
    }
    if stands(given.graphs) && !stands(given.io) {
        return lone("--graphs", "--io");
    }
    if given.trace && !stands(given.io) {
        return lone("--trace", "--io");
    }
    if stands(given.clients) && !stands(given.sweep) {
        return lone("--clients", "--sweep");
    }
    if stands(given.ops) && !stands(given.sweep) {
        return lone("--ops", "--sweep");
    }
    if has_sweep_alone(given) {
        return lone("--sweep", "--clients and --ops");
    }
    if has_limit_apart(given) {
        return lone("--limit", "-F, -R or --resume");
    }
    if has_map_apart(given) {
        return lone("--map", "--io, --sweep, -F, -R or --resume");
    }
    if has_adopt_apart(given) {
        return lone("--adopt", "-s, -p, -P, -f, -F or -R");
    }
    if has_rows_apart(given) {
        return lone("--rows", "--layout");
    }
    None
}

// The word behind an option, where it isn't a number from `low` to `high`.
#[tactic(auto, unfolding(crate::specs::Misuse::wrong))]
fn wrong<'a>(option: &'static str, word: Option<&'a str>, low: u32, high: u32) -> Option<Misuse<'a>>
    ensures { option_map misuse_seen result ≡ wrong option.entry.now (text_of word.entry) low high }
{
    let Some(word) = word else {
        return None;
    };
    match number_within(low, high, word) {
        Some(_) => None,
        None => Some(Misuse::Number {
            option,
            word,
            low,
            high,
        }),
    }
}

// The first word that isn't a number in its range.
#[tactic(auto, unfolding(crate::specs::Misuse::wrong_number))]
fn wrong_number<'a>(given: Given<'a>) -> Option<Misuse<'a>>
    ensures { option_map misuse_seen result ≡ wrong_number (given_seen given.entry) }
{
    wrong("-w", given.workers, 0, limits::WORKERS)
        .or(wrong("--sweep", given.sweep, 0, u32::MAX))
        .or(wrong("--clients", given.clients, 1, limits::CLIENTS))
        .or(wrong("--ops", given.ops, 0, limits::SWEEP_ITEMS))
        .or(wrong("-I", given.label, 0, u32::MAX))
        .or(wrong("--limit", given.limit, 1, u32::MAX))
        .or(wrong("--rows", given.rows, 1, limits::STRIPES))
}

// The word behind `--sim`, where it is no queue.
#[tactic(auto, unfolding(crate::specs::Misuse::wrong_queue))]
fn wrong_queue<'a>(word: Option<&'a str>) -> Option<Misuse<'a>>
    ensures { option_map misuse_seen result ≡ wrong_queue (text_of word.entry) }
{
    let Some(word) = word else {
        return None;
    };
    match queue_of(word) {
        Some(_) => None,
        None => Some(Misuse::Queue { word }),
    }
}

// The component, or the number of rows, that stands there.
#[tactic(auto, unfolding(crate::specs::Misuse::component_in))]
fn component<'a>(given: Given<'a>) -> Option<Misuse<'a>>
    ensures { option_map misuse_seen result ≡ component_in (given_seen given.entry) }
{
    if let Some(word) = given.rows {
        return Some(Misuse::Rows { word });
    }
    let (option, word, among) = if let Some(word) = given.fail {
        ("-f", word, "disks")
    } else if let Some(word) = given.rebuild {
        ("-F", word, "disks")
    } else if let Some(word) = given.in_place {
        ("-R", word, "disks")
    } else {
        ("-g", given.show_label?, "disks and spares")
    };
    Some(Misuse::Component {
        option,
        word,
        among,
    })
}
