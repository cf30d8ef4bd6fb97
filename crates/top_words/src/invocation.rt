//! What the words ask for.
ghost use Rattle.std.specs.Prelude.{◌≡◌, ◌||◌, ℕ, IfOk, OnErr, Ok, Err};
ghost use Rattle.top_words.specs.Judged.{IsInRange, Tell, invocation_of, topic_in};
ghost use Rattle.top_words.specs.Steps.{taken_as, has_word};
ghost use Rattle.top_words.specs.Views.{invocation_seen};
ghost use Rattle.top_words.specs.declared.invocation.WordsFault.TheVariants.{Memory, Usage};

use crate::app;
use crate::command::Command;
use crate::given::given_by;
use crate::judge::judged;
use crate::study::Study;
use clap::error::ErrorKind;
use raid_bay::Name;
use sim_queue::Queue;
use std::alloc::{AllocError, Global};

/// One of the program's own texts.
#[derive(Clone, Copy, Debug, PartialEq, Eq)]
pub enum Topic {
    /// Which words there are, and what they do.
    Help,
    /// Which program this is.
    Version,
}

/// What the words ask for.
#[derive(Clone, Copy)]
pub enum Invocation<'a> {
    /// One of the program's own texts.
    Tell { topic: Topic },
    /// An action on the array of a configuration.
    OnArray { command: Command<'a> },
    /// Which arrays the components of a list make up.
    Scan { list: &'a str },
    /// How one simulated disk serves the requests of a text.
    Simulate { requests: &'a str, order: Queue },
    /// What is told of a configuration alone.
    OnConf { conf: &'a str, study: Study },
}

/// Why the words ask for nothing: the first case of Usage, or there was no memory.
#[derive(Clone, Copy, Debug, PartialEq, Eq)]
pub enum WordsFault {
    Usage(u8),
    Memory,
}

impl From<AllocError> for WordsFault {
    ghost from_gives = { λ _ e. e ≡ Memory };

    fn from(_e: AllocError) -> WordsFault {
        WordsFault::Memory
    }
}

// Whether this word stands there.
fn has_word(words: &[Name], word: &str) -> bool
    ensures { result ≡ has_word word.now words.now }
{
    words.iter().any(|other| other.text() == word)
}

// Which of the program's own texts is asked for.
#[tactic(auto, unfolding(crate::specs::Judged::topic_in))]
fn topic_in(words: &[Name]) -> Option<Topic>
    ensures { result ≡ topic_in words.now }
{
    if has_word(words, "--help") || has_word(words, "-h") {
        return Some(Topic::Help);
    }
    if has_word(words, "--version") || has_word(words, "-V") {
        return Some(Topic::Version);
    }
    None
}

// What words ask for that name none of those texts.
fn take<'a>(alloc: Global, words: &'a [Name]) -> Result<Invocation<'a>, WordsFault>
    ensures taken { IfOk result (λ i. taken_as words.entry.now ≡ Ok (invocation_seen i)) }
    ensures range { IfOk result (λ i. IsInRange (invocation_seen i)) }
    ensures usage { (i : ℕ) → result ≡ Err (Usage i) → taken_as words.entry.now ≡ Err i }
{
    let app = app::command(alloc)?;
    match app.try_get_matches_from(words) {
        Ok(matches) => match judged(given_by(&matches)) {
            Ok(invocation) => Ok(invocation),
            Err(case) => Err(WordsFault::Usage(case)),
        },
        Err(error) => match error.kind() {
            ErrorKind::OutOfMemory => Err(WordsFault::Memory),
            _ => Err(WordsFault::Usage(0)),
        },
    }
}

/// Reads the words. Want of memory has no cause here; all else is `invocation_of`.
///
/// `--help` or `-h` anywhere among the words asks for the help; else `--version` or `-V` for the
/// version.
#[tactic(auto, unfolding(crate::specs::Judged::invocation_of, crate::specs::Steps::taken_as, crate::specs::Steps::refusals, crate::specs::Steps::rows_in))]
pub fn read_words<'a>(alloc: Global, words: &'a [Name]) -> Result<Invocation<'a>, WordsFault>
    ensures invocation { IfOk result (λ i. invocation_of words.entry.now ≡ Ok (invocation_seen i)) }
    ensures range { IfOk result (λ i. IsInRange (invocation_seen i)) }
    ensures usage { (i : ℕ) → result ≡ Err (Usage i) → invocation_of words.entry.now ≡ Err i }
    ensures told { OnErr result
        ((topic : Topic) → invocation_of words.entry.now ≡ Ok (Tell topic) → ⊥) }
{
    match topic_in(words) {
        Some(topic) => Ok(Invocation::Tell { topic }),
        None => take(alloc, words),
    }
}
