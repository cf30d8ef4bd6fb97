//! Where to begin, where labels may say of an array that it lacks what it has.
ghost use Rattle.std.specs.Prelude.{◌≡◌, IfOk, option_map};
ghost use Rattle.top_words.specs.Views.{command_seen};
ghost use Rattle.top_hints.specs.Advice.{adopt_advice, advice_unless, command_of, doubt_advice, lost_advice, no_advice};
ghost use Rattle.top_hints.specs.Views.{advice_seen};

use raid_bay::Name;
use std::alloc::{AllocError, Global};
use top_words::{Command, Invocation, WordsFault, read_words};

/// Words, the name of a configuration, and the words behind it; all empty where there is no advice.
#[derive(Clone, Copy)]
pub(crate) struct Advice<'a> {
    pub before: &'static str,
    pub conf: &'a str,
    pub behind: &'static str,
}

fn no_advice() -> Advice<'static>
    ensures { advice_seen result ≡ no_advice }
{
    Advice {
        before: "",
        conf: "",
        behind: "",
    }
}

// Devices with older labels are looked at as the newest label names them.
fn adopt_advice(conf: &str) -> Advice<'_>
    ensures { advice_seen result ≡ adopt_advice conf.entry.now }
{
    Advice {
        before: "; if a call was stopped as it wrote labels, begin with raidctl ",
        conf,
        behind: " -s --adopt",
    }
}

// None where it is too late for that, or the command does so itself.
fn advice_unless(late: bool, command: Command<'_>) -> Advice<'_>
    ensures { advice_seen result ≡ advice_unless late (command_seen command.entry) }
{
    if late || command.adopt {
        no_advice()
    } else {
        adopt_advice(command.conf)
    }
}

/// For a command that found an array lost.
pub(crate) fn lost_advice(command: Option<Command<'_>>) -> Advice<'_>
    ensures { advice_seen result ≡ lost_advice (option_map command_seen command.entry) }
{
    match command {
        Some(command) => advice_unless(command.action.profile().plain, command),
        None => no_advice(),
    }
}

/// For a command on an array that isn't clean and lacks a column, for which the newest label names a device, or not.
pub(crate) fn doubt_advice(named: bool, command: Option<Command<'_>>) -> Advice<'_>
    ensures { advice_seen result ≡ doubt_advice named (option_map command_seen command.entry) }
{
    match command {
        Some(command) => advice_unless(!named || command.action.profile().writes, command),
        None => no_advice(),
    }
}

/// What the words ask of an array, if they do.
pub(crate) fn command_of<'a>(
    alloc: Global,
    words: &'a [Name],
) -> Result<Option<Command<'a>>, AllocError>
    ensures { IfOk result (λ command. option_map command_seen command
        ≡ command_of words.entry.now) }
{
    match read_words(alloc, words) {
        Ok(Invocation::OnArray { command }) => Ok(Some(command)),
        Ok(Invocation::Tell { .. } | Invocation::Scan { .. }) => Ok(None),
        Ok(Invocation::Simulate { .. } | Invocation::OnConf { .. }) => Ok(None),
        Err(WordsFault::Usage(_)) => Ok(None),
        Err(WordsFault::Memory) => Err(AllocError),
    }
}
