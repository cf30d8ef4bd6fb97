//! Options that there aren't.
ghost use Rattle.std.specs.Prelude.{◌≡◌};
ghost use Rattle.top_words.specs.Unknown.{is_letter, is_of_others, is_of_rebuilds, is_of_scripts, is_of_sweeps, is_unknown, option_of, unknown_in};
ghost use Rattle.top_words.specs.Views.{text_of};

use raid_bay::Name;

// An option of runs, behind two dashes.
#[tactic(auto, unfolding(crate::specs::Unknown::is_of_scripts))]
fn is_of_scripts(option: &str) -> bool
    ensures { result ≡ is_of_scripts option.now }
{
    matches!(option, "--io" | "--graphs" | "--trace" | "--map")
}

// An option of loads that are drawn.
#[tactic(auto, unfolding(crate::specs::Unknown::is_of_sweeps))]
fn is_of_sweeps(option: &str) -> bool
    ensures { result ≡ is_of_sweeps option.now }
{
    matches!(option, "--sweep" | "--clients" | "--ops")
}

// An option of rebuilds in parts.
#[tactic(auto, unfolding(crate::specs::Unknown::is_of_rebuilds))]
fn is_of_rebuilds(option: &str) -> bool
    ensures { result ≡ is_of_rebuilds option.now }
{
    matches!(option, "--resume" | "--limit")
}

// Another option, or two dashes alone, which are none.
#[tactic(auto, unfolding(crate::specs::Unknown::is_of_others))]
fn is_of_others(option: &str) -> bool
    ensures { result ≡ is_of_others option.now }
{
    matches!(
        option,
        "--scan" | "--sim" | "--adopt" | "--layout" | "--rows" | "--"
    )
}

// There is an option of this letter, behind one dash.
#[tactic(auto, unfolding(crate::specs::Unknown::is_letter))]
fn is_letter(letter: u8) -> bool
    ensures { result ≡ is_letter letter }
{
    b"wsmipPGfgIFR".contains(&letter)
}

// The word as far as an equals sign, behind which the value of an option stands.
fn option_of(word: &str) -> &str
    ensures { result.now ≡ option_of word.now }
{
    match word.split_once('=') {
        Some((option, _)) => option,
        None => word,
    }
}

// This is an option by its dash or dashes, and there is none such.
#[tactic(auto, unfolding(crate::specs::Unknown::is_unknown, crate::specs::Unknown::is_unknown_behind_one))]
fn is_unknown(option: &str) -> bool
    ensures { result ≡ is_unknown option.now }
{
    match option.as_bytes() {
        [b'-', b'-', ..] => !(is_of_scripts(option)
            || is_of_sweeps(option)
            || is_of_rebuilds(option)
            || is_of_others(option)),
        [b'-', letter, ..] => !is_letter(*letter),
        _ => false,
    }
}

/// The first word that begins as an option that there isn't, before one of two dashes alone.
#[tactic(auto, unfolding(crate::specs::Unknown::unknown_in))]
pub(crate) fn unknown_in(words: &[Name]) -> Option<&str>
    ensures { text_of result ≡ unknown_in words.now }
{
    for word in words {
        if word.text() == "--" {
            return None;
        }
        if is_unknown(option_of(word.text())) {
            return Some(word.text());
        }
    }
    None
}
