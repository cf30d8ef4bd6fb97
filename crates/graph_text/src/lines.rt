//! The lines of buffers and returns, behind their first word.
ghost use Rattle.std.specs.Prelude.{◌≡◌};
ghost use Rattle.raid_text.specs.Seen.{words_left};
ghost use Rattle.graph_text.specs.FormatLines.{buffer_of, new_of, return_of};

use crate::codes::WORD;
use crate::steps::{next_number, next_pair, pass_end, pass_index, pass_word};
use graph_mean::{Buf, Ret};
use raid_text::Words;

// The unit behind `new`, or none at the line's end.
#[tactic(auto, unfolding(crate::specs::FormatLines::new_of, text_steps::specs::Steps::after_word))]
fn new_in(words: &mut Words) -> Result<Option<u32>, u8>
    ensures { result ≡ new_of (words_left words.old) }
{
    match words.next() {
        None => Ok(None),
        Some(word) if word == b"new".as_slice() => {
            let unit = next_number(words)?;
            pass_end(words)?;
            Ok(Some(unit))
        }
        Some(_) => Err(WORD),
    }
}

/// The buffer of a line, which has this number.
#[tactic(auto, unfolding(crate::specs::FormatLines::buffer_of))]
pub fn buffer_in(index: u32, words: &mut Words) -> Result<Buf, u8>
    ensures { result ≡ buffer_of index (words_left words.old) }
{
    pass_index(words, index)?;
    pass_word(words, b"stripe")?;
    let stripe = next_number(words)?;
    pass_word(words, b"from")?;
    let from = next_number(words)?;
    pass_word(words, b"count")?;
    let count = next_number(words)?;
    let new_of = new_in(words)?;
    Ok(Buf {
        stripe,
        from,
        count,
        new_of,
    })
}

/// The return of a line.
#[tactic(auto, unfolding(crate::specs::FormatLines::return_of))]
pub fn return_in(words: &mut Words) -> Result<Ret, u8>
    ensures { result ≡ return_of (words_left words.old) }
{
    let (unit, buf) = next_pair(words)?;
    pass_end(words)?;
    Ok(Ret { unit, buf })
}
