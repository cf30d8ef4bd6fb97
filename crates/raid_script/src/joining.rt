//! The item of a line that joins two graphs of the file, behind its client.
ghost use Rattle.std.specs.Prelude.{◌≡◌, ◌+◌, ◌≤◌, length, IfOk};
ghost use Rattle.raid_text.specs.Seen.{words_left};
ghost use Rattle.graph_text.specs.Answers.{Gives};
ghost use Rattle.raid_script.specs.Answers.{seen_halves};
ghost use Rattle.raid_script.specs.Steps.{joined_in, seen_entry};
ghost use Rattle.raid_script.specs.Format.{halves_of, join_of};

use crate::codes::{JOINED, SHARED};
use crate::entry::{Entry, Room, Said};
use crate::join::{JOINS, Join};
use crate::patches::{next_patch, two_patches};
use crate::words::{next_graph, pass_end};
use blk_plain::{Patch, are_apart};
use graph_text::Book;
use raid_text::Words;

// The two graphs by their numbers in the book, and what is written by each.
#[derive(Clone, Copy)]
struct Halves {
    first: u32,
    one: Patch,
    second: u32,
    other: Patch,
}

// NAME FIRST COUNT PATTERN, twice.
#[tactic(auto, unfolding(crate::specs::Format::halves_of))]
fn halves_in(book: &Book, words: &mut Words) -> Result<Halves, u8>
    ensures value { Gives seen_halves result (halves_of book.now (words_left words.old)) }
    ensures one { IfOk result (λ h. 1 ≤ h.one.span.count) }
    ensures other { IfOk result (λ h. 1 ≤ h.other.span.count) }
{
    let first = next_graph(book, words)?;
    let one = next_patch(words)?;
    let second = next_graph(book, words)?;
    let other = next_patch(words)?;
    pass_end(words)?;
    Ok(Halves {
        first,
        one,
        second,
        other,
    })
}

/// What stands behind `join` in this line, behind so many join lines. Its two patches are put into the
/// room.
#[tactic(auto, unfolding(crate::specs::Format::join_of))]
pub fn join_in(
    book: &Book,
    joins: u32,
    line: u32,
    client: u32,
    words: &mut Words,
    room: &mut Room,
) -> Result<Entry, u8>
    ensures value { Gives (seen_entry room.new) result
        (join_of book.now joins line client (words_left words.old)) }
    ensures client { IfOk result (λ e. e.client ≡ client) }
    ensures few { IfOk result (λ e. joins + length (joined_in e.join) ≤ 64) }
{
    let halves = halves_in(book, words)?;
    let patches = two_patches(halves.one, halves.other);
    if !are_apart(&patches) {
        return Err(SHARED);
    }
    if joins >= JOINS {
        return Err(JOINED);
    }
    room.patches = patches;
    Ok(Entry {
        client,
        said: Said::Writes {
            graph: Some(book.count() + joins),
        },
        join: Some(Join {
            line,
            first: halves.first,
            second: halves.second,
        }),
    })
}
