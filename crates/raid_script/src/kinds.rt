//! The items of a line, behind its client.
ghost use Rattle.raid_text.specs.Seen.{words_left};
ghost use Rattle.graph_text.specs.Answers.{Gives};
ghost use Rattle.raid_script.specs.declared.entry.Room.{Room};
ghost use Rattle.raid_script.specs.Format.{item_of, run_of};
ghost use Rattle.raid_script.specs.Steps.{fail_of, read_of, sync_of, use_of, write_of, writes_of, seen_said};

use crate::codes::{SHARED, WORD};
use crate::entry::{Room, Said};
use crate::patches::patches_in;
use crate::words::{
    next_column, next_graph, next_number, next_pattern, next_span, next_word, pass_end,
};
use blk_plain::are_apart;
use graph_text::Book;
use raid_text::Words;

// FIRST COUNT PATTERN, which is put into the room.
#[tactic(auto, unfolding(crate::specs::Steps::write_of))]
fn write_in(graph: Option<u32>, words: &mut Words, room: &mut Room) -> Result<Said, u8>
    ensures { Gives (seen_said room.new) result (write_of graph (words_left words.old)) }
{
    let span = next_span(words)?;
    let pattern = next_pattern(words)?;
    pass_end(words)?;
    room.pattern = pattern;
    Ok(Said::Write { span, graph })
}

// FIRST COUNT PATTERN, one to eight times, put into the room.
#[tactic(auto, unfolding(crate::specs::Steps::writes_of))]
fn writes_in(graph: Option<u32>, words: &mut Words, room: &mut Room) -> Result<Said, u8>
    ensures { Gives (seen_said room.new) result (writes_of graph (words_left words.old)) }
{
    let patches = patches_in(words)?;
    if !are_apart(&patches) {
        return Err(SHARED);
    }
    room.patches = patches;
    Ok(Said::Writes { graph })
}

// FIRST COUNT.
#[tactic(auto, unfolding(crate::specs::Steps::read_of))]
fn read_in(graph: Option<u32>, words: &mut Words) -> Result<Said, u8>
    ensures { (r : Room) → Gives (seen_said r) result (read_of graph (words_left words.old)) }
{
    let span = next_span(words)?;
    pass_end(words)?;
    Ok(Said::Read { span, graph })
}

// STRIPE.
#[tactic(auto, unfolding(crate::specs::Steps::sync_of))]
fn sync_in(words: &mut Words) -> Result<Said, u8>
    ensures { (r : Room) → Gives (seen_said r) result (sync_of (words_left words.old)) }
{
    let stripe = next_number(words)?;
    pass_end(words)?;
    Ok(Said::Sync { stripe })
}

// COLUMN.
#[tactic(auto, unfolding(crate::specs::Steps::fail_of))]
fn fail_in(columns: u32, words: &mut Words) -> Result<Said, u8>
    ensures { (r : Room) → Gives (seen_said r) result (fail_of columns (words_left words.old)) }
{
    let column = next_column(columns, words)?;
    pass_end(words)?;
    Ok(Said::Fail { column })
}

// What stands behind `write`, `writes` or `read`.
#[tactic(auto, unfolding(crate::specs::Format::run_of, crate::specs::Steps::write_of, crate::specs::Steps::writes_of, crate::specs::Steps::read_of))]
fn run_in(graph: Option<u32>, kind: &[u8], words: &mut Words, room: &mut Room) -> Result<Said, u8>
    ensures { Gives (seen_said room.new) result (run_of graph kind.now (words_left words.old)) }
{
    if kind == b"write".as_slice() {
        write_in(graph, words, room)
    } else if kind == b"writes".as_slice() {
        writes_in(graph, words, room)
    } else if kind == b"read".as_slice() {
        read_in(graph, words)
    } else {
        Err(WORD)
    }
}

// NAME, and a write or a read behind it.
#[tactic(auto, unfolding(crate::specs::Steps::use_of))]
fn use_in(book: &Book, words: &mut Words, room: &mut Room) -> Result<Said, u8>
    ensures { Gives (seen_said room.new) result (use_of book.now (words_left words.old)) }
{
    let graph = next_graph(book, words)?;
    let kind = next_word(words)?;
    run_in(Some(graph), kind, words, room)
}

/// What stands behind the word that says what kind of item it is.
#[tactic(auto, unfolding(crate::specs::Format::item_of, crate::specs::Steps::sync_of, crate::specs::Steps::fail_of, crate::specs::Steps::use_of))]
pub fn item_in(
    book: &Book,
    columns: u32,
    kind: &[u8],
    words: &mut Words,
    room: &mut Room,
) -> Result<Said, u8>
    ensures { Gives (seen_said room.new) result
        (item_of book.now columns kind.now (words_left words.old)) }
{
    if kind == b"sync".as_slice() {
        sync_in(words)
    } else if kind == b"fail".as_slice() {
        fail_in(columns, words)
    } else if kind == b"use".as_slice() {
        use_in(book, words, room)
    } else {
        run_in(None, kind, words, room)
    }
}
