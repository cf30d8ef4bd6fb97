//! The lines of a script.
ghost use Rattle.std.specs.Prelude.{◌≡◌, ◌+◌, ◌<◌, ◌≤◌, ◌^◌, None, length, IfOk};
ghost use Rattle.raid_text.specs.Seen.{seen as seen_line, words_left};
ghost use Rattle.graph_text.specs.Answers.{Gives};
ghost use Rattle.raid_script.specs.Asked.{read_sectors};
ghost use Rattle.raid_script.specs.declared.entry.Room.{Room};
ghost use Rattle.raid_script.specs.Format.{line_of, next_of};
ghost use Rattle.raid_script.specs.Steps.{asked_of, plain_of, request_of, joined_in, seen_entry, seen_said};

use crate::codes::{LIMIT, WORD};
use crate::entry::{Entry, Room, Said};
use crate::joining::join_in;
use crate::kinds::item_in;
use crate::words::{next_client, next_word};
use blk_plain::limits;
use graph_text::Book;
use raid_text::{Line, Words};

#[tactic(auto, unfolding(crate::specs::Steps::plain_of))]
fn plain_in(
    book: &Book,
    columns: u32,
    client: u32,
    kind: &[u8],
    words: &mut Words,
    room: &mut Room,
) -> Result<Entry, u8>
    ensures value { Gives (seen_entry room.new) result
        (plain_of book.now columns client kind.now (words_left words.old)) }
    ensures client { IfOk result (λ e. e.client ≡ client) }
    ensures none { IfOk result (λ e. e.join ≡ None) }
{
    let said = item_in(book, columns, kind, words, room)?;
    Ok(Entry {
        client,
        said,
        join: None,
    })
}

#[tactic(auto, unfolding(crate::specs::Steps::asked_of))]
fn asked_in(
    book: &Book,
    columns: u32,
    joins: u32,
    line: u32,
    client: u32,
    kind: &[u8],
    words: &mut Words,
    room: &mut Room,
) -> Result<Entry, u8>
    requires { joins ≤ 64 }
    ensures value { Gives (seen_entry room.new) result
        (asked_of book.now columns joins line client kind.now (words_left words.old)) }
    ensures client { IfOk result (λ e. e.client ≡ client) }
    ensures joins { IfOk result (λ e. joins + length (joined_in e.join) ≤ 64) }
{
    if kind == b"join".as_slice() {
        join_in(book, joins, line, client, words, room)
    } else {
        plain_in(book, columns, client, kind, words, room)
    }
}

#[tactic(auto, unfolding(crate::specs::Steps::request_of))]
fn entry_in(
    book: &Book,
    columns: u32,
    joins: u32,
    line: u32,
    words: &mut Words,
    room: &mut Room,
) -> Result<Entry, u8>
    requires { joins ≤ 64 }
    ensures value { Gives (seen_entry room.new) result
        (request_of book.now columns joins line (words_left words.old)) }
    ensures client { IfOk result (λ e. e.client < 16) }
    ensures joins { IfOk result (λ e. joins + length (joined_in e.join) ≤ 64) }
{
    let client = next_client(words)?;
    let kind = next_word(words)?;
    asked_in(book, columns, joins, line, client, kind, words, room)
}

#[tactic(auto, unfolding(crate::specs::Format::line_of, crate::specs::Steps::request_of, crate::specs::Steps::asked_of, crate::specs::Steps::plain_of))]
fn read_line(
    book: &Book,
    columns: u32,
    joins: u32,
    line: &Line,
    room: &mut Room,
) -> Result<Entry, u8>
    requires { joins ≤ 64 }
    ensures value { Gives (seen_entry room.new) result
        (line_of book.now columns joins (seen_line line.now)) }
    ensures client { IfOk result (λ e. e.client < 16) }
    ensures joins { IfOk result (λ e. joins + length (joined_in e.join) ≤ 64) }
{
    if !line.sound() {
        return Err(WORD);
    }
    entry_in(book, columns, joins, line.at(), &mut line.words(), room)
}

/// How many sectors an item reads, whatever the room has.
pub fn read_sectors(said: &Said) -> u64
    ensures value { (r : Room) → result ≡ read_sectors (seen_said r said.now) }
    ensures small { result < 2 ^ 32 }
{
    match said {
        Said::Read { span, .. } => u64::from(span.count),
        Said::Write { .. } | Said::Writes { .. } | Said::Sync { .. } | Said::Fail { .. } => 0,
    }
}

/// The item of a line, behind so many items whose reads have so many sectors, and so many join lines.
/// What it writes is put into the room.
#[tactic(auto, unfolding(crate::specs::Format::next_of))]
pub fn next_entry(
    book: &Book,
    columns: u32,
    items: usize,
    sectors: u64,
    joins: u32,
    line: &Line,
    room: &mut Room,
) -> Result<Entry, u8>
    requires sectors { sectors ≤ 262144 }
    requires joins { joins ≤ 64 }
    ensures value { Gives (seen_entry room.new) result
        (next_of book.now columns items sectors joins (seen_line line.now)) }
    ensures client { IfOk result (λ e. e.client < 16) }
    ensures joins { IfOk result (λ e. joins + length (joined_in e.join) ≤ 64) }
    ensures few { IfOk result (λ e. items < 65536) }
    ensures bound { IfOk result (λ e. sectors + read_sectors (seen_said room.new e.said) ≤ 262144) }
{
    let entry = read_line(book, columns, joins, line, room)?;
    if items < limits::ITEMS as usize
        && sectors + read_sectors(&entry.said) <= limits::READ_SECTORS as u64
    {
        Ok(entry)
    } else {
        Err(LIMIT)
    }
}
