//! The reader of a whole script.
ghost use Rattle.std.specs.Prelude.{◌≤◌, length, IfOk};
ghost use Rattle.raid_script.specs.Answers.{GivesScript};
ghost use Rattle.raid_script.specs.Asked.{AreFew, IsScript};
ghost use Rattle.raid_script.specs.Texts.{script_of};

use crate::entry::patch_room;
use crate::fault::ScriptFault;
use crate::lines::{next_entry, read_sectors};
use crate::script::Script;
use graph_text::Book;
use raid_text::Lines;
use std::alloc::Global;

/// What a text asks for of an array of so many columns, beside the graphs of a book, which has none
/// where no file was given.
///
/// The text has at most 16,777,216 bytes. `At` comes exactly where it isn't of the form that this
/// crate's page describes, with the first line that can't be read and the code of its refusal;
/// `Memory` comes where there is none for the items. The time it takes goes with the text's length.
pub fn read_script(
    alloc: Global,
    text: &[u8],
    book: &Book,
    columns: u32,
) -> Result<Script, ScriptFault>
    requires { length text.now ≤ 16777216 }
    ensures value { GivesScript (λ s. s) result (script_of book.now columns text.now) }

    // Each item has a block at least, a column of the array, a graph of the book or one that is joined of two; and no two
    // spans of one share a block.
    ensures asked { IfOk result (λ s. IsScript columns (length book.now) s) }
    ensures few { IfOk result (λ s. AreFew s.clients) }
{
    let mut script = Script::empty(alloc)?;
    let mut items = 0;
    let mut sectors = 0;
    let mut room = patch_room();
    let mut lines = Lines::new(text);
    while let Some(line) = lines.next() {
        let joins = script.joins().len() as u32;
        match next_entry(book, columns, items, sectors, joins, &line, &mut room) {
            Ok(entry) => {
                items += 1;
                sectors += read_sectors(&entry.said);
                script.push(entry, &room)?;
            }
            Err(code) => {
                return Err(ScriptFault::At {
                    line: line.at(),
                    code,
                });
            }
        }
    }
    Ok(script)
}
