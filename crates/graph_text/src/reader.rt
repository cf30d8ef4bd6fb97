//! The reader of a whole file.
ghost use Rattle.std.specs.Prelude.{◌≡◌, ◌≤◌, ◌+◌, ◌<◌, codes, length, Some, Ok, Err, IsSome, IfOk};
ghost use Rattle.raid_text.specs.Seen.{seen as seen_line, words_left};
ghost use Rattle.graph_text.specs.Format.{after_line, at_text_end, inside_line, outside_line, placed_line, start_of};
ghost use Rattle.graph_text.specs.Texts.{graphs_of};
ghost use Rattle.graph_text.specs.Steps.{nothing_read};
ghost use Rattle.graph_text.specs.FormatForm.{AreGraphs};
ghost use Rattle.graph_text.specs.Answers.{Gives, GivesBook, GivesRead};

use crate::book::Book;
use crate::codes::{CUT, LIMIT, NAME, WORD};
use crate::draft::Draft;
use crate::fault::{BookFault, LineFault};
use crate::name::{Name, is_name};
use crate::steps::{next_word, pass_end};
use blk_plain::limits;
use graph_mean::Memory;
use raid_text::{Line, Lines, Words};
use std::alloc::Global;
use std::marker::Model;

/// What was read so far: the graphs that have ended, and the one that goes on, if it has a name.
#[derive(Drop)]
struct Reader {
    ended: Book,
    draft: Draft,
    name: Option<Name>,
}

impl Model for Reader {
    ghost use Rattle.std.specs.Prelude.{◌≡◌, ◌<◌, true, is_some, length};
    ghost use Rattle.graph_text.specs.Format.{Read};
    ghost use Rattle.graph_text.specs.BookView.{current_of};

    ghost Value = { Read };

    ghost view = { λ r. record { ended = r.ended; current = current_of r.name r.draft } };

    ghost invariant = { λ r. is_some r.name ≡ true → length r.ended < 64 };
}

impl Reader {
    fn new(alloc: Global) -> Result<Reader, Memory>
        ensures { IfOk result (λ r. r ≡ nothing_read) }
    {
        Ok(Reader {
            ended: Book::new(alloc)?,
            draft: Draft::new(alloc)?,
            name: None,
        })
    }

    // Reads a line between graphs.
    #[tactic(auto, unfolding(crate::specs::Format::outside_line))]
    fn begin(&mut self, first: &[u8], words: &mut Words) -> Result<(), u8>
        ensures { Gives (λ _. self.new) result
            (outside_line self.old.ended first.now (words_left words.old)) }
    {
        if first != b"graph".as_slice() {
            return Err(WORD);
        }
        let name = start_in(&self.ended, words)?;
        self.draft.clear();
        self.name = Some(name);
        Ok(())
    }

    // Reads the line that ends a graph.
    #[tactic(auto, unfolding(crate::specs::Format::inside_line))]
    fn end(&mut self, alloc: Global, words: &mut Words) -> Result<(), LineFault>
        requires { IsSome self.old.current }
        ensures { GivesRead result self.new
            (placed_line self.old.ended self.old.current (codes "end") (words_left words.old)) }
    {
        pass_end(words)?;
        let graph = self.draft.graph(alloc)?;
        if let Some(name) = self.name.take() {
            self.ended.push(name, graph);
        }
        Ok(())
    }

    // Reads a line of a graph.
    #[tactic(auto, unfolding(crate::specs::Format::inside_line))]
    fn go_on(&mut self, alloc: Global, first: &[u8], words: &mut Words) -> Result<(), LineFault>
        requires { IsSome self.old.current }
        ensures { GivesRead result self.new
            (placed_line self.old.ended self.old.current first.now (words_left words.old)) }
    {
        if first == b"buffer".as_slice() {
            self.draft.add_buffer(words)?;
        } else if first == b"node".as_slice() {
            self.draft.add_node(words)?;
        } else if first == b"return".as_slice() {
            self.draft.add_return(words)?;
        } else if first == b"end".as_slice() {
            self.end(alloc, words)?;
        } else {
            return Err(LineFault::Code(WORD));
        }
        Ok(())
    }

    // Reads a line of this first word.
    fn place(&mut self, alloc: Global, first: &[u8], words: &mut Words) -> Result<(), LineFault>
        ensures { GivesRead result self.new
            (placed_line self.old.ended self.old.current first.now (words_left words.old)) }
    {
        if self.name.is_some() {
            self.go_on(alloc, first, words)
        } else {
            self.begin(first, words)?;
            Ok(())
        }
    }

    #[tactic(auto, unfolding(crate::specs::Format::after_line))]
    fn read(&mut self, alloc: Global, line: &Line) -> Result<(), LineFault>
        ensures { GivesRead result self.new (after_line self.old (seen_line line.now)) }
    {
        if !line.sound() {
            return Err(LineFault::Code(WORD));
        }
        let mut words = line.words();
        let first = next_word(&mut words)?;
        self.place(alloc, first, &mut words)
    }

    // The graphs of a text of so many lines, at its end.
    fn finish(self, lines: u32) -> Result<Book, BookFault>
        requires { lines ≤ 16777216 }
        ensures { GivesBook result (at_text_end lines self.ended self.current) }
    {
        if self.name.is_some() {
            Err(BookFault::At {
                line: lines + 1,
                code: CUT,
            })
        } else {
            Ok(self.ended)
        }
    }
}

// The name of a graph that begins behind these.
#[tactic(auto, unfolding(crate::specs::Format::start_of, crate::specs::Format::is_name, crate::specs::Steps::has_name))]
fn start_in(ended: &Book, words: &mut Words) -> Result<Name, u8>
    ensures name { result ≡ start_of ended.now (words_left words.old) }
    ensures few { IfOk result (λ _. length ended.now < 64) }
{
    let word = next_word(words)?;
    if !is_name(word) {
        return Err(WORD);
    }
    if ended.has(word) {
        return Err(NAME);
    }
    pass_end(words)?;
    if ended.count() < limits::GRAPHS {
        Ok(Name::new(word))
    } else {
        Err(LIMIT)
    }
}

/// The graphs of a file, in their order.
///
/// The text has at most 16,777,216 bytes. `At` comes exactly where it isn't in the form of graph
/// files, with the first line that can't be read and the code of its refusal; `Memory` comes where
/// there is none for the graphs. The time it takes goes with the text's length.
pub fn read_graphs(alloc: Global, text: &[u8]) -> Result<Book, BookFault>
    requires { length text.now ≤ 16777216 }
    ensures value { GivesBook result (graphs_of text.now) }

    // At most 64 graphs, whose names differ, each within the limits of a graph.
    ensures graphs { IfOk result (λ book. AreGraphs book) }
{
    let mut reader = Reader::new(alloc)?;
    let mut lines = Lines::new(text);
    while let Some(line) = lines.next() {
        if let Err(fault) = reader.read(alloc, &line) {
            return Err(fault.at(line.at()));
        }
    }
    reader.finish(lines.passed())
}
