//! The texts of a command, opened and read.
ghost use Rattle.std.specs.Prelude.{◌≡◌, [], length, IfOk, IfErr, IsErrOf};
ghost use Rattle.blk_disk.specs.Disk.{Rose};
ghost use Rattle.graph_text.specs.FormatForm.{AreGraphs};
ghost use Rattle.raid_conf.specs.Form.{IsConf};
ghost use Rattle.raid_script.specs.Asked.{AreFew, IsScript};
ghost use Rattle.top_words.specs.Views.{text_of};
ghost use Rattle.top_fetch.specs.Answers.{IsEarly, AnswersAs};
ghost use Rattle.top_bay.specs.Asked.{book_in, conf_in, script_in};
ghost use Rattle.top_fetch.specs.Told.{IsRead};

use graph_text::{Book, BookFault, read_graphs};
use raid_bay::Bay;
use raid_conf::{Conf, ConfFault, read_conf};
use raid_script::{Script, ScriptFault, read_script};
use std::alloc::Global;
use top_fetch::open_text;
use top_status::Status;

/// The configuration of a name, or why there is none.
#[tactic(auto, unfolding(crate::specs::Asked::conf_in))]
pub fn open_conf<B: Bay>(alloc: Global, name: &str, bay: &mut B) -> Result<Conf, Status>
    ensures answer { B.tells
        → AnswersAs (λ conf. conf) result (conf_in (B.text_of bay.old) name.now) }
    ensures conf { IfOk result IsConf }
    ensures kind { IfErr result IsEarly }
    ensures cause { IsErrOf result Status.BayFault → Rose (B.faults bay.old) (B.faults bay.new) }
    ensures read { IsRead B.tells (B.text_of bay.old) (B.text_of bay.new)
        (B.home bay.old) (B.home bay.new) (B.faults bay.old) (B.faults bay.new) }
{
    let text = match open_text(alloc, name, bay) {
        Ok(text) => text,
        Err(status) => return Err(status),
    };
    match read_conf(alloc, &text) {
        Ok(conf) => Ok(conf),
        Err(ConfFault::At { line, code }) => Err(Status::Conf(line, code)),
        Err(ConfFault::Memory) => Err(Status::Memory),
    }
}

fn no_graphs(alloc: Global) -> Result<Book, Status>
    ensures none { IfOk result (λ book. book ≡ []) }
    ensures graphs { IfOk result AreGraphs }
    ensures memory { IfErr result (λ status. status ≡ Status.Memory) }
{
    match read_graphs(alloc, b"".as_slice()) {
        Ok(book) => Ok(book),
        Err(_) => Err(Status::Memory),
    }
}

/// The graphs of the file of that name; none where no file is named.
#[tactic(auto, unfolding(crate::specs::Asked::book_in))]
pub(crate) fn open_book<B: Bay>(
    alloc: Global,
    name: Option<&str>,
    bay: &mut B,
) -> Result<Book, Status>
    ensures answer { B.tells
        → AnswersAs (λ book. book) result (book_in (B.text_of bay.old) (text_of name.entry)) }
    ensures graphs { IfOk result AreGraphs }
    ensures kind { IfErr result IsEarly }
    ensures cause { IsErrOf result Status.BayFault → Rose (B.faults bay.old) (B.faults bay.new) }
    ensures read { IsRead B.tells (B.text_of bay.old) (B.text_of bay.new)
        (B.home bay.old) (B.home bay.new) (B.faults bay.old) (B.faults bay.new) }
{
    let Some(name) = name else {
        return no_graphs(alloc);
    };
    let text = match open_text(alloc, name, bay) {
        Ok(text) => text,
        Err(status) => return Err(status),
    };
    match read_graphs(alloc, &text) {
        Ok(book) => Ok(book),
        Err(BookFault::At { line, code }) => Err(Status::GraphText(line, code)),
        Err(BookFault::Memory) => Err(Status::Memory),
    }
}

/// The script of that name; one without clients where no script is named.
#[tactic(auto, unfolding(crate::specs::Asked::script_in))]
pub(crate) fn open_script<B: Bay>(
    alloc: Global,
    name: Option<&str>,
    book: &Book,
    columns: u32,
    bay: &mut B,
) -> Result<Script, Status>
    ensures answer { B.tells → AnswersAs (λ script. script) result
        (script_in (B.text_of bay.old) (text_of name.entry) book.now columns) }
    ensures asked { IfOk result (λ script. IsScript columns (length book.now) script) }
    ensures few { IfOk result (λ script. AreFew script.clients) }
    ensures kind { IfErr result IsEarly }
    ensures cause { IsErrOf result Status.BayFault → Rose (B.faults bay.old) (B.faults bay.new) }
    ensures read { IsRead B.tells (B.text_of bay.old) (B.text_of bay.new)
        (B.home bay.old) (B.home bay.new) (B.faults bay.old) (B.faults bay.new) }
{
    let Some(name) = name else {
        return Ok(Script::none(alloc));
    };
    let text = match open_text(alloc, name, bay) {
        Ok(text) => text,
        Err(status) => return Err(status),
    };
    match read_script(alloc, &text, book, columns) {
        Ok(script) => Ok(script),
        Err(ScriptFault::At { line, code }) => Err(Status::Script(line, code)),
        Err(ScriptFault::Memory) => Err(Status::Memory),
    }
}
