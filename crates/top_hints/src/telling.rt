//! The sentence for a status, and the warnings of a component and of an array.
ghost use Rattle.std.specs.Prelude.{◌≡◌, IfOk, option_map};
ghost use Rattle.top_hints.specs.Hint.{doubt_of, hint_of, warning_of};
ghost use Rattle.top_hints.specs.Views.{trouble_seen};

use crate::advice::{command_of, doubt_advice, lost_advice};
use crate::labels::label;
use crate::piece::{Piece, line};
use crate::sentences::{
    at_line, doubtful, in_script, lost, missing, named, no_rebuild, no_spare, out_of_sync, plain,
    rebuilding, small, troubled,
};
use crate::tables::{conf_words, graph_words};
use crate::trouble::Trouble;
use crate::words::{refused, texts_of};
use raid_bay::Name;
use std::alloc::{AllocError, Global};
use top_status::Status;
use top_words::misuse_of;

/// The sentence for the status by which a call with these words ended, with what the system refused where the status is
/// a fault of the bay or of the sink; nothing where it is ok. Behind words of no form stands the help.
///
/// It fails only for want of memory.
pub fn hint(
    alloc: Global,
    words: &[Name],
    status: &Status,
    trouble: Option<Trouble<'_>>,
) -> Result<Vec<u8>, AllocError>
    ensures { IfOk result (λ text. text.items
        ≡ hint_of words.now status.now (option_map trouble_seen trouble.entry)) }
{
    match status {
        Status::Ok => Ok(Vec::new(alloc)),
        Status::Usage(case) => refused(alloc, *case, words),
        Status::Conf(number, code) => {
            at_line(
                alloc,
                texts_of(alloc, words)?.conf,
                *number,
                conf_words(*code),
            )
        }
        Status::Script(number, code) => {
            in_script(alloc, texts_of(alloc, words)?.script, *number, *code)
        }
        Status::GraphText(number, code) => {
            at_line(
                alloc,
                texts_of(alloc, words)?.graphs,
                *number,
                graph_words(*code),
            )
        }
        Status::BayFault => troubled(alloc, trouble, "a file could not be read, opened or locked"),
        Status::NoFile(name) => missing(alloc, name.text()),
        Status::SinkFault => troubled(alloc, trouble, "standard output failed"),
        Status::Lost {
            first,
            second,
            stripe,
        } => {
            let advice = lost_advice(command_of(alloc, words)?);
            lost(
                alloc,
                misuse_of(alloc, words)?,
                advice,
                *first,
                *second,
                *stripe,
            )
        }
        Status::Label {
            column,
            code,
            found,
            wanted,
        } => label(alloc, *column, *code, *found, *wanted),
        Status::Small { column, has, needs } => small(alloc, *column, *has, *needs),
        Status::NotInSync(count) => out_of_sync(alloc, *count),
        Status::NoSpare => no_spare(alloc),
        Status::NoRebuild => no_rebuild(alloc),
        Status::Rebuilding(column) => rebuilding(alloc, *column),
        Status::LongText(name) => named(alloc, name.text(), "longer than 16777216 bytes"),
        Status::Memory => plain(alloc, "not enough memory; nothing was written"),
    }
}

/// The warning that a component failed in a call, for what the system said. It fails only for want of memory.
#[tactic(auto, unfolding(crate::specs::Line::hint_line, crate::specs::Hint::warning_of))]
pub fn warning(alloc: Global, component: Trouble<'_>) -> Result<Vec<u8>, AllocError>
    ensures { IfOk result (λ line. line.items ≡ warning_of (trouble_seen component.entry)) }
{
    line(
        alloc,
        &[
            Piece::Words("warning: "),
            Piece::Shown(component.name),
            Piece::Words(" failed in this call: "),
            Piece::Shown(component.cause),
        ],
    )
}

/// The warning that what a call with these words reads is in doubt: the array wasn't closed in order, and lacks a column,
/// for which the newest label names a device, or not. It fails only for want of memory.
pub fn doubt(alloc: Global, words: &[Name], named: bool) -> Result<Vec<u8>, AllocError>
    ensures { IfOk result (λ line. line.items ≡ doubt_of words.now named) }
{
    doubtful(alloc, doubt_advice(named, command_of(alloc, words)?))
}
