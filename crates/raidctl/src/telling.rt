//! What is told on standard error. Nothing goes by it: what can't be told is passed over.
ghost use Rattle.std.specs.Prelude.{◌≡◌, IfOk, option_map};
ghost use Rattle.raidctl.specs.Telling.{IsSentence, IsWarning, PutsSome};

use raid_bay::{ErrSink, FileBay, Name, OutSink, Sink};
use raid_top::Doubt;
use std::alloc::{AllocError, Global};
use std::io;
use top_hints::{Trouble, doubt, hint, warning};
use top_status::Status;

// Something that the system refused, and why.
struct SystemFault<'a> {
    name: &'a str,
    error: io::Error,
}

// What the system refused, where a status comes of that.
fn fault_of<'a>(status: &Status, bay: &'a FileBay, out: &OutSink) -> Option<SystemFault<'a>> {
    match status {
        Status::BayFault => {
            let fault = bay.fault()?;
            Some(SystemFault {
                name: fault.name.text(),
                error: fault.error,
            })
        }
        Status::SinkFault => Some(SystemFault {
            name: "standard output",
            error: out.cause()?,
        }),
        _ => None,
    }
}

// The sentence for a status, with the words of the system for what it refused.
fn sentence(
    alloc: Global,
    words: &[Name],
    status: &Status,
    fault: Option<SystemFault<'_>>,
) -> Result<Vec<u8>, AllocError>
    ensures { IfOk result (λ text. IsSentence words.now status.now
        (option_map (λ f. f.name.now) fault.entry) text.items) }
{
    match fault {
        None => hint(alloc, words, status, None),
        Some(SystemFault { name, error }) => {
            let cause = format!(in alloc; "{error}")?;
            let cause = cause.as_str();
            hint(alloc, words, status, Some(Trouble { name, cause }))
        }
    }
}

// The warning of a component that failed.
fn warned(alloc: Global, name: &str, error: io::Error) -> Result<Vec<u8>, AllocError>
    ensures { IfOk result (λ text. IsWarning name.now text.items) }
{
    let cause = format!(in alloc; "{error}")?;
    let cause = cause.as_str();
    warning(alloc, Trouble { name, cause })
}

// Puts a text, if there was memory for it.
fn tell<K: Sink>(text: Result<Vec<u8>, AllocError>, err: &mut K)
    ensures { IfOk text (λ text. K.tells →
        PutsSome (K.output err.old) text.items (K.output err.new)) }
{
    if let Ok(text) = text {
        match err.put(&text) {
            Ok(()) | Err(_) => {}
        }
    }
}

/// Tells which components failed in a call that is over, and of the doubt about its array.
pub(crate) fn warn(
    alloc: Global,
    words: &[Name],
    bay: &FileBay,
    doubted: Option<Doubt>,
    err: &mut ErrSink,
) {
    for file in bay.lent() {
        if let Some(error) = file.cause {
            tell(warned(alloc, file.name.text(), error), err);
        }
    }
    if let Some(Doubt { named }) = doubted {
        tell(doubt(alloc, words, named), err);
    }
}

/// Tells what the status of a call that is over means.
pub(crate) fn explain(
    alloc: Global,
    words: &[Name],
    status: &Status,
    bay: &FileBay,
    out: &OutSink,
    err: &mut ErrSink,
) {
    let fault = fault_of(status, bay, out);
    tell(sentence(alloc, words, status, fault), err);
}
