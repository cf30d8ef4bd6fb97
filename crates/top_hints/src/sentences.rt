//! Sentences on texts, columns and stripes.
ghost use Rattle.std.specs.Prelude.{◌≡◌, [], ◌∷◌, IfOk, option_map};
ghost use Rattle.top_hints.specs.Hint.{doubt_hint, line_hint, lost_hint, missing_hint, name_hint, no_rebuild_hint, no_spare_hint, rebuilding_hint, script_hint, small_hint, trouble_hint, unit_hint, units_hint, is_lost, out_of_sync_hint};
ghost use Rattle.top_hints.specs.Line.{hint_line};
ghost use Rattle.top_hints.specs.Views.{advice_seen, trouble_seen};
ghost use Rattle.top_words.specs.Views.{misuse_seen};

use crate::advice::Advice;
use crate::piece::{Piece, line};
use crate::tables::script_words;
use crate::trouble::Trouble;
use std::alloc::{AllocError, Global};
use top_words::Misuse;

/// These words alone.
#[tactic(auto, unfolding(crate::specs::Line::hint_line))]
pub(crate) fn plain(alloc: Global, words: &'static str) -> Result<Vec<u8>, AllocError>
    ensures { IfOk result (λ line. line.items ≡ hint_line (words.entry.now ∷ [])) }
{
    line(alloc, &[Piece::Words(words)])
}

/// These words on something of a name.
#[tactic(auto, unfolding(crate::specs::Line::hint_line))]
pub(crate) fn named(alloc: Global, name: &str, words: &'static str) -> Result<Vec<u8>, AllocError>
    ensures { IfOk result (λ line. line.items ≡ name_hint name.now words.entry.now) }
{
    line(
        alloc,
        &[Piece::Shown(name), Piece::Words(": "), Piece::Words(words)],
    )
}

/// These words on a line of a text.
#[tactic(auto, unfolding(crate::specs::Line::hint_line, crate::specs::Hint::line_hint))]
pub(crate) fn at_line(
    alloc: Global,
    name: &str,
    number: u32,
    words: &'static str,
) -> Result<Vec<u8>, AllocError>
    ensures { IfOk result (λ line. line.items ≡ line_hint name.now number words.entry.now) }
{
    line(
        alloc,
        &[
            Piece::Shown(name),
            Piece::Words(", line "),
            Piece::Number(u64::from(number)),
            Piece::Words(": "),
            Piece::Words(words),
        ],
    )
}

/// A line of a script, or its trace.
#[tactic(auto, unfolding(crate::specs::Hint::script_hint))]
pub(crate) fn in_script(
    alloc: Global,
    name: &str,
    number: u32,
    code: u8,
) -> Result<Vec<u8>, AllocError>
    ensures { IfOk result (λ line. line.items ≡ script_hint name.now number code) }
{
    if code == 8 {
        named(
            alloc,
            name,
            "the trace might have more than 1048576 events: fewer items, or no --trace",
        )
    } else {
        at_line(alloc, name, number, script_words(code))
    }
}

/// What the system refused, or these words where that isn't known.
#[tactic(auto, unfolding(crate::specs::Line::hint_line, crate::specs::Hint::trouble_hint))]
pub(crate) fn troubled(
    alloc: Global,
    trouble: Option<Trouble<'_>>,
    words: &'static str,
) -> Result<Vec<u8>, AllocError>
    ensures { IfOk result (λ line. line.items
        ≡ trouble_hint (option_map trouble_seen trouble.entry) words.entry.now) }
{
    match trouble {
        Some(Trouble { name, cause }) => line(
            alloc,
            &[Piece::Shown(name), Piece::Words(": "), Piece::Shown(cause)],
        ),
        None => plain(alloc, words),
    }
}

// That the array is lost; a call that fails a component is refused where it would be.
fn is_lost(misuse: Option<Misuse<'_>>) -> &'static str
    ensures { result.now ≡ is_lost (option_map misuse_seen misuse.entry) }
{
    match misuse {
        Some(Misuse::Component { .. }) =>
            "the array is lost, or would be without the component: stripe ",
        None
        | Some(Misuse::Unknown { .. } | Misuse::NoForm | Misuse::NoAction | Misuse::ManyActions)
        | Some(Misuse::Apart { .. } | Misuse::Number { .. } | Misuse::Queue { .. })
        | Some(Misuse::Rows { .. }) => "the array is lost: stripe ",
    }
}

// A stripe that lacks a unit, where there is no check unit.
#[tactic(auto, unfolding(crate::specs::Line::hint_line, crate::specs::Hint::unit_hint))]
fn lost_unit(
    alloc: Global,
    misuse: Option<Misuse<'_>>,
    advice: Advice<'_>,
    column: u32,
    stripe: u32,
) -> Result<Vec<u8>, AllocError>
    ensures { IfOk result (λ line. line.items
        ≡ unit_hint (option_map misuse_seen misuse.entry) (advice_seen advice.entry) column
        stripe) }
{
    line(
        alloc,
        &[
            Piece::Words(is_lost(misuse)),
            Piece::Number(u64::from(stripe)),
            Piece::Words(" lacks the unit of column "),
            Piece::Number(u64::from(column)),
            Piece::Words(advice.before),
            Piece::Shown(advice.conf),
            Piece::Words(advice.behind),
            Piece::Words("; see docs/ADMIN.md, 'A lost array'"),
        ],
    )
}

// A stripe that lacks two units.
#[tactic(auto, unfolding(crate::specs::Line::hint_line, crate::specs::Hint::units_hint))]
fn lost_units(
    alloc: Global,
    misuse: Option<Misuse<'_>>,
    advice: Advice<'_>,
    first: u32,
    second: u32,
    stripe: u32,
) -> Result<Vec<u8>, AllocError>
    ensures { IfOk result (λ line. line.items
        ≡ units_hint (option_map misuse_seen misuse.entry) (advice_seen advice.entry) first second
        stripe) }
{
    line(
        alloc,
        &[
            Piece::Words(is_lost(misuse)),
            Piece::Number(u64::from(stripe)),
            Piece::Words(" lacks the units of columns "),
            Piece::Number(u64::from(first)),
            Piece::Words(" and "),
            Piece::Number(u64::from(second)),
            Piece::Words(advice.before),
            Piece::Shown(advice.conf),
            Piece::Words(advice.behind),
            Piece::Words("; see docs/ADMIN.md, 'A lost array'"),
        ],
    )
}

/// A stripe that lacks too much: two units, or one where both columns are the same. What the words name is what
/// `misuse_of` says of them; then where to begin.
#[tactic(auto, unfolding(crate::specs::Hint::lost_hint))]
pub(crate) fn lost(
    alloc: Global,
    misuse: Option<Misuse<'_>>,
    advice: Advice<'_>,
    first: u32,
    second: u32,
    stripe: u32,
) -> Result<Vec<u8>, AllocError>
    ensures { IfOk result (λ line. line.items
        ≡ lost_hint (option_map misuse_seen misuse.entry) (advice_seen advice.entry) first second
        stripe) }
{
    if first == second {
        lost_unit(alloc, misuse, advice, first, stripe)
    } else {
        lost_units(alloc, misuse, advice, first, second, stripe)
    }
}

/// An array that isn't clean and lacks a column.
#[tactic(auto, unfolding(crate::specs::Line::hint_line, crate::specs::Hint::doubt_hint))]
pub(crate) fn doubtful(alloc: Global, advice: Advice<'_>) -> Result<Vec<u8>, AllocError>
    ensures { IfOk result (λ line. line.items ≡ doubt_hint (advice_seen advice.entry)) }
{
    line(
        alloc,
        &[
            Piece::Words(
                "warning: the array wasn't closed in order, and lacks a column: in stripes that were being written, what is read in the place of its units may be wrong, also of blocks that nobody wrote",
            ),
            Piece::Words(advice.before),
            Piece::Shown(advice.conf),
            Piece::Words(advice.behind),
            Piece::Words("; see docs/ADMIN.md, 'A lost array'"),
        ],
    )
}

/// A disk that is too small.
#[tactic(auto, unfolding(crate::specs::Line::hint_line, crate::specs::Hint::small_hint))]
pub(crate) fn small(alloc: Global, column: u32, has: u64, needs: u64) -> Result<Vec<u8>, AllocError>
    ensures { IfOk result (λ line. line.items ≡ small_hint column has needs) }
{
    line(
        alloc,
        &[
            Piece::Words("the disk of column "),
            Piece::Number(u64::from(column)),
            Piece::Words(" has "),
            Piece::Number(has),
            Piece::Words(" sectors, and "),
            Piece::Number(needs),
            Piece::Words(" are needed"),
        ],
    )
}

/// Stripes that aren't in sync.
#[tactic(auto, unfolding(crate::specs::Line::hint_line, crate::specs::Hint::out_of_sync_hint))]
pub(crate) fn out_of_sync(alloc: Global, count: u64) -> Result<Vec<u8>, AllocError>
    ensures { IfOk result (λ line. line.items ≡ out_of_sync_hint count) }
{
    line(
        alloc,
        &[
            Piece::Words("stripes that aren't in sync: "),
            Piece::Number(count),
            Piece::Words("; -P rewrites their check units from the data"),
        ],
    )
}

/// There is nothing of that name.
pub(crate) fn missing(alloc: Global, name: &str) -> Result<Vec<u8>, AllocError>
    ensures { IfOk result (λ line. line.items ≡ missing_hint name.now) }
{
    named(
        alloc,
        name,
        "no such file; names are relative to the working directory, not to CONF",
    )
}

/// There is no spare to rebuild onto.
#[tactic(auto, unfolding(crate::specs::Hint::no_spare_hint))]
pub(crate) fn no_spare(alloc: Global) -> Result<Vec<u8>, AllocError>
    ensures { IfOk result (λ line. line.items ≡ no_spare_hint) }
{
    plain(
        alloc,
        "no free spare (each is used, failed or small: see -s); -f fails the column alone, -R rebuilds it on its own disk",
    )
}

/// No column is being rebuilt that could be gone on with.
#[tactic(auto, unfolding(crate::specs::Hint::no_rebuild_hint))]
pub(crate) fn no_rebuild(alloc: Global) -> Result<Vec<u8>, AllocError>
    ensures { IfOk result (λ line. line.items ≡ no_rebuild_hint) }
{
    plain(
        alloc,
        "no column is being rebuilt (see -s): there is nothing to resume; -F or -R begins a rebuild",
    )
}

/// Another column is being rebuilt.
#[tactic(auto, unfolding(crate::specs::Line::hint_line, crate::specs::Hint::rebuilding_hint))]
pub(crate) fn rebuilding(alloc: Global, column: u32) -> Result<Vec<u8>, AllocError>
    ensures { IfOk result (λ line. line.items ≡ rebuilding_hint column) }
{
    line(
        alloc,
        &[
            Piece::Words("column "),
            Piece::Number(u64::from(column)),
            Piece::Words(
                " is being rebuilt: --resume goes on with it, before another can be begun",
            ),
        ],
    )
}
