//! The line of a rebuild.
ghost use Rattle.std.specs.Prelude.{◌≡◌, ◌<◌, length, slice_get};
ghost use Rattle.eng_cols.specs.Cols.{device_set};
ghost use Rattle.top_labelled.specs.Begun.{IsColumnWithin};
ghost use Rattle.top_labelled.specs.Ran.{onto};
ghost use Rattle.top_labelled.specs.Words.{line_at_end, line_kept, told_at_end, told_on};

use eng_array::{Column, Start};
use eng_cols::Loss;
use lay_core::Layout;
use raid_recon::rebuild_count;
use top_run::{Line, Told};

// The device of a column, where there is the column and it has one.
fn device_on(column: Option<Column>) -> Option<u32>
    ensures { result ≡ device_set column }
{
    match column {
        Some(column) => column.device(),
        None => None,
    }
}

/// The device onto which a rebuild goes, where one is asked that does, of an array with these columns.
pub(crate) fn onto(start: Option<Start>, columns: &[Column]) -> Option<u32>
    ensures { result ≡ onto start columns.now }
{
    match start {
        Some(Start::Fill { device, .. }) => Some(device),
        Some(Start::Resume { column, .. }) => device_on(columns.get(column as usize).copied()),
        Some(Start::Spread { .. }) | None => None,
    }
}

// How far the rebuild of the column came, by what that is as it is kept.
fn told_on<L: Layout>(layout: &L, kept: &[Column], column: u32) -> Told
    requires entries { length kept.now ≡ (L.shape layout.now).columns }
    requires column { column < (L.shape layout.now).columns }
    ensures { result ≡ told_on (L.shape layout.now) kept.now column (slice_get kept.now column) }
{
    match kept.get(column as usize).copied() {
        None | Some(Column::Dead) => Told::Stopped,
        Some(Column::Filling { done, .. }) => Told::Paused(done),
        Some(Column::Live { .. } | Column::Spread) => {
            Told::Done(rebuild_count(layout, kept, column))
        }
    }
}

/// What is told of a rebuild that was asked, and goes onto this device or into the spare places, where
/// a core was closed with these columns.
pub(crate) fn line_kept<L: Layout>(
    layout: &L,
    start: Option<Start>,
    device: Option<u32>,
    kept: &[Column],
) -> Option<Line>
    requires entries { length kept.now ≡ (L.shape layout.now).columns }
    requires within { IsColumnWithin start (length kept.now) }
    ensures { result ≡ line_kept (L.shape layout.now) start device kept.now }
{
    match start {
        None => None,
        Some(start) => {
            let column = start.column();
            let told = told_on(layout, kept, column);
            Some(Line {
                column,
                device,
                told,
            })
        }
    }
}

// The same once the array has ended.
fn told_at_end(lost: Option<Loss>, told: Told) -> Told
    ensures { result ≡ told_at_end lost told }
{
    match lost {
        None => told,
        Some(_) => match told {
            Told::Paused(_) => Told::Stopped,
            Told::Done(_) | Told::Stopped => told,
        },
    }
}

/// The line once the array has ended: where it is lost, no rebuild is paused.
pub(crate) fn line_at_end(lost: Option<Loss>, line: Option<Line>) -> Option<Line>
    ensures { result ≡ line_at_end lost line }
{
    match line {
        Some(line) => Some(Line {
            told: told_at_end(lost, line.told),
            ..line
        }),
        None => None,
    }
}
