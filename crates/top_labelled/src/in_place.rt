//! Whether a rebuild may begin.
ghost use Rattle.std.specs.Prelude.{◌≡◌, ◌&&◌, ◌||◌, not, if◌then◌else◌, None};
ghost use Rattle.eng_cols.specs.Cols.{is_set_filling, passes};
ghost use Rattle.top_labelled.specs.Begun.{is_in_place};
ghost use Rattle.top_labelled.specs.Words.{lives_on};

use eng_array::{Column, Start};

fn lives_on(column: Option<Column>, device: u32) -> bool
    ensures { result ≡ lives_on column device }
{
    match column {
        Some(Column::Live { device: own } | Column::Filling { device: own, .. }) => own == device,
        Some(Column::Dead | Column::Spread) | None => false,
    }
}

fn is_filling(column: Option<Column>) -> bool
    ensures { result ≡ passes is_set_filling column }
{
    match column {
        Some(Column::Filling { .. }) => true,
        Some(Column::Live { .. } | Column::Dead | Column::Spread) | None => false,
    }
}

/// Whether the column that is to be rebuilt is live on the device onto which it is rebuilt, or filling
/// it; and of a rebuild that goes on whether its column is filling.
pub(crate) fn is_in_place(start: Option<Start>, columns: &[Column]) -> bool
    ensures { result ≡ is_in_place start columns.now }
{
    match start {
        Some(Start::Fill { column, device, .. }) => {
            lives_on(columns.get(column as usize).copied(), device)
        }
        Some(Start::Resume { column, .. }) => is_filling(columns.get(column as usize).copied()),
        Some(Start::Spread { .. }) | None => false,
    }
}

/// What begins of a rebuild: none of it where the device onto which it goes failed before, or was
/// the column's own and has failed since.
pub(crate) fn unless_failed(
    failed: bool,
    start: Option<Start>,
    was_in_place: bool,
    is_in_place: bool,
) -> Option<Start>
    ensures { result ≡ (if failed || (was_in_place && not is_in_place) then None else start) }
{
    if failed || (was_in_place && !is_in_place) {
        None
    } else {
        start
    }
}
