//! What becomes of a column that was being rebuilt.
ghost use Rattle.std.specs.Prelude.{◌≡◌, ◌<◌, length, slice_get, slice_set, Some};
ghost use Rattle.top_serve.specs.Judged.{judged};

use eng_array::Column;

// The column as it is once it was judged.
fn after(column: Column, whole: bool) -> Column
    ensures { result ≡ judged whole (Some column) }
{
    match column {
        Column::Filling { device, done } => {
            if whole {
                Column::Live { device }
            } else {
                Column::Filling { device, done }
            }
        }
        Column::Spread => { if whole { Column::Spread } else { Column::Dead } }
        Column::Live { device } => Column::Live { device },
        Column::Dead => Column::Dead,
    }
}

/// Judges a column that was being rebuilt: one that was to be spread and isn't whole is dead, and one
/// that was filling and is whole is live.
pub(crate) fn judge(columns: &mut [Column], column: u32, whole: bool)
    requires { column < length columns.old }
    ensures { columns.new
        ≡ slice_set columns.old column (judged whole (slice_get columns.old column)) }
{
    let was = columns[column as usize];
    columns[column as usize] = after(was, whole);
}
