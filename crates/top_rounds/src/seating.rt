//! What stands for each column in a label.
ghost use Rattle.std.specs.Prelude.{◌≡◌, ◌<◌, ◌≤◌, ◌+◌, length, All};
ghost use Rattle.top_rounds.specs.Labels.{IsNumbered, device_seat, done_in, filling_from, given_up, seat_of, seats_of, unless_filling};

use eng_cols::Column;

fn device_seat(columns: usize, device: u32) -> u8
    requires columns { columns ≤ 32 }
    requires device { device < columns + 8 }
    ensures { result ≡ device_seat columns device }
{
    let device = device as usize;
    if device < columns {
        0
    } else {
        (device + 1 - columns) as u8
    }
}

fn seat(columns: usize, column: Column) -> u8
    requires columns { columns ≤ 32 }
    requires numbered { IsNumbered columns column }
    ensures { result ≡ seat_of columns column }
{
    match column {
        Column::Live { device } | Column::Filling { device, .. } => device_seat(columns, device),
        Column::Dead => 255,
        Column::Spread => 254,
    }
}

/// The seats of all columns, as a label of the array holds them: 0 of the column's own device, 1 and
/// on of a spare, 254 of spread space, 255 of a dead column; and 0 past the last column.
pub fn seats(columns: &[Column]) -> [u8; 32]
    requires columns { length columns.now ≤ 32 }
    requires numbered { All (IsNumbered (length columns.now)) columns.now }
    ensures { result ≡ seats_of columns.now }
{
    let mut seats = [0; 32];
    for c in 0..columns.len() {
        seats[c] = seat(columns.len(), columns[c]);
    }
    seats
}

// The number of the column that is filling plus 1, and how many of its stripes are done; 0 and 0 where none is.
pub(crate) fn filling(columns: &[Column]) -> (u32, u32)
    requires { length columns.now ≤ 32 }
    ensures { result ≡ (filling_from columns.now 0, done_in columns.now) }
{
    for column in 0..columns.len() as u32 {
        if let Column::Filling { done, .. } = columns[column as usize] {
            return (column + 1, done);
        }
    }
    (0, 0)
}

fn unless_filling(column: Column) -> Column
    ensures { result ≡ unless_filling column }
{
    match column {
        Column::Filling { .. } => Column::Dead,
        column => column,
    }
}

/// The columns of an array that is lost: one that was filling is dead.
pub fn give_up(columns: &mut [Column])
    ensures { columns.new ≡ given_up columns.old }
{
    for c in 0..columns.len() {
        columns[c] = unless_filling(columns[c]);
    }
}
