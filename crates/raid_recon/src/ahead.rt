//! Rows that are read ahead: a call that reads a unit reads rows behind it, too.
//!
//! Each column has a window of the room, in which the rows of its last read stand one after another. In the least room
//! all columns have the one window, of one row.
ghost use Rattle.std.specs.Prelude.{◌≡◌, ◌≤◌, ◌<◌, ◌*◌};
ghost use Rattle.raid_recon.specs.Ahead.{is_at_hand, rows_apart, rows_in_room, window_at};

/// The sectors that one call reads at most: 64 KiB.
const MOST_SECTORS: u32 = 128;

/// Rows of a column that were read by one call: those behind the first are at hand, and the first isn't any more.
#[derive(Clone, Copy, Debug, PartialEq, Eq)]
pub struct Rows {
    pub first: u32,
    pub end: u32,
}

impl Rows {
    /// None.
    pub(crate) const NONE: Rows = Rows { first: 0, end: 0 };
}

/// Whether the row is at hand.
pub(crate) fn is_at_hand(rows: Rows, row: u32) -> bool
    ensures { result ≡ is_at_hand rows row }
{
    rows.first < row && row < rows.end
}

/// How rows are read ahead: how many rows one call reads at most, and how many rows the windows of two neighbouring
/// columns lie apart. They lie side by side, or all columns have one window, of one row: then none.
#[derive(Clone, Copy, Debug, PartialEq, Eq)]
pub struct ColumnWindows {
    pub most: u32,
    pub apart: u32,
}

impl ColumnWindows {
    /// The one window.
    pub(crate) const SHARED: ColumnWindows = ColumnWindows { most: 1, apart: 0 };
}

/// Where the window of a column begins, counted in rows.
pub(crate) fn window_at(windows: ColumnWindows, column: u32) -> u32
    requires apart { windows.apart ≤ 128 }
    requires column { column < 32 }
    ensures { result ≡ window_at windows column }
{
    column * windows.apart
}

/// The windows, where these bytes are the room for a sum and for them. In a room that has none for a row of each column
/// all have the one.
pub(crate) fn windows_in(bytes: usize, unit_sectors: u32, columns: u32) -> ColumnWindows
    requires some { 1 ≤ unit_sectors }
    requires few { unit_sectors ≤ 128 }
    requires sum { 512 * unit_sectors ≤ bytes }
    requires column { 1 ≤ columns }
    requires columns { columns ≤ 32 }
    ensures most { result.most ≡ rows_in_room unit_sectors columns bytes }
    ensures apart { result.apart ≡ rows_apart unit_sectors columns bytes }
{
    let unit = 512 * unit_sectors as usize;
    let room = (bytes - unit) / (unit * columns as usize);
    let long = (MOST_SECTORS / unit_sectors) as usize;
    let apart = room.min(long) as u32;
    ColumnWindows {
        most: apart.max(1),
        apart,
    }
}
