//! Reading and summing the units of a stripe, and writing its check unit.
ghost use Rattle.std.specs.Prelude.{◌≡◌, ◌≢◌, ◌<◌, ◌≤◌, ◌+◌, ◌*◌, ℕ, length, slice_index, Some, IfOk};
ghost use Rattle.blk_disk.specs.Devices.{Changes};
ghost use Rattle.lay_core.specs.Layout.{data_units};
ghost use Rattle.eng_cols.specs.declared.spot.Spot.{Spot};
ghost use Rattle.eng_cols.specs.Cols.{IsFor};
ghost use Rattle.eng_cols.specs.Seats.{seat};
ghost use Rattle.raid_recon.specs.Ahead.{AreHands, HasWindows, IsInWindow, IsOutside};
ghost use Rattle.raid_recon.specs.Array.{AreSeated, IsComplete};
ghost use Rattle.raid_recon.specs.Units.{IsAhead, LoadsUnit, LoadsUnits, SumsUnits, TestsUnits, WritesCheck};
ghost use Rattle.raid_recon.specs.declared.ahead.Rows.{Rows as HandRows};

use crate::adding::{differ, sum_differs, sum_places};
use crate::ahead::{ColumnWindows, Rows, is_at_hand, window_at};
use crate::devices::{read_into, write_at};
use crate::kind::FailedAt;
use blk_disk::{Disk, Failed, SECTOR};
use eng_cols::Cols;
use lay_core::Layout;
use xor_lanes::xor_into;

// Where a row of the windows begins, in sectors.
fn sector_of(unit_sectors: u32, row: u32) -> usize
    ensures { result ≡ unit_sectors * row }
{
    unit_sectors as usize * row as usize
}

/// Reads a unit, which isn't missing, if it isn't at hand, and rows behind it with it. Says where in the
/// windows it begins.
fn load<L: Layout, D: Disk>(
    layout: &L,
    devices: &mut [Option<D>],
    cols: &Cols,
    stripe: u32,
    unit: u32,
    windows: ColumnWindows,
    hands: &mut [Rows],
    ahead: &mut [u8],
) -> Result<usize, FailedAt>
    requires fit { IsFor (L.shape layout.now) cols.now }
    requires array { AreSeated D.Disk (L.shape layout.now) cols.now.states devices.old }
    requires stripe { stripe < (L.shape layout.now).stripes }
    requires unit { unit < (L.shape layout.now).width }
    requires complete { IsComplete (L.shape layout.now) cols.now.states stripe }
    requires windows { HasWindows (L.shape layout.now) windows (length ahead.old) }
    requires hands { AreHands windows.most hands.old }
    ensures loads { (rows : ℕ → HandRows) → IsAhead D.Disk (L.shape layout.now) windows
        cols.now.states stripe rows devices.old hands.old ahead.old
        → LoadsUnit D.Disk (L.shape layout.now) windows cols.now.states stripe unit rows
        devices.old devices.new hands.new ahead.new result }
    ensures same { Changes D.Disk (λ _ _. ⊥) devices.old devices.new }
    ensures hands { AreHands windows.most hands.new }
    ensures long { length ahead.new ≡ length ahead.old }
    ensures inside { IfOk result (λ from.
        from + 512 * (L.shape layout.now).unit_sectors ≤ length ahead.new) }
    ensures window { (at : Spot) → seat (L.shape layout.now) cols.now.states stripe unit ≡ Some at
        → IfOk result (λ from. IsInWindow (L.shape layout.now) windows at.column from) }
    ensures outside { (at : Spot) → seat (L.shape layout.now) cols.now.states stripe unit ≡ Some at
        → (n : ℕ) → IsOutside (L.shape layout.now) windows at.column n
        → slice_index ahead.new n ≡ slice_index ahead.old n }
{
    let Some(at) = cols.spot(layout, stripe, unit) else {
        unreachable!()
    };
    let sectors = layout.unit_sectors();
    let (column, first) = (at.column, at.row);
    let window = window_at(windows, column);
    let hand = hands[column as usize];
    if is_at_hand(hand, first) {
        return Ok(SECTOR * sector_of(sectors, window + (first - hand.first)));
    }
    let rows = windows.most.min(layout.rows() - first);
    let begin = sector_of(sectors, window);
    match read_into(devices, at, sectors, rows, ahead, begin) {
        Ok(()) => {
            let end = first + rows;
            hands[column as usize] = Rows { first, end };
            Ok(SECTOR * begin)
        }
        Err(Failed) => {
            hands[column as usize] = Rows { first, end: first };
            Err(FailedAt { column })
        }
    }
}

// Reads the first units, so many, of a stripe that lacks none, each into the window of its column, and says where
// in the windows each begins. As the units stand on different columns, no read takes away what was read before.
fn load_units<L: Layout, D: Disk>(
    layout: &L,
    devices: &mut [Option<D>],
    cols: &Cols,
    stripe: u32,
    count: u32,
    windows: ColumnWindows,
    hands: &mut [Rows],
    ahead: &mut [u8],
    places: &mut [usize],
) -> Result<(), FailedAt>
    requires fit { IsFor (L.shape layout.now) cols.now }
    requires array { AreSeated D.Disk (L.shape layout.now) cols.now.states devices.old }
    requires stripe { stripe < (L.shape layout.now).stripes }
    requires count { count ≤ (L.shape layout.now).width }
    requires complete { IsComplete (L.shape layout.now) cols.now.states stripe }
    requires apart { windows.apart ≢ 0 }
    requires windows { HasWindows (L.shape layout.now) windows (length ahead.old) }
    requires hands { AreHands windows.most hands.old }
    requires places { length places.old ≡ 32 }
    ensures loads { (rows : ℕ → HandRows) → IsAhead D.Disk (L.shape layout.now) windows
        cols.now.states stripe rows devices.old hands.old ahead.old
        → LoadsUnits D.Disk (L.shape layout.now) windows cols.now.states stripe count rows
        devices.old devices.new hands.new ahead.new places.new result }
    ensures same { Changes D.Disk (λ _ _. ⊥) devices.old devices.new }
    ensures hands { AreHands windows.most hands.new }
    ensures long { length ahead.new ≡ length ahead.old }
    ensures places { length places.new ≡ 32 }
    ensures inside { IfOk result (λ _. (i : ℕ) → i < count → slice_index places.new i
        + 512 * (L.shape layout.now).unit_sectors ≤ length ahead.new) }
{
    for i in 0..count {
        match load(layout, devices, cols, stripe, i, windows, hands, ahead) {
            Ok(from) => places[i as usize] = from,
            Err(failed) => return Err(failed),
        }
    }
    Ok(())
}

/// Writes the check unit, which isn't missing.
pub(crate) fn write_check<L: Layout, D: Disk>(
    layout: &L,
    devices: &mut [Option<D>],
    cols: &Cols,
    stripe: u32,
    from: &[u8],
) -> Result<(), FailedAt>
    requires fit { IsFor (L.shape layout.now) cols.now }
    requires array { AreSeated D.Disk (L.shape layout.now) cols.now.states devices.old }
    requires stripe { stripe < (L.shape layout.now).stripes }
    requires checks { (L.shape layout.now).checks ≡ 1 }
    requires complete { IsComplete (L.shape layout.now)
        cols.now.states stripe }
    requires long { length from.now ≡ 512 * (L.shape layout.now).unit_sectors }
    ensures { WritesCheck D.Disk (L.shape layout.now) cols.now.states
        stripe devices.old devices.new from.now result }
{
    let Some(at) = cols.spot(layout, stripe, layout.width() - 1) else {
        unreachable!()
    };
    match write_at(devices, at, layout.unit_sectors(), from) {
        Ok(()) => Ok(()),
        Err(Failed) => Err(FailedAt { column: at.column }),
    }
}

// Where all columns have one window, of one row: reads the first unit, and makes `sum` it. It needs no window.
fn load_first<L: Layout, D: Disk>(
    layout: &L,
    devices: &mut [Option<D>],
    cols: &Cols,
    stripe: u32,
    windows: ColumnWindows,
    hands: &mut [Rows],
    ahead: &mut [u8],
    sum: &mut [u8],
) -> Result<(), FailedAt>
    requires fit { IsFor (L.shape layout.now) cols.now }
    requires array { AreSeated D.Disk (L.shape layout.now) cols.now.states devices.old }
    requires stripe { stripe < (L.shape layout.now).stripes }
    requires complete { IsComplete (L.shape layout.now) cols.now.states stripe }
    requires one { windows.apart ≡ 0 }
    requires windows { HasWindows (L.shape layout.now) windows (length ahead.old) }
    requires hands { AreHands windows.most hands.old }
    requires sum { length sum.old ≡ 512 * (L.shape layout.now).unit_sectors }
    ensures sums { (rows : ℕ → HandRows) → IsAhead D.Disk (L.shape layout.now) windows
        cols.now.states stripe rows devices.old hands.old ahead.old
        → SumsUnits D.Disk (L.shape layout.now) windows cols.now.states
        stripe 1 rows devices.old devices.new hands.new ahead.new sum.new result }
    ensures same { Changes D.Disk (λ _ _. ⊥) devices.old devices.new }
    ensures hands { AreHands windows.most hands.new }
    ensures long { length ahead.new ≡ length ahead.old }
    ensures whole { length sum.new ≡ length sum.old }
{
    match load(layout, devices, cols, stripe, 0, windows, hands, sum) {
        Ok(_) => Ok(()),
        Err(failed) => Err(failed),
    }
}

// Reads the data units, and makes `sum` their sum, where all columns have one window: each is added as it is read.
fn sum_in_turn<L: Layout, D: Disk>(
    layout: &L,
    devices: &mut [Option<D>],
    cols: &Cols,
    stripe: u32,
    windows: ColumnWindows,
    hands: &mut [Rows],
    ahead: &mut [u8],
    sum: &mut [u8],
) -> Result<(), FailedAt>
    requires fit { IsFor (L.shape layout.now) cols.now }
    requires array { AreSeated D.Disk (L.shape layout.now) cols.now.states devices.old }
    requires stripe { stripe < (L.shape layout.now).stripes }
    requires complete { IsComplete (L.shape layout.now) cols.now.states stripe }
    requires one { windows.apart ≡ 0 }
    requires windows { HasWindows (L.shape layout.now) windows (length ahead.old) }
    requires hands { AreHands windows.most hands.old }
    requires sum { length sum.old ≡ 512 * (L.shape layout.now).unit_sectors }
    ensures sums { (rows : ℕ → HandRows) → IsAhead D.Disk (L.shape layout.now) windows
        cols.now.states stripe rows devices.old hands.old ahead.old
        → SumsUnits D.Disk (L.shape layout.now) windows cols.now.states
        stripe (data_units (L.shape layout.now)) rows
        devices.old devices.new hands.new ahead.new sum.new result }
    ensures same { Changes D.Disk (λ _ _. ⊥) devices.old devices.new }
    ensures hands { AreHands windows.most hands.new }
    ensures long { length ahead.new ≡ length ahead.old }
{
    let bytes = sum.len();
    match load_first(layout, devices, cols, stripe, windows, hands, ahead, sum) {
        Ok(()) => {}
        Err(failed) => return Err(failed),
    }
    for i in 1..layout.width() - layout.checks() {
        match load(layout, devices, cols, stripe, i, windows, hands, ahead) {
            Ok(from) => xor_into(sum, &ahead[from..from + bytes]),
            Err(failed) => return Err(failed),
        }
    }
    Ok(())
}

// The same where each column has a window of its own: all are read, and then summed at once.
fn sum_apart<L: Layout, D: Disk>(
    layout: &L,
    devices: &mut [Option<D>],
    cols: &Cols,
    stripe: u32,
    windows: ColumnWindows,
    hands: &mut [Rows],
    ahead: &mut [u8],
    sum: &mut [u8],
) -> Result<(), FailedAt>
    requires fit { IsFor (L.shape layout.now) cols.now }
    requires array { AreSeated D.Disk (L.shape layout.now) cols.now.states devices.old }
    requires stripe { stripe < (L.shape layout.now).stripes }
    requires complete { IsComplete (L.shape layout.now) cols.now.states stripe }
    requires apart { windows.apart ≢ 0 }
    requires windows { HasWindows (L.shape layout.now) windows (length ahead.old) }
    requires hands { AreHands windows.most hands.old }
    requires sum { length sum.old ≡ 512 * (L.shape layout.now).unit_sectors }
    ensures sums { (rows : ℕ → HandRows) → IsAhead D.Disk (L.shape layout.now) windows
        cols.now.states stripe rows devices.old hands.old ahead.old
        → SumsUnits D.Disk (L.shape layout.now) windows cols.now.states
        stripe (data_units (L.shape layout.now)) rows
        devices.old devices.new hands.new ahead.new sum.new result }
    ensures same { Changes D.Disk (λ _ _. ⊥) devices.old devices.new }
    ensures hands { AreHands windows.most hands.new }
    ensures long { length ahead.new ≡ length ahead.old }
{
    let count = layout.width() - layout.checks();
    let mut places = [0; 32];
    match load_units(
        layout,
        devices,
        cols,
        stripe,
        count,
        windows,
        hands,
        ahead,
        &mut places,
    ) {
        Ok(()) => {}
        Err(failed) => return Err(failed),
    }
    sum_places(sum, ahead, &places, count as usize);
    Ok(())
}

/// Reads the data units, and makes `sum` their sum.
pub(crate) fn sum_data<L: Layout, D: Disk>(
    layout: &L,
    devices: &mut [Option<D>],
    cols: &Cols,
    stripe: u32,
    windows: ColumnWindows,
    hands: &mut [Rows],
    ahead: &mut [u8],
    sum: &mut [u8],
) -> Result<(), FailedAt>
    requires fit { IsFor (L.shape layout.now) cols.now }
    requires array { AreSeated D.Disk (L.shape layout.now) cols.now.states devices.old }
    requires stripe { stripe < (L.shape layout.now).stripes }
    requires complete { IsComplete (L.shape layout.now) cols.now.states stripe }
    requires windows { HasWindows (L.shape layout.now) windows (length ahead.old) }
    requires hands { AreHands windows.most hands.old }
    requires sum { length sum.old ≡ 512 * (L.shape layout.now).unit_sectors }
    ensures sums { (rows : ℕ → HandRows) → IsAhead D.Disk (L.shape layout.now) windows
        cols.now.states stripe rows devices.old hands.old ahead.old
        → SumsUnits D.Disk (L.shape layout.now) windows cols.now.states
        stripe (data_units (L.shape layout.now)) rows
        devices.old devices.new hands.new ahead.new sum.new result }
    ensures same { Changes D.Disk (λ _ _. ⊥) devices.old devices.new }
    ensures hands { AreHands windows.most hands.new }
    ensures long { length ahead.new ≡ length ahead.old }
{
    if windows.apart == 0 {
        sum_in_turn(layout, devices, cols, stripe, windows, hands, ahead, sum)
    } else {
        sum_apart(layout, devices, cols, stripe, windows, hands, ahead, sum)
    }
}

// Reads all units, makes `sum` the sum of the data units, and answers whether the check unit holds something else,
// where all columns have one window.
fn is_unlike_in_turn<L: Layout, D: Disk>(
    layout: &L,
    devices: &mut [Option<D>],
    cols: &Cols,
    stripe: u32,
    windows: ColumnWindows,
    hands: &mut [Rows],
    ahead: &mut [u8],
    sum: &mut [u8],
) -> Result<bool, FailedAt>
    requires fit { IsFor (L.shape layout.now) cols.now }
    requires array { AreSeated D.Disk (L.shape layout.now) cols.now.states devices.old }
    requires stripe { stripe < (L.shape layout.now).stripes }
    requires checks { (L.shape layout.now).checks ≡ 1 }
    requires complete { IsComplete (L.shape layout.now) cols.now.states stripe }
    requires one { windows.apart ≡ 0 }
    requires windows { HasWindows (L.shape layout.now) windows (length ahead.old) }
    requires hands { AreHands windows.most hands.old }
    requires sum { length sum.old ≡ 512 * (L.shape layout.now).unit_sectors }
    ensures tests { (rows : ℕ → HandRows) → IsAhead D.Disk (L.shape layout.now) windows
        cols.now.states stripe rows devices.old hands.old ahead.old
        → TestsUnits D.Disk (L.shape layout.now) windows cols.now.states stripe rows
        devices.old devices.new hands.new ahead.new sum.new result }
    ensures same { Changes D.Disk (λ _ _. ⊥) devices.old devices.new }
    ensures hands { AreHands windows.most hands.new }
    ensures long { length ahead.new ≡ length ahead.old }
{
    let bytes = sum.len();
    match sum_in_turn(layout, devices, cols, stripe, windows, hands, ahead, sum) {
        Ok(()) => {}
        Err(failed) => return Err(failed),
    }
    match load(
        layout,
        devices,
        cols,
        stripe,
        layout.width() - 1,
        windows,
        hands,
        ahead,
    ) {
        Ok(from) => Ok(differ(sum, &ahead[from..from + bytes])),
        Err(failed) => Err(failed),
    }
}

// The same where each column has a window of its own.
fn is_unlike_apart<L: Layout, D: Disk>(
    layout: &L,
    devices: &mut [Option<D>],
    cols: &Cols,
    stripe: u32,
    windows: ColumnWindows,
    hands: &mut [Rows],
    ahead: &mut [u8],
    sum: &mut [u8],
) -> Result<bool, FailedAt>
    requires fit { IsFor (L.shape layout.now) cols.now }
    requires array { AreSeated D.Disk (L.shape layout.now) cols.now.states devices.old }
    requires stripe { stripe < (L.shape layout.now).stripes }
    requires checks { (L.shape layout.now).checks ≡ 1 }
    requires complete { IsComplete (L.shape layout.now) cols.now.states stripe }
    requires apart { windows.apart ≢ 0 }
    requires windows { HasWindows (L.shape layout.now) windows (length ahead.old) }
    requires hands { AreHands windows.most hands.old }
    requires sum { length sum.old ≡ 512 * (L.shape layout.now).unit_sectors }
    ensures tests { (rows : ℕ → HandRows) → IsAhead D.Disk (L.shape layout.now) windows
        cols.now.states stripe rows devices.old hands.old ahead.old
        → TestsUnits D.Disk (L.shape layout.now) windows cols.now.states stripe rows
        devices.old devices.new hands.new ahead.new sum.new result }
    ensures same { Changes D.Disk (λ _ _. ⊥) devices.old devices.new }
    ensures hands { AreHands windows.most hands.new }
    ensures long { length ahead.new ≡ length ahead.old }
{
    let width = layout.width();
    let mut places = [0; 32];
    match load_units(
        layout,
        devices,
        cols,
        stripe,
        width,
        windows,
        hands,
        ahead,
        &mut places,
    ) {
        Ok(()) => {}
        Err(failed) => return Err(failed),
    }
    Ok(sum_differs(sum, ahead, &places, width as usize - 1))
}

/// Reads all units, makes `sum` the sum of the data units, and answers whether the check unit holds
/// something else.
pub(crate) fn is_out_of_sync<L: Layout, D: Disk>(
    layout: &L,
    devices: &mut [Option<D>],
    cols: &Cols,
    stripe: u32,
    windows: ColumnWindows,
    hands: &mut [Rows],
    ahead: &mut [u8],
    sum: &mut [u8],
) -> Result<bool, FailedAt>
    requires fit { IsFor (L.shape layout.now) cols.now }
    requires array { AreSeated D.Disk (L.shape layout.now) cols.now.states devices.old }
    requires stripe { stripe < (L.shape layout.now).stripes }
    requires checks { (L.shape layout.now).checks ≡ 1 }
    requires complete { IsComplete (L.shape layout.now) cols.now.states stripe }
    requires windows { HasWindows (L.shape layout.now) windows (length ahead.old) }
    requires hands { AreHands windows.most hands.old }
    requires sum { length sum.old ≡ 512 * (L.shape layout.now).unit_sectors }
    ensures tests { (rows : ℕ → HandRows) → IsAhead D.Disk (L.shape layout.now) windows
        cols.now.states stripe rows devices.old hands.old ahead.old
        → TestsUnits D.Disk (L.shape layout.now) windows cols.now.states stripe rows
        devices.old devices.new hands.new ahead.new sum.new result }
    ensures same { Changes D.Disk (λ _ _. ⊥) devices.old devices.new }
    ensures hands { AreHands windows.most hands.new }
    ensures long { length ahead.new ≡ length ahead.old }
{
    if windows.apart == 0 {
        is_unlike_in_turn(layout, devices, cols, stripe, windows, hands, ahead, sum)
    } else {
        is_unlike_apart(layout, devices, cols, stripe, windows, hands, ahead, sum)
    }
}
