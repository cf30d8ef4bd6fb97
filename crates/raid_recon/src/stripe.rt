//! One stripe's turn in a sweep.
ghost use Rattle.std.specs.Prelude.{◌≡◌, ◌<◌, ◌*◌, ℕ, length};
ghost use Rattle.eng_cols.specs.Cols.{IsFor};
ghost use Rattle.raid_recon.specs.Ahead.{AreHands, HasWindows};
ghost use Rattle.raid_recon.specs.Array.{AreSeated, IsComplete};
ghost use Rattle.raid_recon.specs.Units.{IsAhead, Visits};
ghost use Rattle.raid_recon.specs.declared.ahead.Rows.{Rows as HandRows};
ghost use Rattle.raid_recon.specs.declared.kind.Sweep.TheVariants as sweep;

use crate::ahead::{ColumnWindows, Rows};
use crate::kind::{FailedAt, Sweep};
use crate::place::is_complete;
use crate::sums::{is_out_of_sync, sum_data, write_check};
use blk_disk::Disk;
use eng_cols::Cols;
use lay_core::Layout;

fn check_stripe<L: Layout, D: Disk>(
    layout: &L,
    devices: &mut [Option<D>],
    cols: &Cols,
    stripe: u32,
    windows: ColumnWindows,
    hands: &mut [Rows],
    ahead: &mut [u8],
    sum: &mut [u8],
) -> Result<bool, FailedAt>
    requires fit { IsFor (L.shape layout.now) cols.now }
    requires array { AreSeated D.Disk (L.shape layout.now) cols.now.states devices.old }
    requires stripe { stripe < (L.shape layout.now).stripes }
    requires checks { (L.shape layout.now).checks ≡ 1 }
    requires complete { IsComplete (L.shape layout.now)
        cols.now.states stripe }
    requires sum { length sum.old ≡ 512 * (L.shape layout.now).unit_sectors }
    requires windows { HasWindows (L.shape layout.now) windows (length ahead.old) }
    requires hands { AreHands windows.most hands.old }
    ensures visits { (rows : ℕ → HandRows) → IsAhead D.Disk (L.shape layout.now) windows
        cols.now.states stripe rows devices.old hands.old ahead.old
        → Visits D.Disk sweep.Check (L.shape layout.now) windows cols.now.states stripe rows
        devices.old devices.new hands.new ahead.new result }
    ensures hands { AreHands windows.most hands.new }
    ensures long { length ahead.new ≡ length ahead.old }
{
    is_out_of_sync(layout, devices, cols, stripe, windows, hands, ahead, sum)
}

// Makes the stripe's check unit the sum of its data units, if it isn't.
fn sync_stripe<L: Layout, D: Disk>(
    layout: &L,
    devices: &mut [Option<D>],
    cols: &Cols,
    stripe: u32,
    windows: ColumnWindows,
    hands: &mut [Rows],
    ahead: &mut [u8],
    sum: &mut [u8],
) -> Result<bool, FailedAt>
    requires fit { IsFor (L.shape layout.now) cols.now }
    requires array { AreSeated D.Disk (L.shape layout.now) cols.now.states devices.old }
    requires stripe { stripe < (L.shape layout.now).stripes }
    requires checks { (L.shape layout.now).checks ≡ 1 }
    requires complete { IsComplete (L.shape layout.now)
        cols.now.states stripe }
    requires sum { length sum.old ≡ 512 * (L.shape layout.now).unit_sectors }
    requires windows { HasWindows (L.shape layout.now) windows (length ahead.old) }
    requires hands { AreHands windows.most hands.old }
    ensures visits { (rows : ℕ → HandRows) → IsAhead D.Disk (L.shape layout.now) windows
        cols.now.states stripe rows devices.old hands.old ahead.old
        → Visits D.Disk sweep.Sync (L.shape layout.now) windows cols.now.states stripe rows
        devices.old devices.new hands.new ahead.new result }
    ensures hands { AreHands windows.most hands.new }
    ensures long { length ahead.new ≡ length ahead.old }
{
    match is_out_of_sync(layout, devices, cols, stripe, windows, hands, ahead, sum) {
        Ok(true) => {}
        Ok(false) => return Ok(false),
        Err(failed) => return Err(failed),
    }
    match write_check(layout, devices, cols, stripe, sum) {
        Ok(()) => Ok(true),
        Err(failed) => Err(failed),
    }
}

// Makes the stripe's check unit the sum of its data units, whatever it holds.
fn init_stripe<L: Layout, D: Disk>(
    layout: &L,
    devices: &mut [Option<D>],
    cols: &Cols,
    stripe: u32,
    windows: ColumnWindows,
    hands: &mut [Rows],
    ahead: &mut [u8],
    sum: &mut [u8],
) -> Result<bool, FailedAt>
    requires fit { IsFor (L.shape layout.now) cols.now }
    requires array { AreSeated D.Disk (L.shape layout.now) cols.now.states devices.old }
    requires stripe { stripe < (L.shape layout.now).stripes }
    requires checks { (L.shape layout.now).checks ≡ 1 }
    requires complete { IsComplete (L.shape layout.now)
        cols.now.states stripe }
    requires sum { length sum.old ≡ 512 * (L.shape layout.now).unit_sectors }
    requires windows { HasWindows (L.shape layout.now) windows (length ahead.old) }
    requires hands { AreHands windows.most hands.old }
    ensures visits { (rows : ℕ → HandRows) → IsAhead D.Disk (L.shape layout.now) windows
        cols.now.states stripe rows devices.old hands.old ahead.old
        → Visits D.Disk sweep.Init (L.shape layout.now) windows cols.now.states stripe rows
        devices.old devices.new hands.new ahead.new result }
    ensures hands { AreHands windows.most hands.new }
    ensures long { length ahead.new ≡ length ahead.old }
{
    match sum_data(layout, devices, cols, stripe, windows, hands, ahead, sum) {
        Ok(()) => {}
        Err(failed) => return Err(failed),
    }
    match write_check(layout, devices, cols, stripe, sum) {
        Ok(()) => Ok(true),
        Err(failed) => Err(failed),
    }
}

// The turn of a stripe that lacks no unit.
fn visit<L: Layout, D: Disk>(
    kind: Sweep,
    layout: &L,
    devices: &mut [Option<D>],
    cols: &Cols,
    stripe: u32,
    windows: ColumnWindows,
    hands: &mut [Rows],
    ahead: &mut [u8],
    sum: &mut [u8],
) -> Result<bool, FailedAt>
    requires fit { IsFor (L.shape layout.now) cols.now }
    requires array { AreSeated D.Disk (L.shape layout.now) cols.now.states devices.old }
    requires stripe { stripe < (L.shape layout.now).stripes }
    requires checks { (L.shape layout.now).checks ≡ 1 }
    requires complete { IsComplete (L.shape layout.now)
        cols.now.states stripe }
    requires sum { length sum.old ≡ 512 * (L.shape layout.now).unit_sectors }
    requires windows { HasWindows (L.shape layout.now) windows (length ahead.old) }
    requires hands { AreHands windows.most hands.old }
    ensures visits { (rows : ℕ → HandRows) → IsAhead D.Disk (L.shape layout.now) windows
        cols.now.states stripe rows devices.old hands.old ahead.old
        → Visits D.Disk kind (L.shape layout.now) windows cols.now.states stripe rows
        devices.old devices.new hands.new ahead.new result }
    ensures hands { AreHands windows.most hands.new }
    ensures long { length ahead.new ≡ length ahead.old }
{
    match kind {
        Sweep::Check => check_stripe(layout, devices, cols, stripe, windows, hands, ahead, sum),
        Sweep::Sync => sync_stripe(layout, devices, cols, stripe, windows, hands, ahead, sum),
        Sweep::Init => init_stripe(layout, devices, cols, stripe, windows, hands, ahead, sum),
    }
}

/// The stripe's turn, and whether it counts. One that lacks a unit is left alone.
pub(crate) fn sweep_stripe<L: Layout, D: Disk>(
    kind: Sweep,
    layout: &L,
    devices: &mut [Option<D>],
    cols: &Cols,
    stripe: u32,
    windows: ColumnWindows,
    hands: &mut [Rows],
    ahead: &mut [u8],
    sum: &mut [u8],
) -> Result<bool, FailedAt>
    requires fit { IsFor (L.shape layout.now) cols.now }
    requires array { AreSeated D.Disk (L.shape layout.now) cols.now.states devices.old }
    requires stripe { stripe < (L.shape layout.now).stripes }
    requires checks { (L.shape layout.now).checks ≡ 1 }
    requires sum { length sum.old ≡ 512 * (L.shape layout.now).unit_sectors }
    requires windows { HasWindows (L.shape layout.now) windows (length ahead.old) }
    requires hands { AreHands windows.most hands.old }
    ensures visits { (rows : ℕ → HandRows) → IsAhead D.Disk (L.shape layout.now) windows
        cols.now.states stripe rows devices.old hands.old ahead.old
        → Visits D.Disk kind (L.shape layout.now) windows cols.now.states stripe rows
        devices.old devices.new hands.new ahead.new result }
    ensures hands { AreHands windows.most hands.new }
    ensures long { length ahead.new ≡ length ahead.old }
{
    if !is_complete(layout, cols, stripe) {
        return Ok(false);
    }
    visit(
        kind, layout, devices, cols, stripe, windows, hands, ahead, sum,
    )
}
