//! The sweeps.
ghost use Rattle.std.specs.Prelude.{◌≡◌, ◌<◌, ◌≤◌, ◌*◌, ℕ, length, replicate, slice_set, false};
ghost use Rattle.blk_disk.specs.Devices.{Changes, contents_of, calls_of};
ghost use Rattle.eng_cols.specs.declared.column.Column.TheVariants as set;
ghost use Rattle.eng_cols.specs.Changes.{killed};
ghost use Rattle.eng_cols.specs.Cols.{IsFor};
ghost use Rattle.eng_cols.specs.Contents.{InSync};
ghost use Rattle.eng_cols.specs.Deaths.{Dies};
ghost use Rattle.eng_cols.specs.Settable.{IsSettable};
ghost use Rattle.eng_cols.specs.Stripes.{states_of};
ghost use Rattle.raid_recon.specs.Ahead.{HasWindows, no_rows, rows_ahead};
ghost use Rattle.raid_recon.specs.Array.{IsArray, IsJudge, Failed};
ghost use Rattle.raid_recon.specs.Ends.{MayRewrite, ChecksHold, IsCounted, CallsRows};
ghost use Rattle.raid_recon.specs.Swept.{IsSwept};
ghost use Rattle.raid_recon.specs.Turns.{is_check};
ghost use Rattle.raid_recon.specs.Units.{SweepsStripe};
ghost use Rattle.raid_recon.specs.declared.kind.Sweep.TheVariants as sweep;

use crate::ahead::{ColumnWindows, Rows, windows_in};
use crate::kind::Sweep;
use crate::room::{Room, SweepRoom};
use crate::stripe::sweep_stripe;
use blk_disk::{Disk, SECTOR};
use eng_cols::{Cols, Column};
use lay_core::Layout;
use raid_progress::Progress;

// A device failed: its column is dead.
fn lose(columns: &mut [Column], judge: &mut Cols, column: u32)
    requires there { column < length columns.old }
    requires within { column < length judge.old.states }
    ensures columns { columns.new ≡ slice_set columns.old column set.Dead }
    ensures judge { judge.new ≡ record judge.old { states = killed judge.old.states column } }
{
    columns[column as usize] = Column::Dead;
    judge.kill(column);
}

// The turns of all stripes, and how many of them count. A device that fails a call makes its column
// dead.
fn sweep_stripes<L: Layout, D: Disk, P: Progress>(
    kind: Sweep,
    layout: &L,
    devices: &mut [Option<D>],
    columns: &mut [Column],
    judge: &mut Cols,
    windows: ColumnWindows,
    hands: &mut [Rows],
    ahead: &mut [u8],
    sum: &mut [u8],
    progress: &P,
) -> u64
    requires array { IsArray D.Disk (L.shape layout.now) columns.old devices.old }
    requires checks { (L.shape layout.now).checks ≡ 1 }
    requires judge { IsJudge (L.shape layout.now) columns.old judge.old }
    requires windows { HasWindows (L.shape layout.now) windows (length ahead.old) }
    requires hands { hands.old ≡ replicate 32 no_rows }
    requires sum { length sum.old ≡ 512 * (L.shape layout.now).unit_sectors }
    ensures swept { IsSwept D.Disk kind (L.shape layout.now) windows.most
        (L.shape layout.now).stripes
        columns.old columns.new devices.old devices.new result }
    ensures judge { IsJudge (L.shape layout.now) columns.new judge.new }
{
    let mut counted = 0;
    let all = layout.stripes();
    for stripe in 0..all {
        match sweep_stripe(
            kind, layout, devices, judge, stripe, windows, hands, ahead, sum,
        ) {
            Ok(counts) => {
                if counts {
                    counted += 1;
                }
            }
            Err(failed) => lose(columns, judge, failed.column),
        }
        progress.tell(u64::from(stripe) + 1, u64::from(all));
    }
    counted
}

// The turns of all stripes, in a room: the sum stands at its front, and the windows behind it.
fn sweep_in<L: Layout, D: Disk, P: Progress>(
    kind: Sweep,
    layout: &L,
    devices: &mut [Option<D>],
    columns: &mut [Column],
    judge: &mut Cols,
    room: &mut [u8],
    progress: &P,
) -> u64
    requires array { IsArray D.Disk (L.shape layout.now) columns.old devices.old }
    requires checks { (L.shape layout.now).checks ≡ 1 }
    requires judge { IsJudge (L.shape layout.now) columns.old judge.old }
    requires room { 1024 * (L.shape layout.now).unit_sectors ≤ length room.old }
    ensures swept { IsSwept D.Disk kind (L.shape layout.now)
        (rows_ahead (L.shape layout.now) (length room.old)) (L.shape layout.now).stripes
        columns.old columns.new devices.old devices.new result }
    ensures judge { IsJudge (L.shape layout.now) columns.new judge.new }
    ensures room { length room.new ≡ length room.old }
{
    let unit = layout.unit_sectors();
    let windows = windows_in(room.len(), unit, layout.columns());
    let mut hands = [Rows::NONE; 32];
    let (sum, ahead) = room.split_at_mut(SECTOR * unit as usize);
    sweep_stripes(
        kind, layout, devices, columns, judge, windows, &mut hands, ahead, sum, progress,
    )
}

// A sweep of whatever kind. Without check units there is nothing to be done.
fn sweep<L: Layout, D: Disk, P: Progress>(
    kind: Sweep,
    layout: &L,
    devices: &mut [Option<D>],
    columns: &mut [Column],
    room: &mut Room,
    judge: &mut Cols,
    progress: &P,
) -> u64
    requires array { IsArray D.Disk (L.shape layout.now) columns.old devices.old }
    requires columns { IsSettable (L.shape layout.now) columns.old }
    requires room { 1024 * (L.shape layout.now).unit_sectors ≤ room.old }
    requires judge { IsFor (L.shape layout.now) judge.old }
    ensures swept { (L.shape layout.now).checks ≡ 1 →
        IsSwept D.Disk kind (L.shape layout.now)
        (rows_ahead (L.shape layout.now) room.old) (L.shape layout.now).stripes
        columns.old columns.new devices.old devices.new result }
    ensures frame { Changes D.Disk (MayRewrite D.Disk kind (L.shape layout.now)
        columns.old devices.old) devices.old devices.new }
    ensures dies { Dies (Failed D.Disk (states_of (L.shape layout.now) columns.old)
        devices.old devices.new) columns.old columns.new }
    ensures in_sync { is_check kind ≡ false → D.tells →
        InSync (L.shape layout.now) (contents_of D.Disk devices.new)
        (states_of (L.shape layout.now) columns.new) }
    ensures checks { (L.shape layout.now).checks ≡ 1 → D.tells →
        ChecksHold D.Disk (L.shape layout.now)
        columns.old columns.new devices.old devices.new }
    ensures counted { (L.shape layout.now).checks ≡ 1 → IsCounted D.Disk kind
        (L.shape layout.now) columns.old columns.new devices.old result }
    ensures calls { (d : ℕ) → CallsRows (L.shape layout.now)
        (states_of (L.shape layout.now) columns.old) d
        (calls_of D.Disk devices.old d) (calls_of D.Disk devices.new d) }
    ensures none { (L.shape layout.now).checks ≡ 0 →
        (result ≡ 0) × ((columns.new ≡ columns.old) × (devices.new ≡ devices.old)) }
    ensures room { room.new ≡ room.old }
    ensures judge { IsFor (L.shape layout.now) judge.new }
{
    if layout.checks() == 0 {
        return 0;
    }
    judge.set(layout, columns);
    let room = room.bytes.as_mut_slice();
    sweep_in(kind, layout, devices, columns, judge, room, progress)
}

// One stripe's turn in a sync, where each unit is read by a call of its own.
fn sync_in<L: Layout, D: Disk>(
    layout: &L,
    devices: &mut [Option<D>],
    columns: &mut [Column],
    judge: &mut Cols,
    stripe: u32,
    room: &mut [u8],
) -> bool
    requires array { IsArray D.Disk (L.shape layout.now) columns.old devices.old }
    requires checks { (L.shape layout.now).checks ≡ 1 }
    requires judge { IsJudge (L.shape layout.now) columns.old judge.old }
    requires stripe { stripe < (L.shape layout.now).stripes }
    requires room { 1024 * (L.shape layout.now).unit_sectors ≤ length room.old }
    ensures turn { SweepsStripe D.Disk sweep.Sync (L.shape layout.now) stripe
        columns.old columns.new devices.old devices.new result }
    ensures judge { IsJudge (L.shape layout.now) columns.new judge.new }
    ensures room { length room.new ≡ length room.old }
{
    let unit = layout.unit_sectors();
    let mut hands = [Rows::NONE; 32];
    let (sum, ahead) = room.split_at_mut(SECTOR * unit as usize);
    match sweep_stripe(
        Sweep::Sync,
        layout,
        devices,
        judge,
        stripe,
        ColumnWindows::SHARED,
        &mut hands,
        ahead,
        sum,
    ) {
        Ok(counted) => counted,
        Err(failed) => {
            lose(columns, judge, failed.column);
            false
        }
    }
}

/// Rewrites the check unit of one stripe, if that lacks no unit and doesn't sum to zero. Says whether
/// it was rewritten. A device that fails a call makes its column dead.
///
/// `judge` holds the columns, before and then.
pub fn sync_one<L: Layout, D: Disk>(
    layout: &L,
    devices: &mut [Option<D>],
    columns: &mut [Column],
    stripe: u32,
    room: &mut Room,
    judge: &mut Cols,
) -> bool
    requires array { IsArray D.Disk (L.shape layout.now) columns.old devices.old }
    requires checks { (L.shape layout.now).checks ≡ 1 }
    requires judge { IsJudge (L.shape layout.now) columns.old judge.old }
    requires stripe { stripe < (L.shape layout.now).stripes }
    requires room { 1024 * (L.shape layout.now).unit_sectors ≤ room.old }
    ensures turn { SweepsStripe D.Disk sweep.Sync (L.shape layout.now) stripe
        columns.old columns.new devices.old devices.new result }
    ensures judge { IsJudge (L.shape layout.now) columns.new judge.new }
    ensures room { room.new ≡ room.old }
{
    let room = room.bytes.as_mut_slice();
    sync_in(layout, devices, columns, judge, stripe, room)
}

/// How many stripes, of those that lack no unit, don't sum to zero.
pub fn sweep_check<L: Layout, D: Disk, P: Progress>(
    layout: &L,
    devices: &mut [Option<D>],
    columns: &mut [Column],
    room: &mut SweepRoom<P>,
    judge: &mut Cols,
) -> u64
    requires array { IsArray D.Disk (L.shape layout.now) columns.old devices.old }
    requires columns { IsSettable (L.shape layout.now) columns.old }
    requires room { 1024 * (L.shape layout.now).unit_sectors ≤ room.old }
    requires judge { IsFor (L.shape layout.now) judge.old }
    ensures swept { (L.shape layout.now).checks ≡ 1 →
        IsSwept D.Disk sweep.Check (L.shape layout.now)
        (rows_ahead (L.shape layout.now) room.old) (L.shape layout.now).stripes
        columns.old columns.new devices.old devices.new result }
    ensures frame { Changes D.Disk (λ _ _. ⊥) devices.old devices.new }
    ensures dies { Dies (Failed D.Disk (states_of (L.shape layout.now) columns.old)
        devices.old devices.new) columns.old columns.new }
    ensures counted { (L.shape layout.now).checks ≡ 1 → IsCounted D.Disk sweep.Check
        (L.shape layout.now) columns.old columns.new devices.old result }
    ensures calls { (d : ℕ) → CallsRows (L.shape layout.now)
        (states_of (L.shape layout.now) columns.old) d
        (calls_of D.Disk devices.old d) (calls_of D.Disk devices.new d) }
    ensures none { (L.shape layout.now).checks ≡ 0 →
        (result ≡ 0) × ((columns.new ≡ columns.old) × (devices.new ≡ devices.old)) }
    ensures room { room.new ≡ room.old }
    ensures judge { IsFor (L.shape layout.now) judge.new }
{
    sweep(
        Sweep::Check,
        layout,
        devices,
        columns,
        &mut room.room,
        judge,
        &room.progress,
    )
}

/// Rewrites the check unit of each stripe that lacks no unit and doesn't sum to zero, and answers
/// how many it rewrote.
pub fn sweep_sync<L: Layout, D: Disk, P: Progress>(
    layout: &L,
    devices: &mut [Option<D>],
    columns: &mut [Column],
    room: &mut SweepRoom<P>,
    judge: &mut Cols,
) -> u64
    requires array { IsArray D.Disk (L.shape layout.now) columns.old devices.old }
    requires columns { IsSettable (L.shape layout.now) columns.old }
    requires room { 1024 * (L.shape layout.now).unit_sectors ≤ room.old }
    requires judge { IsFor (L.shape layout.now) judge.old }
    ensures swept { (L.shape layout.now).checks ≡ 1 →
        IsSwept D.Disk sweep.Sync (L.shape layout.now)
        (rows_ahead (L.shape layout.now) room.old) (L.shape layout.now).stripes
        columns.old columns.new devices.old devices.new result }
    ensures frame { Changes D.Disk (MayRewrite D.Disk sweep.Sync (L.shape layout.now)
        columns.old devices.old) devices.old devices.new }
    ensures dies { Dies (Failed D.Disk (states_of (L.shape layout.now) columns.old)
        devices.old devices.new) columns.old columns.new }
    ensures in_sync { D.tells → InSync (L.shape layout.now) (contents_of D.Disk devices.new)
        (states_of (L.shape layout.now) columns.new) }
    ensures checks { (L.shape layout.now).checks ≡ 1 → D.tells →
        ChecksHold D.Disk (L.shape layout.now)
        columns.old columns.new devices.old devices.new }
    ensures counted { (L.shape layout.now).checks ≡ 1 → IsCounted D.Disk sweep.Sync
        (L.shape layout.now) columns.old columns.new devices.old result }
    ensures calls { (d : ℕ) → CallsRows (L.shape layout.now)
        (states_of (L.shape layout.now) columns.old) d
        (calls_of D.Disk devices.old d) (calls_of D.Disk devices.new d) }
    ensures none { (L.shape layout.now).checks ≡ 0 →
        (result ≡ 0) × ((columns.new ≡ columns.old) × (devices.new ≡ devices.old)) }
    ensures room { room.new ≡ room.old }
    ensures judge { IsFor (L.shape layout.now) judge.new }
{
    sweep(
        Sweep::Sync,
        layout,
        devices,
        columns,
        &mut room.room,
        judge,
        &room.progress,
    )
}

/// Rewrites the check unit of each stripe that lacks no unit, whatever it holds, and answers how
/// many it rewrote.
pub fn sweep_init<L: Layout, D: Disk, P: Progress>(
    layout: &L,
    devices: &mut [Option<D>],
    columns: &mut [Column],
    room: &mut SweepRoom<P>,
    judge: &mut Cols,
) -> u64
    requires array { IsArray D.Disk (L.shape layout.now) columns.old devices.old }
    requires columns { IsSettable (L.shape layout.now) columns.old }
    requires room { 1024 * (L.shape layout.now).unit_sectors ≤ room.old }
    requires judge { IsFor (L.shape layout.now) judge.old }
    ensures swept { (L.shape layout.now).checks ≡ 1 →
        IsSwept D.Disk sweep.Init (L.shape layout.now)
        (rows_ahead (L.shape layout.now) room.old) (L.shape layout.now).stripes
        columns.old columns.new devices.old devices.new result }
    ensures frame { Changes D.Disk (MayRewrite D.Disk sweep.Init (L.shape layout.now)
        columns.old devices.old) devices.old devices.new }
    ensures dies { Dies (Failed D.Disk (states_of (L.shape layout.now) columns.old)
        devices.old devices.new) columns.old columns.new }
    ensures in_sync { D.tells → InSync (L.shape layout.now) (contents_of D.Disk devices.new)
        (states_of (L.shape layout.now) columns.new) }
    ensures checks { (L.shape layout.now).checks ≡ 1 → D.tells →
        ChecksHold D.Disk (L.shape layout.now)
        columns.old columns.new devices.old devices.new }
    ensures counted { (L.shape layout.now).checks ≡ 1 → IsCounted D.Disk sweep.Init
        (L.shape layout.now) columns.old columns.new devices.old result }
    ensures calls { (d : ℕ) → CallsRows (L.shape layout.now)
        (states_of (L.shape layout.now) columns.old) d
        (calls_of D.Disk devices.old d) (calls_of D.Disk devices.new d) }
    ensures none { (L.shape layout.now).checks ≡ 0 →
        (result ≡ 0) × ((columns.new ≡ columns.old) × (devices.new ≡ devices.old)) }
    ensures room { room.new ≡ room.old }
    ensures judge { IsFor (L.shape layout.now) judge.new }
{
    sweep(
        Sweep::Init,
        layout,
        devices,
        columns,
        &mut room.room,
        judge,
        &room.progress,
    )
}
