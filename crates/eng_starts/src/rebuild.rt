//! The rebuild of a dead column starts.
ghost use Rattle.std.specs.Prelude.{◌≡◌, ◌<◌, ◌≤◌, ◌+◌, [], Some, false, true, length, slice_get, slice_set};
ghost use Rattle.std.specs.List.{list_any};
ghost use Rattle.eng_cols.specs.Cols.{Dead, IsFor, IsKept, is_filling, is_spread};
ghost use Rattle.eng_cols.specs.Changes.{begun_filling, begun_spreading};
ghost use Rattle.eng_world.specs.Serving.{IsLeft};
ghost use Rattle.eng_world.specs.declared.item.Traced.TheVariants as event;
ghost use Rattle.eng_clients.specs.Desk.{desk_at};
ghost use Rattle.eng_log.specs.Log.{noted};
ghost use Rattle.eng_state.specs.Room.{HasRoom};
ghost use Rattle.eng_state.specs.Sound.{IsSound};
ghost use Rattle.eng_state.specs.Steps.{Follows};
ghost use Rattle.eng_starts.specs.Rebuilding.{AreRebuildsBelow, CanFill, CanResume, CanSpread, Started, added, with_items};

use blk_disk::Disk;
use blk_plain::limits;
use eng_clients::Rebuilds;
use eng_cols::Cols;
use eng_state::Array;
use eng_world::Traced;
use lay_core::Layout;

// Whether the stripe is one of the column's, and isn't done there.
fn is_left<L: Layout>(layout: &L, cols: &Cols, column: u32, stripe: u32) -> bool
    requires fit { IsFor (L.shape layout.now) cols.now }
    requires column { column < length cols.now.states }
    requires stripe { stripe < (L.shape layout.now).stripes }
    ensures left { result ≡ true → IsLeft (L.shape layout.now) cols.now.states column stripe }
    ensures other { result ≡ false → IsLeft (L.shape layout.now) cols.now.states column stripe → ⊥ }
{
    cols.is_stripe_of(layout, column, stripe) && !cols.is_done(column, stripe)
}

// Lists the rebuild of one stripe more, if it is left and one more is asked, and says how many more are asked then.
fn list_stripe<L: Layout>(
    layout: &L,
    cols: &Cols,
    column: u32,
    stripe: u32,
    left: u32,
    rebuilds: &mut Rebuilds,
) -> u32
    requires fit { IsFor (L.shape layout.now) cols.now }
    requires column { column < length cols.now.states }
    requires stripe { stripe < (L.shape layout.now).stripes }
    requires room { (L.shape layout.now).stripes ≤ rebuilds.old.room }
    requires before { AreRebuildsBelow (L.shape layout.now) cols.now.states column
        (left + length rebuilds.old.items) stripe rebuilds.old.items }
    ensures room { rebuilds.new.room ≡ rebuilds.old.room }
    ensures count { result + length rebuilds.new.items ≡ left + length rebuilds.old.items }
    ensures listed { AreRebuildsBelow (L.shape layout.now) cols.now.states column
        (left + length rebuilds.old.items) (stripe + 1) rebuilds.new.items }
{
    if left == 0 {
        return 0;
    }
    if !is_left(layout, cols, column, stripe) {
        return left;
    }
    rebuilds.push(stripe);
    left - 1
}

// Lists the rebuilds of the first of the column's stripes that aren't done, ascending, so many at most, and says how
// many they are.
fn list_stripes<L: Layout>(
    layout: &L,
    cols: &Cols,
    column: u32,
    count: u32,
    rebuilds: &mut Rebuilds,
) -> u32
    requires fit { IsFor (L.shape layout.now) cols.now }
    requires column { column < length cols.now.states }
    requires none { rebuilds.old.items ≡ [] }
    requires room { (L.shape layout.now).stripes ≤ rebuilds.old.room }
    ensures listed { AreRebuildsBelow (L.shape layout.now) cols.now.states column count
        (L.shape layout.now).stripes rebuilds.new.items }
    ensures count { result ≡ length rebuilds.new.items }
{
    let mut left = count;
    for stripe in 0..layout.stripes() {
        left = list_stripe(layout, cols, column, stripe, left, rebuilds);
    }
    count - left
}

// Lists the column's rebuilds, and says how many they are.
fn list_rebuilds<L: Layout, D: Disk>(array: &mut Array<L, D>, column: u32, count: u32) -> u32
    requires fit { IsFor (L.shape array.old.layout) array.old.cols }
    requires column { column < length array.old.cols.states }
    requires none { array.old.rebuilds.items ≡ [] }
    requires room { (L.shape array.old.layout).stripes ≤ array.old.rebuilds.room }
    ensures listed { AreRebuildsBelow (L.shape array.old.layout) array.old.cols.states column count
        (L.shape array.old.layout).stripes array.new.rebuilds.items }
    ensures count { result ≡ length array.new.rebuilds.items }
    ensures rest { array.new ≡ record array.old { rebuilds = array.new.rebuilds } }
{
    list_stripes(
        &array.layout,
        &array.cols,
        column,
        count,
        &mut array.rebuilds,
    )
}

// Client 16 gets them.
fn hand_over_rebuilds<L: Layout, D: Disk>(array: &mut Array<L, D>)
    requires count { length array.old.clients ≡ 17 }
    requires items { (desk_at array.old.clients 16).items ≡ [] }
    requires replies { (desk_at array.old.clients 16).replies ≡ [] }
    ensures { array.new ≡ record array.old {
      clients = slice_set
          array.old.clients 16 (with_items (desk_at array.old.clients 16) array.old.rebuilds.items);
      rebuilds = record { items = []; room = 0 };
    } }
{
    array
        .rebuilds
        .hand_over(&mut array.clients, limits::CLIENTS);
}

fn begin_filling<L: Layout, D: Disk>(array: &mut Array<L, D>, column: u32, device: u32)
    requires dead { slice_get array.old.cols.states column ≡ Some Dead }
    requires only { list_any is_filling array.old.cols.states ≡ false }
    ensures is { array.new ≡ record array.old
        { cols = record array.old.cols { states = begun_filling array.old.cols column device } } }
    ensures kept { IsKept array.new.cols }
{
    array.cols.fill(column, device);
}

fn begin_spreading<L: Layout, D: Disk>(array: &mut Array<L, D>, column: u32)
    requires dead { slice_get array.old.cols.states column ≡ Some Dead }
    requires only { list_any is_spread array.old.cols.states ≡ false }
    ensures is { array.new ≡ record array.old
        { cols = record array.old.cols { states = begun_spreading array.old.cols column } } }
    ensures kept { IsKept array.new.cols }
{
    array.cols.spread(column);
}

// What becomes of the core as a dead column begins to be filled.
fn start_filling<L: Layout, D: Disk>(array: &mut Array<L, D>, column: u32, device: u32, count: u32)
    requires sound { IsSound L.Layout D.Disk array.old }
    requires can { CanFill L.Layout D.Disk array.old column device }
    requires place { HasRoom array.old.log }
    ensures { Started L.Layout array.old column count (begun_filling array.old.cols column device)
        (event.Fill column device) array.new }
{
    begin_filling(array, column, device);
    let count = list_rebuilds(array, column, count);
    hand_over_rebuilds(array);
    array.note(Traced::Fill {
        column,
        device,
        count,
    });
}

// As one that is filling goes on.
fn start_resuming<L: Layout, D: Disk>(array: &mut Array<L, D>, column: u32, count: u32)
    requires sound { IsSound L.Layout D.Disk array.old }
    requires can { CanResume L.Layout D.Disk array.old column }
    requires place { HasRoom array.old.log }
    ensures { Started L.Layout array.old column count array.old.cols.states (event.Resume column)
        array.new }
{
    let count = list_rebuilds(array, column, count);
    hand_over_rebuilds(array);
    array.note(Traced::Resume { column, count });
}

// And as one begins to be spread.
fn start_spreading<L: Layout, D: Disk>(array: &mut Array<L, D>, column: u32)
    requires sound { IsSound L.Layout D.Disk array.old }
    requires can { CanSpread L.Layout D.Disk array.old column }
    requires place { HasRoom array.old.log }
    ensures { Started L.Layout array.old column 4294967295 (begun_spreading array.old.cols column)
        (λ _. event.Spread column) array.new }
{
    begin_spreading(array, column);
    let _ = list_rebuilds(array, column, u32::MAX);
    hand_over_rebuilds(array);
    array.note(Traced::Spread { column });
}

/// Starts a rebuild of a dead column onto a device that is in no column, before any operation has begun. Client 16
/// gets a rebuild for each of the first of the column's stripes, so many or all.
pub fn fill<L: Layout, D: Disk>(array: &mut Array<L, D>, column: u32, device: u32, count: u32)
    requires sound { IsSound L.Layout D.Disk array.old }
    requires can { CanFill L.Layout D.Disk array.old column device }
    requires place { HasRoom array.old.log }
    ensures step { Follows L.Layout D.Disk array.old (event.Fill column device (added array.new))
        array.new }
    ensures sound { IsSound L.Layout D.Disk array.new }
    ensures trace { array.new.log
        ≡ noted array.old.log (event.Fill column device (added array.new)) }
    ensures started { Started L.Layout array.old column count
        (begun_filling array.old.cols column device) (event.Fill column device) array.new }
{
    start_filling(array, column, device, count);
}

/// Goes on with the rebuild of the column that is filling, before any operation has begun. Client 16 gets a rebuild
/// for each of the first of the column's stripes that aren't done, so many or all.
pub fn resume<L: Layout, D: Disk>(array: &mut Array<L, D>, column: u32, count: u32)
    requires sound { IsSound L.Layout D.Disk array.old }
    requires can { CanResume L.Layout D.Disk array.old column }
    requires place { HasRoom array.old.log }
    ensures step { Follows L.Layout D.Disk array.old (event.Resume column (added array.new))
        array.new }
    ensures sound { IsSound L.Layout D.Disk array.new }
    ensures trace { array.new.log ≡ noted array.old.log (event.Resume column (added array.new)) }
    ensures started { Started L.Layout array.old column count array.old.cols.states
        (event.Resume column) array.new }
{
    start_resuming(array, column, count);
}

/// Starts a rebuild of a dead column into the spare places, before any operation has begun. Client 16 gets a rebuild
/// for each of the column's stripes.
pub fn spread<L: Layout, D: Disk>(array: &mut Array<L, D>, column: u32)
    requires sound { IsSound L.Layout D.Disk array.old }
    requires can { CanSpread L.Layout D.Disk array.old column }
    requires place { HasRoom array.old.log }
    ensures step { Follows L.Layout D.Disk array.old (event.Spread column) array.new }
    ensures sound { IsSound L.Layout D.Disk array.new }
    ensures trace { array.new.log ≡ noted array.old.log (event.Spread column) }
    ensures started { Started L.Layout array.old column 4294967295
        (begun_spreading array.old.cols column) (λ _. event.Spread column) array.new }
{
    start_spreading(array, column);
}
