//! What the maps of an array are marked before clients are served.
ghost use Rattle.std.specs.Prelude.{◌≡◌, ◌<◌, All, length, true};
ghost use Rattle.eng_array.specs.Starts.{most_of};
ghost use Rattle.eng_cols.specs.Stripes.{states_of};
ghost use Rattle.raid_map.specs.Asking.{IsSpanned, MarksAlso, file_of};
ghost use Rattle.raid_map.specs.Regions.{regions_in};
ghost use Rattle.top_acts.specs.Mapped.{AreMaps};
ghost use Rattle.top_labelled.specs.Begun.{IsColumnWithin};
ghost use Rattle.top_labelled.specs.Marked.{MarksOf, StripesFrom, done_on};
ghost use Rattle.top_labelled.specs.Words.{MarksAsked, RebuildMayWrite};

use blk_disk::SECTOR;
use eng_array::{Column, Start};
use eng_cols::is_stripe_of;
use graph_mean::Graph;
use item_list::Items;
use lay_core::Layout;
use raid_map::{Map, mark_script};
use top_acts::Maps;

// Adds what another map of the same array marks.
fn add(other: &Map, map: &mut Map)
    requires stripes { other.now.stripes ≡ map.old.stripes }
    requires serial { other.now.serial ≡ map.old.serial }
    requires whole { length other.now.marks ≡ regions_in other.now.stripes }
    ensures { MarksOf other.now map.old map.new }
{
    let mut sector = [0; SECTOR];
    other.write_to(&mut sector);
    let _ = map.add_from(&sector);
}

// Of a column's stripes, passes over the first, so many, and marks the next, so many at most.
fn mark_stripes<L: Layout>(
    layout: &L,
    columns: &[Column],
    column: u32,
    done: u32,
    most: u32,
    map: &mut Map,
)
    requires entries { length columns.now ≡ (L.shape layout.now).columns }
    requires column { column < (L.shape layout.now).columns }
    requires map { map.old.stripes ≡ (L.shape layout.now).stripes }
    ensures { MarksAlso (StripesFrom (L.shape layout.now)
        (states_of (L.shape layout.now) columns.now) column done most) map.old map.new }
{
    let mut passed = 0;
    let mut marked = 0;
    for stripe in 0..layout.stripes() {
        if is_stripe_of(layout, columns, column, stripe) {
            if passed < done {
                passed += 1;
            } else if marked < most {
                map.mark(stripe);
                marked += 1;
            }
        }
    }
}

// How many stripes of the column that is rebuilt are done.
fn done_on(start: Start, columns: &[Column]) -> u32
    ensures { result ≡ done_on start columns.now }
{
    match start {
        Start::Resume { column, .. } => match columns.get(column as usize) {
            Some(Column::Filling { done, .. }) => *done,
            Some(Column::Live { .. } | Column::Dead | Column::Spread) | None => 0,
        },
        Start::Fill { .. } | Start::Spread { .. } => 0,
    }
}

// How many are to be rebuilt at most.
fn most_of(start: Start) -> u32
    ensures { result ≡ most_of start }
{
    match start {
        Start::Fill { most, .. } | Start::Resume { most, .. } => most,
        Start::Spread { .. } => u32::MAX,
    }
}

// Marks the regions of the stripes that are to be rebuilt.
fn mark_rebuild<L: Layout>(layout: &L, columns: &[Column], start: Option<Start>, map: &mut Map)
    requires entries { length columns.now ≡ (L.shape layout.now).columns }
    requires within { IsColumnWithin start (length columns.now) }
    requires map { map.old.stripes ≡ (L.shape layout.now).stripes }
    ensures { MarksAlso (RebuildMayWrite (L.shape layout.now)
        columns.now start) map.old map.new }
{
    match start {
        Some(start) => {
            let done = done_on(start, columns);
            mark_stripes(layout, columns, start.column(), done, most_of(start), map);
        }
        None => {}
    }
}

/// Where a map is kept, marks what the maps of the devices marked together, and the regions of all
/// stripes that may be written: by an item of a client that isn't a read without writes and is in
/// reach, or as a column is rebuilt.
pub(crate) fn mark_asked<L: Layout>(
    keeps: bool,
    layout: &L,
    graphs: &[Graph],
    clients: &[Items],
    columns: &[Column],
    start: Option<Start>,
    maps: &mut Maps,
)
    requires spans { All (λ items. All IsSpanned items.items) clients.now }
    requires entries { length columns.now ≡ (L.shape layout.now).columns }
    requires within { IsColumnWithin start (length columns.now) }
    requires maps { AreMaps (L.shape layout.now) maps.old }
    requires serial { maps.old.union.serial ≡ maps.old.marks.serial }
    requires whole { length maps.old.union.marks ≡ regions_in maps.old.union.stripes }
    ensures marked { keeps ≡ true → MarksAsked (L.shape layout.now) (file_of graphs.now) clients.now
        columns.now start maps.old.union maps.old.marks maps.new.marks }
    ensures same { (maps.new.marks.stripes ≡ maps.old.marks.stripes)
        × (maps.new.marks.serial ≡ maps.old.marks.serial) }
    ensures rest { (maps.new.union ≡ maps.old.union) × (maps.new.room ≡ maps.old.room) }
{
    if !keeps {
        return;
    }
    add(&maps.union, &mut maps.marks);
    mark_script(layout, graphs, clients, &mut maps.cut, &mut maps.marks);
    mark_rebuild(layout, columns, start, &mut maps.marks);
}
