//! How much is asked of a run, as is told beside how much of it is done.
ghost use Rattle.std.specs.Prelude.{◌≡◌, ◌<◌, length};
ghost use Rattle.top_serve.specs.Setups.{MayStart};

use blk_disk::Disk;
use eng_array::{Setup, Start};
use eng_cols::Column;
use item_list::Items;
use lay_core::Layout;
use raid_recon::rebuild_count;

fn items_of(clients: &[Items]) -> u64 {
    let mut items: u64 = 0;
    for client in clients {
        items = items.saturating_add(client.len() as u64);
    }
    items
}

// The column's stripes that aren't done.
fn left_of<L: Layout, D: Disk>(setup: &Setup<L, D>, column: u32) -> u32
    requires entries { length setup.now.columns.items ≡ (L.shape setup.now.layout).columns }
    requires column { column < (L.shape setup.now.layout).columns }
{
    let count = rebuild_count(&setup.layout, &setup.columns, column);
    match setup.columns[column as usize] {
        Column::Filling { done, .. } => count.saturating_sub(done),
        _ => count,
    }
}

// The stripes that are rebuilt: no more than are asked for.
fn stripes_of<L: Layout, D: Disk>(setup: &Setup<L, D>, start: Option<Start>) -> u64
    requires entries { length setup.now.columns.items ≡ (L.shape setup.now.layout).columns }
    requires start { MayStart L.Layout D.Disk setup.now start }
{
    match start {
        Some(Start::Fill { column, most, .. } | Start::Resume { column, most }) => {
            u64::from(left_of(setup, column).min(most))
        }
        Some(Start::Spread { column }) => u64::from(left_of(setup, column)),
        None => 0,
    }
}

/// The items of all clients, and the stripes of a column that are to be rebuilt.
pub(crate) fn asked<L: Layout, D: Disk>(setup: &Setup<L, D>, start: Option<Start>) -> u64
    requires entries { length setup.now.columns.items ≡ (L.shape setup.now.layout).columns }
    requires start { MayStart L.Layout D.Disk setup.now start }
{
    items_of(setup.clients.as_slice()).saturating_add(stripes_of(setup, start))
}
