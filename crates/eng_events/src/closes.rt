//! A core is closed.
ghost use Rattle.std.specs.Prelude.{◌≡◌, ◌≤◌, [], vec_capacity};
ghost use Rattle.eng_cols.specs.Cols.{IsFor};
ghost use Rattle.eng_events.specs.Opened.{NoneOut};
ghost use Rattle.eng_events.specs.Closed.{AreColumns, IsClosed};
ghost use Rattle.eng_state.specs.Sound.{IsSound};

use blk_disk::Disk;
use eng_cols::{Cols, Column};
use eng_parts::{Closed, SpareLists};
use eng_state::Array;
use lay_core::Layout;

// What each column is.
fn list_columns<L: Layout>(layout: &L, cols: &Cols, columns: &mut Vec<Column>)
    requires fit { IsFor (L.shape layout.now) cols.now }
    requires empty { columns.old.items ≡ [] }
    requires room { (L.shape layout.now).columns ≤ vec_capacity columns.old }
    ensures { AreColumns (L.shape layout.now) cols.now.states columns.new.items }
{
    for column in 0..layout.columns() {
        columns.push_reserved(cols.column(layout, column));
    }
}

/// Closes a core of which no node is out, and hands back what it has. Once the array is lost, each item without a
/// reply is replied so.
pub fn close<L: Layout, D: Disk + Drop>(array: Array<L, D>) -> Closed<L, D>
    requires sound { IsSound L.Layout D.Disk array }
    requires none_out { NoneOut array.clients }
    ensures { IsClosed L.Layout array result }
{
    let Array {
        layout,
        cols,
        devices,
        clients,
        log,
        spare,
        lost,
        ..
    } = array;
    let SpareLists {
        clients: given,
        items,
        replies,
        mut columns,
    } = spare.lists();
    list_columns(&layout, &cols, &mut columns);
    let told = clients.close(given, lost, items, replies);
    let left = log.close();
    let handed = left.3.close();
    let home = devices.close();
    Closed {
        layout,
        devices: home,
        columns,
        clients: told.0,
        replies: told.1,
        history: left.0,
        trace: left.1,
        lost,
        rebuilt: left.2,
        sectors: handed.0,
        regions: handed.1,
    }
}
