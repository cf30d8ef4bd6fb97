//! What a trace has room for, counted by one number for all items.
ghost use Rattle.std.specs.Prelude.{◌≡◌, ◌≤◌, ◌+◌, ℕ, List, length};
ghost use Rattle.eng_cols.specs.Cols.{ColumnState};
ghost use Rattle.eng_parts.specs.declared.setup.Setup.{Setup};
ghost use Rattle.eng_array.specs.Fitting.{BeginsAtMost, FitsTrace, FitsRebuilding, trace_sum, rebuilds_sum};

use blk_disk::Disk;
use lay_core::Layout;

/// Four events for each item and two for each node that a graph of it may have, once more for each device: where these
/// are at most 1,048,576, an opening's trace has room for all that may come. Where the rebuilds that are begun are counted
/// too, so has that of an opening from which a column is rebuilt. There are at least as many devices as columns. It does
/// nothing: what it ensures is so.
pub fn what_is_counted_fits_the_trace<L: Layout, D: Disk>()
    ensures opening { (setup : Setup L D) (devices : ℕ)
        → length setup.columns.items ≡ (L.shape setup.layout).columns
        → (L.shape setup.layout).columns ≤ devices
        → trace_sum (L.shape setup.layout) setup.graphs.items devices setup.clients.items ≤ 1048576
        → FitsTrace L.Layout setup }
    ensures rebuild { (setup : Setup L D) (cols : List ColumnState) (devices column asked rebuilds : ℕ)
        → length setup.columns.items ≡ (L.shape setup.layout).columns
        → (L.shape setup.layout).columns ≤ devices
        → length cols ≡ (L.shape setup.layout).columns
        → BeginsAtMost (L.shape setup.layout) cols column asked rebuilds
        → trace_sum (L.shape setup.layout) setup.graphs.items devices setup.clients.items
        + rebuilds_sum (L.shape setup.layout) devices rebuilds ≤ 1048576
        → FitsRebuilding L.Layout setup cols column asked }
{}
