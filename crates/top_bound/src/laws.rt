//! What is promised of a script and of graphs that were read, in the words of the core that serves
//! them. These calls do nothing: what each ensures is the law.
ghost use Rattle.eng_parts.specs.declared.setup.Setup.{Setup};
ghost use Rattle.top_bound.specs.Laws.{FewItemsHaveRoom, SectorsAreCountedAlike, FileGraphsFitThePool};
ghost use Rattle.top_bound.specs.Traced.{TraceIsCountedAlike, WhatFitsARebuild, WhatFitsHasRoom};

use blk_disk::Disk;
use lay_core::Layout;

/// A script within its limits has no more clients, items and sectors than a core has room for.
pub fn few_items_have_room()
    ensures { FewItemsHaveRoom }
{}

/// The sectors of the first clients are as many where replies are printed as where a core lays them
/// out.
pub fn sectors_are_counted_alike()
    ensures { SectorsAreCountedAlike }
{}

/// No graph of a file, and none of small ones behind them, has more buffers than the pool, so that none waits for good.
pub fn file_graphs_fit_the_pool()
    ensures { FileGraphsFitThePool }
{}

/// The sum by which [`trace_fits`](crate::trace_fits) judges a script is the one that a core counts
/// of its items.
pub fn traces_are_counted_alike()
    ensures { TraceIsCountedAlike }
{}

/// Where [`trace_fits`](crate::trace_fits) says so of a script, a core that is opened over it has room
/// in its trace for all events that may come; and where it says so of the script beside a rebuild of
/// each stripe of a dead column, the core has room for the rebuild of that column too.
pub fn what_fits_has_room<L: Layout, D: Disk>()
    ensures items { (setup : Setup L D) → WhatFitsHasRoom L.Layout setup }
    ensures rebuild { (setup : Setup L D) → WhatFitsARebuild L.Layout setup }
{}
