//! What a run comes to that the array outlives. These functions do nothing: what they ensure is so of every run.
ghost use Rattle.std.specs.Prelude.{◌≡◌, List, Option, None};
ghost use Rattle.top_run.specs.Work.{Work, Service};
ghost use Rattle.top_run.specs.Ran.{RanPlain};
ghost use Rattle.top_run.specs.Outliving.{OutlivesCall, AllAnswered};

use blk_disk::Disk;

/// A run isn't lost where the array isn't, whichever columns be dead of which an item asks that they fail, or whose
/// device's count of faults rose, or which is rebuilt.
pub fn what_is_outlived_is_not_lost<D: Disk>()
    ensures { (a : Work) (taken back : List (Option D)) (s : Service)
        → RanPlain D.Disk a taken s back
        → OutlivesCall D.Disk a taken back → s.ending.lost ≡ None }
{}

/// In a run that isn't lost each item has the reply that it ought to, and none is replied lost. An operation within range
/// and 16 stripes is done, a read with its data; but one by a graph of the file may have been refused by the checker, or
/// undone by a device whose count of faults rose or whose column an item failed. An item that asks that a column fail is
/// replied ok, and the column is dead in the end.
pub fn what_is_not_lost_is_answered<D: Disk>()
    ensures { (a : Work) (taken back : List (Option D)) (s : Service)
        → (ran : RanPlain D.Disk a taken s back)
        → s.ending.lost ≡ None → AllAnswered D.Disk a taken back s ran.run }
{}
