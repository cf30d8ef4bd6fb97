//! What a rebuild that is done is worth. The function does nothing: what it ensures is so of every run.
ghost use Rattle.std.specs.Prelude.{List, Option};
ghost use Rattle.lay_core.specs.Layout.{IsLayout, SparesLieByUnits};
ghost use Rattle.eng_array.specs.declared.start.Start.{Start as Rebuild};
ghost use Rattle.top_run.specs.Work.{Work, Service};
ghost use Rattle.top_run.specs.Ran.{Ran};
ghost use Rattle.top_run.specs.Rebuilding.{RebuildIsDone, IsWorth};

use blk_disk::Disk;

/// Where a rebuild is done each of the column's stripes was rebuilt. Then, where all other units are available, every
/// unit is; so in an array with a check unit the failure of any one more column loses nothing.
pub fn what_is_rebuilt_stands<D: Disk>()
    ensures { (a : Work) (taken back : List (Option D)) (s : Service)
        (ran : Ran D.Disk a taken s back)
        (how : Rebuild) → IsLayout a.layout → SparesLieByUnits a.layout
        → RebuildIsDone D.Disk a taken back s ran how → IsWorth D.Disk a taken back s ran how }
{}
