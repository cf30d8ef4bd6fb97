//! What a run comes to that the array outlives. These functions do nothing: what they ensure is so of every run.
ghost use Rattle.std.specs.Prelude.{◌≡◌, List, Bool, Option, None};
ghost use Rattle.raid_label.specs.declared.label.Label.{Label};
ghost use Rattle.top_run.specs.Work.{Work, Ending, Service};
ghost use Rattle.top_run.specs.Outliving.{OutlivesCall, AllAnswered};
ghost use Rattle.top_labelled.specs.Begun.{opened_as, without};
ghost use Rattle.top_labelled.specs.Ran.{RanLabelled, IsLostBefore};

use blk_disk::Disk;

/// An array isn't lost, neither before what is asked is served nor in the end, that isn't whichever
/// columns be dead of which an item asks that they fail, that are rebuilt, or whose device's count of
/// faults rose.
pub fn what_is_outlived_is_not_lost<D: Disk>()
    ensures ran { (a : Work) (newest : Label) (taken back : List (Option D)) (s : Service)
        (faulty map : Bool)
        → RanLabelled D.Disk a newest taken s back faulty map → OutlivesCall D.Disk a taken back
        → s.ending.lost ≡ None }
    ensures begun { (a : Work) (newest : Label) (taken back : List (Option D)) (e : Ending)
        (map : Bool)
        → IsLostBefore D.Disk a newest taken map e back → OutlivesCall D.Disk a taken back → ⊥ }
{}

/// In a run that isn't lost each item has the reply that it ought to, and none is replied lost, as
/// over an array without labels that had the devices and columns that were left as this one was
/// begun.
pub fn what_is_not_lost_is_answered<D: Disk>()
    ensures { (a : Work) (newest : Label) (taken back : List (Option D)) (s : Service)
        (faulty map : Bool) (ran : RanLabelled D.Disk a newest taken s back faulty map)
        → s.ending.lost ≡ None
        → AllAnswered D.Disk (opened_as a (without a.start ran.begun) ran.began)
        ran.opened back s ran.run }
{}
