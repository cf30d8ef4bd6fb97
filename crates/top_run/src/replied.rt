//! What replies and a loss come from. These functions do nothing: what they ensure is so of every run.
ghost use Rattle.std.specs.Prelude.{◌≡◌, List, Option, Some};
ghost use Rattle.eng_cols.specs.declared.spot.Loss.{Loss};
ghost use Rattle.eng_world.specs.Causes.{HaveCauses, IsLossOf};
ghost use Rattle.top_run.specs.Work.{Work, Service};
ghost use Rattle.top_run.specs.Ran.{Ran};

use blk_disk::Disk;

/// Each reply of a run is to an item, and has its cause: data or done, that the operation stands in the history; undone,
/// that it doesn't, and that a device of it is gone; refused, that the checker refused its graph as it was taken; range or
/// long, what the operation asks; ok, that the column is dead; lost, that the array is.
pub fn each_reply_has_a_cause<D: Disk>()
    ensures { (a : Work) (taken back : List (Option D)) (s : Service)
        (ran : Ran D.Disk a taken s back)
        → HaveCauses a.layout ran.graphs ran.start ran.events ran.now }
{}

/// An array that was lost in a run was so by one event, whose columns lack two units of the stripe that the loss names.
pub fn a_loss_comes_of_one_event<D: Disk>()
    ensures { (a : Work) (taken back : List (Option D)) (s : Service)
        (ran : Ran D.Disk a taken s back) (loss : Loss) → ran.now.lost ≡ Some loss
        → IsLossOf a.layout ran.graphs ran.start ran.events ran.now loss }
{}
