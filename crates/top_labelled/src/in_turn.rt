//! Clients that work beside one another in blocks of their own. The function does nothing: what it
//! ensures is so of every run of such clients.
ghost use Rattle.std.specs.Prelude.{◌≡◌, ◌<◌, ◌≤◌, ℕ, List, Bool, Option, None};
ghost use Rattle.lay_core.specs.Layout.{blocks_in};
ghost use Rattle.raid_label.specs.declared.label.Label.{Label};
ghost use Rattle.raid_script.specs.Drawn.{AreApart, drawn};
ghost use Rattle.top_run.specs.Work.{Work, Service};
ghost use Rattle.top_run.specs.InTurn.{SweptInTurn};
ghost use Rattle.top_labelled.specs.Begun.{opened_as, without};
ghost use Rattle.top_labelled.specs.Ran.{RanLabelled};

use blk_disk::Disk;

/// A run of clients each of which has blocks of its own, beside which nothing is rebuilt, means what they mean client
/// after client, unless the array is lost: the blocks that it leaves, its replies and what sums them up, over the
/// blocks of the opening.
pub fn a_sweep_comes_client_after_client<D: Disk>()
    ensures opening { (a : Work) (newest : Label) (taken back : List (Option D)) (s : Service)
        (faulty map : Bool) (r : RanLabelled D.Disk a newest taken s back faulty map)
        (count ops wide blocks : ℕ)
        → a.start ≡ None → AreApart count ops wide blocks a.clients → blocks ≤ blocks_in a.layout
        → s.ending.lost ≡ None
        → SweptInTurn D.Disk (opened_as a (without a.start r.begun) r.began)
        r.opened s back r.run.start.blocks }

    // Clients that are drawn from a number over the blocks of the array are such clients.
    ensures seeds { (a : Work) (newest : Label) (taken back : List (Option D)) (s : Service)
        (faulty map : Bool) (r : RanLabelled D.Disk a newest taken s back faulty map) (seed clients ops : ℕ)
        → a.start ≡ None → 0 < clients → 0 < blocks_in a.layout
        → a.clients ≡ drawn seed clients ops (blocks_in a.layout) → s.ending.lost ≡ None
        → SweptInTurn D.Disk (opened_as a (without a.start r.begun) r.began)
        r.opened s back r.run.start.blocks }
{}
