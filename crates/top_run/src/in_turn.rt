//! Clients that work beside one another in blocks of their own. The function does nothing: what it
//! ensures is so of every run of such clients.
ghost use Rattle.std.specs.Prelude.{◌≡◌, ◌<◌, ◌≤◌, ℕ, List, Option, None};
ghost use Rattle.blk_disk.specs.Devices.{contents_of};
ghost use Rattle.lay_core.specs.Layout.{blocks_in};
ghost use Rattle.eng_cols.specs.Contents.{decode};
ghost use Rattle.raid_script.specs.Drawn.{AreApart, drawn};
ghost use Rattle.top_run.specs.Work.{Work, Service};
ghost use Rattle.top_run.specs.Ran.{RanPlain};
ghost use Rattle.top_run.specs.Steps.{states_in};
ghost use Rattle.top_run.specs.InTurn.{SweptInTurn};

use blk_disk::Disk;

/// A run of clients each of which has blocks of its own, as those that are drawn from a number,
/// means what they mean client after client, unless the array is lost: the blocks that it leaves,
/// its replies and what sums them up.
pub fn a_sweep_comes_client_after_client<D: Disk>()
    // Over the blocks of the opening,
    ensures opening { (a : Work) (taken back : List (Option D)) (s : Service)
        (r : RanPlain D.Disk a taken s back) (count ops wide blocks : ℕ)
        → AreApart count ops wide blocks a.clients → blocks ≤ blocks_in a.layout
        → s.ending.lost ≡ None → SweptInTurn D.Disk a taken s back r.run.start.blocks }

    // and over those that the devices held as they were taken.
    ensures held { (a : Work) (taken back : List (Option D)) (s : Service)
        (r : RanPlain D.Disk a taken s back) (count ops wide blocks : ℕ)
        → AreApart count ops wide blocks a.clients → blocks ≤ blocks_in a.layout
        → s.ending.lost ≡ None
        → SweptInTurn D.Disk a taken s back
        (decode a.layout (contents_of D.Disk taken) (states_in a)) }

    // Clients that are drawn from a number over the blocks of the array are such clients.
    ensures seeds { (a : Work) (taken back : List (Option D)) (s : Service)
        (r : RanPlain D.Disk a taken s back) (seed clients ops : ℕ)
        → 0 < clients → 0 < blocks_in a.layout
        → a.clients ≡ drawn seed clients ops (blocks_in a.layout) → s.ending.lost ≡ None
        → SweptInTurn D.Disk a taken s back
        (decode a.layout (contents_of D.Disk taken) (states_in a)) }
{}
