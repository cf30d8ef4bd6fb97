//! What holds of a core and the tickets that fit it, and of one that comes after another. These functions do nothing:
//! what they ensure is so.
ghost use Rattle.std.specs.Prelude.{◌≡◌, ◌≤◌, ◌++◌, ℕ, List, true, Option, reverse};
ghost use Rattle.eng_cols.specs.Contents.{InSync};
ghost use Rattle.eng_job.specs.declared.job.Job.{Job as AnyJob};
ghost use Rattle.eng_world.specs.World.{World};
ghost use Rattle.eng_world.specs.Step.{IsOpening, EventsLead};
ghost use Rattle.eng_world.specs.Invariant.{Reached};
ghost use Rattle.eng_world.specs.Continuing.{Continues};
ghost use Rattle.eng_array.specs.declared.calls.Core.{Core as AnyCore};
ghost use Rattle.eng_events.specs.Opened.{NoneOut};
ghost use Rattle.eng_state.specs.Shows.{Shows};
ghost use Rattle.eng_array.specs.Steady.{IsSteady};
ghost use Rattle.eng_array.specs.Tickets.{shape_of, graphs_of, keeps_trace, traced, size_at, faults_at};
ghost use Rattle.eng_crew.specs.Drained.{Drained};
ghost use Rattle.eng_crew.specs.Laws.{FitsIn, ComesAfter};
ghost use Rattle.eng_crew.specs.Places.{HavePlaces};

use blk_disk::Disk;
use lay_core::Layout;

/// Whatever opening the turn's first core shows, the core that fits among the tickets shows a world that a run of its
/// events has led to from there, and which meets the invariant of that opening. A device and a buffer that are out are
/// shown as they left.
pub fn what_fits_meets_the_invariant<L: Layout, D: Disk>()
    ensures { (opening now : AnyCore L D) (tickets : List (Option (AnyJob D))) (w : World)
        → (fits : FitsIn L.Layout D.Disk opening now tickets)
        → Shows D.Disk opening.array w → IsOpening (shape_of L.Layout D.Disk opening.array) w
        → (x : World) × Shows D.Disk now.array x × EventsLead
        (shape_of L.Layout D.Disk opening.array) (graphs_of opening.array) w fits.after.events x
        × Reached (shape_of L.Layout D.Disk opening.array)
        (InSync (shape_of L.Layout D.Disk opening.array) w.contents w.columns) w.blocks x }
{}

/// Each device and each buffer of an operation that runs is at home, or out with the job of one ticket.
pub fn each_has_one_place<L: Layout, D: Disk>()
    ensures { (opening now : AnyCore L D) (tickets : List (Option (AnyJob D)))
        → FitsIn L.Layout D.Disk opening now tickets → HavePlaces now.array tickets }
{}

/// What was asked, replied, committed, told and lost stays so in every core that comes after. Its trace, where it is
/// kept, goes on with the events between; no device changes its size, and no count of faults falls.
pub fn what_follows_continues<L: Layout, D: Disk>()
    ensures worlds { (old new : AnyCore L D) (w : World)
        → (after : ComesAfter L.Layout D.Disk old new) → Shows D.Disk old.array w
        → (x : World) × Shows D.Disk new.array x
        × EventsLead (shape_of L.Layout D.Disk old.array) (graphs_of old.array) w after.events x
        × Continues w x }
    ensures trace { (old new : AnyCore L D) → (after : ComesAfter L.Layout D.Disk old new)
        → keeps_trace old.array ≡ true
        → traced new.array ≡ traced old.array ++ reverse after.events }
    ensures devices { (old new : AnyCore L D) (d : ℕ) → ComesAfter L.Layout D.Disk old new
        → (size_at L.Layout D.Disk new.array d ≡ size_at L.Layout D.Disk old.array d)
        × (faults_at L.Layout D.Disk old.array d ≤ faults_at L.Layout D.Disk new.array d) }
{}

/// From a core of which no job is out few events of an item follow, whoever makes them.
pub fn few_events_follow<L: Layout, D: Disk>()
    ensures { (old new : AnyCore L D) → IsSteady L.Layout D.Disk old.array
        → NoneOut old.array.clients → ComesAfter L.Layout D.Disk old new
        → Drained L.Layout D.Disk old.array new.array }
{}
