//! What holds of chains of events. These functions do nothing: what they ensure is so.
ghost use Rattle.std.specs.Prelude.{◌≡◌, ◌<◌, ◌≤◌, ◌↔◌, ◌++◌, ℕ, List, true, false, length, reverse};
ghost use Rattle.blk_disk.specs.Devices.{RisesOn};
ghost use Rattle.blk_disk.specs.Disk.{Rose};
ghost use Rattle.eng_job.specs.declared.job.Job.{Job as AnyJob};
ghost use Rattle.eng_world.specs.declared.item.Traced.{Traced};
ghost use Rattle.eng_world.specs.World.{World};
ghost use Rattle.eng_world.specs.Nodes.{MakesOrUses};
ghost use Rattle.eng_world.specs.Step.{EventsLead};
ghost use Rattle.eng_state.specs.declared.array.Array.{Array as AnyCore};
ghost use Rattle.eng_parts.specs.declared.setup.Closed.{Closed};
ghost use Rattle.eng_parts.specs.declared.setup.Setup.{Setup};
ghost use Rattle.eng_clients.specs.declared.stage.Stage.TheVariants as stage;
ghost use Rattle.eng_array.specs.Blamed.{IsBlamed};
ghost use Rattle.eng_array.specs.HandedBack.{HandsBack};
ghost use Rattle.eng_clients.specs.Desk.{desk_at};
ghost use Rattle.eng_events.specs.Closed.{IsClosed};
ghost use Rattle.eng_events.specs.Opened.{IsOpened, NoneOut};
ghost use Rattle.eng_clients.specs.Seats.{seat_of};
ghost use Rattle.eng_parts.specs.Shelf.{IsAway};
ghost use Rattle.eng_state.specs.Shows.{Shows};
ghost use Rattle.eng_state.specs.Sound.{IsOutOf, HasAway};
ghost use Rattle.eng_array.specs.Steady.{IsSteady};
ghost use Rattle.eng_array.specs.Tickets.{Happens, Goes, Same, KeepsJobs, Lends, Quiet, keeps_trace, traced, shape_of, graphs_of, out_at, failed_at, size_at, faults_at, devices_of, DevicesGoOn};

use blk_disk::Disk;
use lay_core::Layout;

/// A look for an event goes before the event, and is no part of it.
pub fn looks_are_quiet<L: Layout, D: Disk>()
    ensures happens { (old mid new : AnyCore L D) (e : Traced) → Quiet L.Layout D.Disk old mid
        → Happens L.Layout D.Disk e mid new → Happens L.Layout D.Disk e old new }
    ensures keeps { (old mid new : AnyCore L D) → Quiet L.Layout D.Disk old mid
        → KeepsJobs L.Layout D.Disk mid new → KeepsJobs L.Layout D.Disk old new }
    ensures lends { (old mid new : AnyCore L D) (job : AnyJob D) → Quiet L.Layout D.Disk old mid
        → Lends L.Layout D.Disk job mid new → Lends L.Layout D.Disk job old new }
{}

/// From each world that the first core of a chain shows, the chain's events lead to one that the last core shows. Its
/// trace is longer by them where it is kept, and else stays, and each device goes on: none has changed its size, counts fewer faults or
/// tells its earlier calls otherwise.
pub fn chains_are_runs<L: Layout, D: Disk>()
    ensures append { (first mid last : AnyCore L D) (events more : List Traced)
        → Goes L.Layout D.Disk first events mid → Goes L.Layout D.Disk mid more last
        → Goes L.Layout D.Disk first (more ++ events) last }
    ensures same { (old new : AnyCore L D) (events : List Traced)
        → Goes L.Layout D.Disk old events new → Same L.Layout D.Disk old new }
    ensures leads { (old new : AnyCore L D) (events : List Traced) (w : World)
        → Goes L.Layout D.Disk old events new → Shows D.Disk old w
        → (x : World) × Shows D.Disk new x
        × EventsLead (shape_of L.Layout D.Disk old) (graphs_of old) w events x }
    ensures told { (old new : AnyCore L D) (events : List Traced)
        → Goes L.Layout D.Disk old events new → keeps_trace old ≡ true
        → traced new ≡ traced old ++ reverse events }
    ensures untold { (old new : AnyCore L D) (events : List Traced)
        → Goes L.Layout D.Disk old events new → keeps_trace old ≡ false → traced new ≡ traced old }
    ensures later { (old new : AnyCore L D) (events : List Traced) (d : ℕ)
        → Goes L.Layout D.Disk old events new
        → (size_at L.Layout D.Disk new d ≡ size_at L.Layout D.Disk old d)
        × (faults_at L.Layout D.Disk old d ≤ faults_at L.Layout D.Disk new d) }
    ensures devices { (old new : AnyCore L D) (events : List Traced)
        → Goes L.Layout D.Disk old events new
        → DevicesGoOn D.Disk (devices_of old) (devices_of new) }
{}

/// A core that comes of an opening by a chain of events hands back the layout, each client with its items and as many devices as were
/// handed in, the same of them absent, each of which goes on. A device whose count of faults rose between the two cores is
/// one whose count rose from the setup to what is handed back.
pub fn what_was_handed_in_comes_back<L: Layout, D: Disk>()
    ensures back { (setup : Setup L D) (first last : AnyCore L D) (events : List Traced)
        (closed : Closed L D)
        → IsOpened L.Layout D.Disk setup first → Goes L.Layout D.Disk first events last
        → IsClosed L.Layout last closed → HandsBack D.Disk setup closed }
    ensures rises { (setup : Setup L D) (first last : AnyCore L D) (events : List Traced)
        (closed : Closed L D) (d : ℕ)
        → IsOpened L.Layout D.Disk setup first
        → Goes L.Layout D.Disk first events last → IsClosed L.Layout last closed
        → Rose (faults_at L.Layout D.Disk first d) (faults_at L.Layout D.Disk last d)
        → RisesOn D.Disk setup.devices.items closed.devices.items d }
{}

/// A device that has failed in a chain of events has failed by something: its count of faults rose, or an item was
/// replied ok, or a call made, by which a column failed that has had it.
pub fn failed_devices_are_blamed<L: Layout, D: Disk>()
    ensures { (old new : AnyCore L D) (events : List Traced) (w x : World) (d : ℕ)
        → Goes L.Layout D.Disk old events new → Shows D.Disk old w → Shows D.Disk new x
        → failed_at old d ≡ false → failed_at new d ≡ true
        → IsBlamed L.Layout D.Disk old new events w x d }
{}

/// A node is out once. What is out, a device or a buffer of a lease, is with one node that is out.
pub fn what_is_out_has_one_place<L: Layout, D: Disk>()
    ensures once { (core : AnyCore L D) (c n : ℕ) → out_at core c n ≤ 1 }
    ensures node { (core : AnyCore L D) (c n : ℕ)
        → (out_at core c n ≡ 1) ↔ IsOutOf (desk_at core.clients c) n }
    ensures none { (core : AnyCore L D) → NoneOut core.clients ↔ ((c n : ℕ) → out_at core c n ≡ 0) }
    ensures devices { (core : AnyCore L D) (d : ℕ) (x : D) → IsSteady L.Layout D.Disk core
        → IsAway core.devices d x
        → (c : ℕ) × (n : ℕ) × (out_at core c n ≡ 1) × HasAway core.clients c n d
        × ((k m : ℕ) → HasAway core.clients k m d → (k ≡ c) × (m ≡ n)) }
    ensures buffers { (core : AnyCore L D) (c b : ℕ) → IsSteady L.Layout D.Disk core
        → (desk_at core.clients c).stage ≡ stage.Runs → b < length (desk_at core.clients c).lease
        → (seat_of core.pool (desk_at core.clients c) b).out ≡ true
        → (n : ℕ) × (out_at core c n ≡ 1) × MakesOrUses (desk_at core.clients c).run.graph n b
        × ((m : ℕ) → out_at core c m ≡ 1 → MakesOrUses (desk_at core.clients c).run.graph m b
        → m ≡ n) }
{}
