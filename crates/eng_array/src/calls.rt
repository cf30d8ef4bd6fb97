//! The calls of an engine: each is one event, and asks no more than that the event is possible.
ghost use Rattle.std.specs.Prelude.{◌≡◌, ◌<◌, Some, None, length, slice_get};
ghost use Rattle.graph_mean.specs.Graph.{kind_at};
ghost use Rattle.eng_cols.specs.Cols.{Dead};
ghost use Rattle.eng_world.specs.declared.item.Traced.TheVariants as event;
ghost use Rattle.eng_log.specs.Log.{noted};
ghost use Rattle.eng_state.specs.Can.{place_now, CanFire, CanSkip};
ghost use Rattle.eng_state.specs.Beginning.{CanBegin};
ghost use Rattle.eng_state.specs.Moves.{id_of};
ghost use Rattle.eng_clients.specs.Desk.{desk_at, spot_at};
ghost use Rattle.eng_ends.specs.EndLog.{LogEnds};
ghost use Rattle.eng_state.specs.Homes.{device_in, slots_home};
ghost use Rattle.eng_state.specs.Out.{IsOut, CameBack, OthersStay};
ghost use Rattle.eng_fails.specs.Returned.{ended_by};
ghost use Rattle.eng_state.specs.Serves.{CanTake, CanBack};
ghost use Rattle.eng_state.specs.Steps.{Follows};
ghost use Rattle.eng_array.specs.Steady.{IsSteady};
ghost use Rattle.eng_array.specs.Tickets.{IsEndOf, Happens, KeepsJobs, Lends, GetsBack};

use blk_disk::Disk;
use blk_plain::Outcome;
use eng_cols::Spot;
use eng_events::goes_home;
use eng_fails::{fail, is_dead};
use eng_job::Job;
use eng_starts::{back, begin, fire, skip, take};
use eng_state::Array;
use lay_core::Layout;

/// An array engine. What it keeps between two calls is `IsSteady`.
#[derive(Drop)]
pub struct Core<L, D> {
    pub(crate) array: Array<L, D>,
}

impl<L: Layout, D: Disk> Core<L, D> {
    /// Fires a node that is ready. Its device and its buffers leave with the job.
    pub fn fire(&mut self, client: u32, node: u32) -> Job<D>
        requires steady { IsSteady L.Layout D.Disk self.old.array }
        requires can { CanFire L.Layout self.old.array client node }
        ensures out { IsOut D.Disk L.Layout self.new.array result }
        ensures job { (result.client ≡ client) × (result.node ≡ node) }
        ensures step { Follows L.Layout D.Disk self.old.array
            (event.Fire (id_of self.old.array.clients client) node) self.new.array }
        ensures steady { IsSteady L.Layout D.Disk self.new.array }
        ensures trace { self.new.array.log
            ≡ noted self.old.array.log (event.Fire (id_of self.old.array.clients client) node) }
        ensures stays { (job : Job D) → IsOut D.Disk L.Layout self.old.array job
            → IsOut D.Disk L.Layout self.new.array job }
        ensures happens { Happens L.Layout D.Disk
            (event.Fire (id_of self.old.array.clients client) node) self.old.array self.new.array }
        ensures lends { Lends L.Layout D.Disk result self.old.array self.new.array }
    {
        let at = self.array.place_of(client, node);
        self.fire_at(client, node, at)
    }

    /// Fires a node that is ready, as [`Core::fire`] does, whose unit stands there, as who chose it was told.
    #[inline(always)]
    pub fn fire_at(&mut self, client: u32, node: u32, at: Option<Spot>) -> Job<D>
        requires steady { IsSteady L.Layout D.Disk self.old.array }
        requires can { CanFire L.Layout self.old.array client node }
        requires at { at ≡ place_now L.Layout self.old.array client node }
        ensures out { IsOut D.Disk L.Layout self.new.array result }
        ensures job { (result.client ≡ client) × (result.node ≡ node) }
        ensures step { Follows L.Layout D.Disk self.old.array
            (event.Fire (id_of self.old.array.clients client) node) self.new.array }
        ensures steady { IsSteady L.Layout D.Disk self.new.array }
        ensures trace { self.new.array.log
            ≡ noted self.old.array.log (event.Fire (id_of self.old.array.clients client) node) }
        ensures stays { (job : Job D) → IsOut D.Disk L.Layout self.old.array job
            → IsOut D.Disk L.Layout self.new.array job }
        ensures happens { Happens L.Layout D.Disk
            (event.Fire (id_of self.old.array.clients client) node) self.old.array self.new.array }
        ensures lends { Lends L.Layout D.Disk result self.old.array self.new.array }
    {
        fire(&mut self.array, client, node, at)
    }

    /// A job that was out comes home, performed with this outcome: what left with it is put back, and its node ends, bad
    /// also where it is a write whose device has failed since it was fired. Once the array is lost the end does no more.
    #[inline(always)]
    pub fn finish(&mut self, job: Job<D>, outcome: Outcome)
        requires steady { IsSteady L.Layout D.Disk self.old.array }
        requires back { CameBack D.Disk L.Layout self.old.array job outcome }
        ensures step { Follows L.Layout D.Disk self.old.array (ended_by self.old.array job outcome)
            self.new.array }
        ensures steady { IsSteady L.Layout D.Disk self.new.array }
        ensures trace { LogEnds (L.shape self.old.array.layout) self.old.array.cols.states
            (desk_at self.old.array.clients job.client)
            self.old.array.log (ended_by self.old.array job outcome) self.new.array.log
            (id_of self.old.array.clients job.client)
            (kind_at (desk_at self.old.array.clients job.client).run.graph job.node)
            self.old.array.lost }
        ensures stays { OthersStay D.Disk L.Layout job.client job.node self.old.array
            self.new.array }
        ensures happens { Happens L.Layout D.Disk (ended_by self.old.array job outcome)
            self.old.array self.new.array }
        ensures end { IsEndOf (ended_by self.old.array job outcome) job.client job.node }
        ensures devices { self.new.array.devices.slots ≡ slots_home (device_in job.work)
            (spot_at (desk_at self.old.array.clients job.client) job.node) self.old.array.devices }
        ensures gets { GetsBack L.Layout D.Disk job.client job.node self.old.array self.new.array }
    {
        goes_home(&mut self.array, job, outcome);
    }

    /// Passes over a ready write whose unit is missing, or of a rebuild, whose target is dead.
    pub fn skip(&mut self, client: u32, node: u32)
        requires steady { IsSteady L.Layout D.Disk self.old.array }
        requires can { CanSkip L.Layout self.old.array client node }
        ensures step { Follows L.Layout D.Disk self.old.array
            (event.Skip (id_of self.old.array.clients client) node) self.new.array }
        ensures steady { IsSteady L.Layout D.Disk self.new.array }
        ensures trace { self.new.array.log
            ≡ noted self.old.array.log (event.Skip (id_of self.old.array.clients client) node) }
        ensures stays { (job : Job D) → IsOut D.Disk L.Layout self.old.array job
            → IsOut D.Disk L.Layout self.new.array job }
        ensures happens { Happens L.Layout D.Disk
            (event.Skip (id_of self.old.array.clients client) node) self.old.array self.new.array }
        ensures keeps { KeepsJobs L.Layout D.Disk self.old.array self.new.array }
    {
        skip(&mut self.array, client, node);
    }

    /// Begins the client's next item, where it has no operation. An operation out of range is replied so, and else one
    /// over more than 16 stripes; any other waits. The column of a Fail item fails, and the item is replied ok.
    pub fn begin(&mut self, client: u32)
        requires steady { IsSteady L.Layout D.Disk self.old.array }
        requires can { CanBegin self.old.array client }
        ensures step { Follows L.Layout D.Disk self.old.array
            (event.Begin (id_of self.old.array.clients client)) self.new.array }
        ensures steady { IsSteady L.Layout D.Disk self.new.array }
        ensures trace { self.new.array.log
            ≡ noted self.old.array.log (event.Begin (id_of self.old.array.clients client)) }
        ensures stays { (job : Job D) → IsOut D.Disk L.Layout self.old.array job
            → IsOut D.Disk L.Layout self.new.array job }
        ensures happens { Happens L.Layout D.Disk
            (event.Begin (id_of self.old.array.clients client)) self.old.array self.new.array }
        ensures keeps { KeepsJobs L.Layout D.Disk self.old.array self.new.array }
    {
        begin(&mut self.array, client);
    }

    /// The column fails, not by an item and not by a node. A dead one stays as it is.
    pub fn fail(&mut self, column: u32)
        requires steady { IsSteady L.Layout D.Disk self.old.array }
        requires column { column < length self.old.array.cols.states }
        requires not_lost { self.old.array.lost ≡ None }
        ensures dead { slice_get self.old.array.cols.states column ≡ Some Dead
            → self.new.array ≡ self.old.array }
        ensures step { (slice_get self.old.array.cols.states column ≡ Some Dead → ⊥)
            → Follows L.Layout D.Disk self.old.array (event.Fail column) self.new.array }
        ensures steady { IsSteady L.Layout D.Disk self.new.array }
        ensures trace { (slice_get self.old.array.cols.states column ≡ Some Dead → ⊥)
            → self.new.array.log ≡ noted self.old.array.log (event.Fail column) }
        ensures stays { (job : Job D) → IsOut D.Disk L.Layout self.old.array job
            → IsOut D.Disk L.Layout self.new.array job }
        ensures happens { (slice_get self.old.array.cols.states column ≡ Some Dead → ⊥)
            → Happens L.Layout D.Disk (event.Fail column) self.old.array self.new.array }
        ensures keeps { KeepsJobs L.Layout D.Disk self.old.array self.new.array }
    {
        if is_dead(&self.array, column) {
            return;
        }
        fail(&mut self.array, column);
    }

    /// Takes the client's operation, which waits: it is planned, holds its stripes, leases its buffers and begins. Where
    /// the checker refuses its graph, it is replied so in the same event.
    pub fn take(&mut self, client: u32)
        requires steady { IsSteady L.Layout D.Disk self.old.array }
        requires can { CanTake L.Layout self.old.array client }
        ensures step { Follows L.Layout D.Disk self.old.array
            (event.Take (id_of self.old.array.clients client)) self.new.array }
        ensures steady { IsSteady L.Layout D.Disk self.new.array }
        ensures trace { self.new.array.log
            ≡ noted self.old.array.log (event.Take (id_of self.old.array.clients client)) }
        ensures stays { (job : Job D) → IsOut D.Disk L.Layout self.old.array job
            → IsOut D.Disk L.Layout self.new.array job }
        ensures happens { Happens L.Layout D.Disk (event.Take (id_of self.old.array.clients client))
            self.old.array self.new.array }
        ensures keeps { KeepsJobs L.Layout D.Disk self.old.array self.new.array }
    {
        take(&mut self.array, client);
    }

    /// The client's operation, which was undone, is planned anew; or, by a graph of the file, replied undone.
    pub fn back(&mut self, client: u32)
        requires steady { IsSteady L.Layout D.Disk self.old.array }
        requires can { CanBack L.Layout self.old.array client }
        ensures step { Follows L.Layout D.Disk self.old.array
            (event.Back (id_of self.old.array.clients client)) self.new.array }
        ensures steady { IsSteady L.Layout D.Disk self.new.array }
        ensures trace { self.new.array.log
            ≡ noted self.old.array.log (event.Back (id_of self.old.array.clients client)) }
        ensures stays { (job : Job D) → IsOut D.Disk L.Layout self.old.array job
            → IsOut D.Disk L.Layout self.new.array job }
        ensures happens { Happens L.Layout D.Disk (event.Back (id_of self.old.array.clients client))
            self.old.array self.new.array }
        ensures keeps { KeepsJobs L.Layout D.Disk self.old.array self.new.array }
    {
        back(&mut self.array, client);
    }
}
