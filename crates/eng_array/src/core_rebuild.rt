//! An engine begins a rebuild.
ghost use Rattle.std.specs.Prelude.{◌≡◌, ◌<◌, ℕ, MatchBool, MatchOption, slice_get, false, true};
ghost use Rattle.std.specs.List.{list_any};
ghost use Rattle.eng_cols.specs.Cols.{is_filling, passes};
ghost use Rattle.eng_cols.specs.Changes.{begun_filling, begun_spreading};
ghost use Rattle.eng_cols.specs.Seats.{HasStripeLeft, IsWhole};
ghost use Rattle.eng_world.specs.declared.item.Traced.TheVariants as event;
ghost use Rattle.eng_array.specs.Fitting.{FitsRebuild};
ghost use Rattle.eng_log.specs.Log.{noted};
ghost use Rattle.eng_starts.specs.Rebuilding.{CanFill, CanRebuild, CanResume, CanSpread, Started, added};
ghost use Rattle.eng_array.specs.Starts.{CanStart, HasResumed, begun_by, column_of, event_of, most_of};
ghost use Rattle.eng_array.specs.Steady.{IsSteady};
ghost use Rattle.eng_state.specs.Steps.{Follows};
ghost use Rattle.eng_array.specs.Tickets.{Happens, KeepsJobs};

use crate::calls::Core;
use crate::start::Start;
use blk_disk::Disk;
use eng_starts::{fill, resume, spread};
use lay_core::Layout;

impl<L: Layout, D: Disk> Core<L, D> {
    /// Starts a rebuild of a dead column onto a device that is in no column, before any operation has begun. Client 16
    /// gets a rebuild for each of the first of the column's stripes, so many or all, for which there must be room.
    pub fn fill(&mut self, column: u32, device: u32, count: u32)
        requires steady { IsSteady L.Layout D.Disk self.old.array }
        requires can { CanFill L.Layout D.Disk self.old.array column device }
        requires room { FitsRebuild L.Layout self.old.array
            (begun_filling self.old.array.cols column device) column count }
        ensures started { Started L.Layout self.old.array column
            count (begun_filling self.old.array.cols column device) (event.Fill column device)
            self.new.array }
        ensures step { Follows L.Layout D.Disk self.old.array
            (event.Fill column device (added self.new.array)) self.new.array }
        ensures steady { IsSteady L.Layout D.Disk self.new.array }
        ensures trace { self.new.array.log
            ≡ noted self.old.array.log (event.Fill column device (added self.new.array)) }
        ensures happens { Happens L.Layout D.Disk (event.Fill column device (added self.new.array))
            self.old.array self.new.array }
        ensures keeps { KeepsJobs L.Layout D.Disk self.old.array self.new.array }
    {
        fill(&mut self.array, column, device, count);
    }

    /// Goes on with the rebuild of a column that is filling, before any operation has begun. Client 16 gets a rebuild for
    /// each of the first of the column's stripes that aren't done, so many or all, for which there must be room.
    pub fn resume_column(&mut self, column: u32, count: u32)
        requires steady { IsSteady L.Layout D.Disk self.old.array }
        requires can { CanResume L.Layout D.Disk self.old.array column }
        requires room { FitsRebuild L.Layout self.old.array self.old.array.cols.states column
            count }
        ensures started { Started L.Layout self.old.array column count self.old.array.cols.states
            (event.Resume column) self.new.array }
        ensures step { Follows L.Layout D.Disk self.old.array
            (event.Resume column (added self.new.array)) self.new.array }
        ensures steady { IsSteady L.Layout D.Disk self.new.array }
        ensures trace { self.new.array.log
            ≡ noted self.old.array.log (event.Resume column (added self.new.array)) }
        ensures happens { Happens L.Layout D.Disk (event.Resume column (added self.new.array))
            self.old.array self.new.array }
        ensures keeps { KeepsJobs L.Layout D.Disk self.old.array self.new.array }
    {
        resume(&mut self.array, column, count);
    }

    /// Goes on with the rebuild of the column that is filling, as [`resume_column`](Core::resume_column) does.
    pub fn resume(&mut self, count: u32)
        requires steady { IsSteady L.Layout D.Disk self.old.array }
        requires starts { CanRebuild L.Layout D.Disk self.old.array }
        requires filling { list_any is_filling self.old.array.cols.states ≡ true }
        requires room { (column : ℕ) → CanResume L.Layout D.Disk self.old.array column
            → FitsRebuild L.Layout self.old.array self.old.array.cols.states column count }
        ensures resumed { (column : ℕ) → CanResume L.Layout D.Disk self.old.array column
            → HasResumed L.Layout D.Disk column count self.old.array self.new.array }
    {
        match self.filling() {
            Some(column) => self.resume_column(column, count),
            None => unreachable!(),
        }
    }

    /// Starts a rebuild of a dead column into the spare places, before any operation has begun. Client 16 gets a rebuild
    /// for each of the column's stripes, for which there must be room.
    pub fn spread(&mut self, column: u32)
        requires steady { IsSteady L.Layout D.Disk self.old.array }
        requires can { CanSpread L.Layout D.Disk self.old.array column }
        requires room { FitsRebuild L.Layout self.old.array
            (begun_spreading self.old.array.cols column) column 4294967295 }
        ensures started { Started L.Layout self.old.array column 4294967295
            (begun_spreading self.old.array.cols column) (λ _. event.Spread column) self.new.array }
        ensures step { Follows L.Layout D.Disk self.old.array (event.Spread column) self.new.array }
        ensures steady { IsSteady L.Layout D.Disk self.new.array }
        ensures trace { self.new.array.log ≡ noted self.old.array.log (event.Spread column) }
        ensures happens { Happens L.Layout D.Disk (event.Spread column) self.old.array
            self.new.array }
        ensures keeps { KeepsJobs L.Layout D.Disk self.old.array self.new.array }
    {
        spread(&mut self.array, column);
    }

    /// Starts a rebuild of a column so, or goes on with one, before any operation has begun. Client 16 gets a rebuild for
    /// each of the first of the column's stripes that aren't done, as many as are asked or all, for which there must be room.
    pub fn start(&mut self, start: Start)
        requires steady { IsSteady L.Layout D.Disk self.old.array }
        requires can { CanStart L.Layout D.Disk self.old.array start }
        requires room { FitsRebuild L.Layout self.old.array (begun_by self.old.array.cols start)
            (column_of start) (most_of start) }
        ensures started { Started L.Layout self.old.array (column_of start) (most_of start)
            (begun_by self.old.array.cols start) (event_of start) self.new.array }
        ensures step { Follows L.Layout D.Disk self.old.array
            (event_of start (added self.new.array)) self.new.array }
        ensures steady { IsSteady L.Layout D.Disk self.new.array }
        ensures trace { self.new.array.log
            ≡ noted self.old.array.log (event_of start (added self.new.array)) }
        ensures happens { Happens L.Layout D.Disk (event_of start (added self.new.array))
            self.old.array self.new.array }
        ensures keeps { KeepsJobs L.Layout D.Disk self.old.array self.new.array }
    {
        match start {
            Start::Fill {
                column,
                device,
                most,
            } => self.fill(column, device, most),
            Start::Resume { column, most } => self.resume_column(column, most),
            Start::Spread { column } => self.spread(column),
        }
    }

    /// The column that is filling; None exactly where none is.
    pub fn filling(&self) -> Option<u32>
        requires steady { IsSteady L.Layout D.Disk self.now.array }
        ensures { MatchOption result
            ((c : ℕ) → c < (L.shape self.now.array.layout).columns
            → passes is_filling (slice_get self.now.array.cols.states c) ≡ false)
            (λ c. (c < (L.shape self.now.array.layout).columns)
            × (passes is_filling (slice_get self.now.array.cols.states c) ≡ true)) }
    {
        self.array.cols.filling(self.array.layout.columns())
    }

    /// Whether all of the column's stripes are done there: those that have a unit on it, and those that have a unit on a
    /// spread column and their spare place on it. On a live column each is done, on a dead one none.
    pub fn whole(&self, column: u32) -> bool
        requires steady { IsSteady L.Layout D.Disk self.now.array }
        requires column { column < (L.shape self.now.array.layout).columns }
        ensures { MatchBool result
            (IsWhole (L.shape self.now.array.layout) self.now.array.cols.states column)
            (HasStripeLeft (L.shape self.now.array.layout) self.now.array.cols.states column) }
    {
        self.array.cols.whole(&self.array.layout, column)
    }
}
