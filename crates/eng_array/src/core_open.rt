//! An engine is opened, and closed.
ghost use Rattle.std.specs.Prelude.{◌≡◌, ℕ, length, MatchResult, IfOk, IfErr, List};
ghost use Rattle.eng_cols.specs.Cols.{ColumnState};
ghost use Rattle.eng_cols.specs.Lost.{NotLost};
ghost use Rattle.eng_events.specs.Closed.{IsClosed};
ghost use Rattle.eng_ends.specs.Copied.{AreLaid};
ghost use Rattle.eng_array.specs.Fitting.{FitsTrace, FitsRebuild, FitsRebuilding};
ghost use Rattle.eng_cols.specs.Stripes.{states_of};
ghost use Rattle.eng_events.specs.Opened.{IsSetup, IsOpened, NoneOut, OpensWorlds};
ghost use Rattle.eng_state.specs.Serves.{Stands};
ghost use Rattle.eng_array.specs.Steady.{IsSteady};
ghost use Rattle.eng_log.specs.Handed.{AreRegions};
ghost use Rattle.eng_parts.specs.Fresh.{IsRoomFor, IsFault};

use crate::calls::Core;
use blk_disk::Disk;
use eng_events::{close, open};
use eng_parts::{Closed, CoreRoom, OpenFault, Setup};
use lay_core::Layout;

impl<L: Layout, D: Disk + Drop> Core<L, D> {
    /// Opens an engine over the setup, in room that was taken for it. Where the array is lost, the setup is handed back.
    /// It takes no memory. A trace that is to be kept must have room for all events of the setup.
    pub fn open(
        setup: Setup<L, D>,
        room: CoreRoom<D>,
    ) -> Result<Core<L, D>, (OpenFault, Setup<L, D>)>
        requires setup { IsSetup L.Layout D.Disk setup }
        requires room { IsRoomFor (L.shape setup.layout) (length setup.devices.items)
            setup.clients.items setup.graphs.items setup.trace room }
        requires trace { FitsTrace L.Layout setup }
        ensures fault { MatchResult result (λ engine. NotLost (L.shape setup.layout)
            (states_of (L.shape setup.layout) setup.columns.items)) (λ e. IsFault
            (L.shape setup.layout) (states_of (L.shape setup.layout) setup.columns.items) e.0) }
        ensures back { IfErr result (λ e. e.1 ≡ setup) }
        ensures opened { IfOk result (λ engine. IsOpened L.Layout D.Disk setup engine.array) }
        ensures none_out { IfOk result (λ engine. NoneOut engine.array.clients) }
        ensures stands { IfOk result (λ engine. Stands L.Layout engine.array) }
        ensures worlds { IfOk result (λ engine. OpensWorlds L.Layout D.Disk engine.array) }
        ensures laid { IfOk result
            (λ engine. AreLaid engine.array.log.handed engine.array.clients) }
        ensures steady { IfOk result (λ engine. IsSteady L.Layout D.Disk engine.array) }
        ensures rebuilds { IfOk result (λ engine. (cols : List ColumnState) (column asked : ℕ)
            → FitsRebuilding L.Layout setup cols column asked
            → FitsRebuild L.Layout engine.array cols column asked) }
    {
        match open(setup, room) {
            Ok(array) => Ok(Core { array }),
            Err(fault) => Err(fault),
        }
    }

    /// What is so of the regions of what reads hand out. It does nothing.
    pub fn regions_stand(&self)
        ensures { AreRegions self.now.array.log.handed }
    {
        self.array.log.stands();
    }

    /// Closes an engine of which no node is out, as where it is at rest, and hands back what it has. Once the array is
    /// lost, each item without a reply is replied so.
    pub fn close(self) -> Closed<L, D>
        requires steady { IsSteady L.Layout D.Disk self.array }
        requires none_out { NoneOut self.array.clients }
        ensures { IsClosed L.Layout self.array result }
    {
        close(self.array)
    }
}
