//! The room of a core.
ghost use Rattle.std.specs.Prelude.{◌≡◌, ◌≤◌, length, map, count_by, MatchOption};
ghost use Rattle.eng_cols.specs.Cols.{IsFor, IsKept, is_set_filling, is_set_spread};
ghost use Rattle.eng_cols.specs.Stripes.{states_of};
ghost use Rattle.eng_cols.specs.Lost.{NotLost};
ghost use Rattle.eng_parts.specs.Fresh.{IsFault};

use crate::devices::DeviceRoom;
use crate::setup::OpenFault;
use crate::spare::Spare;
use buf_pool::Reserve;
use eng_clients::{ClientRooms, Rebuilds};
use eng_cols::{Cols, Column, Loss};
use eng_job::Lists;
use eng_log::Log;
use graph_check::Scratch;
use lay_core::Layout;
use stripe_lock::Locks;

/// All memory that a run takes, as a core's parts before it is opened.
#[derive(Drop)]
pub struct CoreRoom<D> {
    pub cols: Cols,
    pub devices: DeviceRoom<D>,
    pub pool: Reserve,
    pub locks: Locks,
    pub lists: Lists,
    pub clients: ClientRooms,
    pub scratch: Scratch,
    pub log: Log,
    pub rebuilds: Rebuilds,
    pub spare: Spare,
}

impl<D: Drop> CoreRoom<D> {
    /// The columns are these.
    pub fn set_columns<L: Layout>(&mut self, layout: &L, columns: &[Column])
        requires layout { IsFor (L.shape layout.now) self.old.cols }
        requires entries { length columns.now ≡ length self.old.cols.states }
        requires filling { count_by is_set_filling columns.now ≤ 1 }
        requires spread { count_by is_set_spread columns.now ≤ 1 }
        ensures set { self.new ≡ record self.old {
          cols = record self.old.cols
              { states = states_of (L.shape layout.now) columns.now };
        } }
        ensures kept { IsKept self.new.cols }
    {
        self.cols.set(layout, columns);
    }

    /// By what the array is lost, if it is.
    pub fn fault<L: Layout>(&self, layout: &L) -> Option<OpenFault>
        requires { IsFor (L.shape layout.now) self.now.cols }
        ensures { MatchOption result (NotLost (L.shape layout.now) self.now.cols.states)
            (IsFault (L.shape layout.now) self.now.cols.states) }
    {
        let Loss {
            first,
            second,
            stripe,
        } = self.cols.lost(layout)?;
        Some(OpenFault::Lost {
            first,
            second,
            stripe,
        })
    }
}
