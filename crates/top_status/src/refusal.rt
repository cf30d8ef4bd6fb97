//! Commands that are refused.
ghost use Rattle.std.specs.Prelude.{◌≡◌};
ghost use Rattle.top_status.specs.Dead.{dead_columns};
ghost use Rattle.top_status.specs.Refusals.{only};

use crate::status::Status;
use eng_cols::Column;
use std::alloc::Global;
use std::marker::Model;

/// How a command is refused, which contracts see as its status and the columns that are printed
/// dead before that.
#[derive(Drop)]
pub struct Refusal {
    status: Status,
    // Those of them that are dead are printed.
    columns: Vec<Column>,
}

impl Model for Refusal {
    ghost use Rattle.top_status.specs.Dead.{dead_columns};
    ghost use Rattle.top_status.specs.Refusals.{Refused};

    ghost Value = { Refused };

    ghost view = { λ r. record { status = r.status; dead = dead_columns r.columns.items } };
}

impl Refusal {
    /// Refused so, with no column printed dead. It takes no memory.
    pub fn only(alloc: Global, status: Status) -> Refusal
        ensures { result ≡ only status }
    {
        Refusal {
            status,
            columns: Vec::new(alloc),
        }
    }

    /// Refused so, after those of these columns that are dead.
    pub fn beside(columns: Vec<Column>, status: Status) -> Refusal
        ensures { result ≡ record { status = status; dead = dead_columns columns.items } }
    {
        Refusal { status, columns }
    }

    /// How it is refused.
    pub fn status(&self) -> &Status
        ensures { result.now ≡ self.now.status }
    {
        &self.status
    }

    /// The status by itself.
    pub fn into_status(self) -> Status
        ensures { result ≡ self.status }
    {
        self.status
    }

    // The columns of which the dead ones are printed.
    pub(crate) fn columns(&self) -> &[Column]
        ensures { dead_columns result.now ≡ self.now.dead }
    {
        self.columns.as_slice()
    }
}
