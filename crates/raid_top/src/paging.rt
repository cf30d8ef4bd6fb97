//! What came of a call, as what is printed by pages.
use crate::finished::{Finished, put_finished};
use blk_disk::Failed;
use put_line::Prints;
use raid_bay::Sink;
use top_status::Status;

/// What came of a call, and its status.
#[derive(Drop)]
pub(crate) struct Telling<'a, 'b> {
    pub finished: &'a Finished<'b>,
    pub status: &'a Status,
}

impl Prints for Telling<'_, '_> {
    ghost use Rattle.std.specs.Prelude.{◌≡◌};
    ghost use Rattle.raid_top.specs.Calls.{call_text};
    ghost use Rattle.raid_top.specs.Finished.{CanBeTold, finished_seen, status_finished};

    ghost ready = { λ t.
        CanBeTold t.finished.now × (t.status.now ≡ status_finished t.finished.now) };

    ghost text = { λ t. call_text (finished_seen t.finished.now) };

    fn put_into<K: Sink>(&self, out: &mut K) -> Result<(), Failed> {
        put_finished(self.finished, self.status, out)
    }
}
