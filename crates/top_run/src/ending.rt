//! What was served is ended.
ghost use Rattle.eng_cols.specs.Cols.{IsFor};
ghost use Rattle.top_run.specs.Works.{service_seen};
ghost use Rattle.top_run.specs.Ends.{CanBeEnded, RunIsEnded};

use crate::service::Service;
use blk_disk::Disk;
use eng_array::Closed;
use eng_cols::Cols;
use lay_core::Layout;
use top_close::{Ending, Hand, settle};

/// Settles the devices in use, and tells of the run with its end. Nothing was rebuilt.
pub(crate) fn ended<L: Layout + Drop, D: Disk + Drop>(
    closed: Closed<L, D>,
    judge: Cols,
) -> (Service, Vec<Option<D>>)
    requires closed { CanBeEnded L.Layout closed }
    requires judge { IsFor (L.shape closed.layout) judge }
    ensures { RunIsEnded L.Layout closed D.Disk (service_seen result.0) result.1.items }
{
    let Closed {
        layout,
        mut devices,
        columns,
        clients,
        replies,
        history,
        trace,
        lost,
        sectors,
        ..
    } = closed;
    let mut hand = Hand {
        ending: Ending { columns, lost },
        judge,
    };
    settle(&layout, devices.as_mut_slice(), &mut hand);
    let ending = hand.ending;
    let service = Service {
        clients,
        replies,
        sectors,
        history,
        trace,
        line: None,
        columns: ending.columns,
        lost: ending.lost,
    };
    (service, devices)
}
