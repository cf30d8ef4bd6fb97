//! What was served is ended, and the array closed.
ghost use Rattle.std.specs.Prelude.{length, option_map};
ghost use Rattle.eng_cols.specs.Cols.{IsFor};
ghost use Rattle.top_run.specs.Works.{service_seen};
ghost use Rattle.top_labelled.specs.Begun.{IsColumnWithin};
ghost use Rattle.top_labelled.specs.Between.{HasEnded, MayClose};

use crate::line::{line_at_end, line_kept};
use blk_disk::StopDisk;
use eng_array::{Closed, Start};
use eng_cols::Cols;
use lay_core::Layout;
use raid_label::Label;
use raid_map::Map;
use top_acts::end_mapped;
use top_close::{Ending, Hand};
use top_run::Service;

/// Closes the array, clears its maps, if they are to be, and tells of the run with its end, and of the rebuild that was asked.
pub(crate) fn ended<L: Layout + Drop, D: StopDisk + Drop>(
    closed: Closed<L, D>,
    mut label: Label,
    judge: Cols,
    clear: Option<&Map>,
    asked: Option<Start>,
    device: Option<u32>,
) -> (Service, Vec<Option<D>>)
    requires closed { MayClose L.Layout D.Disk closed label }
    requires judge { IsFor (L.shape closed.layout) judge }
    requires within { IsColumnWithin asked (length closed.columns.items) }
    ensures { HasEnded L.Layout D.Disk closed label (option_map (λ m. m.now) clear.entry) asked device
        (service_seen result.0)
        result.1.items }
{
    let Closed {
        layout,
        mut devices,
        columns,
        clients,
        replies,
        history,
        trace,
        lost,
        sectors,
        ..
    } = closed;
    let line = line_kept(&layout, asked, device, &columns);
    let mut hand = Hand {
        ending: Ending { columns, lost },
        judge,
    };
    label.clean = 1;
    let slice = devices.as_mut_slice();
    end_mapped(&layout, slice, &mut hand, &mut label, clear);
    let ending = hand.ending;
    let line = line_at_end(ending.lost, line);
    let service = Service {
        clients,
        replies,
        sectors,
        history,
        trace,
        line,
        columns: ending.columns,
        lost: ending.lost,
    };
    (service, devices)
}
