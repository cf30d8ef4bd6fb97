//! A core is opened.
ghost use Rattle.std.specs.Prelude.{◌≡◌, ◌≤◌, length, MatchResult, IfOk, IfErr};
ghost use Rattle.eng_cols.specs.Lost.{NotLost};
ghost use Rattle.eng_state.specs.Beginning.{AllAsked};
ghost use Rattle.eng_ends.specs.Copied.{AreLaid};
ghost use Rattle.eng_cols.specs.Stripes.{states_of};
ghost use Rattle.eng_events.specs.Opened.{IsSetup, IsAssembled, IsOpened, NoneOut, OpensWorlds};
ghost use Rattle.eng_state.specs.Serves.{Stands};
ghost use Rattle.eng_state.specs.Sound.{IsSound};
ghost use Rattle.eng_clients.specs.Fresh.{AreRoomsFor};
ghost use Rattle.eng_parts.specs.Fresh.{IsRoomFor, IsFault};

use blk_disk::Disk;
use eng_parts::{CoreRoom, OpenFault, Setup};
use eng_state::Array;
use lay_core::Layout;

// A core of these parts, where the array isn't lost.
fn put_together<L: Layout, D: Disk + Drop>(setup: Setup<L, D>, room: CoreRoom<D>) -> Array<L, D>
    requires devices { length setup.devices.items ≤ room.devices }
    requires clients { AreRoomsFor setup.clients.items room.clients }
    ensures { IsAssembled L.Layout D.Disk setup room result }
{
    Array {
        layout: setup.layout,
        cols: room.cols,
        devices: room.devices.bring(setup.devices),
        pool: room.pool,
        locks: room.locks,
        lists: room.lists,
        clients: room.clients.bring(setup.clients),
        graphs: setup.graphs,
        scratch: room.scratch,
        log: room.log,
        rebuilds: room.rebuilds,
        spare: room.spare,
        lost: None,
        next: 0,
    }
}

/// Opens a core over the setup, in room that was taken for it. Where the array is lost, the setup is handed back. It
/// takes no memory.
pub fn open<L: Layout, D: Disk + Drop>(
    setup: Setup<L, D>,
    room: CoreRoom<D>,
) -> Result<Array<L, D>, (OpenFault, Setup<L, D>)>
    requires setup { IsSetup L.Layout D.Disk setup }
    requires room { IsRoomFor (L.shape setup.layout) (length setup.devices.items)
        setup.clients.items setup.graphs.items setup.trace room }
    ensures fault { MatchResult result (λ core.
        NotLost (L.shape setup.layout) (states_of (L.shape setup.layout) setup.columns.items)) (λ e.
        IsFault (L.shape setup.layout) (states_of (L.shape setup.layout) setup.columns.items) e.0) }
    ensures back { IfErr result (λ e. e.1 ≡ setup) }
    ensures opened { IfOk result (IsOpened L.Layout D.Disk setup) }
    ensures sound { IfOk result (IsSound L.Layout D.Disk) }
    ensures none_out { IfOk result (λ core. NoneOut core.clients) }
    ensures asked { IfOk result (AllAsked L.Layout) }
    ensures stands { IfOk result (Stands L.Layout) }
    ensures worlds { IfOk result (OpensWorlds L.Layout D.Disk) }
    ensures laid { IfOk result (λ core. AreLaid core.log.handed core.clients) }
{
    let mut room = room;
    room.set_columns(&setup.layout, setup.columns.as_slice());
    match room.fault(&setup.layout) {
        Some(fault) => return Err((fault, setup)),
        None => {}
    }
    Ok(put_together(setup, room))
}
