//! Room for a core is taken over a setup, and a core is opened in it.
ghost use Rattle.std.specs.Prelude.{◌≡◌, ℕ, List, IfOk, IfErr, IfSome};
ghost use Rattle.eng_cols.specs.Cols.{ColumnState};
ghost use Rattle.eng_events.specs.Opened.{IsSetup, IsOpened, NoneOut, OpensWorlds};
ghost use Rattle.eng_array.specs.Fitting.{FitsRebuild, FitsRebuilding, FitsTrace};
ghost use Rattle.eng_array.specs.Steady.{IsSteady};
ghost use Rattle.top_serve.specs.Setups.{IsFew, IsLostBy, IsNotLost, IsRoomOf, SectorsAreLong};

use blk_disk::Disk;
use eng_array::{Core, CoreRoom, Loss, OpenFault, Setup};
use lay_core::Layout;
use std::alloc::Global;

/// Takes all memory that a run over the setup takes. It is room for each setup of the same layout, items and trace, with
/// as many devices: columns and devices may change before it is served in.
///
/// None is want of memory.
pub fn room_for<L: Layout, D: Disk + Drop>(
    alloc: Global,
    setup: &Setup<L, D>,
) -> Option<CoreRoom<D>>
    requires { IsFew setup.now }
    ensures { IfSome result (IsRoomOf L.Layout setup.now) }
{
    let devices = setup.devices.len() as u32;
    match CoreRoom::open(
        alloc,
        &setup.layout,
        devices,
        setup.clients.as_slice(),
        setup.graphs.as_slice(),
        setup.trace,
    ) {
        Ok(room) => Some(room),
        Err(_) => None,
    }
}

/// Opens a core over the setup, in room that was taken for it. It takes no memory.
///
/// The loss is that of an array that is lost by its columns; the setup then comes back as it was.
pub(crate) fn opened_in<L: Layout + Drop, D: Disk + Drop>(
    setup: Setup<L, D>,
    room: CoreRoom<D>,
) -> Result<Core<L, D>, (Loss, Setup<L, D>)>
    requires setup { IsSetup L.Layout D.Disk setup }
    requires room { IsRoomOf L.Layout setup room }
    requires trace { FitsTrace L.Layout setup }
    ensures kept { IfOk result (λ core. IsNotLost L.Layout setup) }
    ensures opened { IfOk result (λ core. IsOpened L.Layout D.Disk setup core.array) }
    ensures worlds { IfOk result (λ core. OpensWorlds L.Layout D.Disk core.array) }
    ensures steady { IfOk result (λ core. IsSteady L.Layout D.Disk core.array) }
    ensures home { IfOk result (λ core. NoneOut core.array.clients) }
    ensures long { IfOk result (λ core. SectorsAreLong D.Disk) }
    ensures rebuilds { IfOk result (λ core. (cols : List ColumnState) (column asked : ℕ)
        → FitsRebuilding L.Layout setup cols column asked
        → FitsRebuild L.Layout core.array cols column asked) }
    ensures loss { IfErr result (λ e. IsLostBy L.Layout setup e.0) }
    ensures back { IfErr result (λ e. e.1 ≡ setup) }
{
    match Core::open(setup, room) {
        Ok(core) => Ok(core),
        Err((fault, setup)) => Err((loss_of(fault), setup)),
    }
}

fn loss_of(fault: OpenFault) -> Loss
    ensures { fault ≡ OpenFault.Lost result.first result.second result.stripe }
{
    let OpenFault::Lost {
        first,
        second,
        stripe,
    } = fault;
    Loss {
        first,
        second,
        stripe,
    }
}
