//! The opening of a core over two columns.
ghost use Rattle.std.specs.Prelude.{◌≤◌, IfOk, All, length};
ghost use Rattle.crew_tests.specs.Trial.{AreSmall, IsServable};

use crate::arrays::pair;
use blk_disk::Disk;
use eng_array::{Column, Core, CoreRoom, Setup};
use item_list::Items;
use lay_core::Layout;
use lay_plain::Raid5;
use std::alloc::Global;
use std::test::Fail;

// A core at level 5 over two columns of 64 rows, with units of one sector, that live on these devices. It keeps no
// trace.
pub fn opened<D: Disk + Drop>(
    alloc: Global,
    first: D,
    second: D,
    clients: Vec<Items>,
) -> Result<Core<Raid5, D>, Fail>
    requires first { 128 ≤ D.size first }
    requires second { 128 ≤ D.size second }
    requires few { length clients.items ≤ 16 }
    requires small { All AreSmall clients.items }
    ensures { IfOk result (λ core. IsServable ⟦<Raid5 as Layout>⟧ D.Disk core.array) }
{
    let Ok(layout) = Raid5::new(2, 1, 64) else {
        return Err(Fail::from("no layout"))
    };
    let columns = vec![in alloc; Column::Live { device: 0 }, Column::Live { device: 1 }]?;
    let devices = pair(alloc, first, second)?;
    let room = CoreRoom::open(alloc, &layout, 2, clients.as_slice(), &[], false)?;
    let setup = Setup {
        layout,
        devices,
        columns,
        clients,
        graphs: Vec::new(alloc),
        trace: false,
    };
    let Ok(core) = Core::open(setup, room) else {
        return Err(Fail::from("lost as it was opened"))
    };
    Ok(core)
}
