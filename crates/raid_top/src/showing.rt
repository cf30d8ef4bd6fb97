//! An array is shown.
ghost use Rattle.std.specs.Prelude.{◌≡◌, IfOk, IfErr};
ghost use Rattle.raid_conf.specs.Form.{IsConf};
ghost use Rattle.raid_conf.specs.Layouts.{shape_of};
ghost use Rattle.raid_map.specs.Marking.{CanBeMarked};
ghost use Rattle.top_duty.specs.Opening.{AreTableRows};
ghost use Rattle.top_open.specs.Opening.{opened_seen};
ghost use Rattle.raid_top.specs.Shown.{IsEmptyMap, MapIs};
ghost use Rattle.raid_top.specs.Found.{IsUnionFound};

use crate::came::Shown;
use blk_disk::Disk;
use eng_cols::Column;
use lay_core::Layout;
use raid_conf::Conf;
use raid_map::{Map, read_maps};
use std::alloc::Global;
use top_duty::layout_of;
use top_looks::Marked;
use top_open::{Front, Opened};
use top_status::Status;

/// A map without marks of an array of this configuration that has labels; none of one without.
pub(crate) fn empty_map(alloc: Global, conf: &Conf, opened: &Opened) -> Result<Option<Map>, Status>
    requires conf { IsConf conf.now }
    requires rows { AreTableRows conf.now opened.now.rows }
    ensures map { IfOk result
        (IsEmptyMap (shape_of conf.now opened.now.rows) opened.now.newest) }
    ensures memory { IfErr result (λ status. status ≡ Status.Memory) }
{
    let Some(newest) = &opened.newest else {
        return Ok(None);
    };
    let layout = match layout_of(alloc, conf, opened.rows) {
        Ok(layout) => layout,
        Err(status) => return Err(status),
    };
    match Map::open(alloc, layout.stripes(), newest.serial) {
        Ok(map) => Ok(Some(map)),
        Err(_) => Err(Status::Memory),
    }
}

// What the maps of the devices in use mark together; nothing where none of them has one.
fn union_of<D: Disk>(
    mut map: Map,
    devices: &mut [Option<D>],
    columns: &mut [Column],
) -> Option<Marked>
    requires { CanBeMarked D.Disk columns.old devices.old }
    ensures { IsUnionFound D.Disk map columns.old columns.new devices.old devices.new result }
{
    if read_maps(&mut map, devices, columns) {
        Some(Marked {
            regions: map.regions(),
            marked: map.count(),
        })
    } else {
        None
    }
}

// The same where there is a map to read them into.
fn union_if<D: Disk>(
    map: Option<Map>,
    devices: &mut [Option<D>],
    columns: &mut [Column],
) -> Option<Marked>
    requires { CanBeMarked D.Disk columns.old devices.old }
    ensures { MapIs D.Disk map columns.old columns.new devices.old devices.new result }
{
    match map {
        Some(map) => union_of(map, devices, columns),
        None => None,
    }
}

/// What is shown of an array as it was opened: where there is a map to read them into sector 1 of each
/// device in use is read, once, and a column is dead whose device fails that.
pub(crate) fn show<D: Disk>(
    map: Option<Map>,
    mut opened: Opened,
    sizes: Vec<u64>,
    fronts: Vec<Front>,
    devices: &mut [Option<D>],
) -> Shown
    requires can { CanBeMarked D.Disk opened.columns.items devices.old }
    ensures found { MapIs D.Disk map opened.columns.items result.opened.columns.items devices.old
        devices.new result.map }
    ensures opened { opened_seen result.opened
        ≡ record (opened_seen opened) { columns = result.opened.columns.items } }
    ensures sizes { (result.sizes ≡ sizes) × (result.fronts ≡ fronts) }
{
    let map = union_if(map, devices, opened.columns.as_mut_slice());
    Shown {
        opened,
        sizes,
        fronts,
        map,
    }
}
