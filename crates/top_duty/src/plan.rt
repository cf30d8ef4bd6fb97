//! What the opening takes of the configuration, and of the sizes of the devices.
ghost use Rattle.std.specs.Prelude.{◌≡◌, ℕ, length, map, replicate, slice_index, IfOk};
ghost use Rattle.std.specs.Option.{option_map_or};
ghost use Rattle.raid_conf.specs.Form.{IsConf};
ghost use Rattle.top_duty.specs.Opening.{plan_of, sizes_of};
ghost use Rattle.top_duty.specs.Steps.{present_of, is_named};

use blk_disk::Disk;
use raid_conf::{Conf, design_parameters, table_rows, table_stripes};
use std::alloc::{AllocError, Global};
use top_open::{Front, Plan};

/// What the configuration says of labels and rows.
pub fn plan_of(conf: &Conf) -> Plan
    requires { IsConf conf.now }
    ensures { result ≡ plan_of conf.now }
{
    let design = design_parameters(conf);
    Plan {
        unit: conf.unit,
        level: u32::from(conf.level),
        b: design.b,
        k: design.k,
        r: design.r,
        lambda: design.lambda,
        spares: conf.spares,
        step: table_rows(conf),
        stripes: table_stripes(conf),
    }
}

// Whether a name isn't that of an absent disk.
fn is_named(name: &str) -> bool
    ensures { result ≡ is_named name.now }
{
    !name.is_empty()
}

/// Which columns' disks aren't absent.
pub(crate) fn present_of(alloc: Global, conf: &Conf) -> Result<Vec<bool>, AllocError>
    ensures { IfOk result (λ present. present.items ≡ present_of conf.now) }
{
    let mut present = Vec::new(alloc);
    for c in 0..conf.disks.len() {
        present.push(is_named(conf.disks.get(c)))?;
    }
    Ok(present)
}

// The sectors of a device, 0 where there is none.
fn size_of<D: Disk>(device: &Option<D>) -> u64
    ensures { result ≡ option_map_or D.size device.now 0 }
{
    match device {
        Some(device) => device.sectors(),
        None => 0,
    }
}

/// The sectors of each device, 0 where there is none.
pub(crate) fn sizes_of<D: Disk>(
    alloc: Global,
    devices: &[Option<D>],
) -> Result<Vec<u64>, AllocError>
    ensures { IfOk result (λ sizes. sizes.items ≡ sizes_of D.size devices.now) }
{
    let mut sizes = Vec::new(alloc);
    for device in devices {
        sizes.push(size_of(device))?;
    }
    Ok(sizes)
}

/// The sectors of this device, 0 where there is none.
pub(crate) fn size_at(sizes: &[u64], device: u32) -> u64
    ensures { result ≡ slice_index sizes.now device }
{
    match sizes.get(device as usize) {
        Some(size) => *size,
        None => 0,
    }
}

/// Nothing is read of so many devices.
pub(crate) fn unread(alloc: Global, count: usize) -> Result<Vec<Front>, AllocError>
    ensures { IfOk result (λ fronts. fronts.items ≡ replicate count Front.Away) }
{
    let mut fronts = Vec::new(alloc);
    for _ in 0..count {
        fronts.push(Front::Away)?;
    }
    Ok(fronts)
}
