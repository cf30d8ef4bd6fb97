//! The devices are looked at.
ghost use Rattle.std.specs.Prelude.{◌≡◌, IfOk, OnErr, length};
ghost use Rattle.blk_disk.specs.Devices.{Changes};
ghost use Rattle.top_words.specs.Views.{action_seen};
ghost use Rattle.top_duty.specs.Opening.{sizes_of};
ghost use Rattle.top_duty.specs.Steps.{reads_fronts};
ghost use Rattle.top_duty.specs.Taken.{Reads};

use crate::kind::reads_fronts;
use crate::plan::{sizes_of, unread};
use blk_disk::Disk;
use std::alloc::{AllocError, Global};
use top_open::{Front, read_fronts};
use top_words::Action;

/// What was seen of devices.
#[derive(Drop)]
pub(crate) struct Seen {
    /// How many sectors each has, 0 where there is none.
    pub sizes: Vec<u64>,
    /// Sector 0 of each, as far as it was read.
    pub fronts: Vec<Front>,
}

// Reads sector 0 of each device, where the action asks for it.
fn fronts_of<D: Disk>(
    alloc: Global,
    action: Action<'_>,
    devices: &mut [Option<D>],
) -> Result<Vec<Front>, AllocError>
    ensures read { IfOk result (λ fronts. Reads D.Disk (reads_fronts (action_seen action.entry))
        devices.old devices.new fronts.items) }
    ensures stays { Changes D.Disk (λ _ _. ⊥) devices.old devices.new }
    ensures same { OnErr result (devices.new ≡ devices.old) }
{
    if reads_fronts(action) {
        read_fronts(alloc, devices)
    } else {
        unread(alloc, devices.len())
    }
}

/// Looks at the devices: at their sizes, and where the action asks for it at sector 0 of each. Where memory is wanted
/// no device was called.
pub(crate) fn look<D: Disk>(
    alloc: Global,
    action: Action<'_>,
    devices: &mut [Option<D>],
) -> Result<Seen, AllocError>
    ensures read { IfOk result (λ seen. Reads D.Disk (reads_fronts (action_seen action.entry))
        devices.old devices.new seen.fronts.items) }
    ensures sizes { IfOk result (λ seen. seen.sizes.items ≡ sizes_of D.size devices.new) }
    ensures stays { Changes D.Disk (λ _ _. ⊥) devices.old devices.new }
    ensures same { OnErr result (devices.new ≡ devices.old) }
{
    let sizes = sizes_of(alloc, devices)?;
    let fronts = fronts_of(alloc, action, devices)?;
    Ok(Seen { sizes, fronts })
}
