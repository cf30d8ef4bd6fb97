//! The devices are brought in, and handed back.
ghost use Rattle.std.specs.Prelude.{◌≡◌, ◌≤◌, [], length, map, replicate, false, IfOk, vec_capacity, vec_len};
ghost use Rattle.eng_parts.specs.Shelf.{seen_in};
ghost use Rattle.eng_parts.specs.Brought.{brought, at_home};

use crate::devices::Devices;
use crate::memory::Memory;
use crate::slot::Slot;
use std::alloc::Global;
use std::marker::Model;

/// Room for so many devices. Contracts see how many.
#[derive(Drop)]
pub struct DeviceRoom<D> {
    most: u32,
    slots: Vec<Slot<D>>,
    failed: Vec<bool>,
    home: Vec<Option<D>>,
}

impl<D> Model for DeviceRoom<D> {
    ghost use Rattle.std.specs.Prelude.{◌≡◌, ◌≤◌, ℕ, [], vec_capacity};

    ghost Value = { ℕ };

    ghost view = { λ r. r.most };

    ghost invariant = { λ r. record {
      slots : (r.slots.items ≡ []) × (r.most ≤ vec_capacity r.slots);
      failed : (r.failed.items ≡ []) × (r.most ≤ vec_capacity r.failed);
      home : (r.home.items ≡ []) × (r.most ≤ vec_capacity r.home);
    } };
}

fn slot_of<D>(device: Option<D>) -> Slot<D>
    ensures { seen_in result ≡ brought device }
{
    match device {
        Some(device) => Slot::Home(device),
        None => Slot::Absent,
    }
}

fn device_of<D: Drop>(slot: Slot<D>) -> Option<D>
    ensures { result ≡ at_home (seen_in slot) }
{
    match slot {
        Slot::Home(device) => Some(device),
        Slot::Absent | Slot::Out(_) => None,
    }
}

impl<D: Drop> DeviceRoom<D> {
    /// Room for so many devices. The only error is want of memory.
    pub fn open(alloc: Global, most: u32) -> Result<DeviceRoom<D>, Memory>
        ensures { IfOk result (λ room. room ≡ most) }
    {
        Ok(DeviceRoom {
            most,
            slots: Vec::with_capacity(alloc, most as usize)?,
            failed: Vec::with_capacity(alloc, most as usize)?,
            home: Vec::with_capacity(alloc, most as usize)?,
        })
    }

    /// These devices, all at home, of which none has failed.
    pub fn bring(self, devices: Vec<Option<D>>) -> Devices<D>
        requires { vec_len devices ≤ self }
        ensures { result ≡ record
            { slots = map brought devices.items; failed = replicate (length devices.items) false } }
    {
        let DeviceRoom {
            mut slots,
            mut failed,
            home,
            ..
        } = self;
        for device in devices {
            slots.push_reserved(slot_of(device));
            failed.push_reserved(false);
        }
        Devices {
            slots,
            failed,
            home,
        }
    }
}

impl<D: Drop> Devices<D> {
    /// All devices that are at home, in their places.
    pub fn close(self) -> Vec<Option<D>>
        ensures { result.items ≡ map at_home self.slots }
    {
        let Devices {
            slots,
            mut home,
            ..
        } = self;
        for slot in slots {
            home.push_reserved(device_of(slot));
        }
        home
    }
}
