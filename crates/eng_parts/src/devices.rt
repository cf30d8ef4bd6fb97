//! The devices, at home or out.
ghost use Rattle.std.specs.Prelude.{◌≡◌, ◌<◌, ◌↔◌, ℕ, Some, false, length, IsTrue};
ghost use Rattle.eng_parts.specs.Shelf.{Seen, Shelved, IsHome, IsAway, seen_at, has_failed, left, come_home, failing};

mod open;

use crate::slot::Slot;
pub use open::DeviceRoom;
use std::marker::Model;
use std::mem;
use std::snapshot::Snapshot;

/// All devices, and which of them have failed.
#[derive(Drop)]
pub struct Devices<D> {
    slots: Vec<Slot<D>>,
    failed: Vec<bool>,
    // Where all devices are put as the core is closed; empty until then.
    home: Vec<Option<D>>,
}

impl<D> Model for Devices<D> {
    ghost use Rattle.std.specs.Prelude.{◌≡◌, ◌≤◌, [], length, vec_capacity};
    ghost use Rattle.eng_parts.specs.Shelf.{Shelved, shown};

    ghost Value = { Shelved D };

    ghost view = { λ s. shown s.slots.items s.failed.items };

    ghost invariant = { λ s. record {
      failed : length s.failed.items ≡ length s.slots.items;
      home : (s.home.items ≡ []) × (length s.slots.items ≤ vec_capacity s.home);
    } };
}

impl<D> Devices<D> {
    /// A device that is at home leaves.
    pub fn leave(&mut self, device: u32) -> D
        requires { IsHome self.old device }
        ensures was { seen_at self.old device ≡ Some (record { out = false; device = result }) }
        ensures now { self.new ≡ left self.old device result }
    {
        let slot = &mut self.slots[device as usize];
        let copied = match slot {
            Slot::Home(device) => Snapshot::of(device),
            Slot::Absent | Slot::Out(_) => unreachable!(),
        };
        match mem::replace(slot, Slot::Out(copied)) {
            Slot::Home(device) => device,
            Slot::Absent | Slot::Out(_) => unreachable!(),
        }
    }

    /// A device that was out comes home.
    pub fn put(&mut self, number: u32, device: D)
        requires { (x : D) × IsAway self.old number x }
        ensures { self.new ≡ come_home self.old number device }
    {
        match mem::replace(&mut self.slots[number as usize], Slot::Home(device)) {
            Slot::Absent | Slot::Out(_) => {}
            Slot::Home(_) => unreachable!(),
        }
    }

    /// Whether the device is there and at home.
    pub fn is_home(&self, device: u32) -> bool
        ensures { IsTrue result ↔ IsHome self.now device }
    {
        match self.slots.get(device as usize) {
            Some(Slot::Home(_)) => true,
            Some(Slot::Absent | Slot::Out(_)) | None => false,
        }
    }

    /// Whether the device has failed.
    pub fn has_failed(&self, device: u32) -> bool
        requires { device < length self.now.slots }
        ensures { result ≡ has_failed self.now device }
    {
        self.failed[device as usize]
    }

    /// The device has failed from now on.
    pub fn fail(&mut self, device: u32)
        requires { device < length self.old.slots }
        ensures { self.new ≡ failing self.old device }
    {
        self.failed[device as usize] = true;
    }
}
