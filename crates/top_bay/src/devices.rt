//! The devices that a bay lends and takes back.
ghost use Rattle.std.specs.Prelude.{◌≡◌, ◌≢◌, ◌⊎◌, ◌↔◌, ◌≤◌, ◌<◌, ℕ, List, None, Some, IsSome, [], length, vec_len, slice_get, IfOk, IfErr, OnOk, OnErr, IsErrOf};
ghost use Rattle.blk_disk.specs.Disk.{Rose};
ghost use Rattle.blk_disk.specs.Devices.{at_home, device_at};
ghost use Rattle.raid_conf.specs.Form.{IsConf};
ghost use Rattle.top_fetch.specs.Answers.{IsEarly, AnswersAs, RefusedAs};
ghost use Rattle.top_words.specs.Views.{action_seen};
ghost use Rattle.top_bay.specs.Asked.{devices_in, names_by};
ghost use Rattle.top_bay.specs.Steps.{device_in};
ghost use Rattle.top_bay.specs.Lent.{AreBack, AreOut, IsLent, IsMeant};

use crate::names::{count_for, name_for};
use raid_bay::Bay;
use raid_conf::Conf;
use std::alloc::Global;
use top_fetch::{look_device, take_device};
use top_status::Status;
use top_words::{Action, Deed};

// Puts a device back under its name; none under an empty one.
fn put_one<B: Bay>(bay: &mut B, name: &str, device: Option<B::D>)
    requires there { IsSome device → name.now ≡ [] → ⊥ }
    requires out { IsSome device → B.is_out bay.old name.now }
    ensures back { B.tells → IsSome device → B.home bay.new name.now ≡ device }
    ensures homes { B.tells → (n : List ℕ) → (IsSome device → n ≡ name.now → ⊥)
        → B.home bay.new n ≡ B.home bay.old n }
    ensures out { (n : List ℕ) → (n ≡ name.now → ⊥) → B.is_out bay.old n → B.is_out bay.new n }
    ensures faults { B.faults bay.new ≡ B.faults bay.old }
{
    match device {
        Some(device) => bay.put(name, device),
        None => {}
    }
}

/// Puts the devices that an action goes by back under their names, from the first on. It takes no memory and can't fail.
pub fn put_all<B: Bay>(bay: &mut B, conf: &Conf, action: Action<'_>, mut devices: Vec<Option<B::D>>)
    requires conf { IsConf conf.now }
    requires many { vec_len devices ≤ length (names_by conf.now (action_seen action)) }
    requires out { AreOut (B.is_out bay.old) (names_by conf.now (action_seen action))
        devices.items }
    ensures back { B.tells → AreBack (B.home bay.old) (B.home bay.new)
        (names_by conf.now (action_seen action.entry)) devices.items }
    ensures faults { B.faults bay.new ≡ B.faults bay.old }
{
    while let Some(device) = devices.pop() {
        put_one(bay, name_for(conf, action, devices.len() as u32), device);
    }
    devices.destroy_empty();
}

// Whether an action writes no device, so that it looks at them alone.
fn looks(action: Action<'_>) -> bool {
    match action.profile().deed {
        Deed::Looks | Deed::Checks => true,
        _ => false,
    }
}

// The device of a name that isn't empty, to be looked at or to be written too.
fn fetch<B: Bay>(alloc: Global, bay: &mut B, name: &str, looks: bool) -> Result<B::D, Status>
    ensures answer { B.tells → (name.now ≡ [] → ⊥) →
        AnswersAs (λ _. tt) result (device_in (B.home bay.old) name.now) }
    ensures ok { IfOk result (λ device. B.tells → B.home bay.old name.now ≡ Some device) }
    ensures gone { OnOk result (B.tells → B.home bay.new name.now ≡ None) }
    ensures is_out { OnOk result (B.is_out bay.new name.now) }
    ensures homes { B.tells → (n : List ℕ) → n ≢ name.now → B.home bay.new n ≡ B.home bay.old n }
    ensures same { OnErr result (B.tells → (n : List ℕ) → B.home bay.new n ≡ B.home bay.old n) }
    ensures kind { IfErr result IsEarly }
    ensures out { (n : List ℕ) → B.is_out bay.old n → B.is_out bay.new n }
    ensures later { B.faults bay.old ≤ B.faults bay.new }
    ensures cause { IsErrOf result Status.BayFault → Rose (B.faults bay.old) (B.faults bay.new) }
{
    if looks {
        look_device(alloc, bay, name)
    } else {
        take_device(alloc, bay, name)
    }
}

// The device of a name, to be looked at or to be written too; none of an empty name.
fn take_one<B: Bay>(
    alloc: Global,
    bay: &mut B,
    name: &str,
    looks: bool,
) -> Result<Option<B::D>, Status>
    ensures answer { B.tells → AnswersAs (λ _. tt) result (device_in (B.home bay.old) name.now) }
    ensures ok { IfOk result
        (λ device. B.tells → device ≡ at_home (B.home bay.old) (Some name.now)) }
    ensures there { IfOk result (λ device. IsSome device ↔ (name.now ≡ [] → ⊥)) }
    ensures is_out { OnOk result ((name.now ≡ [] → ⊥) → B.is_out bay.new name.now) }
    ensures homes { B.tells → (n : List ℕ) → (n ≢ name.now) ⊎ (n ≡ [])
        → B.home bay.new n ≡ B.home bay.old n }
    ensures same { OnErr result (B.tells → (n : List ℕ) → B.home bay.new n ≡ B.home bay.old n) }
    ensures kind { IfErr result IsEarly }
    ensures out { (n : List ℕ) → B.is_out bay.old n → B.is_out bay.new n }
    ensures later { B.faults bay.old ≤ B.faults bay.new }
    ensures cause { IsErrOf result Status.BayFault → Rose (B.faults bay.old) (B.faults bay.new) }
{
    if name.is_empty() {
        return Ok(None);
    }
    match fetch(alloc, bay, name, looks) {
        Ok(device) => Ok(Some(device)),
        Err(status) => Err(status),
    }
}

/// Takes the devices that an action goes by, those that it doesn't write to look at them, or leaves
/// the bay as it was.
pub(crate) fn take_all<B: Bay>(
    alloc: Global,
    bay: &mut B,
    conf: &Conf,
    action: Action<'_>,
) -> Result<Vec<Option<B::D>>, Status>
    requires { IsConf conf.now }
    ensures answer { B.tells → AnswersAs (λ _. tt) result
        (devices_in (B.home bay.old) (names_by conf.now (action_seen action.entry))) }
    ensures many { IfOk result
        (λ v. vec_len v ≡ length (names_by conf.now (action_seen action.entry))) }
    ensures lent { IfOk result (λ v. B.tells → IsLent (B.home bay.old) (B.home bay.new)
        (names_by conf.now (action_seen action.entry)) v.items) }
    ensures out { IfOk result
        (λ v. AreOut (B.is_out bay.new) (names_by conf.now (action_seen action.entry)) v.items) }
    ensures same { OnErr result (B.tells → (n : List ℕ) → B.home bay.new n ≡ B.home bay.old n) }
    ensures kind { IfErr result IsEarly }
    ensures later { B.faults bay.old ≤ B.faults bay.new }
    ensures cause { IsErrOf result Status.BayFault → Rose (B.faults bay.old) (B.faults bay.new) }
{
    let count = count_for(conf, action);
    let mut devices = match Vec::with_capacity(alloc, count as usize) {
        Ok(devices) => devices,
        Err(_) => return Err(Status::Memory),
    };
    for k in 0..count {
        match take_one(alloc, bay, name_for(conf, action, k), looks(action)) {
            Ok(device) => match devices.push(device) {
                Ok(()) => {}
                Err(_) => unreachable!(),
            },
            Err(status) => {
                put_all(bay, conf, action, devices);
                return Err(status);
            }
        }
    }
    Ok(devices)
}
