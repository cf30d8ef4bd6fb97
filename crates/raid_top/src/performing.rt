//! What is due is done.
ghost use Rattle.std.specs.Prelude.{◌≡◌, List, [], ◌∷◌, length, Some, IfOk, IfErr, OnErr};
ghost use Rattle.raid_conf.specs.Form.{IsConf};
ghost use Rattle.top_bay.specs.Asked.{names_for, names_of};
ghost use Rattle.top_bay.specs.Views.{IsWithinLimits, asked_seen};
ghost use Rattle.top_duty.specs.Duty.{beside_dead};
ghost use Rattle.top_duty.specs.Fit.{IsFit, IsStartIf};
ghost use Rattle.top_duty.specs.Opening.{kind_of, sizes_of};
ghost use Rattle.top_duty.specs.Views.{IsDutyOver, IsFitFor, IsPrepared, admitted_by, duty_seen};
ghost use Rattle.top_open.specs.Opening.{opened_seen};
ghost use Rattle.top_status.specs.Refusals.{only};
ghost use Rattle.top_open.specs.declared.fronts.Front.{Front};
ghost use Rattle.top_words.specs.Asked.{Init, profile_of};
ghost use Rattle.top_words.specs.Views.{action_seen};
ghost use Rattle.raid_top.specs.Does.{Does, DoesDeed, DoesRun, ShowsArray};
ghost use Rattle.raid_top.specs.Orders.{order_for};
ghost use Rattle.raid_top.specs.Served.{IsMemory, IsRun};
ghost use Rattle.raid_top.specs.Views.{CanBePrinted, PrintsConf, outcome_seen};

use crate::array::Order;
use crate::came::Came;
use crate::changing::{change, maps_for};
use crate::order::order_of;
use crate::running::{Served, serve};
use crate::setup::{Unserved, work_of, workers_of};
use crate::showing::{empty_map, show};
use blk_disk::{Disk, StopDisk};
use raid_conf::Conf;
use raid_progress::Progress;
use std::alloc::Global;
use std::sync::Wait;
use std::thread::Threads;
use top_bay::Asked;
use top_duty::{Admitted, Duty, Ready};
use top_looks::printed_conf;
use top_open::{Front, Opened};
use top_status::{Refusal, Status};
use top_words::Action;

/// What came of a command, or that it was refused, with the devices; and what is kept of the command.
pub(crate) struct Performed<'a, D> {
    pub action: Action<'a>,
    pub conf: Conf,
    pub served: Served<D>,
}

// Serves the clients that are asked for.
fn run_array<'a, D: StopDisk + Drop + Send, R: Threads + Wait + Sync, P: Progress + Sync>(
    rt: &R,
    alloc: Global,
    asked: Asked<'a>,
    ready: Ready,
    devices: Vec<Option<D>>,
    progress: &P,
) -> Performed<'a, D>
    requires within { IsWithinLimits (asked_seen asked) }
    requires ready { (fronts : List Front)
        × IsPrepared (asked_seen asked) (sizes_of D.size devices.items) fronts ready }
    requires fit { IsFit D.Disk (asked_seen asked) (opened_seen ready.opened) devices.items }
    requires start { IsStartIf D.Disk (asked_seen asked) (opened_seen ready.opened) devices.items
        ready.start }
    requires many { length devices.items ≡ length (names_of asked.conf) }
    requires run { IsRun (action_seen asked.command.action) }
    ensures action { result.action ≡ asked.entry.command.action }
    ensures conf { result.conf ≡ asked.entry.conf }
    ensures does { IfOk result.served.came (λ came. DoesRun D.Disk
        (admitted_by (asked_seen asked.entry) ready)
        ready.failed devices.items result.served.devices.items ready.opened.newest
        (outcome_seen (action_seen result.action) result.conf came)) }
    ensures printed { IfOk result.served.came CanBePrinted }
    ensures memory { IfErr result.served.came (λ r. r ≡ beside_dead
        (admitted_by (asked_seen asked.entry) ready) Status.Memory) }
    ensures same { OnErr result.served.came (result.served.devices ≡ devices) }
{
    let Asked {
        command,
        conf,
        book,
        clients,
        ..
    } = asked;
    let action = command.action;
    let work = match work_of(action, book, clients, ready, devices) {
        Ok(work) => work,
        Err(Unserved { columns, devices }) => {
            let came = Err(Refusal::beside(columns, Status::Memory));
            return Performed {
                action,
                conf,
                served: Served { came, devices },
            };
        }
    };
    Performed {
        action,
        conf,
        served: serve(rt, alloc, work, workers_of(action), progress),
    }
}

// Does something to the array.
fn alter_array<'a, D: StopDisk + Drop, P: Progress>(
    alloc: Global,
    order: Order,
    asked: Asked<'a>,
    ready: Ready,
    devices: Vec<Option<D>>,
    progress: &P,
) -> Performed<'a, D>
    requires within { IsWithinLimits (asked_seen asked) }
    requires ready { (fronts : List Front)
        × IsPrepared (asked_seen asked) (sizes_of D.size devices.items) fronts ready }
    requires kind { kind_of (action_seen asked.command.action) ≡ kind_of Init }
    requires fit { IsFit D.Disk (asked_seen asked) (opened_seen ready.opened) devices.items }
    requires order { order_for (profile_of (action_seen asked.command.action)).deed asked.comp
        ready.opened.newest asked.conf ready.opened.rows ≡ Some order }
    ensures action { result.action ≡ asked.entry.command.action }
    ensures conf { result.conf ≡ asked.entry.conf }
    ensures does { IfOk result.served.came (λ came. DoesDeed D.Disk
        (admitted_by (asked_seen asked.entry) ready)
        ready.failed devices.items result.served.devices.items
        (profile_of (action_seen result.action)).deed
        (outcome_seen (action_seen result.action) result.conf came)) }
    ensures printed { IfOk result.served.came CanBePrinted }
    ensures memory { IfErr result.served.came (λ r. r ≡ beside_dead
        (admitted_by (asked_seen asked.entry) ready) Status.Memory) }
    ensures same { OnErr result.served.came (result.served.devices ≡ devices) }
{
    let Ok(maps) = maps_for(alloc, &order, &ready.layout) else {
        let came = Err(Refusal::beside(ready.opened.columns, Status::Memory));
        return say(asked, came, devices);
    };
    let (came, devices) = change(order, ready, maps, devices, progress);
    say(asked, Ok(came), devices)
}

// Does something to the array, or serves the clients that are asked for.
fn act_on_array<'a, D: StopDisk + Drop + Send, R: Threads + Wait + Sync, P: Progress + Sync>(
    rt: &R,
    alloc: Global,
    asked: Asked<'a>,
    ready: Ready,
    devices: Vec<Option<D>>,
    progress: &P,
) -> Performed<'a, D>
    requires within { IsWithinLimits (asked_seen asked) }
    requires ready { (fronts : List Front)
        × IsPrepared (asked_seen asked) (sizes_of D.size devices.items) fronts ready }
    requires kind { kind_of (action_seen asked.command.action) ≡ kind_of Init }
    requires fit { IsFit D.Disk (asked_seen asked) (opened_seen ready.opened) devices.items }
    requires start { IsStartIf D.Disk (asked_seen asked) (opened_seen ready.opened) devices.items
        ready.start }
    requires many { length devices.items ≡ length (names_of asked.conf) }
    ensures action { result.action ≡ asked.entry.command.action }
    ensures conf { result.conf ≡ asked.entry.conf }
    ensures does { IfOk result.served.came (λ came. DoesDeed D.Disk
        (admitted_by (asked_seen asked.entry) ready)
        ready.failed devices.items result.served.devices.items
        (profile_of (action_seen result.action)).deed
        (outcome_seen (action_seen result.action) result.conf came)) }
    ensures printed { IfOk result.served.came CanBePrinted }
    ensures memory { IfErr result.served.came (λ r. r ≡ beside_dead
        (admitted_by (asked_seen asked.entry) ready) Status.Memory) }
    ensures same { OnErr result.served.came (result.served.devices ≡ devices) }
{
    let action = asked.command.action;
    let opened = &ready.opened;
    match order_of(action, asked.comp, opened.newest, &asked.conf, opened.rows) {
        Some(order) => alter_array(alloc, order, asked, ready, devices, progress),
        None => run_array(rt, alloc, asked, ready, devices, progress),
    }
}

// What came of a command, and what is kept of it, with the devices.
fn say<'a, D>(
    asked: Asked<'a>,
    came: Result<Came, Refusal>,
    devices: Vec<Option<D>>,
) -> Performed<'a, D>
    ensures action { result.action ≡ asked.entry.command.action }
    ensures conf { result.conf ≡ asked.entry.conf }
    ensures came { result.served.came ≡ came }
    ensures devices { result.served.devices ≡ devices }
{
    Performed {
        action: asked.command.action,
        conf: asked.conf,
        served: Served { came, devices },
    }
}

fn only_front(mut fronts: Vec<Front>) -> Front
    requires { length fronts.items ≡ 1 }
    ensures { fronts.items ≡ result ∷ [] }
{
    match fronts.pop() {
        Some(front) => front,
        None => unreachable!(),
    }
}

// What is shown of an array, or that memory was wanted for that.
fn show_array<'a, D: Disk>(
    alloc: Global,
    asked: Asked<'a>,
    opened: Opened,
    sizes: Vec<u64>,
    fronts: Vec<Front>,
    mut devices: Vec<Option<D>>,
) -> Performed<'a, D>
    requires within { IsWithinLimits (asked_seen asked) }
    requires fit { IsFit D.Disk (asked_seen asked) (opened_seen opened) devices.items }
    requires sizes { sizes.items ≡ sizes_of D.size devices.items }
    ensures action { result.action ≡ asked.entry.command.action }
    ensures conf { result.conf ≡ asked.entry.conf }
    ensures does { IfOk result.served.came (λ came. ShowsArray D.Disk (asked_seen asked.entry)
        (opened_seen opened) fronts.items devices.items result.served.devices.items
        (outcome_seen (action_seen result.action) result.conf came)) }
    ensures printed { IfOk result.served.came CanBePrinted }
    ensures memory { IfErr result.served.came (λ r. r ≡ only Status.Memory) }
    ensures same { OnErr result.served.came (result.served.devices ≡ devices) }
{
    let Ok(map) = empty_map(alloc, &asked.conf, &opened) else {
        return say(asked, Err(Refusal::only(alloc, Status::Memory)), devices);
    };
    let slice = devices.as_mut_slice();
    let shown = show(map, opened, sizes, fronts, slice);
    say(asked, Ok(Came::Shows(shown)), devices)
}

// The text of the configuration, or that memory was wanted for it.
fn print_conf(alloc: Global, conf: &Conf) -> Result<Came, Refusal>
    requires { IsConf conf.now }
    ensures text { IfOk result (PrintsConf conf.now) }
    ensures memory { IfErr result (λ r. r ≡ only Status.Memory) }
{
    match printed_conf(alloc, conf) {
        Ok(text) => Ok(Came::Prints(text)),
        Err(_) => Err(Refusal::only(alloc, Status::Memory)),
    }
}

/// Does what is due. The only refusal is want of memory, and the devices are then what they were.
pub(crate) fn perform<'a, D: StopDisk + Drop + Send, R: Threads + Wait + Sync, P: Progress + Sync>(
    rt: &R,
    alloc: Global,
    admitted: Admitted<'a, D>,
    progress: &P,
) -> Performed<'a, D>
    requires within { IsWithinLimits (asked_seen admitted.asked) }
    requires duty { IsDutyOver (asked_seen admitted.asked) (sizes_of D.size admitted.devices.items)
        admitted.fronts.items admitted.duty }
    requires fit { IsFitFor D.Disk (asked_seen admitted.asked) admitted.devices.items
        admitted.duty }
    requires sizes { admitted.sizes.items ≡ sizes_of D.size admitted.devices.items }
    requires fronts { length admitted.fronts.items ≡ length admitted.devices.items }
    requires many { length admitted.devices.items ≡ length (names_for (asked_seen admitted.asked)) }
    ensures action { result.action ≡ admitted.entry.asked.command.action }
    ensures conf { result.conf ≡ admitted.entry.asked.conf }
    ensures does { IfOk result.served.came (λ came. Does D.Disk
        (duty_seen (asked_seen admitted.entry.asked) admitted.entry.duty)
        admitted.entry.fronts.items
        admitted.entry.devices.items result.served.devices.items
        (outcome_seen (action_seen result.action) result.conf came)) }
    ensures printed { IfOk result.served.came CanBePrinted }
    ensures memory { IfErr result.served.came
        (IsMemory (duty_seen (asked_seen admitted.entry.asked) admitted.entry.duty)) }
    ensures same { OnErr result.served.came (result.served.devices ≡ admitted.entry.devices) }
{
    let Admitted {
        asked,
        devices,
        sizes,
        fronts,
        duty,
    } = admitted;
    match duty {
        Duty::OnArray(ready) => act_on_array(rt, alloc, asked, ready, devices, progress),
        Duty::Shows(opened) => show_array(alloc, asked, opened, sizes, fronts, devices),
        Duty::OneLabel => say(asked, Ok(Came::ShowsLabel(only_front(fronts))), devices),
        Duty::PrintConf => {
            let came = print_conf(alloc, &asked.conf);
            say(asked, came, devices)
        }
    }
}
