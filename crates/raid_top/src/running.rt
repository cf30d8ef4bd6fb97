//! Clients are served.
ghost use Rattle.std.specs.Prelude.{◌≡◌, ◌≤◌, ◌*◌, IfOk, IfErr, OnErr, count_by};
ghost use Rattle.eng_cols.specs.Cols.{IsFor, is_set_filling};
ghost use Rattle.top_run.specs.Works.{work_of};
ghost use Rattle.top_serve.specs.Setups.{shape_in};
ghost use Rattle.top_status.specs.Dead.{dead_columns};
ghost use Rattle.raid_top.specs.Served.{AreUnfilledIf, CameOf, ComesLabelled, ComesPlain, MayLabel, MayLabelIf, MayServe};
ghost use Rattle.raid_top.specs.Views.{CanBePrinted, came_from};

use crate::came::Came;
use crate::setup::Work;
use blk_disk::StopDisk;
use eng_array::Setup;
use eng_cols::Cols;
use lay_core::Layout;
use raid_conf::AnyLayout;
use raid_progress::Progress;
use std::alloc::Global;
use std::sync::Wait;
use std::thread::Threads;
use top_acts::Done;
use top_labelled::{Labelled, Outcome, run_labelled};
use top_run::run_clients;
use top_serve::{Refused, ServeFault};
use top_status::{Refusal, Status};

/// What came of a command, or that it was refused, and the devices.
pub(crate) struct Served<D> {
    pub came: Result<Came, Refusal>,
    pub devices: Vec<Option<D>>,
}

fn status_of(fault: ServeFault) -> Status
    ensures { fault ≡ ServeFault.Memory → result ≡ Status.Memory }
{
    match fault {
        ServeFault::Lost(loss) => Status::of_loss(Some(loss)),
        ServeFault::Memory => Status::Memory,
    }
}

// Serves the clients over an array without labels.
fn run_plain<
    L: Layout + Drop + Send,
    D: StopDisk + Drop + Send,
    R: Threads + Wait + Sync,
    P: Progress + Sync,
>(rt: &R, alloc: Global, setup: Setup<L, D>, judge: Cols, workers: u32, progress: &P) -> Served<D>
    requires workers { workers ≤ 16 }
    requires may { MayServe L.Layout D.Disk setup }
    requires judge { IsFor (shape_in L.Layout setup) judge }
    requires filling { count_by is_set_filling setup.columns.items ≡ 0 }
    ensures came { IfOk result.came (ComesPlain D.Disk (work_of L.Layout setup None)
        setup.devices.items result.devices.items) }
    ensures printed { IfOk result.came CanBePrinted }
    ensures memory { IfErr result.came
        (λ r. r ≡ record { status = Status.Memory; dead = dead_columns setup.columns.items }) }
    ensures same { OnErr result.came (result.devices ≡ setup.devices) }
{
    match run_clients(rt, alloc, setup, judge, workers, progress) {
        Ok((service, devices)) => Served {
            came: Ok(Came::Ran(service)),
            devices,
        },
        Err(Refused { fault, setup }) => Served {
            came: Err(Refusal::beside(setup.columns, status_of(fault))),
            devices: setup.devices,
        },
    }
}

// What came of a run over an array with labels.
fn came_of(outcome: Outcome) -> Came
    ensures { result ≡ came_from outcome }
{
    match outcome {
        Outcome::Ran(service) => Came::Ran(service),
        Outcome::Lost(ending) => Came::Did(Done::Nothing, ending),
    }
}

fn run_with_labels<
    L: Layout + Drop + Send,
    D: StopDisk + Drop + Send,
    R: Threads + Wait + Sync,
    P: Progress + Sync,
>(rt: &R, alloc: Global, labelled: Labelled<L, D>, workers: u32, progress: &P) -> Served<D>
    requires workers { workers ≤ 16 }
    requires may { MayServe L.Layout D.Disk labelled.setup }
    requires label { MayLabel L.Layout D.Disk labelled.setup labelled.start labelled.label }
    requires judge { IsFor (shape_in L.Layout labelled.setup) labelled.judge }
    requires room { 1024 * (shape_in L.Layout labelled.setup).unit_sectors ≤ labelled.room }
    ensures came { IfOk result.came (ComesLabelled D.Disk
        (work_of L.Layout labelled.setup labelled.start) labelled.label labelled.failed labelled.map
        labelled.setup.devices.items result.devices.items) }
    ensures printed { IfOk result.came CanBePrinted }
    ensures memory { IfErr result.came (λ r. r
        ≡ record { status = Status.Memory; dead = dead_columns labelled.setup.columns.items }) }
    ensures same { OnErr result.came (result.devices ≡ labelled.setup.devices) }
{
    match run_labelled(rt, alloc, labelled, workers, progress) {
        Ok((outcome, devices)) => Served {
            came: Ok(came_of(outcome)),
            devices,
        },
        Err(Labelled { setup, .. }) => Served {
            came: Err(Refusal::beside(setup.columns, Status::Memory)),
            devices: setup.devices,
        },
    }
}

/// Serves the clients, with so many workers. The only refusal is want of memory, and the devices are then what they were.
pub(crate) fn serve<D: StopDisk + Drop + Send, R: Threads + Wait + Sync, P: Progress + Sync>(
    rt: &R,
    alloc: Global,
    work: Work<D>,
    workers: u32,
    progress: &P,
) -> Served<D>
    requires workers { workers ≤ 16 }
    requires may { MayServe ⟦<AnyLayout as Layout>⟧ D.Disk work.setup }
    requires label { MayLabelIf ⟦<AnyLayout as Layout>⟧ D.Disk work.setup work.start work.newest }
    requires filling { AreUnfilledIf work.newest work.setup.columns.items }
    requires judge { IsFor (shape_in ⟦<AnyLayout as Layout>⟧ work.setup) work.judge }
    requires room { 1024 * (shape_in ⟦<AnyLayout as Layout>⟧ work.setup).unit_sectors ≤ work.room }
    ensures came { IfOk result.came (CameOf D.Disk
        (work_of ⟦<AnyLayout as Layout>⟧ work.setup work.start) work.newest work.failed work.map
        work.setup.devices.items result.devices.items) }
    ensures printed { IfOk result.came CanBePrinted }
    ensures memory { IfErr result.came
        (λ r. r ≡ record { status = Status.Memory; dead = dead_columns work.setup.columns.items }) }
    ensures same { OnErr result.came (result.devices ≡ work.setup.devices) }
{
    let Work {
        setup,
        newest,
        judge,
        room,
        start,
        failed,
        map,
    } = work;
    match newest {
        None => run_plain(rt, alloc, setup, judge, workers, progress),
        Some(label) => {
            let labelled = Labelled {
                setup,
                label,
                judge,
                room,
                start,
                failed,
                map,
            };
            run_with_labels(rt, alloc, labelled, workers, progress)
        }
    }
}
