//! An array is opened.
ghost use Rattle.std.specs.Prelude.{◌≡◌, ◌<◌, ◌≤◌, ◌+◌, ◌*◌, IfOk, IfErr, length};
ghost use Rattle.std.specs.Option.{ForSome};
ghost use Rattle.top_bay.specs.Views.{IsWithinLimits, asked_seen};
ghost use Rattle.top_open.specs.Opening.{opened_seen};
ghost use Rattle.raid_conf.specs.Form.{IsConf};
ghost use Rattle.raid_conf.specs.Layouts.{shape_of};
ghost use Rattle.top_duty.specs.Opening.{AreTableRows, filling_at, fronted_by, opened_by, status_of};
ghost use Rattle.top_duty.specs.Steps.{left_at, without_small, kept_if_large};
ghost use Rattle.top_duty.specs.Views.{OpensSo};

use crate::layouts::layout_of;
use crate::needs::needs_of;
use crate::plan::{plan_of, present_of, size_at};
use blk_disk::DATA_SECTOR;
use eng_cols::Column;
use raid_conf::Conf;
use raid_recon::rebuild_count;
use std::alloc::Global;
use top_bay::Asked;
use top_open::{Front, OpenFault, Opened, keep_if_left, open_array};
use top_status::Status;

// A column stays so where its device has so many sectors.
fn kept_if_large(sizes: &[u64], needs: u64, column: Column) -> Column
    ensures { result ≡ kept_if_large sizes.now needs column }
{
    match column {
        Column::Live { device } | Column::Filling { device, .. } => {
            if needs <= size_at(sizes, device) {
                column
            } else {
                Column::Dead
            }
        }
        Column::Dead | Column::Spread => column,
    }
}

// The columns, of which this one is dead where its device has fewer sectors.
fn without_small(
    mut columns: Vec<Column>,
    excused: Option<u32>,
    sizes: &[u64],
    needs: u64,
) -> Vec<Column>
    requires { ForSome excused (λ c. c < length columns.items) }
    ensures { result.items ≡ without_small excused sizes.now needs columns.items }
{
    match excused {
        Some(column) => {
            let kept = kept_if_large(sizes, needs, columns[column as usize]);
            columns[column as usize] = kept;
        }
        None => {}
    }
    columns
}

// What an opening answers, but for the size of the device of this column.
fn as_opened(opened: Opened, excused: Option<u32>, sizes: &[u64], unit: u32) -> Opened
    requires { ForSome excused (λ c. c < length opened.columns.items) }
    ensures { opened_seen result ≡ record (opened_seen opened) {
      columns = without_small excused sizes.now (64 + opened.rows * unit) opened.columns.items;
    } }
{
    let Opened {
        rows,
        seats,
        columns,
        newest,
    } = opened;
    let needs = DATA_SECTOR + u64::from(rows) * u64::from(unit);
    Opened {
        rows,
        seats,
        columns: without_small(columns, excused, sizes, needs),
        newest,
    }
}

// Rows, columns and the newest label, by sizes and fronts of the devices. The column that the action fails is dead where its
// device has too few sectors. Of a column that is filling it isn't judged how many stripes it has.
fn open_fronts(
    alloc: Global,
    asked: &Asked<'_>,
    sizes: &[u64],
    fronts: &[Front],
) -> Result<Opened, OpenFault>
    requires asked { IsWithinLimits (asked_seen asked.now) }
    requires fronts { length fronts.now ≡ asked.now.conf.columns + asked.now.conf.spares }
    ensures opened { OpensSo result (fronted_by (asked_seen asked.now) sizes.now fronts.now) }
    ensures rows { IfOk result (λ o. AreTableRows asked.now.conf o.rows) }
    ensures columns { IfOk result (λ o. length o.columns.items ≡ asked.now.conf.columns) }
{
    let present = present_of(alloc, &asked.conf)?;
    let needs = needs_of(asked);
    let plan = plan_of(&asked.conf);
    match open_array(alloc, &needs, &plan, &present, sizes, fronts) {
        Ok(opened) => Ok(as_opened(opened, needs.excused, sizes, asked.conf.unit)),
        Err(fault) => Err(fault),
    }
}

/// The first column that is filling.
pub(crate) fn filling_at(columns: &[Column]) -> Option<u32>
    requires { length columns.now ≤ 32 }
    ensures { result ≡ filling_at columns.now }
{
    for column in 0..columns.len() as u32 {
        if let Column::Filling { .. } = columns[column as usize] {
            return Some(column);
        }
    }
    None
}

// A column that is filling is dead where the labels say that as many of its stripes are done as it has.
fn judge_filling(
    alloc: Global,
    conf: &Conf,
    rows: u32,
    columns: &mut [Column],
) -> Result<(), OpenFault>
    requires conf { IsConf conf.now }
    requires rows { AreTableRows conf.now rows }
    requires entries { length columns.old ≡ conf.now.columns }
    ensures judged { IfOk result (λ _. columns.new
        ≡ left_at (shape_of conf.now rows) columns.old (filling_at columns.old)) }
    ensures memory { IfErr result (λ fault. fault ≡ OpenFault.Memory) }
{
    let column = match filling_at(columns) {
        Some(column) => column,
        None => return Ok(()),
    };
    let layout = match layout_of(alloc, conf, rows) {
        Ok(layout) => layout,
        Err(_) => return Err(OpenFault::Memory),
    };
    let count = rebuild_count(&layout, columns, column);
    keep_if_left(columns, column, count);
    Ok(())
}

/// Rows, columns and the newest label, by sizes and fronts of the devices. The column that the action fails is dead where its
/// device has too few sectors. One that is filling is dead where the labels say that as many of its stripes are done as it
/// has: for this the layout is made, and so only where a column is filling.
pub(crate) fn open(
    alloc: Global,
    asked: &Asked<'_>,
    sizes: &[u64],
    fronts: &[Front],
) -> Result<Opened, OpenFault>
    requires asked { IsWithinLimits (asked_seen asked.now) }
    requires fronts { length fronts.now ≡ asked.now.conf.columns + asked.now.conf.spares }
    ensures { OpensSo result (opened_by (asked_seen asked.now) sizes.now fronts.now) }
{
    let mut opened = match open_fronts(alloc, asked, sizes, fronts) {
        Ok(opened) => opened,
        Err(fault) => return Err(fault),
    };
    let rows = opened.rows;
    match judge_filling(alloc, &asked.conf, rows, opened.columns.as_mut_slice()) {
        Ok(()) => Ok(opened),
        Err(fault) => Err(fault),
    }
}

pub(crate) fn status_of(fault: OpenFault) -> Status
    ensures { result ≡ status_of fault }
{
    match fault {
        OpenFault::Label {
            column,
            code,
            found,
            wanted,
        } => Status::Label {
            column,
            code,
            found,
            wanted,
        },
        OpenFault::Small { column, has, needs } => Status::Small { column, has, needs },
        OpenFault::Memory => Status::Memory,
    }
}
