//! What is asked for is made ready, or refused.
ghost use Rattle.std.specs.Prelude.{◌≡◌, ◌⊎◌, ◌≤◌, ◌<◌, ◌*◌, ◌+◌, ℕ, [], Some, length, count_by, Ok, Err, IfOk, IfErr};
ghost use Rattle.std.specs.Option.{ForSome};
ghost use Rattle.eng_array.specs.Starts.{column_of};
ghost use Rattle.eng_cols.specs.Cols.{IsFor, is_set_filling, is_set_spread};
ghost use Rattle.raid_conf.specs.Layouts.{shape_of};
ghost use Rattle.top_open.specs.Opening.{opened_seen};
ghost use Rattle.top_rounds.specs.Labels.{given_up};
ghost use Rattle.top_bay.specs.Asked.{names_for};
ghost use Rattle.top_bay.specs.Views.{IsWithinLimits, asked_seen};
ghost use Rattle.top_words.specs.declared.profile.Kind.TheVariants as kind;
ghost use Rattle.top_duty.specs.Duty.{duty_by, duty_for};
ghost use Rattle.top_duty.specs.Steps.{with_dead, admitted_with};
ghost use Rattle.top_duty.specs.Opening.{AreTableRows, kind_of, needs_of, opened_by};
ghost use Rattle.top_duty.specs.Start.{IsNamedBy};
ghost use Rattle.top_duty.specs.Views.{IsDutyOver, IsMade, IsPrepared, IsRefusal, MayBeDone, RefusedAfter, RefusedHere, dead_beside, views_of};

use crate::clients::draw;
use crate::duty::{Duty, Ready};
use crate::judge::judge_for;
use crate::kind::kind_of;
use crate::layouts::layout_of;
use crate::needs::needs_of;
use crate::opening::{open, status_of};
use crate::refusing::join_unless_refused;
use crate::start::{has_failed, start_in};
use eng_array::Start;
use eng_cols::{Cols, Column};
use graph_mean::Graph;
use item_list::Items;
use lay_core::{Layout, blocks};
use raid_conf::AnyLayout;
use raid_recon::Room;
use std::alloc::Global;
use top_bay::Asked;
use top_open::{Front, Opened};
use top_rounds::give_up;
use top_status::{Refusal, Status};
use top_words::Kind;

/// What an array needs beside its columns.
struct Parts {
    layout: AnyLayout,
    drawn: Vec<Items>,
    joined: Vec<Graph>,
    judge: Cols,
    room: Room,
}

// As many columns may have a window each where a call reads one row: the windows of more don't stay in a processor's cache
// until they are summed, and one that all have does.
const FEW: u32 = 5;

// How many bytes of room a sweep is given: what it needs at least; and, where 64 KiB have several rows or the columns are
// few, 64 KiB of rows for each column beside a unit, so that all units of a stripe are read before they are summed.
fn room_bytes(unit: u32, columns: u32) -> u32
    requires some { 1 ≤ unit }
    requires unit { unit ≤ 128 }
    requires columns { columns ≤ 32 }
    ensures { 1024 * unit ≤ result }
{
    let rows = 128 / unit;
    if rows < 2 && columns > FEW {
        1024 * unit
    } else {
        (1024 * unit).max(512 * unit * (1 + columns * rows))
    }
}

// Room for a sweep over so many columns with units of so many sectors.
fn room_for(alloc: Global, unit: u32, columns: u32) -> Result<Room, Status>
    requires some { 1 ≤ unit }
    requires unit { unit ≤ 128 }
    requires columns { columns ≤ 32 }
    ensures room { IfOk result (λ room. 1024 * unit ≤ room) }
    ensures memory { IfErr result (λ status. status ≡ Status.Memory) }
{
    match Room::open(alloc, room_bytes(unit, columns)) {
        Ok(room) => Ok(room),
        Err(_) => Err(Status::Memory),
    }
}

// What an array needs that was opened, of which a column is rebuilt so, or none is.
fn make(
    alloc: Global,
    asked: &Asked<'_>,
    opened: &Opened,
    start: Option<Start>,
) -> Result<Parts, Status>
    requires asked { IsWithinLimits (asked_seen asked.now) }
    requires rows { AreTableRows asked.now.conf opened.now.rows }
    requires columns { length opened.now.columns.items ≡ asked.now.conf.columns }
    requires filling { count_by is_set_filling opened.now.columns.items ≤ 1 }
    requires spread { count_by is_set_spread opened.now.columns.items ≤ 1 }
    requires dead { ForSome (needs_of (asked_seen asked.now)).excused
        (λ c. c < asked.now.conf.columns) }
    requires start { ForSome start (λ s. column_of s < asked.now.conf.columns) }
    requires named { ForSome start (IsNamedBy (needs_of (asked_seen asked.now)).excused) }
    ensures made { IfOk result (λ parts. IsMade (asked_seen asked.now) (opened_seen opened.now)
        parts.layout parts.drawn.items parts.judge parts.room) }
    ensures may { IfOk result (λ parts. MayBeDone (admitted_with (asked_seen asked.now)
        (opened_seen opened.now) start (views_of parts.joined.items))) }
    ensures refused { IfErr result
        (RefusedAfter (admitted_with (asked_seen asked.now) (opened_seen opened.now) start [])) }
{
    let layout = match layout_of(alloc, &asked.conf, opened.rows) {
        Ok(layout) => layout,
        Err(status) => return Err(status),
    };
    let mut judge = match judge_for(alloc, &layout) {
        Ok(judge) => judge,
        Err(status) => return Err(status),
    };
    let dead = needs_of(asked).excused;
    let columns = &opened.columns;
    let joined = match join_unless_refused(
        alloc, &mut judge, &layout, asked, columns, dead, start,
    ) {
        Ok(joined) => joined,
        Err(status) => return Err(status),
    };
    let drawn = match draw(alloc, asked.command.action, blocks(&layout)) {
        Ok(drawn) => drawn,
        Err(status) => return Err(status),
    };
    match room_for(alloc, asked.conf.unit, asked.conf.columns) {
        Ok(room) => Ok(Parts {
            layout,
            drawn,
            joined,
            judge,
            room,
        }),
        Err(status) => Err(status),
    }
}

fn with_dead(mut columns: Vec<Column>, dead: Option<u32>) -> Vec<Column>
    requires { ForSome dead (λ c. c < length columns.items) }
    ensures { result.items ≡ with_dead dead columns.items }
{
    match dead {
        Some(column) => columns[column as usize] = Column::Dead,
        None => {}
    }
    columns
}

// The columns of a lost array: one that was filling is dead.
fn lost(mut columns: Vec<Column>) -> Vec<Column>
    ensures { result.items ≡ given_up columns.items }
{
    give_up(columns.as_mut_slice());
    columns
}

// A refusal beside the columns that are dead as the array was opened; of a lost array as the action makes them, where one
// that was filling is dead; and beside none where a rebuild can't begin or go on.
fn refuse(alloc: Global, columns: Vec<Column>, dead: Option<u32>, status: Status) -> Refusal
    requires { ForSome dead (λ c. c < length columns.items) }
    ensures { result ≡ record { status = status; dead = dead_beside dead columns.items status } }
{
    match &status {
        Status::Lost { .. } => Refusal::beside(lost(with_dead(columns, dead)), status),
        Status::NoSpare | Status::NoRebuild | Status::Rebuilding(_) => Refusal::only(alloc, status),
        _ => Refusal::beside(columns, status),
    }
}

fn make_ready(
    alloc: Global,
    asked: &Asked<'_>,
    sizes: &[u64],
    fronts: &[Front],
) -> Result<Ready, Refusal>
    requires asked { IsWithinLimits (asked_seen asked.now) }
    requires fronts { length fronts.now ≡ asked.now.conf.columns + asked.now.conf.spares }
    ensures prepared { IfOk result (IsPrepared (asked_seen asked.now) sizes.now fronts.now) }
    ensures refused { IfErr result
        (RefusedHere (duty_for kind.Array (asked_seen asked.now) sizes.now fronts.now)) }
    ensures kind { IfErr result (λ r. IsRefusal ⊥ r.status) }
{
    let opened = match open(alloc, asked, sizes, fronts) {
        Ok(opened) => opened,
        Err(fault) => return Err(Refusal::only(alloc, status_of(fault))),
    };
    let start = start_in(asked, &opened, sizes, fronts);
    match make(alloc, asked, &opened, start) {
        Ok(
            Parts {
                layout,
                drawn,
                joined,
                judge,
                room,
            },
        ) => Ok(Ready {
            opened,
            layout,
            drawn,
            joined,
            judge,
            room,
            start,
            failed: has_failed(start, fronts),
        }),
        Err(status) => Err(refuse(alloc, opened.columns, needs_of(asked).excused, status)),
    }
}

fn make_shown(
    alloc: Global,
    asked: &Asked<'_>,
    sizes: &[u64],
    fronts: &[Front],
) -> Result<Opened, Refusal>
    requires asked { IsWithinLimits (asked_seen asked.now) }
    requires fronts { length fronts.now ≡ asked.now.conf.columns + asked.now.conf.spares }
    ensures opened { IfOk result (λ opened. opened_by (asked_seen asked.now) sizes.now fronts.now
        ≡ Ok (opened_seen opened)) }
    ensures refused { IfErr result
        (RefusedHere (duty_for kind.Shown (asked_seen asked.now) sizes.now fronts.now)) }
    ensures kind { IfErr result (λ r. IsRefusal ⊥ r.status) }
{
    match open(alloc, asked, sizes, fronts) {
        Ok(opened) => Ok(opened),
        Err(fault) => Err(Refusal::only(alloc, status_of(fault))),
    }
}

/// What is to be done, by sizes and fronts of the devices.
///
/// An array is opened and made ready; one that is shown is opened. Refused are, in this order, what its labels and sizes call
/// for; an array that is lost by its columns, as the action makes them; a rebuild beside another column that is filling; a
/// column that there is nowhere to rebuild to, or none to go on with; the first join line whose graphs can't be joined; and a
/// trace that would pass its bound. Memory may be wanted at any point. Behind the opening the columns that are dead are
/// printed, but where a rebuild can't begin or go on.
pub(crate) fn prepare(
    alloc: Global,
    asked: &Asked<'_>,
    sizes: &[u64],
    fronts: &[Front],
) -> Result<Duty, Refusal>
    requires asked { IsWithinLimits (asked_seen asked.now) }
    requires fronts { length fronts.now ≡ length (names_for (asked_seen asked.now)) }
    ensures duty { IfOk result (IsDutyOver (asked_seen asked.now) sizes.now fronts.now) }
    ensures refused { IfErr result
        (RefusedHere (duty_by (asked_seen asked.now) sizes.now fronts.now)) }
    ensures kind { IfErr result (λ r. IsRefusal ⊥ r.status) }
{
    match kind_of(asked.command.action) {
        Kind::Array => match make_ready(alloc, asked, sizes, fronts) {
            Ok(ready) => Ok(Duty::OnArray(ready)),
            Err(refusal) => Err(refusal),
        },
        Kind::Shown => match make_shown(alloc, asked, sizes, fronts) {
            Ok(opened) => Ok(Duty::Shows(opened)),
            Err(refusal) => Err(refusal),
        },
        Kind::Label => Ok(Duty::OneLabel),
        Kind::Conf => Ok(Duty::PrintConf),
    }
}
