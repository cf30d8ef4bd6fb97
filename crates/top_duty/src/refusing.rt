//! Why nothing may be done with an array.
ghost use Rattle.std.specs.Prelude.{◌≡◌, ◌≤◌, ◌<◌, Ok, length, count_by, unwrap_or, IfOk, IfErr};
ghost use Rattle.std.specs.Option.{ForSome};
ghost use Rattle.eng_array.specs.Starts.{column_of};
ghost use Rattle.eng_cols.specs.Cols.{IsFor, is_set_filling, is_set_spread};
ghost use Rattle.top_bay.specs.Views.{IsWithinLimits, asked_seen};
ghost use Rattle.eng_array.specs.Starts.{most_of};
ghost use Rattle.eng_cols.specs.Stripes.{done_at, states_of};
ghost use Rattle.top_duty.specs.Duty.{left_by, rebuilds_by, short_status};
ghost use Rattle.top_duty.specs.Steps.{with_killed, is_past};
ghost use Rattle.top_duty.specs.Start.{other_filling};
ghost use Rattle.top_duty.specs.Views.{ComesOver, GoesIf, GoesUnlost, RefusedIf, RefusedJoins, RefusedUnlost, graphs_with, views_of};

use crate::judge::{loss_of, traces};
use crate::start::{is_short, other_filling};
use eng_array::Start;
use eng_cols::{Cols, Column};
use graph_mean::Graph;
use lay_core::Layout;
use raid_recon::rebuild_count;
use std::alloc::Global;
use top_bay::Asked;
use top_bound::trace_fits;
use top_join::{JoinFault, join_all};
use top_status::Status;
use top_words::Rebuilding;

// How many stripes of the column are done, where it is filling.
fn done_at(columns: &[Column], column: u32) -> u32
    requires { column < length columns.now }
    ensures { result ≡ unwrap_or (done_at columns.now column) 0 }
{
    match columns[column as usize] {
        Column::Filling { done, .. } => done,
        Column::Live { .. } | Column::Dead | Column::Spread => 0,
    }
}

// How many stripes of the column are left to do.
fn left_by<L: Layout>(layout: &L, columns: &[Column], start: Start) -> u32
    requires columns { length columns.now ≡ (L.shape layout.now).columns }
    requires start { column_of start < length columns.now }
    ensures { result ≡ left_by (L.shape layout.now) columns.now start }
{
    let column = start.column();
    let count = rebuild_count(layout, columns, column);
    match start {
        Start::Resume { .. } => count.saturating_sub(done_at(columns, column)),
        Start::Fill { .. } | Start::Spread { .. } => count,
    }
}

// How many stripes are asked for at most.
fn most_of(start: Start) -> u32
    ensures { result ≡ most_of start }
{
    match start {
        Start::Fill { most, .. } | Start::Resume { most, .. } => most,
        Start::Spread { .. } => u32::MAX,
    }
}

// How many rebuilds there are: one for each stripe of the column that is left to do, or as many as are asked.
#[tactic(auto, unfolding(crate::specs::Duty::rebuilds_by))]
fn rebuilds_by<L: Layout>(layout: &L, columns: &[Column], start: Option<Start>) -> u32
    requires columns { length columns.now ≡ (L.shape layout.now).columns }
    requires start { ForSome start (λ s. column_of s < length columns.now) }
    ensures { result ≡ rebuilds_by (L.shape layout.now) columns.now start }
{
    match start {
        Some(start) => {
            let left = left_by(layout, columns, start);
            let most = most_of(start);
            if left <= most { left } else { most }
        }
        None => 0,
    }
}

// Whether more events may come, by the graphs of the file and these joined ones, than a trace that is kept has room for.
fn is_past<L: Layout>(layout: &L, asked: &Asked<'_>, joined: &[Graph], rebuilds: u32) -> bool
    requires { IsWithinLimits (asked_seen asked.now) }
    ensures { result ≡ is_past (L.shape layout.now) (asked_seen asked.now)
        (graphs_with (asked_seen asked.now) (views_of joined.now)) (asked_seen asked.now).clients
        rebuilds }
{
    if !traces(asked.command.action) {
        return false;
    }
    let devices = asked.conf.disks.len() + asked.conf.spare_names.len();
    !trace_fits(
        layout,
        &asked.book,
        joined,
        devices,
        &asked.clients,
        rebuilds,
    )
}

// Why a rebuild can't begin, or can't go on.
fn short_status(rebuild: Option<Rebuilding>) -> Status
    ensures { result ≡ short_status rebuild }
{
    match rebuild {
        Some(Rebuilding::Further) => Status::NoRebuild,
        Some(Rebuilding::Elsewhere | Rebuilding::InPlace) | None => Status::NoSpare,
    }
}

// The graphs of the join lines of the script.
fn join<L: Layout>(alloc: Global, layout: &L, asked: &Asked<'_>) -> Result<Vec<Graph>, Status>
    requires { IsWithinLimits (asked_seen asked.now) }
    ensures joined { IfOk result
        (λ gs. ComesOver (L.shape layout.now) (asked_seen asked.now) (Ok (views_of gs.items))) }
    ensures refused { IfErr result (RefusedJoins (L.shape layout.now) (asked_seen asked.now)) }
{
    match join_all(alloc, layout, &asked.book, &asked.clients, &asked.joins) {
        Ok(joined) => Ok(joined),
        Err(JoinFault::At { line, code }) => Err(Status::Script(line, code)),
        Err(JoinFault::Memory) => Err(Status::Memory),
    }
}

// The graphs that are joined for an array that isn't lost; or why nothing may be done with it.
fn join_unlost<L: Layout>(
    alloc: Global,
    layout: &L,
    asked: &Asked<'_>,
    columns: &[Column],
    start: Option<Start>,
) -> Result<Vec<Graph>, Status>
    requires asked { IsWithinLimits (asked_seen asked.now) }
    requires columns { length columns.now ≡ (L.shape layout.now).columns }
    requires few { length columns.now ≤ 32 }
    requires start { ForSome start (λ s. column_of s < length columns.now) }
    ensures goes { IfOk result (λ gs. GoesUnlost (L.shape layout.now) (asked_seen asked.now)
        (other_filling (asked_seen asked.now) columns.now)
        (rebuilds_by (L.shape layout.now) columns.now start) start (views_of gs.items)) }
    ensures refused { IfErr result (RefusedUnlost (L.shape layout.now)
        (asked_seen asked.now) (other_filling (asked_seen asked.now) columns.now)
        (rebuilds_by (L.shape layout.now) columns.now start) start) }
{
    if let Some(column) = other_filling(asked, columns) {
        return Err(Status::Rebuilding(column));
    }
    if is_short(asked.command.action, start) {
        return Err(short_status(asked.command.action.profile().rebuild));
    }
    let joined = match join(alloc, layout, asked) {
        Ok(joined) => joined,
        Err(status) => return Err(status),
    };
    let rebuilds = rebuilds_by(layout, columns, start);
    if is_past(layout, asked, joined.as_slice(), rebuilds) {
        Err(Status::Script(0, 8))
    } else {
        Ok(joined)
    }
}

/// The graphs that are joined for what is done with the array; or why nothing may be done with it: it is lost, this column
/// being made dead; or another column is filling than the one that is to be rebuilt; or there is nowhere to rebuild to, or
/// none to go on with; or the graphs of a join line can't be joined; or its trace would pass its bound.
pub(crate) fn join_unless_refused<L: Layout>(
    alloc: Global,
    judge: &mut Cols,
    layout: &L,
    asked: &Asked<'_>,
    columns: &[Column],
    dead: Option<u32>,
    start: Option<Start>,
) -> Result<Vec<Graph>, Status>
    requires asked { IsWithinLimits (asked_seen asked.now) }
    requires judge { IsFor (L.shape layout.now) judge.old }
    requires columns { length columns.now ≡ (L.shape layout.now).columns }
    requires few { length columns.now ≤ 32 }
    requires filling { count_by is_set_filling columns.now ≤ 1 }
    requires spread { count_by is_set_spread columns.now ≤ 1 }
    requires dead { ForSome dead (λ c. c < length columns.now) }
    requires start { ForSome start (λ s. column_of s < length columns.now) }
    ensures goes { IfOk result (λ gs. GoesIf (L.shape layout.now) (asked_seen asked.now)
        (with_killed dead (states_of (L.shape layout.now) columns.now))
        (other_filling (asked_seen asked.now) columns.now)
        (rebuilds_by (L.shape layout.now) columns.now start) start (views_of gs.items)) }
    ensures refused { IfErr result (RefusedIf (L.shape layout.now)
        (asked_seen asked.now) (with_killed dead (states_of (L.shape layout.now) columns.now))
        (other_filling (asked_seen asked.now) columns.now)
        (rebuilds_by (L.shape layout.now) columns.now start) start) }
    ensures judge { IsFor (L.shape layout.now) judge.new }
{
    match loss_of(judge, layout, columns, dead) {
        None => join_unlost(alloc, layout, asked, columns, start),
        Some(loss) => Err(Status::of_loss(Some(loss))),
    }
}
