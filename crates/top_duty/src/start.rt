//! How a column is rebuilt.
ghost use Rattle.std.specs.Prelude.{◌≡◌, ◌≤◌, ◌+◌, ◌*◌, ◌==◌, ◌&&◌, not, is_none, length, slice_get, slice_index, option_map, unwrap_or};
ghost use Rattle.std.specs.List.{list_any};
ghost use Rattle.eng_cols.specs.Cols.{is_set_spread};
ghost use Rattle.raid_conf.specs.Form.{IsConf};
ghost use Rattle.top_bay.specs.Views.{asked_seen};
ghost use Rattle.top_open.specs.Opening.{opened_seen};
ghost use Rattle.top_open.specs.Seats.{is_unread};
ghost use Rattle.top_words.specs.Views.{action_seen};
ghost use Rattle.top_duty.specs.Start.{free_spare, has_failed, has_places, other_filling, rebuilds, start_in, start_with};
ghost use Rattle.top_duty.specs.Steps.{rebuild_elsewhere, is_on, is_free, unless_named};

use crate::opening::filling_at;
use crate::plan::size_at;
use blk_disk::DATA_SECTOR;
use eng_array::Start;
use eng_cols::Column;
use raid_conf::Conf;
use top_bay::Asked;
use top_open::{Front, Opened};
use top_words::{Action, Profile, Rebuilding};

fn is_on(device: u32, column: &Column) -> bool
    ensures { result ≡ is_on device column.now }
{
    match column {
        Column::Live { device: own } | Column::Filling { device: own, .. } => *own == device,
        Column::Dead | Column::Spread => false,
    }
}

fn is_seated(seats: &[Column], device: u32) -> bool
    ensures { result ≡ list_any (is_on device) seats.now }
{
    seats.iter().any(|seat| is_on(device, seat))
}

// Whether sector 0 of the device couldn't be read.
fn is_unread(fronts: &[Front], device: u32) -> bool
    ensures { result ≡ is_unread (slice_get fronts.now device) }
{
    match fronts.get(device as usize) {
        Some(Front::Unread) => true,
        _ => false,
    }
}

// Whether the device may be filled, which needs so many sectors.
fn is_free(needs: u64, sizes: &[u64], fronts: &[Front], seats: &[Column], device: u32) -> bool
    ensures { result ≡ is_free needs sizes.now fronts.now seats.now device }
{
    !is_seated(seats, device) && needs <= size_at(sizes, device) && !is_unread(fronts, device)
}

// The first spare that is free, as a device.
#[tactic(auto, unfolding(crate::specs::Start::free_spare))]
fn free_spare(conf: &Conf, opened: &Opened, sizes: &[u64], fronts: &[Front]) -> Option<u32>
    requires { IsConf conf.now }
    ensures { result ≡ free_spare conf.now (opened_seen opened.now) sizes.now fronts.now }
{
    let needs = DATA_SECTOR + u64::from(opened.rows) * u64::from(conf.unit);
    for spare in 0..conf.spares {
        let device = conf.columns + spare;
        if is_free(needs, sizes, fronts, &opened.seats, device) {
            return Some(device);
        }
    }
    None
}

fn is_spread(column: &Column) -> bool
    ensures { result ≡ is_set_spread column.now }
{
    match column {
        Column::Spread => true,
        Column::Live { .. } | Column::Dead | Column::Filling { .. } => false,
    }
}

fn any_spread(columns: &[Column]) -> bool
    ensures { result ≡ list_any is_set_spread columns.now }
{
    columns.iter().any(|column| is_spread(column))
}

// Whether the spare places may be used: the level has them, and no column is spread.
fn has_places(conf: &Conf, columns: &[Column]) -> bool
    ensures { result ≡ has_places conf.now columns.now }
{
    conf.level == 68 && !any_spread(columns)
}

// How many stripes are rebuilt at most.
fn most_by(limit: Option<u32>) -> u32
    ensures { result ≡ unwrap_or limit 4294967295 }
{
    match limit {
        Some(limit) => limit,
        None => u32::MAX,
    }
}

// Whether the spare places may be taken, which a limit rules out.
fn may_spread(limit: Option<u32>, conf: &Conf, columns: &[Column]) -> bool
    ensures { result ≡ (is_none limit && has_places conf.now columns.now) }
{
    match limit {
        Some(_) => false,
        None => has_places(conf, columns),
    }
}

// The rebuild of a column onto the first spare that is free, or else, without a limit, into the spare places.
fn elsewhere(
    limit: Option<u32>,
    conf: &Conf,
    opened: &Opened,
    sizes: &[u64],
    fronts: &[Front],
    comp: Option<u32>,
) -> Option<Start>
    requires { IsConf conf.now }
    ensures { result
        ≡ rebuild_elsewhere limit conf.now (opened_seen opened.now) sizes.now fronts.now comp }
{
    let column = match comp {
        Some(column) => column,
        None => return None,
    };
    match free_spare(conf, opened, sizes, fronts) {
        Some(device) => Some(Start::Fill {
            column,
            device,
            most: most_by(limit),
        }),
        None => { may_spread(limit, conf, &opened.columns).then_some(Start::Spread { column }) }
    }
}

// The rebuild of a column onto its own disk.
fn in_place(limit: Option<u32>, comp: Option<u32>) -> Option<Start>
    ensures { result
        ≡ option_map (λ c. Start.Fill c c (unwrap_or limit 4294967295)) comp }
{
    match comp {
        Some(column) => Some(Start::Fill {
            column,
            device: column,
            most: most_by(limit),
        }),
        None => None,
    }
}

// The rebuild goes on of the column that is filling.
fn further(limit: Option<u32>, filling: Option<u32>) -> Option<Start>
    ensures { result
        ≡ option_map (λ c. Start.Resume c (unwrap_or limit 4294967295)) filling }
{
    match filling {
        Some(column) => Some(Start::Resume {
            column,
            most: most_by(limit),
        }),
        None => None,
    }
}

// The rebuild of the column that is known, or of the one that is filling, if one is to be rebuilt.
fn start_with(
    rebuild: Option<Rebuilding>,
    limit: Option<u32>,
    comp: Option<u32>,
    conf: &Conf,
    opened: &Opened,
    sizes: &[u64],
    fronts: &[Front],
) -> Option<Start>
    requires conf { IsConf conf.now }
    requires columns { length opened.now.columns.items ≤ 32 }
    ensures { result ≡ start_with
        rebuild limit comp conf.now (opened_seen opened.now) sizes.now fronts.now }
{
    match rebuild {
        Some(Rebuilding::Elsewhere) => elsewhere(limit, conf, opened, sizes, fronts, comp),
        Some(Rebuilding::InPlace) => in_place(limit, comp),
        Some(Rebuilding::Further) => further(limit, filling_at(&opened.columns)),
        None => None,
    }
}

/// How the action begins a rebuild of its component's column, by the array as it is opened: `-R` onto the column's own disk;
/// `-F` onto the first spare that is in no seat, is large enough and could be read, or else, without a limit, into the spare
/// places, where the level has them and no column is spread. `--resume` goes on with the column that is filling. None where no
/// column is to be rebuilt, and where there is nowhere to rebuild to or none to go on with.
pub(crate) fn start_in(
    asked: &Asked<'_>,
    opened: &Opened,
    sizes: &[u64],
    fronts: &[Front],
) -> Option<Start>
    requires conf { IsConf asked.now.conf }
    requires columns { length opened.now.columns.items ≤ 32 }
    ensures { result
        ≡ start_in (asked_seen asked.now) (opened_seen opened.now) sizes.now fronts.now }
{
    let Profile { rebuild, limit, .. } = asked.command.action.profile();
    start_with(
        rebuild,
        limit,
        asked.comp,
        &asked.conf,
        opened,
        sizes,
        fronts,
    )
}

/// Whether a column is to be rebuilt, and there is nowhere to, or none to go on with.
pub(crate) fn is_short(action: Action<'_>, start: Option<Start>) -> bool
    ensures { result ≡ (rebuilds (action_seen action.entry) && is_none start) }
{
    match action.profile().rebuild {
        Some(_) => start.is_none(),
        None => false,
    }
}

// A column other than the one that is named.
fn unless_named(comp: Option<u32>, filling: Option<u32>) -> Option<u32>
    ensures { result ≡ unless_named comp filling }
{
    let column = match filling {
        Some(column) => column,
        None => return None,
    };
    match comp {
        Some(named) => { if named == column { None } else { Some(column) } }
        None => Some(column),
    }
}

/// The column that is filling, where the rebuild of another is to begin.
pub(crate) fn other_filling(asked: &Asked<'_>, columns: &[Column]) -> Option<u32>
    requires { length columns.now ≤ 32 }
    ensures { result ≡ other_filling (asked_seen asked.now) columns.now }
{
    match asked.command.action.profile().rebuild {
        Some(Rebuilding::Elsewhere | Rebuilding::InPlace) => {
            unless_named(asked.comp, filling_at(columns))
        }
        Some(Rebuilding::Further) | None => None,
    }
}

/// Whether the device that is to be filled couldn't be read.
pub(crate) fn has_failed(start: Option<Start>, fronts: &[Front]) -> bool
    ensures { result ≡ has_failed start fronts.now }
{
    match start {
        Some(Start::Fill { device, .. }) => is_unread(fronts, device),
        Some(Start::Resume { .. } | Start::Spread { .. }) | None => false,
    }
}
