//! How the spares stand.
ghost use Rattle.std.specs.Prelude.{◌≡◌, ◌≤◌, ◌<◌, is_ok, length, OnErr, not, is_none, ◌&&◌, slice_get, slice_index, nat_lt, ◌+◌, ◌*◌};
ghost use Rattle.std.specs.List.{list_any};
ghost use Rattle.blk_disk.specs.Disk.{Rose};
ghost use Rattle.raid_bay.specs.Sink.{Puts};
ghost use Rattle.raid_conf.specs.Form.{IsConf};
ghost use Rattle.top_open.specs.Opening.{opened_seen};
ghost use Rattle.top_looks.specs.Show.{spare_state, spare_text};
ghost use Rattle.top_looks.specs.Steps.{spare_line, spares_text, is_seat_of};
ghost use Rattle.top_open.specs.Seats.{is_unread};

use blk_disk::{DATA_SECTOR, Failed};
use eng_cols::Column;
use put_line::Line;
use raid_bay::Sink;
use raid_conf::Conf;
use top_open::{Front, Opened};

fn is_seat_of(device: u32, seat: Column) -> bool
    ensures { result ≡ is_seat_of device seat }
{
    match seat {
        Column::Live { device: of } | Column::Filling { device: of, .. } => of == device,
        Column::Dead | Column::Spread => false,
    }
}

// Whether a seat names this device.
fn is_used(seats: &[Column], device: u32) -> bool
    ensures { result ≡ list_any (is_seat_of device) seats.now }
{
    seats.iter().any(|seat| is_seat_of(device, *seat))
}

// Whether there are labels, and that of this device couldn't be read.
fn is_unread(opened: &Opened, fronts: &[Front], device: u32) -> bool
    ensures { result
        ≡ (not (is_none opened.now.newest) && is_unread (slice_get fronts.now device)) }
{
    opened.newest.is_some() && matches!(fronts.get(device as usize), Some(Front::Unread))
}

// Whether a device has fewer sectors than so many rows need, of units of so many sectors.
fn is_small(sizes: &[u64], rows: u32, unit: u32, device: u32) -> bool
    requires { unit ≤ 128 }
    ensures { result ≡ nat_lt (slice_index sizes.now device) (64 + rows * unit) }
{
    let has = sizes.get(device as usize).copied().unwrap_or(0);
    has < DATA_SECTOR + u64::from(rows) * u64::from(unit)
}

#[tactic(auto, unfolding(crate::specs::Show::spare_state))]
fn spare_state(
    unit: u32,
    opened: &Opened,
    sizes: &[u64],
    fronts: &[Front],
    device: u32,
) -> &'static [u8]
    requires { unit ≤ 128 }
    ensures text { result.now
        ≡ spare_state unit (opened_seen opened.now) sizes.now fronts.now device }
    ensures short { length result.now ≤ 6 }
{
    if is_used(&opened.seats, device) {
        b"used"
    } else if is_unread(opened, fronts, device) {
        b"failed"
    } else if is_small(sizes, opened.rows, unit, device) {
        b"small"
    } else {
        b"free"
    }
}

#[tactic(auto, unfolding(crate::specs::Steps::spare_line))]
fn set_spare(line: &mut Line, j: u32, name: &[u8], state: &[u8])
    requires name { length name.now ≤ 255 }
    requires state { length state.now ≤ 6 }
    ensures { line.new ≡ spare_line j name.now state.now }
{
    line.clear();
    line.push(b"spare ");
    line.push_number(j);
    line.push(b" ");
    line.push(name);
    line.push(b" ");
    line.push(state);
    line.push(b"\n");
}

#[tactic(auto, unfolding(crate::specs::Steps::spare_line), using(crate::proofs::ShortNames::names_are_short))]
fn put_spare<K: Sink>(
    conf: &Conf,
    opened: &Opened,
    sizes: &[u64],
    fronts: &[Front],
    j: u32,
    out: &mut K,
) -> Result<(), Failed>
    requires conf { IsConf conf.now }
    requires within { j < length conf.now.spare_names }
    ensures output { K.tells → Puts (is_ok result) (K.output out.old)
        (spare_text conf.now (opened_seen opened.now) sizes.now fronts.now j) (K.output out.new) }
    ensures later { K.faults out.old ≤ K.faults out.new }
    ensures cause { OnErr result (Rose (K.faults out.old) (K.faults out.new)) }
{
    let device = conf.disks.len() + j;
    let state = spare_state(conf.unit, opened, sizes, fronts, device);
    let mut line = Line::new();
    set_spare(&mut line, j, conf.spare_names.get(j).as_bytes(), state);
    line.put(out)
}

pub(crate) fn put_spares<K: Sink>(
    conf: &Conf,
    opened: &Opened,
    sizes: &[u64],
    fronts: &[Front],
    out: &mut K,
) -> Result<(), Failed>
    requires { IsConf conf.now }
    ensures output { K.tells → Puts (is_ok result) (K.output out.old)
        (spares_text conf.now (opened_seen opened.now) sizes.now fronts.now) (K.output out.new) }
    ensures later { K.faults out.old ≤ K.faults out.new }
    ensures cause { OnErr result (Rose (K.faults out.old) (K.faults out.new)) }
{
    for j in 0..conf.spare_names.len() {
        put_spare(conf, opened, sizes, fronts, j, out)?;
    }
    Ok(())
}
