//! The lines of a scan.
ghost use Rattle.std.specs.Prelude.{◌≡◌, ◌≤◌, ◌<◌, length, is_ok, option_copied, OnErr};
ghost use Rattle.blk_disk.specs.Disk.{Rose};
ghost use Rattle.raid_bay.specs.Sink.{Puts};
ghost use Rattle.top_scan.specs.Lines.{bare_text, scan_text};
ghost use Rattle.top_scan.specs.Steps.{bares_text, bare_front};
ghost use Rattle.top_scan.specs.Scanned.{IsComplete};

use crate::named::{name_at, put_if};
use crate::scanning::Scanned;
use crate::sets::put_sets;
use blk_disk::Failed;
use raid_assemble::{Set, Standing, members_have_columns_of_the_set};
use raid_bay::{Name, Sink};
use top_open::Front;

// What a component without a label is.
fn bare_front(front: &Front, standing: &Standing) -> Option<&'static [u8]>
    ensures { option_copied result ≡ bare_front front.now standing.now }
{
    match (standing, front) {
        (Standing::Bare, Front::Unread) => Some(b"unread "),
        (Standing::Bare, _) => Some(b"bare "),
        _ => None,
    }
}

fn put_bare<K: Sink>(
    names: &[Name],
    fronts: &[Front],
    places: &[Standing],
    place: usize,
    out: &mut K,
) -> Result<(), Failed>
    requires names { length names.now ≡ length places.now }
    requires fronts { length fronts.now ≡ length places.now }
    requires within { place < length places.now }
    ensures output { K.tells → Puts (is_ok result) (K.output out.old)
        (bare_text names.now places.now fronts.now place) (K.output out.new) }
    ensures later { K.faults out.old ≤ K.faults out.new }
    ensures cause { OnErr result (Rose (K.faults out.old) (K.faults out.new)) }
{
    put_if(
        bare_front(&fronts[place], &places[place]),
        name_at(names, place),
        out,
    )
}

// Prints the components without a label, in the order of the list.
fn put_bares<K: Sink>(
    names: &[Name],
    fronts: &[Front],
    places: &[Standing],
    out: &mut K,
) -> Result<(), Failed>
    requires names { length names.now ≡ length places.now }
    requires fronts { length fronts.now ≡ length places.now }
    ensures output { K.tells → Puts (is_ok result) (K.output out.old)
        (bares_text names.now places.now fronts.now) (K.output out.new) }
    ensures later { K.faults out.old ≤ K.faults out.new }
    ensures cause { OnErr result (Rose (K.faults out.old) (K.faults out.new)) }
{
    for place in 0..places.len() {
        put_bare(names, fronts, places, place, out)?;
    }
    Ok(())
}

fn put_all<K: Sink>(
    names: &[Name],
    fronts: &[Front],
    sets: &[Set],
    places: &[Standing],
    out: &mut K,
) -> Result<(), Failed>
    requires { IsComplete names.now fronts.now sets.now places.now }
    ensures output { K.tells → Puts (is_ok result) (K.output out.old)
        (scan_text names.now fronts.now sets.now places.now) (K.output out.new) }
    ensures later { K.faults out.old ≤ K.faults out.new }
    ensures cause { OnErr result (Rose (K.faults out.old) (K.faults out.new)) }
{
    members_have_columns_of_the_set();
    put_sets(names, places, sets, out)?;
    put_bares(names, fronts, places, out)
}

/// Prints the sets, by ascending serial, and behind them the components without a label.
///
/// For each set there is `set SERIAL COUNTER columns COLUMNS level NUMBER members P of W`, then `member COLUMN NAME`
/// by column, and then, in the order of the list, `double NAME`, `foreign NAME` and `stale NAME`. After all sets there
/// is, in the order of the list, `bare NAME`, or `unread NAME` where sector 0 couldn't be read.
///
/// It takes no memory: a line with a name is put in three calls, each other one in one. Failed comes only where the
/// sink's count of faults rose, and has put a front of the text.
pub fn put_scan<K: Sink>(scanned: &Scanned, out: &mut K) -> Result<(), Failed>
    requires { IsComplete scanned.now.names.items scanned.now.fronts.items
        scanned.now.sets.sets scanned.now.sets.places }
    ensures output { K.tells → Puts (is_ok result) (K.output out.old)
        (scan_text scanned.now.names.items scanned.now.fronts.items
        scanned.now.sets.sets scanned.now.sets.places) (K.output out.new) }
    ensures later { K.faults out.old ≤ K.faults out.new }
    ensures cause { OnErr result (Rose (K.faults out.old) (K.faults out.new)) }
{
    put_all(
        &scanned.names,
        &scanned.fronts,
        scanned.sets.sets.as_slice(),
        scanned.sets.places.as_slice(),
        out,
    )
}
