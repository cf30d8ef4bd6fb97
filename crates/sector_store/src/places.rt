//! The place of a sector among those that are kept.
ghost use Rattle.std.specs.Prelude.{◌≡◌, ◌↔◌, ◌<◌, ◌≤◌, ◌+◌, ◌-◌, ◌*◌, ℕ, IsTrue, length, vec_len, vec_capacity};
ghost use Rattle.sector_store.specs.Places.{kept_at, AreWhole, Keeps, KeepsApart};

use blk_plain::SECTOR;

/// Whether two sectors have the same bytes.
///
/// Where the first two are the same, each pair is looked at, so that the compiler takes many at once.
pub(crate) fn are_equal(one: &[u8; SECTOR], other: &[u8; SECTOR]) -> bool
    ensures { IsTrue result ↔ (one.now ≡ other.now) }
{
    if one[0] != other[0] {
        return false;
    }
    let mut equal = true;
    for k in 0..SECTOR {
        equal &= one[k] == other[k];
    }
    equal
}

// The place of a sector with these bytes: this one, where it has them, or else a new one.
fn keep(kept: &mut Vec<[u8; SECTOR]>, recent: u32, sector: &[u8; SECTOR]) -> u32
    requires few { vec_len kept.old < 4294967296 }
    requires room { vec_len kept.old < vec_capacity kept.old }
    requires whole { AreWhole kept.old.items }
    ensures keeps { Keeps kept.old.items sector.now kept.new.items result }
    ensures old { (p : ℕ) → p < length kept.old.items
        → kept_at kept.new.items p ≡ kept_at kept.old.items p }
    ensures most { vec_len kept.new ≤ vec_len kept.old + 1 }
    ensures place { result ≤ vec_len kept.old }
    ensures room { vec_capacity kept.old ≤ vec_capacity kept.new }
{
    if (recent as usize) < kept.len() && are_equal(&kept[recent as usize], sector) {
        return recent;
    }
    let place = kept.len() as u32;
    kept.push_reserved(*sector);
    place
}

// So many sectors at least: where there are fewer, zeros stand behind them.
fn reach(kept: &mut Vec<[u8; SECTOR]>, count: usize)
    requires room { count ≤ vec_capacity kept.old }
    requires whole { AreWhole kept.old.items }
    ensures whole { AreWhole kept.new.items }
    ensures old { (p : ℕ) → p < length kept.old.items
        → kept_at kept.new.items p ≡ kept_at kept.old.items p }
    ensures longer { length kept.old.items ≤ length kept.new.items }
    ensures long { count ≤ vec_len kept.new }
    ensures most { vec_len kept.new ≤ vec_len kept.old + (count - vec_len kept.old) }
    ensures room { vec_capacity kept.old ≤ vec_capacity kept.new }
{
    for _ in kept.len()..count {
        kept.push_reserved([0; SECTOR]);
    }
}

// A sector is kept at this place, which is no other's.
fn keep_at(kept: &mut Vec<[u8; SECTOR]>, place: usize, sector: &[u8; SECTOR])
    requires room { place < vec_capacity kept.old }
    requires whole { AreWhole kept.old.items }
    ensures keeps { Keeps kept.old.items sector.now kept.new.items place }
    ensures most { vec_len kept.new ≤ vec_len kept.old + (place + 1 - vec_len kept.old) }
    ensures room { vec_capacity kept.old ≤ vec_capacity kept.new }
{
    reach(kept, place + 1);
    kept[place] = *sector;
}

/// The place of a sector with these bytes, which is put at this number of so many: it may be `recent`.
///
/// Each has room among the first ones where each number is put once. One that is put again when these are taken has a
/// place of its own behind them.
pub(crate) fn place_for(
    kept: &mut Vec<[u8; SECTOR]>,
    count: usize,
    at: usize,
    recent: u32,
    sector: &[u8; SECTOR],
) -> u32
    requires at { at < count }
    requires count { count ≤ 262144 }
    requires few { vec_len kept.old ≤ 2 * count + 1 }
    requires room { 2 * count + 1 ≤ vec_capacity kept.old }
    requires whole { AreWhole kept.old.items }
    ensures keeps { KeepsApart count at kept.old.items sector.now kept.new.items result }
    ensures few { vec_len kept.new ≤ 2 * count + 1 }
    ensures room { vec_capacity kept.old ≤ vec_capacity kept.new }
{
    if kept.len() <= count {
        return keep(kept, recent, sector);
    }
    let place = count + 1 + at;
    keep_at(kept, place, sector);
    place as u32
}
