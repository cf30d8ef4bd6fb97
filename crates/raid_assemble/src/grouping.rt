//! The sets of a list of labels.
ghost use Rattle.std.specs.Prelude.{◌≡◌, ◌+◌, ◌<◌, ◌≤◌, ◌||◌, ℕ, true, length, map, take, slice_index_or, IfOk, OnOk};
ghost use Rattle.std.specs.Ordering.{nat_cmp};
ghost use Rattle.std.specs.BTreeSet.{btree_set_len, contains, IsOrdered};
ghost use Rattle.std.specs.List.{count_by, list_any, range_with_len};
ghost use Rattle.raid_assemble.specs.declared.sets.Set.{Set};
ghost use Rattle.raid_assemble.specs.Sets.{AreSerials, IsGrouping, IsSetOf};
ghost use Rattle.raid_assemble.specs.Steps.{is_member_of, is_of, is_wanted, standing};

use crate::memory::Memory;
use crate::sets::{Set, SetList, Sets, Standing, Standings};
use crate::standings::{first_at, newest, standing};
use raid_label::Label;
use std::alloc::Global;
use std::collections::BTreeSet;

fn put_serial(found: &mut BTreeSet<u32>, label: &Option<Label>) -> Result<(), Memory>
    ensures found { OnOk result ((serial : ℕ) → contains nat_cmp found.new serial
        ≡ (contains nat_cmp found.old serial || is_of serial label.now)) }
    ensures few { OnOk result (btree_set_len found.new ≤ btree_set_len found.old + 1) }
{
    if let Some(label) = label {
        found.insert(label.serial)?;
    }
    Ok(())
}

fn in_order(alloc: Global, found: &BTreeSet<u32>) -> Result<Vec<u32>, Memory>
    ensures keys { IfOk result (λ serials. serials.items ≡ found.now.keys) }
    ensures ordered { OnOk result (IsOrdered nat_cmp found.now) }
{
    Ok(found.iter().copied().collect(alloc)?)
}

// The serials of the labels, ascending, each once.
fn find_serials(alloc: Global, labels: &[Option<Label>]) -> Result<Vec<u32>, Memory>
    requires { length labels.now ≤ 1024 }
    ensures serials { IfOk result (λ serials. AreSerials labels.now serials.items) }
    ensures few { IfOk result (λ serials. length serials.items ≤ 1024) }
{
    let mut found = BTreeSet::new(alloc);
    for label in labels {
        put_serial(&mut found, label)?;
    }
    in_order(alloc, &found)
}

fn find_standings(
    alloc: Global,
    labels: &[Option<Label>],
    serials: &[u32],
) -> Result<Vec<Standing>, Memory>
    requires { length serials.now ≤ 1024 }
    ensures { IfOk result (λ places. places.items
        ≡ map (standing labels.now serials.now) (range_with_len 0 (length labels.now))) }
{
    let mut places = Vec::with_capacity(alloc, labels.len())?;
    for at in 0..labels.len() {
        places.push_reserved(standing(labels, serials, at));
    }
    Ok(places)
}

fn is_member_of(place: &Standing, set: u32) -> bool
    ensures { result ≡ is_member_of set place.now }
{
    match place {
        Standing::Member { set: own, .. } => *own == set,
        Standing::Double { .. }
        | Standing::Foreign { .. }
        | Standing::Stale { .. }
        | Standing::Bare => false,
    }
}

fn members(places: &[Standing], set: u32) -> u32
    requires { length places.now ≤ 1024 }
    ensures { result ≡ count_by (is_member_of set) places.now }
{
    places
        .iter()
        .filter(|place| is_member_of(place, set))
        .count() as u32
}

// For how many of the columns the seats name a device.
fn wanted(pattern: &Label) -> u32
    ensures { result ≡ count_by is_wanted (take pattern.now.columns pattern.now.seats) }
{
    let columns = pattern.columns.min(32) as usize;
    pattern.seats[..columns]
        .iter()
        .filter(|seat| **seat != 254 && **seat != 255)
        .count() as u32
}

fn set_of(labels: &[Option<Label>], places: &[Standing], position: u32, serial: u32) -> Set
    requires few { length places.now ≤ 1024 }
    requires found { list_any (is_of serial) labels.now ≡ true }
    ensures serial { result.serial ≡ serial }
    ensures set { IsSetOf labels.now places.now position result }
{
    let Some(pattern) = first_at(labels, serial, newest(labels, serial)) else {
        unreachable!()
    };
    Set {
        serial: pattern.serial,
        counter: pattern.counter,
        columns: pattern.columns,
        level: pattern.level,
        members: members(places, position),
        wanted: wanted(&pattern),
    }
}

fn find_sets(
    alloc: Global,
    labels: &[Option<Label>],
    serials: &[u32],
    places: &[Standing],
) -> Result<Vec<Set>, Memory>
    requires few { length places.now ≤ 1024 }
    requires count { length serials.now ≤ 1024 }
    requires found { AreSerials labels.now serials.now }
    ensures serials { IfOk result (λ sets. map (λ s. s.serial) sets.items ≡ serials.now) }
    ensures sets { IfOk result (λ sets. (k : ℕ) (d : Set) → k < length sets.items →
        IsSetOf labels.now places.now k (slice_index_or sets.items k d)) }
{
    let mut sets = Vec::with_capacity(alloc, serials.len())?;
    for position in 0..serials.len() {
        sets.push_reserved(set_of(labels, places, position as u32, serials[position]));
    }
    Ok(sets)
}

/// Which arrays the labels make up, and what each label is in its own.
///
/// There is a set for each serial, by ascending serial. Its counter is the greatest of the serial, and its pattern the
/// first label of that serial and counter. A label with a lesser counter is stale. One with that counter is foreign
/// where its shape or its seats differ from the pattern's, or where its column isn't one of the pattern's. Of the
/// others the first of each column is its member, and the rest are doubles.
///
/// There are at most 1,024 labels; `None` stands for a device without one. The only error is want of memory.
pub fn group(alloc: Global, labels: &[Option<Label>]) -> Result<Sets, Memory>
    requires { length labels.now ≤ 1024 }
    ensures { IfOk result (λ s. IsGrouping labels.now s.sets s.places) }
{
    let serials = find_serials(alloc, labels)?;
    let places = find_standings(alloc, labels, &serials)?;
    let sets = find_sets(alloc, labels, &serials, &places)?;
    Ok(Sets {
        sets: SetList { items: sets },
        places: Standings { items: places },
    })
}
