//! The members of a set.
ghost use Rattle.std.specs.Prelude.{◌≡◌, ◌≤◌, ◌<◌, ◌+◌, ℕ, length, is_ok, IfSome, IfNone, OnErr};
ghost use Rattle.blk_disk.specs.Disk.{Rose};
ghost use Rattle.raid_assemble.specs.declared.sets.Standing.TheVariants.{Member};
ghost use Rattle.raid_bay.specs.Sink.{Puts};
ghost use Rattle.top_scan.specs.Lines.{named_line};
ghost use Rattle.top_scan.specs.Steps.{members_text, member_front, name_at};
ghost use Rattle.top_scan.specs.Places.{HasColumnsBelow, IsNextIn};

use crate::named::{name_at, put_named};
use blk_disk::Failed;
use put_line::Line;
use raid_assemble::Standing;
use raid_bay::{Name, Sink};

/// A member of a set: its place in the list, and its column.
#[derive(Clone, Copy)]
struct Found {
    place: usize,
    column: u32,
}

// The column of a member of the set, from this column on.
fn column_from(standing: &Standing, set: usize, from: u64) -> Option<u32>
    ensures some { IfSome result (λ column. (standing.now ≡ Member set column) × (from ≤ column)) }
    ensures none { IfNone result ((column : ℕ) → standing.now ≡ Member set column → column < from) }
{
    match standing {
        Standing::Member { set: own, column }
            if *own as usize == set && from <= u64::from(*column) => { Some(*column) }
        _ => None,
    }
}

// What is next among one place more.
fn nearer(
    places: &[Standing],
    set: usize,
    from: u64,
    place: usize,
    found: Option<Found>,
) -> Option<Found>
    requires within { place < length places.now }
    requires before { IsNextIn places.now set from place found }
    ensures { IsNextIn places.now set from (place + 1) result }
{
    match column_from(&places[place], set, from) {
        Some(column) => match found {
            Some(other) if other.column <= column => found,
            _ => Some(Found { place, column }),
        },
        None => found,
    }
}

// The member of the least column from this one on, and the first of those.
fn next_member(places: &[Standing], set: usize, from: u64) -> Option<Found>
    ensures { IsNextIn places.now set from (length places.now) result }
{
    let mut found = None;
    for place in 0..places.len() {
        found = nearer(places, set, from, place, found);
    }
    found
}

// The words before the name of a member.
#[tactic(auto, unfolding(crate::specs::Steps::member_front))]
fn set_member(line: &mut Line, column: u32)
    ensures { line.new ≡ member_front column }
{
    line.clear();
    line.push(b"member ");
    line.push_number(column);
    line.push(b" ");
}

fn put_member<K: Sink>(names: &[Name], found: Found, out: &mut K) -> Result<(), Failed>
    requires { found.place < length names.now }
    ensures output { K.tells → Puts (is_ok result) (K.output out.old)
        (named_line (member_front found.column) (name_at names.now found.place))
        (K.output out.new) }
    ensures later { K.faults out.old ≤ K.faults out.new }
    ensures cause { OnErr result (Rose (K.faults out.old) (K.faults out.new)) }
{
    let mut line = Line::new();
    set_member(&mut line, found.column);
    put_named(line.bytes(), name_at(names, found.place), out)
}

/// Prints the members of a set, by column.
pub(crate) fn put_members<K: Sink>(
    names: &[Name],
    places: &[Standing],
    set: usize,
    columns: u32,
    out: &mut K,
) -> Result<(), Failed>
    requires count { length names.now ≡ length places.now }
    requires columns { HasColumnsBelow places.now set columns }
    ensures output { K.tells → Puts (is_ok result) (K.output out.old)
        (members_text names.now places.now set columns) (K.output out.new) }
    ensures later { K.faults out.old ≤ K.faults out.new }
    ensures cause { OnErr result (Rose (K.faults out.old) (K.faults out.new)) }
{
    let mut from = 0;
    while let Some(found) = next_member(places, set, from) {
        put_member(names, found, out)?;
        from = u64::from(found.column) + 1;
    }
    Ok(())
}
