//! The lines of the sets.
ghost use Rattle.std.specs.Prelude.{◌≡◌, ◌≤◌, ◌<◌, length, is_ok, option_copied, OnErr};
ghost use Rattle.blk_disk.specs.Disk.{Rose};
ghost use Rattle.raid_bay.specs.Sink.{Puts};
ghost use Rattle.top_scan.specs.Lines.{other_text, set_line, set_text};
ghost use Rattle.top_scan.specs.Steps.{others_text, sets_text, other_front};
ghost use Rattle.top_scan.specs.Places.{HaveColumnsBelow};

use crate::members::put_members;
use crate::named::{name_at, put_if};
use blk_disk::Failed;
use put_line::Line;
use raid_assemble::{Set, Standing};
use raid_bay::{Name, Sink};

// The first line of a set.
#[tactic(auto, unfolding(crate::specs::Lines::set_line))]
fn set_set(line: &mut Line, set: &Set)
    ensures { line.new ≡ set_line set.now }
{
    line.clear();
    line.push(b"set ");
    line.push_number(set.serial);
    line.push(b" ");
    line.push_number(set.counter);
    line.push(b" columns ");
    line.push_number(set.columns);
    line.push(b" level ");
    line.push_number(set.level);
    line.push(b" members ");
    line.push_number(set.members);
    line.push(b" of ");
    line.push_number(set.wanted);
    line.push(b"\n");
}

// What a label is that belongs to the set and isn't its member.
fn other_front(standing: &Standing, set: usize) -> Option<&'static [u8]>
    ensures { option_copied result ≡ other_front set standing.now }
{
    match standing {
        Standing::Double { set: own } if *own as usize == set => Some(b"double "),
        Standing::Foreign { set: own } if *own as usize == set => Some(b"foreign "),
        Standing::Stale { set: own } if *own as usize == set => Some(b"stale "),
        _ => None,
    }
}

fn put_other<K: Sink>(
    names: &[Name],
    places: &[Standing],
    set: usize,
    place: usize,
    out: &mut K,
) -> Result<(), Failed>
    requires count { length names.now ≡ length places.now }
    requires within { place < length places.now }
    ensures output { K.tells → Puts (is_ok result) (K.output out.old)
        (other_text names.now places.now set place) (K.output out.new) }
    ensures later { K.faults out.old ≤ K.faults out.new }
    ensures cause { OnErr result (Rose (K.faults out.old) (K.faults out.new)) }
{
    put_if(other_front(&places[place], set), name_at(names, place), out)
}

// Prints what else belongs to a set, in the order of the list.
fn put_others<K: Sink>(
    names: &[Name],
    places: &[Standing],
    set: usize,
    out: &mut K,
) -> Result<(), Failed>
    requires { length names.now ≡ length places.now }
    ensures output { K.tells → Puts (is_ok result) (K.output out.old)
        (others_text names.now places.now set) (K.output out.new) }
    ensures later { K.faults out.old ≤ K.faults out.new }
    ensures cause { OnErr result (Rose (K.faults out.old) (K.faults out.new)) }
{
    for place in 0..places.len() {
        put_other(names, places, set, place, out)?;
    }
    Ok(())
}

fn put_set<K: Sink>(
    names: &[Name],
    places: &[Standing],
    sets: &[Set],
    set: usize,
    out: &mut K,
) -> Result<(), Failed>
    requires count { length names.now ≡ length places.now }
    requires columns { HaveColumnsBelow places.now sets.now }
    requires within { set < length sets.now }
    ensures output { K.tells → Puts (is_ok result) (K.output out.old)
        (set_text names.now places.now sets.now set) (K.output out.new) }
    ensures later { K.faults out.old ≤ K.faults out.new }
    ensures cause { OnErr result (Rose (K.faults out.old) (K.faults out.new)) }
{
    let own = &sets[set];
    let mut line = Line::new();
    set_set(&mut line, own);
    line.put(out)?;
    put_members(names, places, set, own.columns, out)?;
    put_others(names, places, set, out)
}

/// Prints the sets, in their order.
pub(crate) fn put_sets<K: Sink>(
    names: &[Name],
    places: &[Standing],
    sets: &[Set],
    out: &mut K,
) -> Result<(), Failed>
    requires count { length names.now ≡ length places.now }
    requires columns { HaveColumnsBelow places.now sets.now }
    ensures output { K.tells → Puts (is_ok result) (K.output out.old)
        (sets_text names.now places.now sets.now) (K.output out.new) }
    ensures later { K.faults out.old ≤ K.faults out.new }
    ensures cause { OnErr result (Rose (K.faults out.old) (K.faults out.new)) }
{
    for set in 0..sets.len() {
        put_set(names, places, sets, set, out)?;
    }
    Ok(())
}
