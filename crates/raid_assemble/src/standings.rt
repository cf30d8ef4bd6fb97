//! What each label is.
ghost use Rattle.std.specs.Prelude.{◌≡◌, ◌<◌, ◌≤◌, ◌==◌, length, nat_lt, max, IsTrue, IsSome};
ghost use Rattle.std.specs.List.{list_any, count_by};
ghost use Rattle.raid_assemble.specs.Sets.{newest, first_at, is_alike, fits, standing_behind};
ghost use Rattle.raid_assemble.specs.Steps.{counter_of, is_at, is_of, has_column_of, rank, standing};

use crate::sets::Standing;
use raid_label::Label;

// The counter of a label, where it is of the serial.
fn counter_of(label: &Option<Label>, serial: u32) -> u32
    ensures { result ≡ counter_of serial label.now }
{
    match label {
        Some(label) if label.serial == serial => label.counter,
        _ => 0,
    }
}

/// The greatest counter of a serial.
pub(crate) fn newest(labels: &[Option<Label>], serial: u32) -> u32
    ensures { result ≡ newest labels.now serial }
{
    let mut counter = 0;
    for label in labels {
        counter = counter_of(label, serial).max(counter);
    }
    counter
}

fn is_at(label: &Option<Label>, serial: u32, counter: u32) -> bool
    ensures { result ≡ is_at serial counter label.now }
{
    match label {
        Some(label) => label.serial == serial && label.counter == counter,
        None => false,
    }
}

pub(crate) fn first_at(labels: &[Option<Label>], serial: u32, counter: u32) -> Option<Label>
    ensures { result ≡ first_at serial counter labels.now }
{
    for label in labels {
        if is_at(label, serial, counter) {
            return *label;
        }
    }
    None
}

// Whether a label has the shape and the seats of the pattern, and a column of it.
#[tactic(auto, unfolding(crate::specs::Sets::is_alike))]
fn is_alike(pattern: &Label, label: &Label) -> bool
    ensures { result ≡ is_alike pattern.now label.now }
{
    label.columns == pattern.columns
        && label.unit == pattern.unit
        && (label.rows == pattern.rows && label.level == pattern.level)
        && (label.b == pattern.b
            && label.k == pattern.k
            && (label.r == pattern.r && label.lambda == pattern.lambda))
        && label.seats == pattern.seats
        && label.column < pattern.columns
}

fn fits(pattern: &Option<Label>, label: &Label) -> bool
    ensures { result ≡ fits pattern.now label.now }
{
    match pattern {
        Some(pattern) => is_alike(pattern, label),
        None => false,
    }
}

// Whether another label is of the same array and column.
fn has_column_of(pattern: &Option<Label>, label: &Label, other: &Option<Label>) -> bool
    ensures { result ≡ has_column_of pattern.now label.now other.now }
{
    match other {
        Some(other) => {
            other.serial == label.serial
                && other.counter == label.counter
                && other.column == label.column
                && fits(pattern, other)
        }
        None => false,
    }
}

// Whether one of these labels is of the same array and column.
fn has_member(pattern: &Option<Label>, label: &Label, earlier: &[Option<Label>]) -> bool
    ensures { result ≡ list_any (has_column_of pattern.now label.now) earlier.now }
{
    earlier
        .iter()
        .any(|other| has_column_of(pattern, label, other))
}

// The position of a serial among those that are found.
fn rank(serials: &[u32], serial: u32) -> u32
    requires { length serials.now ≤ 1024 }
    ensures { result ≡ rank serials.now serial }
{
    serials.iter().filter(|other| **other < serial).count() as u32
}

#[tactic(auto, unfolding(crate::specs::Sets::standing_behind))]
fn standing_behind(
    labels: &[Option<Label>],
    serials: &[u32],
    earlier: &[Option<Label>],
    label: &Label,
) -> Standing
    requires { length serials.now ≤ 1024 }
    ensures { result ≡ standing_behind labels.now serials.now earlier.now label.now }
{
    let set = rank(serials, label.serial);
    let counter = newest(labels, label.serial);
    if label.counter < counter {
        return Standing::Stale { set };
    }
    let pattern = first_at(labels, label.serial, counter);
    if !fits(&pattern, label) {
        return Standing::Foreign { set };
    }
    if has_member(&pattern, label, earlier) {
        return Standing::Double { set };
    }
    Standing::Member {
        set,
        column: label.column,
    }
}

pub(crate) fn standing(labels: &[Option<Label>], serials: &[u32], at: usize) -> Standing
    requires at { at < length labels.now }
    requires few { length serials.now ≤ 1024 }
    ensures { result ≡ standing labels.now serials.now at }
{
    match &labels[at] {
        Some(label) => standing_behind(labels, serials, &labels[..at], label),
        None => Standing::Bare,
    }
}
