//! The sets that labels make up.
ghost use Rattle.std.specs.Prelude.{◌≡◌};

use std::marker::Model;

/// An array, as its newest labels tell of it.
#[derive(Clone, Copy, Debug, PartialEq, Eq)]
pub struct Set {
    /// The serial that its labels have.
    pub serial: u32,
    /// The greatest counter of a label of that serial.
    pub counter: u32,
    /// How many columns it has, by the first of its newest labels.
    pub columns: u32,
    /// The ASCII number of its level's letter, by the same label.
    pub level: u32,
    /// How many of its columns have a member in the list.
    pub members: u32,
    /// How many of its columns have a device by that label's seats: neither dead nor spread.
    pub wanted: u32,
}

/// What a label of the list is. Sets go by their position, from 0.
#[derive(Clone, Copy, Debug, PartialEq, Eq)]
pub enum Standing {
    /// The set's device of a column.
    Member { set: u32, column: u32 },
    /// A further one of a column that has a member.
    Double { set: u32 },
    /// One of the set's counter whose shape, seats or column aren't the set's.
    Foreign { set: u32 },
    /// One of a lesser counter than the set's.
    Stale { set: u32 },
    /// Nothing: there is no label.
    Bare,
}

/// Sets, which contracts see as their list.
#[derive(Drop)]
pub struct SetList {
    pub(crate) items: Vec<Set>,
}

impl Model for SetList {
    ghost use Rattle.std.specs.Prelude.{List};
    ghost use Rattle.raid_assemble.specs.declared.sets.Set.{Set};

    ghost Value = { List Set };

    ghost view = { λ s. s.items.items };
}

impl SetList {
    /// The sets, by ascending serial.
    pub fn as_slice(&self) -> &[Set]
        ensures { result.now ≡ self.now }
    {
        &self.items
    }
}

/// Standings, which contracts see as their list.
#[derive(Drop)]
pub struct Standings {
    pub(crate) items: Vec<Standing>,
}

impl Model for Standings {
    ghost use Rattle.std.specs.Prelude.{List};
    ghost use Rattle.raid_assemble.specs.declared.sets.Standing.{Standing};

    ghost Value = { List Standing };

    ghost view = { λ s. s.items.items };
}

impl Standings {
    /// The standings, in the order of the labels.
    pub fn as_slice(&self) -> &[Standing]
        ensures { result.now ≡ self.now }
    {
        &self.items
    }
}

/// The sets that labels make up, and the standing of each label.
#[derive(Drop)]
pub struct Sets {
    pub sets: SetList,
    pub places: Standings,
}
