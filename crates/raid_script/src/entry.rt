//! What a line says.
ghost use Rattle.std.specs.Prelude.{◌≡◌};
ghost use Rattle.raid_script.specs.Asked.{seen};
ghost use Rattle.raid_script.specs.Steps.{seen_said};

use crate::join::Join;
use blk_plain::{Op, Patch, Patches, Pattern, Span};
use eng_world::Item;

/// An item as a line has it: what is written stands in a room beside it, so that the value that each step of
/// the reader hands on is a small one.
#[derive(Clone, Copy, Debug, PartialEq, Eq)]
pub enum Said {
    /// A write of one span, with the pattern that is in the room.
    Write { span: Span, graph: Option<u32> },
    /// A write of those patches that are in the room.
    Writes { graph: Option<u32> },
    /// A read.
    Read { span: Span, graph: Option<u32> },
    /// A stripe's check unit is made.
    Sync { stripe: u32 },
    /// A column fails.
    Fail { column: u32 },
}

/// A client's item, and which graphs are joined for it, if any are.
#[derive(Clone, Copy, Debug, PartialEq, Eq)]
pub struct Entry {
    pub client: u32,
    pub said: Said,
    pub join: Option<Join>,
}

/// Room for what is written: the pattern of a write of one span, and the patches of a write of several.
#[derive(Clone, Copy)]
pub struct Room {
    pub pattern: Pattern,
    pub patches: Patches,
}

/// Room for what is written, of whose patches none is in use.
pub fn patch_room() -> Room
    ensures { result.patches.used ≡ 0 }
{
    let span = Span { first: 0, count: 0 };
    let pattern = Pattern {
        len: 1,
        bytes: [0; 32],
    };
    Room {
        pattern,
        patches: Patches {
            used: 0,
            list: [Patch { span, pattern }; 8],
        },
    }
}

/// The item that a line says, with what this room has where it writes.
pub fn item_from(said: Said, room: &Room) -> Item
    ensures { seen result ≡ seen_said room.now said }
{
    match said {
        Said::Write { span, graph } => Item::Run {
            op: Op::Write {
                span,
                pattern: room.pattern,
            },
            graph,
        },
        Said::Writes { graph } => Item::Run {
            op: Op::Writes {
                patches: room.patches,
            },
            graph,
        },
        Said::Read { span, graph } => Item::Run {
            op: Op::Read { span },
            graph,
        },
        Said::Sync { stripe } => Item::Run {
            op: Op::Sync { stripe },
            graph: None,
        },
        Said::Fail { column } => Item::Fail { column },
    }
}
