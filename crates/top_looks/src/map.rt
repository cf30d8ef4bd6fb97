//! The line of a parity map.
ghost use Rattle.std.specs.Prelude.{◌≡◌, ◌≤◌, is_ok, OnErr};
ghost use Rattle.blk_disk.specs.Disk.{Rose};
ghost use Rattle.raid_bay.specs.Sink.{Puts};
ghost use Rattle.top_looks.specs.Maps.{map_text};
ghost use Rattle.top_looks.specs.Steps.{marked_line};

use blk_disk::Failed;
use put_line::Line;
use raid_bay::Sink;

/// What the parity map of an array marks.
#[derive(Clone, Copy, Debug, PartialEq, Eq)]
pub struct Marked {
    /// How many regions the array has.
    pub regions: u32,
    /// How many of them are marked.
    pub marked: u32,
}

#[tactic(auto, unfolding(crate::specs::Steps::marked_line))]
fn set_marked(line: &mut Line, map: Marked)
    ensures { line.new ≡ marked_line map }
{
    line.clear();
    line.push(b"map regions ");
    line.push_number(map.regions);
    line.push(b" marked ");
    line.push_number(map.marked);
    line.push(b"\n");
}

/// Prints what the parity map marks: `map regions N marked M`, or `map none` where no device in use
/// has a map.
///
/// It is one call of the sink, and takes no memory. Failed, only where the sink's count of faults
/// rose, has put a front of the line.
#[tactic(auto, unfolding(crate::specs::Steps::marked_line))]
pub fn put_map<K: Sink>(map: Option<Marked>, out: &mut K) -> Result<(), Failed>
    ensures output { K.tells → Puts (is_ok result)
        (K.output out.old) (map_text map) (K.output out.new) }
    ensures later { K.faults out.old ≤ K.faults out.new }
    ensures cause { OnErr result (Rose (K.faults out.old) (K.faults out.new)) }
{
    match map {
        Some(map) => {
            let mut line = Line::new();
            set_marked(&mut line, map);
            line.put(out)
        }
        None => out.put(b"map none\n"),
    }
}
