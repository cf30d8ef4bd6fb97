//! Names of a list, and words before them.
ghost use Rattle.std.specs.Prelude.{◌≡◌, ◌≤◌, ◌<◌, Some, length, slice_get, is_ok, option_copied, OnErr};
ghost use Rattle.blk_disk.specs.Disk.{Rose};
ghost use Rattle.raid_bay.specs.Sink.{Puts};
ghost use Rattle.top_scan.specs.Lines.{line_if, named_line};

use blk_disk::Failed;
use raid_bay::{Name, Sink};

/// The name in a place of a list.
pub(crate) fn name_at(names: &[Name], place: usize) -> &str
    requires { place < length names.now }
    ensures { slice_get names.now place ≡ Some result.now }
{
    names[place].text()
}

/// Puts words and a name. The name itself is put, and no copy of it.
#[tactic(auto, unfolding(crate::specs::Lines::named_line))]
pub(crate) fn put_named<K: Sink>(front: &[u8], name: &str, out: &mut K) -> Result<(), Failed>
    ensures output { K.tells → Puts (is_ok result) (K.output out.old)
        (named_line front.now name.now) (K.output out.new) }
    ensures later { K.faults out.old ≤ K.faults out.new }
    ensures cause { OnErr result (Rose (K.faults out.old) (K.faults out.new)) }
{
    out.put(front)?;
    out.put(name.as_bytes())?;
    out.put(b"\n")
}

/// Puts words and a name, if there are any words.
pub(crate) fn put_if<K: Sink>(front: Option<&[u8]>, name: &str, out: &mut K) -> Result<(), Failed>
    ensures output { K.tells → Puts (is_ok result) (K.output out.old)
        (line_if (option_copied front.entry) name.now) (K.output out.new) }
    ensures later { K.faults out.old ≤ K.faults out.new }
    ensures cause { OnErr result (Rose (K.faults out.old) (K.faults out.new)) }
{
    match front {
        Some(front) => put_named(front, name, out),
        None => Ok(()),
    }
}
