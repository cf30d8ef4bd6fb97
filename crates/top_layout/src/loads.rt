//! What the rebuild of a column reads and writes on the others.
ghost use Rattle.std.specs.Prelude.{◌≡◌, ◌≤◌, flat_map, is_ok, OnErr};
ghost use Rattle.std.specs.List.{range_with_len};
ghost use Rattle.blk_disk.specs.Disk.{Rose};
ghost use Rattle.raid_bay.specs.Sink.{Puts};
ghost use Rattle.top_layout.specs.Lines.{load_line, load_text, loads_of, loads_text};

use crate::tally::{Tally, count_such};
use blk_disk::Failed;
use lay_core::Layout;
use put_line::Line;
use raid_bay::Sink;

#[tactic(auto, unfolding(crate::specs::Lines::load_line))]
fn set_load(line: &mut Line, column: u32, other: u32, reads: u32, writes: u32)
    ensures { line.new ≡ load_line column other reads writes }
{
    line.clear();
    line.push(b"rebuild ");
    line.push_number(column);
    line.push(b" column ");
    line.push_number(other);
    line.push(b" reads ");
    line.push_number(reads);
    line.push(b" writes ");
    line.push_number(writes);
    line.push(b"\n");
}

// Prints what the rebuild of a column reads and writes on another.
#[tactic(auto, unfolding(crate::specs::Lines::load_text))]
fn put_load<L: Layout, K: Sink>(
    layout: &L,
    column: u32,
    other: u32,
    out: &mut K,
) -> Result<(), Failed>
    ensures output { K.tells → Puts (is_ok result) (K.output out.old)
        (load_text (L.shape layout.now) column other) (K.output out.new) }
    ensures later { K.faults out.old ≤ K.faults out.new }
    ensures cause { OnErr result (Rose (K.faults out.old) (K.faults out.new)) }
{
    if column == other {
        return Ok(());
    }
    let reads = count_such(layout, Tally::Shared { column, other });
    let writes = count_such(layout, Tally::Spared { column, other });
    if reads == 0 && writes == 0 {
        return Ok(());
    }
    let mut line = Line::new();
    set_load(&mut line, column, other, reads, writes);
    line.put(out)
}

// Prints the same of all others.
fn put_loads_of<L: Layout, K: Sink>(layout: &L, column: u32, out: &mut K) -> Result<(), Failed>
    ensures output { K.tells → Puts (is_ok result) (K.output out.old)
        (loads_of (L.shape layout.now) column) (K.output out.new) }
    ensures later { K.faults out.old ≤ K.faults out.new }
    ensures cause { OnErr result (Rose (K.faults out.old) (K.faults out.new)) }
{
    for other in 0..layout.columns() {
        put_load(layout, column, other, out)?;
    }
    Ok(())
}

/// Prints what the rebuild of each column loads the others with. Without check units nothing is
/// rebuilt.
#[tactic(auto, unfolding(crate::specs::Lines::loads_text))]
pub(crate) fn put_loads<L: Layout, K: Sink>(layout: &L, out: &mut K) -> Result<(), Failed>
    ensures output { K.tells → Puts (is_ok result) (K.output out.old)
        (loads_text (L.shape layout.now)) (K.output out.new) }
    ensures later { K.faults out.old ≤ K.faults out.new }
    ensures cause { OnErr result (Rose (K.faults out.old) (K.faults out.new)) }
{
    if layout.checks() == 0 {
        return Ok(());
    }
    put_all_loads(layout, out)
}

fn put_all_loads<L: Layout, K: Sink>(layout: &L, out: &mut K) -> Result<(), Failed>
    ensures output { K.tells → Puts (is_ok result) (K.output out.old)
        (flat_map (loads_of (L.shape layout.now)) (range_with_len 0 (L.shape layout.now).columns))
        (K.output out.new) }
    ensures later { K.faults out.old ≤ K.faults out.new }
    ensures cause { OnErr result (Rose (K.faults out.old) (K.faults out.new)) }
{
    for column in 0..layout.columns() {
        put_loads_of(layout, column, out)?;
    }
    Ok(())
}
