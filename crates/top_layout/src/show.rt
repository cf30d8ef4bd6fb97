//! All that is told of a layout.
ghost use Rattle.std.specs.Prelude.{◌≡◌, ◌≤◌, ◌++◌, is_ok, OnErr};
ghost use Rattle.blk_disk.specs.Disk.{Rose};
ghost use Rattle.lay_core.specs.Layout.{blocks_in};
ghost use Rattle.raid_bay.specs.Sink.{Puts};
ghost use Rattle.top_layout.specs.Lines.{columns_text, degraded_line, head_line, layout_text, loads_text, stripes_text, writes_text};

use crate::columns::put_columns;
use crate::costs::{put_degraded, put_writes};
use crate::loads::put_loads;
use crate::stripes::put_stripes;
use crate::tally::data_of;
use blk_disk::Failed;
use lay_core::{Layout, blocks};
use put_line::Line;
use raid_bay::Sink;

#[tactic(auto, unfolding(crate::specs::Lines::head_line))]
fn set_head<L: Layout>(line: &mut Line, level: u8, layout: &L)
    ensures { line.new ≡ head_line level (L.shape layout.now) }
{
    line.clear();
    line.push(b"layout ");
    line.push(&[level]);
    line.push(b" columns ");
    line.push_number(layout.columns());
    line.push(b" width ");
    line.push_number(layout.width());
    line.push(b" data ");
    line.push_number(data_of(layout));
    line.push(b" unit ");
    line.push_number(layout.unit_sectors());
    line.push(b" rows ");
    line.push_number(layout.rows());
    line.push(b" stripes ");
    line.push_number(layout.stripes());
    line.push(b" blocks ");
    line.push_number(blocks(layout));
    line.push(b"\n");
}

// Prints the numbers of a layout.
fn put_head<L: Layout, K: Sink>(level: u8, layout: &L, out: &mut K) -> Result<(), Failed>
    ensures output { K.tells → Puts (is_ok result) (K.output out.old)
        (head_line level (L.shape layout.now)) (K.output out.new) }
    ensures later { K.faults out.old ≤ K.faults out.new }
    ensures cause { OnErr result (Rose (K.faults out.old) (K.faults out.new)) }
{
    let mut line = Line::new();
    set_head(&mut line, level, layout);
    line.put(out)
}

// Prints what operations cost.
fn put_costs<L: Layout, K: Sink>(layout: &L, out: &mut K) -> Result<(), Failed>
    ensures output { K.tells → Puts (is_ok result) (K.output out.old)
        (writes_text (L.shape layout.now) ++ degraded_line (L.shape layout.now)) (K.output out.new) }
    ensures later { K.faults out.old ≤ K.faults out.new }
    ensures cause { OnErr result (Rose (K.faults out.old) (K.faults out.new)) }
{
    put_writes(layout, out)?;
    put_degraded(layout, out)
}

// Prints what columns have, what rebuilds load, and what operations cost.
fn put_counts<L: Layout, K: Sink>(layout: &L, out: &mut K) -> Result<(), Failed>
    ensures output { K.tells → Puts (is_ok result) (K.output out.old)
        (columns_text (L.shape layout.now) ++ (loads_text (L.shape layout.now)
        ++ (writes_text (L.shape layout.now) ++ degraded_line (L.shape layout.now))))
        (K.output out.new) }
    ensures later { K.faults out.old ≤ K.faults out.new }
    ensures cause { OnErr result (Rose (K.faults out.old) (K.faults out.new)) }
{
    put_columns(layout, out)?;
    put_loads(layout, out)?;
    put_costs(layout, out)
}

/// Prints a layout of this level, which is a letter.
///
/// First come its numbers, then for each stripe where its data units, its check unit and its spare
/// place stand, for each column how many of these it has, for each pair of columns what the rebuild
/// of the one reads and writes on the other, and what writes of so many data units of a stripe, and
/// the read of a missing unit, read and write. It puts one line a call, and takes no memory. Failed,
/// only where the sink's count of faults rose, has put a front of the text.
pub fn put_layout<L: Layout, K: Sink>(level: u8, layout: &L, out: &mut K) -> Result<(), Failed>
    ensures output { K.tells → Puts (is_ok result) (K.output out.old)
        (layout_text level (L.shape layout.now)) (K.output out.new) }
    ensures later { K.faults out.old ≤ K.faults out.new }
    ensures cause { OnErr result (Rose (K.faults out.old) (K.faults out.new)) }
{
    put_head(level, layout, out)?;
    put_stripes(layout, out)?;
    put_counts(layout, out)
}
