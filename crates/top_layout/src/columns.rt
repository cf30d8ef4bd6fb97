//! What columns have.
ghost use Rattle.std.specs.Prelude.{◌≡◌, ◌≤◌, is_ok, OnErr};
ghost use Rattle.blk_disk.specs.Disk.{Rose};
ghost use Rattle.raid_bay.specs.Sink.{Puts};
ghost use Rattle.top_layout.specs.Lines.{column_line, columns_text};

use crate::tally::{Tally, count_such};
use blk_disk::Failed;
use lay_core::Layout;
use put_line::Line;
use raid_bay::Sink;

#[tactic(auto, unfolding(crate::specs::Lines::column_line))]
fn set_column<L: Layout>(line: &mut Line, layout: &L, column: u32)
    ensures { line.new ≡ column_line (L.shape layout.now) column }
{
    line.clear();
    line.push(b"column ");
    line.push_number(column);
    line.push(b" data ");
    line.push_number(count_such(layout, Tally::Data { column }));
    line.push(b" check ");
    line.push_number(count_such(layout, Tally::Check { column }));
    line.push(b" spare ");
    line.push_number(count_such(layout, Tally::Spare { column }));
    line.push(b"\n");
}

/// Prints how many units each column has.
pub(crate) fn put_columns<L: Layout, K: Sink>(layout: &L, out: &mut K) -> Result<(), Failed>
    ensures output { K.tells → Puts (is_ok result) (K.output out.old)
        (columns_text (L.shape layout.now)) (K.output out.new) }
    ensures later { K.faults out.old ≤ K.faults out.new }
    ensures cause { OnErr result (Rose (K.faults out.old) (K.faults out.new)) }
{
    let mut line = Line::new();
    for column in 0..layout.columns() {
        set_column(&mut line, layout, column);
        line.put(out)?;
    }
    Ok(())
}
