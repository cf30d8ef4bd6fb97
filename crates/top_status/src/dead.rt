//! The dead columns.
ghost use Rattle.std.specs.Prelude.{◌≡◌, ◌≤◌, is_ok, OnErr, Some, slice_get};
ghost use Rattle.blk_disk.specs.Disk.{Rose};
ghost use Rattle.raid_bay.specs.Sink.{Puts};
ghost use Rattle.top_status.specs.Dead.{dead_columns, dead_text};
ghost use Rattle.top_status.specs.Steps.{dead_line, is_dead_column};

use blk_disk::Failed;
use eng_cols::Column;
use put_line::Line;
use raid_bay::Sink;

fn is_dead(column: Column) -> bool
    ensures { result ≡ is_dead_column (Some column) }
{
    match column {
        Column::Dead => true,
        Column::Live { .. } | Column::Filling { .. } | Column::Spread => false,
    }
}

#[tactic(auto, unfolding(crate::specs::Steps::dead_line))]
fn set_dead(line: &mut Line, column: usize)
    ensures { line.new ≡ dead_line column }
{
    line.clear();
    line.push(b"dead ");
    line.push_number(column);
    line.push(b"\n");
}

/// Prints `dead C` for each column C that is dead, the lowest first.
///
/// It puts one line a call, and takes no memory. Failed, only where the sink's count of faults
/// rose, has put a front of the text.
#[tactic(auto, unfolding(crate::specs::Steps::dead_line))]
pub fn put_dead<K: Sink>(columns: &[Column], out: &mut K) -> Result<(), Failed>
    ensures output { K.tells → Puts (is_ok result) (K.output out.old)
        (dead_text (dead_columns columns.now)) (K.output out.new) }
    ensures later { K.faults out.old ≤ K.faults out.new }
    ensures cause { OnErr result (Rose (K.faults out.old) (K.faults out.new)) }
{
    let mut line = Line::new();
    for (number, column) in columns.iter().enumerate() {
        if is_dead(*column) {
            set_dead(&mut line, number);
            line.put(out)?;
        }
    }
    Ok(())
}
