//! What operations cost.
ghost use Rattle.std.specs.Prelude.{◌≡◌, ◌<◌, ◌≤◌, ◌+◌, is_ok, OnErr};
ghost use Rattle.blk_disk.specs.Disk.{Rose};
ghost use Rattle.lay_core.specs.Layout.{data_units};
ghost use Rattle.raid_bay.specs.Sink.{Puts};
ghost use Rattle.top_layout.specs.Costs.{write_reads, write_writes};
ghost use Rattle.top_layout.specs.Lines.{degraded_line, write_line, writes_text};

use crate::tally::data_of;
use blk_disk::Failed;
use lay_core::Layout;
use put_line::Line;
use raid_bay::Sink;

// How many units a write of so many data units of a stripe reads.
fn write_reads<L: Layout>(layout: &L, units: u32) -> u32
    requires { units ≤ data_units (L.shape layout.now) }
    ensures { result ≡ write_reads (L.shape layout.now) units }
{
    if layout.checks() == 0 {
        return 0;
    }
    let others = data_of(layout) - units;
    if units + 1 <= others {
        units + 1
    } else {
        others
    }
}

#[tactic(auto, unfolding(crate::specs::Lines::write_line))]
fn set_write<L: Layout>(line: &mut Line, layout: &L, units: u32)
    requires { units ≤ data_units (L.shape layout.now) }
    ensures { line.new ≡ write_line (L.shape layout.now) units }
{
    line.clear();
    line.push(b"write ");
    line.push_number(units);
    line.push(b" reads ");
    line.push_number(write_reads(layout, units));
    line.push(b" writes ");
    line.push_number(units + layout.checks());
    line.push(b"\n");
}

/// Prints what a write of some data units of a stripe reads and writes, for each number of them.
pub(crate) fn put_writes<L: Layout, K: Sink>(layout: &L, out: &mut K) -> Result<(), Failed>
    ensures output { K.tells → Puts (is_ok result) (K.output out.old)
        (writes_text (L.shape layout.now)) (K.output out.new) }
    ensures later { K.faults out.old ≤ K.faults out.new }
    ensures cause { OnErr result (Rose (K.faults out.old) (K.faults out.new)) }
{
    let mut line = Line::new();
    for unit in 0..data_of(layout) {
        set_write(&mut line, layout, unit + 1);
        line.put(out)?;
    }
    Ok(())
}

/// Prints what the read of a missing unit reads.
#[tactic(auto, unfolding(crate::specs::Lines::degraded_line))]
pub(crate) fn put_degraded<L: Layout, K: Sink>(layout: &L, out: &mut K) -> Result<(), Failed>
    ensures output { K.tells → Puts (is_ok result) (K.output out.old)
        (degraded_line (L.shape layout.now)) (K.output out.new) }
    ensures later { K.faults out.old ≤ K.faults out.new }
    ensures cause { OnErr result (Rose (K.faults out.old) (K.faults out.new)) }
{
    if layout.checks() == 0 {
        return Ok(());
    }
    let mut line = Line::new();
    line.push(b"degraded reads ");
    line.push_number(layout.width() - 1);
    line.push(b"\n");
    line.put(out)
}
