//! The line of a rebuild.
ghost use Rattle.std.specs.Prelude.{◌≡◌, ◌≤◌, ◌+◌, ◌++◌, length, is_ok, OnErr};
ghost use Rattle.blk_disk.specs.Disk.{Rose};
ghost use Rattle.raid_bay.specs.Sink.{Puts};
ghost use Rattle.raid_top.specs.Rebuilt.{end_text, rebuild_line};
ghost use Rattle.raid_top.specs.Words.{place_text, rebuild_text};

use blk_disk::Failed;
use put_line::Line;
use raid_bay::Sink;
use top_run::{Line as Rebuild, Told};

// Where its units went.
fn push_place(line: &mut Line, device: Option<u32>)
    requires { length line.old ≤ 100 }
    ensures value { line.new ≡ line.old ++ place_text device }
    ensures short { length line.new ≤ length line.old + 60 }
{
    match device {
        Some(device) => {
            line.push(b" device ");
            line.push_number(device);
        }
        None => line.push(b" spread"),
    }
}

#[tactic(auto, unfolding(crate::specs::Rebuilt::end_text))]
fn push_end(line: &mut Line, told: Told)
    requires { length line.old ≤ 200 }
    ensures { line.new ≡ line.old ++ end_text told }
{
    match told {
        Told::Done(count) => {
            line.push(b" done ");
            line.push_number(count);
            line.push(b"\n");
        }
        Told::Paused(count) => {
            line.push(b" paused ");
            line.push_number(count);
            line.push(b"\n");
        }
        Told::Stopped => line.push(b" stopped\n"),
    }
}

#[tactic(auto, unfolding(crate::specs::Rebuilt::rebuild_line))]
fn set_rebuilt(line: &mut Line, rebuild: Rebuild)
    ensures { line.new ≡ rebuild_line rebuild }
{
    line.clear();
    line.push(b"reconstruct column ");
    line.push_number(rebuild.column);
    push_place(line, rebuild.device);
    push_end(line, rebuild.told);
}

/// Prints the line of a rebuild, if there was one, by one call of the sink.
pub(crate) fn put_rebuilt<K: Sink>(rebuild: Option<Rebuild>, out: &mut K) -> Result<(), Failed>
    ensures output { K.tells
        → Puts (is_ok result) (K.output out.old) (rebuild_text rebuild) (K.output out.new) }
    ensures later { K.faults out.old ≤ K.faults out.new }
    ensures cause { OnErr result (Rose (K.faults out.old) (K.faults out.new)) }
{
    match rebuild {
        Some(rebuild) => {
            let mut line = Line::new();
            set_rebuilt(&mut line, rebuild);
            line.put(out)
        }
        None => Ok(()),
    }
}
