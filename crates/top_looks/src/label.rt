//! The line of a label.
ghost use Rattle.std.specs.Prelude.{◌≡◌, ◌≤◌, is_ok, length, OnErr};
ghost use Rattle.blk_disk.specs.Disk.{Rose};
ghost use Rattle.raid_bay.specs.Sink.{Puts};
ghost use Rattle.raid_label.specs.Bytes.{label_in};
ghost use Rattle.top_looks.specs.Labels.{label_text, numbers_line};
ghost use Rattle.top_looks.specs.Steps.{label_line, line_of};

use blk_disk::Failed;
use put_line::Line;
use raid_bay::Sink;
use raid_label::{Label, read_label};
use top_open::Front;

fn set_numbers(line: &mut Line, numbers: &[u32])
    requires { length numbers.now ≤ 9 }
    ensures { line.new ≡ numbers_line numbers.now }
{
    line.clear();
    line.push(b"label");
    for number in numbers {
        line.push(b" ");
        line.push_number(*number);
    }
    line.push(b"\n");
}

fn put_held<K: Sink>(label: &Label, out: &mut K) -> Result<(), Failed>
    ensures output { K.tells → Puts (is_ok result)
        (K.output out.old) (label_line label.now) (K.output out.new) }
    ensures later { K.faults out.old ≤ K.faults out.new }
    ensures cause { OnErr result (Rose (K.faults out.old) (K.faults out.new)) }
{
    let mut line = Line::new();
    let numbers = [
        label.version,
        label.serial,
        label.counter,
        label.column,
        label.columns,
        label.unit,
        label.rows,
        label.level,
        label.clean,
    ];
    set_numbers(&mut line, &numbers);
    line.put(out)
}

fn put_sector<K: Sink>(bytes: &[u8], out: &mut K) -> Result<(), Failed>
    requires { length bytes.now ≡ 512 }
    ensures output { K.tells → Puts (is_ok result)
        (K.output out.old) (line_of (label_in bytes.now)) (K.output out.new) }
    ensures later { K.faults out.old ≤ K.faults out.new }
    ensures cause { OnErr result (Rose (K.faults out.old) (K.faults out.new)) }
{
    match read_label(bytes) {
        Some(label) => put_held(&label, out),
        None => out.put(b"label none\n"),
    }
}

/// Prints what sector 0 of a component holds: `label` and the version, serial number, counter,
/// column, columns, unit, rows, level and clean field of its label, `label none` where it isn't
/// well formed or the component has no sector, or `label unread` where it couldn't be read.
///
/// It is one call of the sink. Failed, only where the sink's count of faults rose, has put a
/// front of the line.
pub fn put_label<K: Sink>(front: &Front, out: &mut K) -> Result<(), Failed>
    ensures output { K.tells → Puts (is_ok result)
        (K.output out.old) (label_text front.now) (K.output out.new) }
    ensures later { K.faults out.old ≤ K.faults out.new }
    ensures cause { OnErr result (Rose (K.faults out.old) (K.faults out.new)) }
{
    match front {
        Front::Held(bytes) => put_sector(bytes, out),
        Front::Away => out.put(b"label none\n"),
        Front::Unread => out.put(b"label unread\n"),
    }
}
