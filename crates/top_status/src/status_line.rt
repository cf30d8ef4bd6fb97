//! The last line.
ghost use Rattle.std.specs.Prelude.{◌≡◌, ◌≤◌, length, is_ok, OnErr, codes};
ghost use Rattle.blk_disk.specs.Disk.{Rose};
ghost use Rattle.raid_bay.specs.Sink.{Puts};
ghost use Rattle.top_status.specs.Status.{numbers_line, name_line, status_text};

use crate::status::Status;
use blk_disk::Failed;
use put_line::Line;
use raid_bay::Sink;

fn set_numbers(line: &mut Line, word: &[u8], numbers: &[u64])
    requires short { length word.now ≤ 20 }
    requires few { length numbers.now ≤ 4 }
    ensures { line.new ≡ numbers_line word.now numbers.now }
{
    line.clear();
    line.push(b"status ");
    line.push(word);
    for number in numbers {
        line.push(b" ");
        line.push_number(*number);
    }
    line.push(b"\n");
}

fn put_numbers<K: Sink>(word: &[u8], numbers: &[u64], out: &mut K) -> Result<(), Failed>
    requires short { length word.now ≤ 20 }
    requires few { length numbers.now ≤ 4 }
    ensures output { K.tells → Puts (is_ok result)
        (K.output out.old) (numbers_line word.now numbers.now) (K.output out.new) }
    ensures later { K.faults out.old ≤ K.faults out.new }
    ensures cause { OnErr result (Rose (K.faults out.old) (K.faults out.new)) }
{
    let mut line = Line::new();
    set_numbers(&mut line, word, numbers);
    line.put(out)
}

// Puts the line of a name, which may be long: the name itself is put, and no copy of it.
fn put_name<K: Sink>(front: &[u8], name: &str, out: &mut K) -> Result<(), Failed>
    ensures output { K.tells → Puts (is_ok result)
        (K.output out.old) (name_line front.now name.now) (K.output out.new) }
    ensures later { K.faults out.old ≤ K.faults out.new }
    ensures cause { OnErr result (Rose (K.faults out.old) (K.faults out.new)) }
{
    out.put(front)?;
    out.put(name.as_bytes())?;
    out.put(b"\n")
}

/// Prints the last line, `status` and its words. A fault of the sink has none.
///
/// A line with a name, which may be long, is put in three calls, each other one in one. It takes no
/// memory. Failed, only where the sink's count of faults rose, has put a front of the text.
pub fn put_status<K: Sink>(status: &Status, out: &mut K) -> Result<(), Failed>
    ensures output { K.tells
        → Puts (is_ok result) (K.output out.old) (status_text status.now) (K.output out.new) }
    ensures later { K.faults out.old ≤ K.faults out.new }
    ensures cause { OnErr result (Rose (K.faults out.old) (K.faults out.new)) }
{
    match status {
        Status::Ok => put_numbers(b"ok", &[], out),
        Status::Usage(case) => put_numbers(b"usage", &[u64::from(*case)], out),
        Status::Conf(line, code) => {
            put_numbers(b"conf", &[u64::from(*line), u64::from(*code)], out)
        }
        Status::Script(line, code) => {
            put_numbers(b"script", &[u64::from(*line), u64::from(*code)], out)
        }
        Status::GraphText(line, code) => {
            put_numbers(b"graph", &[u64::from(*line), u64::from(*code)], out)
        }
        Status::BayFault => put_numbers(b"bay", &[], out),
        Status::NoFile(name) => put_name(b"status nofile ", name.text(), out),
        Status::SinkFault => Ok(()),
        Status::Lost {
            first,
            second,
            stripe,
        } => put_numbers(
            b"lost",
            &[u64::from(*first), u64::from(*second), u64::from(*stripe)],
            out,
        ),
        Status::Label {
            column,
            code,
            found,
            wanted,
        } => put_numbers(
            b"label",
            &[
                u64::from(*column),
                u64::from(*code),
                u64::from(*found),
                u64::from(*wanted),
            ],
            out,
        ),
        Status::Small { column, has, needs } => {
            put_numbers(b"small", &[u64::from(*column), *has, *needs], out)
        }
        Status::NotInSync(count) => put_numbers(b"parity", &[*count], out),
        Status::NoSpare => put_numbers(b"nospare", &[], out),
        Status::LongText(name) => put_name(b"status long ", name.text(), out),
        Status::NoRebuild => put_numbers(b"norebuild", &[], out),
        Status::Rebuilding(column) => put_numbers(b"rebuilding", &[u64::from(*column)], out),
        Status::Memory => put_numbers(b"memory", &[], out),
    }
}
