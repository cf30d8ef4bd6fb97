//! The trace.
ghost use Rattle.std.specs.Prelude.{◌≡◌, ◌≤◌, length, is_ok, OnErr};
ghost use Rattle.blk_disk.specs.Disk.{Rose};
ghost use Rattle.raid_bay.specs.Sink.{Puts};
ghost use Rattle.raid_script.specs.Trace.{event_line, trace_text};
ghost use Rattle.raid_script.specs.Steps.{column_line, fill_line, resume_line, id_line, node_line};

use blk_disk::Failed;
use blk_plain::OpId;
use eng_world::Traced;
use put_line::Line;
use raid_bay::Sink;

// The line of an operation's event.
#[tactic(auto, unfolding(crate::specs::Steps::id_line))]
fn set_id(line: &mut Line, word: &[u8], id: OpId)
    requires { length word.now ≤ 6 }
    ensures { line.new ≡ id_line word.now id }
{
    line.clear();
    line.push(word);
    line.push(b" ");
    line.push_number(id.client);
    line.push(b".");
    line.push_number(id.index);
    line.push(b"\n");
}

#[tactic(auto, unfolding(crate::specs::Steps::node_line))]
fn set_node(line: &mut Line, word: &[u8], id: OpId, node: u32)
    requires { length word.now ≤ 6 }
    ensures { line.new ≡ node_line word.now id node }
{
    line.clear();
    line.push(word);
    line.push(b" ");
    line.push_number(id.client);
    line.push(b".");
    line.push_number(id.index);
    line.push(b" ");
    line.push_number(node);
    line.push(b"\n");
}

#[tactic(auto, unfolding(crate::specs::Steps::column_line))]
fn set_column(line: &mut Line, word: &[u8], column: u32)
    requires { length word.now ≤ 6 }
    ensures { line.new ≡ column_line word.now column }
{
    line.clear();
    line.push(word);
    line.push(b" ");
    line.push_number(column);
    line.push(b"\n");
}

#[tactic(auto, unfolding(crate::specs::Steps::fill_line))]
fn set_fill(line: &mut Line, column: u32, device: u32, count: u32)
    ensures { line.new ≡ fill_line column device count }
{
    line.clear();
    line.push(b"fill ");
    line.push_number(column);
    line.push(b" ");
    line.push_number(device);
    line.push(b" ");
    line.push_number(count);
    line.push(b"\n");
}

#[tactic(auto, unfolding(crate::specs::Steps::resume_line))]
fn set_resume(line: &mut Line, column: u32, count: u32)
    ensures { line.new ≡ resume_line column count }
{
    line.clear();
    line.push(b"resume ");
    line.push_number(column);
    line.push(b" ");
    line.push_number(count);
    line.push(b"\n");
}

#[tactic(auto, unfolding(crate::specs::Steps::fill_line, crate::specs::Steps::resume_line, crate::specs::Steps::column_line, crate::specs::Steps::id_line, crate::specs::Steps::node_line))]
fn set_event(line: &mut Line, event: Traced)
    ensures { line.new ≡ event_line event }
{
    match event {
        Traced::Fill {
            column,
            device,
            count,
        } => set_fill(line, column, device, count),
        Traced::Resume { column, count } => set_resume(line, column, count),
        Traced::Spread { column } => set_column(line, b"spread", column),
        Traced::Fail { column } => set_column(line, b"fail", column),
        Traced::Begin { id } => set_id(line, b"begin", id),
        Traced::Take { id } => set_id(line, b"take", id),
        Traced::Fire { id, node } => set_node(line, b"fire", id, node),
        Traced::Good { id, node } => set_node(line, b"good", id, node),
        Traced::Bad { id, node } => set_node(line, b"bad", id, node),
        Traced::Skip { id, node } => set_node(line, b"skip", id, node),
        Traced::Back { id } => set_id(line, b"back", id),
    }
}

/// Prints the trace: a line for each event, in their order, those of client 16, the array's own,
/// too. `begin C.I`, `take C.I`, `back C.I`, and with the number of a node `fire C.I N`,
/// `good C.I N`, `bad C.I N` and `skip C.I N`; `fill COLUMN DEVICE COUNT`, `resume COLUMN COUNT` and
/// `spread COLUMN` where a rebuild begins or goes on, COUNT the rebuilds; and `fail COLUMN`.
///
/// It puts one line a call, and takes no memory. Failed, only where the sink's count of faults
/// rose, has put a front of the text.
pub fn put_trace<K: Sink>(trace: &[Traced], out: &mut K) -> Result<(), Failed>
    ensures output { K.tells
        → Puts (is_ok result) (K.output out.old) (trace_text trace.now) (K.output out.new) }
    ensures later { K.faults out.old ≤ K.faults out.new }
    ensures cause { OnErr result (Rose (K.faults out.old) (K.faults out.new)) }
{
    let mut line = Line::new();
    for event in trace {
        set_event(&mut line, *event);
        line.put(out)?;
    }
    Ok(())
}
