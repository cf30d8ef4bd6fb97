//! The words of a reply.
ghost use Rattle.std.specs.Prelude.{◌≡◌, ◌≤◌, ◌+◌, ◌*◌, ◌++◌, length};
ghost use Rattle.raid_script.specs.Replies.{cause_of, reply_of, reply_line};
ghost use Rattle.raid_script.specs.Steps.{numbers_text};

use eng_world::Reply;
use graph_mean::Refusal;
use put_line::Line;

// Adds numbers, with a space before each.
fn push_numbers(line: &mut Line, numbers: &[u32])
    requires few { length numbers.now ≤ 3 }
    requires room { length line.old ≤ 100 }
    ensures value { line.new ≡ line.old ++ numbers_text numbers.now }
    ensures short { length line.new ≤ length line.old + 41 * length numbers.now }
{
    for number in numbers {
        line.push(b" ");
        line.push_number(*number);
    }
}

fn name_of(cause: Refusal) -> &'static [u8]
    ensures value { result.now ≡ (cause_of cause).0 }
    ensures short { length result.now ≤ 3 }
{
    match cause {
        Refusal::Large => b"G14",
        Refusal::Index { .. } => b"G1",
        Refusal::Order { .. } => b"G2",
        Refusal::Commits { .. } => b"G3",
        Refusal::Ends { .. } => b"G4",
        Refusal::Assigned { .. } => b"G5",
        Refusal::Unordered { .. } => b"G6",
        Refusal::LateRead { .. } => b"G7",
        Refusal::EarlyWrite { .. } => b"G8",
        Refusal::Missing { .. } => b"G9",
        Refusal::Twice { .. } => b"G10",
        Refusal::Mixed { .. } => b"G11",
        Refusal::WrongValue { .. } => b"G12",
        Refusal::WrongReturn { .. } => b"G13",
    }
}

// Adds the fields of a cause, with a space before each.
fn push_fields(line: &mut Line, cause: Refusal)
    requires { length line.old ≤ 100 }
    ensures value { line.new ≡ line.old ++ numbers_text (cause_of cause).1 }
    ensures short { length line.new ≤ length line.old + 123 }
{
    match cause {
        Refusal::Large => {}
        Refusal::Index { what, place } => push_numbers(line, &[what, place]),
        Refusal::Order { node } => push_numbers(line, &[node]),
        Refusal::Commits { count } => push_numbers(line, &[count]),
        Refusal::Ends { count, node } => push_numbers(line, &[count, node]),
        Refusal::Assigned { buffer, times } => push_numbers(line, &[buffer, times]),
        Refusal::Unordered { node, buffer } => push_numbers(line, &[node, buffer]),
        Refusal::LateRead { node } => push_numbers(line, &[node]),
        Refusal::EarlyWrite { node } => push_numbers(line, &[node]),
        Refusal::Missing { node } => push_numbers(line, &[node]),
        Refusal::Twice { first, second } => push_numbers(line, &[first, second]),
        Refusal::Mixed { what, place } => push_numbers(line, &[what, place]),
        Refusal::WrongValue {
            stripe,
            unit,
            offset,
        } => push_numbers(line, &[stripe, unit, offset]),
        Refusal::WrongReturn { block } => push_numbers(line, &[block]),
    }
}

// Adds the words of a reply, without its numbers.
fn push_words(line: &mut Line, reply: Reply)
    requires { length line.old ≤ 88 }
    ensures value { line.new ≡ line.old ++ (reply_of reply).0 }
    ensures short { length line.new ≤ length line.old + 12 }
{
    match reply {
        Reply::Done => line.push(b"done"),
        Reply::Data => line.push(b"data"),
        Reply::Okay => line.push(b"ok"),
        Reply::Undone { .. } => line.push(b"undone"),
        Reply::Range => line.push(b"refused R1"),
        Reply::Long => line.push(b"refused R2"),
        Reply::Refused(cause) => {
            line.push(b"refused ");
            line.push(name_of(cause));
        }
        Reply::Lost => line.push(b"lost"),
    }
}

// Adds the numbers of a reply, with a space before each.
fn push_told(line: &mut Line, reply: Reply)
    requires { length line.old ≤ 100 }
    ensures value { line.new ≡ line.old ++ numbers_text (reply_of reply).1 }
    ensures short { length line.new ≤ length line.old + 123 }
{
    match reply {
        Reply::Undone { device } => push_numbers(line, &[device]),
        Reply::Refused(cause) => push_fields(line, cause),
        Reply::Done | Reply::Data | Reply::Okay | Reply::Range | Reply::Long | Reply::Lost => {}
    }
}

/// The line of an item's reply.
#[tactic(auto, unfolding(crate::specs::Replies::reply_line))]
pub fn set_reply(line: &mut Line, client: usize, index: usize, reply: Reply)
    ensures { line.new ≡ reply_line client index reply }
{
    line.clear();
    line.push(b"reply ");
    line.push_number(client);
    line.push(b".");
    line.push_number(index);
    line.push(b" ");
    push_words(line, reply);
    push_told(line, reply);
    line.push(b"\n");
}
