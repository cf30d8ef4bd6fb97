//! The lines of a simulation.
ghost use Rattle.std.specs.Prelude.{◌≡◌, ◌<◌, ◌≤◌, flat_map, length, is_ok, OnErr};
ghost use Rattle.blk_disk.specs.Disk.{Rose};
ghost use Rattle.raid_bay.specs.Sink.{Puts};
ghost use Rattle.sim_queue.specs.Service.{request_at};
ghost use Rattle.top_sim.specs.Lines.{data_text, number_text};
ghost use Rattle.top_sim.specs.Steps.{replies_text, reply_line, reply_text, reply_word, served_line};
ghost use Rattle.top_sim.specs.Lines.{sim_text};

use crate::simulating::Simulated;
use blk_disk::Failed;
use blk_plain::{Op, SECTOR};
use put_line::Line;
use raid_bay::Sink;
use raid_script::put_blocks;
use sim_queue::{Replies, Request, Served};

// The line of a service.
#[tactic(auto, unfolding(crate::specs::Steps::served_line))]
fn set_served(line: &mut Line, served: Served)
    ensures { line.new ≡ served_line served }
{
    line.clear();
    line.push(b"served ");
    line.push_number(served.request);
    line.push(b" ");
    line.push_number(served.start);
    line.push(b" ");
    line.push_number(served.end);
    line.push(b"\n");
}

// Prints the services, in their order.
fn put_services<K: Sink>(services: &[Served], out: &mut K) -> Result<(), Failed>
    ensures output { K.tells → Puts (is_ok result)
        (K.output out.old) (flat_map served_line services.now) (K.output out.new) }
    ensures later { K.faults out.old ≤ K.faults out.new }
    ensures cause { OnErr result (Rose (K.faults out.old) (K.faults out.new)) }
{
    let mut line = Line::new();
    for served in services {
        set_served(&mut line, *served);
        line.put(out)?;
    }
    Ok(())
}

// The word of a reply.
fn reply_word(op: &Op) -> &'static [u8]
    ensures word { result.now ≡ reply_word op.now }
    ensures short { length result.now ≤ 20 }
{
    match op {
        Op::Read { .. } => b"data",
        Op::Write { .. } | Op::Writes { .. } | Op::Rebuild { .. } | Op::Sync { .. } => b"done",
    }
}

// The line of a reply.
#[tactic(auto, unfolding(crate::specs::Steps::reply_line))]
fn set_reply(line: &mut Line, number: usize, word: &[u8])
    requires { length word.now ≤ 20 }
    ensures { line.new ≡ reply_line number word.now }
{
    line.clear();
    line.push(b"reply ");
    line.push_number(number);
    line.push(b" ");
    line.push(word);
    line.push(b"\n");
}

// Prints the runs behind `data`.
fn put_data<K: Sink>(op: &Op, sectors: &[[u8; SECTOR]], out: &mut K) -> Result<(), Failed>
    ensures output { K.tells → Puts (is_ok result)
        (K.output out.old) (data_text op.now sectors.now) (K.output out.new) }
    ensures later { K.faults out.old ≤ K.faults out.new }
    ensures cause { OnErr result (Rose (K.faults out.old) (K.faults out.new)) }
{
    match op {
        Op::Read { span } => put_blocks(span.first, sectors, out),
        Op::Write { .. } | Op::Writes { .. } | Op::Rebuild { .. } | Op::Sync { .. } => Ok(()),
    }
}

// Prints what an operation is replied.
fn put_reply<K: Sink>(
    number: usize,
    op: &Op,
    sectors: &[[u8; SECTOR]],
    out: &mut K,
) -> Result<(), Failed>
    ensures output { K.tells → Puts (is_ok result)
        (K.output out.old) (reply_text number op.now sectors.now) (K.output out.new) }
    ensures later { K.faults out.old ≤ K.faults out.new }
    ensures cause { OnErr result (Rose (K.faults out.old) (K.faults out.new)) }
{
    let mut line = Line::new();
    set_reply(&mut line, number, reply_word(op));
    line.put(out)?;
    put_data(op, sectors, out)
}

// The operation of the request of a number.
#[tactic(auto, unfolding(sim_queue::specs::Service::request_at))]
fn nth_op(requests: &[Request], number: usize) -> Op
    requires { number < length requests.now }
    ensures { result ≡ (request_at requests.now number).op }
{
    requests[number].op
}

// Prints what the request of a number is replied.
fn put_nth<K: Sink>(
    requests: &[Request],
    replies: &Replies,
    number: usize,
    out: &mut K,
) -> Result<(), Failed>
    requires below { number < length requests.now }
    requires count { length replies.now ≡ length requests.now }
    requires few { length requests.now ≤ 4096 }
    ensures output { K.tells → Puts (is_ok result)
        (K.output out.old) (number_text requests.now replies.now number) (K.output out.new) }
    ensures later { K.faults out.old ≤ K.faults out.new }
    ensures cause { OnErr result (Rose (K.faults out.old) (K.faults out.new)) }
{
    let op = nth_op(requests, number);
    let sectors = replies.sectors(number as u32);
    put_reply(number, &op, sectors, out)
}

// Prints what the requests are replied, by number.
fn put_replies<K: Sink>(requests: &[Request], replies: &Replies, out: &mut K) -> Result<(), Failed>
    requires count { length replies.now ≡ length requests.now }
    requires few { length requests.now ≤ 4096 }
    ensures output { K.tells → Puts (is_ok result)
        (K.output out.old) (replies_text requests.now replies.now) (K.output out.new) }
    ensures later { K.faults out.old ≤ K.faults out.new }
    ensures cause { OnErr result (Rose (K.faults out.old) (K.faults out.new)) }
{
    for number in 0..requests.len() {
        put_nth(requests, replies, number, out)?;
    }
    Ok(())
}

/// Prints `served I START END` for each service, in their order, and behind them for each request,
/// by number, `reply I done` or `reply I data`, the latter with a line for each maximal run of
/// equal sectors, as [`put_blocks`] prints it.
///
/// It puts one line a call, and takes no memory. Failed, only where the sink's count of faults
/// rose, has put a front of the text.
pub fn put_simulated<K: Sink>(simulated: &Simulated, out: &mut K) -> Result<(), Failed>
    requires count { length simulated.now.replies ≡ length simulated.now.requests.items }
    requires few { length simulated.now.requests.items ≤ 4096 }
    ensures output { K.tells → Puts (is_ok result) (K.output out.old)
        (sim_text simulated.now.requests.items simulated.now.services.items simulated.now.replies)
        (K.output out.new) }
    ensures later { K.faults out.old ≤ K.faults out.new }
    ensures cause { OnErr result (Rose (K.faults out.old) (K.faults out.new)) }
{
    let services = simulated.services.as_slice();
    let requests = simulated.requests.as_slice();
    put_services(services, out)?;
    put_replies(requests, &simulated.replies, out)
}
