//! What is printed, against lines written out by hand, and what is printed where a sink fails.
ghost use Rattle.std.specs.Prelude.{◌≡◌, ◌≤◌, ◌+◌, ◌*◌, IfOk, length};
ghost use Rattle.raid_script.specs.Replies.{item_sectors, row_sectors, StandFor};
ghost use Rattle.raid_script.specs.Steps.{op_sectors};

use crate::judging::{same, same_at};
use crate::texts::joined;
use blk_disk::Failed;
use blk_plain::{Op, OpId, Pattern, Span};
use eng_world::{Item, Reply, Traced};
use graph_mean::Refusal;
use item_list::Items;
use raid_bay::{MemSink, Memory};
use raid_script::{
    put_history, put_replies, put_summary, put_trace, run_length, shortest_string, stored_run,
};
use sector_store::Store;
use std::alloc::Global;
use std::process::Abort;
use std::test::Fail;

// A sink with room for all that these tests print.
fn roomy_sink(alloc: Global) -> Result<MemSink, Memory> {
    MemSink::new(alloc, 8192, Vec::new(alloc))
}

fn id(client: u32, index: u32) -> OpId {
    OpId { client, index }
}

fn run(op: Op) -> Item
    ensures { item_sectors result ≡ op_sectors op }
{
    Item::Run { op, graph: None }
}

fn read(first: u64, count: u32) -> Item
    ensures { item_sectors result ≡ count }
{
    let span = Span { first, count };
    run(Op::Read { span })
}

fn write(first: u64, count: u32) -> Item
    ensures { item_sectors result ≡ 0 }
{
    let span = Span { first, count };
    let mut bytes = [0u8; 32];
    bytes[0] = 0xa5;
    let pattern = Pattern { len: 1, bytes };
    run(Op::Write { span, pattern })
}

// Prints a history and a trace of one line each.
fn put_taken(out: &mut MemSink) -> Result<(), Failed> {
    put_history(&[id(1, 0), id(16, 0)], out)?;
    put_trace(&[Traced::Take { id: id(16, 0) }], out)
}

// Prints the replies to two clients' items, and with `all` a history, a trace and the summary.
fn put(
    clients: &[Items],
    replies: &[Vec<Reply>],
    sectors: &Store,
    all: bool,
    out: &mut MemSink,
) -> Result<(), Failed>
    requires few { length clients.now ≤ 16 }
    requires stand { StandFor clients.now replies.now sectors.now }
{
    put_replies(clients, replies, sectors, out)?;
    if !all {
        return Ok(());
    }
    put_taken(out)?;
    put_summary(clients, replies, sectors, out)
}

// The same of two clients, whose items and replies are these.
fn print(
    alloc: Global,
    first: (&[Item], &[Reply]),
    second: (&[Item], &[Reply]),
    sectors: &Store,
    all: bool,
    out: &mut MemSink,
) -> Result<Result<(), Failed>, Fail>
    requires first { length first.1.now ≡ length first.0.now }
    requires second { length second.1.now ≡ length second.0.now }
    requires enough { 512 * (row_sectors first.0.now + row_sectors second.0.now) ≤ length sectors.now }
{
    let clients = [
        Items::from_slice(alloc, first.0)?,
        Items::from_slice(alloc, second.0)?,
    ];
    let replies = [first.1.to_vec(alloc)?, second.1.to_vec(alloc)?];
    Ok(put(&clients, &replies, sectors, all, out))
}

// The one line of a reply to an item without sectors.
fn see_reply(rt: &impl Abort, alloc: Global, reply: Reply, line: &[u8]) -> Result<(), Fail> {
    let mut out = roomy_sink(alloc)?;
    let first = ([Item::Fail { column: 0 }], [reply]);
    let sectors = Store::open(alloc, 0)?;
    let printed = print(
        alloc,
        (&first.0, &first.1),
        (&[], &[]),
        &sectors,
        false,
        &mut out,
    )?;
    same(rt, printed, Ok(()));
    same(rt, out.bytes(), line);
    Ok(())
}

// Two sectors of one byte, one of two bytes in turn, one of no repetition; and the first and the
// last of them again.
fn drawn_bytes() -> [u8; 3072]
    ensures { length result ≡ 3072 }
{
    let mut sectors = [0x5a; 3072];
    for (i, byte) in sectors.iter_mut().enumerate() {
        match i / 512 {
            2 => *byte = 1 + (i % 2) as u8,
            3 | 5 => *byte = (i % 512 / 511) as u8,
            _ => {}
        }
    }
    sectors
}

fn drawn_sectors(alloc: Global) -> Result<Store, Fail>
    ensures { IfOk result (λ sectors. length sectors ≡ 3072) }
{
    let mut sectors = Store::open(alloc, 6)?;
    sectors.put(0, &drawn_bytes());
    Ok(sectors)
}

#[test]
fn prints_the_history_without_client_16(rt: HostRuntime) -> Result<(), Fail> {
    let mut out = roomy_sink(rt.alloc())?;
    put_history(&[id(15, 10), id(16, 0), id(0, 2), id(15, 11)], &mut out)?;
    let text = "commit 15.10\ncommit 0.2\ncommit 15.11\n";
    same(&rt, out.bytes(), text.as_bytes());
    Ok(())
}

const FIRST: OpId = OpId {
    client: 0,
    index: 3,
};

const OWN: OpId = OpId {
    client: 16,
    index: 0,
};

const EVENTS: &[Traced] = &[
    Traced::Fill {
        column: 2,
        device: 5,
        count: 64,
    },
    Traced::Resume {
        column: 3,
        count: 7,
    },
    Traced::Spread { column: 1 },
    Traced::Begin { id: FIRST },
    Traced::Take { id: FIRST },
    Traced::Fire {
        id: FIRST,
        node: 12,
    },
    Traced::Begin { id: OWN },
    Traced::Good {
        id: FIRST,
        node: 12,
    },
    Traced::Bad { id: FIRST, node: 7 },
    Traced::Skip {
        id: OWN,
        node: 2047,
    },
    Traced::Back { id: FIRST },
    Traced::Fail { column: 4 },
];

#[test]
fn prints_each_kind_of_event(rt: HostRuntime) -> Result<(), Fail> {
    let mut out = roomy_sink(rt.alloc())?;
    put_trace(EVENTS, &mut out)?;
    let text =
        "fill 2 5 64\nresume 3 7\nspread 1\nbegin 0.3\ntake 0.3\nfire 0.3 12\nbegin 16.0\ngood 0.3 12\n\
        bad 0.3 7\nskip 16.0 2047\nback 0.3\nfail 4\n";
    same(&rt, out.bytes(), text.as_bytes());
    Ok(())
}

const CAUSES: &[(Refusal, &str)] = &[
    (Refusal::Large, "G14"),
    (Refusal::Index { what: 2, place: 3 }, "G1 2 3"),
    (Refusal::Order { node: 4 }, "G2 4"),
    (Refusal::Commits { count: 0 }, "G3 0"),
    (Refusal::Ends { count: 1, node: 9 }, "G4 1 9"),
    (
        Refusal::Assigned {
            buffer: 5,
            times: 2,
        },
        "G5 5 2",
    ),
    (Refusal::Unordered { node: 6, buffer: 1 }, "G6 6 1"),
    (Refusal::LateRead { node: 7 }, "G7 7"),
    (Refusal::EarlyWrite { node: 8 }, "G8 8"),
    (Refusal::Missing { node: 10 }, "G9 10"),
    (
        Refusal::Twice {
            first: 3,
            second: 11,
        },
        "G10 3 11",
    ),
    (Refusal::Mixed { what: 1, place: 12 }, "G11 1 12"),
    (
        Refusal::WrongValue {
            stripe: 15,
            unit: 2,
            offset: 4294967295,
        },
        "G12 15 2 4294967295",
    ),
    (Refusal::WrongReturn { block: 13 }, "G13 13"),
];

fn see_words(rt: &impl Abort, alloc: Global, reply: Reply, words: &str) -> Result<(), Fail> {
    let line = joined(alloc, &[b"reply 0.0 ", words.as_bytes(), b"\n"])?;
    see_reply(rt, alloc, reply, &line)
}

fn see_causes(rt: &impl Abort, alloc: Global) -> Result<(), Fail> {
    for (cause, words) in CAUSES {
        let words = format!(in alloc; "refused {words}")?;
        see_words(rt, alloc, Reply::Refused(*cause), words.as_str())?;
    }
    Ok(())
}

#[test]
fn prints_each_kind_of_reply(rt: HostRuntime) -> Result<(), Fail> {
    see_causes(&rt, rt.alloc())?;
    const OTHERS: &[(Reply, &str)] = &[
        (Reply::Done, "done"),
        (Reply::Okay, "ok"),
        (Reply::Undone { device: 16 }, "undone 16"),
        (Reply::Range, "refused R1"),
        (Reply::Long, "refused R2"),
        (Reply::Lost, "lost"),
    ];
    for (reply, words) in OTHERS {
        see_words(&rt, rt.alloc(), *reply, *words)?;
    }
    Ok(())
}

// Prints reads and a write. The second read has its sector too, which isn't printed.
fn put_runs(alloc: Global, out: &mut MemSink) -> Result<Result<(), Failed>, Fail> {
    let first = ([read(7, 4), read(900, 1)], [Reply::Data, Reply::Range]);
    let second = ([write(0, 3), read(0, 1)], [Reply::Done, Reply::Data]);
    let sectors = drawn_sectors(alloc)?;
    print(
        alloc,
        (&first.0, &first.1),
        (&second.0, &second.1),
        &sectors,
        true,
        out,
    )
}

#[test]
fn prints_runs_by_their_shortest_strings(rt: HostRuntime) -> Result<(), Fail> {
    let mut out = roomy_sink(rt.alloc())?;
    same(&rt, put_runs(rt.alloc(), &mut out)?, Ok(()));
    let mut hex = "00".repeat(rt.alloc(), 511)?;
    hex.push_str("01\n")?;
    let text = format!(in rt.alloc();
        "reply 0.0 data\nblock 7 2 5a\nblock 9 1 0102\nblock 10 1 {hex}reply 0.1 refused R1\n\
        reply 1.0 done\nreply 1.1 data\nblock 0 1 {hex}commit 1.0\ntake 16.0\n\
        sweep clients 2 operations 4\nwritten 3 read 6 sum 92930\n"
    )?;
    same(&rt, out.bytes(), text.as_bytes());
    same(&rt, run_length(drawn_bytes().as_chunks::<512>().0), 2);
    let sectors = drawn_sectors(rt.alloc())?;
    same(&rt, stored_run(&sectors, 0, 6), 2);
    same(&rt, stored_run(&sectors, 3, 6), 1);
    same(&rt, shortest_string(&[0x77; 512]), &[0x77]);
    Ok(())
}

// Prints two reads, of one sector and of two.
fn put_reads(alloc: Global, out: &mut MemSink) -> Result<Result<(), Failed>, Fail> {
    let first = ([read(3, 1)], [Reply::Data]);
    let second = ([read(4294967295, 2)], [Reply::Data]);
    let sectors = drawn_sectors(alloc)?;
    print(
        alloc,
        (&first.0, &first.1),
        (&second.0, &second.1),
        &sectors,
        true,
        out,
    )
}

// Where each call to the sink fails, the lines before it are printed. Gives all lines.
fn see_fronts(rt: &impl Abort, alloc: Global, lines: &[&str]) -> Result<String, Fail> {
    let mut front = String::new(alloc);
    for (call, line) in lines.iter().enumerate() {
        let fails = vec![in alloc; u32::try_from(call).unwrap_or(u32::MAX)]?;
        let mut out = MemSink::new(alloc, 4096, fails)?;
        same_at(rt, call, put_reads(alloc, &mut out)?, Err(Failed));
        same_at(rt, call, out.bytes(), front.as_bytes());
        front.push_str(*line)?;
    }
    Ok(front)
}

// The two reads are printed so by a sink of this room.
fn see_reads(
    rt: &impl Abort,
    alloc: Global,
    room: u32,
    wanted: Result<(), Failed>,
    text: &[u8],
) -> Result<(), Fail> {
    let mut out = MemSink::new(alloc, room, Vec::new(alloc))?;
    same(rt, put_reads(alloc, &mut out)?, wanted);
    same(rt, out.bytes(), text);
    Ok(())
}

#[test]
fn prints_a_front_where_the_sink_fails(rt: HostRuntime) -> Result<(), Fail> {
    const LINES: &[&str] = &[
        "reply 0.0 data\n",
        "block 3 1 5a\n",
        "reply 1.0 data\n",
        "block 4294967295 1 5a\n",
        "block 4294967296 1 0102\n",
        "commit 1.0\n",
        "take 16.0\n",
        "sweep clients 2 operations 2\n",
        "written 0 read 3 sum 92928\n",
    ];
    let all = see_fronts(&rt, rt.alloc(), LINES)?;
    // A sink without room for all cuts within a line.
    see_reads(&rt, rt.alloc(), 20, Err(Failed), b"reply 0.0 data\nblock")?;
    see_reads(&rt, rt.alloc(), 8192, Ok(()), all.as_bytes())
}
