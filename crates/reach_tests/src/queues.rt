//! Three requests to a disk of 1,000 sectors: two writes, and a read of what the first wrote.
ghost use Rattle.std.specs.Prelude.{◌≡◌, IfOk, length};

use crate::judging::{holds, same};
use blk_plain::{Op, Pattern, Span};
use sim_queue::{Memory, Queue, Replies, Request, Served, each_is_served_once, reply_all, serve};
use std::alloc::Global;
use std::test::Fail;

const FAR: Span = Span {
    first: 640,
    count: 1,
};

const NEAR: Span = Span {
    first: 64,
    count: 1,
};

const REQUESTS: [Request; 3] = [
    Request {
        tick: 0,
        op: Op::Write {
            span: FAR,
            pattern: Pattern {
                len: 1,
                bytes: [
                    0x11, 0, 0, 0, 0, 0, 0, 0, 0, 0, 0, 0, 0, 0, 0, 0, 0, 0, 0, 0, 0, 0, 0, 0, 0,
                    0, 0, 0, 0, 0, 0, 0,
                ],
            },
        },
    },
    Request {
        tick: 0,
        op: Op::Write {
            span: NEAR,
            pattern: Pattern {
                len: 1,
                bytes: [
                    0x22, 0, 0, 0, 0, 0, 0, 0, 0, 0, 0, 0, 0, 0, 0, 0, 0, 0, 0, 0, 0, 0, 0, 0, 0,
                    0, 0, 0, 0, 0, 0, 0,
                ],
            },
        },
    },
    Request {
        tick: 0,
        op: Op::Read { span: FAR },
    },
];

fn served(alloc: Global, queue: Queue) -> Result<Vec<Served>, Memory> {
    serve(alloc, &REQUESTS, queue)
}

fn answered(alloc: Global, queue: Queue) -> Result<Replies, Memory>
    ensures { IfOk result (λ replies. length replies ≡ 3) }
{
    match serve(alloc, &REQUESTS, queue) {
        Ok(services) => {
            each_is_served_once();
            reply_all(alloc, 1000, &REQUESTS, &services)
        }
        Err(memory) => Err(memory),
    }
}

const fn service(request: u32, start: u64, end: u64) -> Served {
    Served {
        request,
        start,
        end,
    }
}

#[test]
fn first_in_first_out(rt: HostRuntime) -> Result<(), Fail> {
    let services = served(rt.alloc(), Queue::Fifo)?;
    let wanted = [service(0, 0, 11), service(1, 11, 21), service(2, 21, 30)];
    same(&rt, services.as_slice(), wanted.as_slice());
    Ok(())
}

#[test]
fn the_nearest_first(rt: HostRuntime) -> Result<(), Fail> {
    let wanted = [service(1, 0, 2), service(0, 2, 11), service(2, 11, 12)];
    for queue in [Queue::Sstf, Queue::Scan] {
        let services = served(rt.alloc(), queue)?;
        same(&rt, services.as_slice(), wanted.as_slice());
    }
    Ok(())
}

#[test]
fn the_read_is_replied_what_was_written(rt: HostRuntime) -> Result<(), Fail> {
    for queue in [Queue::Fifo, Queue::Sstf, Queue::Scan] {
        let replies = answered(rt.alloc(), queue)?;
        same(&rt, replies.sectors(2).len(), 1);
        for sector in replies.sectors(2) {
            holds(&rt, sector.iter().all(|byte| *byte == 0x11));
        }
        same(&rt, replies.sectors(0).len(), 0);
    }
    Ok(())
}
