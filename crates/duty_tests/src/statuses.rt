//! What is printed at a call's end, against lines written out by hand, and what is printed where a
//! sink fails.
use crate::judging::same;
use blk_disk::Failed;
use eng_cols::{Column, Loss};
use raid_bay::{MemSink, Memory, Name};
use std::alloc::Global;
use std::test::Fail;
use top_status::{Refusal, Status, put_ending, put_refusal, put_status};

// A sink with room for all that these tests print.
fn roomy_sink(alloc: Global) -> Result<MemSink, Memory> {
    MemSink::new(alloc, 4096, Vec::new(alloc))
}

#[test]
fn prints_each_status_and_gives_its_number(rt: HostRuntime) -> Result<(), Fail> {
    let d2 = Name::new(rt.alloc(), "d2")?;
    let conf = Name::new(rt.alloc(), "CONF")?;
    let lost = Status::of_loss(Some(Loss {
        first: 0,
        second: 2,
        stripe: 63,
    }));
    let label = Status::Label {
        column: 2,
        code: 2,
        found: 7,
        wanted: 1001,
    };
    let small = Status::Small {
        column: 1,
        has: 64,
        needs: 65,
    };
    let table = [
        (Status::of_loss(None), 0, "status ok\n"),
        (Status::Usage(3), 1, "status usage 3\n"),
        (Status::Conf(8, 9), 2, "status conf 8 9\n"),
        (Status::Script(1, 2), 3, "status script 1 2\n"),
        (Status::GraphText(2, 3), 4, "status graph 2 3\n"),
        (Status::BayFault, 5, "status bay\n"),
        (Status::NoFile(d2), 6, "status nofile d2\n"),
        (Status::SinkFault, 7, ""),
        (lost, 8, "status lost 0 2 63\n"),
        (label, 9, "status label 2 2 7 1001\n"),
        (small, 10, "status small 1 64 65\n"),
        (Status::NotInSync(1), 11, "status parity 1\n"),
        (Status::NoSpare, 12, "status nospare\n"),
        (Status::NoRebuild, 14, "status norebuild\n"),
        (Status::Rebuilding(3), 15, "status rebuilding 3\n"),
        (Status::LongText(conf), 13, "status long CONF\n"),
        (Status::Memory, 70, "status memory\n"),
    ];
    for (status, number, line) in &table {
        let mut out = roomy_sink(rt.alloc())?;
        put_status(status, &mut out)?;
        same(&rt, out.bytes(), line.as_bytes());
        same(&rt, status.number(), *number);
    }
    Ok(())
}

#[test]
fn prints_dead_columns_before_a_refusal(rt: HostRuntime) -> Result<(), Fail> {
    let mut out = roomy_sink(rt.alloc())?;
    put_refusal(&Refusal::only(rt.alloc(), Status::NoSpare), &mut out)?;
    let columns = vec![in rt.alloc(); Column::Dead, Column::Live { device: 1 }, Column::Dead]?;
    let lost = Refusal::beside(columns, Status::Script(0, 8));
    put_refusal(&lost, &mut out)?;
    let text = "status nospare\ndead 0\ndead 2\nstatus script 0 8\n";
    same(&rt, out.bytes(), text.as_bytes());
    same(&rt, lost.status().number(), 3);
    same(&rt, lost.into_status().number(), 3);
    Ok(())
}

#[test]
fn prints_a_front_where_the_sink_fails(rt: HostRuntime) -> Result<(), Fail> {
    let columns = [
        Column::Spread,
        Column::Dead,
        Column::Filling { device: 3, done: 0 },
        Column::Dead,
    ];
    let mut front = String::new(rt.alloc());
    for (call, line) in ["dead 1\n", "dead 3\n", "status ok\n"].iter().enumerate() {
        let fails = vec![in rt.alloc(); call as u32]?;
        let mut out = MemSink::new(rt.alloc(), 4096, fails)?;
        same(
            &rt,
            put_ending(&columns, &Status::Ok, &mut out),
            Err(Failed),
        );
        same(&rt, out.bytes(), front.as_bytes());
        front.push_str(line)?;
    }
    Ok(())
}
