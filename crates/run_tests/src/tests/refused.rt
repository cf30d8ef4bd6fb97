//! Calls that are refused, and output that fails.
use super::rebuilds::PLACES;
use super::resumed::{LABELLED, SEVEN, SPREAD, UNITS};
use super::*;
use crate::judging::same;

const SECOND: &str = "START array\n1 3 0\nSTART disks\nd0\nd1\nd2\nSTART layout\n1 2 1 5\n";

// Objects 0 and 3 stand together in no tuple.
const NO_DESIGN: &str =
    "START array\n1 7 0\nSTART disks\nd0\nd1\nd2\nd3\nd4\nd5\nd6\nSTART layout\n1 1 1 T\ndesign 7 7 3 3 1\n1 2 3\n0 1 4\n2 3 5\n3 4 6\n0 4 5\n1 5 6\n0 2 6\n";

// Words that are no command; texts that aren't in their form, and tuples that are no design; components that are too small or not
// there; the bay's call of the script, and that of the second component, which fail. Where d1 has 65 sectors there is one stripe,
// of two blocks.
#[test]
fn what_is_refused_changes_nothing(rt: HostRuntime) -> Result<(), Fail> {
    const SESSIONS: &[Session] = &[
        Session {
            steps: &[
                Step::Run("", 1, "status usage 0\n"),
                Step::Run("r5 -F", 1, "status usage 0\n"),
                Step::Run("r5", 1, "status usage 1\n"),
                Step::Run("r5 -s -p", 1, "status usage 1\n"),
                Step::Run("r5 -F d1 -R d1", 1, "status usage 1\n"),
                Step::Run("r5 -s --trace", 1, "status usage 2\n"),
                Step::Run("r5 -F d1 --trace", 1, "status usage 2\n"),
                Step::Run(
                    "r5 --sweep 1 --clients 1 --ops 1 --trace",
                    1,
                    "status usage 2\n",
                ),
                Step::Run("r5 -f d3", 1, "status usage 3\n"),
                Step::Run("r5 -R d3", 1, "status usage 3\n"),
                Step::Run("r5 -I 4294967296", 1, "status usage 3\n"),
                Step::Run("r5 --io s1 -w 17", 1, "status usage 3\n"),
                Step::Holds("d0", ""),
                Step::Holds("d1", ""),
            ],
            ..PLAIN
        },
        Session {
            steps: &[
                Step::Lose("d2"),
                Step::Run("r5 --io s1", 6, "status nofile d2\n"),
                Step::Holds("d0", ""),
                Step::Holds("d1", ""),
            ],
            ..PLAIN
        },
        Session {
            conf: SECOND,
            steps: &[Step::Run("r5 --io s1", 2, "status conf 8 9\n")],
            ..PLAIN
        },
        Session {
            conf: NO_DESIGN,
            steps: &[Step::Run("r5 --io s1", 2, "status conf 13 12\n")],
            ..PLAIN
        },
        Session {
            script: "0 write 0 0 a5\n",
            other: "graph g\nbuffer 1 stripe 0 from 0 count 1\n",
            steps: &[
                Step::Run("r5 --io s1", 3, "status script 1 2\n"),
                Step::Run("r5 --io s1 --graphs t1", 4, "status graph 2 3\n"),
            ],
            ..PLAIN
        },
        Session {
            script: "0 use g read 0 1\n",
            steps: &[Step::Run("r5 --io s1 --graphs t1", 3, "status script 1 6\n")],
            ..PLAIN
        },
        Session {
            faults: &[1],
            steps: &[
                Step::Run("r5 --io s1", 5, "status bay\n"),
                Step::Holds("d0", ""),
            ],
            ..PLAIN
        },
        Session {
            faults: &[3],
            steps: &[
                Step::Run("r5 --io s1", 5, "status bay\n"),
                Step::Holds("d0", ""),
                Step::Holds("d1", ""),
                Step::Holds("d2", ""),
            ],
            ..PLAIN
        },
        Session {
            script: "0 write 1 1 22\n0 write 2 1 22\n",
            steps: &[
                Step::Resize("d1", 64),
                Step::Run("r5 --io s1", 10, "status small 1 64 65\n"),
                Step::Resize("d1", 65),
                Step::Run(
                    "r5 --io s1",
                    0,
                    "reply 0.0 done\nreply 0.1 refused R1\ncommit 0.0\nstatus ok\n",
                ),
            ],
            ..PLAIN
        },
    ];
    play(&rt, rt.alloc(), SESSIONS)
}

// A configuration of 16,777,217 bytes.
#[test]
fn a_long_text_is_refused(rt: HostRuntime) -> Result<(), Fail> {
    let alloc = rt.alloc();
    let long = vec![in alloc; b' '; 16_777_217]?;
    let texts = vec![in alloc; (Name::new(alloc, "r5")?, long)]?;
    let mut bay: MemBay<MemDisk> = MemBay::new(alloc, texts, Vec::new(alloc), Vec::new(alloc));
    says(&rt, alloc, &mut bay, "r5 -s", 13, "status long r5\n")
}

// The components hold what they would, and have had the same calls.
#[test]
fn a_sink_that_fails_hides_the_output_alone(rt: HostRuntime) -> Result<(), Fail> {
    let alloc = rt.alloc();
    let mut bay = bay_of(alloc, &PLAIN)?;
    let mut out = MemSink::new(alloc, 4096, vec![in alloc; 0]?)?;
    let words = names_of(alloc, "r5 --io s1 -w 0")?;
    let status = run(&rt, alloc, &words, &mut bay, &mut out, &Silent);
    same(&rt, status.number(), 7);
    same(&rt, out.bytes(), b"".as_slice());
    act_all(&rt, alloc, &mut bay, rows::WRITTEN)
}

// Words that don't go together, and numbers out of their range; an array without labels; a rebuild in part where only spare
// places are free, before one into them; and one that is lost, of which no column is filling either.
#[test]
fn a_rebuild_in_part_is_refused(rt: HostRuntime) -> Result<(), Fail> {
    const SESSIONS: &[Session] = &[
        Session {
            conf: PLACES,
            steps: &[
                Step::Run("r5 -F d4 --limit", 1, "status usage 0\n"),
                Step::Run("r5 --resume -F d4", 1, "status usage 1\n"),
                Step::Run("r5 --limit 5", 1, "status usage 1\n"),
                Step::Run("r5 -s --limit 5", 1, "status usage 2\n"),
                Step::Run("r5 --io s1 --limit 0", 1, "status usage 2\n"),
                Step::Run("r5 --resume --trace", 1, "status usage 2\n"),
                Step::Run("r5 -F d4 --limit 0", 1, "status usage 3\n"),
                Step::Run("r5 -R d4 --limit 4294967296", 1, "status usage 3\n"),
                Step::Run("r5 --resume --limit x", 1, "status usage 3\n"),
                Step::Run("r5 --resume", 9, "status label 0 1 0 0\n"),
                Step::Run("r5 --resume --limit 5", 9, "status label 0 1 0 0\n"),
                SEVEN,
                UNITS,
                Step::Run("r5 --resume --limit 4294967295", 14, "status norebuild\n"),
                Step::Run("r5 -F d4 --limit 5", 12, "status nospare\n"),
                SPREAD,
            ],
            ..PLAIN
        },
        Session {
            fails: &[("d0", 3), ("d1", 3)],
            steps: &[
                LABELLED,
                Step::Run("r5 --io s1 -w 0", 8, "dead 0\ndead 1\nstatus lost 0 1 0\n"),
                Step::Run("r5 --resume", 8, "dead 0\ndead 1\nstatus lost 0 1 0\n"),
            ],
            ..PLAIN
        },
    ];
    play(&rt, rt.alloc(), SESSIONS)
}
