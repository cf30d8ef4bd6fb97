//! The actions that are letters, one after another on the same components.
use super::*;

// Five columns with units of 32 sectors, and a spare.
pub(super) const WIDE: &str =
    "START array\n1 5 1\nSTART disks\nd0\nd1\nd2\nd3\nd4\nSTART spare\ns0\nSTART layout\n32 1 1 5\nSTART queue\nfifo 100\n";

// The same with another component in the place of d2.
const WIDE_FOREIGN: &str =
    "START array\n1 5 1\nSTART disks\nd0\nd1\nd5\nd3\nd4\nSTART spare\ns0\nSTART layout\n32 1 1 5\nSTART queue\nfifo 100\n";

const FOREIGN: &str = "START array\n1 3 0\nSTART disks\nd0\nd1\nd3\nSTART layout\n1 1 1 5\n";

// On five columns the check unit of stripe s is on column 3 where s is 1 modulo 5, which 13 of 64 stripes are. So d3 gets its
// label by its call 0; by its calls from 1 on its parity is initialised: a read of its first sector and one of its map, a label,
// a settle, 14 reads and 13 writes of check units, a settle, a label, a settle. A read has 64 KiB, which are four rows, from the first row
// on that is wanted and wasn't read with one before; a check unit isn't wanted, so they begin at the rows 0, 4, 8 and 12, behind
// the check unit of row 16 at 17, 22, .. and 57, behind that of 61 at 62. In the run its calls from 35 on are a read of its first
// sector and one of its map, a label, a settle, and the write of sectors 64 to 95, which fails. Nothing says that its label is old but the
// counter. Then its column is rebuilt onto the spare. At last d2 is replaced: without a label it is refused, and its column is
// rebuilt on it.
#[test]
fn an_array_is_labelled_and_run_and_rebuilt(rt: HostRuntime) -> Result<(), Fail> {
    const SESSIONS: &[Session] = &[Session {
        conf: WIDE,
        script: "0 write 64 256 5a\n0 read 64 256\n",
        sectors: 2112,
        fails: &[("d3", 39)],
        steps: &[
            Step::Run("r5 -I 1001", 0, "labels written 5\nstatus ok\n"),
            Step::Begins(
                "d0",
                b"RFLABEL1\x02\0\0\0\xe9\x03\0\0\x01\0\0\0\0\0\0\0\x05\0\0\0\x20\0\0\0\x40\0\0\0\x35\0\0\0\0\0\0\0",
            ),
            Step::Holds("s0", ""),
            Step::Run("r5 -i", 0, "parity initialised 64\nstatus ok\n"),
            Step::Run(
                "r5 --io s1 -w 0",
                0,
                "reply 0.0 done\nreply 0.1 data\nblock 64 256 5a\ncommit 0.0\ncommit 0.1\ndead 3\nstatus ok\n",
            ),
            Step::Run(
                "r5 -s",
                0,
                "column 0 d0 optimal\ncolumn 1 d1 optimal\ncolumn 2 d2 optimal\ncolumn 3 d3 failed\ncolumn 4 d4 optimal\nspare 0 s0 free\nparity clean\nstatus ok\n",
            ),
            Step::Run("r5 -p", 0, "parity clean\ndead 3\nstatus ok\n"),
            Step::Run("r5 -g d0", 0, "label 2 1001 5 0 5 32 64 53 1\nstatus ok\n"),
            Step::Run(
                "r5 -F d3 -w 0",
                0,
                "reconstruct column 3 device 5 done 64\nstatus ok\n",
            ),
            Step::Run("r5 -p", 0, "parity clean\nstatus ok\n"),
            Step::Renew("d2"),
            Step::Run("r5 -s", 9, "status label 2 1 0 0\n"),
            Step::Run(
                "r5 -R d2",
                0,
                "reconstruct column 2 device 2 done 64\nstatus ok\n",
            ),
            Step::Run("r5 -p", 0, "parity clean\nstatus ok\n"),
        ],
        ..PLAIN
    }];
    play(&rt, rt.alloc(), SESSIONS)
}

// Each letter on an array without labels. Sector 64 of d2 is the check unit of stripe 0, and the data are zeros. The spare's
// name is known to `-g`, and not to `-f`, which takes a column's.
#[test]
fn an_array_without_labels_has_its_letters(rt: HostRuntime) -> Result<(), Fail> {
    const SESSIONS: &[Session] = &[
        Session {
            steps: &[
                Step::Run(
                    "r5 -s",
                    0,
                    "column 0 d0 optimal\ncolumn 1 d1 optimal\ncolumn 2 d2 optimal\nparity unlabelled\nstatus ok\n",
                ),
                Step::Run("r5 -g d1", 0, "label none\nstatus ok\n"),
                Step::Run("r5 -f d1", 9, "status label 1 1 0 0\n"),
                Step::Run("r5 -F d1", 9, "status label 1 1 0 0\n"),
                Step::Run("r5 -R d1", 9, "status label 1 1 0 0\n"),
                Step::Run("r5 -p", 0, "parity clean\nstatus ok\n"),
                Step::Run("r5 -P", 0, "parity rewritten 0\nstatus ok\n"),
                Step::Run("r5 -i", 0, "parity initialised 64\nstatus ok\n"),
                Step::Spoil("d2", 64, 0xff),
                Step::Run("r5 -p", 11, "status parity 1\n"),
                Step::Holds("d2", "64 ff\n"),
                Step::Run("r5 -P", 0, "parity rewritten 1\nstatus ok\n"),
                Step::Run("r5 -p", 0, "parity clean\nstatus ok\n"),
                Step::Holds("d2", ""),
            ],
            ..PLAIN
        },
        Session {
            conf: WIDE,
            steps: &[
                Step::Run(
                    "r5 -G",
                    0,
                    "START array\n1 5 1\nSTART disks\nd0\nd1\nd2\nd3\nd4\nSTART spare\ns0\nSTART layout\n32 1 1 5\nSTART queue\nfifo 100\nstatus ok\n",
                ),
                Step::Run("r5 -g s0", 0, "label none\nstatus ok\n"),
                Step::Run("r5 -f s0", 1, "status usage 3\n"),
            ],
            ..PLAIN
        },
    ];
    play(&rt, rt.alloc(), SESSIONS)
}

// A column dies whose device fails as its stripes are tested, as its check units are written, or as its label is.
#[test]
fn a_letter_tells_the_columns_that_died(rt: HostRuntime) -> Result<(), Fail> {
    const SESSIONS: &[Session] = &[
        Session {
            fails: &[("d1", 1)],
            steps: &[Step::Run("r5 -p", 0, "parity clean\ndead 1\nstatus ok\n")],
            ..PLAIN
        },
        Session {
            fails: &[("d2", 1)],
            steps: &[Step::Run("r5 -i", 0, "parity initialised 0\ndead 2\nstatus ok\n")],
            ..PLAIN
        },
        Session {
            fails: &[("d0", 0)],
            steps: &[Step::Run("r5 -I 7", 0, "labels written 2\ndead 0\nstatus ok\n")],
            ..PLAIN
        },
        Session {
            fails: &[("d0", 0), ("d2", 0)],
            steps: &[Step::Run("r5 -I 7", 8, "dead 0\ndead 2\nstatus lost 0 2 0\n")],
            ..PLAIN
        },
        Session {
            fails: &[("d1", 0), ("d2", 0)],
            steps: &[Step::Run("r5 -P", 8, "dead 1\ndead 2\nstatus lost 1 2 0\n")],
            ..PLAIN
        },
    ];
    play(&rt, rt.alloc(), SESSIONS)
}

// A column is failed, and another whose failure would lose the array isn't: the labels are what they were. The check unit of
// stripe 1, on column 1, isn't the sum of its data, and the labels say that the array was in use: so it is rewritten before
// the run, and the labels are clean behind it. Two devices fail as the opening round is written: the array is lost before its
// run, and nothing is told of that.
#[test]
fn an_array_goes_by_its_labels(rt: HostRuntime) -> Result<(), Fail> {
    const SESSIONS: &[Session] = &[
        Session {
            steps: &[
                Step::Run("r5 -I 7", 0, "labels written 3\nstatus ok\n"),
                Step::Run("r5 -f d1", 0, "failed column 1\ndead 1\nstatus ok\n"),
                Step::Run(
                    "r5 -s",
                    0,
                    "column 0 d0 optimal\ncolumn 1 d1 failed\ncolumn 2 d2 optimal\nparity dirty\nstatus ok\n",
                ),
                Step::Run("r5 -g d0", 0, "label 2 7 2 0 3 1 64 53 0\nstatus ok\n"),
                Step::Run("r5 -f d2", 8, "dead 1\ndead 2\nstatus lost 1 2 0\n"),
                Step::Run("r5 -g d2", 0, "label 2 7 2 2 3 1 64 53 0\nstatus ok\n"),
                Step::Run("r5 -g d1", 0, "label 2 7 1 1 3 1 64 53 0\nstatus ok\n"),
            ],
            ..PLAIN
        },
        Session {
            steps: &[
                Step::Spoil("d1", 65, 0x77),
                Step::Run("r5 -I 7", 0, "labels written 3\nstatus ok\n"),
                Step::Run("r5 -p", 11, "status parity 1\n"),
                Step::Run(
                    "r5 --io s1 -w 0",
                    0,
                    "reply 0.0 done\nreply 0.1 data\nblock 0 1 a5\ncommit 0.0\ncommit 0.1\nstatus ok\n",
                ),
                Step::Run("r5 -g d1", 0, "label 2 7 3 1 3 1 64 53 1\nstatus ok\n"),
                Step::Run("r5 -p", 0, "parity clean\nstatus ok\n"),
            ],
            ..PLAIN
        },
        Session {
            fails: &[("d0", 3), ("d1", 3)],
            steps: &[
                Step::Run("r5 -I 7", 0, "labels written 3\nstatus ok\n"),
                Step::Run("r5 --io s1 -w 0", 8, "dead 0\ndead 1\nstatus lost 0 1 0\n"),
                Step::Run(
                    "r5 -s",
                    0,
                    "column 0 d0 failed\ncolumn 1 d1 failed\ncolumn 2 d2 optimal\nparity dirty\nstatus ok\n",
                ),
            ],
            ..PLAIN
        },
    ];
    play(&rt, rt.alloc(), SESSIONS)
}

// In the place of d2 a component that another array of the same shape has there, of five columns, and of three; and then one
// without a label. No sector changes.
#[test]
fn labels_are_refused(rt: HostRuntime) -> Result<(), Fail> {
    const SESSIONS: &[Session] = &[
        Session {
            conf: WIDE,
            other: WIDE_FOREIGN,
            sectors: 2112,
            steps: &[
                Step::Run("t1 -I 7", 0, "labels written 5\nstatus ok\n"),
                Step::Run("r5 -I 1001", 0, "labels written 5\nstatus ok\n"),
                Step::Run("r5 -i", 0, "parity initialised 64\nstatus ok\n"),
                Step::Copy("d5", "d2"),
                Step::Run("r5 -s", 9, "status label 2 2 7 1001\n"),
            ],
            ..PLAIN
        },
        Session {
            other: FOREIGN,
            steps: &[
                Step::Run("t1 -I 7", 0, "labels written 3\nstatus ok\n"),
                Step::Run("r5 -I 1001", 0, "labels written 3\nstatus ok\n"),
                Step::Copy("d3", "d2"),
                Step::Run("r5 -s", 9, "status label 2 2 7 1001\n"),
                Step::Run("r5 -p", 9, "status label 2 2 7 1001\n"),
                Step::Run("r5 -i", 9, "status label 2 2 7 1001\n"),
                Step::Run("r5 -P", 9, "status label 2 2 7 1001\n"),
                Step::Run("r5 -f d0", 9, "status label 2 2 7 1001\n"),
                Step::Run("r5 -F d0", 9, "status label 2 2 7 1001\n"),
                Step::Run("r5 --io s1", 9, "status label 2 2 7 1001\n"),
                Step::Run("r5 -g d0", 0, "label 2 1001 1 0 3 1 64 53 0\nstatus ok\n"),
                Step::Run("r5 -g d2", 0, "label 2 7 1 2 3 1 64 53 0\nstatus ok\n"),
                Step::Renew("d2"),
                Step::Run("r5 -s", 9, "status label 2 1 0 0\n"),
                Step::Run("r5 --io s1", 9, "status label 2 1 0 0\n"),
                Step::Holds("d2", ""),
            ],
            ..PLAIN
        },
    ];
    play(&rt, rt.alloc(), SESSIONS)
}

// Byte 8 of a label is its version's lowest. Labels of version 1 are read, and each round writes version 2.
// Labels of another version are none.
#[test]
fn labels_of_version_1_are_read(rt: HostRuntime) -> Result<(), Fail> {
    const SESSIONS: &[Session] = &[Session {
        conf: WIDE,
        sectors: 2112,
        steps: &[
            Step::Run("r5 -I 1001", 0, "labels written 5\nstatus ok\n"),
            Step::Put("d0", 8, 1),
            Step::Put("d1", 8, 1),
            Step::Put("d2", 8, 1),
            Step::Put("d3", 8, 1),
            Step::Put("d4", 8, 1),
            Step::Run("r5 -g d0", 0, "label 1 1001 1 0 5 32 64 53 0\nstatus ok\n"),
            Step::Run("r5 -i", 0, "parity initialised 64\nstatus ok\n"),
            Step::Run("r5 -g d0", 0, "label 2 1001 3 0 5 32 64 53 1\nstatus ok\n"),
            Step::Put("d0", 8, 3),
            Step::Put("d1", 8, 3),
            Step::Put("d2", 8, 3),
            Step::Put("d3", 8, 3),
            Step::Put("d4", 8, 3),
            Step::Run("r5 -s", 9, "status label 0 5 3 2\n"),
            Step::Run("r5 -i", 9, "status label 0 5 3 2\n"),
            Step::Run("r5 --resume", 9, "status label 0 5 3 2\n"),
        ],
        ..PLAIN
    }];
    play(&rt, rt.alloc(), SESSIONS)
}

// Clean labels, as version 1 has them.
const OLDER: &[Step] = &[
    Step::Run("r5 -I 7", 0, "labels written 3\nstatus ok\n"),
    Step::Run("r5 -i", 0, "parity initialised 64\nstatus ok\n"),
    Step::Put("d0", 8, 1),
    Step::Put("d1", 8, 1),
    Step::Put("d2", 8, 1),
];

// A letter, what it prints, and the label of d0 then. The labels of before are of version 1, with counter 3. One that is only
// read is written by no letter that looks, tests or is refused.
const MIGRATED: &[(&str, &str, u8, &str)] = &[
    (
        "r5 -s",
        "column 0 d0 optimal\ncolumn 1 d1 optimal\ncolumn 2 d2 optimal\nspare 0 s0 free\nparity clean\nstatus ok\n",
        0,
        "label 1 7 3 0 3 1 64 53 1\nstatus ok\n",
    ),
    (
        "r5 -p",
        "parity clean\nstatus ok\n",
        0,
        "label 1 7 3 0 3 1 64 53 1\nstatus ok\n",
    ),
    (
        "r5 --resume",
        "status norebuild\n",
        14,
        "label 1 7 3 0 3 1 64 53 1\nstatus ok\n",
    ),
    (
        "r5 -i",
        "parity initialised 64\nstatus ok\n",
        0,
        "label 2 7 5 0 3 1 64 53 1\nstatus ok\n",
    ),
    (
        "r5 -P",
        "parity rewritten 0\nstatus ok\n",
        0,
        "label 2 7 5 0 3 1 64 53 1\nstatus ok\n",
    ),
    (
        "r5 -f d1",
        "failed column 1\ndead 1\nstatus ok\n",
        0,
        "label 2 7 4 0 3 1 64 53 1\nstatus ok\n",
    ),
    (
        "r5 --io s1 -w 0",
        "reply 0.0 done\nreply 0.1 data\nblock 0 1 a5\ncommit 0.0\ncommit 0.1\nstatus ok\n",
        0,
        "label 2 7 5 0 3 1 64 53 1\nstatus ok\n",
    ),
    (
        "r5 --sweep 1 --clients 1 --ops 0 -w 0",
        "sweep clients 1 operations 0\nwritten 0 read 0 sum 0\nstatus ok\n",
        0,
        "label 2 7 5 0 3 1 64 53 1\nstatus ok\n",
    ),
    (
        "r5 -F d1 --limit 20 -w 0",
        "reconstruct column 1 device 3 paused 20\nstatus ok\n",
        0,
        "label 2 7 5 0 3 1 64 53 1\nstatus ok\n",
    ),
    (
        "r5 -R d1 -w 0",
        "reconstruct column 1 device 1 done 64\nstatus ok\n",
        0,
        "label 2 7 5 0 3 1 64 53 1\nstatus ok\n",
    ),
    (
        "r5 -I 9",
        "labels written 3\nstatus ok\n",
        0,
        "label 2 9 1 0 3 1 64 53 0\nstatus ok\n",
    ),
];

#[test]
fn each_letter_that_writes_labels_writes_version_2(rt: HostRuntime) -> Result<(), Fail> {
    let alloc = rt.alloc();
    let session = Session {
        conf: rebuilds::SPARED,
        ..PLAIN
    };
    for (words, lines, exit, label) in MIGRATED {
        let mut bay = bay_of(alloc, &session)?;
        act_all(&rt, alloc, &mut bay, OLDER)?;
        says(&rt, alloc, &mut bay, *words, *exit, *lines)?;
        says(&rt, alloc, &mut bay, "r5 -g d0", 0, *label)?;
    }
    Ok(())
}
