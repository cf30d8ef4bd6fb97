//! Layouts, of which no component is taken.
use super::*;

const STRIPED: &str = "START array\n1 2 0\nSTART disks\nd0\nd1\nSTART layout\n3 1 1 0\n";

const PAIRS: &str = "START array\n1 4 0\nSTART disks\nd0\nd1\nd2\nd3\nSTART layout\n1 1 1 1\n";

const LAST: &str = "START array\n1 3 0\nSTART disks\nd0\nd1\nd2\nSTART layout\n1 1 1 4\n";

const CHAIN: &str = "START array\n1 3 0\nSTART disks\nd0\nd1\nd2\nSTART layout\n1 1 1 C\n";

const PLANE: &str =
    "START array\n1 7 0\nSTART disks\nd0\nd1\nd2\nd3\nd4\nd5\nd6\nSTART layout\n2 1 1 D\ncyclic 7 : 0 1 3\n";

const WHOLE: &str =
    "START array\n1 3 0\nSTART disks\nd0\nd1\nd2\nSTART layout\n1 1 1 T\ncomplete 3 2\n";

// The layout over as many rows as it comes again after, and over others. No component is called, of which each would fail.
#[test]
fn a_layout_is_told_alone(rt: HostRuntime) -> Result<(), Fail> {
    const SESSIONS: &[Session] = &[
        Session {
            fails: &[("d0", 0), ("d1", 0), ("d2", 0)],
            steps: &[
                Step::Run(
                    "r5 --layout",
                    0,
                    "layout 5 columns 3 width 3 data 2 unit 1 rows 3 stripes 3 blocks 6\nstripe 0 unit 0 column 0 row 0 block 0\nstripe 0 unit 1 column 1 row 0 block 1\nstripe 0 check column 2 row 0\nstripe 1 unit 0 column 2 row 1 block 2\nstripe 1 unit 1 column 0 row 1 block 3\nstripe 1 check column 1 row 1\nstripe 2 unit 0 column 1 row 2 block 4\nstripe 2 unit 1 column 2 row 2 block 5\nstripe 2 check column 0 row 2\ncolumn 0 data 2 check 1 spare 0\ncolumn 1 data 2 check 1 spare 0\ncolumn 2 data 2 check 1 spare 0\nrebuild 0 column 1 reads 3 writes 0\nrebuild 0 column 2 reads 3 writes 0\nrebuild 1 column 0 reads 3 writes 0\nrebuild 1 column 2 reads 3 writes 0\nrebuild 2 column 0 reads 3 writes 0\nrebuild 2 column 1 reads 3 writes 0\nwrite 1 reads 1 writes 2\nwrite 2 reads 0 writes 3\ndegraded reads 2\nstatus ok\n",
                ),
                Step::Run(
                    "r5 --layout --rows 1",
                    0,
                    "layout 5 columns 3 width 3 data 2 unit 1 rows 1 stripes 1 blocks 2\nstripe 0 unit 0 column 0 row 0 block 0\nstripe 0 unit 1 column 1 row 0 block 1\nstripe 0 check column 2 row 0\ncolumn 0 data 1 check 0 spare 0\ncolumn 1 data 1 check 0 spare 0\ncolumn 2 data 0 check 1 spare 0\nrebuild 0 column 1 reads 1 writes 0\nrebuild 0 column 2 reads 1 writes 0\nrebuild 1 column 0 reads 1 writes 0\nrebuild 1 column 2 reads 1 writes 0\nrebuild 2 column 0 reads 1 writes 0\nrebuild 2 column 1 reads 1 writes 0\nwrite 1 reads 1 writes 2\nwrite 2 reads 0 writes 3\ndegraded reads 2\nstatus ok\n",
                ),
                Step::Run(
                    "r5 --layout --rows 4",
                    0,
                    "layout 5 columns 3 width 3 data 2 unit 1 rows 4 stripes 4 blocks 8\nstripe 0 unit 0 column 0 row 0 block 0\nstripe 0 unit 1 column 1 row 0 block 1\nstripe 0 check column 2 row 0\nstripe 1 unit 0 column 2 row 1 block 2\nstripe 1 unit 1 column 0 row 1 block 3\nstripe 1 check column 1 row 1\nstripe 2 unit 0 column 1 row 2 block 4\nstripe 2 unit 1 column 2 row 2 block 5\nstripe 2 check column 0 row 2\nstripe 3 unit 0 column 0 row 3 block 6\nstripe 3 unit 1 column 1 row 3 block 7\nstripe 3 check column 2 row 3\ncolumn 0 data 3 check 1 spare 0\ncolumn 1 data 3 check 1 spare 0\ncolumn 2 data 2 check 2 spare 0\nrebuild 0 column 1 reads 4 writes 0\nrebuild 0 column 2 reads 4 writes 0\nrebuild 1 column 0 reads 4 writes 0\nrebuild 1 column 2 reads 4 writes 0\nrebuild 2 column 0 reads 4 writes 0\nrebuild 2 column 1 reads 4 writes 0\nwrite 1 reads 1 writes 2\nwrite 2 reads 0 writes 3\ndegraded reads 2\nstatus ok\n",
                ),
                Step::Calls("d0", ""),
            ],
            ..PLAIN
        },
        Session {
            conf: STRIPED,
            steps: &[Step::Run(
                "r5 --layout",
                0,
                "layout 0 columns 2 width 2 data 2 unit 3 rows 1 stripes 1 blocks 6\nstripe 0 unit 0 column 0 row 0 block 0\nstripe 0 unit 1 column 1 row 0 block 3\ncolumn 0 data 1 check 0 spare 0\ncolumn 1 data 1 check 0 spare 0\nwrite 1 reads 0 writes 1\nwrite 2 reads 0 writes 2\nstatus ok\n",
            )],
            ..PLAIN
        },
        Session {
            conf: PAIRS,
            steps: &[Step::Run(
                "r5 --layout",
                0,
                "layout 1 columns 4 width 2 data 1 unit 1 rows 1 stripes 2 blocks 2\nstripe 0 unit 0 column 0 row 0 block 0\nstripe 0 check column 1 row 0\nstripe 1 unit 0 column 2 row 0 block 1\nstripe 1 check column 3 row 0\ncolumn 0 data 1 check 0 spare 0\ncolumn 1 data 0 check 1 spare 0\ncolumn 2 data 1 check 0 spare 0\ncolumn 3 data 0 check 1 spare 0\nrebuild 0 column 1 reads 1 writes 0\nrebuild 1 column 0 reads 1 writes 0\nrebuild 2 column 3 reads 1 writes 0\nrebuild 3 column 2 reads 1 writes 0\nwrite 1 reads 0 writes 2\ndegraded reads 1\nstatus ok\n",
            )],
            ..PLAIN
        },
        Session {
            conf: LAST,
            steps: &[Step::Run(
                "r5 --layout",
                0,
                "layout 4 columns 3 width 3 data 2 unit 1 rows 1 stripes 1 blocks 2\nstripe 0 unit 0 column 0 row 0 block 0\nstripe 0 unit 1 column 1 row 0 block 1\nstripe 0 check column 2 row 0\ncolumn 0 data 1 check 0 spare 0\ncolumn 1 data 1 check 0 spare 0\ncolumn 2 data 0 check 1 spare 0\nrebuild 0 column 1 reads 1 writes 0\nrebuild 0 column 2 reads 1 writes 0\nrebuild 1 column 0 reads 1 writes 0\nrebuild 1 column 2 reads 1 writes 0\nrebuild 2 column 0 reads 1 writes 0\nrebuild 2 column 1 reads 1 writes 0\nwrite 1 reads 1 writes 2\nwrite 2 reads 0 writes 3\ndegraded reads 2\nstatus ok\n",
            )],
            ..PLAIN
        },
        Session {
            conf: CHAIN,
            steps: &[
                Step::Run(
                    "r5 --layout",
                    0,
                    "layout C columns 3 width 2 data 1 unit 1 rows 2 stripes 3 blocks 3\nstripe 0 unit 0 column 0 row 0 block 0\nstripe 0 check column 1 row 1\nstripe 1 unit 0 column 1 row 0 block 1\nstripe 1 check column 2 row 1\nstripe 2 unit 0 column 2 row 0 block 2\nstripe 2 check column 0 row 1\ncolumn 0 data 1 check 1 spare 0\ncolumn 1 data 1 check 1 spare 0\ncolumn 2 data 1 check 1 spare 0\nrebuild 0 column 1 reads 1 writes 0\nrebuild 0 column 2 reads 1 writes 0\nrebuild 1 column 0 reads 1 writes 0\nrebuild 1 column 2 reads 1 writes 0\nrebuild 2 column 0 reads 1 writes 0\nrebuild 2 column 1 reads 1 writes 0\nwrite 1 reads 0 writes 2\ndegraded reads 1\nstatus ok\n",
                ),
                Step::Run("r5 --layout --rows 3", 1, "status usage 3\n"),
                Step::Run(
                    "r5 --layout --rows 4",
                    0,
                    "layout C columns 3 width 2 data 1 unit 1 rows 4 stripes 6 blocks 6\nstripe 0 unit 0 column 0 row 0 block 0\nstripe 0 check column 1 row 1\nstripe 1 unit 0 column 1 row 0 block 1\nstripe 1 check column 2 row 1\nstripe 2 unit 0 column 2 row 0 block 2\nstripe 2 check column 0 row 1\nstripe 3 unit 0 column 0 row 2 block 3\nstripe 3 check column 1 row 3\nstripe 4 unit 0 column 1 row 2 block 4\nstripe 4 check column 2 row 3\nstripe 5 unit 0 column 2 row 2 block 5\nstripe 5 check column 0 row 3\ncolumn 0 data 2 check 2 spare 0\ncolumn 1 data 2 check 2 spare 0\ncolumn 2 data 2 check 2 spare 0\nrebuild 0 column 1 reads 2 writes 0\nrebuild 0 column 2 reads 2 writes 0\nrebuild 1 column 0 reads 2 writes 0\nrebuild 1 column 2 reads 2 writes 0\nrebuild 2 column 0 reads 2 writes 0\nrebuild 2 column 1 reads 2 writes 0\nwrite 1 reads 0 writes 2\ndegraded reads 1\nstatus ok\n",
                ),
            ],
            ..PLAIN
        },
        Session {
            conf: PLANE,
            steps: &[
                Step::Run(
                    "r5 --layout",
                    0,
                    "layout D columns 7 width 2 data 1 unit 2 rows 9 stripes 21 blocks 42\nstripe 0 unit 0 column 3 row 0 block 0\nstripe 0 check column 0 row 0\nstripe 0 spare column 1 row 0\nstripe 1 unit 0 column 4 row 0 block 2\nstripe 1 check column 1 row 1\nstripe 1 spare column 2 row 0\nstripe 2 unit 0 column 5 row 0 block 4\nstripe 2 check column 2 row 1\nstripe 2 spare column 3 row 1\nstripe 3 unit 0 column 6 row 0 block 6\nstripe 3 check column 3 row 2\nstripe 3 spare column 4 row 1\nstripe 4 unit 0 column 0 row 1 block 8\nstripe 4 check column 4 row 2\nstripe 4 spare column 5 row 1\nstripe 5 unit 0 column 1 row 2 block 10\nstripe 5 check column 5 row 2\nstripe 5 spare column 6 row 1\nstripe 6 unit 0 column 2 row 2 block 12\nstripe 6 check column 6 row 2\nstripe 6 spare column 0 row 2\nstripe 7 unit 0 column 0 row 3 block 14\nstripe 7 check column 1 row 3\nstripe 7 spare column 3 row 3\nstripe 8 unit 0 column 1 row 4 block 16\nstripe 8 check column 2 row 3\nstripe 8 spare column 4 row 3\nstripe 9 unit 0 column 2 row 4 block 18\nstripe 9 check column 3 row 4\nstripe 9 spare column 5 row 3\nstripe 10 unit 0 column 3 row 5 block 20\nstripe 10 check column 4 row 4\nstripe 10 spare column 6 row 3\nstripe 11 unit 0 column 4 row 5 block 22\nstripe 11 check column 5 row 4\nstripe 11 spare column 0 row 4\nstripe 12 unit 0 column 5 row 5 block 24\nstripe 12 check column 6 row 4\nstripe 12 spare column 1 row 5\nstripe 13 unit 0 column 6 row 5 block 26\nstripe 13 check column 0 row 5\nstripe 13 spare column 2 row 5\nstripe 14 unit 0 column 1 row 6 block 28\nstripe 14 check column 3 row 6\nstripe 14 spare column 0 row 6\nstripe 15 unit 0 column 2 row 6 block 30\nstripe 15 check column 4 row 6\nstripe 15 spare column 1 row 7\nstripe 16 unit 0 column 3 row 7 block 32\nstripe 16 check column 5 row 6\nstripe 16 spare column 2 row 7\nstripe 17 unit 0 column 4 row 7 block 34\nstripe 17 check column 6 row 6\nstripe 17 spare column 3 row 8\nstripe 18 unit 0 column 5 row 7 block 36\nstripe 18 check column 0 row 7\nstripe 18 spare column 4 row 8\nstripe 19 unit 0 column 6 row 7 block 38\nstripe 19 check column 1 row 8\nstripe 19 spare column 5 row 8\nstripe 20 unit 0 column 0 row 8 block 40\nstripe 20 check column 2 row 8\nstripe 20 spare column 6 row 8\ncolumn 0 data 3 check 3 spare 3\ncolumn 1 data 3 check 3 spare 3\ncolumn 2 data 3 check 3 spare 3\ncolumn 3 data 3 check 3 spare 3\ncolumn 4 data 3 check 3 spare 3\ncolumn 5 data 3 check 3 spare 3\ncolumn 6 data 3 check 3 spare 3\nrebuild 0 column 1 reads 1 writes 1\nrebuild 0 column 2 reads 1 writes 1\nrebuild 0 column 3 reads 1 writes 1\nrebuild 0 column 4 reads 1 writes 1\nrebuild 0 column 5 reads 1 writes 1\nrebuild 0 column 6 reads 1 writes 1\nrebuild 1 column 0 reads 1 writes 1\nrebuild 1 column 2 reads 1 writes 1\nrebuild 1 column 3 reads 1 writes 1\nrebuild 1 column 4 reads 1 writes 1\nrebuild 1 column 5 reads 1 writes 1\nrebuild 1 column 6 reads 1 writes 1\nrebuild 2 column 0 reads 1 writes 1\nrebuild 2 column 1 reads 1 writes 1\nrebuild 2 column 3 reads 1 writes 1\nrebuild 2 column 4 reads 1 writes 1\nrebuild 2 column 5 reads 1 writes 1\nrebuild 2 column 6 reads 1 writes 1\nrebuild 3 column 0 reads 1 writes 1\nrebuild 3 column 1 reads 1 writes 1\nrebuild 3 column 2 reads 1 writes 1\nrebuild 3 column 4 reads 1 writes 1\nrebuild 3 column 5 reads 1 writes 1\nrebuild 3 column 6 reads 1 writes 1\nrebuild 4 column 0 reads 1 writes 1\nrebuild 4 column 1 reads 1 writes 1\nrebuild 4 column 2 reads 1 writes 1\nrebuild 4 column 3 reads 1 writes 1\nrebuild 4 column 5 reads 1 writes 1\nrebuild 4 column 6 reads 1 writes 1\nrebuild 5 column 0 reads 1 writes 1\nrebuild 5 column 1 reads 1 writes 1\nrebuild 5 column 2 reads 1 writes 1\nrebuild 5 column 3 reads 1 writes 1\nrebuild 5 column 4 reads 1 writes 1\nrebuild 5 column 6 reads 1 writes 1\nrebuild 6 column 0 reads 1 writes 1\nrebuild 6 column 1 reads 1 writes 1\nrebuild 6 column 2 reads 1 writes 1\nrebuild 6 column 3 reads 1 writes 1\nrebuild 6 column 4 reads 1 writes 1\nrebuild 6 column 5 reads 1 writes 1\nwrite 1 reads 0 writes 2\ndegraded reads 1\nstatus ok\n",
                ),
                Step::Run("r5 --layout --rows 8", 1, "status usage 3\n"),
            ],
            ..PLAIN
        },
        Session {
            conf: WHOLE,
            steps: &[Step::Run(
                "r5 --layout",
                0,
                "layout T columns 3 width 2 data 1 unit 1 rows 4 stripes 6 blocks 6\nstripe 0 unit 0 column 1 row 0 block 0\nstripe 0 check column 0 row 0\nstripe 1 unit 0 column 2 row 0 block 1\nstripe 1 check column 0 row 1\nstripe 2 unit 0 column 2 row 1 block 2\nstripe 2 check column 1 row 1\nstripe 3 unit 0 column 0 row 2 block 3\nstripe 3 check column 1 row 2\nstripe 4 unit 0 column 0 row 3 block 4\nstripe 4 check column 2 row 2\nstripe 5 unit 0 column 1 row 3 block 5\nstripe 5 check column 2 row 3\ncolumn 0 data 2 check 2 spare 0\ncolumn 1 data 2 check 2 spare 0\ncolumn 2 data 2 check 2 spare 0\nrebuild 0 column 1 reads 2 writes 0\nrebuild 0 column 2 reads 2 writes 0\nrebuild 1 column 0 reads 2 writes 0\nrebuild 1 column 2 reads 2 writes 0\nrebuild 2 column 0 reads 2 writes 0\nrebuild 2 column 1 reads 2 writes 0\nwrite 1 reads 0 writes 2\ndegraded reads 1\nstatus ok\n",
            )],
            ..PLAIN
        },
    ];
    play(&rt, rt.alloc(), SESSIONS)
}

// What is refused: words, the text, and rows that the layout can't have.
#[test]
fn what_is_no_layout_is_refused(rt: HostRuntime) -> Result<(), Fail> {
    const SESSIONS: &[Session] = &[Session {
        conf: PAIRS,
        other: "START array\n1 4 1\n",
        steps: &[
            Step::Run("r5 --layout --rows 0", 1, "status usage 3\n"),
            Step::Run("r5 --layout --rows 524289", 1, "status usage 3\n"),
            Step::Run("r5 --layout --rows 1048577", 1, "status usage 3\n"),
            Step::Run("r5 --layout --rows", 1, "status usage 0\n"),
            Step::Run("r5 --rows 4", 1, "status usage 1\n"),
            Step::Run("r5 -s --rows 4", 1, "status usage 2\n"),
            Step::Run("r5 --layout -w 2", 1, "status usage 2\n"),
            Step::Run("r5 --layout -G", 1, "status usage 1\n"),
            Step::Run("t1 --layout", 2, "status conf 3 3\n"),
            Step::Run("t3 --layout --rows 4", 6, "status nofile t3\n"),
        ],
        ..PLAIN
    }];
    play(&rt, rt.alloc(), SESSIONS)
}
