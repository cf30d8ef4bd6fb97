//! Arrays that were stopped within a round of labels, and are adopted.
ghost use Rattle.std.specs.Prelude.{◌≤◌};

use super::*;

const LABELLED: Step = Step::Run("r5 -I 7", 0, "labels written 3\nstatus ok\n");

const INITIALISED: Step = Step::Run("r5 -i", 0, "parity initialised 64\nstatus ok\n");

const ROW: Step = Step::Run(
    "r5 --io s1 -w 0",
    0,
    "reply 0.0 done\nreply 0.1 data\nblock 0 1 a5\ncommit 0.0\ncommit 0.1\nstatus ok\n",
);

// The first round of a call is stopped behind its first label: by the counters two columns are dead, and the array is lost.
#[test]
fn an_array_that_was_stopped_is_adopted(rt: HostRuntime) -> Result<(), Fail> {
    const SESSIONS: &[Session] = &[
        Session {
            steps: &[
                LABELLED,
                INITIALISED,
                ROW,
                Step::Put("d0", 16, 6),
                Step::Put("d0", 40, 0),
                Step::Run(
                    "r5 -s",
                    0,
                    "column 0 d0 optimal\ncolumn 1 d1 failed\ncolumn 2 d2 failed\nparity dirty\nstatus ok\n",
                ),
                Step::Run("r5 -P", 8, "dead 1\ndead 2\nstatus lost 1 2 0\n"),
                Step::Run(
                    "r5 -s --adopt",
                    0,
                    "column 0 d0 optimal\ncolumn 1 d1 optimal\ncolumn 2 d2 optimal\nparity dirty\nstatus ok\n",
                ),
                Step::Run("r5 -p --adopt", 0, "parity clean\nstatus ok\n"),
                Step::Run("r5 -g d1", 0, "label 2 7 5 1 3 1 64 53 1\nstatus ok\n"),
                Step::Run("r5 -P --adopt", 0, "parity rewritten 0\nstatus ok\n"),
                Step::Run("r5 -g d1", 0, "label 2 7 8 1 3 1 64 53 1\nstatus ok\n"),
                ROW,
            ],
            ..PLAIN
        },
        Session {
            steps: &[
                LABELLED,
                INITIALISED,
                ROW,
                Step::Put("d0", 16, 6),
                Step::Put("d0", 40, 0),
                Step::Run(
                    "r5 -f d1 --adopt",
                    0,
                    "failed column 1\ndead 1\nstatus ok\n",
                ),
                Step::Run("r5 -g d2", 0, "label 2 7 7 2 3 1 64 53 0\nstatus ok\n"),
                Step::Run("r5 -g d1", 0, "label 2 7 5 1 3 1 64 53 1\nstatus ok\n"),
                Step::Run(
                    "r5 -s --adopt",
                    0,
                    "column 0 d0 optimal\ncolumn 1 d1 failed\ncolumn 2 d2 optimal\nparity dirty\nstatus ok\n",
                ),
                Step::Run(
                    "r5 -R d1 --adopt -w 0",
                    0,
                    "reconstruct column 1 device 1 done 64\nstatus ok\n",
                ),
                Step::Run("r5 -p", 0, "parity clean\nstatus ok\n"),
            ],
            ..PLAIN
        },
    ];
    play(&rt, rt.alloc(), SESSIONS)
}

// A component without a label of its column is refused as it is without --adopt; and the word goes with some letters alone.
#[test]
fn what_is_not_adopted(rt: HostRuntime) -> Result<(), Fail> {
    const SESSIONS: &[Session] = &[
        Session {
            steps: &[
                LABELLED,
                Step::Copy("d0", "d1"),
                Step::Put("d0", 16, 2),
                Step::Run("r5 -s --adopt", 9, "status label 1 3 0 1\n"),
                Step::Run("r5 -P --adopt", 9, "status label 1 3 0 1\n"),
            ],
            ..PLAIN
        },
        Session {
            steps: &[
                Step::Run("r5 --adopt", 1, "status usage 1\n"),
                Step::Run("r5 -i --adopt", 1, "status usage 2\n"),
                Step::Run("r5 -m --adopt", 1, "status usage 2\n"),
                Step::Run("r5 --io s1 --adopt", 1, "status usage 2\n"),
                Step::Run("r5 -p --adopt", 0, "parity clean\nstatus ok\n"),
            ],
            ..PLAIN
        },
    ];
    play(&rt, rt.alloc(), SESSIONS)
}
