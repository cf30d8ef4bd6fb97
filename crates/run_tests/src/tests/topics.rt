//! The program's own texts, and the words of what is no array.
use super::*;
use crate::judging::{holds, same, same_at};
use top_help::{HELP, VERSION};

const TOPICS: &[(&str, &str)] = &[
    ("--help", HELP),
    ("-h", HELP),
    ("r5 -s -h", HELP),
    ("-V --nothing --help", HELP),
    ("--version", VERSION),
    ("r5 -V -s", VERSION),
];

// Wherever the word stands, the help comes before the version, and neither has a status behind it.
#[test]
fn help_and_version_are_told(rt: HostRuntime) -> Result<(), Fail> {
    let alloc = rt.alloc();
    let mut bay = bay_of(alloc, &PLAIN)?;
    for (words, wanted) in TOPICS {
        says(&rt, alloc, &mut bay, *words, 0, *wanted)?;
    }
    Ok(())
}

const EXPLAINED: &[&str] = &[
    "-I",
    "-s",
    "-g",
    "-G",
    "--scan",
    "--layout",
    "-f",
    "-F",
    "-R",
    "-i",
    "-m",
    "-p",
    "-P",
    "--io",
    "--sweep",
    "--sim",
    "--graphs",
    "--trace",
    "-w",
    "--map",
    "--adopt",
    "--limit",
    "--rows",
    "--clients",
    "--ops",
    "-h, --help",
    "-V, --version",
];

// Every word is explained, in lines of at most 80 columns.
#[test]
fn the_help_names_every_word(rt: HostRuntime) -> Result<(), Fail> {
    for word in EXPLAINED {
        let line = format!(in rt.alloc(); "\n  {word} ")?;
        same_at(&rt, *word, HELP.contains(line.as_str()), true);
    }
    for line in HELP.lines() {
        holds(&rt, line.len() <= 80);
    }
    same(&rt, VERSION.contains("rattle-kit-13f"), true);
    Ok(())
}

// A list and requests are actions of their own, without an option; and a queue is one of three words.
#[test]
fn lists_and_requests_are_actions(rt: HostRuntime) -> Result<(), Fail> {
    const SESSIONS: &[Session] = &[Session {
        steps: &[
            Step::Run("--scan", 1, "status usage 0\n"),
            Step::Run("t1 --sim", 1, "status usage 0\n"),
            Step::Run("t1 --scan --sim fifo", 1, "status usage 1\n"),
            Step::Run("t1 --scan -s", 1, "status usage 1\n"),
            Step::Run("t1 --io s1 --scan", 1, "status usage 1\n"),
            Step::Run("t1 --scan -w 2", 1, "status usage 2\n"),
            Step::Run("t1 --sim fifo --trace", 1, "status usage 2\n"),
            Step::Run("t1 --sim lifo --ops 1", 1, "status usage 2\n"),
            Step::Run("t1 --sim lifo", 1, "status usage 3\n"),
            Step::Run("t1 --sim Fifo", 1, "status usage 3\n"),
        ],
        ..PLAIN
    }];
    play(&rt, rt.alloc(), SESSIONS)
}
