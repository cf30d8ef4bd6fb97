//! Words and the commands that they are. The wanted ones are read off the table of the program's words.
use crate::judging::{holds, same, same_at};
use raid_bay::Name;
use std::alloc::Global;
use std::process::Abort;
use std::test::Fail;
use top_words::{Action, Command, Invocation, WordsFault, read_words};

fn names(alloc: Global, words: &[&str]) -> Result<Vec<Name>, Fail> {
    let mut names = Vec::new(alloc);
    for word in words {
        names.push(Name::new(alloc, *word)?)?;
    }
    Ok(names)
}

// which case of Usage the words are, 9 where they are a command
fn case(alloc: Global, words: &[&str]) -> Result<u8, Fail> {
    let names = names(alloc, words)?;
    Ok(match read_words(alloc, names.as_slice()) {
        Ok(_) => 9,
        Err(WordsFault::Usage(case)) => case,
        Err(WordsFault::Memory) => 10,
    })
}

// each row's words are its case
fn see(rt: &impl Abort, alloc: Global, rows: &[(&[&str], u8)]) -> Result<(), Fail> {
    for (words, wanted) in rows {
        same_at(rt, *words, case(alloc, words)?, *wanted);
    }
    Ok(())
}

#[test]
fn words_that_are_refused(rt: HostRuntime) -> Result<(), Fail> {
    const ROWS: &[(&[&str], u8)] = &[
        (&[], 0),
        (&["--io", "S"], 0),
        (&["CONF", "--copyback"], 0),
        (&["CONF", "-F"], 0),
        (&["CONF", "-R", "d0", "-R", "d0"], 0),
        (&["CONF", "--trace", "--trace"], 0),
        (&["CONF", "--map", "--io", "S", "--map"], 0),
        (&["CONF"], 1),
        (&["CONF", "--trace"], 1),
        (&["CONF", "--map"], 1),
        (&["CONF", "--io", "S", "--sweep", "1"], 1),
        (&["CONF", "--sweep", "1", "--clients", "2"], 2),
        (&["CONF", "--io", "S", "--ops", "2"], 2),
        (&["CONF", "--io", "S", "-w", "17"], 3),
        (&["CONF", "--io", "S", "-w", "two"], 3),
        (&["CONF", "--sweep", "1", "--clients", "0", "--ops", "0"], 3),
    ];
    see(&rt, rt.alloc(), ROWS)
}

#[test]
fn rebuilds_that_are_refused(rt: HostRuntime) -> Result<(), Fail> {
    const ROWS: &[(&[&str], u8)] = &[
        (&["CONF", "-F", "d0", "-R", "d0"], 1),
        (&["CONF", "-R", "d0", "-f", "d0"], 1),
        (&["CONF", "-F", "d0", "--trace"], 2),
        (&["CONF", "-F", "d0", "--graphs", "G"], 2),
        (&["CONF", "-R", "d0", "--ops", "1"], 2),
        (&["CONF", "-R", "d0", "-w", "17"], 3),
    ];
    see(&rt, rt.alloc(), ROWS)
}

#[test]
fn letters_that_are_refused(rt: HostRuntime) -> Result<(), Fail> {
    const ROWS: &[(&[&str], u8)] = &[
        (&["CONF", "-s", "-s"], 0),
        (&["CONF", "-f"], 0),
        (&["CONF", "-s", "-p"], 1),
        (&["CONF", "-s", "-m"], 1),
        (&["CONF", "--io", "S", "-m"], 1),
        (&["CONF", "-f", "d0", "-g", "d0", "-w", "1"], 1),
        (&["CONF", "-s", "--trace"], 2),
        (&["CONF", "-m", "--map"], 2),
        (&["CONF", "-i", "--map"], 2),
        (&["CONF", "-i", "-w", "17"], 2),
        (&["CONF", "-I", "one"], 3),
        (&["CONF", "-I", "4294967296"], 3),
        (&["CONF", "--resume", "-F", "d0"], 1),
        (&["CONF", "--io", "S", "--limit", "1"], 2),
        (&["CONF", "--resume", "--limit", "0"], 3),
        (&["CONF", "-F", "d0", "--limit", "4294967296"], 3),
    ];
    see(&rt, rt.alloc(), ROWS)
}

fn command<'a>(alloc: Global, words: &'a [Name]) -> Result<Command<'a>, Fail> {
    match read_words(alloc, words) {
        Ok(Invocation::OnArray { command }) => Ok(command),
        Ok(_) => Err("no command on an array".into()),
        Err(_) => Err("refused".into()),
    }
}

// an action's letter, and the component or the serial number behind it; '-' where it is none of a letter
fn letter(action: Action<'_>) -> (char, &str, u32) {
    match action {
        Action::Show => ('s', "", 0),
        Action::ShowMap => ('m', "", 0),
        Action::Init => ('i', "", 0),
        Action::Check => ('p', "", 0),
        Action::Rewrite => ('P', "", 0),
        Action::Print => ('G', "", 0),
        Action::Fail { comp } => ('f', comp, 0),
        Action::ShowLabel { comp } => ('g', comp, 0),
        Action::Label { serial } => ('I', "", serial),
        _ => ('-', "", 0),
    }
}

#[test]
fn letters_that_are_commands(rt: HostRuntime) -> Result<(), Fail> {
    const TABLE: &[(&[&str], (char, &str, u32))] = &[
        (&["C", "-s"], ('s', "", 0)),
        (&["-m", "C"], ('m', "", 0)),
        (&["C", "-i"], ('i', "", 0)),
        (&["-p", "C"], ('p', "", 0)),
        (&["C", "-P"], ('P', "", 0)),
        (&["C", "-G"], ('G', "", 0)),
        (&["C", "-f", "d1"], ('f', "d1", 0)),
        (&["-g", "s0", "C"], ('g', "s0", 0)),
        (&["C", "-I", "4294967295"], ('I', "", 4_294_967_295)),
    ];
    for row in TABLE {
        let (words, wanted) = *row;
        let words = names(rt.alloc(), words)?;
        let command = command(rt.alloc(), words.as_slice())?;
        same(&rt, command.conf, "C");
        same(&rt, letter(command.action), wanted);
    }
    Ok(())
}

// A column is rebuilt from a spare, beside a script.
fn see_rebuild_beside(rt: &impl Abort, action: Action<'_>) -> Result<(), Fail> {
    let Action::Rebuild {
        in_place: false,
        comp,
        limit: Some(7),
        beside: Some(beside),
        workers: 2,
        map: true,
    } = action
    else {
        return Err("another action".into());
    };
    same(rt, comp, "d1");
    same(rt, beside.script, "S");
    holds(rt, beside.trace);
    Ok(())
}

// A column is rebuilt where it was, by itself.
fn see_rebuild_alone(rt: &impl Abort, action: Action<'_>) -> Result<(), Fail> {
    let Action::Rebuild {
        in_place: true,
        comp,
        limit: None,
        beside: None,
        workers: 4,
        map: false,
    } = action
    else {
        return Err("another action".into());
    };
    same(rt, comp, "d1");
    Ok(())
}

// One that was paused goes on, by itself.
fn see_resume(action: Action<'_>) -> Result<(), Fail> {
    let Action::Resume {
        limit: Some(4_294_967_295),
        beside: None,
        workers: 4,
        map: true,
    } = action
    else {
        return Err("another action".into());
    };
    Ok(())
}

#[test]
fn rebuilds_that_are_commands(rt: HostRuntime) -> Result<(), Fail> {
    let words = names(
        rt.alloc(),
        &[
            "C", "--io", "S", "-F", "d1", "--trace", "-w", "2", "--limit", "7", "--map",
        ],
    )?;
    see_rebuild_beside(&rt, command(rt.alloc(), words.as_slice())?.action)?;
    let words = names(rt.alloc(), &["C", "-R", "d1"])?;
    see_rebuild_alone(&rt, command(rt.alloc(), words.as_slice())?.action)?;
    let words = names(
        rt.alloc(),
        &["C", "--map", "--limit", "4294967295", "--resume"],
    )?;
    see_resume(command(rt.alloc(), words.as_slice())?.action)
}

// A script runs, and no map is kept.
fn see_io(rt: &impl Abort, action: Action<'_>) -> Result<(), Fail> {
    let Action::Io {
        beside,
        workers: 0,
        map: false,
    } = action
    else {
        return Err("another action".into());
    };
    same(rt, beside.script, "S");
    holds(rt, beside.graphs.is_none());
    holds(rt, beside.trace);
    Ok(())
}

fn see_sweep(action: Action<'_>) -> Result<(), Fail> {
    let Action::Sweep {
        seed: 7,
        clients: 16,
        ops: 2048,
        workers: 4,
        map: true,
    } = action
    else {
        return Err("another action".into());
    };
    Ok(())
}

#[test]
fn words_that_are_commands(rt: HostRuntime) -> Result<(), Fail> {
    let words = names(rt.alloc(), &["C", "--io", "S", "-w", "0", "--trace"])?;
    let io = command(rt.alloc(), words.as_slice())?;
    same(&rt, io.conf, "C");
    see_io(&rt, io.action)?;
    let words = names(
        rt.alloc(),
        &[
            "--sweep",
            "7",
            "--clients",
            "16",
            "--ops",
            "2048",
            "C",
            "--map",
        ],
    )?;
    see_sweep(command(rt.alloc(), words.as_slice())?.action)
}

// What goes with a map: the array has to have labels, which are judged where they are written alone.
#[test]
fn maps_want_labels(rt: HostRuntime) -> Result<(), Fail> {
    const ROWS: &[(&[&str], (bool, bool, bool))] = &[
        (&["C", "--io", "S", "--map"], (true, true, true)),
        (&["C", "--io", "S"], (false, false, true)),
        (&["C", "--resume", "--map"], (true, true, true)),
        (&["C", "-m"], (true, true, false)),
    ];
    for row in ROWS {
        let (words, wanted) = *row;
        let names = names(rt.alloc(), words)?;
        let profile = command(rt.alloc(), names.as_slice())?.action.profile();
        let found = (profile.map, profile.labels, profile.writes);
        same_at(&rt, words, found, wanted);
    }
    Ok(())
}
