//! What is told beside each status. The statuses are those of the formats, with what each is about.
use crate::judging::same_at;
use raid_bay::Name;
use std::alloc::Global;
use std::process::Abort;
use std::test::Fail;
use top_help::HELP;
use top_hints::{Trouble, doubt, hint, warning};
use top_status::Status;

fn names(alloc: Global, words: &[&str]) -> Result<Vec<Name>, Fail> {
    let mut names = Vec::new(alloc);
    for word in words {
        names.push(Name::new(alloc, *word)?)?;
    }
    Ok(names)
}

// a call with these words that ended so is told by this sentence
fn says(
    rt: &impl Abort,
    alloc: Global,
    words: &[&str],
    status: &Status,
    sentence: &str,
) -> Result<(), Fail> {
    let names = names(alloc, words)?;
    let trouble = Trouble {
        name: "d1",
        cause: "Permission denied",
    };
    let text = hint(alloc, &names, status, Some(trouble))?;
    same_at(rt, sentence, text.as_slice(), sentence.as_bytes());
    Ok(())
}

// the sentence of words that aren't a command
fn unformed(alloc: Global) -> Result<String, Fail> {
    Ok(format!(in alloc;
        "raidctl: the words can't be taken apart: an option twice or without its value, a word too many, one that isn't UTF-8, or no CONF\n{HELP}"
    )?)
}

// the sentence of words with an option that there isn't
fn no_option(alloc: Global, option: &str) -> Result<String, Fail> {
    Ok(format!(in alloc; "raidctl: {option}: there is no such option\n{HELP}")?)
}

#[test]
fn each_refused_word_is_named(rt: HostRuntime) -> Result<(), Fail> {
    const ROWS: &[(&[&str], u8, &str)] = &[
        (
            &["CONF"],
            1,
            "raidctl: no action: one of --io, --sweep, --resume, --scan, --sim, --layout and the letters is wanted; see raidctl --help\n",
        ),
        (
            &["CONF", "-s", "-p"],
            1,
            "raidctl: more than one action: only --io goes beside another: -F, -R or --resume\n",
        ),
        (
            &["CONF", "-s", "--trace"],
            2,
            "raidctl: --trace needs --io\n",
        ),
        (
            &["CONF", "-i", "-w", "2"],
            2,
            "raidctl: -w needs --io, --sweep, -F, -R or --resume\n",
        ),
        (
            &["CONF", "--io", "S", "--limit", "3"],
            2,
            "raidctl: --limit needs -F, -R or --resume\n",
        ),
        (
            &["CONF", "-P", "--map"],
            2,
            "raidctl: --map needs --io, --sweep, -F, -R or --resume\n",
        ),
        (
            &["CONF", "--sweep", "1"],
            2,
            "raidctl: --sweep needs --clients and --ops\n",
        ),
        (
            &["CONF", "--io", "S", "-w", "17"],
            3,
            "raidctl: -w 17: not a number from 0 to 16\n",
        ),
        (
            &["CONF", "-I", "0x10"],
            3,
            "raidctl: -I 0x10: not a number from 0 to 4294967295\n",
        ),
        (
            &["CONF", "-f", "nope"],
            3,
            "raidctl: -f nope: not a name of the configuration's disks\n",
        ),
        (
            &["CONF", "-g", "a\u{1b}b"],
            3,
            "raidctl: -g a?b: not a name of the configuration's disks and spares\n",
        ),
        (
            &["CONF", "--sim", "lifo"],
            3,
            "raidctl: --sim lifo: the queue is fifo, sstf or scan\n",
        ),
        (
            &["CONF", "-i", "--adopt"],
            2,
            "raidctl: --adopt needs -s, -p, -P, -f, -F or -R\n",
        ),
        (
            &["CONF", "-s", "--rows", "4"],
            2,
            "raidctl: --rows needs --layout\n",
        ),
        (
            &["CONF", "--layout", "--rows", "0"],
            3,
            "raidctl: --rows 0: not a number from 1 to 1048576\n",
        ),
        (
            &["CONF", "--layout", "--rows", "5"],
            3,
            "raidctl: --rows 5: the layout can't have so many rows: whole tables are wanted, of at most 1048576 stripes\n",
        ),
    ];
    let alloc = rt.alloc();
    let formless = unformed(alloc)?;
    says(
        &rt,
        alloc,
        &["CONF", "-f"],
        &Status::Usage(0),
        formless.as_str(),
    )?;
    for row in ROWS {
        let (words, case, sentence) = *row;
        says(&rt, alloc, words, &Status::Usage(case), sentence)?;
    }
    Ok(())
}

// These words have an option that there isn't, and which it is.
const UNKNOWN: &[(&[&str], &str)] = &[
    (&["-v", "-i", "CONF"], "-v"),
    (&["CONF", "-B"], "-B"),
    (&["CONF", "--copyback", "-S"], "--copyback"),
    (&["CONF", "--ops=3", "--ioo=S"], "--ioo=S"),
    (&["CONF", "--i", "S"], "--i"),
    (&["CONF", "-f", "-d1"], "-d1"),
    (&["CONF", "--resume", "--limits", "3"], "--limits"),
    (&["CONF", "--io", "S", "--maps"], "--maps"),
];

// These are refused for another cause.
const FORMLESS: &[&[&str]] = &[
    &[],
    &["--io", "S", "--graphs", "G", "--trace", "-w", "4"],
    &["--sweep", "1", "--clients", "2", "--ops", "3"],
    &["-s", "-i", "-p", "-P", "-G", "-f", "d0", "-g", "d1"],
    &["-I", "7", "-F", "d2", "-R", "d3"],
    &["--scan", "--sim", "fifo"],
    &["-s", "--adopt"],
    &["--layout", "--rows", "3"],
    &["--resume", "--limit", "3"],
    &["-m", "--io", "S", "--map"],
    &["CONF", "--", "-S"],
    &["CONF", "-", "-sS"],
];

#[test]
fn an_option_that_there_isnt_is_named(rt: HostRuntime) -> Result<(), Fail> {
    let alloc = rt.alloc();
    for row in UNKNOWN {
        let (words, option) = *row;
        let sentence = no_option(alloc, option)?;
        says(&rt, alloc, words, &Status::Usage(0), sentence.as_str())?;
    }
    let sentence = unformed(alloc)?;
    for words in FORMLESS {
        says(&rt, alloc, *words, &Status::Usage(0), sentence.as_str())?;
    }
    Ok(())
}

// a call that has a configuration, a script and a file of graphs ended so, which is told by this sentence
fn told(rt: &impl Abort, alloc: Global, status: Status, sentence: &str) -> Result<(), Fail> {
    const WORDS: &[&str] = &["CONF", "--io", "S", "--graphs", "G", "--trace"];
    says(rt, alloc, WORDS, &status, sentence)
}

#[test]
fn each_fault_of_a_text_has_a_sentence(rt: HostRuntime) -> Result<(), Fail> {
    let alloc = rt.alloc();
    let level = "raidctl: CONF, line 3: the level isn't 0, 1, 4, 5, C, T or D\n";
    told(&rt, alloc, Status::Conf(3, 8), level)?;
    let column = "raidctl: S, line 2: the array has no such column\n";
    told(&rt, alloc, Status::Script(2, 5), column)?;
    let trace =
        "raidctl: S: the trace might have more than 1048576 events: fewer items, or no --trace\n";
    told(&rt, alloc, Status::Script(0, 8), trace)?;
    let end = "raidctl: G, line 7: the text ends within a graph\n";
    told(&rt, alloc, Status::GraphText(7, 6), end)?;
    let missing =
        "raidctl: x?y: no such file; names are relative to the working directory, not to CONF\n";
    told(
        &rt,
        alloc,
        Status::NoFile(Name::new(alloc, "x\ny")?),
        missing,
    )?;
    let long = "raidctl: big: longer than 16777216 bytes\n";
    told(&rt, alloc, Status::LongText(Name::new(alloc, "big")?), long)
}

// column 1 and this one have lost the array by stripe 9
fn lost(second: u32) -> Status {
    Status::Lost {
        first: 1,
        second,
        stripe: 9,
    }
}

#[test]
fn each_state_of_an_array_has_a_sentence(rt: HostRuntime) -> Result<(), Fail> {
    let alloc = rt.alloc();
    let two =
        "raidctl: the array is lost: stripe 9 lacks the units of columns 1 and 2; if a call was stopped as it wrote labels, begin with raidctl CONF -s --adopt; see docs/ADMIN.md, 'A lost array'\n";
    told(&rt, alloc, lost(2), two)?;
    let one =
        "raidctl: the array is lost: stripe 9 lacks the unit of column 1; if a call was stopped as it wrote labels, begin with raidctl CONF -s --adopt; see docs/ADMIN.md, 'A lost array'\n";
    told(&rt, alloc, lost(1), one)?;
    let small = Status::Small {
        column: 1,
        has: 117,
        needs: 128,
    };
    let sectors = "raidctl: the disk of column 1 has 117 sectors, and 128 are needed\n";
    told(&rt, alloc, small, sectors)?;
    let parity =
        "raidctl: stripes that aren't in sync: 3; -P rewrites their check units from the data\n";
    told(&rt, alloc, Status::NotInSync(3), parity)?;
    let spare =
        "raidctl: no free spare (each is used, failed or small: see -s); -f fails the column alone, -R rebuilds it on its own disk\n";
    told(&rt, alloc, Status::NoSpare, spare)?;
    let none =
        "raidctl: no column is being rebuilt (see -s): there is nothing to resume; -F or -R begins a rebuild\n";
    told(&rt, alloc, Status::NoRebuild, none)?;
    let other =
        "raidctl: column 2 is being rebuilt: --resume goes on with it, before another can be begun\n";
    told(&rt, alloc, Status::Rebuilding(2), other)
}

#[test]
fn each_fault_of_the_machine_has_a_sentence(rt: HostRuntime) -> Result<(), Fail> {
    let alloc = rt.alloc();
    let denied = "raidctl: d1: Permission denied\n";
    told(&rt, alloc, Status::Ok, "")?;
    told(&rt, alloc, Status::BayFault, denied)?;
    told(&rt, alloc, Status::SinkFault, denied)?;
    let memory = "raidctl: not enough memory; nothing was written\n";
    told(&rt, alloc, Status::Memory, memory)
}

// a label's column, code, what was found and what is wanted; and the sentence
const LABELS: &[(u32, u8, u32, u32, &str)] = &[
    (
        3,
        1,
        0,
        0,
        "raidctl: column 3 has no label: -I SERIAL writes the first ones of an array, -R COMP that of a new disk; where a rebuild was stopped as it wrote labels, -f COMP --adopt goes on without it\n",
    ),
    (
        3,
        2,
        8,
        7,
        "raidctl: the label of column 3 has serial number 8 where 7 is wanted\n",
    ),
    (
        3,
        3,
        1,
        3,
        "raidctl: the disk at column 3 is that of column 1\n",
    ),
    (
        3,
        4,
        4,
        5,
        "raidctl: the label of column 3 is of an array of another shape: it has 4 where 5 is wanted\n",
    ),
    (
        3,
        5,
        2,
        1,
        "raidctl: the label of column 3 has version 2 where 1 is wanted\n",
    ),
    (
        0,
        6,
        4294901761,
        4294901760,
        "raidctl: the newest label has counter 4294901761, and labels are written up to 4294901760\n",
    ),
];

#[test]
fn each_fault_of_a_label_has_a_sentence(rt: HostRuntime) -> Result<(), Fail> {
    for row in LABELS {
        let (column, code, found, wanted, sentence) = *row;
        let status = Status::Label {
            column,
            code,
            found,
            wanted,
        };
        told(&rt, rt.alloc(), status, sentence)?;
    }
    Ok(())
}

#[test]
fn each_code_of_a_script_has_words(rt: HostRuntime) -> Result<(), Fail> {
    let alloc = rt.alloc();
    const ROWS: &[(u8, &str)] = &[
        (9, "two spans of the item share a block"),
        (
            10,
            "a graph can't be half of a joined one, or the first has a stripe that its span doesn't touch",
        ),
        (
            11,
            "the stripes of the first span aren't all before those of the second",
        ),
        (12, "the two graphs are too large together"),
        (13, "more than 64 joins"),
    ];
    for row in ROWS {
        let (code, words) = *row;
        let sentence = format!(in alloc; "raidctl: S, line 6: {words}\n")?;
        says(
            &rt,
            alloc,
            &["CONF", "--io", "S"],
            &Status::Script(6, code),
            sentence.as_str(),
        )?;
    }
    Ok(())
}

#[test]
fn a_component_that_an_array_cant_lose_is_told_apart(rt: HostRuntime) -> Result<(), Fail> {
    let lost = Status::Lost {
        first: 1,
        second: 2,
        stripe: 0,
    };
    says(
        &rt,
        rt.alloc(),
        &["CONF", "-f", "d2"],
        &lost,
        "raidctl: the array is lost, or would be without the component: stripe 0 lacks the units of columns 1 and 2; if a call was stopped as it wrote labels, begin with raidctl CONF -s --adopt; see docs/ADMIN.md, 'A lost array'\n",
    )
}

// a call with these words is told of line 4 of that text
fn names_the_text(
    rt: &impl Abort,
    alloc: Global,
    words: &[&str],
    sentence: &str,
) -> Result<(), Fail> {
    says(rt, alloc, words, &Status::Conf(4, 7), sentence)
}

#[test]
fn lists_and_requests_stand_in_the_place_of_a_configuration(rt: HostRuntime) -> Result<(), Fail> {
    let alloc = rt.alloc();
    let said =
        "raidctl: L, line 4: a name that stands already, is longer than 255 bytes, or is absent as a spare\n";
    names_the_text(&rt, alloc, &["L", "--scan"], said)?;
    names_the_text(&rt, alloc, &["L", "--sim", "scan"], said)?;
    names_the_text(&rt, alloc, &["L", "--layout"], said)?;
    names_the_text(&rt, alloc, &["L", "-s"], said)
}

#[test]
fn a_component_that_failed_is_named(rt: HostRuntime) -> Result<(), Fail> {
    let text = warning(
        rt.alloc(),
        Trouble {
            name: "d1",
            cause: "Input/output error (os error 5)",
        },
    )?;
    let wanted = "raidctl: warning: d1 failed in this call: Input/output error (os error 5)\n";
    same_at(&rt, "d1", text.as_slice(), wanted.as_bytes());
    Ok(())
}

// A call that adopts, and one that goes by no label, aren't told to.
#[test]
fn who_adopts_is_not_told_to(rt: HostRuntime) -> Result<(), Fail> {
    const CALLS: &[&[&str]] = &[
        &["CONF", "-P", "--adopt"],
        &["CONF", "-p", "--adopt"],
        &["CONF", "-I", "7"],
    ];
    let sentence =
        "raidctl: the array is lost: stripe 9 lacks the unit of column 1; see docs/ADMIN.md, 'A lost array'\n";
    for words in CALLS {
        says(&rt, rt.alloc(), *words, &lost(1), sentence)?;
    }
    Ok(())
}

const DOUBT: &str =
    "raidctl: warning: the array wasn't closed in order, and lacks a column: in stripes that were being written, what is read in the place of its units may be wrong, also of blocks that nobody wrote; see docs/ADMIN.md, 'A lost array'\n";

const ADOPTABLE: &str =
    "raidctl: warning: the array wasn't closed in order, and lacks a column: in stripes that were being written, what is read in the place of its units may be wrong, also of blocks that nobody wrote; if a call was stopped as it wrote labels, begin with raidctl CONF -s --adopt; see docs/ADMIN.md, 'A lost array'\n";

// The words of a call, whether the newest label names a device for the column, and what is told. A call that writes labels
// has written them by then, and left that device out.
const DOUBTS: &[(&[&str], bool, &str)] = &[
    (&["CONF", "-s"], true, ADOPTABLE),
    (&["CONF", "-p"], true, ADOPTABLE),
    (&["CONF", "-s"], false, DOUBT),
    (&["CONF", "-s", "--adopt"], true, DOUBT),
    (&["CONF", "--io", "S"], true, DOUBT),
    (&["CONF", "-P"], true, DOUBT),
    (&["CONF", "-P", "--adopt"], false, DOUBT),
];

#[test]
fn an_array_in_doubt_is_warned_of(rt: HostRuntime) -> Result<(), Fail> {
    let alloc = rt.alloc();
    for (words, named, sentence) in DOUBTS {
        let text = doubt(alloc, &names(alloc, *words)?, *named)?;
        same_at(&rt, *words, text.as_slice(), sentence.as_bytes());
    }
    Ok(())
}
