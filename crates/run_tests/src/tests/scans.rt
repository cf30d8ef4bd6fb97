//! Lists of components, and the arrays that they make up.
use super::letters::WIDE;
use super::*;

// Two members of an array of five columns, and a component without a label; then in its place one whose label is older,
// since it was kept from before the parity was initialised. A component without a sector isn't read, and has no label; one whose
// read fails is told apart from those.
#[test]
fn the_members_of_an_array_are_found(rt: HostRuntime) -> Result<(), Fail> {
    const SESSIONS: &[Session] = &[
        Session {
            conf: WIDE,
            other: "d4\nd0\nz\n",
            more: "d4\nd0\nd2\n",
            sectors: 2112,
            steps: &[
                Step::Run("r5 -I 1001", 0, "labels written 5\nstatus ok\n"),
                Step::Copy("d2", "d6"),
                Step::Run("r5 -i", 0, "parity initialised 64\nstatus ok\n"),
                Step::Run(
                    "t1 --scan",
                    0,
                    "set 1001 3 columns 5 level 53 members 2 of 5\nmember 0 d0\nmember 4 d4\nbare z\nstatus ok\n",
                ),
                Step::Calls("z", "read 0 1\n"),
                Step::Copy("d6", "d2"),
                Step::Run(
                    "t2 --scan",
                    0,
                    "set 1001 3 columns 5 level 53 members 2 of 5\nmember 0 d0\nmember 4 d4\nstale d2\nstatus ok\n",
                ),
                Step::Resize("z", 0),
                Step::Run(
                    "t1 --scan",
                    0,
                    "set 1001 3 columns 5 level 53 members 2 of 5\nmember 0 d0\nmember 4 d4\nbare z\nstatus ok\n",
                ),
                Step::Calls("z", ""),
            ],
            ..PLAIN
        },
        Session {
            other: "z\nd0 # the first\n\n",
            fails: &[("z", 0)],
            steps: &[
                Step::Run("t1 --scan", 0, "unread z\nbare d0\nstatus ok\n"),
                Step::Run("t1 --scan", 0, "bare z\nbare d0\nstatus ok\n"),
                Step::Run("t2 --scan", 0, "status ok\n"),
            ],
            ..PLAIN
        },
    ];
    play(&rt, rt.alloc(), SESSIONS)
}

const TWO: &str = "START array\n1 2 0\nSTART disks\nd3\nd4\nSTART layout\n1 1 1 1\n";

// An array of three columns and one of two, and a copy of the first one's column 1. Then the second has the serial and the
// counter of the first, and its components are foreign to that, whose first label comes first.
#[test]
fn arrays_are_told_apart(rt: HostRuntime) -> Result<(), Fail> {
    const SESSIONS: &[Session] = &[
        Session {
            script: TWO,
            other: "d4\nd2\nd1\nz\nd6\nd0\nd3\n",
            steps: &[
                Step::Run("r5 -I 1001", 0, "labels written 3\nstatus ok\n"),
                Step::Run("s1 -I 7", 0, "labels written 2\nstatus ok\n"),
                Step::Copy("d1", "d6"),
                Step::Run(
                    "t1 --scan",
                    0,
                    "set 7 1 columns 2 level 49 members 2 of 2\nmember 0 d3\nmember 1 d4\nset 1001 1 columns 3 level 53 members 3 of 3\nmember 0 d0\nmember 1 d1\nmember 2 d2\ndouble d6\nbare z\nstatus ok\n",
                ),
                Step::Run("s1 -I 1001", 0, "labels written 2\nstatus ok\n"),
                Step::Holds("z", ""),
            ],
            ..PLAIN
        },
        Session {
            script: TWO,
            other: "d2\nd4\nd1\nd3\n",
            steps: &[
                Step::Run("r5 -I 1001", 0, "labels written 3\nstatus ok\n"),
                Step::Run("s1 -I 1001", 0, "labels written 2\nstatus ok\n"),
                Step::Run(
                    "t1 --scan",
                    0,
                    "set 1001 1 columns 3 level 53 members 2 of 3\nmember 1 d1\nmember 2 d2\nforeign d4\nforeign d3\nstatus ok\n",
                ),
            ],
            ..PLAIN
        },
    ];
    play(&rt, rt.alloc(), SESSIONS)
}

// Lines that are no list, and what comes of a list whose text or component isn't there, or of a bay that fails: at its call of
// the text, and at that of the second component.
#[test]
fn a_list_is_refused(rt: HostRuntime) -> Result<(), Fail> {
    const SESSIONS: &[Session] = &[
        Session {
            conf: "d0 d1\n",
            script: "d0\nd1\nd0\n",
            other: "d0\n\nd0 d1\n",
            more: "d0\nd\u{e9}\n",
            steps: &[
                Step::Run("r5 --scan", 2, "status conf 1 1\n"),
                Step::Run("s1 --scan", 2, "status conf 3 7\n"),
                Step::Run("t1 --scan", 2, "status conf 3 7\n"),
                Step::Run("t2 --scan", 2, "status conf 2 1\n"),
                Step::Run("t3 --scan", 6, "status nofile t3\n"),
            ],
            ..PLAIN
        },
        Session {
            other: "d0\nd9\n",
            steps: &[
                Step::Run("t1 --scan", 6, "status nofile d9\n"),
                Step::Run("r5 -p", 0, "parity clean\nstatus ok\n"),
            ],
            ..PLAIN
        },
        Session {
            other: "d0\nd1\n",
            faults: &[0, 3],
            steps: &[
                Step::Run("t1 --scan", 5, "status bay\n"),
                Step::Run("t1 --scan", 5, "status bay\n"),
                Step::Run("t1 --scan", 0, "bare d0\nbare d1\nstatus ok\n"),
            ],
            ..PLAIN
        },
    ];
    play(&rt, rt.alloc(), SESSIONS)
}

fn push_name(alloc: Global, text: &mut String, front: &str, number: u32) -> Result<(), Fail> {
    let line = format!(in alloc; "{front}n{number}\n")?;
    text.push_str(&line)?;
    Ok(())
}

// So many names, one a line, each behind these words.
fn lines(alloc: Global, front: &str, count: u32) -> Result<String, Fail> {
    let mut text = String::new(alloc);
    for number in 0..count {
        push_name(alloc, &mut text, front, number)?;
    }
    Ok(text)
}

// A bay of so many components of one sector, and a list of so many names.
fn many(alloc: Global, count: u32, listed: u32) -> Result<MemBay<MemDisk>, Fail> {
    let list = lines(alloc, "", listed)?;
    let texts = vec![in alloc; text(alloc, "list", &list)?]?;
    let mut disks = Vec::new(alloc);
    for number in 0..count {
        let name = format!(in alloc; "n{number}")?;
        disks.push((Name::new(alloc, &name)?, zeros(alloc, 1, Vec::new(alloc))?))?;
    }
    Ok(MemBay::new(alloc, texts, disks, Vec::new(alloc)))
}

// A list of 1,024 names is read, and one of 1,025 is refused at its last line.
#[test]
fn a_list_has_1024_names_at_most(rt: HostRuntime) -> Result<(), Fail> {
    let alloc = rt.alloc();
    let mut most = many(alloc, 1024, 1024)?;
    let mut wanted = lines(alloc, "bare ", 1024)?;
    wanted.push_str("status ok\n")?;
    says(&rt, alloc, &mut most, "list --scan", 0, &wanted)?;
    let mut more = many(alloc, 1, 1025)?;
    says(
        &rt,
        alloc,
        &mut more,
        "list --scan",
        2,
        "status conf 1025 13\n",
    )
}

// A list of this one name ends with this number, and prints this.
fn says_of<R: Abort + Threads + Wait + Sync>(
    rt: &R,
    alloc: Global,
    name: &str,
    exit: u8,
    lines: &str,
) -> Result<(), Fail> {
    let texts = vec![in alloc; text(alloc, "list", name)?]?;
    let mut bay = MemBay::<MemDisk>::new(alloc, texts, Vec::new(alloc), Vec::new(alloc));
    says(rt, alloc, &mut bay, "list --scan", exit, lines)
}

// A name of 255 bytes is looked for, and one of 256 is refused.
#[test]
fn a_name_has_255_bytes_at_most(rt: HostRuntime) -> Result<(), Fail> {
    let alloc = rt.alloc();
    let mut name = String::new(alloc);
    for _ in 0..255 {
        name.push_str("n")?;
    }
    let wanted = {
        let name = name.as_str();
        format!(in alloc; "status nofile {name}\n")?
    };
    says_of(&rt, alloc, &name, 6, &wanted)?;
    name.push_str("n")?;
    says_of(&rt, alloc, &name, 2, "status conf 1 7\n")
}
