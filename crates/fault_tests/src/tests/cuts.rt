//! A configuration is cut at each of its bytes.
use super::realistic::{CONF, NAMES, SCRIPT, labelled};
use super::*;

/// The least number of bytes left that are refused so, up to the next of the table: their line and code, or none where they
/// are read.
type Cut = (usize, Option<(u32, u8)>);

// Words are judged as they stand: `START` and its parts, a section's name and its parts, numbers and names. A part of `START`
// is a surplus disk or spare where these stand. Where the text ends too early, the line is that behind the last: it lacks a
// line of the array, the layout or the queue, a section, or disks and spares.
const CUTS: &[Cut] = &[
    (0, Some((1, 3))),
    (1, Some((1, 1))),
    (7, Some((1, 3))),
    (11, Some((2, 1))),
    (15, Some((3, 3))),
    (19, Some((3, 1))),
    (25, Some((3, 3))),
    (29, Some((4, 5))),
    (31, Some((5, 5))),
    (34, Some((6, 5))),
    (37, Some((7, 5))),
    (40, Some((8, 5))),
    (43, Some((9, 3))),
    (46, Some((9, 5))),
    (50, Some((9, 1))),
    (52, Some((9, 3))),
    (56, Some((10, 6))),
    (58, Some((11, 3))),
    (61, Some((11, 6))),
    (65, Some((11, 1))),
    (67, Some((11, 3))),
    (72, Some((12, 1))),
    (81, None),
    (83, Some((13, 1))),
    (89, Some((13, 3))),
    (93, Some((14, 1))),
    (95, Some((14, 10))),
    (98, Some((14, 1))),
    (100, None),
];

// The text has 103 bytes; the last cut is the whole of it.
const ENDS: usize = 104;

// What comes of the cut behind so many bytes.
fn due(bytes: usize) -> Option<(u32, u8)> {
    let mut refused = None;
    for (from, answer) in CUTS {
        if *from <= bytes {
            refused = *answer;
        }
    }
    refused
}

// A cut that is read is printed as it is, with its last line ended.
fn printed(alloc: Global, text: &str) -> Result<String, Fail> {
    let end = if text.ends_with("\n") { "" } else { "\n" };
    Ok(format!(in alloc; "{text}{end}status ok\n")?)
}

// A bay of all cuts: `c` and the number of bytes names each.
fn bay_of_cuts(alloc: Global, held: &Held) -> Result<MemBay<MemDisk>, Fail> {
    let mut texts = vec![in alloc; text(alloc, "s1", SCRIPT)?]?;
    for bytes in 0..ENDS {
        let name = format!(in alloc; "c{bytes}")?;
        let cut = CONF.get(..bytes).unwrap_or("");
        texts.push(text(alloc, &name, cut)?)?;
    }
    let disks = disks_of(alloc, held, None)?;
    Ok(MemBay::new(alloc, texts, disks, Vec::new(alloc)))
}

// The cut behind so many bytes is refused, or read.
fn is_due<R: Abort + Threads + Wait + Sync>(
    rt: &R,
    alloc: Global,
    bay: &mut MemBay<MemDisk>,
    bytes: usize,
) -> Result<(), Fail> {
    match due(bytes) {
        Some((line, code)) => {
            let words = format!(in alloc; "c{bytes} --io s1 -w 0")?;
            let lines = format!(in alloc; "status conf {line} {code}\n")?;
            prints(rt, alloc, bay, (bytes, 0), &words, (2, lines.as_bytes()))
        }
        None => {
            let words = format!(in alloc; "c{bytes} -G")?;
            let lines = printed(alloc, CONF.get(..bytes).unwrap_or(""))?;
            prints(rt, alloc, bay, (bytes, 0), &words, (0, lines.as_bytes()))
        }
    }
}

// Behind all of them no component has had a call.
#[test]
fn a_configuration_is_cut_at_each_byte(rt: HostRuntime) -> Result<(), Fail> {
    let alloc = rt.alloc();
    let held = labelled(&rt, alloc)?;
    same_at(&rt, ENDS, CONF.len(), 103);
    let mut bay = bay_of_cuts(alloc, &held)?;
    for bytes in 0..ENDS {
        is_due(&rt, alloc, &mut bay, bytes)?;
    }
    for component in 0..NAMES.len() {
        same_at(&rt, component, calls(&bay, &held, component)?, 0);
    }
    hold(&rt, &bay, 0, &held)
}
