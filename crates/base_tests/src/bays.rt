//! Bays and sinks, in memory and over real files.
use crate::judging::{same, same_at};
use blk_disk::{Disk, Failed, MemDisk};
use raid_bay::*;
use std::alloc::Global;
use std::fs;
use std::io::ErrorKind;
use std::process::Abort;
use std::test::Fail;

// Takes a device, asks for its sectors, and puts it back.
fn sectors_of<B: Bay>(alloc: Global, bay: &mut B, name: &str) -> Result<u64, TakeFault> {
    let disk = bay.take(alloc, name)?;
    let sectors = disk.sectors();
    bay.put(name, disk);
    Ok(sectors)
}

fn is_text<B: Bay>(
    alloc: Global,
    bay: &mut B,
    name: &str,
    limit: usize,
    text: &[u8],
) -> Result<bool, TextFault> {
    let found = bay.text(alloc, name, limit)?;
    Ok(found.as_slice() == text)
}

// The text of that name, which may have so many bytes, is this one, or is refused for that cause.
fn gives<B: Bay>(
    rt: &impl Abort,
    alloc: Global,
    bay: &mut B,
    asked: (&str, usize),
    text: &[u8],
    answer: Result<bool, TextFault>,
) {
    let (name, limit) = asked;
    let given = is_text(alloc, bay, name, limit, text);
    same_at(rt, name, (limit, given), (limit, answer));
}

// The device of that name has so many sectors, or is refused for that cause.
fn lends<B: Bay>(
    rt: &impl Abort,
    alloc: Global,
    bay: &mut B,
    name: &str,
    answer: Result<u64, TakeFault>,
) {
    same_at(rt, name, sectors_of(alloc, bay, name), answer);
}

fn is_home(rt: &impl Abort, bay: &MemBay<MemDisk>, name: &str, want: bool) {
    same_at(rt, name, bay.disk(name).is_some(), want);
}

// A bay with the text `conf` of five bytes and the device `d0` of two sectors, whose calls 3 and 5 fail.
fn small_bay(alloc: Global) -> Result<MemBay<MemDisk>, Fail> {
    let bytes = vec![in alloc; 0; 1024]?;
    let disk = MemDisk::new(alloc, bytes, Vec::new(alloc), 0)?;
    let text = b"START".to_vec(alloc)?;
    let texts = vec![in alloc; (Name::new(alloc, "conf")?, text)]?;
    let disks = vec![in alloc; (Name::new(alloc, "d0")?, disk)]?;
    let fails = vec![in alloc; 3, 5]?;
    Ok(MemBay::new(alloc, texts, disks, fails))
}

// A device that is taken is gone till it's put back.
fn lends_once(rt: &impl Abort, alloc: Global, bay: &mut MemBay<MemDisk>) -> Result<(), Fail> {
    let disk = bay.take(alloc, "d0")?;
    is_home(rt, bay, "d0", false);
    same(rt, bay.take(alloc, "d0").err(), Some(TakeFault::Missing));
    bay.put("d0", disk);
    is_home(rt, bay, "d0", true);
    is_home(rt, bay, "d1", false);
    Ok(())
}

#[test]
fn memory_gives_texts_and_lends_devices(rt: HostRuntime) -> Result<(), Fail> {
    let alloc = rt.alloc();
    let mut bay = small_bay(alloc)?;
    const TEXTS: &[(&str, usize, Result<bool, TextFault>)] = &[
        ("conf", 5, Ok(true)),
        ("conf", 4, Err(TextFault::TooLong)),
        ("d0", 5, Err(TextFault::Missing)),
        ("conf", 5, Err(TextFault::Fault)),
    ];
    for row in TEXTS {
        let (name, limit, answer) = *row;
        gives(&rt, alloc, &mut bay, (name, limit), b"START", answer);
    }
    const DISKS: &[(&str, Result<u64, TakeFault>)] = &[
        ("conf", Err(TakeFault::Missing)),
        ("d0", Err(TakeFault::Fault)),
        ("d0", Ok(2)),
        ("d0", Ok(2)),
    ];
    for row in DISKS {
        let (name, answer) = *row;
        lends(&rt, alloc, &mut bay, name, answer);
    }
    lends_once(&rt, alloc, &mut bay)
}

#[test]
fn memory_appends_what_fits(rt: HostRuntime) -> Result<(), Fail> {
    let mut sink = MemSink::new(rt.alloc(), 6, vec![in rt.alloc(); 1]?)?;
    const PIECES: &[(&str, Result<(), Failed>, &str)] = &[
        ("abc", Ok(()), "abc"),
        ("d", Err(Failed), "abc"),
        ("de", Ok(()), "abcde"),
        ("fgh", Err(Failed), "abcdef"),
        ("", Ok(()), "abcdef"),
    ];
    for row in PIECES {
        let (piece, answer, held) = *row;
        same_at(&rt, piece, sink.put(piece.as_bytes()), answer);
        same_at(&rt, piece, sink.bytes(), held.as_bytes());
    }
    Ok(())
}

#[test]
fn files_are_texts_and_devices(rt: HostRuntime) -> Result<(), Fail> {
    let alloc = rt.alloc();
    let mut bay = FileBay::new(rt.clone()?);
    fs::write(&rt, "a_text", "START array\n")?;
    fs::write(&rt, "a_device", vec![in alloc; 1u8; 1100]?.as_slice())?;
    const TEXTS: &[(&str, usize, Result<bool, TextFault>)] = &[
        ("a_text", 12, Ok(true)),
        ("a_text", 11, Err(TextFault::TooLong)),
        ("no_text", 12, Err(TextFault::Missing)),
        (".", 12, Err(TextFault::Fault)),
    ];
    for row in TEXTS {
        let (name, limit, answer) = *row;
        gives(
            &rt,
            alloc,
            &mut bay,
            (name, limit),
            b"START array\n",
            answer,
        );
    }
    const DISKS: &[(&str, Result<u64, TakeFault>)] = &[
        ("a_device", Ok(2)),
        ("a_device", Ok(2)),
        ("no_device", Err(TakeFault::Missing)),
        (".", Err(TakeFault::Fault)),
    ];
    for row in DISKS {
        let (name, answer) = *row;
        lends(&rt, alloc, &mut bay, name, answer);
    }
    fs::remove_file(&rt, "a_text")?;
    fs::remove_file(&rt, "a_device")?;
    Ok(())
}

// The file of the bay's last fault, and whether it was in use.
fn last_fault(bay: &FileBay) -> Option<(&str, bool)> {
    let fault = bay.fault()?;
    let in_use = fault.error.kind() == ErrorKind::ResourceBusy;
    Some((fault.name.text(), in_use))
}

#[test]
fn a_file_serves_one_component(rt: HostRuntime) -> Result<(), Fail> {
    let alloc = rt.alloc();
    let mut bay = FileBay::new(rt.clone()?);
    fs::write(&rt, "one_file", vec![in alloc; 1u8; 1024]?.as_slice())?;
    fs::hard_link(&rt, "one_file", "its_other_name")?;
    let disk = bay.take(alloc, "one_file")?;
    lends(
        &rt,
        alloc,
        &mut bay,
        "its_other_name",
        Err(TakeFault::Fault),
    );
    same(&rt, last_fault(&bay), Some(("its_other_name", true)));
    bay.put("one_file", disk);
    lends(&rt, alloc, &mut bay, "its_other_name", Ok(2));
    fs::remove_file(&rt, "one_file")?;
    fs::remove_file(&rt, "its_other_name")?;
    Ok(())
}

// The files that the bay lent, with whether a call of them failed for the file's end.
fn failed(alloc: Global, bay: &FileBay) -> Result<Vec<(&str, bool)>, Fail> {
    let mut files = Vec::new(alloc);
    for file in bay.lent() {
        let kind = file.cause.map(|error| error.kind());
        files.push((file.name.text(), kind == Some(ErrorKind::UnexpectedEof)))?;
    }
    Ok(files)
}

// Reads sector 0, if there is one.
fn read_first<D: Disk>(disk: &mut D) -> Option<Result<(), Failed>> {
    if disk.sectors() == 0 {
        return None;
    }
    Some(disk.read(0, &mut [0; 512]))
}

#[test]
fn a_file_that_fails_keeps_why(rt: HostRuntime) -> Result<(), Fail> {
    let alloc = rt.alloc();
    let mut bay = FileBay::new(rt.clone()?);
    fs::write(&rt, "sound", vec![in alloc; 1u8; 512]?.as_slice())?;
    fs::write(&rt, "cut", vec![in alloc; 1u8; 512]?.as_slice())?;
    lends(&rt, alloc, &mut bay, "sound", Ok(1));
    let mut disk = bay.take(alloc, "cut")?;
    fs::write(&rt, "cut", "short")?;
    same(&rt, read_first(&mut disk), Some(Err(Failed)));
    bay.put("cut", disk);
    let files = failed(alloc, &bay)?;
    same(&rt, files.as_slice(), &[("sound", false), ("cut", true)]);
    fs::remove_file(&rt, "sound")?;
    fs::remove_file(&rt, "cut")?;
    Ok(())
}

// How many bytes the process has written so far, by the system's count.
fn written(rt: &HostRuntime) -> Result<u64, Fail> {
    let counts = fs::read_to_string(rt, "/proc/self/io")?;
    for line in counts.lines() {
        if let Some(count) = line.strip_prefix("wchar: ") {
            return Ok(count.parse::<u64>()?);
        }
    }
    Err("the system counts no bytes".into())
}

#[test]
fn standard_output_takes_all_bytes(rt: HostRuntime) -> Result<(), Fail> {
    let before = written(&rt)?;
    let mut out = OutSink::new(rt.clone()?);
    same(&rt, out.put(b"status ok\n"), Ok(()));
    same(&rt, written(&rt)?, before.saturating_add(10));
    Ok(())
}
