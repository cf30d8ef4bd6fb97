//! A label in its bytes, sectors that hold none, and labels that aren't the wanted one.
ghost use Rattle.raid_label.specs.Bytes.{IsHeld};

use crate::judging::same;
use raid_label::*;
use std::process::Abort;
use std::test::Fail;

// The label of column 0 of a new array of five columns.
const SAMPLE: Label = Label {
    version: 2,
    serial: 1001,
    counter: 1,
    column: 0,
    columns: 5,
    unit: 32,
    rows: 64,
    level: 53,
    clean: 0,
    b: 0,
    k: 0,
    r: 0,
    lambda: 0,
    seats: [0; 32],
    filling: 0,
    done: 0,
};

// A label of other numbers throughout.
const OTHER: Label = Label {
    version: 2,
    serial: 0x0403_0201,
    counter: 0x0807_0605,
    column: 9,
    columns: 10,
    unit: 11,
    rows: 12,
    level: 68,
    clean: 1,
    b: 14,
    k: 15,
    r: 16,
    lambda: 17,
    seats: [255; 32],
    filling: 10,
    done: 0x0c0b_0a09,
};

// A sector of this byte that the label is then written to.
fn sector_of(label: &Label, byte: u8) -> [u8; 512]
    requires { IsHeld label.now }
{
    let mut sector = [byte; 512];
    write_label(label, &mut sector);
    sector
}

fn are(rt: &impl Abort, bytes: &[u8], byte: u8) {
    same(rt, bytes.iter().all(|one| *one == byte), true);
}

fn holds(rt: &impl Abort, sector: &[u8; 512], label: Label) {
    same(rt, read_label(sector), Some(label));
}

const HEAD: [u8; 44] = [
    0x52, 0x46, 0x4c, 0x41, 0x42, 0x45, 0x4c, 0x31, 2, 0, 0, 0, 0xe9, 3, 0, 0, 1, 0, 0, 0, 0, 0, 0,
    0, 5, 0, 0, 0, 0x20, 0, 0, 0, 0x40, 0, 0, 0, 0x35, 0, 0, 0, 0, 0, 0, 0,
];

#[test]
fn a_label_in_its_bytes(rt: HostRuntime) -> Result<(), Fail> {
    let sector = sector_of(&SAMPLE, 0xee);
    same(&rt, sector.starts_with(&HEAD), true);
    are(&rt, &sector[44..], 0);
    holds(&rt, &sector, SAMPLE);
    Ok(())
}

const NUMBERS: [u8; 52] = [
    2, 0, 0, 0, 1, 2, 3, 4, 5, 6, 7, 8, 9, 0, 0, 0, 10, 0, 0, 0, 11, 0, 0, 0, 12, 0, 0, 0, 68, 0,
    0, 0, 1, 0, 0, 0, 14, 0, 0, 0, 15, 0, 0, 0, 16, 0, 0, 0, 17, 0, 0, 0,
];

#[test]
fn each_number_has_its_place(rt: HostRuntime) -> Result<(), Fail> {
    let sector = sector_of(&OTHER, 0xee);
    same(&rt, &sector[8..60] == NUMBERS.as_slice(), true);
    are(&rt, &sector[60..92], 255);
    same(&rt, sector[92..100] == [10, 0, 0, 0, 9, 10, 11, 12], true);
    are(&rt, &sector[100..], 0);
    holds(&rt, &sector, OTHER);
    Ok(())
}

// The sample's sector with this byte put there.
fn with_byte(at: usize, byte: u8) -> [u8; 512] {
    let mut sector = sector_of(&SAMPLE, 0);
    if at < 512 {
        sector[at] = byte;
    }
    sector
}

// Whether there is a label still, and the version that is found.
fn tells(rt: &impl Abort, at: usize, byte: u8, is_label: bool, version: u32) {
    let sector = with_byte(at, byte);
    same(rt, (at, read_label(&sector).is_some()), (at, is_label));
    same(rt, (at, found_version(&sector)), (at, version));
}

#[test]
fn a_sector_with_a_wrong_byte_holds_no_label(rt: HostRuntime) -> Result<(), Fail> {
    const ROWS: &[(usize, u8, bool, u32)] = &[
        (0, 0x72, false, 1),
        (7, 0x30, false, 1),
        (8, 1, true, 1),
        (8, 3, false, 3),
        (11, 1, false, 0x0100_0002),
        (40, 1, true, 2),
        (40, 2, false, 2),
        (43, 1, false, 2),
        (91, 255, true, 2),
        (92, 5, true, 2),
        (92, 6, false, 2),
        (96, 1, false, 2),
        (100, 1, false, 2),
        (511, 1, false, 2),
    ];
    for row in ROWS {
        let (at, byte, is_label, version) = *row;
        tells(&rt, at, byte, is_label, version);
    }
    Ok(())
}

#[test]
fn a_label_of_version_1_names_no_filling_column(rt: HostRuntime) -> Result<(), Fail> {
    let first = Label {
        version: 1,
        ..SAMPLE
    };
    let mut sector = sector_of(&first, 0xee);
    holds(&rt, &sector, first);
    sector[92] = 1;
    same(&rt, read_label(&sector).is_some(), false);
    Ok(())
}

// This is told of the label where the sample is wanted.
fn is_judged(rt: &impl Abort, label: Label, want: Result<(), LabelFault>) {
    same(rt, judge(Some(&label), 1, &SAMPLE), want);
}

// Of a label of another shape the first number that differs is told.
fn differs(rt: &impl Abort, label: Label, found: u32, wanted: u32) {
    is_judged(rt, label, Err(LabelFault::Shape { found, wanted }));
}

const LATER: Label = Label {
    counter: 7,
    clean: 1,
    seats: [255; 32],
    ..SAMPLE
};

#[test]
fn labels_that_the_array_wrote_are_the_wanted_ones(rt: HostRuntime) -> Result<(), Fail> {
    is_judged(&rt, SAMPLE, Ok(()));
    is_judged(&rt, LATER, Ok(()));
    Ok(())
}

const COLUMN: Label = Label {
    column: 3,
    ..SAMPLE
};

const SERIAL: Label = Label {
    serial: 7,
    column: 3,
    ..SAMPLE
};

const ROWS: Label = Label {
    rows: 65,
    serial: 7,
    ..SAMPLE
};

#[test]
fn the_first_fault_is_told(rt: HostRuntime) -> Result<(), Fail> {
    let fault = LabelFault::Column {
        found: 3,
        wanted: 0,
    };
    is_judged(&rt, COLUMN, Err(fault));
    let fault = LabelFault::Serial {
        found: 7,
        wanted: 1001,
    };
    is_judged(&rt, SERIAL, Err(fault));
    differs(&rt, ROWS, 65, 64);
    Ok(())
}

const LAMBDA: Label = Label {
    lambda: 1,
    rows: 65,
    ..SAMPLE
};

const R: Label = Label {
    r: 2,
    lambda: 1,
    ..SAMPLE
};

const K: Label = Label {
    k: 3,
    r: 2,
    ..SAMPLE
};

const B: Label = Label {
    b: 4,
    k: 3,
    ..SAMPLE
};

#[test]
fn then_the_first_number_of_the_design(rt: HostRuntime) -> Result<(), Fail> {
    differs(&rt, LAMBDA, 1, 0);
    differs(&rt, R, 2, 0);
    differs(&rt, K, 3, 0);
    differs(&rt, B, 4, 0);
    Ok(())
}

const LEVEL: Label = Label {
    level: 52,
    b: 4,
    ..SAMPLE
};

const UNIT: Label = Label {
    unit: 16,
    level: 52,
    ..SAMPLE
};

const COLUMNS: Label = Label {
    columns: 6,
    unit: 16,
    ..SAMPLE
};

#[test]
fn then_the_level_the_unit_and_the_columns(rt: HostRuntime) -> Result<(), Fail> {
    differs(&rt, LEVEL, 52, 53);
    differs(&rt, UNIT, 16, 32);
    differs(&rt, COLUMNS, 6, 5);
    Ok(())
}

#[test]
fn without_a_label_the_version_is_told(rt: HostRuntime) -> Result<(), Fail> {
    same(
        &rt,
        judge(None, 1, &SAMPLE),
        Err(LabelFault::NoLabel {
            found: 0,
            wanted: 0,
        }),
    );
    same(
        &rt,
        judge(None, 2, &SAMPLE),
        Err(LabelFault::NoLabel {
            found: 0,
            wanted: 0,
        }),
    );
    same(
        &rt,
        judge(None, 3, &SAMPLE),
        Err(LabelFault::Version {
            found: 3,
            wanted: 2,
        }),
    );
    Ok(())
}
