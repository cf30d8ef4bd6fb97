//! Reading a label.
ghost use Rattle.std.specs.Prelude.{◌≡◌, ◌==◌, ◌+◌, ◌≤◌, length, take, drop};
ghost use Rattle.std.specs.List.{list_all};
ghost use Rattle.raid_label.specs.Bytes.{label_in, fields_of, word_at, has_magic, is_well_formed, version_in};
ghost use Rattle.raid_label.specs.Steps.{is_first, is_second, has_zeros, names_filling};

use crate::label::{Label, MAGIC};

/// The label that a sector holds. None exactly where the sector isn't well formed.
#[tactic(auto, unfolding(crate::specs::Bytes::label_in))]
pub fn read_label(sector: &[u8]) -> Option<Label>
    requires { length sector.now ≡ 512 }
    ensures { result ≡ label_in sector.now }
{
    if is_well_formed(sector) {
        Some(fields(sector))
    } else {
        None
    }
}

/// The version that a sector names where its eight bytes are right, else 1.
#[tactic(auto, unfolding(crate::specs::Bytes::version_in))]
pub fn found_version(sector: &[u8]) -> u32
    requires { length sector.now ≡ 512 }
    ensures { result ≡ version_in sector.now }
{
    if has_magic(sector) {
        word(sector, 8)
    } else {
        1
    }
}

#[tactic(auto, unfolding(crate::specs::Bytes::is_well_formed, crate::specs::Steps::names_filling))]
fn is_well_formed(sector: &[u8]) -> bool
    requires { length sector.now ≡ 512 }
    ensures { result ≡ is_well_formed sector.now }
{
    has_magic(sector) && word(sector, 40) <= 1 && (is_first(sector) || is_second(sector))
}

// Whether what stands behind the seats is that of version 1.
fn is_first(sector: &[u8]) -> bool
    requires { length sector.now ≡ 512 }
    ensures { result ≡ is_first sector.now }
{
    word(sector, 8) == 1 && has_zeros(sector, 92)
}

// Or of version 2.
fn is_second(sector: &[u8]) -> bool
    requires { length sector.now ≡ 512 }
    ensures { result ≡ is_second sector.now }
{
    word(sector, 8) == 2 && names_filling(sector) && has_zeros(sector, 100)
}

// Whether the column that is filling is one of the columns, or none, of which no stripe is done then.
#[tactic(auto, unfolding(crate::specs::Steps::names_filling))]
fn names_filling(sector: &[u8]) -> bool
    requires { length sector.now ≡ 512 }
    ensures { result ≡ names_filling sector.now }
{
    let filling = word(sector, 92);
    filling <= word(sector, 24) && (filling != 0 || word(sector, 96) == 0)
}

// Whether zeros stand from there on.
fn has_zeros(sector: &[u8], at: usize) -> bool
    requires within { at ≤ 512 }
    requires long { length sector.now ≡ 512 }
    ensures { result ≡ has_zeros sector.now at }
{
    are_zeros(&sector[at..])
}

fn are_zeros(bytes: &[u8]) -> bool
    ensures { result ≡ list_all (λ b. b == 0) bytes.now }
{
    bytes.iter().all(|byte| *byte == 0)
}

// Whether the eight bytes are right.
#[tactic(auto, unfolding(crate::specs::Bytes::has_magic))]
fn has_magic(sector: &[u8]) -> bool
    requires { length sector.now ≡ 512 }
    ensures { result ≡ has_magic sector.now }
{
    &sector[..8] == MAGIC.as_slice()
}

// The number that stands at a place.
#[tactic(auto, unfolding(crate::specs::Bytes::word_at))]
fn word(sector: &[u8], at: usize) -> u32
    requires { at + 4 ≤ length sector.now }
    ensures { result ≡ word_at sector.now at }
{
    let mut bytes = [0; 4];
    bytes.copy_from_slice(&sector[at..at + 4]);
    u32::from_le_bytes(bytes)
}

fn seats(sector: &[u8]) -> [u8; 32]
    requires { length sector.now ≡ 512 }
    ensures { result ≡ take 32 (drop 60 sector.now) }
{
    let mut seats = [0; 32];
    seats.copy_from_slice(&sector[60..92]);
    seats
}

#[tactic(auto, unfolding(crate::specs::Bytes::fields_of))]
fn fields(sector: &[u8]) -> Label
    requires { length sector.now ≡ 512 }
    ensures { result ≡ fields_of sector.now }
{
    Label {
        version: word(sector, 8),
        serial: word(sector, 12),
        counter: word(sector, 16),
        column: word(sector, 20),
        columns: word(sector, 24),
        unit: word(sector, 28),
        rows: word(sector, 32),
        level: word(sector, 36),
        clean: word(sector, 40),
        b: word(sector, 44),
        k: word(sector, 48),
        r: word(sector, 52),
        lambda: word(sector, 56),
        seats: seats(sector),
        filling: word(sector, 92),
        done: word(sector, 96),
    }
}
