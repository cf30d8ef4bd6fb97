//! Writing a label.
ghost use Rattle.std.specs.Prelude.{◌≡◌, ◌+◌, ◌≤◌, length, take, ◌++◌};
ghost use Rattle.std.specs.Int.{w32, to_le_bytes};
ghost use Rattle.raid_label.specs.Bytes.{bytes_of, IsHeld};
ghost use Rattle.raid_label.specs.Steps.{words_of};

use crate::label::{Label, MAGIC};

/// Writes a label over a sector, all 512 bytes. It is one that a well-formed sector may hold.
pub fn write_label(label: &Label, sector: &mut [u8])
    requires long { length sector.old ≡ 512 }
    requires held { IsHeld label.now }
    ensures { sector.new ≡ bytes_of label.now }
{
    put(sector, 0, &MAGIC);
    let words = words(label);
    for i in 0..13 {
        put_word(sector, 8 + 4 * i, words[i]);
    }
    put_seats(sector, &label.seats);
    put_word(sector, 92, label.filling);
    put_word(sector, 96, label.done);
    put(sector, 100, &[0; 412]);
}

// Its numbers, in their order.
fn words(label: &Label) -> [u32; 13]
    ensures { result ≡ words_of label.now }
{
    [
        label.version,
        label.serial,
        label.counter,
        label.column,
        label.columns,
        label.unit,
        label.rows,
        label.level,
        label.clean,
        label.b,
        label.k,
        label.r,
        label.lambda,
    ]
}

// Puts a number behind the bytes that are in place.
fn put_word(sector: &mut [u8], at: usize, word: u32)
    requires { at + 4 ≤ length sector.old }
    ensures { take (at + 4) sector.new ≡ take at sector.old ++ to_le_bytes w32 word }
{
    put(sector, at, &word.to_le_bytes());
}

// Puts the seats behind the bytes that are in place.
fn put_seats(sector: &mut [u8], seats: &[u8; 32])
    requires { length sector.old ≡ 512 }
    ensures { take 92 sector.new ≡ take 60 sector.old ++ seats.now }
{
    put(sector, 60, seats);
}

// Puts bytes behind those that are in place.
fn put(sector: &mut [u8], at: usize, bytes: &[u8])
    requires { at + length bytes.now ≤ length sector.old }
    ensures { take (at + length bytes.now) sector.new ≡ take at sector.old ++ bytes.now }
{
    sector[at..at + bytes.len()].copy_from_slice(bytes);
}
