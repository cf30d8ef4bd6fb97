//! A line, in room of its own.
ghost use Rattle.std.specs.Prelude.{◌≡◌, ◌≤◌, ◌+◌, ◌*◌, ◌++◌, [], length, take, is_ok, OnErr};
ghost use Rattle.hex.specs.Hex.{encode_lower};
ghost use Rattle.blk_disk.specs.Disk.{Rose};
ghost use Rattle.raid_bay.specs.Sink.{Puts};

use blk_disk::Failed;
use itoa::{Buffer, Integer};
use raid_bay::Sink;
use std::marker::Model;

// The longest line names a block and a count, and has 1,024 digits of a sector.
const ROOM: usize = 1200;

/// A line of at most 1,200 bytes, which contracts see as its bytes.
#[derive(Drop)]
pub struct Line {
    bytes: [u8; ROOM],
    len: usize,
}

impl Model for Line {
    ghost use Rattle.std.specs.Prelude.{List, ℕ, ◌≤◌, take};

    ghost Value = { List ℕ };

    ghost view = { λ l. take l.len l.bytes };

    ghost invariant = { λ l. l.len ≤ 1200 };
}

fn paste(to: &mut [u8; ROOM], at: usize, bytes: &[u8])
    requires { at + length bytes.now ≤ 1200 }
    ensures { take (at + length bytes.now) to.new ≡ take at to.old ++ bytes.now }
{
    let part = &mut to[at..at + bytes.len()];
    part.copy_from_slice(bytes);
}

// Puts the digits of bytes into the place from `at` on.
fn paste_hex(to: &mut [u8; ROOM], at: usize, bytes: &[u8])
    requires { at + 2 * length bytes.now ≤ 1200 }
    ensures { take (at + 2 * length bytes.now) to.new ≡ take at to.old ++ encode_lower bytes.now }
{
    let part = &mut to[at..at + 2 * bytes.len()];
    match hex::encode_to_slice(bytes, part) {
        Ok(()) => {}
        Err(_) => unreachable!(),
    }
}

impl Line {
    /// An empty line.
    pub fn new() -> Line
        ensures { result ≡ [] }
    {
        Line {
            bytes: [0; ROOM],
            len: 0,
        }
    }

    /// What stands in the line.
    pub fn bytes(&self) -> &[u8]
        ensures { result.now ≡ self.now }
    {
        &self.bytes[..self.len]
    }

    /// Takes all out of the line.
    pub fn clear(&mut self)
        ensures { self.new ≡ [] }
    {
        self.len = 0;
    }

    /// Adds bytes.
    pub fn push(&mut self, bytes: &[u8])
        requires { length self.old + length bytes.now ≤ 1200 }
        ensures { self.new ≡ self.old ++ bytes.now }
    {
        paste(&mut self.bytes, self.len, bytes);
        self.len += bytes.len();
    }

    /// Adds a number in decimal, without leading zeros.
    pub fn push_number<I: Integer>(&mut self, number: I)
        requires { length self.old + 40 ≤ 1200 }
        ensures value { self.new ≡ self.old ++ I.text number }
        ensures short { length self.new ≤ length self.old + 40 }
    {
        self.push(Buffer::new().format(number).as_bytes());
    }

    /// Adds two digits for each byte, in lower case.
    pub fn push_hex(&mut self, bytes: &[u8])
        requires { length self.old + 2 * length bytes.now ≤ 1200 }
        ensures value { self.new ≡ self.old ++ encode_lower bytes.now }
        ensures long { length self.new ≡ length self.old + 2 * length bytes.now }
    {
        paste_hex(&mut self.bytes, self.len, bytes);
        self.len += 2 * bytes.len();
    }

    /// Puts the whole line by one call of the sink. It stays as it is.
    ///
    /// Failed, only where the sink's count of faults rose, has put a front of the line.
    pub fn put<K: Sink>(&self, out: &mut K) -> Result<(), Failed>
        ensures output { K.tells
            → Puts (is_ok result) (K.output out.old) self.now (K.output out.new) }
        ensures later { K.faults out.old ≤ K.faults out.new }
        ensures cause { OnErr result (Rose (K.faults out.old) (K.faults out.new)) }
    {
        out.put(self.bytes())
    }
}
