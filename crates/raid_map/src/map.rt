//! The map: which regions are marked, and its bytes.
ghost use Rattle.std.specs.Prelude.{ℕ, ◌≡◌, ◌<◌, ◌≤◌, ◌+◌, ◌*◌, ◌/◌, ◌%◌, ◌^◌, length, replicate, slice_index, slice_index_or, slice_set, false, true, ◌||◌, if◌then◌else◌, IfOk, MatchBool};
ghost use Rattle.std.specs.List.{count_by};
ghost use Rattle.raid_map.specs.Regions.{region_of, region_stripes, regions_in, number_at, bit_at, HasMagic, IsMap, Marks, is_marked, IsBytesOf, IsMapOf, Adds, one_if, packed, number_byte, byte_of, NonePast};

use crate::memory::Memory;
use std::alloc::Global;
use std::marker::Model;

// The bytes with which a map begins.
const MAGIC: [u8; 8] = *b"RFPMAP01";

// What the bits of a byte are worth.
const POWERS: [u8; 8] = [1, 2, 4, 8, 16, 32, 64, 128];

/// A parity map: which regions of an array were being written. A region is as many stripes as make at most 3,968
/// regions of all. Contracts see of how many stripes and which array it is, and whether each region is marked.
#[derive(Drop)]
pub struct Map {
    stripes: u32,
    serial: u32,
    marks: Vec<bool>,
}

impl Model for Map {
    ghost use Rattle.std.specs.Prelude.{ℕ, ◌≡◌, ◌≤◌, length};
    ghost use Rattle.raid_map.specs.Regions.{Marks, regions_in};

    ghost Value = { Marks };

    ghost view = { λ m. record { stripes = m.stripes; serial = m.serial; marks = m.marks.items } };

    ghost invariant = { λ m. (1 ≤ m.stripes) × (m.stripes ≤ 1048576) × (length m.marks.items ≡ regions_in m.stripes) };
}

fn region_stripes(stripes: u32) -> u32
    requires { stripes ≤ 1048576 }
    ensures { result ≡ region_stripes stripes }
{
    (stripes + 3967) / 3968
}

fn region_of(stripes: u32, stripe: u32) -> u32
    requires some { 1 ≤ stripes }
    requires few { stripes ≤ 1048576 }
    ensures { result ≡ region_of stripes stripe }
{
    stripe / region_stripes(stripes)
}

fn is_marked(marks: &[bool], region: u32) -> bool
    requires { region < length marks.now }
    ensures { result ≡ is_marked marks.now region }
{
    marks[region as usize]
}

// 1 where the region is marked, 0 where it isn't or there is none.
fn one_if(marks: &[bool], region: usize) -> u8
    ensures is { result ≡ one_if (is_marked marks.now region) }
    ensures small { result ≤ 1 }
{
    if region < marks.len() && marks[region] {
        1
    } else {
        0
    }
}

// Whether the sector begins as a map does.
fn has_magic(sector: &[u8]) -> bool
    requires { length sector.now ≡ 512 }
    ensures { MatchBool result (HasMagic (slice_index sector.now))
        (HasMagic (slice_index sector.now) → ⊥) }
{
    for k in 0..8 {
        if sector[k] != MAGIC[k] {
            return false;
        }
    }
    true
}

// The number in four bytes that stands at a place.
fn number(sector: &[u8], at: usize) -> u32
    requires long { length sector.now ≡ 512 }
    requires there { at + 4 ≤ 512 }
    ensures { result ≡ number_at (slice_index sector.now) at }
{
    u32::from(sector[at])
        + 256 * u32::from(sector[at + 1])
        + 65536 * u32::from(sector[at + 2])
        + 16777216 * u32::from(sector[at + 3])
}

fn bit(sector: &[u8], region: usize) -> bool
    requires long { length sector.now ≡ 512 }
    requires there { region < 3968 }
    ensures { result ≡ bit_at (slice_index sector.now) region }
{
    sector[16 + region / 8] / POWERS[region % 8] % 2 == 1
}

fn marks_none(sector: &[u8], from: usize) -> bool
    requires { length sector.now ≡ 512 }
    ensures { MatchBool result (NonePast from (slice_index sector.now))
        (NonePast from (slice_index sector.now) → ⊥) }
{
    for region in from..3968 {
        if bit(sector, region) {
            return false;
        }
    }
    true
}

fn add_bits(marks: &mut [bool], sector: &[u8])
    requires long { length sector.now ≡ 512 }
    requires few { length marks.old ≤ 3968 }
    ensures count { length marks.new ≡ length marks.old }
    ensures bits { (r : ℕ) → r < length marks.old
        → is_marked marks.new r ≡ (is_marked marks.old r || bit_at (slice_index sector.now) r) }
{
    for region in 0..marks.len() {
        if bit(sector, region) {
            marks[region] = true;
        }
    }
}

// Eight marks as a byte.
fn packed(marks: &[bool], region: usize) -> u8
    requires { region < 2 ^ 20 }
    ensures { result ≡ packed marks.now region }
{
    one_if(marks, region)
        + 2 * one_if(marks, region + 1)
        + 4 * one_if(marks, region + 2)
        + 8 * one_if(marks, region + 3)
        + 16 * one_if(marks, region + 4)
        + 32 * one_if(marks, region + 5)
        + 64 * one_if(marks, region + 6)
        + 128 * one_if(marks, region + 7)
}

// A byte of a number in four bytes, the lowest first.
fn number_byte(number: u32, i: usize) -> u8
    requires { i < 4 }
    ensures { result ≡ number_byte number i }
{
    if i == 0 {
        (number % 256) as u8
    } else if i == 1 {
        (number / 256 % 256) as u8
    } else if i == 2 {
        (number / 65536 % 256) as u8
    } else {
        (number / 16777216 % 256) as u8
    }
}

fn count_marks(marks: &[bool]) -> u32
    requires { length marks.now ≤ 1048576 }
    ensures { result ≡ count_by (λ m. m) marks.now }
{
    let mut count = 0;
    for i in 0..marks.len() {
        if marks[i] {
            count += 1;
        }
    }
    count
}

impl Map {
    /// A map without marks, for so many stripes of the array of this serial. The only error is want of memory.
    pub fn open(alloc: Global, stripes: u32, serial: u32) -> Result<Map, Memory>
        requires some { 1 ≤ stripes }
        requires few { stripes ≤ 1048576 }
        ensures { IfOk result (λ map. map ≡ record
            { stripes = stripes; serial = serial; marks = replicate (regions_in stripes) false }) }
    {
        let regions = region_of(stripes, stripes - 1) as usize + 1;
        Ok(Map {
            stripes,
            serial,
            marks: vec![in alloc; false; regions]?,
        })
    }

    /// Marks the region of a stripe.
    pub fn mark(&mut self, stripe: u32)
        requires { stripe < self.old.stripes }
        ensures value { self.new ≡ record self.old
            { marks = slice_set self.old.marks (region_of self.old.stripes stripe) true } }
        ensures marked { is_marked self.new.marks (region_of self.old.stripes stripe) ≡ true }
    {
        let region = region_of(self.stripes, stripe) as usize;
        self.marks[region] = true;
    }

    /// Whether the region of a stripe is marked.
    pub fn marked(&self, stripe: u32) -> bool
        requires { stripe < self.now.stripes }
        ensures { result ≡ is_marked self.now.marks (region_of self.now.stripes stripe) }
    {
        is_marked(&self.marks, region_of(self.stripes, stripe))
    }

    /// How many regions there are.
    pub fn regions(&self) -> u32
        ensures { result ≡ regions_in self.now.stripes }
    {
        let _few = self.serial;
        self.marks.len() as u32
    }

    /// Takes all marks away.
    pub fn clear(&mut self)
        ensures { self.new ≡ record self.old
            { marks = replicate (regions_in self.old.stripes) false } }
    {
        self.marks.fill(false);
    }

    /// How many regions are marked.
    pub fn count(&self) -> u32
        ensures { result ≡ count_by (λ m. m) self.now.marks }
    {
        count_marks(&self.marks)
    }

    // Byte k of the map's sector.
    fn byte(&self, k: usize) -> u8
        requires { k < 512 }
        ensures { result ≡ byte_of self.now k }
    {
        if k < 8 {
            MAGIC[k]
        } else if k < 12 {
            number_byte(self.serial, k - 8)
        } else if k < 16 {
            number_byte(region_stripes(self.stripes), k - 12)
        } else {
            packed(&self.marks, 8 * (k - 16))
        }
    }

    /// Writes the map over a sector, all 512 bytes.
    pub fn write_to(&self, sector: &mut [u8])
        requires { length sector.old ≡ 512 }
        ensures map { IsBytesOf self.now sector.new }
        ensures bytes { (k : ℕ) → k < 512 → slice_index sector.new k ≡ byte_of self.now k }
        ensures long { length sector.new ≡ 512 }
    {
        let _whole = self.serial;
        for k in 0..512 {
            sector[k] = self.byte(k);
        }
    }

    // Whether the sector is a map of this array.
    fn holds(&self, sector: &[u8]) -> bool
        requires { length sector.now ≡ 512 }
        ensures { MatchBool result (IsMapOf self.now sector.now) (IsMapOf self.now sector.now → ⊥) }
    {
        if !has_magic(sector) {
            return false;
        }
        if number(sector, 8) != self.serial {
            return false;
        }
        if number(sector, 12) != region_stripes(self.stripes) {
            return false;
        }
        marks_none(sector, self.marks.len())
    }

    /// Adds the regions that a sector marks. False exactly where the sector isn't a map of this array, and nothing
    /// changes then.
    pub fn add_from(&mut self, sector: &[u8]) -> bool
        requires { length sector.now ≡ 512 }
        ensures is_map { MatchBool result (IsMapOf self.old sector.now)
            (IsMapOf self.old sector.now → ⊥) }
        ensures added { result ≡ true → Adds self.old self.new sector.now }
        ensures same { result ≡ false → self.new ≡ self.old }
    {
        if !self.holds(sector) {
            return false;
        }
        add_bits(&mut self.marks, sector);
        true
    }
}
