//! The fronts of buffers.
ghost use Rattle.std.specs.Prelude.{◌≡◌, ◌≤◌, ◌<◌, ◌*◌, ◌↔◌, ℕ, IsTrue, All, drop, take, length, slice_index, bit_xor, true};
ghost use Rattle.eng_job.specs.Performed.{byte_at, sum_at, AreLong};
ghost use Rattle.eng_job.specs.declared.job.Source.{Source};

use crate::job::Source;
use blk_disk::SECTOR;
use xor_lanes::{clear, xor_into};

fn clear_front(bytes: &mut [u8], count: u32)
    requires { 512 * count ≤ length bytes.old }
    ensures zero { (k : ℕ) → k < 512 * count → slice_index bytes.new k ≡ 0 }
    ensures rest { drop (512 * count) bytes.new ≡ drop (512 * count) bytes.old }
{
    clear(&mut bytes[..SECTOR * count as usize]);
}

// Adds the source's first bytes to the target's.
fn add_front(to: &mut [u8], from: &[u8], count: u32)
    requires to { 512 * count ≤ length to.old }
    requires from { 512 * count ≤ length from.now }
    ensures sum { (k : ℕ) → k < 512 * count
        → slice_index to.new k ≡ bit_xor (slice_index to.old k) (slice_index from.now k) }
    ensures rest { drop (512 * count) to.new ≡ drop (512 * count) to.old }
{
    let bytes = SECTOR * count as usize;
    xor_into(&mut to[..bytes], &from[..bytes]);
}

// Adds a source's first bytes, if it counts.
fn add_source(to: &mut [u8], from: &Source, count: u32)
    requires to { 512 * count ≤ length to.old }
    requires from { 512 * count ≤ length from.now.buffer }
    ensures sum { (k : ℕ) → k < 512 * count
        → slice_index to.new k ≡ bit_xor (slice_index to.old k) (byte_at from.now k) }
    ensures rest { drop (512 * count) to.new ≡ drop (512 * count) to.old }
{
    if from.counts {
        add_front(to, from.buffer.bytes(), count);
    }
}

// Whether the source has room for so many sectors.
fn is_long(source: &Source, count: u32) -> bool
    ensures { IsTrue result ↔ (512 * count ≤ length source.now.buffer) }
{
    SECTOR * count as usize <= source.buffer.bytes().len()
}

// Whether each source has room for so many sectors.
pub(crate) fn are_long(from: &[Source], count: u32) -> bool
    ensures { IsTrue result ↔ AreLong count from.now }
{
    from.iter().all(|source| is_long(source, count))
}

// Makes the first bytes those of the source.
fn copy_front(to: &mut [u8], from: &[u8], count: u32)
    requires to { 512 * count ≤ length to.old }
    requires from { 512 * count ≤ length from.now }
    ensures same { (k : ℕ) → k < 512 * count → slice_index to.new k ≡ slice_index from.now k }
    ensures rest { drop (512 * count) to.new ≡ drop (512 * count) to.old }
{
    let bytes = SECTOR * count as usize;
    to[..bytes].copy_from_slice(&from[..bytes]);
}

// Makes each byte the sum of those of three slices that are as long.
fn sum_bytes(to: &mut [u8], one: &[u8], two: &[u8], three: &[u8])
    requires one { length one.now ≡ length to.old }
    requires two { length two.now ≡ length to.old }
    requires three { length three.now ≡ length to.old }
    ensures sum { (k : ℕ) → k < length to.old → slice_index to.new k
        ≡ bit_xor (slice_index one.now k)
        (bit_xor (slice_index two.now k) (slice_index three.now k)) }
    ensures long { length to.new ≡ length to.old }
{
    for k in 0..to.len() {
        to[k] = one[k] ^ (two[k] ^ three[k]);
    }
}

// Whether each of the sources counts.
fn do_count(from: &[Source]) -> bool
    ensures { IsTrue result ↔ All (λ (s : Source). s.counts ≡ true) from.now }
{
    from.iter().all(|source| source.counts)
}

// Makes the first bytes the sum of those of three sources that count. The target is written once, and not read.
fn sum_three(to: &mut [u8], from: &[Source], count: u32)
    requires to { 512 * count ≤ length to.old }
    requires from { AreLong count from.now }
    requires three { length from.now ≡ 3 }
    requires counts { All (λ (s : Source). s.counts ≡ true) from.now }
    ensures sum { (k : ℕ) → k < 512 * count → slice_index to.new k ≡ sum_at from.now k }
    ensures rest { drop (512 * count) to.new ≡ drop (512 * count) to.old }
{
    let bytes = SECTOR * count as usize;
    sum_bytes(
        &mut to[..bytes],
        &from[0].buffer.bytes()[..bytes],
        &from[1].buffer.bytes()[..bytes],
        &from[2].buffer.bytes()[..bytes],
    );
}

// Makes the first bytes the sum of those of the first sources that are added at once: three where there are so many and
// all of them count, as in a small write; else the first, if there is one and it counts; else 0. How many these are.
fn begin_front(to: &mut [u8], from: &[Source], count: u32) -> usize
    requires to { 512 * count ≤ length to.old }
    requires from { AreLong count from.now }
    ensures within { result ≤ length from.now }
    ensures sum { (k : ℕ) → k < 512 * count
        → slice_index to.new k ≡ sum_at (take result from.now) k }
    ensures rest { drop (512 * count) to.new ≡ drop (512 * count) to.old }
{
    if from.len() >= 3 && do_count(&from[..3]) {
        sum_three(to, &from[..3], count);
        return 3;
    }
    if !from.is_empty() && from[0].counts {
        copy_front(to, from[0].buffer.bytes(), count);
        return 1;
    }
    clear_front(to, count);
    0
}

/// Makes the first bytes the sum of those of the sources that count.
pub(crate) fn sum_front(to: &mut [u8], from: &[Source], count: u32)
    requires to { 512 * count ≤ length to.old }
    requires from { AreLong count from.now }
    ensures sum { (k : ℕ) → k < 512 * count → slice_index to.new k ≡ sum_at from.now k }
    ensures rest { drop (512 * count) to.new ≡ drop (512 * count) to.old }
{
    let begun = begin_front(to, from, count);
    for i in begun..from.len() {
        add_source(to, &from[i], count);
    }
}
