//! Kernels over bytes: the exclusive-or of one slice into another, the test for zero, and clearing.
//!
//! A stripe's check unit is the exclusive-or of its data units, byte by byte, so these three are
//! all the arithmetic that the array does on data (RAID levels 4 and 5 of Patterson, Gibson and
//! Katz). Each works by vectors of 32 bytes as far as whole ones fit, and then by single bytes.
//! They take no memory and refuse nothing.
#![tactic(auto)]

ghost use Rattle.std.specs.Prelude.{◌≡◌, ℕ, ◌*◌, ◌≤◌, ◌↔◌, length, slice_index, bit_xor, replicate, IsTrue, All};
ghost use Rattle.xor_lanes.specs.Bytes.{SumsBelow, IsZeroBelow};
ghost use Rattle.xor_lanes.specs.declared.lane.TheConstants.{LANE};

mod lane;

use lane::{LANE, clear_lane, is_zero_lane, xor_lane};

/// Adds the source to the target by exclusive-or, byte by byte. The two are equally long.
pub fn xor_into(to: &mut [u8], from: &[u8])
    requires { length from.now ≡ length to.old }

    // Past its end a slice reads as 0 here.
    ensures bytes { (k : ℕ)
        → slice_index to.new k ≡ bit_xor (slice_index to.old k) (slice_index from.now k) }
    ensures length { length to.new ≡ length to.old }
{
    let summed = xor_lanes(to, from);
    for k in summed..to.len() {
        to[k] ^= from[k];
    }
}

// Adds the source as far as whole vectors fit, and returns how many bytes they are.
fn xor_lanes(to: &mut [u8], from: &[u8]) -> usize
    requires { length from.now ≡ length to.old }
    ensures summed { SumsBelow to.old from.now to.new result }
    ensures within { result ≤ length to.old }
{
    let lanes = to.len() / LANE;
    for lane in 0..lanes {
        xor_lane(to, from, lane * LANE);
    }
    lanes * LANE
}

/// Whether each byte is 0, as of no bytes.
pub fn is_zero(bytes: &[u8]) -> bool
    ensures { IsTrue result ↔ All (λ byte. byte ≡ 0) bytes.now }
{
    let lanes = bytes.len() / LANE;
    is_zero_lanes(bytes, lanes) && is_zero_rest(&bytes[lanes * LANE..])
}

// Whether each byte of the first whole vectors is 0.
fn is_zero_lanes(bytes: &[u8], lanes: usize) -> bool
    requires { lanes * LANE ≤ length bytes.now }
    ensures { IsTrue result ↔ IsZeroBelow bytes.now (lanes * LANE) }
{
    for lane in 0..lanes {
        if !is_zero_lane(bytes, lane * LANE) {
            return false;
        }
    }
    true
}

fn is_zero_rest(bytes: &[u8]) -> bool
    ensures { IsTrue result ↔ All (λ byte. byte ≡ 0) bytes.now }
{
    bytes.iter().all(|byte| *byte == 0)
}

/// Makes each byte 0.
pub fn clear(to: &mut [u8])
    ensures { to.new ≡ replicate (length to.old) 0 }
{
    let cleared = clear_lanes(to);
    for k in cleared..to.len() {
        to[k] = 0;
    }
}

// Makes each byte 0 as far as whole vectors fit, and returns how many bytes they are.
fn clear_lanes(to: &mut [u8]) -> usize
    ensures cleared { IsZeroBelow to.new result }
    ensures within { result ≤ length to.old }
{
    let lanes = to.len() / LANE;
    for lane in 0..lanes {
        clear_lane(to, lane * LANE);
    }
    lanes * LANE
}
