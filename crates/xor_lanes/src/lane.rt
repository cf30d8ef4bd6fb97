//! One vector of bytes, at a place of a slice.
ghost use Rattle.std.specs.Prelude.{◌≡◌, ℕ, ◌+◌, ◌<◌, ◌≤◌, ◌↔◌, length, bit_xor, replicate, slice_index, IsTrue};
ghost use Rattle.std.specs.Simd.Lanes.{chunk, put_chunk, zip2};

use std::simd::prelude::*;

/// The bytes of a vector.
pub(crate) const LANE: usize = 32;

/// Adds the source's vector at this place to the target's.
pub(crate) fn xor_lane(to: &mut [u8], from: &[u8], at: usize)
    requires to_in { at + LANE ≤ length to.old }
    requires from_in { at + LANE ≤ length from.now }
    ensures { to.new
        ≡ put_chunk at to.old (zip2 bit_xor (chunk at LANE to.old) (chunk at LANE from.now)) }
{
    let sum = u8x32::from_slice(&to[at..]) ^ u8x32::from_slice(&from[at..]);
    sum.copy_to_slice(&mut to[at..]);
}

/// Whether the vector at this place is all 0.
pub(crate) fn is_zero_lane(bytes: &[u8], at: usize) -> bool
    requires { at + LANE ≤ length bytes.now }
    ensures { IsTrue result ↔ ((k : ℕ) → at ≤ k → k < at + LANE → slice_index bytes.now k ≡ 0) }
{
    let lanes = u8x32::from_slice(&bytes[at..]);
    lanes.simd_ne(u8x32::splat(0)).to_bitmask() == 0
}

/// Makes the vector at this place all 0.
pub(crate) fn clear_lane(to: &mut [u8], at: usize)
    requires { at + LANE ≤ length to.old }
    ensures { to.new ≡ put_chunk at to.old (replicate LANE 0) }
{
    u8x32::splat(0).copy_to_slice(&mut to[at..]);
}
