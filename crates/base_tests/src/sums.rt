//! The kernels beside the plain definitions, at lengths round one and two vectors of 32 bytes.
use crate::judging::same;
use xor_lanes::{clear, is_zero, xor_into};

#[test]
fn each_byte_is_summed_and_no_other(rt: HostRuntime) {
    for length in [0, 1, 31, 32, 33, 63, 64, 67] {
        let mut to = [0x5a; 68];
        xor_into(&mut to[..length], &[0xff; 68][..length]);
        for k in 0..68 {
            let want = if k < length { 0xa5 } else { 0x5a };
            same(&rt, (k, length, to[k]), (k, length, want));
        }
    }
}

#[test]
fn a_byte_anywhere_is_not_zero(rt: HostRuntime) {
    for length in [0, 1, 31, 32, 33, 63, 64, 67] {
        let mut bytes = [0; 68];
        bytes[length] = 1;
        same(&rt, (length, is_zero(&bytes[..length])), (length, true));
        for k in 0..length {
            bytes[k] = 128;
            same(
                &rt,
                (k, length, is_zero(&bytes[..length])),
                (k, length, false),
            );
            bytes[k] = 0;
        }
    }
}

#[test]
fn each_byte_is_cleared_and_no_other(rt: HostRuntime) {
    for length in [0, 1, 31, 32, 33, 63, 64, 67] {
        let mut to = [7; 68];
        clear(&mut to[..length]);
        for k in 0..68 {
            let want = if k < length { 0 } else { 7 };
            same(&rt, (k, length, to[k]), (k, length, want));
        }
    }
}
