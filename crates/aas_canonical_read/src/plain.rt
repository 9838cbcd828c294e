// Bytes that stand for themselves in a JSON string.
ghost use Rattle.std.specs.Prelude.{◌+◌, ◌≤◌, length};

use std::simd::prelude::*;

const LANES: usize = 16;

/// How many bytes at the front stand for themselves.
#[inline(always)]
pub(crate) fn count_plain(bytes: &[u8]) -> usize {
    let mut at = 0;
    while bytes.len() - at >= LANES {
        let stops = stops_of(bytes, at);
        if stops != 0 {
            return at + stops.trailing_zeros() as usize;
        }
        at += LANES;
    }
    at + count_bytewise(&bytes[at..])
}

/// Which of the 16 bytes from `at` on don't stand for themselves, a bit for each.
#[inline(always)]
fn stops_of(bytes: &[u8], at: usize) -> u64
    requires { at + LANES ≤ length bytes.now }
{
    let lanes = u8x16::from_slice(&bytes[at..]);
    let stops = lanes.simd_eq(u8x16::splat(b'"'))
        | lanes.simd_eq(u8x16::splat(b'\\'))
        | lanes.simd_lt(u8x16::splat(b' '));
    stops.to_bitmask()
}

fn count_bytewise(bytes: &[u8]) -> usize
    ensures { result ≤ length bytes.now }
{
    for (place, byte) in bytes.iter().enumerate() {
        if matches!(*byte, b'"' | b'\\' | 0..=31) {
            return place;
        }
    }
    bytes.len()
}
