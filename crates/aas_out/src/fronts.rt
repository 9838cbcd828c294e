// Whether bytes begin with others. Most pieces are short: two loads that overlap tell all of one.
ghost use Rattle.std.specs.Prelude.{◌≡◌, ◌+◌, ◌<◌, ◌≤◌, length, take};
ghost use Rattle.std.specs.Bool.{OnTrue};
ghost use Rattle.aas_out.specs.Fronts.{SameBetween};

use std::simd::prelude::*;

/// Whether the bytes begin with a piece.
#[inline(always)]
pub fn begins_with(bytes: &[u8], piece: &[u8]) -> bool
    ensures within { OnTrue result (length piece.now ≤ length bytes.now) }
    ensures front { OnTrue result (take (length piece.now) bytes.now ≡ piece.now) }
{
    if bytes.len() < piece.len() {
        return false;
    }
    has_front(bytes, piece)
}

/// Whether bytes that are no fewer than the piece begin with it.
#[inline(always)]
fn has_front(bytes: &[u8], piece: &[u8]) -> bool
    requires { length piece.now ≤ length bytes.now }
    ensures { OnTrue result (SameBetween bytes.now piece.now 0 (length piece.now)) }
{
    let length = piece.len();
    if length < 4 {
        has_short_front(bytes, piece)
    } else if length < 8 {
        has_same_lanes::<4>(bytes, piece, 0) && has_same_lanes::<4>(bytes, piece, length - 4)
    } else if length < 16 {
        has_same_lanes::<8>(bytes, piece, 0) && has_same_lanes::<8>(bytes, piece, length - 8)
    } else if length <= 32 {
        has_same_lanes::<16>(bytes, piece, 0) && has_same_lanes::<16>(bytes, piece, length - 16)
    } else {
        has_long_front(bytes, piece)
    }
}

/// The same, where the piece has a few bytes.
#[inline(always)]
fn has_short_front(bytes: &[u8], piece: &[u8]) -> bool
    requires { length piece.now ≤ length bytes.now }
    ensures { OnTrue result (SameBetween bytes.now piece.now 0 (length piece.now)) }
{
    for (i, byte) in piece.iter().enumerate() {
        if bytes[i] != *byte {
            return false;
        }
    }
    true
}

/// The same, where the piece has 16 bytes or more.
#[inline(never)]
fn has_long_front(bytes: &[u8], piece: &[u8]) -> bool
    requires enough { 16 ≤ length piece.now }
    requires within { length piece.now ≤ length bytes.now }
    ensures { OnTrue result (SameBetween bytes.now piece.now 0 (length piece.now)) }
{
    let mut at = 0;
    while piece.len() - at > 16 {
        if !has_same_lanes::<16>(bytes, piece, at) {
            return false;
        }
        at += 16;
    }
    has_same_lanes::<16>(bytes, piece, piece.len() - 16)
}

/// Whether both have the same `N` bytes from `at` on.
#[inline(always)]
fn has_same_lanes<const N: usize>(bytes: &[u8], piece: &[u8], at: usize) -> bool
    requires few { N ≤ 64 }
    requires bytes { at + N ≤ length bytes.now }
    requires piece { at + N ≤ length piece.now }
    ensures { OnTrue result (SameBetween bytes.now piece.now at (at + N)) }
{
    let other = Simd::<u8, N>::from_slice(&bytes[at..]).simd_ne(Simd::from_slice(&piece[at..]));
    other.to_bitmask() == 0
}
