// Bytes that stand for themselves in a JSON string. Most texts are short: two loads that overlap tell all of one.
ghost use Rattle.std.specs.Prelude.{◌≡◌, ◌+◌, ◌<◌, ◌≤◌, ◌∷◌, [], false, true, length, slice_index, take};
ghost use Rattle.std.specs.Bool.{OnTrue};
ghost use Rattle.json.specs.Print.{escape, escape_byte};
ghost use Rattle.json.specs.Written.{PlainBetween};
ghost use Rattle.aas_json_write_members.specs.Members.{is_unescaped};

use std::simd::prelude::*;

/// Whether a text needs no escape.
pub(crate) fn is_plain(text: &[u8]) -> bool
    ensures { OnTrue result (escape text.now ≡ text.now) }
{
    if text.len() < 4 {
        count_plain(text) == text.len()
    } else {
        is_plain_by_lanes(text)
    }
}

/// Whether a text of 4 bytes or more needs no escape.
#[inline]
fn is_plain_by_lanes(text: &[u8]) -> bool
    requires { 4 ≤ length text.now }
    ensures { OnTrue result (PlainBetween text.now 0 (length text.now)) }
{
    let length = text.len();
    if length < 8 {
        has_plain_lanes::<4>(text, 0) && has_plain_lanes::<4>(text, length - 4)
    } else if length < 16 {
        has_plain_lanes::<8>(text, 0) && has_plain_lanes::<8>(text, length - 8)
    } else {
        is_plain_long(text)
    }
}

/// Whether a text of 16 bytes or more needs no escape.
#[inline]
fn is_plain_long(text: &[u8]) -> bool
    requires { 16 ≤ length text.now }
    ensures { OnTrue result (PlainBetween text.now 0 (length text.now)) }
{
    let mut at = 0;
    while text.len() - at > 16 {
        if !has_plain_lanes::<16>(text, at) {
            return false;
        }
        at += 16;
    }
    has_plain_lanes::<16>(text, text.len() - 16)
}

/// Whether none of the `N` bytes from `at` on needs an escape.
#[inline]
fn has_plain_lanes<const N: usize>(text: &[u8], at: usize) -> bool
    requires few { N ≤ 64 }
    requires within { at + N ≤ length text.now }
    ensures { OnTrue result (PlainBetween text.now at (at + N)) }
{
    let lanes = Simd::<u8, N>::from_slice(&text[at..]);
    let escaped = lanes.simd_eq(Simd::splat(b'"'))
        | lanes.simd_eq(Simd::splat(b'\\'))
        | lanes.simd_lt(Simd::splat(32));
    escaped.to_bitmask() == 0
}

/// How many bytes at the front stand for themselves.
pub(crate) fn count_plain(bytes: &[u8]) -> usize
    ensures within { result ≤ length bytes.now }
    ensures plain { escape (take result bytes.now) ≡ take result bytes.now }
    ensures behind { result < length bytes.now → is_unescaped (slice_index bytes.now result) ≡ false }
{
    for (i, byte) in bytes.iter().enumerate() {
        if is_escaped(*byte) {
            return i;
        }
    }
    bytes.len()
}

/// Whether a byte doesn't stand for itself. Small letters, which are most, are told by one comparison.
#[tactic(auto, unfolding(json::specs::Print::escape_byte))]
fn is_escaped(byte: u8) -> bool
    ensures plain { result ≡ false → escape_byte byte ≡ byte ∷ [] }
    ensures escaped { result ≡ true → is_unescaped byte ≡ false }
{
    byte <= b'\\' && (byte < 32 || byte == b'"' || byte == b'\\')
}
