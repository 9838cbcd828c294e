// Texts as JSON strings (RFC 8259, section 7), with the shortest escapes.
ghost use Rattle.std.specs.Prelude.{◌≡◌, ◌<◌, false, take, length};
ghost use Rattle.std.specs.Str.{IsCharBoundary};
ghost use Rattle.json.specs.Print.{quoted, escape, escape_byte};
ghost use Rattle.aas_json_write_members.specs.Members.{is_unescaped};
ghost use Rattle.aas_out.specs.Adds.{Adds};

use crate::plain::{count_plain, is_plain};
use aas_out::{Pouring, TextEnd, add_text};

/// Puts a text as a JSON string.
#[inline]
pub(crate) fn add_quoted<O: TextEnd>(so_far: Pouring, text: &str, out: &mut O) -> Pouring
    ensures { Adds so_far result (O.told out.old) (O.told out.new) (quoted text.now) }
{
    let opened = add_text(so_far, "\"", out);
    let escaped = add_escaped(opened, text, out);
    add_text(escaped, "\"", out)
}

/// Puts what stands between the quotes: nearly all texts need no escape, and are put at once.
#[inline]
pub(crate) fn add_escaped<O: TextEnd>(so_far: Pouring, text: &str, out: &mut O) -> Pouring
    ensures { Adds so_far result (O.told out.old) (O.told out.new) (escape text.now) }
{
    if is_plain(text.as_bytes()) {
        return add_text(so_far, text, out);
    }
    add_in_pieces(so_far, text, out)
}

/// Puts a text that may need escapes.
#[inline(never)]
fn add_in_pieces<O: TextEnd>(so_far: Pouring, text: &str, out: &mut O) -> Pouring
    ensures { Adds so_far result (O.told out.old) (O.told out.new) (escape text.now) }
{
    let mut state = so_far;
    let mut rest = text;
    while !rest.is_empty() {
        let piece = add_piece(state, rest, out);
        state = piece.state;
        rest = &rest[piece.length..];
    }
    state
}

/// How a pouring stands, and how many bytes were put in their escaped form.
#[derive(Clone, Copy)]
struct Piece {
    state: Pouring,
    length: usize,
}

/// Puts the bytes at the front that stand for themselves, all at once, or else the first byte as an escape.
fn add_piece<O: TextEnd>(so_far: Pouring, text: &str, out: &mut O) -> Piece
    requires { 0 < length text.now }
    ensures text { Adds so_far result.state (O.told out.old) (O.told out.new) (escape (take result.length text.now)) }
    ensures some { 0 < result.length }
    ensures boundary { IsCharBoundary text.now result.length }
{
    let bytes = text.as_bytes();
    let plain = count_plain(bytes);
    if plain == 0 {
        return Piece {
            state: add_text(so_far, escape_of(bytes[0]), out),
            length: 1,
        };
    }
    Piece {
        state: add_text(so_far, &text[..plain], out),
        length: plain,
    }
}

/// The escape of a character that doesn't stand for itself.
#[tactic(auto, unfolding(json::specs::Print::escape_byte))]
fn escape_of(byte: u8) -> &'static str
    requires { is_unescaped byte ≡ false }
    ensures { result.now ≡ escape_byte byte }
{
    match byte {
        0 => "\\u0000",
        1 => "\\u0001",
        2 => "\\u0002",
        3 => "\\u0003",
        4 => "\\u0004",
        5 => "\\u0005",
        6 => "\\u0006",
        7 => "\\u0007",
        8 => "\\b",
        b'\t' => "\\t",
        b'\n' => "\\n",
        11 => "\\u000b",
        12 => "\\f",
        b'\r' => "\\r",
        14 => "\\u000e",
        15 => "\\u000f",
        16 => "\\u0010",
        17 => "\\u0011",
        18 => "\\u0012",
        19 => "\\u0013",
        20 => "\\u0014",
        21 => "\\u0015",
        22 => "\\u0016",
        23 => "\\u0017",
        24 => "\\u0018",
        25 => "\\u0019",
        26 => "\\u001a",
        27 => "\\u001b",
        28 => "\\u001c",
        29 => "\\u001d",
        30 => "\\u001e",
        31 => "\\u001f",
        b'"' => "\\\"",
        b'\\' => "\\\\",
        _ => unreachable!(),
    }
}
