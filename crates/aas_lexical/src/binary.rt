ghost use Rattle.std.specs.Prelude.{◌≡◌, ◌↔◌, Some, IsTrue};
ghost use Rattle.std.specs.Char.{is_ascii_hexdigit};
ghost use Rattle.std.specs.Option.{option_map};
ghost use Rattle.aas_lexical_forms.specs.Form.{any};
ghost use Rattle.aas_lexical.specs.Binary as form;
ghost use Rattle.aas_lexical.specs.Cut.Binary as cut;

use aas_lexical_forms::{Ascii, ByteClass, after_any, after_one, after_word, is_whole};

/// The symbols of base64, by how many of their six bits may be ones.
#[derive(Clone, Copy)]
pub(crate) enum Base64Byte {
    SixBits,
    /// The last two bits are zero.
    FourBits,
    /// The last four bits are zero.
    TwoBits,
}

impl ByteClass for Base64Byte {
    ghost use Rattle.aas_lexical.specs.Cut.Binary.{is_in};

    ghost is_in = { is_in };

    fn contains(self, byte: u8) -> bool {
        match self {
            Base64Byte::SixBits => byte.is_ascii_alphanumeric() || matches!(byte, b'+' | b'/'),
            Base64Byte::FourBits => matches!(
                byte,
                b'A' | b'E'
                    | b'I'
                    | b'M'
                    | b'Q'
                    | b'U'
                    | b'Y'
                    | b'c'
                    | b'g'
                    | b'k'
                    | b'o'
                    | b's'
                    | b'w'
                    | b'0'
                    | b'4'
                    | b'8'
            ),
            Base64Byte::TwoBits => matches!(byte, b'A' | b'Q' | b'g' | b'w'),
        }
    }
}

/// The text behind a group of four symbols.
fn after_group(text: &[u8]) -> Option<&[u8]>
    ensures { option_map (λ x. x.now) result ≡ cut.after_group text.now }
{
    let second = after_one(Base64Byte::SixBits, text)?;
    let third = after_one(Base64Byte::SixBits, second)?;
    let fourth = after_one(Base64Byte::SixBits, third)?;
    after_one(Base64Byte::SixBits, fourth)
}

/// The text behind all groups of four symbols that stand at its front.
#[tactic(auto, using(crate::proofs::BinaryExact::groups_loop))]
fn after_groups(text: &[u8]) -> &[u8]
    ensures { result.now ≡ cut.after_groups text.now }
{
    let mut rest = text;
    while let Some(next) = after_group(rest) {
        rest = next;
    }
    rest
}

/// The text behind what follows the first symbol of two bytes with their padding.
fn after_two_padded(text: &[u8]) -> Option<&[u8]>
    ensures { option_map (λ x. x.now) result ≡ cut.after_two_padded text.now }
{
    let third = after_one(Base64Byte::SixBits, text)?;
    after_word(b"=", after_one(Base64Byte::FourBits, third)?)
}

/// The text behind what follows the first symbol of one byte with its padding.
fn after_one_padded(text: &[u8]) -> Option<&[u8]>
    ensures { option_map (λ x. x.now) result ≡ cut.after_one_padded text.now }
{
    after_word(b"==", after_one(Base64Byte::TwoBits, text)?)
}

/// The text behind a group with padding.
fn after_padded_group(text: &[u8]) -> Option<&[u8]>
    ensures { option_map (λ x. x.now) result ≡ cut.after_padded_group text.now }
{
    let second = after_one(Base64Byte::SixBits, text)?;
    match after_two_padded(second) {
        Some(rest) => Some(rest),
        None => after_one_padded(second),
    }
}

/// The text behind base64.
fn after_base64(text: &[u8]) -> &[u8]
    ensures { Some result.now ≡ cut.after_base64 text.now }
{
    let rest = after_groups(text);
    after_padded_group(rest).unwrap_or(rest)
}

/// Whether the text is an xs:base64Binary.
#[tactic(auto, using(crate::proofs::BinaryExact::base64_exact))]
pub(crate) fn is_base64(text: &[u8]) -> bool
    ensures { IsTrue result ↔ form.base64_binary text.now }
{
    is_whole(Some(after_base64(text)))
}

/// Whether each byte is a hexadecimal digit.
#[tactic(auto, using(crate::proofs::BinaryExact::hex_digits_exact))]
fn is_hex_digits(text: &[u8]) -> bool
    ensures { IsTrue result ↔ any is_ascii_hexdigit text.now }
{
    is_whole(Some(after_any(Ascii::HexDigit, text)))
}

/// Whether the text is an xs:hexBinary.
pub(crate) fn is_hex(text: &[u8]) -> bool
    ensures { IsTrue result ↔ form.hex_binary text.now }
{
    text.len() % 2 == 0 && is_hex_digits(text)
}
