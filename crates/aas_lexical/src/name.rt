ghost use Rattle.std.specs.Prelude.{◌≡◌, ◌↔◌, length, IsTrue};
ghost use Rattle.std.specs.Option.{option_map};
ghost use Rattle.std.specs.Str.{chars};
ghost use Rattle.aas_lexical.specs.Names as form;
ghost use Rattle.aas_lexical.specs.Cut.Names as cut;

use crate::number::NumberByte;
use aas_lexical_forms::{
    Ascii, ByteClass, after_any, after_one, after_run, after_word, is_whole, within,
};

/// The most characters that a short name has.
///
/// IDTA-01001-3-0, NameType.
pub const MOST_NAME_CHARACTERS: usize = 128;

/// The most characters that an identifier has.
const MOST_IDENTIFIER_CHARACTERS: usize = 2048;

/// What follows the first letter of a name: an ASCII letter, a digit or `_`.
///
/// IDTA-01001-3-0, constraint AASd-002.
#[derive(Clone, Copy)]
pub struct NameCharacter;

impl ByteClass for NameCharacter {
    ghost use Rattle.aas_lexical.specs.Names.{is_name_character};

    ghost is_in = { λ _. is_name_character };

    fn contains(self, byte: u8) -> bool {
        byte.is_ascii_alphanumeric() || byte == b'_'
    }
}

/// The text behind a minus and 1 to 8 letters or digits.
fn after_subtag(text: &[u8]) -> Option<&[u8]>
    ensures { option_map (λ x. x.now) result ≡ cut.after_subtag text.now }
{
    let subtag = after_word(b"-", text)?;
    within(8, subtag, after_run(Ascii::Alphanumeric, subtag)?)
}

/// The text behind all groups of a minus and 1 to 8 letters or digits that stand at its front.
#[tactic(auto, using(crate::proofs::NamesExact::subtags_loop))]
fn after_subtags(text: &[u8]) -> &[u8]
    ensures { result.now ≡ cut.after_subtags text.now }
{
    let mut rest = text;
    while let Some(next) = after_subtag(rest) {
        rest = next;
    }
    rest
}

/// The text behind a language.
fn after_language(text: &[u8]) -> Option<&[u8]>
    ensures { option_map (λ x. x.now) result ≡ cut.after_language text.now }
{
    let subtags = within(8, text, after_run(Ascii::Letter, text)?)?;
    Some(after_subtags(subtags))
}

/// The text behind a version.
fn after_version(text: &[u8]) -> Option<&[u8]>
    ensures { option_map (λ x. x.now) result ≡ cut.after_version text.now }
{
    if let Some(rest) = after_word(b"0", text) {
        return Some(rest);
    }
    let digits = after_one(NumberByte::Nonzero, text)?;
    within(3, digits, after_any(Ascii::Digit, digits))
}

/// The text behind a letter, and the letters, digits and `_` that follow it.
fn after_name(text: &[u8]) -> Option<&[u8]>
    ensures { option_map (λ x. x.now) result ≡ cut.after_name text.now }
{
    Some(after_any(NameCharacter, after_one(Ascii::Letter, text)?))
}

/// Whether the text is a language tag, as `de-CH-1996`: 1 to 8 letters, and groups of `-` and 1 to 8 letters or digits.
///
/// XML Schema Part 2, section 3.3.3.
#[tactic(auto, using(crate::proofs::NamesExact::language_exact))]
pub fn is_language(text: &str) -> bool
    ensures { IsTrue result ↔ form.language text.now }
{
    is_whole(after_language(text.as_bytes()))
}

/// Whether the text is a version or a revision: `0`, or 1 to 4 digits without a leading zero.
///
/// IDTA-01001-3-0, AdministrativeInformation.
#[tactic(auto, using(crate::proofs::NamesExact::version_exact))]
pub fn is_version(text: &str) -> bool
    ensures { IsTrue result ↔ form.version text.now }
{
    is_whole(after_version(text.as_bytes()))
}

/// Whether the text is a name: an ASCII letter, and then ASCII letters, digits and `_`, as many as there may be.
///
/// IDTA-01001-3-0, constraint AASd-002.
#[tactic(auto, using(crate::proofs::NamesExact::name_exact))]
pub fn is_name(text: &str) -> bool
    ensures { IsTrue result ↔ form.name text.now }
{
    is_whole(after_name(text.as_bytes()))
}

/// Whether the text is a short name: a name of at most 128 characters.
///
/// IDTA-01001-3-0, constraint AASd-002 and NameType.
pub fn is_id_short(text: &str) -> bool
    ensures { IsTrue result ↔ form.id_short text.now }
{
    text.len() <= MOST_NAME_CHARACTERS && is_name(text)
}

/// How many characters the text has.
fn character_count(text: &str) -> usize
    ensures { result ≡ length (chars text.now) }
{
    text.chars().count()
}

/// Whether the text is an identifier, which has 1 to 2048 characters.
pub fn is_identifier(text: &str) -> bool
    ensures { IsTrue result ↔ form.IsIdentifier (chars text.now) }
{
    (1..=MOST_IDENTIFIER_CHARACTERS).contains(&character_count(text))
}

/// Whether a text may have the character.
fn is_string_character(c: char) -> bool
    ensures { result ≡ form.is_string_character c }
{
    matches!(c, '\t' | '\n' | '\r' | ' '..='\u{d7ff}' | '\u{e000}'..='\u{fffd}' | '\u{10000}'..='\u{10ffff}')
}

/// Whether the text has only characters that a text of the metamodel may have, which are those of XML 1.0.
///
/// IDTA-01001-3-0, constraint AASd-130.
pub fn is_string(text: &str) -> bool
    ensures { IsTrue result ↔ form.IsString (chars text.now) }
{
    text.chars().all(|c| is_string_character(c))
}
