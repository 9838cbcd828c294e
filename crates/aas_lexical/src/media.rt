ghost use Rattle.std.specs.Prelude.{◌≡◌, ◌↔◌, IsTrue};
ghost use Rattle.std.specs.Option.{option_map};
ghost use Rattle.aas_lexical.specs.Media as form;
ghost use Rattle.aas_lexical.specs.Cut.Media as cut;

use aas_lexical_forms::{ByteClass, after_any, after_one, after_run, after_word, is_whole};

/// The bytes of a media type.
#[derive(Clone, Copy)]
enum MediaByte {
    /// A letter, a digit or one of ``!#$%&'*+-.^_`|~``.
    Token,
    /// A space or a tab.
    Space,
    /// A tab, or U+0020 to U+007E.
    Printable,
    /// A printable one other than `"` and `\`.
    Plain,
    /// The first byte of U+0080 to U+00FF.
    Lead,
    /// The second byte of U+0080 to U+00FF.
    Continuation,
}

impl ByteClass for MediaByte {
    ghost use Rattle.aas_lexical.specs.Cut.Media.{is_in};

    ghost is_in = { is_in };

    fn contains(self, byte: u8) -> bool {
        match self {
            MediaByte::Token => {
                byte.is_ascii_alphanumeric()
                    || matches!(
                        byte,
                        b'!' | b'#'
                            | b'$'
                            | b'%'
                            | b'&'
                            | b'\''
                            | b'*'
                            | b'+'
                            | b'-'
                            | b'.'
                            | b'^'
                            | b'_'
                            | b'`'
                            | b'|'
                            | b'~'
                    )
            },
            MediaByte::Space => matches!(byte, b' ' | b'\t'),
            MediaByte::Printable => matches!(byte, b'\t' | 0x20..=0x7e),
            MediaByte::Plain => matches!(byte, b'\t' | 0x20..=0x7e)
                && !matches!(byte, b'"' | b'\\'),
            MediaByte::Lead => matches!(byte, 0xc2..=0xc3),
            MediaByte::Continuation => matches!(byte, 0x80..=0xbf),
        }
    }
}

/// The text behind a character from U+0080 to U+00FF.
fn after_high(text: &[u8]) -> Option<&[u8]>
    ensures { option_map (λ x. x.now) result ≡ cut.after_high text.now }
{
    after_one(MediaByte::Continuation, after_one(MediaByte::Lead, text)?)
}

/// The text behind a `\` and any character.
fn after_pair(text: &[u8]) -> Option<&[u8]>
    ensures { option_map (λ x. x.now) result ≡ cut.after_pair text.now }
{
    let character = after_word(b"\\", text)?;
    match after_one(MediaByte::Printable, character) {
        Some(rest) => Some(rest),
        None => after_high(character),
    }
}

/// The text behind a character that stands between quotes.
fn after_quoted_character(text: &[u8]) -> Option<&[u8]>
    ensures { option_map (λ x. x.now) result ≡ cut.after_quoted_character text.now }
{
    if let Some(rest) = after_one(MediaByte::Plain, text) {
        return Some(rest);
    }
    match after_high(text) {
        Some(rest) => Some(rest),
        None => after_pair(text),
    }
}

/// The text behind all that stands between quotes.
#[tactic(auto, using(crate::proofs::MediaExact::quoted_characters_loop))]
fn after_quoted_characters(text: &[u8]) -> &[u8]
    ensures { result.now ≡ cut.after_quoted_characters text.now }
{
    let mut rest = text;
    while let Some(next) = after_quoted_character(rest) {
        rest = next;
    }
    rest
}

/// The text behind a quoted text.
fn after_quoted(text: &[u8]) -> Option<&[u8]>
    ensures { option_map (λ x. x.now) result ≡ cut.after_quoted text.now }
{
    let characters = after_word(b"\"", text)?;
    after_word(b"\"", after_quoted_characters(characters))
}

/// The text behind the value of a parameter.
fn after_value(text: &[u8]) -> Option<&[u8]>
    ensures { option_map (λ x. x.now) result ≡ cut.after_value text.now }
{
    match after_run(MediaByte::Token, text) {
        Some(rest) => Some(rest),
        None => after_quoted(text),
    }
}

/// The text behind a parameter with its semicolon.
fn after_parameter(text: &[u8]) -> Option<&[u8]>
    ensures { option_map (λ x. x.now) result ≡ cut.after_parameter text.now }
{
    let semicolon = after_any(MediaByte::Space, text);
    let name = after_any(MediaByte::Space, after_word(b";", semicolon)?);
    after_value(after_word(b"=", after_run(MediaByte::Token, name)?)?)
}

/// The text behind all parameters that stand at its front.
#[tactic(auto, using(crate::proofs::MediaExact::parameters_loop))]
fn after_parameters(text: &[u8]) -> &[u8]
    ensures { result.now ≡ cut.after_parameters text.now }
{
    let mut rest = text;
    while let Some(next) = after_parameter(rest) {
        rest = next;
    }
    rest
}

/// The text behind a media type.
fn after_media_type(text: &[u8]) -> Option<&[u8]>
    ensures { option_map (λ x. x.now) result ≡ cut.after_media_type text.now }
{
    let subtype = after_word(b"/", after_run(MediaByte::Token, text)?)?;
    Some(after_parameters(after_run(MediaByte::Token, subtype)?))
}

/// Whether the text is a media type, as `text/plain; charset=utf-8`.
///
/// RFC 9110, section 8.3.1, and IDTA-01001-3-0, ContentType.
#[tactic(auto, using(crate::proofs::MediaExact::media_type_exact))]
pub fn is_media_type(text: &str) -> bool
    ensures { IsTrue result ↔ form.media_type text.now }
{
    is_whole(after_media_type(text.as_bytes()))
}
