ghost use Rattle.std.specs.Prelude.{◌≡◌, ◌↔◌, ◌<◌, Some, [], IsTrue, IfSome};
ghost use Rattle.std.specs.Option.{option_map};
ghost use Rattle.aas_lexical_forms.specs.Cut as cut;

use crate::ascii::ByteClass;

/// The text behind the word, if it begins with it.
pub fn after_word<'a>(word: &[u8], text: &'a [u8]) -> Option<&'a [u8]>
    ensures { option_map (λ x. x.now) result ≡ cut.after_word word.now text.now }
{
    text.strip_prefix(word)
}

/// The text behind one byte of the class.
pub fn after_one<C: ByteClass>(class: C, text: &[u8]) -> Option<&[u8]>
    ensures { option_map (λ x. x.now) result ≡ cut.after_one (C.is_in class) text.now }
{
    match text {
        [first, rest @ ..] if class.contains(*first) => Some(rest),
        _ => None,
    }
}

/// The text behind all bytes of the class that stand at its front, of which there may be none.
pub fn after_any<C: ByteClass>(class: C, text: &[u8]) -> &[u8]
    ensures { result.now ≡ cut.after_any (C.is_in class) text.now }
{
    for i in 0..text.len() {
        if !class.contains(text[i]) {
            return &text[i..];
        }
    }
    &[]
}

/// The text behind all bytes of the class that stand at its front, of which there is at least one.
pub fn after_run<C: ByteClass>(class: C, text: &[u8]) -> Option<&[u8]>
    ensures { option_map (λ x. x.now) result ≡ cut.after_run (C.is_in class) text.now }
{
    Some(after_any(class, after_one(class, text)?))
}

/// The number that the two digits at the front write, and the text behind them.
pub fn after_two_digits(text: &[u8]) -> Option<(u16, &[u8])>
    ensures value { option_map (λ x. (x.0, x.1.now)) result ≡ cut.after_two_digits text.now }
    ensures below { IfSome result (λ x. x.0 < 100) }
{
    match text {
        [tens, ones, rest @ ..] if tens.is_ascii_digit() && ones.is_ascii_digit() => {
            Some((u16::from(*tens - b'0') * 10 + u16::from(*ones - b'0'), rest))
        },
        _ => None,
    }
}

/// The number that the four digits at the front write, and the text behind them.
pub fn after_four_digits(text: &[u8]) -> Option<(u16, &[u8])>
    ensures value { option_map (λ x. (x.0, x.1.now)) result ≡ cut.after_four_digits text.now }
    ensures below { IfSome result (λ x. x.0 < 10000) }
{
    let (hundreds, rest) = after_two_digits(text)?;
    let (ones, rest) = after_two_digits(rest)?;
    Some((hundreds * 100 + ones, rest))
}

/// The rest of the text, if something stands before it.
pub fn shorter<'a>(text: &[u8], rest: &'a [u8]) -> Option<&'a [u8]>
    ensures { option_map (λ x. x.now) result ≡ cut.shorter text.now rest.now }
{
    (rest.len() < text.len()).then_some(rest)
}

/// The rest of the text, if no more than `most` bytes stand before it.
pub fn within<'a>(most: usize, text: &[u8], rest: &'a [u8]) -> Option<&'a [u8]>
    ensures { option_map (λ x. x.now) result ≡ cut.within most text.now rest.now }
{
    (text.len().saturating_sub(rest.len()) <= most).then_some(rest)
}

/// Whether a form was found, and nothing is left behind it.
pub fn is_whole(rest: Option<&[u8]>) -> bool
    ensures { IsTrue result ↔ (option_map (λ x. x.now) rest.entry ≡ Some []) }
{
    matches!(rest, Some([]))
}
