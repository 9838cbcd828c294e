ghost use Rattle.std.specs.Prelude.{◌≡◌, ◌↔◌, IsTrue, IfSome, IfNone, FitsSigned};
ghost use Rattle.std.specs.Int.{w128};
ghost use Rattle.std.specs.Str.Parse.{starts_with_minus};
ghost use Rattle.std.specs.Option.{option_map};
ghost use Rattle.aas_lexical.specs.Numbers as form;
ghost use Rattle.aas_lexical.specs.Cut.Numbers as cut;

use aas_lexical_forms::{Ascii, ByteClass, after_any, after_one, after_run, after_word, is_whole};

/// The bytes that stand at places of their own in a number.
#[derive(Clone, Copy)]
pub(crate) enum NumberByte {
    /// `+` or `-`.
    Sign,
    /// `e` or `E`.
    ExponentMark,
    /// `0`.
    Zero,
    /// `1` to `9`.
    Nonzero,
}

impl ByteClass for NumberByte {
    ghost use Rattle.aas_lexical.specs.Cut.Numbers.{is_in};

    ghost is_in = { is_in };

    fn contains(self, byte: u8) -> bool {
        match self {
            NumberByte::Sign => matches!(byte, b'+' | b'-'),
            NumberByte::ExponentMark => matches!(byte, b'e' | b'E'),
            NumberByte::Zero => byte == b'0',
            NumberByte::Nonzero => matches!(byte, b'1'..=b'9'),
        }
    }
}

/// The text behind a decimal number.
fn after_decimal(text: &[u8]) -> Option<&[u8]>
    ensures { option_map (λ x. x.now) result ≡ cut.after_decimal text.now }
{
    let unsigned = after_one(NumberByte::Sign, text).unwrap_or(text);
    let Some(rest) = after_run(Ascii::Digit, unsigned) else {
        return after_run(Ascii::Digit, after_word(b".", unsigned)?);
    };
    match after_word(b".", rest) {
        Some(fraction) => Some(after_any(Ascii::Digit, fraction)),
        None => Some(rest),
    }
}

/// The text behind an exponent with its mark.
fn after_exponent(text: &[u8]) -> Option<&[u8]>
    ensures { option_map (λ x. x.now) result ≡ cut.after_exponent text.now }
{
    let signed = after_one(NumberByte::ExponentMark, text)?;
    after_run(
        Ascii::Digit,
        after_one(NumberByte::Sign, signed).unwrap_or(signed),
    )
}

/// The text behind a decimal number and an exponent, which may be left out.
fn after_decimal_with_exponent(text: &[u8]) -> Option<&[u8]>
    ensures { option_map (λ x. x.now) result ≡ cut.after_decimal_with_exponent text.now }
{
    let rest = after_decimal(text)?;
    Some(after_exponent(rest).unwrap_or(rest))
}

/// The text behind an integer.
fn after_integer(text: &[u8]) -> Option<&[u8]>
    ensures { option_map (λ x. x.now) result ≡ cut.after_integer text.now }
{
    after_run(
        Ascii::Digit,
        after_one(NumberByte::Sign, text).unwrap_or(text),
    )
}

/// Whether the text is an xs:decimal.
#[tactic(auto, using(crate::proofs::NumbersExact::decimal_exact))]
pub(crate) fn is_decimal(text: &[u8]) -> bool
    ensures { IsTrue result ↔ form.decimal text.now }
{
    is_whole(after_decimal(text))
}

/// Whether the text is a decimal number with an exponent, which may be left out.
#[tactic(auto, using(crate::proofs::NumbersExact::decimal_with_exponent_exact))]
fn is_decimal_with_exponent(text: &[u8]) -> bool
    ensures { IsTrue result ↔ form.decimal_with_exponent text.now }
{
    is_whole(after_decimal_with_exponent(text))
}

/// Whether the text is an xs:double, which is whether it is an xs:float.
pub(crate) fn is_float(text: &[u8]) -> bool
    ensures { IsTrue result ↔ form.float text.now }
{
    is_decimal_with_exponent(text) || matches!(text, b"INF" | b"+INF" | b"-INF" | b"NaN")
}

/// Whether the text is an xs:integer.
#[tactic(auto, using(crate::proofs::NumbersExact::integer_exact))]
pub(crate) fn is_integer(text: &[u8]) -> bool
    ensures { IsTrue result ↔ form.integer text.now }
{
    is_whole(after_integer(text))
}

/// The value of an integer that fits 128 bits.
#[tactic(auto, using(crate::proofs::IntegersExact::integer_numeral, crate::proofs::IntegersExact::numeral_integer))]
pub(crate) fn integer_value(text: &str) -> Option<i128>
    ensures some { IfSome result (λ z. form.integer text.now × (z ≡ form.integer_value text.now)) }
    ensures none { IfNone result (form.integer text.now → FitsSigned w128 (form.integer_value text.now) → ⊥) }
{
    text.parse().ok()
}

/// Whether a minus stands at the front.
fn has_minus(text: &[u8]) -> bool
    ensures { result ≡ starts_with_minus text.now }
{
    after_word(b"-", text).is_some()
}

/// Whether the text is an integer from `least` to `greatest`.
#[tactic(auto, using(crate::proofs::IntegersExact::between_beyond))]
pub(crate) fn is_between(least: i128, greatest: i128, text: &str) -> bool
    ensures { IsTrue result ↔ form.integer_between least greatest text.now }
{
    match integer_value(text) {
        Some(value) => (least..=greatest).contains(&value),
        None => false,
    }
}

/// Whether the text is an integer that is at least `least`.
#[tactic(auto, using(crate::proofs::IntegersExact::from_beyond))]
pub(crate) fn is_at_least(least: i128, text: &str) -> bool
    ensures { IsTrue result ↔ form.integer_from least text.now }
{
    match integer_value(text) {
        Some(value) => value >= least,
        None => is_integer(text.as_bytes()) && !has_minus(text.as_bytes()),
    }
}

/// Whether the text is an integer that is at most `greatest`.
#[tactic(auto, using(crate::proofs::IntegersExact::up_to_beyond))]
pub(crate) fn is_at_most(greatest: i128, text: &str) -> bool
    ensures { IsTrue result ↔ form.integer_up_to greatest text.now }
{
    match integer_value(text) {
        Some(value) => value <= greatest,
        None => is_integer(text.as_bytes()) && has_minus(text.as_bytes()),
    }
}
