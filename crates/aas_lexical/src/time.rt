ghost use Rattle.std.specs.Prelude.{◌≡◌, ◌↔◌, Some, IsTrue};
ghost use Rattle.std.specs.Option.{option_map};
ghost use Rattle.aas_lexical.specs.Times as form;
ghost use Rattle.aas_lexical.specs.Cut.Times as cut;

use crate::date::{after_day, after_zone};
use crate::number::NumberByte;
use aas_lexical_forms::{Ascii, ByteClass, after_run, after_two_digits, after_word, is_whole};

/// The text behind a fraction of such digits, which may be left out.
pub(crate) fn after_fraction<C: ByteClass>(digit: C, text: &[u8]) -> &[u8]
    ensures { Some result.now ≡ cut.after_fraction (C.is_in digit) text.now }
{
    match after_word(b".", text) {
        Some(digits) => after_run(digit, digits).unwrap_or(text),
        None => text,
    }
}

/// The text behind a time of the day.
fn after_clock(text: &[u8]) -> Option<&[u8]>
    ensures { option_map (λ x. x.now) result ≡ cut.after_clock text.now }
{
    let (hours, rest) = after_two_digits(text)?;
    let (minutes, rest) = after_two_digits(after_word(b":", rest)?)?;
    let (seconds, rest) = after_two_digits(after_word(b":", rest)?)?;
    if hours <= 23 && minutes <= 59 && seconds <= 59 {
        Some(after_fraction(Ascii::Digit, rest))
    } else if hours == 24 && minutes == 0 && seconds == 0 {
        Some(after_fraction(NumberByte::Zero, rest))
    } else {
        None
    }
}

/// The text behind a time of the day and a zone.
fn after_time(text: &[u8]) -> Option<&[u8]>
    ensures { option_map (λ x. x.now) result ≡ cut.after_time text.now }
{
    Some(after_zone(after_clock(text)?))
}

/// The text behind a day and a time of it.
fn after_moment(text: &[u8]) -> Option<&[u8]>
    ensures { option_map (λ x. x.now) result ≡ cut.after_moment text.now }
{
    after_clock(after_word(b"T", after_day(text)?)?)
}

/// The text behind a day, a time of it and a zone.
fn after_date_time(text: &[u8]) -> Option<&[u8]>
    ensures { option_map (λ x. x.now) result ≡ cut.after_date_time text.now }
{
    Some(after_zone(after_moment(text)?))
}

/// The text behind a zone that says UTC.
fn after_utc(text: &[u8]) -> Option<&[u8]>
    ensures { option_map (λ x. x.now) result ≡ cut.after_utc text.now }
{
    if let Some(rest) = after_word(b"Z", text) {
        return Some(rest);
    }
    match after_word(b"+00:00", text) {
        Some(rest) => Some(rest),
        None => after_word(b"-00:00", text),
    }
}

/// The text behind a moment in UTC.
fn after_utc_date_time(text: &[u8]) -> Option<&[u8]>
    ensures { option_map (λ x. x.now) result ≡ cut.after_utc_date_time text.now }
{
    after_utc(after_moment(text)?)
}

/// Whether the text is an xs:time.
#[tactic(auto, using(crate::proofs::TimesExact::time_exact))]
pub(crate) fn is_time(text: &[u8]) -> bool
    ensures { IsTrue result ↔ form.time text.now }
{
    is_whole(after_time(text))
}

/// Whether the text is an xs:dateTime.
#[tactic(auto, using(crate::proofs::TimesExact::date_time_exact))]
pub(crate) fn is_date_time(text: &[u8]) -> bool
    ensures { IsTrue result ↔ form.date_time text.now }
{
    is_whole(after_date_time(text))
}

/// Whether the text is an xs:dateTime in UTC: its zone is `Z`, `+00:00` or `-00:00`.
///
/// So is the time of an event's last update: IDTA-01001-3-0, BasicEventElement.
#[tactic(auto, using(crate::proofs::TimesExact::utc_date_time_exact))]
pub fn is_utc_date_time(text: &str) -> bool
    ensures { IsTrue result ↔ form.utc_date_time text.now }
{
    is_whole(after_utc_date_time(text.as_bytes()))
}
