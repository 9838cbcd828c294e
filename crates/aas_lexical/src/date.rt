ghost use Rattle.std.specs.Prelude.{◌≡◌, ◌↔◌, ◌<◌, Some, IsTrue};
ghost use Rattle.std.specs.Option.{option_map};
ghost use Rattle.aas_lexical.specs.Dates as form;
ghost use Rattle.aas_lexical.specs.Cut.Dates as cut;

use crate::number::NumberByte;
use aas_lexical_forms::{after_four_digits, after_one, after_two_digits, after_word, is_whole};
use jiff::civil::Date;

/// A year in which February has 29 days.
const LEAP_YEAR: u16 = 2000;

/// Whether the calendar has the day.
fn is_day(year: u16, month: u16, day: u16) -> bool
    requires years { year < 10000 }
    requires months { month < 100 }
    requires days { day < 100 }
    ensures { result ≡ cut.is_day year month day }
{
    Date::new(year as i16, month as i8, day as i8).is_ok()
}

/// The text behind the hours and minutes of a zone, which are at most 14:00.
fn after_offset(text: &[u8]) -> Option<&[u8]>
    ensures { option_map (λ x. x.now) result ≡ cut.after_offset text.now }
{
    let (hours, rest) = after_two_digits(text)?;
    let (minutes, rest) = after_two_digits(after_word(b":", rest)?)?;
    if hours <= 13 && minutes <= 59 || hours == 14 && minutes == 0 {
        Some(rest)
    } else {
        None
    }
}

/// The text behind a zone, which may be left out.
pub(crate) fn after_zone(text: &[u8]) -> &[u8]
    ensures { Some result.now ≡ cut.after_zone text.now }
{
    if let Some(rest) = after_word(b"Z", text) {
        return rest;
    }
    match after_one(NumberByte::Sign, text) {
        Some(offset) => after_offset(offset).unwrap_or(text),
        None => text,
    }
}

/// The text behind a day of the calendar.
pub(crate) fn after_day(text: &[u8]) -> Option<&[u8]>
    ensures { option_map (λ x. x.now) result ≡ cut.after_day text.now }
{
    let (year, rest) = after_four_digits(text)?;
    let (month, rest) = after_two_digits(after_word(b"-", rest)?)?;
    let (day, rest) = after_two_digits(after_word(b"-", rest)?)?;
    if is_day(year, month, day) {
        Some(rest)
    } else {
        None
    }
}

/// The text behind a month and a day that it has in a leap year.
fn after_day_of_leap_year(text: &[u8]) -> Option<&[u8]>
    ensures { option_map (λ x. x.now) result ≡ cut.after_day_of_leap_year text.now }
{
    let (month, rest) = after_two_digits(text)?;
    let (day, rest) = after_two_digits(after_word(b"-", rest)?)?;
    if is_day(LEAP_YEAR, month, day) {
        Some(rest)
    } else {
        None
    }
}

/// The text behind a month.
fn after_month(text: &[u8]) -> Option<&[u8]>
    ensures { option_map (λ x. x.now) result ≡ cut.after_month text.now }
{
    let (month, rest) = after_two_digits(text)?;
    if (1..=12).contains(&month) {
        Some(rest)
    } else {
        None
    }
}

/// The text behind a day that some month has.
fn after_day_of_month(text: &[u8]) -> Option<&[u8]>
    ensures { option_map (λ x. x.now) result ≡ cut.after_day_of_month text.now }
{
    let (day, rest) = after_two_digits(text)?;
    if (1..=31).contains(&day) {
        Some(rest)
    } else {
        None
    }
}

/// The text behind a date.
fn after_date(text: &[u8]) -> Option<&[u8]>
    ensures { option_map (λ x. x.now) result ≡ cut.after_date text.now }
{
    Some(after_zone(after_day(text)?))
}

/// The text behind a year and a month.
fn after_g_year_month(text: &[u8]) -> Option<&[u8]>
    ensures { option_map (λ x. x.now) result ≡ cut.after_g_year_month text.now }
{
    let (_, rest) = after_four_digits(text)?;
    Some(after_zone(after_month(after_word(b"-", rest)?)?))
}

/// The text behind a year.
fn after_g_year(text: &[u8]) -> Option<&[u8]>
    ensures { option_map (λ x. x.now) result ≡ cut.after_g_year text.now }
{
    let (_, rest) = after_four_digits(text)?;
    Some(after_zone(rest))
}

/// The text behind a month and a day of it.
fn after_g_month_day(text: &[u8]) -> Option<&[u8]>
    ensures { option_map (λ x. x.now) result ≡ cut.after_g_month_day text.now }
{
    Some(after_zone(after_day_of_leap_year(after_word(b"--", text)?)?))
}

/// The text behind a day of a month.
fn after_g_day(text: &[u8]) -> Option<&[u8]>
    ensures { option_map (λ x. x.now) result ≡ cut.after_g_day text.now }
{
    Some(after_zone(after_day_of_month(after_word(b"---", text)?)?))
}

/// The text behind a month of a year.
fn after_g_month(text: &[u8]) -> Option<&[u8]>
    ensures { option_map (λ x. x.now) result ≡ cut.after_g_month text.now }
{
    Some(after_zone(after_month(after_word(b"--", text)?)?))
}

/// Whether the text is an xs:date.
#[tactic(auto, using(crate::proofs::DatesExact::date_exact))]
pub(crate) fn is_date(text: &[u8]) -> bool
    ensures { IsTrue result ↔ form.date text.now }
{
    is_whole(after_date(text))
}

/// Whether the text is an xs:gYearMonth.
#[tactic(auto, using(crate::proofs::DatesExact::g_year_month_exact))]
pub(crate) fn is_g_year_month(text: &[u8]) -> bool
    ensures { IsTrue result ↔ form.g_year_month text.now }
{
    is_whole(after_g_year_month(text))
}

/// Whether the text is an xs:gYear.
#[tactic(auto, using(crate::proofs::DatesExact::g_year_exact))]
pub(crate) fn is_g_year(text: &[u8]) -> bool
    ensures { IsTrue result ↔ form.g_year text.now }
{
    is_whole(after_g_year(text))
}

/// Whether the text is an xs:gMonthDay.
#[tactic(auto, using(crate::proofs::DatesExact::g_month_day_exact))]
pub(crate) fn is_g_month_day(text: &[u8]) -> bool
    ensures { IsTrue result ↔ form.g_month_day text.now }
{
    is_whole(after_g_month_day(text))
}

/// Whether the text is an xs:gDay.
#[tactic(auto, using(crate::proofs::DatesExact::g_day_exact))]
pub(crate) fn is_g_day(text: &[u8]) -> bool
    ensures { IsTrue result ↔ form.g_day text.now }
{
    is_whole(after_g_day(text))
}

/// Whether the text is an xs:gMonth.
#[tactic(auto, using(crate::proofs::DatesExact::g_month_exact))]
pub(crate) fn is_g_month(text: &[u8]) -> bool
    ensures { IsTrue result ↔ form.g_month text.now }
{
    is_whole(after_g_month(text))
}
