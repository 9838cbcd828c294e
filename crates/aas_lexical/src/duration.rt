ghost use Rattle.std.specs.Prelude.{◌≡◌, ◌↔◌, Some, IsTrue};
ghost use Rattle.std.specs.Option.{option_map};
ghost use Rattle.aas_lexical.specs.Durations as form;
ghost use Rattle.aas_lexical.specs.Cut.Durations as cut;

use crate::time::after_fraction;
use aas_lexical_forms::{Ascii, after_run, after_word, is_whole, shorter};

/// The text behind digits and the letter of a part.
fn after_part<'a>(letter: &[u8], text: &'a [u8]) -> Option<&'a [u8]>
    ensures { option_map (λ x. x.now) result ≡ cut.after_part letter.now text.now }
{
    after_word(letter, after_run(Ascii::Digit, text)?)
}

/// The text behind seconds, which may have a fraction.
fn after_seconds(text: &[u8]) -> Option<&[u8]>
    ensures { option_map (λ x. x.now) result ≡ cut.after_seconds text.now }
{
    let whole = after_run(Ascii::Digit, text)?;
    after_word(b"S", after_fraction(Ascii::Digit, whole))
}

/// The text behind years, months and days, each of which may be left out.
fn after_date_parts(text: &[u8]) -> &[u8]
    ensures { Some result.now ≡ cut.after_date_parts text.now }
{
    let months = after_part(b"Y", text).unwrap_or(text);
    let days = after_part(b"M", months).unwrap_or(months);
    after_part(b"D", days).unwrap_or(days)
}

/// The text behind hours, minutes and seconds, each of which may be left out.
fn after_time_parts(text: &[u8]) -> &[u8]
    ensures { Some result.now ≡ cut.after_time_parts text.now }
{
    let minutes = after_part(b"H", text).unwrap_or(text);
    let seconds = after_part(b"M", minutes).unwrap_or(minutes);
    after_seconds(seconds).unwrap_or(seconds)
}

/// The text behind `T` and at least one of hours, minutes and seconds.
fn after_marked_time_parts(text: &[u8]) -> Option<&[u8]>
    ensures { option_map (λ x. x.now) result ≡ cut.after_marked_time_parts text.now }
{
    let parts = after_word(b"T", text)?;
    shorter(parts, after_time_parts(parts))
}

/// The text behind at least one part.
fn after_parts(text: &[u8]) -> Option<&[u8]>
    ensures { option_map (λ x. x.now) result ≡ cut.after_parts text.now }
{
    let time = after_date_parts(text);
    shorter(text, after_marked_time_parts(time).unwrap_or(time))
}

/// The text behind a duration.
fn after_duration(text: &[u8]) -> Option<&[u8]>
    ensures { option_map (λ x. x.now) result ≡ cut.after_duration text.now }
{
    let unsigned = after_word(b"-", text).unwrap_or(text);
    after_parts(after_word(b"P", unsigned)?)
}

/// Whether the text is an xs:duration.
#[tactic(auto, using(crate::proofs::DurationsExact::duration_exact))]
pub(crate) fn is_duration(text: &[u8]) -> bool
    ensures { IsTrue result ↔ form.duration text.now }
{
    is_whole(after_duration(text))
}
