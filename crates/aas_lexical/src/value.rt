ghost use Rattle.std.specs.Prelude.{◌≡◌, ◌↔◌, IsTrue, IfSome, IfNone, bytes_eq};
ghost use Rattle.aas_lexical.specs.Values as form;
ghost use Rattle.aas_lexical.specs.Natives.{is_boolean, is_numeric, is_written, truth_of, whole_of, native_of, IsNative};
ghost use Rattle.aas_lexical.specs.declared.natives.Native.{Native};

use crate::binary::{is_base64, is_hex};
use crate::date::{is_date, is_g_day, is_g_month, is_g_month_day, is_g_year, is_g_year_month};
use crate::duration::is_duration;
use crate::natives::Native;
use crate::number::{
    integer_value, is_at_least, is_at_most, is_between, is_decimal, is_float, is_integer,
};
use crate::time::{is_date_time, is_time};
use aas_model_names::ValueType;
use itoa::Buffer;

/// Whether the text is an xs:boolean.
fn is_boolean_text(text: &[u8]) -> bool
    ensures { IsTrue result ↔ form.boolean text.now }
{
    matches!(text, b"true" | b"false" | b"1" | b"0")
}

/// Whether the text has the form of the value type.
///
/// The forms are the lexical spaces of XML Schema Part 2, section 3.2 and 3.3. Integers are compared by value, whatever
/// their count of digits. Each text is an xs:string and an xs:anyURI.
pub fn fits(value_type: ValueType, text: &str) -> bool
    ensures { IsTrue result ↔ form.HasForm value_type text.now }
{
    let bytes = text.as_bytes();
    match value_type {
        ValueType::AnyUri => true,
        ValueType::Base64Binary => is_base64(bytes),
        ValueType::Boolean => is_boolean_text(bytes),
        ValueType::Byte => is_between(-128, 127, text),
        ValueType::Date => is_date(bytes),
        ValueType::DateTime => is_date_time(bytes),
        ValueType::Decimal => is_decimal(bytes),
        ValueType::Double => is_float(bytes),
        ValueType::Duration => is_duration(bytes),
        ValueType::Float => is_float(bytes),
        ValueType::GDay => is_g_day(bytes),
        ValueType::GMonth => is_g_month(bytes),
        ValueType::GMonthDay => is_g_month_day(bytes),
        ValueType::GYear => is_g_year(bytes),
        ValueType::GYearMonth => is_g_year_month(bytes),
        ValueType::HexBinary => is_hex(bytes),
        ValueType::Int => is_between(-2_147_483_648, 2_147_483_647, text),
        ValueType::Integer => is_integer(bytes),
        ValueType::Long => is_between(-9_223_372_036_854_775_808, 9_223_372_036_854_775_807, text),
        ValueType::NegativeInteger => is_at_most(-1, text),
        ValueType::NonNegativeInteger => is_at_least(0, text),
        ValueType::NonPositiveInteger => is_at_most(0, text),
        ValueType::PositiveInteger => is_at_least(1, text),
        ValueType::Short => is_between(-32_768, 32_767, text),
        ValueType::String => true,
        ValueType::Time => is_time(bytes),
        ValueType::UnsignedByte => is_between(0, 255, text),
        ValueType::UnsignedInt => is_between(0, 4_294_967_295, text),
        ValueType::UnsignedLong => is_between(0, 18_446_744_073_709_551_615, text),
        ValueType::UnsignedShort => is_between(0, 65_535, text),
    }
}

/// Whether the two texts are the same.
fn is_same(a: &[u8], b: &[u8]) -> bool
    ensures { result ≡ bytes_eq a.now b.now }
{
    a == b
}

/// Whether the number is one that is written natively.
fn is_written(value: i128) -> bool
    ensures { result ≡ is_written value }
{
    (-9_223_372_036_854_775_808..=18_446_744_073_709_551_615).contains(&value)
}

/// The whole number of which the text is the decimal text, if it is written natively.
fn whole(text: &str) -> Option<i128>
    ensures { result ≡ whole_of text.now }
{
    let value = integer_value(text)?;
    let mut buffer = Buffer::new();
    if is_written(value) && is_same(text.as_bytes(), buffer.format(value).as_bytes()) {
        Some(value)
    } else {
        None
    }
}

/// Whether the type is xs:boolean.
pub fn is_boolean(value_type: ValueType) -> bool
    ensures { result ≡ is_boolean value_type }
{
    matches!(value_type, ValueType::Boolean)
}

/// Whether whole numbers of the type are written natively.
pub fn is_numeric(value_type: ValueType) -> bool
    ensures { result ≡ is_numeric value_type }
{
    match value_type {
        ValueType::AnyUri => false,
        ValueType::Base64Binary => false,
        ValueType::Boolean => false,
        ValueType::Byte => true,
        ValueType::Date => false,
        ValueType::DateTime => false,
        ValueType::Decimal => true,
        ValueType::Double => true,
        ValueType::Duration => false,
        ValueType::Float => true,
        ValueType::GDay => false,
        ValueType::GMonth => false,
        ValueType::GMonthDay => false,
        ValueType::GYear => false,
        ValueType::GYearMonth => false,
        ValueType::HexBinary => false,
        ValueType::Int => true,
        ValueType::Integer => true,
        ValueType::Long => true,
        ValueType::NegativeInteger => true,
        ValueType::NonNegativeInteger => true,
        ValueType::NonPositiveInteger => true,
        ValueType::PositiveInteger => true,
        ValueType::Short => true,
        ValueType::String => false,
        ValueType::Time => false,
        ValueType::UnsignedByte => true,
        ValueType::UnsignedInt => true,
        ValueType::UnsignedLong => true,
        ValueType::UnsignedShort => true,
    }
}

/// The truth value of which the text is the word.
fn truth(text: &[u8]) -> Option<Native>
    ensures { result ≡ truth_of text.now }
{
    if is_same(text, b"true") {
        Some(Native::Bool(true))
    } else if is_same(text, b"false") {
        Some(Native::Bool(false))
    } else {
        None
    }
}

/// The value as which the value form writes a text of the type, or none where it writes it as a string.
///
/// `true` and `false` are written so at xs:boolean, and decimal whole numbers from -2^63 to 2^64 - 1 at the integer types,
/// xs:decimal, xs:double and xs:float, where they have no plus, no leading zero and are not `-0`.
#[tactic(auto, using(crate::proofs::NativesExact::native_some, crate::proofs::NativesExact::native_none))]
pub fn native(value_type: ValueType, text: &str) -> Option<Native>
    ensures some { IfSome result (λ n. IsNative value_type n text.now) }
    ensures none { IfNone result ((n : Native) → IsNative value_type n text.now → ⊥) }
    ensures value { result ≡ native_of value_type text.now }
{
    if is_boolean(value_type) {
        truth(text.as_bytes())
    } else if is_numeric(value_type) {
        whole(text).map(Native::Whole)
    } else {
        None
    }
}
