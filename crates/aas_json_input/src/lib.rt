//! What is read of an input: its bytes as a JSON value (RFC 8259), the first fault of a value by the attribute table of the
//! JSON mapping (IDTA-01001-3-0), and the tree that bytes or a value spell as an object of one sort.
//!
//! Here stands what each reader begins with, whatever it reads. How the objects of a sort are read stands with the sort.
//!
//! Proved: bytes are read as a JSON value or are none; a value has no fault, or this is its first one; what a
//! value or bytes without fault say is read. By the contract of `read_value`, `check_value`, `read_part`,
//! `read_bytes`.

#![tactic(auto)]

ghost use Rattle.std.specs.Prelude.{◌≡◌, None, Some, IfSome, length, ◌++◌, ◌∷◌, [], true, false};
ghost use Rattle.std.specs.Bool.{OnTrue};
ghost use Rattle.json.specs.Written.{PlainBetween};
ghost use Rattle.aas_json_table.specs.Misfit.{misfit};
ghost use Rattle.aas_json_table.specs.Table.{one};
ghost use Rattle.serde_json.specs.Data.{number, string};
ghost use Rattle.serde_json.specs.Read.{number_from, number_of};
ghost use Rattle.serde_json.specs.View.{number_view, view};
ghost use Rattle.aas_json_table.specs.Seen.{sort_of, levels_of};
ghost use Rattle.aas_json_spelling.specs.Reading.{reading};
ghost use Rattle.aas_json_spelling.specs.Reads.{Reads, ReadsBytes};
ghost use Rattle.aas_json_input.specs.Said.{said, Checks, GivesValue};

use aas_json_members::Part;
use aas_json_table::misfit::misfit;
use aas_json_table::pointer::pointer;
use aas_json_table::table::{MemberType, Sort};
use aas_json_table::too_deep::{Levels, too_deep};
use aas_model::ReadFault;
use fast_float::Numeral;
use json::is_number;
use serde_json::{Number, Value};
use std::alloc::Global;

/// The JSON value that the bytes are read as. They are UTF-8 and one JSON text (RFC 8259), at most 127 arrays and objects
/// deep; else the fault is `NotJson`.
pub fn read_value(alloc: Global, bytes: &[u8]) -> Result<Value, ReadFault>
    ensures { GivesValue result (reading bytes.now) }
{
    if let Some(text) = plain_string(bytes) {
        return match String::from_str(alloc, text) {
            Ok(text) => Ok(Value::String(text)),
            Err(_) => Err(ReadFault::NoMemory),
        };
    }
    match plain_number(bytes) {
        Some(number) => Ok(Value::Number(number)),
        None => read_any(alloc, bytes),
    }
}

/// The same, whatever the value is.
fn read_any(alloc: Global, bytes: &[u8]) -> Result<Value, ReadFault>
    ensures { GivesValue result (reading bytes.now) }
{
    match Value::from_slice(alloc, bytes) {
        Ok(value) => Ok(value),
        Err(error) => {
            if error.is_memory() {
                Err(ReadFault::NoMemory)
            } else {
                Err(ReadFault::NotJson)
            }
        }
    }
}

/// The text of a string in which each byte stands for itself, where the bytes are one and nothing more. Most values that are
/// sent alone are such strings or numbers, and need none of the scratch in which others are read.
#[tactic(auto, using(crate::proofs::Plain::reads_plain))]
fn plain_string(bytes: &[u8]) -> Option<&str>
    ensures { IfSome result (λ text. reading bytes.now ≡ Some (string text.now)) }
{
    let inner = between_quotes(bytes)?;
    if is_plain(inner) {
        str::from_utf8(inner).ok()
    } else {
        None
    }
}

/// What stands between a quote at the front and one at the end.
fn between_quotes(bytes: &[u8]) -> Option<&[u8]>
    ensures { IfSome result (λ inner. bytes.now ≡ 34 ∷ (inner.now ++ 34 ∷ [])) }
{
    match bytes {
        [b'"', inner @ .., b'"'] => Some(inner),
        _ => None,
    }
}

/// Whether each byte stands for itself in a string.
fn is_plain(bytes: &[u8]) -> bool
    ensures { OnTrue result (PlainBetween bytes.now 0 (length bytes.now)) }
{
    bytes
        .iter()
        .all(|byte| *byte >= 32 && *byte != b'"' && *byte != b'\\')
}

/// The number that the bytes are, where they are one and nothing more.
fn plain_number(bytes: &[u8]) -> Option<Number>
    ensures { IfSome result (λ n. reading bytes.now ≡ Some (number (number_view n))) }
{
    let first = bytes.first()?;
    if *first != b'-' && !first.is_ascii_digit() {
        return None;
    }
    number_in(str::from_utf8(bytes).ok()?)
}

/// The number that the text is, where it is one (RFC 8259, section 6).
fn number_in(text: &str) -> Option<Number>
    ensures { IfSome result (λ n. reading text.now ≡ Some (number (number_view n))) }
{
    if is_number(text) {
        number_of(text)
    } else {
        None
    }
}

/// The value of a number's text: an integer of 64 bits, or else the nearest float, where that is finite.
#[tactic(auto, unfolding(serde_json::specs::Read::number_of))]
fn number_of(text: &str) -> Option<Number>
    ensures { IfSome result (λ n. number_of text.now ≡ Some (number_view n)) }
{
    match text.as_bytes() {
        [b'-', digits @ ..] => negative_number(&Numeral::scan(digits)),
        digits => unsigned_number(&Numeral::scan(digits)),
    }
}

fn unsigned_number(numeral: &Numeral<'_>) -> Option<Number>
    ensures { IfSome result (λ n. number_from false numeral.now ≡ Some (number_view n)) }
{
    match numeral.to_u64() {
        Some(n) => Number::from_u128(n as u128),
        None => Number::from_f64(numeral.to_float::<f64>(false)),
    }
}

fn negative_number(numeral: &Numeral<'_>) -> Option<Number>
    ensures { IfSome result (λ n. number_from true numeral.now ≡ Some (number_view n)) }
{
    match numeral.to_i64(true) {
        Some(n) if n < 0 => Number::from_i128(n as i128),
        _ => Number::from_f64(numeral.to_float::<f64>(true)),
    }
}

/// Whether the value has no fault as an object of a sort, where so many levels are left: else the first mapping fault, or
/// where there is none, the first place that lies too deep. Never `NotJson`.
pub fn check_value(alloc: Global, sort: Sort, value: &Value, left: Levels) -> Result<(), ReadFault>
    ensures { Checks (sort_of sort) (levels_of left) result (view value.now) }
{
    match misfit(alloc, MemberType::One(sort), value) {
        Ok(None) => check_levels(alloc, sort, value, left),
        Ok(Some(trail)) => match pointer(alloc, &trail) {
            Ok(pointer) => Err(ReadFault::NotMapping { pointer }),
            Err(_) => Err(ReadFault::NoMemory),
        },
        Err(_) => Err(ReadFault::NoMemory),
    }
}

fn check_levels(alloc: Global, sort: Sort, value: &Value, left: Levels) -> Result<(), ReadFault>
    requires { misfit (one (sort_of sort)) (view value.now) ≡ None }
    ensures { Checks (sort_of sort) (levels_of left) result (view value.now) }
{
    match too_deep(alloc, MemberType::One(sort), value, left) {
        Ok(None) => Ok(()),
        Ok(Some(trail)) => match pointer(alloc, &trail) {
            Ok(pointer) => Err(ReadFault::TooDeep { pointer }),
            Err(_) => Err(ReadFault::NoMemory),
        },
        Err(_) => Err(ReadFault::NoMemory),
    }
}

/// The part that the value spells as an object of `sort`, which is the sort of `P`, where so many levels are left, or the
/// first fault of the value. Never `NotJson`.
pub fn read_part<P: Part>(
    alloc: Global,
    sort: Sort,
    value: &Value,
    left: Levels,
) -> Result<P::Tree, ReadFault>
    requires { sort_of sort ≡ P.sort }
    ensures { Reads (said P.sort P.spell) (levels_of left) result (view value.now) }
{
    check_value(alloc, sort, value, left)?;
    match P::tree(alloc, value) {
        Ok(Some(tree)) => Ok(tree),
        Ok(None) => unreachable!(),
        Err(_) => Err(ReadFault::NoMemory),
    }
}

/// The part that the bytes spell as a JSON text, an object of `sort`, which is the sort of `P`, where so many levels are
/// left, or the first fault.
pub fn read_bytes<P: Part>(
    alloc: Global,
    sort: Sort,
    bytes: &[u8],
    left: Levels,
) -> Result<P::Tree, ReadFault>
    requires { sort_of sort ≡ P.sort }
    ensures { ReadsBytes (said P.sort P.spell) (levels_of left) result bytes.now }
{
    let value = read_value(alloc, bytes)?;
    read_part::<P>(alloc, sort, &value, left)
}
