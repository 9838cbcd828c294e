// The numbers of a value that is sent.
ghost use Rattle.std.specs.Prelude.{◌≡◌, ◌↔◌, [], Some, None, if◌then◌else◌, IfOk};
ghost use Rattle.serde_json.specs.Data.{Data};
ghost use Rattle.serde_json.specs.View.{view, number_view, items_view, members_view};
ghost use Rattle.aas_json_spelling.specs.Values.{HasWholeNumbers};
ghost use Rattle.aas_api.specs.Numbers.{broken_number, broken_number_of_items, broken_number_of_members, is_whole};

use aas_json_table::pointer::{Token, Trail};
use aas_model::NoMemory;
use serde_json::{Map, Number, Value};
use std::alloc::Global;

/// The way to the first number of a value that isn't whole, from -2^63 to 2^64 - 1. `None` where each is.
#[cycle(broken)]
pub(crate) fn broken_number(alloc: Global, value: &Value) -> Result<Option<Trail>, NoMemory>
    ensures { IfOk result (λ place. place ≡ broken_number (view value.now)) }
{
    match value {
        Value::Number(number) => Ok(broken_here(alloc, number)),
        Value::Array(items) => broken_number_of_items(alloc, items),
        Value::Object(members) => broken_number_of_members(alloc, members),
        Value::Null | Value::Bool(_) | Value::String(_) => Ok(None),
    }
}

fn broken_here(alloc: Global, number: &Number) -> Option<Trail>
    ensures { result ≡ (if is_whole (number_view number.now) then None else Some []) }
{
    if is_whole(number) {
        None
    } else {
        Some(Trail::here(alloc))
    }
}

fn is_whole(number: &Number) -> bool
    ensures { result ≡ is_whole (number_view number.now) }
{
    number.as_u64().is_some() || number.as_i64().is_some()
}

#[cycle(broken)]
fn broken_number_of_items(alloc: Global, items: &Vec<Value>) -> Result<Option<Trail>, NoMemory>
    ensures { IfOk result (λ place. place ≡ broken_number_of_items (items_view items.now.items) 0) }
{
    for (place, item) in items.iter().enumerate() {
        if let Some(trail) = broken_number(alloc, item)? {
            return Ok(Some(trail.below(Token::Item(place))?));
        }
    }
    Ok(None)
}

#[cycle(broken)]
fn broken_number_of_members(
    alloc: Global,
    members: &Map<String, Value>,
) -> Result<Option<Trail>, NoMemory>
    ensures { IfOk result (λ place. place ≡ broken_number_of_members (members_view members.now.entries)) }
{
    for (name, value) in members.iter() {
        if let Some(trail) = broken_number(alloc, value)? {
            return Ok(Some(trail.below(Token::member(alloc, name.as_str())?)?));
        }
    }
    Ok(None)
}

/// A value has no broken number exactly where each of its numbers is whole, as they are in a value that can be sent.
/// The function does nothing.
pub fn unbroken_numbers_are_whole()
    ensures { (v : Data) → (broken_number v ≡ None) ↔ HasWholeNumbers v }
{}
