ghost use Rattle.std.specs.Prelude.{◌≡◌, [], ◌∷◌, Some, IfOk};
ghost use Rattle.serde_json.specs.Data.{array};
ghost use Rattle.serde_json.specs.Find.{get_member};
ghost use Rattle.serde_json.specs.View.{view, items_view, members_view};
ghost use Rattle.aas_json_table.specs.Misfit.{misfit, misfit_object, misfit_items, misfit_members};
ghost use Rattle.aas_json_table.specs.Misfit.{misfit_all, missing};
ghost use Rattle.aas_json_table.specs.Rows.{in_member, is_there, rows_of};
ghost use Rattle.aas_json_table.specs.Seen.{rows_in, member_type_of, sort_of};

use crate::name;
use crate::pointer::{Token, Trail};
use crate::table::{MemberType, Rows, Sort, member, rows_of};
use aas_model_text::NoMemory;
use serde_json::{Map, Value};
use std::alloc::Global;

/// The first mapping fault of a JSON value as a member of a type: where it first departs from the attribute
/// table. `None` where it does not.
#[cycle(misfit)]
pub fn misfit(
    alloc: Global,
    member_type: MemberType,
    value: &Value,
) -> Result<Option<Trail>, NoMemory>
    ensures { IfOk result (λ fault. fault ≡ misfit (member_type_of member_type) (view value.now)) }
{
    match (member_type, value) {
        (MemberType::Text, Value::String(_)) => Ok(None),
        (MemberType::Flag, Value::Bool(_)) => Ok(None),
        (MemberType::Word(names), Value::String(text)) if names.contain(text.as_str()) => Ok(None),
        (MemberType::One(sort), Value::Object(members)) => misfit_object(alloc, sort, members),
        (MemberType::Many(sort), Value::Array(items)) => misfit_items(
            alloc,
            MemberType::One(sort),
            items,
        ),
        (MemberType::Kept | MemberType::Plain, Value::Array(items)) => misfit_items(
            alloc,
            MemberType::Plain,
            items,
        ),
        (MemberType::Plain, Value::Null | Value::Bool(_) | Value::String(_)) => Ok(None),
        (MemberType::Plain, Value::Object(members)) => misfit_all(alloc, members),
        _ => Ok(Some(Trail::here(alloc))),
    }
}

#[cycle(misfit)]
fn misfit_object(
    alloc: Global,
    sort: Sort,
    members: &Map<String, Value>,
) -> Result<Option<Trail>, NoMemory>
    ensures { IfOk result (λ fault. let ms = members_view members.now.entries in
        fault ≡ misfit_object (rows_of (sort_of sort) ms) (misfit_members ms) ms) }
{
    let Some(rows) = rows_of(sort, members) else {
        return Ok(Some(at_member(alloc, name::MODEL_TYPE)?));
    };
    match misfit_members(alloc, rows, members)? {
        Some(trail) => Ok(Some(trail)),
        None => missing_member(alloc, rows, members),
    }
}

#[cycle(misfit)]
fn misfit_items(
    alloc: Global,
    member_type: MemberType,
    items: &Vec<Value>,
) -> Result<Option<Trail>, NoMemory>
    ensures { IfOk result (λ fault. fault
        ≡ misfit_items (items_view items.now.items) (member_type_of member_type) 0) }
{
    for (place, item) in items.iter().enumerate() {
        if let Some(trail) = misfit(alloc, member_type, item)? {
            return Ok(Some(trail.below(Token::Item(place))?));
        }
    }
    Ok(None)
}

#[cycle(misfit)]
fn misfit_members(
    alloc: Global,
    rows: Rows,
    members: &Map<String, Value>,
) -> Result<Option<Trail>, NoMemory>
    ensures { IfOk result (λ fault. fault
        ≡ misfit_members (members_view members.now.entries) (rows_in rows)) }
{
    for (name, value) in members.iter() {
        let Some(row) = rows.row_named(name.as_str()) else {
            return Ok(Some(at_member(alloc, name.as_str())?));
        };
        if let Some(trail) = misfit(alloc, row.member_type, value)? {
            return Ok(Some(trail.below(Token::member(alloc, name.as_str())?)?));
        }
    }
    Ok(None)
}

// The members of kept data.
#[cycle(misfit)]
fn misfit_all(alloc: Global, members: &Map<String, Value>) -> Result<Option<Trail>, NoMemory>
    ensures { IfOk result (λ fault. fault ≡ misfit_all (members_view members.now.entries)) }
{
    for (name, value) in members.iter() {
        if let Some(trail) = misfit(alloc, MemberType::Plain, value)? {
            return Ok(Some(trail.below(Token::member(alloc, name.as_str())?)?));
        }
    }
    Ok(None)
}

// The first required member that is absent.
fn missing_member(
    alloc: Global,
    rows: Rows,
    members: &Map<String, Value>,
) -> Result<Option<Trail>, NoMemory>
    ensures { IfOk result (λ fault. fault
        ≡ missing (rows_in rows) (members_view members.now.entries)) }
{
    for row in rows.all {
        if rows.count(row) && row.required && !is_there(members, row.name) {
            return Ok(Some(at_member(alloc, row.name)?));
        }
    }
    Ok(None)
}

fn at_member(alloc: Global, name: &str) -> Result<Trail, NoMemory>
    ensures { IfOk result (λ trail. trail ≡ in_member name.now ∷ []) }
{
    Trail::here(alloc).below(Token::member(alloc, name)?)
}

// An empty list is as if it were absent.
fn is_there(members: &Map<String, Value>, name: &str) -> bool
    ensures { result ≡ is_there (get_member name.now (members_view members.now.entries)) }
{
    match member(members, name) {
        None => false,
        Some(Value::Array(items)) => has_items(items),
        Some(_) => true,
    }
}

#[tactic(auto, using(crate::proofs::Lists::is_there_list))]
fn has_items(items: &Vec<Value>) -> bool
    ensures { result ≡ is_there (Some (array (items_view items.now.items))) }
{
    !items.is_empty()
}
