ghost use Rattle.std.specs.Prelude.{◌≡◌, ◌-◌, IfOk, option_map};
ghost use Rattle.serde_json.specs.View.{view, items_view, members_view};
ghost use Rattle.aas_json_table.specs.TooDeep.{too_deep, too_deep_items, too_deep_members, too_deep_all};
ghost use Rattle.aas_json_table.specs.TooDeep.{limits, spend, enter, enter_kept, is_shallow};
ghost use Rattle.aas_json_table.specs.Seen.{rows_in, member_type_of, sort_of, levels_of};

use crate::pointer::{Token, Trail};
use crate::table::{MemberType, Rows, Sort, rows_of};
use aas_model_text::NoMemory;
use serde_json::{Map, Value};
use std::alloc::Global;

/// How many levels are left for what lies in a JSON value.
#[derive(Clone, Copy)]
pub struct Levels {
    /// Levels of submodel elements.
    pub elements: u32,
    /// Levels of references: a reference has one, its `referredSemanticId` one more.
    pub references: u32,
    /// Levels of kept data: a list of it has one, what lies in it one more.
    pub kept: u32,
}

impl Levels {
    /// What is left at the outside of a document: 30 levels of elements, 4 of references and 12 of
    /// kept data.
    pub const LIMITS: Levels = Levels {
        elements: 30,
        references: 4,
        kept: 12,
    };

    /// What is left where a submodel element stands at this level. A direct child of a submodel has
    /// level 1, a child one more than its parent. From level 31 on none is left for the element
    /// itself.
    pub fn at_level(level: u32) -> Levels
        ensures { levels_of result ≡ record limits { elements = 31 - level } }
    {
        Levels {
            elements: (Levels::LIMITS.elements + 1).saturating_sub(level),
            ..Levels::LIMITS
        }
    }

    // What is left inside an object of a sort, or `None` where there is no level for it.
    fn enter(self, sort: Sort) -> Option<Levels>
        ensures { option_map levels_of result ≡ enter (sort_of sort) (levels_of self) }
    {
        match sort {
            Sort::Reference => Some(Levels {
                references: spend(self.references)?,
                ..self
            }),
            Sort::Element | Sort::DataElement => Some(Levels {
                elements: spend(self.elements)?,
                ..self
            }),
            _ => Some(self),
        }
    }

    // What is left inside kept data, or `None` where there is no level for it.
    fn enter_kept(self) -> Option<Levels>
        ensures { option_map levels_of result ≡ enter_kept (levels_of self) }
    {
        Some(Levels {
            kept: spend(self.kept)?,
            ..self
        })
    }
}

fn spend(left: u32) -> Option<u32>
    ensures { result ≡ spend left }
{
    left.checked_sub(1)
}

/// The first place in a JSON value that lies too deep, where `left` says how many levels are left
/// for it. Places come in the order of the first mapping fault. What does not fit the type is passed
/// over.
#[cycle(too_deep)]
pub fn too_deep(
    alloc: Global,
    member_type: MemberType,
    value: &Value,
    left: Levels,
) -> Result<Option<Trail>, NoMemory>
    ensures { IfOk result (λ place. place
        ≡ too_deep (member_type_of member_type) (view value.now) (levels_of left)) }
{
    match (member_type, value) {
        (MemberType::One(sort), Value::Object(members)) => {
            let Some(inside) = left.enter(sort) else {
                return Ok(Some(Trail::here(alloc)));
            };
            match rows_of(sort, members) {
                Some(rows) => too_deep_members(alloc, rows, members, inside),
                None => Ok(None),
            }
        }
        (MemberType::Many(sort), Value::Array(items)) => {
            too_deep_items(alloc, MemberType::One(sort), items, left)
        }
        (MemberType::Kept, Value::Array(_)) | (MemberType::Plain, _) => {
            let Some(inside) = left.enter_kept() else {
                return Ok(Some(Trail::here(alloc)));
            };
            match value {
                Value::Array(items) => too_deep_items(alloc, MemberType::Plain, items, inside),
                Value::Object(members) => too_deep_all(alloc, members, inside),
                _ => Ok(None),
            }
        }
        _ => Ok(None),
    }
}

#[cycle(too_deep)]
fn too_deep_items(
    alloc: Global,
    member_type: MemberType,
    items: &Vec<Value>,
    left: Levels,
) -> Result<Option<Trail>, NoMemory>
    ensures { IfOk result (λ place. place
        ≡ too_deep_items (items_view items.now.items) (member_type_of member_type) 0 (levels_of left)) }
{
    for (place, item) in items.iter().enumerate() {
        if let Some(trail) = too_deep(alloc, member_type, item, left)? {
            return Ok(Some(trail.below(Token::Item(place))?));
        }
    }
    Ok(None)
}

// Whether no other value lies in this one, so that nothing in it lies too deep where kept data has a level left.
fn is_shallow(value: &Value, left: Levels) -> bool
    ensures { result ≡ is_shallow (view value.now) (levels_of left) }
{
    match value {
        Value::Array(_) | Value::Object(_) => false,
        _ => left.kept > 0,
    }
}

#[cycle(too_deep)]
#[tactic(auto, using(crate::proofs::Shallow::shallow_member))]
fn too_deep_members(
    alloc: Global,
    rows: Rows,
    members: &Map<String, Value>,
    left: Levels,
) -> Result<Option<Trail>, NoMemory>
    ensures { IfOk result (λ place. place
        ≡ too_deep_members (members_view members.now.entries) (rows_in rows) (levels_of left)) }
{
    for (name, value) in members.iter() {
        if is_shallow(value, left) {
            continue;
        }
        if let Some(row) = rows.row_named(name.as_str()) {
            if let Some(trail) = too_deep(alloc, row.member_type, value, left)? {
                return Ok(Some(trail.below(Token::member(alloc, name.as_str())?)?));
            }
        }
    }
    Ok(None)
}

// The members of kept data.
#[cycle(too_deep)]
fn too_deep_all(
    alloc: Global,
    members: &Map<String, Value>,
    left: Levels,
) -> Result<Option<Trail>, NoMemory>
    ensures { IfOk result (λ place. place
        ≡ too_deep_all (members_view members.now.entries) (levels_of left)) }
{
    for (name, value) in members.iter() {
        if let Some(trail) = too_deep(alloc, MemberType::Plain, value, left)? {
            return Ok(Some(trail.below(Token::member(alloc, name.as_str())?)?));
        }
    }
    Ok(None)
}
