ghost use Rattle.std.specs.Prelude.{◌≡◌, true, codes, IfOk, IfSome, Some, option_map};
ghost use Rattle.serde_json.specs.Data.{no_items, string};
ghost use Rattle.serde_json.specs.View.{view, items_view, members_view};
ghost use Rattle.aas_model_names.specs.KindNames.{name_of};
ghost use Rattle.aas_json_table.specs.Canonical.{canonical, canonical_items, canonical_member, canonical_object};
ghost use Rattle.aas_json_table.specs.Rows.{rows_of, sorted};
ghost use Rattle.aas_json_table.specs.Table.{one, many, element, operation_variable, parts, text};
ghost use Rattle.aas_json_table.specs.Spelled.{list_of};
ghost use Rattle.aas_json_spelling.specs.Lists.{Each};
ghost use Rattle.aas_json_mapping.specs.Elements.{rows_for, spelled_child, spell_element, spell_variable};
ghost use Rattle.aas_json_mapping.specs.Shape.{IsShaped};
ghost use Rattle.aas_json_read.specs.Own.{elements_under, sort_under, spell_under, AreRead, seen, suits, may_have};
ghost use Rattle.aas_json_read.specs.Children.{AddsItems, AddsChildren};

use crate::common::common_in;
use crate::found::add_found;
use crate::payload::payload_in;
use aas_json_members::{member, word_member};
use aas_json_table::name;
use aas_model::{Element, Kind, Many, NoMemory, Role};
use serde_json::{Map, Value};
use std::alloc::Global;

/// The element that a value spells, for a place where its parent holds it in a role: an annotation is a data element.
/// `None` where the value lacks what the table demands.
#[cycle(element)]
pub(crate) fn element_of(
    alloc: Global,
    value: &Value,
    role: Role,
) -> Result<Option<Element>, NoMemory>
    ensures says { IfOk result (λ found. option_map spell_element found ≡ canonical (one (elements_under role)) (view value.now)) }
    ensures place { IfOk result (λ found. IfSome found (λ e. suits role (seen e) ≡ true)) }
{
    let Value::Object(members) = value else {
        return Ok(None);
    };
    match kind_in(members, role) {
        Some(kind) => Ok(element_in(alloc, members, kind, role)?),
        None => Ok(None),
    }
}

#[cycle(element)]
fn element_in(
    alloc: Global,
    members: &Map<String, Value>,
    kind: Kind,
    role: Role,
) -> Result<Option<Element>, NoMemory>
    requires name { Some (string (name_of kind)) ≡ canonical_member (members_view members.now.entries) (codes "modelType") text }
    requires may_have { may_have kind role ≡ true }
    ensures says { IfOk result (λ found. option_map spell_element found ≡ canonical_object (Some (sorted (rows_for (name_of kind)))) (canonical_member (members_view members.now.entries))) }
    ensures place { IfOk result (λ found. IfSome found (λ e. suits role (seen e) ≡ true)) }
{
    let common = common_in(alloc, members)?;
    let kids = kids_in(alloc, members, kind)?;
    let Some(payload) = payload_in(alloc, members, kind)? else {
        return Ok(None);
    };
    Ok(Some(Element {
        common,
        payload,
        role,
        kids,
    }))
}

/// The children of an element of a kind, in their order. A kind without children has none.
#[cycle(element)]
fn kids_in(
    alloc: Global,
    members: &Map<String, Value>,
    kind: Kind,
) -> Result<Many<Element>, NoMemory>
    ensures { IfOk result (λ kids. AreRead (canonical_member (members_view members.now.entries)) kind kids) }
{
    let none = Many::new(alloc);
    match kind {
        Kind::AnnotatedRelationshipElement => {
            Ok(children_after(alloc, none, members, name::ANNOTATIONS, Role::Annotation)?)
        }
        Kind::Entity => Ok(children_after(
            alloc,
            none,
            members,
            name::STATEMENTS,
            Role::Statement,
        )?),
        Kind::Operation => Ok(variables_in(alloc, members)?),
        Kind::SubmodelElementCollection | Kind::SubmodelElementList => {
            Ok(children_after(alloc, none, members, name::VALUE, Role::Member)?)
        }
        _ => Ok(none),
    }
}

/// The input, output and inoutput variables of an Operation, in this order.
#[cycle(element)]
fn variables_in(alloc: Global, members: &Map<String, Value>) -> Result<Many<Element>, NoMemory>
    ensures { IfOk result (λ kids. AreRead (canonical_member (members_view members.now.entries)) Kind.Operation kids) }
{
    let input = children_after(
        alloc,
        Many::new(alloc),
        members,
        name::INPUT_VARIABLES,
        Role::Input,
    )?;
    let output = children_after(alloc, input, members, name::OUTPUT_VARIABLES, Role::Output)?;
    let all = children_after(
        alloc,
        output,
        members,
        name::INOUTPUT_VARIABLES,
        Role::Inoutput,
    )?;
    Ok(all)
}

/// `before`, and behind it the children that are listed under a name, in their role.
#[cycle(element)]
fn children_after(
    alloc: Global,
    before: Many<Element>,
    members: &Map<String, Value>,
    name: &str,
    role: Role,
) -> Result<Many<Element>, NoMemory>
    ensures { IfOk result (λ all. AddsChildren role before all (canonical_member (members_view members.now.entries) name.now (many (sort_under role)))) }
{
    match member(members, name) {
        Some(Value::Array(items)) => Ok(items_after(alloc, before, items, role)?),
        _ => Ok(before),
    }
}

#[cycle(element)]
fn items_after(
    alloc: Global,
    before: Many<Element>,
    items: &Vec<Value>,
    role: Role,
) -> Result<Many<Element>, NoMemory>
    ensures { IfOk result (λ all. AddsItems role before all no_items (canonical_items (items_view items.now.items) (one (sort_under role)))) }
{
    let mut all = before;
    all.reserve(items.len())?;
    for item in items {
        add_found(&mut all, child_of(alloc, item, role)?)?;
    }
    Ok(all)
}

/// The child that a value spells, among those that have its role: the value of a variable, or the value itself.
#[cycle(element)]
fn child_of(alloc: Global, value: &Value, role: Role) -> Result<Option<Element>, NoMemory>
    ensures says { IfOk result (λ found. option_map (λ e. spell_under role (spelled_child e)) found ≡ canonical (one (sort_under role)) (view value.now)) }
    ensures place { IfOk result (λ found. IfSome found (λ e. suits role (seen e) ≡ true)) }
{
    match role {
        Role::Member | Role::Annotation | Role::Statement => Ok(element_of(alloc, value, role)?),
        Role::Input | Role::Output | Role::Inoutput => match value {
            Value::Object(members) => Ok(variable_in(alloc, members, role)?),
            _ => Ok(None),
        },
    }
}

/// The element that is the value of a variable of an Operation.
#[cycle(element)]
fn variable_in(
    alloc: Global,
    members: &Map<String, Value>,
    role: Role,
) -> Result<Option<Element>, NoMemory>
    requires { elements_under role ≡ element }
    ensures says { IfOk result (λ found. option_map (λ e. spell_variable (spelled_child e)) found ≡ canonical_object (Some (sorted (parts operation_variable))) (canonical_member (members_view members.now.entries))) }
    ensures place { IfOk result (λ found. IfSome found (λ e. suits role (seen e) ≡ true)) }
{
    match member(members, name::VALUE) {
        Some(value) => Ok(element_of(alloc, value, role)?),
        None => Ok(None),
    }
}

/// The elements that are listed under a name, in their order, as members of what lists them.
pub(crate) fn members_in(
    alloc: Global,
    members: &Map<String, Value>,
    name: &str,
) -> Result<Many<Element>, NoMemory>
    ensures says { IfOk result (λ found. list_of spell_element found ≡ canonical_member (members_view members.now.entries) name.now (many element)) }
    ensures shape { IfOk result (λ found. Each IsShaped found) }
{
    let none = Many::new(alloc);
    Ok(children_after(alloc, none, members, name, Role::Member)?)
}

/// The kind that `modelType` names, where an element of the kind may have the role.
pub(crate) fn kind_in(members: &Map<String, Value>, role: Role) -> Option<Kind>
    ensures rows { option_map (λ k. sorted (rows_for (name_of k))) result ≡ rows_of (elements_under role) (members_view members.now.entries) }
    ensures name { IfSome result (λ k. Some (string (name_of k)) ≡ canonical_member (members_view members.now.entries) (codes "modelType") text) }
    ensures may_have { IfSome result (λ k. may_have k role ≡ true) }
{
    match word_member(members, name::MODEL_TYPE) {
        Some(kind) => {
            if may_have(kind, role) {
                Some(kind)
            } else {
                None
            }
        }
        None => None,
    }
}

fn may_have(kind: Kind, role: Role) -> bool
    ensures { result ≡ may_have kind role }
{
    match role {
        Role::Annotation => kind.is_data_element(),
        _ => true,
    }
}
