ghost use Rattle.std.specs.Prelude.{◌≡◌, ◌≤◌, ◌∷◌, true, false, List, codes, map, IfOk, IfSome, IfNone};
ghost use Rattle.serde_json.specs.Data.{object, array};
ghost use Rattle.serde_json.specs.Find.{get_member};
ghost use Rattle.serde_json.specs.View.{view, items_view, members_view};
ghost use Rattle.aas_json_spelling.specs.Values.{IsOrdered, HasOrder};
ghost use Rattle.aas_model.specs.declared.payload.Payload.TheVariants as p;
ghost use Rattle.aas_value_update.specs.Forms.{part_of};
ghost use Rattle.aas_path_trees.specs.Children.{is_list_payload};
ghost use Rattle.aas_path_trees.specs.Places.{Differ};
ghost use Rattle.aas_value.specs.Children.{Child};
ghost use Rattle.aas_value.specs.Parts.{Part, object_of, entries_of, members_fit, items_fit, entries_fit, fits_if};
ghost use Rattle.aas_value.specs.Parts.{fits_form};
ghost use Rattle.aas_value_update.specs.Shape.{under_name, by_names, by_entries, items_in, if_sent};
ghost use Rattle.aas_value_patch.specs.Counted.{one_if_some, found};
ghost use Rattle.aas_value_patch.specs.Faults.{Judges};
ghost use Rattle.aas_value_patch.specs.Sent.{sent_by};
ghost use Rattle.aas_value_patch.specs.Steps.{Stepped};

use crate::fault::Misfit;
use crate::members::{has_only_four, has_only_three};
use crate::references::{reference_under, specifics_under};
use crate::sent::{Sent, entry_at, has_form, member_for};
use crate::slots::{entity_type_under, text_or_null_under};
use crate::step::Step;
use aas_json_table::name;
use aas_json_table::table::member;
use aas_model::{Duplicate, Element, EntityType, Many, Payload, Reference, SpecificAssetId, Text};
use serde_json::{Map, Value};
use std::alloc::Global;

/// 1 where the object has a member for the child, and else 0.
fn count_one(members: &Map<String, Value>, kid: &Element) -> usize
    ensures value { result
        ≡ one_if_some (under_name (object (members_view members.now.entries)) (part_of kid.now).child) }
    ensures small { result ≤ 1 }
{
    match member_for(members, kid) {
        Some(_) => 1,
        None => 0,
    }
}

/// How many of the children the object has a member for.
fn count_found(kids: &[Element], members: &Map<String, Value>) -> usize
    ensures { result ≡ found (map part_of kids.now) (members_view members.now.entries) }
{
    let mut count = 0;
    for kid in kids {
        count += count_one(members, kid);
    }
    count
}

/// Whether each member of the object has the name of a child with a value form.
fn names_fit(kids: &Many<Element>, members: &Map<String, Value>) -> bool
    ensures { Differ kids.now → HasOrder (members_view members.now.entries) → result
        ≡ members_fit (map part_of kids.now) (members_view members.now.entries) }
{
    count_found(kids.as_slice(), members) == members.len()
}

/// A SubmodelElementCollection sends each member to the child of its name.
fn collection_in<'v>(
    kids: &Many<Element>,
    members: &'v Map<String, Value>,
) -> Result<Step<'v>, Misfit>
    ensures { Differ kids.now → HasOrder (members_view members.now.entries)
        → Stepped result p.SubmodelElementCollection (map part_of kids.now)
        (object (members_view members.now.entries)) }
{
    let kids = names_in(kids, members)?;
    Ok(Step {
        payload: Payload::SubmodelElementCollection,
        kids,
    })
}

/// The items behind that of a child, or `None` where the child lacks one.
#[tactic(auto, using(crate::proofs::Children::fit_past, crate::proofs::Children::fit_short, crate::proofs::Children::fit_first))]
fn items_behind<'v>(items: &'v [Value], kid: &Element) -> Option<&'v [Value]>
    ensures some { IfSome result (λ behind. (xs : List Part) → items_fit (part_of kid.now ∷ xs) (items_view items.now)
        ≡ items_fit xs (items_view behind.now)) }
    ensures none { IfNone result ((xs : List Part) → items_fit (part_of kid.now ∷ xs) (items_view items.now) ≡ false) }
{
    if !has_form(kid) {
        return Some(items);
    }
    match items {
        [] => None,
        [_, behind @ ..] => Some(behind),
    }
}

/// Whether there is exactly one item for each child with a value form.
fn items_fit(kids: &Many<Element>, items: &[Value]) -> bool
    ensures { result ≡ items_fit (map part_of kids.now) (items_view items.now) }
{
    let mut left = items;
    for kid in kids.as_slice() {
        match items_behind(left, kid) {
            Some(behind) => left = behind,
            None => return false,
        }
    }
    left.is_empty()
}

/// A SubmodelElementList sends the items to the children in turn.
fn list_in<'v>(list: &Payload, kids: &Many<Element>, items: &'v [Value]) -> Result<Step<'v>, Misfit>
    ensures { is_list_payload list.now ≡ true
        → Stepped result list.now (map part_of kids.now) (array (items_view items.now)) }
{
    if !items_fit(kids, items) {
        return Err(Misfit::Shape);
    }
    Ok(Step {
        payload: list.copy()?,
        kids: Sent::InTurn(items),
    })
}

/// Each member for the child of its name.
fn names_in<'v>(kids: &Many<Element>, members: &'v Map<String, Value>) -> Result<Sent<'v>, Misfit>
    ensures fit { Differ kids.now → HasOrder (members_view members.now.entries)
        → Judges result (members_fit (map part_of kids.now) (members_view members.now.entries)) }
    ensures sent { IfOk result (λ sent.
        (cs : List Child) → sent_by sent cs ≡ by_names cs (object (members_view members.now.entries))) }
{
    if names_fit(kids, members) {
        Ok(Sent::Members(members))
    } else {
        Err(Misfit::Shape)
    }
}

/// What an object sends to the children by their names.
pub(crate) fn object_in<'v>(kids: &Many<Element>, value: &'v Value) -> Result<Sent<'v>, Misfit>
    ensures fit { Differ kids.now → IsOrdered (view value.now)
        → Judges result (fits_form (object_of (map part_of kids.now)) (view value.now)) }
    ensures sent { IfOk result (λ sent. (cs : List Child) → sent_by sent cs ≡ by_names cs (view value.now)) }
{
    match value {
        Value::Object(members) => names_in(kids, members),
        _ => Err(Misfit::Shape),
    }
}

/// What the member `statements` sends to the children of an Entity.
fn statements_in<'v>(
    kids: &Many<Element>,
    members: &'v Map<String, Value>,
) -> Result<Sent<'v>, Misfit>
    ensures fit { Differ kids.now → HasOrder (members_view members.now.entries)
        → Judges result (fits_if (fits_form (object_of (map part_of kids.now)))
        (get_member (codes "statements") (members_view members.now.entries))) }
    ensures sent { IfOk result (λ sent. (cs : List Child) → sent_by sent cs
        ≡ if_sent (by_names cs) cs (get_member (codes "statements") (members_view members.now.entries))) }
{
    match member(members, name::STATEMENTS) {
        None => Ok(Sent::Nothing),
        Some(value) => object_in(kids, value),
    }
}

/// An Entity takes three members, and sends `statements` to the children.
fn entity_in<'v>(
    alloc: Global,
    entity_type: Option<EntityType>,
    global_asset_id: &Option<Text>,
    specific_asset_ids: &Many<SpecificAssetId>,
    kids: &Many<Element>,
    members: &'v Map<String, Value>,
) -> Result<Step<'v>, Misfit>
    ensures { Differ kids.now → HasOrder (members_view members.now.entries)
        → Stepped result (p.Entity entity_type global_asset_id.now specific_asset_ids.now) (map part_of kids.now)
        (object (members_view members.now.entries)) }
{
    let entity_type = entity_type_under(entity_type, members, name::ENTITY_TYPE)?;
    let global_asset_id = text_or_null_under(
        alloc,
        global_asset_id,
        members,
        name::GLOBAL_ASSET_ID,
    )?;
    let specific_asset_ids = specifics_under(
        alloc,
        specific_asset_ids,
        members,
        name::SPECIFIC_ASSET_IDS,
    )?;
    let kids = statements_in(kids, members)?;
    if !has_only_four(
        members,
        name::ENTITY_TYPE,
        name::GLOBAL_ASSET_ID,
        name::SPECIFIC_ASSET_IDS,
        name::STATEMENTS,
    ) {
        return Err(Misfit::Shape);
    }
    Ok(Step {
        payload: Payload::Entity {
            entity_type,
            global_asset_id,
            specific_asset_ids,
        },
        kids,
    })
}

/// Whether the entries are objects of one member, with names of the children in their order.
fn entries_fit(kids: &Many<Element>, entries: &[Value]) -> bool
    ensures { result ≡ entries_fit (map part_of kids.now) (items_view entries.now) }
{
    let mut left = entries;
    for kid in kids.as_slice() {
        left = entry_at(left, kid).behind;
    }
    left.is_empty()
}

/// What the member `annotations` sends to the children of an AnnotatedRelationshipElement.
fn annotations_in<'v>(
    kids: &Many<Element>,
    members: &'v Map<String, Value>,
) -> Result<Sent<'v>, Misfit>
    ensures fit { Judges result (fits_if (fits_form (entries_of (map part_of kids.now)))
        (get_member (codes "annotations") (members_view members.now.entries))) }
    ensures sent { IfOk result (λ sent. (cs : List Child) → sent_by sent cs
        ≡ if_sent (λ d. by_entries cs (items_in d)) cs
        (get_member (codes "annotations") (members_view members.now.entries))) }
{
    match member(members, name::ANNOTATIONS) {
        None => Ok(Sent::Nothing),
        Some(Value::Array(entries)) => {
            if entries_fit(kids, entries.as_slice()) {
                Ok(Sent::Entries(entries.as_slice()))
            } else {
                Err(Misfit::Shape)
            }
        }
        Some(_) => Err(Misfit::Shape),
    }
}

/// An AnnotatedRelationshipElement takes the members `first` and `second`, and sends `annotations` to the children.
fn annotated_in<'v>(
    alloc: Global,
    first: &Option<Reference>,
    second: &Option<Reference>,
    kids: &Many<Element>,
    members: &'v Map<String, Value>,
) -> Result<Step<'v>, Misfit>
    ensures { HasOrder (members_view members.now.entries)
        → Stepped result (p.AnnotatedRelationshipElement first.now second.now) (map part_of kids.now)
        (object (members_view members.now.entries)) }
{
    let kids = annotations_in(kids, members)?;
    let first = reference_under(alloc, first, members, name::FIRST)?;
    let second = reference_under(alloc, second, members, name::SECOND)?;
    if !has_only_three(members, name::ANNOTATIONS, name::FIRST, name::SECOND) {
        return Err(Misfit::Shape);
    }
    Ok(Step {
        payload: Payload::AnnotatedRelationshipElement { first, second },
        kids,
    })
}

// ---- the same of any value: all but an object, and for a list an array, has the wrong shape

/// What a SubmodelElementCollection makes of a value.
pub(crate) fn collection_step<'v>(kids: &Many<Element>, sent: &'v Value) -> Result<Step<'v>, Misfit>
    ensures { Differ kids.now → IsOrdered (view sent.now)
        → Stepped result p.SubmodelElementCollection (map part_of kids.now) (view sent.now) }
{
    match sent {
        Value::Object(members) => collection_in(kids, members),
        _ => Err(Misfit::Shape),
    }
}

/// What a SubmodelElementList makes of a value.
pub(crate) fn list_step<'v>(
    list: &Payload,
    kids: &Many<Element>,
    sent: &'v Value,
) -> Result<Step<'v>, Misfit>
    ensures { is_list_payload list.now ≡ true → Stepped result list.now (map part_of kids.now) (view sent.now) }
{
    match sent {
        Value::Array(items) => list_in(list, kids, items.as_slice()),
        _ => Err(Misfit::Shape),
    }
}

/// What an Entity makes of a value.
pub(crate) fn entity_step<'v>(
    alloc: Global,
    entity_type: Option<EntityType>,
    global_asset_id: &Option<Text>,
    specific_asset_ids: &Many<SpecificAssetId>,
    kids: &Many<Element>,
    sent: &'v Value,
) -> Result<Step<'v>, Misfit>
    ensures { Differ kids.now → IsOrdered (view sent.now)
        → Stepped result (p.Entity entity_type global_asset_id.now specific_asset_ids.now)
        (map part_of kids.now) (view sent.now) }
{
    match sent {
        Value::Object(members) => entity_in(
            alloc,
            entity_type,
            global_asset_id,
            specific_asset_ids,
            kids,
            members,
        ),
        _ => Err(Misfit::Shape),
    }
}

/// What an AnnotatedRelationshipElement makes of a value.
pub(crate) fn annotated_step<'v>(
    alloc: Global,
    first: &Option<Reference>,
    second: &Option<Reference>,
    kids: &Many<Element>,
    sent: &'v Value,
) -> Result<Step<'v>, Misfit>
    ensures { IsOrdered (view sent.now)
        → Stepped result (p.AnnotatedRelationshipElement first.now second.now) (map part_of kids.now) (view sent.now) }
{
    match sent {
        Value::Object(members) => annotated_in(alloc, first, second, kids, members),
        _ => Err(Misfit::Shape),
    }
}
