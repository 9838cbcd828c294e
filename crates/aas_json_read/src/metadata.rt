// Metadata forms of elements (IDTA-01002-3-0, content modifier Metadata).
ghost use Rattle.std.specs.Prelude.{◌≡◌, codes, IfOk, IfSome, Some, option_map};
ghost use Rattle.serde_json.specs.Data.{string};
ghost use Rattle.serde_json.specs.View.{view, members_view};
ghost use Rattle.aas_model_names.specs.KindNames.{name_of};
ghost use Rattle.aas_json_table.specs.Canonical.{canonical, canonical_member, canonical_object};
ghost use Rattle.aas_json_table.specs.Rows.{sorted};
ghost use Rattle.aas_json_table.specs.Table.{one, element_metadata, shown, text};
ghost use Rattle.aas_json_mapping.specs.Elements.{rows_for, spell_element};
ghost use Rattle.aas_json_mapping.specs.Metadata.{IsMetadata};
ghost use Rattle.aas_json_read.specs.Shown.{spell_shown, canonical_shown, IsShown};

use crate::common::common_in;
use crate::elements::kind_in;
use crate::payload::element_list_in;
use aas_json_members::{one_member, string_member, word_member};
use aas_json_table::name;
use aas_model::{Element, Kind, Many, NoMemory, Payload, Role};
use aas_reference::References;
use serde_json::{Map, Value};
use std::alloc::Global;

/// The metadata form of an element that a value spells, or `None` where the value lacks what the table demands.
pub(crate) fn form_of(alloc: Global, value: &Value) -> Result<Option<Element>, NoMemory>
    ensures says { IfOk result (λ found. option_map spell_element found ≡ canonical (one element_metadata) (view value.now)) }
    ensures shape { IfOk result (λ found. IfSome found IsMetadata) }
{
    let Value::Object(members) = value else {
        return Ok(None);
    };
    match kind_in(members, Role::Member) {
        Some(kind) => Ok(form_in(alloc, members, kind)?),
        None => Ok(None),
    }
}

fn form_in(
    alloc: Global,
    members: &Map<String, Value>,
    kind: Kind,
) -> Result<Option<Element>, NoMemory>
    requires { Some (string (name_of kind)) ≡ canonical_member (members_view members.now.entries) (codes "modelType") text }
    ensures says { IfOk result (λ found. option_map spell_element found ≡ canonical_object (Some (shown (sorted (rows_for (name_of kind))))) (canonical_member (members_view members.now.entries))) }
    ensures shape { IfOk result (λ found. IfSome found IsMetadata) }
{
    let common = common_in(alloc, members)?;
    let Some(payload) = shown_in(alloc, members, kind)? else {
        return Ok(None);
    };
    Ok(Some(Element {
        common,
        payload,
        role: Role::Member,
        kids: Many::new(alloc),
    }))
}

/// The own attributes of an element of a kind that are no values, among the members of an object, or `None` where a
/// required one is absent.
fn shown_in(
    alloc: Global,
    members: &Map<String, Value>,
    kind: Kind,
) -> Result<Option<Payload>, NoMemory>
    ensures says { IfOk result (λ found. option_map spell_shown found ≡ canonical_shown kind (canonical_member (members_view members.now.entries))) }
    ensures shown { IfOk result (λ found. IfSome found (IsShown kind)) }
{
    match kind {
        Kind::Property => Ok(property_in(alloc, members)?),
        Kind::MultiLanguageProperty => Ok(Some(multi_language_property_in(alloc, members)?)),
        Kind::Range => Ok(range_in(members)),
        Kind::File => Ok(Some(Payload::File {
            content_type: None,
            value: None,
        })),
        Kind::Blob => Ok(Some(Payload::Blob {
            content_type: None,
            value: None,
        })),
        Kind::ReferenceElement => Ok(Some(Payload::ReferenceElement { value: None })),
        Kind::RelationshipElement => Ok(Some(Payload::RelationshipElement {
            first: None,
            second: None,
        })),
        Kind::AnnotatedRelationshipElement => Ok(Some(Payload::AnnotatedRelationshipElement {
            first: None,
            second: None,
        })),
        Kind::Entity => Ok(Some(Payload::Entity {
            entity_type: None,
            global_asset_id: None,
            specific_asset_ids: Many::new(alloc),
        })),
        Kind::BasicEventElement => Ok(event_in(alloc, members)?),
        Kind::Capability => Ok(Some(Payload::Capability)),
        Kind::Operation => Ok(Some(Payload::Operation)),
        Kind::SubmodelElementCollection => Ok(Some(Payload::SubmodelElementCollection)),
        Kind::SubmodelElementList => Ok(list_in(alloc, members)?),
    }
}

fn property_in(alloc: Global, members: &Map<String, Value>) -> Result<Option<Payload>, NoMemory>
    ensures says { IfOk result (λ found. option_map spell_shown found ≡ canonical_shown Kind.Property (canonical_member (members_view members.now.entries))) }
    ensures shown { IfOk result (λ found. IfSome found (IsShown Kind.Property)) }
{
    let Some(value_type) = word_member(members, name::VALUE_TYPE) else {
        return Ok(None);
    };
    Ok(Some(Payload::Property {
        value_type,
        value: None,
        value_id: one_member::<References>(alloc, members, name::VALUE_ID)?,
    }))
}

fn multi_language_property_in(
    alloc: Global,
    members: &Map<String, Value>,
) -> Result<Payload, NoMemory>
    ensures says { IfOk result (λ found. Some (spell_shown found) ≡ canonical_shown Kind.MultiLanguageProperty (canonical_member (members_view members.now.entries))) }
    ensures shown { IfOk result (λ found. IsShown Kind.MultiLanguageProperty found) }
{
    Ok(Payload::MultiLanguageProperty {
        value: Many::new(alloc),
        value_id: one_member::<References>(alloc, members, name::VALUE_ID)?,
    })
}

fn range_in(members: &Map<String, Value>) -> Option<Payload>
    ensures says { option_map spell_shown result ≡ canonical_shown Kind.Range (canonical_member (members_view members.now.entries)) }
    ensures shown { IfSome result (IsShown Kind.Range) }
{
    let value_type = word_member(members, name::VALUE_TYPE)?;
    Some(Payload::Range {
        value_type,
        min: None,
        max: None,
    })
}

fn event_in(alloc: Global, members: &Map<String, Value>) -> Result<Option<Payload>, NoMemory>
    ensures says { IfOk result (λ found. option_map spell_shown found ≡ canonical_shown Kind.BasicEventElement (canonical_member (members_view members.now.entries))) }
    ensures shown { IfOk result (λ found. IfSome found (IsShown Kind.BasicEventElement)) }
{
    let Some(direction) = word_member(members, name::DIRECTION) else {
        return Ok(None);
    };
    let Some(state) = word_member(members, name::STATE) else {
        return Ok(None);
    };
    Ok(Some(Payload::BasicEventElement {
        observed: None,
        direction,
        state,
        message_topic: string_member(alloc, members, name::MESSAGE_TOPIC)?,
        message_broker: one_member::<References>(alloc, members, name::MESSAGE_BROKER)?,
        last_update: string_member(alloc, members, name::LAST_UPDATE)?,
        min_interval: string_member(alloc, members, name::MIN_INTERVAL)?,
        max_interval: string_member(alloc, members, name::MAX_INTERVAL)?,
    }))
}

/// A SubmodelElementList has no values of its own.
fn list_in(alloc: Global, members: &Map<String, Value>) -> Result<Option<Payload>, NoMemory>
    ensures says { IfOk result (λ found. option_map spell_shown found ≡ canonical_shown Kind.SubmodelElementList (canonical_member (members_view members.now.entries))) }
    ensures shown { IfOk result (λ found. IfSome found (IsShown Kind.SubmodelElementList)) }
{
    Ok(element_list_in(alloc, members)?)
}
