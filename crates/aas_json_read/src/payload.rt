ghost use Rattle.std.specs.Prelude.{◌≡◌, IfOk, IfSome, Some, option_map};
ghost use Rattle.serde_json.specs.Data.{boolean};
ghost use Rattle.serde_json.specs.View.{members_view};
ghost use Rattle.aas_json_table.specs.Canonical.{canonical_member};
ghost use Rattle.aas_json_table.specs.Table.{flag};
ghost use Rattle.aas_model.specs.Payload.{kind_of};
ghost use Rattle.aas_json_read.specs.Own.{spell_own, canonical_own};

use aas_json_members::{list_member, member, one_member, string_member, word_member};
use aas_json_parts::{LangTexts, SpecificAssetIds};
use aas_json_table::name;
use aas_model::{Kind, NoMemory, Payload};
use aas_reference::References;
use serde_json::{Map, Value};
use std::alloc::Global;

/// The own attributes of an element of a kind, among the members of an object, or `None` where a required one is absent.
/// Its children are none of them.
pub(crate) fn payload_in(
    alloc: Global,
    members: &Map<String, Value>,
    kind: Kind,
) -> Result<Option<Payload>, NoMemory>
    ensures says { IfOk result (λ found. option_map spell_own found ≡ canonical_own kind (canonical_member (members_view members.now.entries))) }
    ensures kind { IfOk result (λ found. IfSome found (λ p. kind_of p ≡ kind)) }
{
    match kind {
        Kind::Property => Ok(property_in(alloc, members)?),
        Kind::MultiLanguageProperty => Ok(Some(multi_language_property_in(alloc, members)?)),
        Kind::Range => Ok(range_in(alloc, members)?),
        Kind::File => Ok(file_in(alloc, members)?),
        Kind::Blob => Ok(blob_in(alloc, members)?),
        Kind::ReferenceElement => Ok(Some(reference_element_in(alloc, members)?)),
        Kind::RelationshipElement => Ok(relationship_in(alloc, members)?),
        Kind::AnnotatedRelationshipElement => Ok(annotated_relationship_in(alloc, members)?),
        Kind::Entity => Ok(entity_in(alloc, members)?),
        Kind::BasicEventElement => Ok(event_in(alloc, members)?),
        Kind::Capability => Ok(Some(Payload::Capability)),
        Kind::Operation => Ok(Some(Payload::Operation)),
        Kind::SubmodelElementCollection => Ok(Some(Payload::SubmodelElementCollection)),
        Kind::SubmodelElementList => Ok(element_list_in(alloc, members)?),
    }
}

fn property_in(alloc: Global, members: &Map<String, Value>) -> Result<Option<Payload>, NoMemory>
    ensures says { IfOk result (λ found. option_map spell_own found ≡ canonical_own Kind.Property (canonical_member (members_view members.now.entries))) }
    ensures kind { IfOk result (λ found. IfSome found (λ p. kind_of p ≡ Kind.Property)) }
{
    let Some(value_type) = word_member(members, name::VALUE_TYPE) else {
        return Ok(None);
    };
    Ok(Some(Payload::Property {
        value_type,
        value: string_member(alloc, members, name::VALUE)?,
        value_id: one_member::<References>(alloc, members, name::VALUE_ID)?,
    }))
}

fn multi_language_property_in(
    alloc: Global,
    members: &Map<String, Value>,
) -> Result<Payload, NoMemory>
    ensures says { IfOk result (λ found. Some (spell_own found) ≡ canonical_own Kind.MultiLanguageProperty (canonical_member (members_view members.now.entries))) }
    ensures kind { IfOk result (λ found. kind_of found ≡ Kind.MultiLanguageProperty) }
{
    Ok(Payload::MultiLanguageProperty {
        value: list_member::<LangTexts>(alloc, members, name::VALUE)?,
        value_id: one_member::<References>(alloc, members, name::VALUE_ID)?,
    })
}

fn range_in(alloc: Global, members: &Map<String, Value>) -> Result<Option<Payload>, NoMemory>
    ensures says { IfOk result (λ found. option_map spell_own found ≡ canonical_own Kind.Range (canonical_member (members_view members.now.entries))) }
    ensures kind { IfOk result (λ found. IfSome found (λ p. kind_of p ≡ Kind.Range)) }
{
    let Some(value_type) = word_member(members, name::VALUE_TYPE) else {
        return Ok(None);
    };
    Ok(Some(Payload::Range {
        value_type,
        min: string_member(alloc, members, name::MIN)?,
        max: string_member(alloc, members, name::MAX)?,
    }))
}

fn file_in(alloc: Global, members: &Map<String, Value>) -> Result<Option<Payload>, NoMemory>
    ensures says { IfOk result (λ found. option_map spell_own found ≡ canonical_own Kind.File (canonical_member (members_view members.now.entries))) }
    ensures kind { IfOk result (λ found. IfSome found (λ p. kind_of p ≡ Kind.File)) }
{
    let Some(content_type) = string_member(alloc, members, name::CONTENT_TYPE)? else {
        return Ok(None);
    };
    Ok(Some(Payload::File {
        content_type: Some(content_type),
        value: string_member(alloc, members, name::VALUE)?,
    }))
}

fn blob_in(alloc: Global, members: &Map<String, Value>) -> Result<Option<Payload>, NoMemory>
    ensures says { IfOk result (λ found. option_map spell_own found ≡ canonical_own Kind.Blob (canonical_member (members_view members.now.entries))) }
    ensures kind { IfOk result (λ found. IfSome found (λ p. kind_of p ≡ Kind.Blob)) }
{
    let Some(content_type) = string_member(alloc, members, name::CONTENT_TYPE)? else {
        return Ok(None);
    };
    Ok(Some(Payload::Blob {
        content_type: Some(content_type),
        value: string_member(alloc, members, name::VALUE)?,
    }))
}

fn reference_element_in(alloc: Global, members: &Map<String, Value>) -> Result<Payload, NoMemory>
    ensures says { IfOk result (λ found. Some (spell_own found) ≡ canonical_own Kind.ReferenceElement (canonical_member (members_view members.now.entries))) }
    ensures kind { IfOk result (λ found. kind_of found ≡ Kind.ReferenceElement) }
{
    Ok(Payload::ReferenceElement {
        value: one_member::<References>(alloc, members, name::VALUE)?,
    })
}

fn relationship_in(alloc: Global, members: &Map<String, Value>) -> Result<Option<Payload>, NoMemory>
    ensures says { IfOk result (λ found. option_map spell_own found ≡ canonical_own Kind.RelationshipElement (canonical_member (members_view members.now.entries))) }
    ensures kind { IfOk result (λ found. IfSome found (λ p. kind_of p ≡ Kind.RelationshipElement)) }
{
    let Some(first) = one_member::<References>(alloc, members, name::FIRST)? else {
        return Ok(None);
    };
    let Some(second) = one_member::<References>(alloc, members, name::SECOND)? else {
        return Ok(None);
    };
    Ok(Some(Payload::RelationshipElement {
        first: Some(first),
        second: Some(second),
    }))
}

fn annotated_relationship_in(
    alloc: Global,
    members: &Map<String, Value>,
) -> Result<Option<Payload>, NoMemory>
    ensures says { IfOk result (λ found. option_map spell_own found ≡ canonical_own Kind.AnnotatedRelationshipElement (canonical_member (members_view members.now.entries))) }
    ensures kind { IfOk result (λ found. IfSome found (λ p. kind_of p ≡ Kind.AnnotatedRelationshipElement)) }
{
    let Some(first) = one_member::<References>(alloc, members, name::FIRST)? else {
        return Ok(None);
    };
    let Some(second) = one_member::<References>(alloc, members, name::SECOND)? else {
        return Ok(None);
    };
    Ok(Some(Payload::AnnotatedRelationshipElement {
        first: Some(first),
        second: Some(second),
    }))
}

fn entity_in(alloc: Global, members: &Map<String, Value>) -> Result<Option<Payload>, NoMemory>
    ensures says { IfOk result (λ found. option_map spell_own found ≡ canonical_own Kind.Entity (canonical_member (members_view members.now.entries))) }
    ensures kind { IfOk result (λ found. IfSome found (λ p. kind_of p ≡ Kind.Entity)) }
{
    let Some(entity_type) = word_member(members, name::ENTITY_TYPE) else {
        return Ok(None);
    };
    Ok(Some(Payload::Entity {
        entity_type: Some(entity_type),
        global_asset_id: string_member(alloc, members, name::GLOBAL_ASSET_ID)?,
        specific_asset_ids: list_member::<SpecificAssetIds>(
            alloc,
            members,
            name::SPECIFIC_ASSET_IDS,
        )?,
    }))
}

fn event_in(alloc: Global, members: &Map<String, Value>) -> Result<Option<Payload>, NoMemory>
    ensures says { IfOk result (λ found. option_map spell_own found ≡ canonical_own Kind.BasicEventElement (canonical_member (members_view members.now.entries))) }
    ensures kind { IfOk result (λ found. IfSome found (λ p. kind_of p ≡ Kind.BasicEventElement)) }
{
    let Some(direction) = word_member(members, name::DIRECTION) else {
        return Ok(None);
    };
    let Some(state) = word_member(members, name::STATE) else {
        return Ok(None);
    };
    let Some(observed) = one_member::<References>(alloc, members, name::OBSERVED)? else {
        return Ok(None);
    };
    Ok(Some(Payload::BasicEventElement {
        observed: Some(observed),
        direction,
        state,
        message_topic: string_member(alloc, members, name::MESSAGE_TOPIC)?,
        message_broker: one_member::<References>(alloc, members, name::MESSAGE_BROKER)?,
        last_update: string_member(alloc, members, name::LAST_UPDATE)?,
        min_interval: string_member(alloc, members, name::MIN_INTERVAL)?,
        max_interval: string_member(alloc, members, name::MAX_INTERVAL)?,
    }))
}

pub(crate) fn element_list_in(
    alloc: Global,
    members: &Map<String, Value>,
) -> Result<Option<Payload>, NoMemory>
    ensures says { IfOk result (λ found. option_map spell_own found ≡ canonical_own Kind.SubmodelElementList (canonical_member (members_view members.now.entries))) }
    ensures kind { IfOk result (λ found. IfSome found (λ p. kind_of p ≡ Kind.SubmodelElementList)) }
{
    let Some(type_value_list_element) = word_member(members, name::TYPE_VALUE_LIST_ELEMENT) else {
        return Ok(None);
    };
    Ok(Some(Payload::SubmodelElementList {
        order_relevant: flag_member(members, name::ORDER_RELEVANT),
        semantic_id_list_element: one_member::<References>(
            alloc,
            members,
            name::SEMANTIC_ID_LIST_ELEMENT,
        )?,
        type_value_list_element,
        value_type_list_element: word_member(members, name::VALUE_TYPE_LIST_ELEMENT),
    }))
}

/// The truth value under a name, or `None` where the object has none there.
fn flag_member(members: &Map<String, Value>, name: &str) -> Option<bool>
    ensures { option_map boolean result ≡ canonical_member (members_view members.now.entries) name.now flag }
{
    match member(members, name) {
        Some(Value::Bool(flag)) => Some(*flag),
        _ => None,
    }
}
