// The members of a kind's own, in the groups in which they stand between those that every kind has.
ghost use Rattle.std.specs.Prelude.{◌∷◌, [], codes, None, option_map, if◌then◌else◌};
ghost use Rattle.serde_json.specs.Written.{compact_text};
ghost use Rattle.aas_json_table.specs.Spelled.{text_of};
ghost use Rattle.aas_json_write_members.specs.Members.{shown_payload};
ghost use Rattle.aas_json_write_members.specs.Puts.{PutsFields, own_fields};

use crate::key;
use crate::members::Pen;
use crate::pen::{put_list, put_optional, put_optional_flag, put_optional_word, put_word};
use crate::poured::Texts;
use aas_json_parts::{LangTexts, SpecificAssetIds};
use aas_model::{Payload, Text};
use aas_out::TextEnd;
use aas_reference::References;

/// Puts what stands between `category` and `description`.
pub(crate) fn put_content_type<O: TextEnd>(pen: Pen, payload: &Payload, out: &mut O) -> Pen
    ensures { PutsFields pen result (O.told out.old) (O.told out.new)
        (own_fields payload.now (codes "contentType" ∷ [])) }
{
    match payload {
        Payload::File { content_type, .. } => {
            put_optional::<Texts, O>(pen, key::CONTENT_TYPE, content_type, out)
        },
        Payload::Blob { content_type, .. } => {
            put_optional::<Texts, O>(pen, key::CONTENT_TYPE, content_type, out)
        },
        _ => pen,
    }
}

/// Puts what stands between `description` and `displayName`.
pub(crate) fn put_direction<O: TextEnd>(pen: Pen, payload: &Payload, out: &mut O) -> Pen
    ensures { PutsFields pen result (O.told out.old) (O.told out.new)
        (own_fields payload.now (codes "direction" ∷ [])) }
{
    match payload {
        Payload::BasicEventElement { direction, .. } => {
            put_word(pen, key::DIRECTION, *direction, out)
        },
        _ => pen,
    }
}

/// Puts what stands between `embeddedDataSpecifications` and `extensions`.
pub(crate) fn put_entity_type<O: TextEnd>(pen: Pen, payload: &Payload, out: &mut O) -> Pen
    ensures { PutsFields pen result (O.told out.old) (O.told out.new)
        (own_fields payload.now (codes "entityType" ∷ [])) }
{
    match payload {
        Payload::Entity { entity_type, .. } => {
            put_optional_word(pen, key::ENTITY_TYPE, *entity_type, out)
        },
        _ => pen,
    }
}

/// Puts what stands between `extensions` and `idShort`.
pub(crate) fn put_first<O: TextEnd>(pen: Pen, payload: &Payload, out: &mut O) -> Pen
    ensures { PutsFields pen result (O.told out.old) (O.told out.new)
        (own_fields payload.now (codes "first" ∷ codes "globalAssetId" ∷ [])) }
{
    match payload {
        Payload::RelationshipElement { first, .. } => {
            put_optional::<References, O>(pen, key::FIRST, first, out)
        },
        Payload::AnnotatedRelationshipElement { first, .. } => {
            put_optional::<References, O>(pen, key::FIRST, first, out)
        },
        Payload::Entity {
            global_asset_id,
            ..
        } => { put_optional::<Texts, O>(pen, key::GLOBAL_ASSET_ID, global_asset_id, out) },
        _ => pen,
    }
}

/// Puts what stands between `idShort` and `modelType`.
pub(crate) fn put_before_model_type<O: TextEnd>(pen: Pen, payload: &Payload, out: &mut O) -> Pen
    ensures { PutsFields pen result (O.told out.old) (O.told out.new)
        (own_fields payload.now (codes "lastUpdate" ∷ codes "max" ∷ codes "maxInterval"
        ∷ codes "messageBroker" ∷ codes "messageTopic" ∷ codes "min" ∷ codes "minInterval" ∷ [])) }
{
    match payload {
        Payload::BasicEventElement {
            last_update,
            max_interval,
            message_broker,
            message_topic,
            min_interval,
            ..
        } => {
            let updated = put_optional::<Texts, O>(pen, key::LAST_UPDATE, last_update, out);
            let longest = put_optional::<Texts, O>(updated, key::MAX_INTERVAL, max_interval, out);
            let broker = put_optional::<References, O>(
                longest,
                key::MESSAGE_BROKER,
                message_broker,
                out,
            );
            let topic = put_optional::<Texts, O>(broker, key::MESSAGE_TOPIC, message_topic, out);
            put_optional::<Texts, O>(topic, key::MIN_INTERVAL, min_interval, out)
        },
        Payload::Range { min, max, .. } => {
            let upper = put_optional::<Texts, O>(pen, key::MAX, max, out);
            put_optional::<Texts, O>(upper, key::MIN, min, out)
        },
        _ => pen,
    }
}

/// Puts what stands between `modelType` and `qualifiers`.
pub(crate) fn put_before_qualifiers<O: TextEnd>(pen: Pen, payload: &Payload, out: &mut O) -> Pen
    ensures { PutsFields pen result (O.told out.old) (O.told out.new)
        (own_fields payload.now (codes "observed" ∷ codes "orderRelevant" ∷ [])) }
{
    match payload {
        Payload::BasicEventElement { observed, .. } => {
            put_optional::<References, O>(pen, key::OBSERVED, observed, out)
        },
        Payload::SubmodelElementList { order_relevant, .. } => {
            put_optional_flag(pen, key::ORDER_RELEVANT, *order_relevant, out)
        },
        _ => pen,
    }
}

/// Puts what stands between `qualifiers` and `semanticId`.
pub(crate) fn put_second<O: TextEnd>(pen: Pen, payload: &Payload, out: &mut O) -> Pen
    ensures { PutsFields pen result (O.told out.old) (O.told out.new) (own_fields payload.now (codes "second" ∷ [])) }
{
    match payload {
        Payload::RelationshipElement { second, .. } => {
            put_optional::<References, O>(pen, key::SECOND, second, out)
        },
        Payload::AnnotatedRelationshipElement { second, .. } => {
            put_optional::<References, O>(pen, key::SECOND, second, out)
        },
        _ => pen,
    }
}

/// Puts what stands between `semanticId` and `supplementalSemanticIds`.
pub(crate) fn put_behind_semantic_id<O: TextEnd>(pen: Pen, payload: &Payload, out: &mut O) -> Pen
    ensures { PutsFields pen result (O.told out.old) (O.told out.new)
        (own_fields payload.now (codes "semanticIdListElement" ∷ codes "specificAssetIds" ∷ codes "state" ∷ [])) }
{
    match payload {
        Payload::SubmodelElementList {
            semantic_id_list_element,
            ..
        } => {
            put_optional::<References, O>(
                pen,
                key::SEMANTIC_ID_LIST_ELEMENT,
                semantic_id_list_element,
                out,
            )
        },
        Payload::Entity {
            specific_asset_ids,
            ..
        } => {
            put_list::<SpecificAssetIds, O>(pen, key::SPECIFIC_ASSET_IDS, specific_asset_ids, out)
        },
        Payload::BasicEventElement { state, .. } => put_word(pen, key::STATE, *state, out),
        _ => pen,
    }
}

/// Puts what stands right behind `supplementalSemanticIds`.
pub(crate) fn put_list_type<O: TextEnd>(pen: Pen, payload: &Payload, out: &mut O) -> Pen
    ensures { PutsFields pen result (O.told out.old) (O.told out.new)
        (own_fields payload.now (codes "typeValueListElement" ∷ [])) }
{
    match payload {
        Payload::SubmodelElementList {
            type_value_list_element,
            ..
        } => {
            put_word(
                pen,
                key::TYPE_VALUE_LIST_ELEMENT,
                *type_value_list_element,
                out,
            )
        },
        _ => pen,
    }
}

/// Puts the value, with what stands behind it. A Blob's value is put if `blobs` says so.
pub(crate) fn put_value<O: TextEnd>(pen: Pen, blobs: bool, payload: &Payload, out: &mut O) -> Pen
    ensures { PutsFields pen result (O.told out.old) (O.told out.new)
        (own_fields (shown_payload blobs payload.now)
        (codes "value" ∷ codes "valueId" ∷ codes "valueType" ∷ codes "valueTypeListElement" ∷ [])) }
{
    match payload {
        Payload::Property {
            value,
            value_id,
            value_type,
        } => {
            let valued = put_optional::<Texts, O>(pen, key::VALUE, value, out);
            let referring = put_optional::<References, O>(valued, key::VALUE_ID, value_id, out);
            put_word(referring, key::VALUE_TYPE, *value_type, out)
        },
        Payload::MultiLanguageProperty { value, value_id } => {
            let valued = put_list::<LangTexts, O>(pen, key::VALUE, value, out);
            put_optional::<References, O>(valued, key::VALUE_ID, value_id, out)
        },
        Payload::Range { value_type, .. } => put_word(pen, key::VALUE_TYPE, *value_type, out),
        Payload::File { value, .. } => put_optional::<Texts, O>(pen, key::VALUE, value, out),
        Payload::Blob { value, .. } => put_blob(pen, blobs, value, out),
        Payload::ReferenceElement { value } => {
            put_optional::<References, O>(pen, key::VALUE, value, out)
        },
        Payload::SubmodelElementList {
            value_type_list_element,
            ..
        } => {
            put_optional_word(
                pen,
                key::VALUE_TYPE_LIST_ELEMENT,
                *value_type_list_element,
                out,
            )
        },
        _ => pen,
    }
}

/// Puts the value of a Blob, if `blobs` says so.
fn put_blob<O: TextEnd>(pen: Pen, blobs: bool, value: &Option<Text>, out: &mut O) -> Pen
    ensures { PutsFields pen result (O.told out.old) (O.told out.new)
        ((codes "value", option_map compact_text (option_map text_of (if blobs then value.now else None))) ∷ []) }
{
    if blobs {
        put_optional::<Texts, O>(pen, key::VALUE, value, out)
    } else {
        pen
    }
}
