ghost use Rattle.std.specs.Prelude.{◌≡◌, List, false, map};
ghost use Rattle.serde_json.specs.View.{view};
ghost use Rattle.aas_json_spelling.specs.Values.{IsOrdered};
ghost use Rattle.aas_model.specs.declared.element.Element.{out-Element};
ghost use Rattle.aas_value_update.specs.Forms.{part_of};
ghost use Rattle.aas_value_update.specs.Laws.{IsInOrder};
ghost use Rattle.aas_value.specs.Parts.{Part};
ghost use Rattle.aas_value.specs.ValueForm.{shows_children};
ghost use Rattle.aas_value_patch.specs.Steps.{Stepped};

use crate::fault::Misfit;
use crate::leaves::{
    blob_step, event_step, file_step, languages_step, property_step, range_step, reference_step,
    relationship_step,
};
use crate::parents::{annotated_step, collection_step, entity_step, list_step};
use crate::sent::Sent;
use aas_model::{Element, Payload};
use serde_json::Value;
use std::alloc::Global;

/// What a value makes of an element itself, and what it sends for the children.
#[derive(Drop)]
pub(crate) struct Step<'v> {
    pub(crate) payload: Payload,
    pub(crate) kids: Sent<'v>,
}

/// What a value makes of an element itself, or `Shape` where the element's own part of it has the wrong shape.
pub(crate) fn own_step<'v>(
    alloc: Global,
    element: &Element,
    sent: &'v Value,
) -> Result<Step<'v>, Misfit>
    ensures { IsInOrder element.now → IsOrdered (view sent.now)
        → Stepped result (out-Element element.now).payload
        (map part_of (out-Element element.now).kids) (view sent.now) }
{
    let kids = &element.kids;
    match &element.payload {
        Payload::AnnotatedRelationshipElement { first, second } => {
            annotated_step(alloc, first, second, kids, sent)
        }
        Payload::Entity {
            entity_type,
            global_asset_id,
            specific_asset_ids,
        } => entity_step(
            alloc,
            *entity_type,
            global_asset_id,
            specific_asset_ids,
            kids,
            sent,
        ),
        Payload::SubmodelElementCollection => collection_step(kids, sent),
        Payload::SubmodelElementList { .. } => list_step(&element.payload, kids, sent),
        leaf => leaf_step(alloc, leaf, sent),
    }
}

/// The same of an element whose value form shows no children.
pub(crate) fn leaf_step<'v>(
    alloc: Global,
    payload: &Payload,
    sent: &'v Value,
) -> Result<Step<'v>, Misfit>
    requires { shows_children payload.now ≡ false }
    ensures { (xs : List Part) → IsOrdered (view sent.now) → Stepped result payload.now xs (view sent.now) }
{
    match payload {
        Payload::Property {
            value_type,
            value_id,
            ..
        } => property_step(alloc, *value_type, value_id, sent),
        Payload::MultiLanguageProperty { value_id, .. } => languages_step(alloc, value_id, sent),
        Payload::Range {
            value_type,
            min,
            max,
        } => range_step(alloc, *value_type, min, max, sent),
        Payload::File {
            content_type,
            value,
        } => file_step(alloc, content_type, value, sent),
        Payload::Blob {
            content_type,
            value,
        } => blob_step(alloc, content_type, value, sent),
        Payload::ReferenceElement { .. } => reference_step(alloc, sent),
        Payload::RelationshipElement { first, second } => {
            relationship_step(alloc, first, second, sent)
        }
        Payload::BasicEventElement { .. } => event_step(alloc, payload, sent),
        Payload::Capability | Payload::Operation => Err(Misfit::Shape),
        Payload::AnnotatedRelationshipElement { .. }
        | Payload::Entity { .. }
        | Payload::SubmodelElementCollection
        | Payload::SubmodelElementList { .. } => unreachable!(),
    }
}
