ghost use Rattle.std.specs.Prelude.{◌≡◌, IfOk};
ghost use Rattle.aas_constraint_laws.specs.Values.{without_values};
ghost use Rattle.aas_form.specs.MetadataForm.{metadata_form, submodel_metadata};

use aas_model::{Duplicate, Element, Many, NoMemory, Payload, Submodel, both, copy_option};
use std::alloc::Global;

/// A kind's own attributes without its values.
fn without_values(alloc: Global, payload: &Payload) -> Result<Payload, NoMemory>
    ensures { IfOk result (λ left. left ≡ without_values payload.now) }
{
    Ok(match payload {
        Payload::Property {
            value_type,
            value_id,
            ..
        } => Payload::Property {
            value_type: *value_type,
            value: None,
            value_id: copy_option(value_id)?,
        },
        Payload::MultiLanguageProperty { value_id, .. } => Payload::MultiLanguageProperty {
            value: Many::new(alloc),
            value_id: copy_option(value_id)?,
        },
        Payload::Range { value_type, .. } => Payload::Range {
            value_type: *value_type,
            min: None,
            max: None,
        },
        Payload::File { .. } => Payload::File {
            content_type: None,
            value: None,
        },
        Payload::Blob { .. } => Payload::Blob {
            content_type: None,
            value: None,
        },
        Payload::ReferenceElement { .. } => Payload::ReferenceElement { value: None },
        Payload::RelationshipElement { .. } => Payload::RelationshipElement {
            first: None,
            second: None,
        },
        Payload::AnnotatedRelationshipElement { .. } => Payload::AnnotatedRelationshipElement {
            first: None,
            second: None,
        },
        Payload::Entity { .. } => Payload::Entity {
            entity_type: None,
            global_asset_id: None,
            specific_asset_ids: Many::new(alloc),
        },
        Payload::BasicEventElement {
            direction,
            state,
            message_topic,
            message_broker,
            last_update,
            min_interval,
            max_interval,
            ..
        } => {
            let messages = both(copy_option(message_topic), copy_option(message_broker));
            let intervals = both(copy_option(min_interval), copy_option(max_interval));
            let ((messages, intervals), last_update) = both(
                both(messages, intervals),
                copy_option(last_update),
            )?;
            let (message_topic, message_broker) = messages;
            let (min_interval, max_interval) = intervals;
            Payload::BasicEventElement {
                observed: None,
                direction: *direction,
                state: *state,
                message_topic,
                message_broker,
                last_update,
                min_interval,
                max_interval,
            }
        }
        Payload::Capability
        | Payload::Operation
        | Payload::SubmodelElementCollection
        | Payload::SubmodelElementList { .. } => payload.copy()?,
    })
}

/// The metadata of an element: all of it but its values and its children.
///
/// IDTA-01002-3-0, content modifier Metadata. Which attributes are values is this profile's own rule.
pub fn metadata(alloc: Global, element: &Element) -> Result<Element, NoMemory>
    ensures { IfOk result (λ form. form ≡ metadata_form element.now) }
{
    let (common, payload) = both(
        element.common.copy(),
        without_values(alloc, &element.payload),
    )?;
    Ok(Element {
        common,
        payload,
        role: element.role,
        kids: Many::new(alloc),
    })
}

/// The metadata of a submodel: all of it but its elements.
///
/// IDTA-01002-3-0, content modifier Metadata.
pub fn metadata_of(alloc: Global, submodel: &Submodel) -> Result<Submodel, NoMemory>
    ensures { IfOk result (λ form. form ≡ submodel_metadata submodel.now) }
{
    let meaning = both(submodel.semantics.copy(), submodel.qualifiers.copy());
    let (head, (semantics, qualifiers)) = both(submodel.head.copy(), meaning)?;
    Ok(Submodel {
        head,
        kind: submodel.kind,
        semantics,
        qualifiers,
        kids: Many::new(alloc),
    })
}
