// What an element has besides its children.
ghost use Rattle.aas_json_mapping.specs.Whole.{whole_common, whole_payload};
ghost use Rattle.aas_json_table.specs.TooDeep.{limits};

use crate::kept::is_whole_kept;
use crate::references::{is_whole_and_there, is_whole_if_there};
use crate::whole::{Whole, are_whole};
use aas_model::{Common, Payload};

impl Whole for Common {
    ghost whole = { whole_common limits };

    fn is_whole(&self) -> bool {
        are_whole(&self.extensions)
            && is_whole_kept(&self.embedded_data_specifications)
            && self.semantics.is_whole()
            && are_whole(&self.qualifiers)
    }
}

impl Whole for Payload {
    ghost whole = { whole_payload limits };

    fn is_whole(&self) -> bool {
        match self {
            Payload::Property { value_id, .. } => is_whole_if_there(value_id),
            Payload::MultiLanguageProperty { value_id, .. } => is_whole_if_there(value_id),
            Payload::Range { .. } => true,
            Payload::File { content_type, .. } => content_type.is_some(),
            Payload::Blob { content_type, .. } => content_type.is_some(),
            Payload::ReferenceElement { value } => is_whole_if_there(value),
            Payload::RelationshipElement { first, second } => {
                is_whole_and_there(first) && is_whole_and_there(second)
            }
            Payload::AnnotatedRelationshipElement { first, second } => {
                is_whole_and_there(first) && is_whole_and_there(second)
            }
            Payload::Entity {
                entity_type,
                specific_asset_ids,
                ..
            } => entity_type.is_some() && are_whole(specific_asset_ids),
            Payload::BasicEventElement {
                observed,
                message_broker,
                ..
            } => is_whole_and_there(observed) && is_whole_if_there(message_broker),
            Payload::Capability | Payload::Operation | Payload::SubmodelElementCollection => true,
            Payload::SubmodelElementList {
                semantic_id_list_element,
                ..
            } => is_whole_if_there(semantic_id_list_element),
        }
    }
}
