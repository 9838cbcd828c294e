ghost use Rattle.std.specs.Prelude.{◌≡◌};
ghost use Rattle.aas_model.specs.Payload.{kind_of};

use crate::{
    Direction, Duplicate, ElementName, EntityType, Kind, LangText, Many, NoMemory, Reference,
    SpecificAssetId, StateOfEvent, Text, ValueType, both, copy_option,
};

/// The attributes of one kind of element, besides those that all elements have and its children.
///
/// IDTA-01001-3-0, the class of the variant's name. A value that the class requires is optional where the metadata form
/// of an element leaves it out; in a whole element it is there.
#[derive(Drop)]
pub enum Payload {
    Property {
        value_type: ValueType,
        value: Option<Text>,
        value_id: Option<Reference>,
    },
    MultiLanguageProperty {
        value: Many<LangText>,
        value_id: Option<Reference>,
    },
    Range {
        value_type: ValueType,
        min: Option<Text>,
        max: Option<Text>,
    },
    File {
        content_type: Option<Text>,
        value: Option<Text>,
    },
    Blob {
        content_type: Option<Text>,
        /// In base64.
        value: Option<Text>,
    },
    ReferenceElement {
        value: Option<Reference>,
    },
    RelationshipElement {
        first: Option<Reference>,
        second: Option<Reference>,
    },
    AnnotatedRelationshipElement {
        first: Option<Reference>,
        second: Option<Reference>,
    },
    Entity {
        entity_type: Option<EntityType>,
        global_asset_id: Option<Text>,
        specific_asset_ids: Many<SpecificAssetId>,
    },
    BasicEventElement {
        observed: Option<Reference>,
        direction: Direction,
        state: StateOfEvent,
        message_topic: Option<Text>,
        message_broker: Option<Reference>,
        last_update: Option<Text>,
        min_interval: Option<Text>,
        max_interval: Option<Text>,
    },
    Capability,
    Operation,
    SubmodelElementCollection,
    SubmodelElementList {
        order_relevant: Option<bool>,
        semantic_id_list_element: Option<Reference>,
        type_value_list_element: ElementName,
        value_type_list_element: Option<ValueType>,
    },
}

impl Payload {
    /// The kind of an element that has these attributes.
    pub fn kind(&self) -> Kind
        ensures { result ≡ kind_of self.now }
    {
        match self {
            Payload::Property { .. } => Kind::Property,
            Payload::MultiLanguageProperty { .. } => Kind::MultiLanguageProperty,
            Payload::Range { .. } => Kind::Range,
            Payload::File { .. } => Kind::File,
            Payload::Blob { .. } => Kind::Blob,
            Payload::ReferenceElement { .. } => Kind::ReferenceElement,
            Payload::RelationshipElement { .. } => Kind::RelationshipElement,
            Payload::AnnotatedRelationshipElement { .. } => Kind::AnnotatedRelationshipElement,
            Payload::Entity { .. } => Kind::Entity,
            Payload::BasicEventElement { .. } => Kind::BasicEventElement,
            Payload::Capability => Kind::Capability,
            Payload::Operation => Kind::Operation,
            Payload::SubmodelElementCollection => Kind::SubmodelElementCollection,
            Payload::SubmodelElementList { .. } => Kind::SubmodelElementList,
        }
    }
}

impl Duplicate for Payload {
    fn copy(&self) -> Result<Payload, NoMemory> {
        match self {
            Payload::Property {
                value_type,
                value,
                value_id,
            } => {
                let (value, value_id) = both(copy_option(value), copy_option(value_id))?;
                Ok(Payload::Property {
                    value_type: *value_type,
                    value,
                    value_id,
                })
            }
            Payload::MultiLanguageProperty { value, value_id } => {
                let (value, value_id) = both(value.copy(), copy_option(value_id))?;
                Ok(Payload::MultiLanguageProperty { value, value_id })
            }
            Payload::Range {
                value_type,
                min,
                max,
            } => {
                let (min, max) = both(copy_option(min), copy_option(max))?;
                Ok(Payload::Range {
                    value_type: *value_type,
                    min,
                    max,
                })
            }
            Payload::File {
                content_type,
                value,
            } => {
                let (content_type, value) = both(copy_option(content_type), copy_option(value))?;
                Ok(Payload::File {
                    content_type,
                    value,
                })
            }
            Payload::Blob {
                content_type,
                value,
            } => {
                let (content_type, value) = both(copy_option(content_type), copy_option(value))?;
                Ok(Payload::Blob {
                    content_type,
                    value,
                })
            }
            Payload::ReferenceElement { value } => {
                let value = copy_option(value)?;
                Ok(Payload::ReferenceElement { value })
            }
            Payload::RelationshipElement { first, second } => {
                let (first, second) = both(copy_option(first), copy_option(second))?;
                Ok(Payload::RelationshipElement { first, second })
            }
            Payload::AnnotatedRelationshipElement { first, second } => {
                let (first, second) = both(copy_option(first), copy_option(second))?;
                Ok(Payload::AnnotatedRelationshipElement { first, second })
            }
            Payload::Entity {
                entity_type,
                global_asset_id,
                specific_asset_ids,
            } => {
                let ids = both(copy_option(global_asset_id), specific_asset_ids.copy());
                let (global_asset_id, specific_asset_ids) = ids?;
                Ok(Payload::Entity {
                    entity_type: *entity_type,
                    global_asset_id,
                    specific_asset_ids,
                })
            }
            Payload::BasicEventElement {
                observed,
                direction,
                state,
                message_topic,
                message_broker,
                last_update,
                min_interval,
                max_interval,
            } => {
                let messages = both(copy_option(message_topic), copy_option(message_broker));
                let intervals = both(copy_option(min_interval), copy_option(max_interval));
                let seen = both(copy_option(observed), copy_option(last_update));
                let (seen, (messages, intervals)) = both(seen, both(messages, intervals))?;
                let (observed, last_update) = seen;
                let (message_topic, message_broker) = messages;
                let (min_interval, max_interval) = intervals;
                Ok(Payload::BasicEventElement {
                    observed,
                    direction: *direction,
                    state: *state,
                    message_topic,
                    message_broker,
                    last_update,
                    min_interval,
                    max_interval,
                })
            }
            Payload::Capability => Ok(Payload::Capability),
            Payload::Operation => Ok(Payload::Operation),
            Payload::SubmodelElementCollection => Ok(Payload::SubmodelElementCollection),
            Payload::SubmodelElementList {
                order_relevant,
                semantic_id_list_element,
                type_value_list_element,
                value_type_list_element,
            } => {
                let semantic_id_list_element = copy_option(semantic_id_list_element)?;
                Ok(Payload::SubmodelElementList {
                    order_relevant: *order_relevant,
                    semantic_id_list_element,
                    type_value_list_element: *type_value_list_element,
                    value_type_list_element: *value_type_list_element,
                })
            }
        }
    }
}
