// The members of kinds whose own members have no children.
use crate::canonical::{read_list, read_member, read_word};
use crate::common::{read_from_display_name, read_meaning, read_semantic_id, read_supplemental};
use crate::source::Source;
use aas_json_write_members::key;
use aas_model::{Element, Kind, Payload, Reference, Text};

/// The members of a Property behind `modelType`.
pub(crate) fn read_property(source: &mut Source<'_>, element: &mut Element) -> Option<()> {
    read_meaning(source, &mut element.common);
    element.payload = Payload::Property {
        value: read_member(source, key::VALUE),
        value_id: read_member(source, key::VALUE_ID),
        value_type: read_word(source, key::VALUE_TYPE)?,
    };
    Some(())
}

/// The members of a MultiLanguageProperty behind `modelType`.
pub(crate) fn read_multi_language_property(
    source: &mut Source<'_>,
    element: &mut Element,
) -> Option<()> {
    read_meaning(source, &mut element.common);
    element.payload = Payload::MultiLanguageProperty {
        value: read_list(source, key::VALUE),
        value_id: read_member(source, key::VALUE_ID),
    };
    Some(())
}

/// The members of a Range from `max` on.
pub(crate) fn read_bounds(source: &mut Source<'_>, element: &mut Element) -> Option<()> {
    let max = read_member(source, key::MAX);
    let min = read_member(source, key::MIN);
    source.skip_model_type();
    read_range(source, element, min, max)
}

/// The members of a Range behind `modelType`.
pub(crate) fn read_range(
    source: &mut Source<'_>,
    element: &mut Element,
    min: Option<Text>,
    max: Option<Text>,
) -> Option<()> {
    read_meaning(source, &mut element.common);
    element.payload = Payload::Range {
        value_type: read_word(source, key::VALUE_TYPE)?,
        min,
        max,
    };
    Some(())
}

/// The members of a File or a Blob from `contentType` on.
pub(crate) fn read_file(source: &mut Source<'_>, element: &mut Element) -> Option<()> {
    let content_type = read_member(source, key::CONTENT_TYPE);
    element.common.description = read_list(source, key::DESCRIPTION);
    read_from_display_name(source, &mut element.common);
    let kind = read_word(source, key::MODEL_TYPE)?;
    read_meaning(source, &mut element.common);
    let value = read_member(source, key::VALUE);
    element.payload = match kind {
        Kind::File => Payload::File {
            content_type,
            value,
        },
        Kind::Blob => Payload::Blob {
            content_type,
            value,
        },
        _ => return None,
    };
    Some(())
}

/// The members of a ReferenceElement behind `modelType`.
pub(crate) fn read_reference_element(source: &mut Source<'_>, element: &mut Element) -> Option<()> {
    read_meaning(source, &mut element.common);
    let value = read_member(source, key::VALUE);
    element.payload = Payload::ReferenceElement { value };
    Some(())
}

/// The members of a Capability behind `modelType`.
pub(crate) fn read_capability(source: &mut Source<'_>, element: &mut Element) -> Option<()> {
    read_meaning(source, &mut element.common);
    element.payload = Payload::Capability;
    Some(())
}

/// The members of a relationship from `first` on, behind its annotations.
pub(crate) fn read_relationship(source: &mut Source<'_>, element: &mut Element) -> Option<()> {
    let first = read_member(source, key::FIRST);
    element.common.id_short = read_member(source, key::ID_SHORT);
    let kind = read_word(source, key::MODEL_TYPE)?;
    element.common.qualifiers = read_list(source, key::QUALIFIERS);
    let second = read_member(source, key::SECOND);
    element.common.semantics.semantic_id = read_member(source, key::SEMANTIC_ID);
    read_supplemental(source, &mut element.common);
    element.payload = match kind {
        Kind::RelationshipElement => Payload::RelationshipElement { first, second },
        Kind::AnnotatedRelationshipElement => {
            Payload::AnnotatedRelationshipElement { first, second }
        }
        _ => return None,
    };
    Some(())
}

/// The members of a BasicEventElement from `lastUpdate` to `minInterval`.
#[derive(Drop)]
struct Messages {
    last_update: Option<Text>,
    max_interval: Option<Text>,
    broker: Option<Reference>,
    topic: Option<Text>,
    min_interval: Option<Text>,
}

fn read_messages(source: &mut Source<'_>) -> Messages {
    let last_update = read_member(source, key::LAST_UPDATE);
    let max_interval = read_member(source, key::MAX_INTERVAL);
    let broker = read_member(source, key::MESSAGE_BROKER);
    let topic = read_member(source, key::MESSAGE_TOPIC);
    let min_interval = read_member(source, key::MIN_INTERVAL);
    Messages {
        last_update,
        max_interval,
        broker,
        topic,
        min_interval,
    }
}

/// The members of a BasicEventElement from `direction` on.
pub(crate) fn read_event(source: &mut Source<'_>, element: &mut Element) -> Option<()> {
    let direction = read_word(source, key::DIRECTION)?;
    read_from_display_name(source, &mut element.common);
    let messages = read_messages(source);
    source.skip_model_type();
    let observed = read_member(source, key::OBSERVED);
    read_semantic_id(source, &mut element.common);
    let state = read_word(source, key::STATE)?;
    read_supplemental(source, &mut element.common);
    let Messages {
        last_update,
        max_interval,
        broker,
        topic,
        min_interval,
    } = messages;
    element.payload = Payload::BasicEventElement {
        observed,
        direction,
        state,
        message_topic: topic,
        message_broker: broker,
        last_update,
        min_interval,
        max_interval,
    };
    Some(())
}
