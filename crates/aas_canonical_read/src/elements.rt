// Elements, with all below them.
use crate::canonical::{read_flag, read_list, read_member, read_name, read_word};
use crate::common::{read_meaning, read_semantic_id, read_supplemental};
use crate::kinds::{
    read_bounds, read_capability, read_event, read_file, read_multi_language_property,
    read_property, read_range, read_reference_element, read_relationship,
};
use crate::source::Source;
use aas_json_write_members::key;
use aas_model::{Common, Element, Kind, Many, Payload, Role};
use std::alloc::Global;

/// A member whose items are children: its key, and the role of each.
#[derive(Clone, Copy)]
pub(crate) struct Place(pub(crate) &'static str, pub(crate) Role);

const ANNOTATIONS: Place = Place(",\"annotations\":", Role::Annotation);

const INOUTPUT: Place = Place(",\"inoutputVariables\":", Role::Inoutput);

const INPUT: Place = Place(",\"inputVariables\":", Role::Input);

const OUTPUT: Place = Place(",\"outputVariables\":", Role::Output);

const STATEMENTS: Place = Place(",\"statements\":", Role::Statement);

const MEMBERS: Place = Place(key::VALUE, Role::Member);

/// An element in a role that has nothing yet. It is filled where it stands, since elements are large.
pub(crate) fn empty_element(alloc: Global, role: Role) -> Element {
    Element {
        common: Common::empty(alloc),
        payload: Payload::Capability,
        role,
        kids: Many::new(alloc),
    }
}

/// Reads into an empty element, for which so many levels of elements are left. Where it gives `None`, here and below, the
/// source is to stop.
#[cycle(element)]
pub(crate) fn read_element(
    source: &mut Source<'_>,
    element: &mut Element,
    left: u32,
) -> Option<()> {
    let below = left.checked_sub(1)?;
    if source.letter() < b'i' {
        read_from_start(source, element, below)?;
    } else {
        read_from_id_short(source, element, below)?;
    }
    source.end_object();
    Some(())
}

/// The children in a place, if this is next, for which so many levels are left. Variables have theirs as their value.
#[cycle(element)]
pub(crate) fn read_children(source: &mut Source<'_>, place: Place, left: u32) -> Vec<Element> {
    let Place(key, role) = place;
    let mut children = Vec::new(source.alloc());
    if !source.skip_key(key) {
        return children;
    }
    let is_variable = matches!(role, Role::Input | Role::Output | Role::Inoutput);
    source.expect("[");
    for _ in 0..source.len() {
        if children.push(empty_element(source.alloc(), role)).is_err() {
            source.stop_for_memory();
        }
        if is_variable {
            source.expect("{\"value\":");
        }
        let Some(child) = children.last_mut() else {
            break;
        };
        if read_element(source, child, left).is_none() {
            source.stop();
        }
        if is_variable {
            source.end_object();
        }
        if !source.skip(",") {
            break;
        }
    }
    source.expect("]");
    children
}

/// All members of an element. What stands before `idShort` and is of a kind's own says which kind it is.
#[cycle(element)]
fn read_from_start(source: &mut Source<'_>, element: &mut Element, below: u32) -> Option<()> {
    let annotations = read_children(source, ANNOTATIONS, below);
    element.common.category = read_member(source, key::CATEGORY);
    if source.is_at(key::CONTENT_TYPE) {
        return read_file(source, element);
    }
    element.common.description = read_list(source, key::DESCRIPTION);
    if source.is_at(key::DIRECTION) {
        return read_event(source, element);
    }
    element.common.display_name = read_list(source, key::DISPLAY_NAME);
    element.common.embedded_data_specifications = read_list(
        source,
        key::EMBEDDED_DATA_SPECIFICATIONS,
    );
    if source.is_at(key::ENTITY_TYPE) {
        return read_entity(source, element, below);
    }
    element.common.extensions = read_list(source, key::EXTENSIONS);
    if source.is_at(key::FIRST) {
        element.kids = Many::from(annotations);
        return read_relationship(source, element);
    }
    read_from_id_short(source, element, below)
}

/// The members from `idShort` on.
#[cycle(element)]
fn read_from_id_short(source: &mut Source<'_>, element: &mut Element, below: u32) -> Option<()> {
    element.common.id_short = read_member(source, key::ID_SHORT);
    if source.skip_key(key::MODEL_TYPE) {
        let kind = read_name(source)?;
        read_of_kind(source, element, kind, below)
    } else if source.letter() == b'i' {
        read_variables(source, element, below)
    } else {
        read_bounds(source, element)
    }
}

/// The members behind `modelType`, of a kind that may have none of its own before.
#[cycle(element)]
fn read_of_kind(
    source: &mut Source<'_>,
    element: &mut Element,
    kind: Kind,
    below: u32,
) -> Option<()> {
    match kind {
        Kind::Property => read_property(source, element),
        Kind::MultiLanguageProperty => read_multi_language_property(source, element),
        Kind::Range => read_range(source, element, None, None),
        Kind::ReferenceElement => read_reference_element(source, element),
        Kind::Capability => read_capability(source, element),
        Kind::Operation => {
            let none = Vec::new(source.alloc());
            read_operation(source, element, none, Vec::new(source.alloc()), below)
        }
        Kind::SubmodelElementCollection => read_collection(source, element, below),
        Kind::SubmodelElementList => read_element_list(source, element, below),
        Kind::File
        | Kind::Blob
        | Kind::RelationshipElement
        | Kind::AnnotatedRelationshipElement
        | Kind::Entity
        | Kind::BasicEventElement => None,
    }
}

/// The members of an Entity from `entityType` on.
#[cycle(element)]
fn read_entity(source: &mut Source<'_>, element: &mut Element, below: u32) -> Option<()> {
    let entity_type = read_word(source, key::ENTITY_TYPE);
    element.common.extensions = read_list(source, key::EXTENSIONS);
    let global_asset_id = read_member(source, key::GLOBAL_ASSET_ID);
    element.common.id_short = read_member(source, key::ID_SHORT);
    source.skip_model_type();
    read_semantic_id(source, &mut element.common);
    let specific_asset_ids = read_list(source, key::SPECIFIC_ASSET_IDS);
    element.kids = Many::from(read_children(source, STATEMENTS, below));
    read_supplemental(source, &mut element.common);
    element.payload = Payload::Entity {
        entity_type,
        global_asset_id,
        specific_asset_ids,
    };
    Some(())
}

/// The members of an Operation from `inoutputVariables` on.
#[cycle(element)]
fn read_variables(source: &mut Source<'_>, element: &mut Element, below: u32) -> Option<()> {
    let inoutput = read_children(source, INOUTPUT, below);
    let input = read_children(source, INPUT, below);
    source.skip_model_type();
    read_operation(source, element, input, inoutput, below)
}

/// The members of an Operation behind `modelType`. Its children are its input, output and inoutput variables.
#[cycle(element)]
fn read_operation(
    source: &mut Source<'_>,
    element: &mut Element,
    input: Vec<Element>,
    inoutput: Vec<Element>,
    below: u32,
) -> Option<()> {
    let mut variables = input;
    let mut last = inoutput;
    let mut output = read_children(source, OUTPUT, below);
    read_meaning(source, &mut element.common);
    if variables.append(&mut output).is_err() || variables.append(&mut last).is_err() {
        source.stop_for_memory();
    }
    element.kids = Many::from(variables);
    element.payload = Payload::Operation;
    Some(())
}

/// The members of a SubmodelElementCollection behind `modelType`.
#[cycle(element)]
fn read_collection(source: &mut Source<'_>, element: &mut Element, below: u32) -> Option<()> {
    read_meaning(source, &mut element.common);
    element.kids = Many::from(read_children(source, MEMBERS, below));
    element.payload = Payload::SubmodelElementCollection;
    Some(())
}

/// The members of a SubmodelElementList behind `modelType`.
#[cycle(element)]
fn read_element_list(source: &mut Source<'_>, element: &mut Element, below: u32) -> Option<()> {
    let order_relevant = read_flag(source, key::ORDER_RELEVANT);
    read_semantic_id(source, &mut element.common);
    let semantic_id_list_element = read_member(source, key::SEMANTIC_ID_LIST_ELEMENT);
    read_supplemental(source, &mut element.common);
    let type_value_list_element = read_word(source, key::TYPE_VALUE_LIST_ELEMENT)?;
    element.kids = Many::from(read_children(source, MEMBERS, below));
    let value_type_list_element = read_word(source, key::VALUE_TYPE_LIST_ELEMENT);
    element.payload = Payload::SubmodelElementList {
        order_relevant,
        semantic_id_list_element,
        type_value_list_element,
        value_type_list_element,
    };
    Some(())
}
