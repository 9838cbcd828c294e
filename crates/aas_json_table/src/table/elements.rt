ghost use Rattle.std.specs.Prelude.{◌≡◌, map, Some, option_map};
ghost use Rattle.aas_model_names.specs.KindNames.{name_of};
ghost use Rattle.aas_json_table.specs.Names.{has};
ghost use Rattle.aas_json_table.specs.Rows.{sorted, find};
ghost use Rattle.aas_json_table.specs.Seen.{row_of, rows_seen};
ghost use Rattle.aas_json_table.specs.Table.{model_types, element, data_element};

use super::MemberType::{Flag, Many, One, Text, Word};
use super::common::{
    CATEGORY, DESCRIPTION, DISPLAY_NAME, EMBEDDED_DATA_SPECIFICATIONS, EXTENSIONS, ID_SHORT,
    MODEL_TYPE, QUALIFIERS, SEMANTIC_ID, SUPPLEMENTAL_SEMANTIC_IDS,
};
use super::{Class, Names, Row, Sort};
use crate::name;
use aas_model_names::{Kind, Named};

/// Property.
static PROPERTY: [Row; 13] = [
    CATEGORY,
    DESCRIPTION,
    DISPLAY_NAME,
    EMBEDDED_DATA_SPECIFICATIONS,
    EXTENSIONS,
    ID_SHORT,
    MODEL_TYPE,
    QUALIFIERS,
    SEMANTIC_ID,
    SUPPLEMENTAL_SEMANTIC_IDS,
    optional!(name::VALUE, Text, Class::V),
    optional!(name::VALUE_ID, One(Sort::Reference)),
    required!(name::VALUE_TYPE, Word(Names::ValueTypes)),
];

/// MultiLanguageProperty.
static MULTI_LANGUAGE_PROPERTY: [Row; 12] = [
    CATEGORY,
    DESCRIPTION,
    DISPLAY_NAME,
    EMBEDDED_DATA_SPECIFICATIONS,
    EXTENSIONS,
    ID_SHORT,
    MODEL_TYPE,
    QUALIFIERS,
    SEMANTIC_ID,
    SUPPLEMENTAL_SEMANTIC_IDS,
    optional!(name::VALUE, Many(Sort::LangText), Class::V),
    optional!(name::VALUE_ID, One(Sort::Reference)),
];

/// Range.
static RANGE: [Row; 13] = [
    CATEGORY,
    DESCRIPTION,
    DISPLAY_NAME,
    EMBEDDED_DATA_SPECIFICATIONS,
    EXTENSIONS,
    ID_SHORT,
    optional!(name::MAX, Text, Class::V),
    optional!(name::MIN, Text, Class::V),
    MODEL_TYPE,
    QUALIFIERS,
    SEMANTIC_ID,
    SUPPLEMENTAL_SEMANTIC_IDS,
    required!(name::VALUE_TYPE, Word(Names::ValueTypes)),
];

/// File.
static FILE: [Row; 12] = [
    CATEGORY,
    required!(name::CONTENT_TYPE, Text, Class::V),
    DESCRIPTION,
    DISPLAY_NAME,
    EMBEDDED_DATA_SPECIFICATIONS,
    EXTENSIONS,
    ID_SHORT,
    MODEL_TYPE,
    QUALIFIERS,
    SEMANTIC_ID,
    SUPPLEMENTAL_SEMANTIC_IDS,
    optional!(name::VALUE, Text, Class::V),
];

/// Blob.
static BLOB: [Row; 12] = [
    CATEGORY,
    required!(name::CONTENT_TYPE, Text, Class::V),
    DESCRIPTION,
    DISPLAY_NAME,
    EMBEDDED_DATA_SPECIFICATIONS,
    EXTENSIONS,
    ID_SHORT,
    MODEL_TYPE,
    QUALIFIERS,
    SEMANTIC_ID,
    SUPPLEMENTAL_SEMANTIC_IDS,
    optional!(name::VALUE, Text, Class::V),
];

/// ReferenceElement.
static REFERENCE_ELEMENT: [Row; 11] = [
    CATEGORY,
    DESCRIPTION,
    DISPLAY_NAME,
    EMBEDDED_DATA_SPECIFICATIONS,
    EXTENSIONS,
    ID_SHORT,
    MODEL_TYPE,
    QUALIFIERS,
    SEMANTIC_ID,
    SUPPLEMENTAL_SEMANTIC_IDS,
    optional!(name::VALUE, One(Sort::Reference), Class::V),
];

/// RelationshipElement.
static RELATIONSHIP_ELEMENT: [Row; 12] = [
    CATEGORY,
    DESCRIPTION,
    DISPLAY_NAME,
    EMBEDDED_DATA_SPECIFICATIONS,
    EXTENSIONS,
    required!(name::FIRST, One(Sort::Reference), Class::V),
    ID_SHORT,
    MODEL_TYPE,
    QUALIFIERS,
    required!(name::SECOND, One(Sort::Reference), Class::V),
    SEMANTIC_ID,
    SUPPLEMENTAL_SEMANTIC_IDS,
];

/// AnnotatedRelationshipElement.
static ANNOTATED_RELATIONSHIP_ELEMENT: [Row; 13] = [
    optional!(name::ANNOTATIONS, Many(Sort::DataElement), Class::V),
    CATEGORY,
    DESCRIPTION,
    DISPLAY_NAME,
    EMBEDDED_DATA_SPECIFICATIONS,
    EXTENSIONS,
    required!(name::FIRST, One(Sort::Reference), Class::V),
    ID_SHORT,
    MODEL_TYPE,
    QUALIFIERS,
    required!(name::SECOND, One(Sort::Reference), Class::V),
    SEMANTIC_ID,
    SUPPLEMENTAL_SEMANTIC_IDS,
];

/// Entity.
static ENTITY: [Row; 14] = [
    CATEGORY,
    DESCRIPTION,
    DISPLAY_NAME,
    EMBEDDED_DATA_SPECIFICATIONS,
    required!(name::ENTITY_TYPE, Word(Names::EntityTypes), Class::V),
    EXTENSIONS,
    optional!(name::GLOBAL_ASSET_ID, Text, Class::V),
    ID_SHORT,
    MODEL_TYPE,
    QUALIFIERS,
    SEMANTIC_ID,
    optional!(
        name::SPECIFIC_ASSET_IDS,
        Many(Sort::SpecificAssetId),
        Class::V
    ),
    optional!(name::STATEMENTS, Many(Sort::Element), Class::V),
    SUPPLEMENTAL_SEMANTIC_IDS,
];

/// BasicEventElement.
static BASIC_EVENT_ELEMENT: [Row; 18] = [
    CATEGORY,
    DESCRIPTION,
    required!(name::DIRECTION, Word(Names::Directions)),
    DISPLAY_NAME,
    EMBEDDED_DATA_SPECIFICATIONS,
    EXTENSIONS,
    ID_SHORT,
    optional!(name::LAST_UPDATE, Text),
    optional!(name::MAX_INTERVAL, Text),
    optional!(name::MESSAGE_BROKER, One(Sort::Reference)),
    optional!(name::MESSAGE_TOPIC, Text),
    optional!(name::MIN_INTERVAL, Text),
    MODEL_TYPE,
    required!(name::OBSERVED, One(Sort::Reference), Class::V),
    QUALIFIERS,
    SEMANTIC_ID,
    required!(name::STATE, Word(Names::StatesOfEvent)),
    SUPPLEMENTAL_SEMANTIC_IDS,
];

/// Capability.
static CAPABILITY: [Row; 10] = [
    CATEGORY,
    DESCRIPTION,
    DISPLAY_NAME,
    EMBEDDED_DATA_SPECIFICATIONS,
    EXTENSIONS,
    ID_SHORT,
    MODEL_TYPE,
    QUALIFIERS,
    SEMANTIC_ID,
    SUPPLEMENTAL_SEMANTIC_IDS,
];

/// Operation.
static OPERATION: [Row; 13] = [
    CATEGORY,
    DESCRIPTION,
    DISPLAY_NAME,
    EMBEDDED_DATA_SPECIFICATIONS,
    EXTENSIONS,
    ID_SHORT,
    optional!(
        name::INOUTPUT_VARIABLES,
        Many(Sort::OperationVariable),
        Class::V
    ),
    optional!(
        name::INPUT_VARIABLES,
        Many(Sort::OperationVariable),
        Class::V
    ),
    MODEL_TYPE,
    optional!(
        name::OUTPUT_VARIABLES,
        Many(Sort::OperationVariable),
        Class::V
    ),
    QUALIFIERS,
    SEMANTIC_ID,
    SUPPLEMENTAL_SEMANTIC_IDS,
];

/// SubmodelElementCollection.
static SUBMODEL_ELEMENT_COLLECTION: [Row; 11] = [
    CATEGORY,
    DESCRIPTION,
    DISPLAY_NAME,
    EMBEDDED_DATA_SPECIFICATIONS,
    EXTENSIONS,
    ID_SHORT,
    MODEL_TYPE,
    QUALIFIERS,
    SEMANTIC_ID,
    SUPPLEMENTAL_SEMANTIC_IDS,
    optional!(name::VALUE, Many(Sort::Element), Class::V),
];

/// SubmodelElementList.
static SUBMODEL_ELEMENT_LIST: [Row; 15] = [
    CATEGORY,
    DESCRIPTION,
    DISPLAY_NAME,
    EMBEDDED_DATA_SPECIFICATIONS,
    EXTENSIONS,
    ID_SHORT,
    MODEL_TYPE,
    optional!(name::ORDER_RELEVANT, Flag),
    QUALIFIERS,
    SEMANTIC_ID,
    optional!(name::SEMANTIC_ID_LIST_ELEMENT, One(Sort::Reference)),
    SUPPLEMENTAL_SEMANTIC_IDS,
    required!(name::TYPE_VALUE_LIST_ELEMENT, Word(Names::ElementNames)),
    optional!(name::VALUE, Many(Sort::Element), Class::V),
    optional!(name::VALUE_TYPE_LIST_ELEMENT, Word(Names::ValueTypes)),
];

/// The rows of a submodel element whose kind has this name.
pub(super) fn element_rows(name: &str) -> Option<&'static [Row]>
    ensures { rows_seen result ≡ option_map sorted (find name.now (model_types element)) }
{
    match Kind::from_name(name) {
        Some(kind) => Some(rows_of_kind(kind)),
        None => None,
    }
}

/// The rows of a data element whose kind has this name.
pub(super) fn data_element_rows(name: &str) -> Option<&'static [Row]>
    ensures { rows_seen result ≡ option_map sorted (find name.now (model_types data_element)) }
{
    match Kind::from_name(name) {
        Some(kind) => data_rows_of_kind(kind),
        None => None,
    }
}

fn rows_of_kind(kind: Kind) -> &'static [Row]
    ensures { option_map sorted (find (name_of kind) (model_types element)) ≡ Some (map row_of result.now) }
{
    match kind {
        Kind::Property => &PROPERTY,
        Kind::MultiLanguageProperty => &MULTI_LANGUAGE_PROPERTY,
        Kind::Range => &RANGE,
        Kind::File => &FILE,
        Kind::Blob => &BLOB,
        Kind::ReferenceElement => &REFERENCE_ELEMENT,
        Kind::RelationshipElement => &RELATIONSHIP_ELEMENT,
        Kind::AnnotatedRelationshipElement => &ANNOTATED_RELATIONSHIP_ELEMENT,
        Kind::Entity => &ENTITY,
        Kind::BasicEventElement => &BASIC_EVENT_ELEMENT,
        Kind::Capability => &CAPABILITY,
        Kind::Operation => &OPERATION,
        Kind::SubmodelElementCollection => &SUBMODEL_ELEMENT_COLLECTION,
        Kind::SubmodelElementList => &SUBMODEL_ELEMENT_LIST,
    }
}

fn data_rows_of_kind(kind: Kind) -> Option<&'static [Row]>
    ensures { rows_seen result ≡ option_map sorted (find (name_of kind) (model_types data_element)) }
{
    if kind.is_data_element() {
        Some(rows_of_kind(kind))
    } else {
        None
    }
}
