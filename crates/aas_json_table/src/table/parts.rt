use super::MemberType::{Many, One, Text, Word};
use super::common::{EMBEDDED_DATA_SPECIFICATIONS, SEMANTIC_ID, SUPPLEMENTAL_SEMANTIC_IDS};
use super::{Class, Names, Row, Sort};
use crate::name;

/// Reference.
pub(super) static REFERENCE: [Row; 3] = [
    required!(name::KEYS, Many(Sort::Key)),
    optional!(name::REFERRED_SEMANTIC_ID, One(Sort::Reference)),
    required!(name::TYPE, Word(Names::ReferenceTypes)),
];

/// Key.
pub(super) static KEY: [Row; 2] = [
    required!(name::TYPE, Word(Names::KeyTypes)),
    required!(name::VALUE, Text),
];

/// AbstractLangString.
pub(super) static LANG_TEXT: [Row; 2] = [
    required!(name::LANGUAGE, Text),
    required!(name::TEXT, Text),
];

/// Extension.
pub(super) static EXTENSION: [Row; 6] = [
    required!(name::NAME, Text),
    optional!(name::REFERS_TO, Many(Sort::Reference)),
    SEMANTIC_ID,
    SUPPLEMENTAL_SEMANTIC_IDS,
    optional!(name::VALUE, Text),
    optional!(name::VALUE_TYPE, Word(Names::ValueTypes)),
];

/// Qualifier.
pub(super) static QUALIFIER: [Row; 7] = [
    optional!(name::KIND, Word(Names::QualifierKinds)),
    SEMANTIC_ID,
    SUPPLEMENTAL_SEMANTIC_IDS,
    required!(name::TYPE, Text),
    optional!(name::VALUE, Text),
    optional!(name::VALUE_ID, One(Sort::Reference)),
    required!(name::VALUE_TYPE, Word(Names::ValueTypes)),
];

/// SpecificAssetId.
pub(super) static SPECIFIC_ASSET_ID: [Row; 5] = [
    optional!(name::EXTERNAL_SUBJECT_ID, One(Sort::Reference)),
    required!(name::NAME, Text),
    SEMANTIC_ID,
    SUPPLEMENTAL_SEMANTIC_IDS,
    required!(name::VALUE, Text),
];

/// AdministrativeInformation.
pub(super) static ADMINISTRATION: [Row; 5] = [
    optional!(name::CREATOR, One(Sort::Reference)),
    EMBEDDED_DATA_SPECIFICATIONS,
    optional!(name::REVISION, Text),
    optional!(name::TEMPLATE_ID, Text),
    optional!(name::VERSION, Text),
];

/// AssetInformation.
pub(super) static ASSET_INFORMATION: [Row; 5] = [
    required!(name::ASSET_KIND, Word(Names::AssetKinds)),
    optional!(name::ASSET_TYPE, Text),
    optional!(name::DEFAULT_THUMBNAIL, One(Sort::Resource)),
    optional!(name::GLOBAL_ASSET_ID, Text),
    optional!(name::SPECIFIC_ASSET_IDS, Many(Sort::SpecificAssetId)),
];

/// Resource.
pub(super) static RESOURCE: [Row; 2] = [
    optional!(name::CONTENT_TYPE, Text),
    required!(name::PATH, Text),
];

/// OperationVariable.
pub(super) static OPERATION_VARIABLE: [Row; 1] = [required!(name::VALUE, One(Sort::Element))];

/// Environment.
pub(super) static ENVIRONMENT: [Row; 3] = [
    optional!(name::ASSET_ADMINISTRATION_SHELLS, Many(Sort::Shell)),
    optional!(name::CONCEPT_DESCRIPTIONS, Many(Sort::Concept)),
    optional!(name::SUBMODELS, Many(Sort::Submodel)),
];
