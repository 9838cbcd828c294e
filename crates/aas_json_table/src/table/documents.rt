ghost use Rattle.std.specs.Prelude.{◌≡◌, option_map};
ghost use Rattle.aas_json_table.specs.Rows.{sorted, find};
ghost use Rattle.aas_json_table.specs.Seen.{rows_seen};
ghost use Rattle.aas_json_table.specs.Table.{model_types, shell, submodel, concept};

use super::MemberType::{Many, One, Word};
use super::common::{
    ADMINISTRATION, CATEGORY, DESCRIPTION, DISPLAY_NAME, EMBEDDED_DATA_SPECIFICATIONS, EXTENSIONS,
    ID, ID_SHORT, MODEL_TYPE, QUALIFIERS, SEMANTIC_ID, SUPPLEMENTAL_SEMANTIC_IDS,
};
use super::{Class, Names, Row, Sort};
use crate::name;

/// AssetAdministrationShell.
static SHELL: [Row; 12] = [
    ADMINISTRATION,
    required!(name::ASSET_INFORMATION, One(Sort::AssetInformation)),
    CATEGORY,
    optional!(name::DERIVED_FROM, One(Sort::Reference)),
    DESCRIPTION,
    DISPLAY_NAME,
    EMBEDDED_DATA_SPECIFICATIONS,
    EXTENSIONS,
    ID,
    ID_SHORT,
    MODEL_TYPE,
    optional!(name::SUBMODELS, Many(Sort::Reference)),
];

/// Submodel.
static SUBMODEL: [Row; 14] = [
    ADMINISTRATION,
    CATEGORY,
    DESCRIPTION,
    DISPLAY_NAME,
    EMBEDDED_DATA_SPECIFICATIONS,
    EXTENSIONS,
    ID,
    ID_SHORT,
    optional!(name::KIND, Word(Names::ModellingKinds)),
    MODEL_TYPE,
    QUALIFIERS,
    SEMANTIC_ID,
    optional!(name::SUBMODEL_ELEMENTS, Many(Sort::Element), Class::V),
    SUPPLEMENTAL_SEMANTIC_IDS,
];

/// ConceptDescription.
static CONCEPT: [Row; 10] = [
    ADMINISTRATION,
    CATEGORY,
    DESCRIPTION,
    DISPLAY_NAME,
    EMBEDDED_DATA_SPECIFICATIONS,
    EXTENSIONS,
    ID,
    ID_SHORT,
    optional!(name::IS_CASE_OF, Many(Sort::Reference)),
    MODEL_TYPE,
];

/// The rows of an AssetAdministrationShell, where that is the modelType.
pub(super) fn shell_rows(model_type: &str) -> Option<&'static [Row]>
    ensures { rows_seen result ≡ option_map sorted (find model_type.now (model_types shell)) }
{
    if model_type == "AssetAdministrationShell" {
        Some(&SHELL)
    } else {
        None
    }
}

/// The rows of a Submodel, where that is the modelType.
pub(super) fn submodel_rows(model_type: &str) -> Option<&'static [Row]>
    ensures { rows_seen result ≡ option_map sorted (find model_type.now (model_types submodel)) }
{
    if model_type == "Submodel" {
        Some(&SUBMODEL)
    } else {
        None
    }
}

/// The rows of a ConceptDescription, where that is the modelType.
pub(super) fn concept_rows(model_type: &str) -> Option<&'static [Row]>
    ensures { rows_seen result ≡ option_map sorted (find model_type.now (model_types concept)) }
{
    if model_type == "ConceptDescription" {
        Some(&CONCEPT)
    } else {
        None
    }
}
