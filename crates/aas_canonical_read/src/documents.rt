// Documents.
use crate::canonical::{Canonical, read_list, read_member, read_word};
use crate::elements::{Place, read_children};
use crate::source::Source;
use aas_json_table::too_deep::Levels;
use aas_json_write_members::key;
use aas_model::{
    Administration, Concept, Environment, Head, Many, Role, Semantics, Shell, Submodel, Text,
};

const SUBMODEL_ELEMENTS: Place = Place(key::SUBMODEL_ELEMENTS, Role::Member);

/// What all documents have, of which these members are read and those from `description` to `idShort` are next.
fn read_head(
    source: &mut Source<'_>,
    administration: Option<Administration>,
    category: Option<Text>,
) -> Option<Head> {
    Some(Head {
        administration,
        category,
        description: read_list(source, key::DESCRIPTION),
        display_name: read_list(source, key::DISPLAY_NAME),
        embedded_data_specifications: read_list(source, key::EMBEDDED_DATA_SPECIFICATIONS),
        extensions: read_list(source, key::EXTENSIONS),
        id: read_member(source, key::ID)?,
        id_short: read_member(source, key::ID_SHORT),
    })
}

/// The same, of which all is next: none of a document's own members stands between.
fn read_undivided_head(source: &mut Source<'_>) -> Option<Head> {
    let administration = read_member(source, key::ADMINISTRATION);
    let category = read_member(source, key::CATEGORY);
    read_head(source, administration, category)
}

impl Canonical for Shell {
    fn read(source: &mut Source<'_>) -> Option<Shell> {
        let administration = read_member(source, key::ADMINISTRATION);
        let asset = read_member(source, key::ASSET_INFORMATION)?;
        let category = read_member(source, key::CATEGORY);
        let derived_from = read_member(source, key::DERIVED_FROM);
        let head = read_head(source, administration, category)?;
        source.skip_model_type();
        let submodels = read_list(source, key::SUBMODELS);
        source.end_object();
        Some(Shell {
            head,
            derived_from,
            asset,
            submodels,
        })
    }
}

impl Canonical for Concept {
    fn read(source: &mut Source<'_>) -> Option<Concept> {
        let head = read_undivided_head(source)?;
        let is_case_of = read_list(source, key::IS_CASE_OF);
        source.skip_model_type();
        source.end_object();
        Some(Concept { head, is_case_of })
    }
}

impl Canonical for Submodel {
    fn read(source: &mut Source<'_>) -> Option<Submodel> {
        let head = read_undivided_head(source)?;
        let kind = read_word(source, key::KIND);
        source.skip_model_type();
        let qualifiers = read_list(source, key::QUALIFIERS);
        let semantic_id = read_member(source, key::SEMANTIC_ID);
        let elements = read_children(source, SUBMODEL_ELEMENTS, Levels::LIMITS.elements);
        let supplemental_semantic_ids = read_list(source, key::SUPPLEMENTAL_SEMANTIC_IDS);
        source.end_object();
        Some(Submodel {
            head,
            kind,
            semantics: Semantics {
                semantic_id,
                supplemental_semantic_ids,
            },
            qualifiers,
            kids: Many::from(elements),
        })
    }
}

impl Canonical for Environment {
    fn read(source: &mut Source<'_>) -> Option<Environment> {
        let environment = Environment {
            shells: read_list(source, key::ASSET_ADMINISTRATION_SHELLS),
            concepts: read_list(source, key::CONCEPT_DESCRIPTIONS),
            submodels: read_list(source, key::SUBMODELS),
        };
        source.end_any_object();
        Some(environment)
    }
}
