// Documents: shells and concept descriptions whole, and submodels without their elements.
ghost use Rattle.std.specs.Prelude.{◌∷◌, ◌++◌, []};
ghost use Rattle.serde_json.specs.Written.{compact_text};
ghost use Rattle.aas_json_mapping.specs.Documents.{spell_concept, spell_shell};
ghost use Rattle.aas_json_mapping.specs.Parts.{spell_administration, spell_asset_information, spell_resource};
ghost use Rattle.aas_json_write_members.specs.Heads.{described_names, head_fields, head_names};
ghost use Rattle.aas_json_write_members.specs.Heads.{names_before, names_behind, submodel_fields};
ghost use Rattle.aas_json_write_members.specs.Members.{fields_text};
ghost use Rattle.aas_json_write_members.specs.Puts.{BeginsObject, PutsFields};
ghost use Rattle.aas_out.specs.Adds.{Adds};

use crate::kept::Plains;
use crate::key;
use crate::members::Pen;
use crate::pen::{
    begin_object, end_object, put_list, put_one, put_optional, put_optional_word, put_string,
    put_word,
};
use crate::poured::{Poured, Texts};
use aas_json_parts::{
    Administrations, AssetInformations, Extensions, LangTexts, Qualifiers, Resources,
    SpecificAssetIds,
};
use aas_model::{Administration, AssetInformation, Concept, Head, Resource, Shell, Submodel};
use aas_out::{Pouring, TextEnd};
use aas_reference::References;

impl Poured for Administrations {
    type Tree = Administration;

    ghost spell = { spell_administration };

    fn pour<O: TextEnd>(so_far: Pouring, administration: &Administration, out: &mut O) -> Pouring {
        let begun = begin_object(so_far, out);
        let creator = put_optional::<References, O>(
            begun,
            key::CREATOR,
            &administration.creator,
            out,
        );
        let specifications = &administration.embedded_data_specifications;
        let kept = put_list::<Plains, O>(
            creator,
            key::EMBEDDED_DATA_SPECIFICATIONS,
            specifications,
            out,
        );
        let revision = put_optional::<Texts, O>(kept, key::REVISION, &administration.revision, out);
        let template = put_optional::<Texts, O>(
            revision,
            key::TEMPLATE_ID,
            &administration.template_id,
            out,
        );
        let version = put_optional::<Texts, O>(
            template,
            key::VERSION,
            &administration.version,
            out,
        );
        end_object(version, out)
    }
}

impl Poured for Resources {
    type Tree = Resource;

    ghost spell = { spell_resource };

    fn pour<O: TextEnd>(so_far: Pouring, resource: &Resource, out: &mut O) -> Pouring {
        let begun = begin_object(so_far, out);
        let typed = put_optional::<Texts, O>(begun, key::CONTENT_TYPE, &resource.content_type, out);
        let placed = put_one::<Texts, O>(typed, key::PATH, &resource.path, out);
        end_object(placed, out)
    }
}

impl Poured for AssetInformations {
    type Tree = AssetInformation;

    ghost spell = { spell_asset_information };

    fn pour<O: TextEnd>(so_far: Pouring, asset: &AssetInformation, out: &mut O) -> Pouring {
        let begun = begin_object(so_far, out);
        let kind = put_word(begun, key::ASSET_KIND, asset.asset_kind, out);
        let typed = put_optional::<Texts, O>(kind, key::ASSET_TYPE, &asset.asset_type, out);
        let thumbnail = &asset.default_thumbnail;
        let shown = put_optional::<Resources, O>(typed, key::DEFAULT_THUMBNAIL, thumbnail, out);
        let global = put_optional::<Texts, O>(
            shown,
            key::GLOBAL_ASSET_ID,
            &asset.global_asset_id,
            out,
        );
        let specific_ids = &asset.specific_asset_ids;
        let specific = put_list::<SpecificAssetIds, O>(
            global,
            key::SPECIFIC_ASSET_IDS,
            specific_ids,
            out,
        );
        end_object(specific, out)
    }
}

/// Shells, as they are put.
pub struct Shells;

impl Poured for Shells {
    type Tree = Shell;

    ghost spell = { spell_shell };

    fn pour<O: TextEnd>(so_far: Pouring, shell: &Shell, out: &mut O) -> Pouring {
        pour_shell(so_far, shell, out)
    }
}

/// Concept descriptions, as they are put.
pub struct Concepts;

impl Poured for Concepts {
    type Tree = Concept;

    ghost spell = { spell_concept };

    fn pour<O: TextEnd>(so_far: Pouring, concept: &Concept, out: &mut O) -> Pouring {
        pour_concept(so_far, concept, out)
    }
}

/// Puts the canonical text of a shell (IDTA-01001-3-0, class AssetAdministrationShell).
pub fn pour_shell<O: TextEnd>(so_far: Pouring, shell: &Shell, out: &mut O) -> Pouring
    ensures { Adds so_far result (O.told out.old) (O.told out.new) (compact_text (spell_shell shell.now)) }
{
    let begun = begin_object(so_far, out);
    let administration = &shell.head.administration;
    let administered = put_optional::<Administrations, O>(
        begun,
        key::ADMINISTRATION,
        administration,
        out,
    );
    let asset = put_one::<AssetInformations, O>(
        administered,
        key::ASSET_INFORMATION,
        &shell.asset,
        out,
    );
    let category = put_optional::<Texts, O>(asset, key::CATEGORY, &shell.head.category, out);
    let derived = put_optional::<References, O>(
        category,
        key::DERIVED_FROM,
        &shell.derived_from,
        out,
    );
    let described = put_described(derived, &shell.head, out);
    let typed = put_string(described, key::MODEL_TYPE, "AssetAdministrationShell", out);
    let submodels = put_list::<References, O>(typed, key::SUBMODELS, &shell.submodels, out);
    end_object(submodels, out)
}

/// Puts the canonical text of a concept description (IDTA-01001-3-0, class ConceptDescription).
pub fn pour_concept<O: TextEnd>(so_far: Pouring, concept: &Concept, out: &mut O) -> Pouring
    ensures { Adds so_far result (O.told out.old) (O.told out.new) (compact_text (spell_concept concept.now)) }
{
    let described = begin_described(so_far, &concept.head, out);
    let cases = put_list::<References, O>(described, key::IS_CASE_OF, &concept.is_case_of, out);
    let typed = put_string(cases, key::MODEL_TYPE, "ConceptDescription", out);
    end_object(typed, out)
}

/// Begins a submodel, and puts what stands before its elements (IDTA-01001-3-0, class Submodel).
pub fn begin_submodel<O: TextEnd>(so_far: Pouring, submodel: &Submodel, out: &mut O) -> Pen
    ensures { BeginsObject so_far result (O.told out.old) (O.told out.new) (submodel_fields submodel.now names_before) }
{
    let described = begin_described(so_far, &submodel.head, out);
    let kind = put_optional_word(described, key::KIND, submodel.kind, out);
    let typed = put_string(kind, key::MODEL_TYPE, "Submodel", out);
    let qualified = put_list::<Qualifiers, O>(typed, key::QUALIFIERS, &submodel.qualifiers, out);
    let semantic_id = &submodel.semantics.semantic_id;
    put_optional::<References, O>(qualified, key::SEMANTIC_ID, semantic_id, out)
}

/// Puts what stands behind the elements of a submodel, and ends it.
pub fn end_submodel<O: TextEnd>(pen: Pen, submodel: &Submodel, out: &mut O) -> Pouring
    ensures { Adds pen.state result (O.told out.old) (O.told out.new)
        (fields_text pen.later (submodel_fields submodel.now names_behind) ++ 125 ∷ []) }
{
    let supplemental = &submodel.semantics.supplemental_semantic_ids;
    let meant = put_list::<References, O>(pen, key::SUPPLEMENTAL_SEMANTIC_IDS, supplemental, out);
    end_object(meant, out)
}

/// Begins an object, and puts the members from `administration` to `idShort` that all documents have.
fn begin_described<O: TextEnd>(so_far: Pouring, head: &Head, out: &mut O) -> Pen
    ensures { BeginsObject so_far result (O.told out.old) (O.told out.new) (head_fields head.now head_names) }
{
    let begun = begin_object(so_far, out);
    let administration = &head.administration;
    let administered = put_optional::<Administrations, O>(
        begun,
        key::ADMINISTRATION,
        administration,
        out,
    );
    let category = put_optional::<Texts, O>(administered, key::CATEGORY, &head.category, out);
    put_described(category, head, out)
}

/// Puts the members from `description` to `idShort` that all documents have.
fn put_described<O: TextEnd>(pen: Pen, head: &Head, out: &mut O) -> Pen
    ensures { PutsFields pen result (O.told out.old) (O.told out.new) (head_fields head.now described_names) }
{
    let description = put_list::<LangTexts, O>(pen, key::DESCRIPTION, &head.description, out);
    let display = put_list::<LangTexts, O>(description, key::DISPLAY_NAME, &head.display_name, out);
    let specifications = &head.embedded_data_specifications;
    let kept = put_list::<Plains, O>(
        display,
        key::EMBEDDED_DATA_SPECIFICATIONS,
        specifications,
        out,
    );
    let extensions = put_list::<Extensions, O>(kept, key::EXTENSIONS, &head.extensions, out);
    let identified = put_one::<Texts, O>(extensions, key::ID, &head.id, out);
    put_optional::<Texts, O>(identified, key::ID_SHORT, &head.id_short, out)
}
