ghost use Rattle.std.specs.Prelude.{◌≡◌, ◌&&◌, ◌++◌, IfOk};
ghost use Rattle.std.specs.List.{list_all};
ghost use Rattle.aas_constraint_rules.specs.Attributes.{seen_of_concept, seen_of_shell, seen_of_submodel, texts_of_languages};
ghost use Rattle.aas_constraint_rules.specs.Decided.{is_language, is_string};
ghost use Rattle.aas_constraint_rules.specs.Faults.{asset_is_named, concept_rules, equals, global_ids_agree, head_is_versioned, is_global_name, is_template, revision_has_version, shell_rules, submodel_rules};
ghost use Rattle.aas_constraint_rules.specs.Rules.{semantics_have_main, texts_are_strings};
ghost use Rattle.aas_constraint_rules.specs.Lexical.{asset_has_form, head_has_form, seen_has_form};
ghost use Rattle.aas_constraints.specs.Own.{least_broken, own_fault};
ghost use Rattle.aas_constraint_parts.specs.References.{references_fault};

use aas_constraint_parts::{
    HoldsReferences, HoldsTexts, are_strings, asset_has_form, extensions_differ,
    extensions_have_form, extensions_have_main, fault_among, fault_of_list, fault_of_option,
    first_failed, has_main_semantics, head_has_form, id_short_is_name, id_short_is_short,
    is_template_or_none, languages_have_form, qualifiers_differ, qualifiers_have_form,
    qualifiers_have_main, qualifiers_have_types, specific_asset_ids_have_form,
    specific_asset_ids_have_main, subjects_are_external,
};
use aas_json_table::name::GLOBAL_ASSET_ID;
use aas_model::{
    Administration, AssetInformation, Concept, Head, ModellingKind, NoMemory, Shell,
    SpecificAssetId, Submodel, Text,
};
use aas_reference::least;
use std::alloc::Global;

// ---- attributes of all documents

#[tactic(auto, using(aas_constraint_parts::proofs::Lists::all_append))]
fn head_languages_have_form(head: &Head) -> bool
    ensures { result ≡ list_all (λ l. is_language l.language) (head.now.description ++ head.now.display_name) }
{
    languages_have_form(head.description.as_slice())
        && languages_have_form(head.display_name.as_slice())
}

#[tactic(auto, using(aas_constraint_parts::proofs::Lists::all_flat_append))]
fn head_languages_are_strings(head: &Head) -> bool
    ensures { result ≡ list_all is_string (texts_of_languages (head.now.description ++ head.now.display_name)) }
{
    are_strings(head.description.as_slice()) && are_strings(head.display_name.as_slice())
}

fn revision_has_version(administration: &Administration) -> bool
    ensures { result ≡ revision_has_version administration.now }
{
    administration.version.is_some() || administration.revision.is_none()
}

/// Whether there is no revision without a version. AASd-005.
fn head_is_versioned(head: &Head) -> bool
    ensures { result ≡ head_is_versioned head.now }
{
    match &head.administration {
        Some(administration) => revision_has_version(administration),
        None => true,
    }
}

// ---- submodels

/// Whether a submodel of this kind is a template.
pub fn is_template(kind: Option<ModellingKind>) -> bool
    ensures { result ≡ is_template kind }
{
    match kind {
        Some(kind) => matches!(kind, ModellingKind::Template),
        None => false,
    }
}

fn submodel_has_form(d: &Submodel) -> bool
    ensures { result ≡ (seen_has_form (seen_of_submodel d.now) && head_has_form d.now.head) }
{
    id_short_is_short(&d.head.id_short)
        && extensions_have_form(d.head.extensions.as_slice())
        && qualifiers_have_types(d.qualifiers.as_slice())
        && head_languages_have_form(&d.head)
        && head_has_form(&d.head)
}

#[tactic(auto, using(aas_constraint_parts::proofs::Lists::all_append))]
fn submodel_texts_are_strings(d: &Submodel) -> bool
    ensures { result ≡ texts_are_strings (seen_of_submodel d.now) }
{
    d.head.is_of_strings()
        && are_strings(d.qualifiers.as_slice())
        && head_languages_are_strings(&d.head)
}

fn submodel_semantics_have_main(d: &Submodel) -> bool
    ensures { result ≡ semantics_have_main (seen_of_submodel d.now) }
{
    has_main_semantics(&d.semantics)
        && qualifiers_have_main(d.qualifiers.as_slice())
        && extensions_have_main(d.head.extensions.as_slice())
}

fn own_submodel_fault(alloc: Global, d: &Submodel) -> Result<Option<u16>, NoMemory>
    ensures { IfOk result (λ n. n ≡ own_fault submodel_rules d.now) }
{
    let head = &d.head;
    let qualifiers = d.qualifiers.as_slice();
    Ok(first_failed(&[
        (0, submodel_has_form(d)),
        (2, id_short_is_name(&head.id_short)),
        (5, head_is_versioned(head)),
        (20, qualifiers_have_form(qualifiers)),
        (21, qualifiers_differ(alloc, qualifiers)?),
        (77, extensions_differ(alloc, head.extensions.as_slice())?),
        (118, submodel_semantics_have_main(d)),
        (119, is_template_or_none(is_template(d.kind), qualifiers)),
        (130, submodel_texts_are_strings(d)),
    ]))
}

#[tactic(auto, using(aas_constraint_parts::proofs::Least::fault_append))]
fn submodel_references_fault(d: &Submodel) -> Option<u16>
    ensures { result ≡ references_fault (seen_of_submodel d.now).references }
{
    let semantics = least(d.head.references_fault(), d.semantics.references_fault());
    least(semantics, fault_among(d.qualifiers.as_slice()))
}

/// The least number that is broken at the submodel itself.
#[tactic(auto, using(crate::proofs::Split::submodel_split))]
pub(crate) fn submodel_fault(alloc: Global, d: &Submodel) -> Result<Option<u16>, NoMemory>
    ensures { IfOk result (λ n. n ≡ least_broken submodel_rules (seen_of_submodel d.now).references d.now) }
{
    let own = own_submodel_fault(alloc, d)?;
    Ok(least(own, submodel_references_fault(d)))
}

// ---- shells

fn equals(global: &Option<Text>, value: &Text) -> bool
    ensures { result ≡ equals global.now value.now }
{
    match global {
        Some(global) => global.same(value),
        None => false,
    }
}

/// Whether the name is `globalAssetId` in any ASCII case.
fn is_global_name(name: &Text) -> bool
    ensures { result ≡ is_global_name name.now }
{
    name.as_str().eq_ignore_ascii_case(GLOBAL_ASSET_ID)
}

/// Whether each specificAssetId that is named as the globalAssetId has its value. AASd-116.
fn global_ids_agree(asset: &AssetInformation) -> bool
    ensures { result ≡ global_ids_agree asset.now }
{
    let ids = asset.specific_asset_ids.as_slice();
    ids.iter().all(|id| !is_global_name(&id.name) || equals(&asset.global_asset_id, &id.value))
}

/// Whether a globalAssetId or a specificAssetId is there. AASd-131.
fn asset_is_named(asset: &AssetInformation) -> bool
    ensures { result ≡ asset_is_named asset.now }
{
    asset.global_asset_id.is_some() || !asset.specific_asset_ids.is_empty()
}

fn shell_has_form(d: &Shell) -> bool
    ensures { result ≡ (seen_has_form (seen_of_shell d.now) && head_has_form d.now.head && asset_has_form d.now.asset) }
{
    id_short_is_short(&d.head.id_short)
        && extensions_have_form(d.head.extensions.as_slice())
        && specific_asset_ids_have_form(d.asset.specific_asset_ids.as_slice())
        && head_languages_have_form(&d.head)
        && head_has_form(&d.head)
        && asset_has_form(&d.asset)
}

#[tactic(auto, using(aas_constraint_parts::proofs::Lists::all_append))]
fn shell_texts_are_strings(d: &Shell) -> bool
    ensures { result ≡ texts_are_strings (seen_of_shell d.now) }
{
    d.head.is_of_strings()
        && d.asset.is_of_strings()
        && head_languages_are_strings(&d.head)
        && are_strings(d.asset.specific_asset_ids.as_slice())
}

fn shell_semantics_have_main(d: &Shell) -> bool
    ensures { result ≡ semantics_have_main (seen_of_shell d.now) }
{
    extensions_have_main(d.head.extensions.as_slice())
        && specific_asset_ids_have_main(d.asset.specific_asset_ids.as_slice())
}

fn own_shell_fault(alloc: Global, d: &Shell) -> Result<Option<u16>, NoMemory>
    ensures { IfOk result (λ n. n ≡ own_fault shell_rules d.now) }
{
    let head = &d.head;
    Ok(first_failed(&[
        (0, shell_has_form(d)),
        (2, id_short_is_name(&head.id_short)),
        (5, head_is_versioned(head)),
        (77, extensions_differ(alloc, head.extensions.as_slice())?),
        (116, global_ids_agree(&d.asset)),
        (118, shell_semantics_have_main(d)),
        (130, shell_texts_are_strings(d)),
        (131, asset_is_named(&d.asset)),
        (
            133,
            subjects_are_external(d.asset.specific_asset_ids.as_slice()),
        ),
    ]))
}

#[tactic(auto, using(aas_constraint_parts::proofs::Least::fault_append))]
fn shell_references_fault(d: &Shell) -> Option<u16>
    ensures { result ≡ references_fault (seen_of_shell d.now).references }
{
    let derived = least(d.head.references_fault(), fault_of_option(&d.derived_from));
    let ids = least(derived, fault_among(d.asset.specific_asset_ids.as_slice()));
    least(ids, fault_of_list(&d.submodels))
}

/// The least number that is broken at the shell.
#[tactic(auto, using(crate::proofs::Split::shell_split))]
pub(crate) fn shell_fault(alloc: Global, d: &Shell) -> Result<Option<u16>, NoMemory>
    ensures { IfOk result (λ n. n ≡ least_broken shell_rules (seen_of_shell d.now).references d.now) }
{
    let own = own_shell_fault(alloc, d)?;
    Ok(least(own, shell_references_fault(d)))
}

// ---- concept descriptions

fn concept_has_form(d: &Concept) -> bool
    ensures { result ≡ (seen_has_form (seen_of_concept d.now) && head_has_form d.now.head) }
{
    id_short_is_short(&d.head.id_short)
        && extensions_have_form(d.head.extensions.as_slice())
        && head_languages_have_form(&d.head)
        && head_has_form(&d.head)
}

#[tactic(auto, using(aas_constraint_parts::proofs::Lists::all_append))]
fn concept_texts_are_strings(d: &Concept) -> bool
    ensures { result ≡ texts_are_strings (seen_of_concept d.now) }
{
    d.head.is_of_strings() && head_languages_are_strings(&d.head)
}

fn concept_semantics_have_main(d: &Concept) -> bool
    ensures { result ≡ semantics_have_main (seen_of_concept d.now) }
{
    extensions_have_main(d.head.extensions.as_slice())
}

fn own_concept_fault(alloc: Global, d: &Concept) -> Result<Option<u16>, NoMemory>
    ensures { IfOk result (λ n. n ≡ own_fault concept_rules d.now) }
{
    let head = &d.head;
    Ok(first_failed(&[
        (0, concept_has_form(d)),
        (2, id_short_is_name(&head.id_short)),
        (5, head_is_versioned(head)),
        (77, extensions_differ(alloc, head.extensions.as_slice())?),
        (118, concept_semantics_have_main(d)),
        (130, concept_texts_are_strings(d)),
    ]))
}

#[tactic(auto, using(aas_constraint_parts::proofs::Least::fault_append))]
fn concept_references_fault(d: &Concept) -> Option<u16>
    ensures { result ≡ references_fault (seen_of_concept d.now).references }
{
    least(d.head.references_fault(), fault_of_list(&d.is_case_of))
}

/// The least number that is broken at the concept description.
#[tactic(auto, using(crate::proofs::Split::concept_split))]
pub(crate) fn concept_fault(alloc: Global, d: &Concept) -> Result<Option<u16>, NoMemory>
    ensures { IfOk result (λ n. n ≡ least_broken concept_rules (seen_of_concept d.now).references d.now) }
{
    let own = own_concept_fault(alloc, d)?;
    Ok(least(own, concept_references_fault(d)))
}
