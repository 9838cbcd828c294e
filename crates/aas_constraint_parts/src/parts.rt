ghost use Rattle.std.specs.Prelude.{◌≡◌, ◌||◌, not};
ghost use Rattle.std.specs.List.{list_all};
ghost use Rattle.aas_model.specs.declared.reference.Reference.{out-Reference};
ghost use Rattle.aas_reference.specs.Rules.{if_any, is_external};
ghost use Rattle.aas_constraint_rules.specs.Decided.{has_form};
ghost use Rattle.aas_constraint_rules.specs.Rules.{has_main_semantics, has_template_qualifier, is_template_qualifier};

use crate::lexical::value_has_form;
use aas_model::{
    Extension, Qualifier, QualifierKind, Reference, ReferenceType, Semantics, SpecificAssetId,
};

/// Whether each value of a qualifier is of its type. AASd-020.
pub fn qualifiers_have_form(qualifiers: &[Qualifier]) -> bool
    ensures { result ≡ list_all (λ q. if_any (has_form q.value_type) q.value) qualifiers.now }
{
    qualifiers.iter().all(|qualifier| value_has_form(qualifier.value_type, &qualifier.value))
}

/// Whether supplementalSemanticIds stand beside a semanticId alone. AASd-118.
pub fn has_main_semantics(semantics: &Semantics) -> bool
    ensures { result ≡ has_main_semantics semantics.now }
{
    semantics.semantic_id.is_some() || semantics.supplemental_semantic_ids.is_empty()
}

/// The same of each qualifier.
pub fn qualifiers_have_main(qualifiers: &[Qualifier]) -> bool
    ensures { result ≡ list_all (λ q. has_main_semantics q.semantics) qualifiers.now }
{
    qualifiers
        .iter()
        .all(|qualifier| has_main_semantics(&qualifier.semantics))
}

/// The same of each extension.
pub fn extensions_have_main(extensions: &[Extension]) -> bool
    ensures { result ≡ list_all (λ a. has_main_semantics a.semantics) extensions.now }
{
    extensions
        .iter()
        .all(|extension| has_main_semantics(&extension.semantics))
}

/// The same of each specific asset id.
pub fn specific_asset_ids_have_main(ids: &[SpecificAssetId]) -> bool
    ensures { result ≡ list_all (λ a. has_main_semantics a.semantics) ids.now }
{
    ids.iter().all(|id| has_main_semantics(&id.semantics))
}

fn is_template_qualifier(qualifier: &Qualifier) -> bool
    ensures { result ≡ is_template_qualifier qualifier.now }
{
    match qualifier.kind {
        Some(kind) => matches!(kind, QualifierKind::TemplateQualifier),
        None => false,
    }
}

/// Whether a qualifier has the kind TemplateQualifier.
fn has_template_qualifier(qualifiers: &[Qualifier]) -> bool
    ensures { result ≡ has_template_qualifier qualifiers.now }
{
    qualifiers
        .iter()
        .any(|qualifier| is_template_qualifier(qualifier))
}

/// Whether no qualifier has the kind TemplateQualifier where that isn't allowed. AASd-119 and AASd-129.
pub fn is_template_or_none(in_template: bool, qualifiers: &[Qualifier]) -> bool
    ensures { result ≡ (in_template || not (has_template_qualifier qualifiers.now)) }
{
    in_template || !has_template_qualifier(qualifiers)
}

fn is_external_if_any(reference: &Option<Reference>) -> bool
    ensures { result ≡ if_any (λ r. is_external (out-Reference r).ref_type) reference.now }
{
    match reference {
        Some(reference) => matches!(reference.ref_type, ReferenceType::ExternalReference),
        None => true,
    }
}

/// Whether each externalSubjectId is an ExternalReference. AASd-133.
pub fn subjects_are_external(ids: &[SpecificAssetId]) -> bool
    ensures { result ≡ list_all (λ a. if_any (λ r. is_external (out-Reference r).ref_type) a.external_subject_id) ids.now }
{
    ids.iter()
        .all(|id| is_external_if_any(&id.external_subject_id))
}
