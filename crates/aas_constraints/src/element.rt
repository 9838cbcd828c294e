ghost use Rattle.std.specs.Prelude.{◌≡◌, ◌||◌, not, is_some, is_none, IfOk, List};
ghost use Rattle.std.specs.Option.{option_copied};
ghost use Rattle.aas_constraint_rules.specs.Attributes.{payload_lang_texts, payload_specific_asset_ids, seen_of};
ghost use Rattle.aas_constraint_rules.specs.Rules.{agree, element_has_form, is_managed, semantics_have_main, stands_in_operation, texts_are_strings};
ghost use Rattle.aas_constraint_rules.specs.Sites.{Own, stands_in_list};
ghost use Rattle.aas_constraints.specs.Own.{common_fault, local_fault, payload_fault, place_fault};
ghost use Rattle.aas_constraint_rules.specs.Sites.{of_common, of_payload, own_of};
ghost use Rattle.aas_constraints.specs.Walk.{Knows, above_of, place};

use crate::demands::{
    agree, has_list_kind, has_list_value_type, list_semantics, stands_in_list, stands_in_operation,
};
use aas_constraint_parts::{
    HoldsReferences, HoldsTexts, are_strings, extensions_differ, extensions_have_form,
    extensions_have_main, first_failed, has_main_semantics, id_short_is_name, id_short_is_short,
    is_template_or_none, languages_have_form, payload_has_form, qualifiers_differ,
    qualifiers_have_form, qualifiers_have_main, qualifiers_have_types,
    specific_asset_ids_have_form, specific_asset_ids_have_main, subjects_are_external,
};
use aas_model::{
    Common, Element, EntityType, LangText, NoMemory, Payload, Reference, SpecificAssetId, Text,
};
use aas_reference::least;
use std::alloc::Global;

/// Whether the element, if an entity, has a globalAssetId or a specificAssetId exactly where it manages itself. AASd-014.
fn is_managed(payload: &Payload) -> bool
    ensures { result ≡ is_managed payload.now }
{
    match payload {
        Payload::Entity {
            entity_type: Some(entity_type),
            global_asset_id,
            specific_asset_ids,
        } => {
            let is_named = global_asset_id.is_some() || !specific_asset_ids.is_empty();
            match entity_type {
                EntityType::SelfManagedEntity => is_named,
                EntityType::CoManagedEntity => !is_named,
            }
        }
        _ => true,
    }
}

fn specific_asset_ids(payload: &Payload) -> &[SpecificAssetId]
    ensures { result.now ≡ payload_specific_asset_ids payload.now }
{
    match payload {
        Payload::Entity {
            specific_asset_ids,
            ..
        } => specific_asset_ids.as_slice(),
        _ => &[],
    }
}

fn lang_texts(payload: &Payload) -> &[LangText]
    ensures { result.now ≡ payload_lang_texts payload.now }
{
    match payload {
        Payload::MultiLanguageProperty { value, .. } => value.as_slice(),
        _ => &[],
    }
}

#[tactic(auto, using(aas_constraint_parts::proofs::Lists::all_append))]
fn common_has_form(common: &Common) -> bool
    ensures { result ≡ element_has_form (of_common common.now) }
{
    id_short_is_short(&common.id_short)
        && extensions_have_form(common.extensions.as_slice())
        && qualifiers_have_types(common.qualifiers.as_slice())
        && languages_have_form(common.description.as_slice())
        && languages_have_form(common.display_name.as_slice())
}

#[tactic(auto, using(aas_constraint_parts::proofs::Lists::all_append))]
fn payload_is_formed(payload: &Payload) -> bool
    ensures { result ≡ element_has_form (of_payload payload.now) }
{
    specific_asset_ids_have_form(specific_asset_ids(payload))
        && languages_have_form(lang_texts(payload))
        && payload_has_form(payload)
}

#[tactic(auto, using(aas_constraint_parts::proofs::Lists::all_append, aas_constraint_parts::proofs::Lists::all_flat_append))]
fn common_is_of_strings(common: &Common) -> bool
    ensures { result ≡ texts_are_strings (seen_of (of_common common.now)) }
{
    common.is_of_strings()
        && are_strings(common.description.as_slice())
        && are_strings(common.display_name.as_slice())
}

#[tactic(auto, using(aas_constraint_parts::proofs::Lists::all_append))]
fn payload_is_of_strings(payload: &Payload) -> bool
    ensures { result ≡ texts_are_strings (seen_of (of_payload payload.now)) }
{
    payload.is_of_strings()
        && are_strings(lang_texts(payload))
        && are_strings(specific_asset_ids(payload))
}

fn common_has_main(common: &Common) -> bool
    ensures { result ≡ semantics_have_main (seen_of (of_common common.now)) }
{
    has_main_semantics(&common.semantics)
        && qualifiers_have_main(common.qualifiers.as_slice())
        && extensions_have_main(common.extensions.as_slice())
}

/// Whether no earlier sibling has its idShort, or the element is a variable. AASd-022.
fn name_is_new(above: Option<&Element>, is_repeat: bool) -> bool
    ensures { result ≡ (stands_in_operation (above_of above.entry) || not is_repeat) }
{
    stands_in_operation(above) || !is_repeat
}

/// Whether the element, if in a list, has the semantics of its first sibling that has one, or none. AASd-114.
fn has_first_semantics(
    above: Option<&Element>,
    lead: Option<&Reference>,
    semantics: Option<&Reference>,
) -> bool
    ensures { result ≡ (not (stands_in_list (above_of above.entry)) || agree (option_copied lead.entry) (option_copied semantics.entry)) }
{
    !stands_in_list(above) || agree(lead, semantics)
}

/// Whether the element has an idShort, or is in a list. AASd-117.
fn is_named(above: Option<&Element>, id_short: &Option<Text>) -> bool
    ensures { result ≡ (is_some id_short.now || stands_in_list (above_of above.entry)) }
{
    id_short.is_some() || stands_in_list(above)
}

/// Whether the element, if in a list, has no idShort. AASd-120.
fn is_unnamed_in_list(above: Option<&Element>, id_short: &Option<Text>) -> bool
    ensures { result ≡ (not (stands_in_list (above_of above.entry)) || is_none id_short.now) }
{
    !stands_in_list(above) || id_short.is_none()
}

/// Whether no earlier variable has its idShort, if the element is a variable. AASd-134.
fn variable_is_new(above: Option<&Element>, is_repeat: bool) -> bool
    ensures { result ≡ (not (stands_in_operation (above_of above.entry)) || not is_repeat) }
{
    !stands_in_operation(above) || !is_repeat
}

/// The least number that the attributes break that every element has.
fn common_fault(alloc: Global, common: &Common) -> Result<Option<u16>, NoMemory>
    ensures { IfOk result (λ n. n ≡ common_fault common.now) }
{
    let qualifiers = common.qualifiers.as_slice();
    let itself = first_failed(&[
        (0, common_has_form(common)),
        (2, id_short_is_name(&common.id_short)),
        (20, qualifiers_have_form(qualifiers)),
        (21, qualifiers_differ(alloc, qualifiers)?),
        (77, extensions_differ(alloc, common.extensions.as_slice())?),
        (118, common_has_main(common)),
        (130, common_is_of_strings(common)),
    ]);
    Ok(least(itself, common.references_fault()))
}

/// The least number that the attributes of a kind break, whatever else the element has.
pub fn payload_fault(payload: &Payload) -> Option<u16>
    ensures { result ≡ payload_fault payload.now }
{
    let ids = specific_asset_ids(payload);
    let itself = first_failed(&[
        (0, payload_is_formed(payload)),
        (14, is_managed(payload)),
        (118, specific_asset_ids_have_main(ids)),
        (130, payload_is_of_strings(payload)),
        (133, subjects_are_external(ids)),
    ]);
    least(itself, payload.references_fault())
}

/// The least number that the element breaks by itself.
pub(crate) fn own_fault(alloc: Global, e: &Element) -> Result<Option<u16>, NoMemory>
    ensures { IfOk result (λ n. n ≡ local_fault (own_of e.now)) }
{
    Ok(least(common_fault(alloc, &e.common)?, payload_fault(&e.payload)))
}

/// The least number that the element breaks at its place, of whose earlier siblings is known what `Knows` says.
pub(crate) fn place_fault(
    e: &Element,
    in_template: bool,
    above: Option<&Element>,
    is_repeat: bool,
    lead: Option<&Reference>,
) -> Option<u16>
    ensures { (b : List Own) → Knows b (own_of e.now).common.id_short is_repeat (option_copied lead.entry) → result ≡ place_fault (place in_template (above_of above.entry) b (own_of e.now)) }
{
    let common = &e.common;
    let semantics = common.semantics.semantic_id.as_ref();
    first_failed(&[
        (22, name_is_new(above, is_repeat)),
        (107, agree(list_semantics(above), semantics)),
        (108, has_list_kind(above, e.payload.kind())),
        (109, has_list_value_type(above, &e.payload)),
        (114, has_first_semantics(above, lead, semantics)),
        (117, is_named(above, &common.id_short)),
        (120, is_unnamed_in_list(above, &common.id_short)),
        (
            129,
            is_template_or_none(in_template, common.qualifiers.as_slice()),
        ),
        (134, variable_is_new(above, is_repeat)),
    ])
}
