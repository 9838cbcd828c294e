ghost use Rattle.std.specs.Prelude.{◌≡◌, List, flat_map};
ghost use Rattle.aas_model.specs.declared.reference.Reference.{Reference};
ghost use Rattle.std.specs.List.{list_all};
ghost use Rattle.aas_constraint_rules.specs.Decided.{is_identifier, is_string};
ghost use Rattle.aas_constraint_rules.specs.Lexical.{reference_has_form};
ghost use Rattle.aas_constraint_rules.specs.Rules.{reference_is_string};
ghost use Rattle.aas_constraint_rules.specs.Texts.{as_list};
ghost use Rattle.aas_constraint_parts.specs.References.{reference_fault, references_fault};

use crate::texts::{is_identifier, is_string};
use aas_model::{Key, Reference};
use aas_reference::{first_fault, least};

/// Whether the values of the keys are identifiers.
fn keys_have_form(keys: &[Key]) -> bool
    ensures { result ≡ list_all (λ k. is_identifier k.value) keys.now }
{
    keys.iter().all(|key| is_identifier(&key.value))
}

/// The same of a reference and those within it.
#[tactic(auto, using(crate::proofs::KeyTexts::form_outer, crate::proofs::KeyTexts::form_inner))]
fn has_form(reference: &Reference) -> bool
    ensures { result ≡ reference_has_form reference.now }
{
    let outer = keys_have_form(reference.keys.as_slice());
    match &reference.referred {
        Some(boxed) => outer && has_form(boxed.get()),
        None => outer,
    }
}

/// Whether the values of the keys have only the characters that XML allows.
fn keys_are_strings(keys: &[Key]) -> bool
    ensures { result ≡ list_all (λ k. is_string k.value) keys.now }
{
    keys.iter().all(|key| is_string(&key.value))
}

/// The same of a reference and those within it.
#[tactic(auto, using(crate::proofs::KeyTexts::string_outer, crate::proofs::KeyTexts::string_inner))]
fn is_of_strings(reference: &Reference) -> bool
    ensures { result ≡ reference_is_string reference.now }
{
    let outer = keys_are_strings(reference.keys.as_slice());
    match &reference.referred {
        Some(boxed) => outer && is_of_strings(boxed.get()),
        None => outer,
    }
}

/// The least number that a reference breaks, or one within it.
#[tactic(auto, using(crate::proofs::Tests::reference_fault_is))]
pub(crate) fn reference_fault(reference: &Reference) -> Option<u16>
    ensures { result ≡ reference_fault reference.now }
{
    if !has_form(reference) {
        return Some(0);
    }
    match first_fault(reference) {
        Some(number) => Some(number),
        None => {
            if is_of_strings(reference) {
                None
            } else {
                Some(130)
            }
        }
    }
}

/// Something that holds references.
pub trait HoldsReferences {
    ghost references: { Self → List Reference };

    /// The least number that its references break.
    fn references_fault(&self) -> Option<u16>
        ensures { result ≡ references_fault (references self.now) };
}

/// The least number that the references of several things break.
#[tactic(auto, using(aas_reference::proofs::Faults::least_none))]
pub fn fault_among<T: HoldsReferences>(items: &[T]) -> Option<u16>
    ensures { result ≡ references_fault (flat_map T.references items.now) }
{
    let mut fault = None;
    for item in items {
        fault = least(fault, item.references_fault());
    }
    fault
}

/// The least number that the references of what is there break.
pub(crate) fn fault_if_any<T: HoldsReferences>(item: &Option<T>) -> Option<u16>
    ensures { result ≡ references_fault (flat_map T.references (as_list item.now)) }
{
    match item {
        Some(item) => item.references_fault(),
        None => None,
    }
}
