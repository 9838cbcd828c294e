ghost use Rattle.std.specs.Prelude.{◌≡◌};
ghost use Rattle.aas_reference.specs.Faults.{level_of, first_broken, least};
ghost use Rattle.aas_reference.specs.Rules.{first_fault, is_external, begins_globally, external_begins, model_begins, external_ends, model_goes_on, fragment_is_last, fragment_of_file, list_by_place};

use crate::keys::{
    are_elements_after_first, are_fragments_of_files, are_lists_by_place, first_key, is_fragment,
    is_fragment_last, is_global, is_identifiable, last_key,
};
use aas_model::{Reference, ReferenceType};

/// The least number of the constraints AASd-121 to AASd-128 (IDTA-01001-3-0, class Reference) that the reference breaks, or
/// one within it: `referredSemanticId` is looked at too. `None` where all hold.
#[tactic(auto, using(crate::proofs::Faults::fault_outer, crate::proofs::Faults::fault_inner))]
pub fn first_fault(reference: &Reference) -> Option<u16>
    ensures { result ≡ first_fault reference.now }
{
    let outer = first_broken(reference);
    match &reference.referred {
        Some(boxed) => least(outer, first_fault(boxed.get())),
        None => outer,
    }
}

/// The lesser of two numbers, where they are there. So the least broken number of several references is told from that of
/// each.
pub fn least(a: Option<u16>, b: Option<u16>) -> Option<u16>
    ensures { result ≡ least a b }
{
    match (a, b) {
        (Some(x), Some(y)) => Some(x.min(y)),
        (Some(x), None) => Some(x),
        (None, y) => y,
    }
}

// The reference alone, without the one within it.
fn first_broken(reference: &Reference) -> Option<u16>
    ensures { result ≡ first_broken (level_of reference.now) }
{
    if !begins_globally(reference) {
        return Some(121);
    }
    if !external_begins(reference) {
        return Some(122);
    }
    if !model_begins(reference) {
        return Some(123);
    }
    if !external_ends(reference) {
        return Some(124);
    }
    if !model_goes_on(reference) {
        return Some(125);
    }
    if !fragment_is_last(reference) {
        return Some(126);
    }
    if !fragment_of_file(reference) {
        return Some(127);
    }
    if !list_by_place(reference) {
        return Some(128);
    }
    None
}

// AASd-121
fn begins_globally(reference: &Reference) -> bool
    ensures { result ≡ begins_globally (level_of reference.now) }
{
    match first_key(reference.keys.as_slice()) {
        Some(first) => is_identifiable(first) || is_global(first),
        None => true,
    }
}

// AASd-122
fn external_begins(reference: &Reference) -> bool
    ensures { result ≡ external_begins (level_of reference.now) }
{
    match first_key(reference.keys.as_slice()) {
        Some(first) => !is_external(reference) || is_global(first),
        None => true,
    }
}

// AASd-123
fn model_begins(reference: &Reference) -> bool
    ensures { result ≡ model_begins (level_of reference.now) }
{
    match first_key(reference.keys.as_slice()) {
        Some(first) => is_external(reference) || is_identifiable(first),
        None => true,
    }
}

// AASd-124
fn external_ends(reference: &Reference) -> bool
    ensures { result ≡ external_ends (level_of reference.now) }
{
    match last_key(reference.keys.as_slice()) {
        Some(last) => !is_external(reference) || is_global(last) || is_fragment(last),
        None => true,
    }
}

// AASd-125
#[tactic(auto, using(crate::proofs::KeyLists::later_drop))]
fn model_goes_on(reference: &Reference) -> bool
    ensures { result ≡ model_goes_on (level_of reference.now) }
{
    is_external(reference) || are_elements_after_first(reference.keys.as_slice())
}

// AASd-126
#[tactic(auto, using(crate::proofs::KeyLists::each_pair_zip))]
fn fragment_is_last(reference: &Reference) -> bool
    ensures { result ≡ fragment_is_last (level_of reference.now) }
{
    is_external(reference) || is_fragment_last(reference.keys.as_slice())
}

// AASd-127
#[tactic(auto, using(crate::proofs::KeyLists::each_pair_zip))]
fn fragment_of_file(reference: &Reference) -> bool
    ensures { result ≡ fragment_of_file (level_of reference.now) }
{
    is_external(reference) || are_fragments_of_files(reference.keys.as_slice())
}

// AASd-128
#[tactic(auto, using(crate::proofs::KeyLists::each_pair_zip))]
fn list_by_place(reference: &Reference) -> bool
    ensures { result ≡ list_by_place (level_of reference.now) }
{
    is_external(reference) || are_lists_by_place(reference.keys.as_slice())
}

fn is_external(reference: &Reference) -> bool
    ensures { result ≡ is_external (level_of reference.now).ref_type }
{
    matches!(reference.ref_type, ReferenceType::ExternalReference)
}
