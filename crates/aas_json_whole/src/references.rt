// References, and what something means.
ghost use Rattle.std.specs.Prelude.{◌≡◌, ◌&&◌, nat_le, option_map, true, unwrap_or};
ghost use Rattle.aas_json_mapping.specs.Whole.{whole_semantics};
ghost use Rattle.aas_json_table.specs.TooDeep.{limits};
ghost use Rattle.aas_reference.specs.Whole.{has_keys, is_whole, reference_levels, whole_and_there, whole_if_there};

use crate::whole::{Whole, are_whole};
use aas_json_table::too_deep::Levels;
use aas_model::{Boxed, Reference, Semantics};

impl Whole for Reference {
    ghost whole = { is_whole limits };

    fn is_whole(&self) -> bool {
        is_whole_within(self, Levels::LIMITS.references)
    }
}

/// Whether a reference and those within it have keys, and there are so many levels for them.
#[cycle(reference)]
fn is_whole_within(reference: &Reference, left: u32) -> bool
    ensures { result ≡ (has_keys reference.now && nat_le (reference_levels reference.now) left) }
{
    if left == 0 {
        return false;
    }
    if reference.keys.is_empty() {
        return false;
    }
    is_referred_whole(&reference.referred, left - 1)
}

/// The same of the reference within, where there is one.
#[cycle(reference)]
fn is_referred_whole(referred: &Option<Boxed<Reference>>, left: u32) -> bool
    ensures { result ≡ (unwrap_or (option_map has_keys referred.now) true
        && nat_le (unwrap_or (option_map reference_levels referred.now) 0) left) }
{
    match referred {
        Some(boxed) => is_whole_within(boxed.get(), left),
        None => true,
    }
}

/// Whether a reference is whole, if there is one.
pub(crate) fn is_whole_if_there(reference: &Option<Reference>) -> bool
    ensures { result ≡ whole_if_there limits reference.now }
{
    match reference {
        Some(reference) => reference.is_whole(),
        None => true,
    }
}

/// Whether there is a reference, and it is whole.
pub(crate) fn is_whole_and_there(reference: &Option<Reference>) -> bool
    ensures { result ≡ whole_and_there limits reference.now }
{
    match reference {
        Some(reference) => reference.is_whole(),
        None => false,
    }
}

impl Whole for Semantics {
    ghost whole = { whole_semantics limits };

    fn is_whole(&self) -> bool {
        is_whole_if_there(&self.semantic_id) && are_whole(&self.supplemental_semantic_ids)
    }
}
