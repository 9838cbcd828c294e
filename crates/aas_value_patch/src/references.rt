ghost use Rattle.std.specs.Prelude.{◌≡◌, map, IfOk, unwrap_or};
ghost use Rattle.serde_json.specs.Data.{no_items};
ghost use Rattle.serde_json.specs.Find.{get_member};
ghost use Rattle.serde_json.specs.View.{view, items_view, members_view};
ghost use Rattle.aas_json_mapping.specs.Parts.{spell_specific_asset_id};
ghost use Rattle.aas_json_spelling.specs.Values.{IsOrdered, AreOrdered, HasOrder};
ghost use Rattle.aas_json_table.specs.Spelled.{onto};
ghost use Rattle.aas_reference.specs.Spelling.{spell_reference};
ghost use Rattle.aas_value.specs.Attributes.{reference_or_null, array_of};
ghost use Rattle.aas_value.specs.Json.{is_reference, is_reference_or_null, is_specific_asset_id, is_array_of};
ghost use Rattle.aas_value.specs.Json.{all_items};
ghost use Rattle.aas_value.specs.Parts.{fits_if};
ghost use Rattle.aas_value_patch.specs.Faults.{Judges, misfit_of};

use crate::canonical::has_empty_list;
use crate::fault::Misfit;
use aas_json_parts::read_specific;
use aas_json_table::table::member;
use aas_model::{Duplicate, Many, ReadFault, Reference, SpecificAssetId, copy_option};
use aas_reference::read_reference;
use serde_json::{Map, Value};
use std::alloc::Global;

fn misfit_of(fault: ReadFault) -> Misfit
    ensures { result ≡ misfit_of fault }
{
    match fault {
        ReadFault::NoMemory => Misfit::NoMemory,
        _ => Misfit::Shape,
    }
}

/// The reference that a value spells, where it is canonical JSON.
#[tactic(auto, using(crate::proofs::Parts::part_fits, crate::proofs::Parts::part_misfits, crate::proofs::Parts::part_emptied, crate::proofs::Parts::part_taken))]
fn reference_from(alloc: Global, value: &Value) -> Result<Reference, Misfit>
    ensures fit { Judges result (is_reference (view value.now)) }
    ensures taken { IfOk result (λ new. IsOrdered (view value.now) → spell_reference new ≡ view value.now) }
{
    if has_empty_list(value) {
        return Err(Misfit::Shape);
    }
    match read_reference(alloc, value) {
        Ok(reference) => Ok(reference),
        Err(fault) => Err(misfit_of(fault)),
    }
}

/// The specific asset identifier that a value spells, where it is canonical JSON.
#[tactic(auto, using(crate::proofs::Parts::part_fits, crate::proofs::Parts::part_misfits, crate::proofs::Parts::part_emptied, crate::proofs::Parts::part_taken))]
pub(crate) fn specific_from(alloc: Global, value: &Value) -> Result<SpecificAssetId, Misfit>
    ensures fit { Judges result (is_specific_asset_id (view value.now)) }
    ensures taken { IfOk result (λ new. IsOrdered (view value.now) → spell_specific_asset_id new ≡ view value.now) }
{
    if has_empty_list(value) {
        return Err(Misfit::Shape);
    }
    match read_specific(alloc, value) {
        Ok(specific) => Ok(specific),
        Err(fault) => Err(misfit_of(fault)),
    }
}

/// The reference that a value spells, where null stands for none.
pub(crate) fn reference_or_null_from(
    alloc: Global,
    value: &Value,
) -> Result<Option<Reference>, Misfit>
    ensures fit { Judges result (is_reference_or_null (view value.now)) }
    ensures taken { IfOk result (λ new. IsOrdered (view value.now) → reference_or_null new ≡ view value.now) }
{
    match value {
        Value::Null => Ok(None),
        _ => Ok(Some(reference_from(alloc, value)?)),
    }
}

/// A reference that takes the member of a name, or stays as it is where there is no such member. Null doesn't fit.
pub(crate) fn reference_under(
    alloc: Global,
    old: &Option<Reference>,
    members: &Map<String, Value>,
    name: &str,
) -> Result<Option<Reference>, Misfit>
    ensures fit { Judges result (fits_if is_reference (get_member name.now (members_view members.now.entries))) }
    ensures taken { IfOk result (λ new. HasOrder (members_view members.now.entries) → reference_or_null new
        ≡ unwrap_or (get_member name.now (members_view members.now.entries)) (reference_or_null old.now)) }
{
    match member(members, name) {
        Some(value) => Ok(Some(reference_from(alloc, value)?)),
        None => Ok(copy_option(old)?),
    }
}

fn specific_items(alloc: Global, items: &[Value]) -> Result<Many<SpecificAssetId>, Misfit>
    ensures fit { Judges result (all_items is_specific_asset_id (items_view items.now)) }
    ensures taken { IfOk result (λ new.
        AreOrdered (items_view items.now) → onto (map spell_specific_asset_id new) no_items
        ≡ items_view items.now) }
{
    let mut ids = Many::new(alloc);
    for item in items {
        ids.push(specific_from(alloc, item)?)?;
    }
    Ok(ids)
}

/// The specific asset identifiers that an array spells, where each is canonical JSON.
fn specifics_from(alloc: Global, value: &Value) -> Result<Many<SpecificAssetId>, Misfit>
    ensures fit { Judges result (is_array_of is_specific_asset_id (view value.now)) }
    ensures taken { IfOk result (λ new.
        IsOrdered (view value.now) → array_of spell_specific_asset_id new ≡ view value.now) }
{
    match value {
        Value::Array(items) => specific_items(alloc, items.as_slice()),
        _ => Err(Misfit::Shape),
    }
}

/// Specific asset identifiers that take the member of a name, or stay as they are where there is no such member.
pub(crate) fn specifics_under(
    alloc: Global,
    old: &Many<SpecificAssetId>,
    members: &Map<String, Value>,
    name: &str,
) -> Result<Many<SpecificAssetId>, Misfit>
    ensures fit { Judges result
        (fits_if (is_array_of is_specific_asset_id) (get_member name.now (members_view members.now.entries))) }
    ensures taken { IfOk result (λ new.
        HasOrder (members_view members.now.entries) → array_of spell_specific_asset_id new
        ≡ unwrap_or (get_member name.now (members_view members.now.entries))
        (array_of spell_specific_asset_id old.now)) }
{
    match member(members, name) {
        Some(value) => specifics_from(alloc, value),
        None => Ok(old.copy()?),
    }
}
