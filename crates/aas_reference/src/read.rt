ghost use Rattle.std.specs.Prelude.{◌≡◌, IfOk, Some, codes, is_some, option_map};
ghost use Rattle.serde_json.specs.View.{view, members_view};
ghost use Rattle.aas_json_table.specs.Canonical.{canonical, canonical_member, canonical_object};
ghost use Rattle.aas_json_table.specs.Rows.{sorted};
ghost use Rattle.aas_json_table.specs.Spelled.{list_of};
ghost use Rattle.aas_json_table.specs.Table.{one, parts, key, reference};
ghost use Rattle.aas_json_table.specs.TooDeep.{limits};
ghost use Rattle.aas_json_spelling.specs.Reads.{Reads, ReadsEach};
ghost use Rattle.aas_reference.specs.Spelling.{spell_key, spell_reference};
ghost use Rattle.aas_reference.specs.Trees.{references};

use crate::sorts::{Keys, References};
use aas_json_input::read_part;
use aas_json_members::{Part, list_member, member, string_member, word_member};
use aas_json_table::name;
use aas_json_table::table::Sort;
use aas_json_table::too_deep::Levels;
use aas_model::{Boxed, Key, Many, NoMemory, ReadFault, Reference};
use serde_json::{Map, Value};
use std::alloc::Global;

/// The reference that the value spells, or the first fault of the value (IDTA-01001-3-0, JSON mapping). At most 4
/// references may stand in one another. Never `NotJson`.
#[tactic(auto, using(crate::proofs::Reading::reads_whole, crate::proofs::Reading::reads_each_reference))]
pub fn read_reference(alloc: Global, value: &Value) -> Result<Reference, ReadFault>
    ensures reads { Reads references limits result (view value.now) }
    ensures each { ReadsEach references limits result (view value.now) }
{
    read_part::<References>(alloc, Sort::Reference, value, Levels::LIMITS)
}

impl Part for Keys {
    type Tree = Key;

    ghost sort = { key };

    ghost spell = { spell_key };

    #[tactic(auto, unfolding(aas_json_table::specs::Rows::rows_of))]
    fn tree(alloc: Global, value: &Value) -> Result<Option<Key>, NoMemory> {
        match value {
            Value::Object(members) => Ok(key_in(alloc, members)?),
            _ => Ok(None),
        }
    }
}

impl Part for References {
    type Tree = Reference;

    ghost sort = { reference };

    ghost spell = { spell_reference };

    fn tree(alloc: Global, value: &Value) -> Result<Option<Reference>, NoMemory> {
        reference_of(alloc, value)
    }
}

fn key_in(alloc: Global, members: &Map<String, Value>) -> Result<Option<Key>, NoMemory>
    ensures { IfOk result (λ found. option_map spell_key found ≡ canonical_object (Some (sorted (parts key))) (canonical_member (members_view members.now.entries))) }
{
    let Some(key_type) = word_member(members, name::TYPE) else {
        return Ok(None);
    };
    let Some(value) = string_member(alloc, members, name::VALUE)? else {
        return Ok(None);
    };
    Ok(Some(Key { key_type, value }))
}

#[cycle(reference)]
#[tactic(auto, unfolding(aas_json_table::specs::Rows::rows_of))]
fn reference_of(alloc: Global, value: &Value) -> Result<Option<Reference>, NoMemory>
    ensures { IfOk result (λ found. option_map spell_reference found ≡ canonical (one reference) (view value.now)) }
{
    match value {
        Value::Object(members) => Ok(reference_in(alloc, members)?),
        _ => Ok(None),
    }
}

#[cycle(reference)]
fn reference_in(alloc: Global, members: &Map<String, Value>) -> Result<Option<Reference>, NoMemory>
    ensures { IfOk result (λ found. option_map spell_reference found ≡ canonical_object (Some (sorted (parts reference))) (canonical_member (members_view members.now.entries))) }
{
    let keys = list_member::<Keys>(alloc, members, name::KEYS)?;
    if !has_any(&keys) {
        return Ok(None);
    }
    let referred = referred_member(alloc, members)?;
    let Some(ref_type) = word_member(members, name::TYPE) else {
        return Ok(None);
    };
    Ok(Some(Reference {
        ref_type,
        keys,
        referred,
    }))
}

#[cycle(reference)]
fn referred_member(
    alloc: Global,
    members: &Map<String, Value>,
) -> Result<Option<Boxed<Reference>>, NoMemory>
    ensures { IfOk result (λ found. option_map spell_reference found ≡ canonical_member (members_view members.now.entries) (codes "referredSemanticId") (one reference)) }
{
    let Some(inner) = member(members, name::REFERRED_SEMANTIC_ID) else {
        return Ok(None);
    };
    match reference_of(alloc, inner)? {
        Some(found) => Ok(Some(Boxed::new(alloc, found)?)),
        None => Ok(None),
    }
}

#[tactic(auto, using(aas_json_members::proofs::Lists::is_some_list))]
fn has_any(keys: &Many<Key>) -> bool
    ensures { result ≡ is_some (list_of spell_key keys.now) }
{
    keys.len() != 0
}
