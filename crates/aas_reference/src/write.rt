ghost use Rattle.std.specs.Prelude.{◌≡◌, IfOk, option_map};
ghost use Rattle.serde_json.specs.Written.{compact_text};
ghost use Rattle.aas_json_members.specs.Exact.{data_of};
ghost use Rattle.aas_json_members.specs.Writes.{Writes};
ghost use Rattle.aas_reference.specs.Spelling.{spell_key, spell_reference};

use crate::sorts::{Keys, References};
use aas_json_members::{Exact, Object, Written, list_value, text_value, word_value};
use aas_json_table::name;
use aas_model::{Boxed, Key, NoMemory, Reference};
use std::alloc::Global;

/// Appends the canonical text of a reference to `out`: the compact JSON text (RFC 8259) of its spelling, with the members
/// in byte order of their names and without empty lists. Where memory is refused, `out` is as it was.
pub fn write_reference(
    alloc: Global,
    reference: &Reference,
    out: &mut Vec<u8>,
) -> Result<(), NoMemory>
    ensures { Writes (compact_text (spell_reference reference.now)) result out.old.items out.new.items }
{
    reference_value(alloc, reference)?.append_to(alloc, out)
}

impl Written for Keys {
    type Tree = Key;

    ghost spell = { spell_key };

    fn value(alloc: Global, key: &Key) -> Result<Exact, NoMemory> {
        let mut object = Object::new(alloc);
        object.put(alloc, name::TYPE, Some(word_value(alloc, key.key_type)?))?;
        object.put(alloc, name::VALUE, Some(text_value(alloc, &key.value)?))?;
        Ok(object.close())
    }
}

impl Written for References {
    type Tree = Reference;

    ghost spell = { spell_reference };

    fn value(alloc: Global, reference: &Reference) -> Result<Exact, NoMemory> {
        reference_value(alloc, reference)
    }
}

#[cycle(reference)]
fn reference_value(alloc: Global, reference: &Reference) -> Result<Exact, NoMemory>
    ensures { IfOk result (λ exact. data_of exact ≡ spell_reference reference.now) }
{
    let mut object = Object::new(alloc);
    object.put(
        alloc,
        name::KEYS,
        list_value::<Keys>(alloc, reference.keys.as_slice())?,
    )?;
    object.put(
        alloc,
        name::REFERRED_SEMANTIC_ID,
        referred_value(alloc, &reference.referred)?,
    )?;
    object.put(
        alloc,
        name::TYPE,
        Some(word_value(alloc, reference.ref_type)?),
    )?;
    Ok(object.close())
}

#[cycle(reference)]
fn referred_value(
    alloc: Global,
    referred: &Option<Boxed<Reference>>,
) -> Result<Option<Exact>, NoMemory>
    ensures { IfOk result (λ exact. option_map data_of exact ≡ option_map spell_reference referred.now) }
{
    match referred {
        Some(boxed) => Ok(Some(reference_value(alloc, boxed.get())?)),
        None => Ok(None),
    }
}
