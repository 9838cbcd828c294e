ghost use Rattle.std.specs.Prelude.{◌≡◌, map, IfOk, OnOk, option_map};
ghost use Rattle.serde_json.specs.Data.{Items, no_items, Members, no_members};
ghost use Rattle.serde_json.specs.View.{view, items_view, members_view};
ghost use Rattle.aas_json_table.specs.Table.{kept, plain};
ghost use Rattle.aas_json_table.specs.Canonical.{canonical, canonical_items, canonical_all, canonical_member, add, add_item};
ghost use Rattle.aas_json_table.specs.Spelled.{onto};
ghost use Rattle.aas_json_spelling.specs.Kept.{spell_plain, spell_kept};
ghost use Rattle.aas_json_members.specs.Kept.{pairs_onto};

use crate::members::member;
use aas_model::{Many, NoMemory, Plain, PlainPair, Text};
use serde_json::{Map, Value};
use std::alloc::Global;

/// The kept data under a name, in its order. No list at all reads as the empty one.
pub fn kept_member(
    alloc: Global,
    members: &Map<String, Value>,
    name: &str,
) -> Result<Many<Plain>, NoMemory>
    ensures { IfOk result (λ found. spell_kept found ≡ canonical_member (members_view members.now.entries) name.now kept) }
{
    match member(members, name) {
        Some(Value::Array(items)) => Ok(plains_in(alloc, items)?),
        _ => Ok(Many::new(alloc)),
    }
}

#[cycle(plain)]
fn plain_of(alloc: Global, value: &Value) -> Result<Option<Plain>, NoMemory>
    ensures { IfOk result (λ found. option_map spell_plain found ≡ canonical plain (view value.now)) }
{
    match value {
        Value::Null => Ok(Some(Plain::Null)),
        Value::Bool(flag) => Ok(Some(Plain::Bool(*flag))),
        Value::Number(_) => Ok(None),
        Value::String(text) => Ok(Some(Plain::Str(Text::from_str(alloc, text.as_str())?))),
        Value::Array(items) => Ok(Some(Plain::List(plains_in(alloc, items)?))),
        Value::Object(members) => Ok(Some(Plain::Map(pairs_in(alloc, members)?))),
    }
}

#[cycle(plain)]
fn plains_in(alloc: Global, items: &Vec<Value>) -> Result<Many<Plain>, NoMemory>
    ensures { IfOk result (λ found. onto (map spell_plain found) no_items ≡ canonical_items (items_view items.now.items) plain) }
{
    let mut found = Many::new(alloc);
    found.reserve(items.len())?;
    for item in items {
        add_plain(&mut found, plain_of(alloc, item)?)?;
    }
    Ok(found)
}

#[cycle(plain)]
fn pairs_in(alloc: Global, members: &Map<String, Value>) -> Result<Many<PlainPair>, NoMemory>
    ensures { IfOk result (λ found. pairs_onto found no_members ≡ canonical_all (members_view members.now.entries)) }
{
    let mut found = Many::new(alloc);
    for (name, value) in members.iter() {
        add_pair(alloc, &mut found, name.as_str(), plain_of(alloc, value)?)?;
    }
    Ok(found)
}

#[tactic(auto, using(crate::proofs::Lists::one_more))]
fn add_plain(found: &mut Many<Plain>, more: Option<Plain>) -> Result<(), NoMemory>
    ensures { OnOk result ((rest : Items) → onto (map spell_plain found.new) rest ≡ onto (map spell_plain found.old) (add_item (option_map spell_plain more) rest)) }
{
    if let Some(plain) = more {
        found.push(plain)?;
    }
    Ok(())
}

#[tactic(auto, using(crate::proofs::Pairs::one_pair_more))]
fn add_pair(
    alloc: Global,
    found: &mut Many<PlainPair>,
    name: &str,
    more: Option<Plain>,
) -> Result<(), NoMemory>
    ensures { OnOk result ((rest : Members) → pairs_onto found.new rest ≡ pairs_onto found.old (add name.now (option_map spell_plain more) rest)) }
{
    if let Some(value) = more {
        let name = Text::from_str(alloc, name)?;
        found.push(PlainPair { name, value })?;
    }
    Ok(())
}
