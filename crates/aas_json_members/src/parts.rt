ghost use Rattle.std.specs.Prelude.{◌≡◌, map, IfOk, OnOk, option_map};
ghost use Rattle.serde_json.specs.Data.{Data, Items, no_items};
ghost use Rattle.serde_json.specs.View.{view, items_view, members_view};
ghost use Rattle.aas_json_table.specs.Table.{Sort, one, many};
ghost use Rattle.aas_json_table.specs.Canonical.{canonical, canonical_items, canonical_member, add_item};
ghost use Rattle.aas_json_table.specs.Spelled.{onto, list_of};

use crate::members::member;
use aas_model::{Many, NoMemory};
use serde_json::{Map, Value};
use std::alloc::Global;

/// A sort of the attribute table, whose objects are read as trees.
pub trait Part {
    /// What an object of the sort is read as.
    type Tree: Drop;

    ghost sort: { Sort };

    ghost spell: { Self.Tree → Data };

    /// The tree that the value spells, or `None` where the value lacks what the sort demands.
    fn tree(alloc: Global, value: &Value) -> Result<Option<Self::Tree>, NoMemory>
        ensures { IfOk result (λ found. option_map spell found ≡ canonical (one sort) (view value.now)) };
}

/// The part under a name, or `None` where the object has none there.
pub fn one_member<P: Part>(
    alloc: Global,
    members: &Map<String, Value>,
    name: &str,
) -> Result<Option<P::Tree>, NoMemory>
    ensures { IfOk result (λ found. option_map P.spell found ≡ canonical_member (members_view members.now.entries) name.now (one P.sort)) }
{
    match member(members, name) {
        Some(value) => Ok(P::tree(alloc, value)?),
        None => Ok(None),
    }
}

/// The list under a name, in its order. No list at all reads as the empty one.
pub fn list_member<P: Part>(
    alloc: Global,
    members: &Map<String, Value>,
    name: &str,
) -> Result<Many<P::Tree>, NoMemory>
    ensures { IfOk result (λ found. list_of P.spell found ≡ canonical_member (members_view members.now.entries) name.now (many P.sort)) }
{
    match member(members, name) {
        Some(Value::Array(items)) => Ok(list_in::<P>(alloc, items)?),
        _ => Ok(Many::new(alloc)),
    }
}

fn list_in<P: Part>(alloc: Global, items: &Vec<Value>) -> Result<Many<P::Tree>, NoMemory>
    ensures { IfOk result (λ found. onto (map P.spell found) no_items ≡ canonical_items (items_view items.now.items) (one P.sort)) }
{
    let mut found = Many::new(alloc);
    found.reserve(items.len())?;
    for item in items {
        add_found::<P>(&mut found, P::tree(alloc, item)?)?;
    }
    Ok(found)
}

#[tactic(auto, using(crate::proofs::Lists::one_more))]
fn add_found<P: Part>(found: &mut Many<P::Tree>, more: Option<P::Tree>) -> Result<(), NoMemory>
    ensures { OnOk result ((rest : Items) → onto (map P.spell found.new) rest ≡ onto (map P.spell found.old) (add_item (option_map P.spell more) rest)) }
{
    if let Some(part) = more {
        found.push(part)?;
    }
    Ok(())
}
