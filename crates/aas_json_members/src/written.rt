ghost use Rattle.std.specs.Prelude.{◌≡◌, map, IfOk, option_map};
ghost use Rattle.serde_json.specs.Data.{Data};
ghost use Rattle.aas_json_table.specs.Spelled.{list_of};
ghost use Rattle.aas_json_members.specs.Array.{items_of};
ghost use Rattle.aas_json_members.specs.Exact.{data_of};

use crate::array::Array;
use crate::exact::Exact;
use aas_model::NoMemory;
use std::alloc::Global;

/// A sort of things that are each written as one JSON value.
pub trait Written {
    /// What is written.
    type Tree;

    ghost spell: { Self.Tree → Data };

    /// The value that spells `tree`.
    fn value(alloc: Global, tree: &Self::Tree) -> Result<Exact, NoMemory>
        ensures { IfOk result (λ exact. data_of exact ≡ spell tree.now) };
}

/// The value that spells what may be absent.
pub fn optional_value<P: Written>(
    alloc: Global,
    part: &Option<P::Tree>,
) -> Result<Option<Exact>, NoMemory>
    ensures { IfOk result (λ exact. option_map data_of exact ≡ option_map P.spell part.now) }
{
    match part {
        Some(part) => Ok(Some(P::value(alloc, part)?)),
        None => Ok(None),
    }
}

/// The array that spells a list, or `None` for the empty list.
pub fn list_value<P: Written>(alloc: Global, parts: &[P::Tree]) -> Result<Option<Exact>, NoMemory>
    ensures { IfOk result (λ exact. option_map data_of exact ≡ list_of P.spell parts.now) }
{
    let values = values_of::<P>(alloc, parts)?;
    Ok(values.close_listed())
}

fn values_of<P: Written>(alloc: Global, parts: &[P::Tree]) -> Result<Array, NoMemory>
    ensures { IfOk result (λ values. items_of values ≡ map P.spell parts.now) }
{
    let mut values = Array::new(alloc);
    for part in parts {
        values.push(P::value(alloc, part)?)?;
    }
    Ok(values)
}
