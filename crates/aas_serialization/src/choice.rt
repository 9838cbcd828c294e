// What is chosen.
ghost use Rattle.std.specs.Prelude.{◌≡◌, ◌⊎◌, Err, IfOk};
ghost use Rattle.std.specs.Option.{option_copied};
ghost use Rattle.aas_serialization.specs.Chosen.{chosen, fault_of, first_absent, set_of, concepts_along};
ghost use Rattle.aas_serialization.specs.declared.fault.GatherFault.TheVariants.{NoMemory as no_memory};

use crate::closing::concept_closure;
use crate::fault::GatherFault;
use aas_model::{Collection, Duplicate, Many, NoMemory, Text};
use aas_store::{Shelf, Store};
use std::alloc::Global;

/// The documents of an environment, by their identifiers.
#[derive(Drop)]
pub struct Chosen {
    /// Those of the shells that are asked for.
    pub shells: Shelf<()>,
    /// Those of the submodels.
    pub submodels: Shelf<()>,
    /// Those of the concept descriptions that these take along, where they are asked for.
    pub concepts: Shelf<()>,
}

/// The first of some identifiers that a collection hasn't.
fn first_absent<'a, S: Store>(
    store: &S,
    collection: Collection,
    ids: &'a Many<Text>,
) -> Option<&'a Text>
    ensures { option_copied result ≡ first_absent (S.documents store.now) collection ids.now }
{
    ids.as_slice()
        .iter()
        .find(|id| !store.has(collection, id.as_str()))
}

/// The identifiers as a set.
fn set_of(ids: &Many<Text>) -> Result<Shelf<()>, NoMemory>
    ensures { IfOk result (λ set. set ≡ set_of ids.now) }
{
    let mut set = Shelf::new(ids.alloc());
    for id in ids.as_slice() {
        set.put(id.copy()?, ())?;
    }
    Ok(set)
}

/// The concept descriptions that the shells and submodels of the identifiers take along, or none.
fn concepts_along<S: Store>(
    alloc: Global,
    store: &S,
    concepts: bool,
    shells: &Shelf<()>,
    submodels: &Shelf<()>,
) -> Result<Shelf<()>, NoMemory>
    ensures { IfOk result (λ ids. ids ≡ concepts_along (S.documents store.now) concepts shells.now submodels.now) }
{
    if concepts {
        concept_closure(alloc, store, shells, submodels)
    } else {
        Ok(Shelf::new(alloc))
    }
}

/// What of the documents that are asked for is missing first.
fn fault_of<S: Store>(
    store: &S,
    shells: &Many<Text>,
    submodels: &Many<Text>,
) -> Result<Option<GatherFault>, NoMemory>
    ensures { IfOk result (λ fault. fault ≡ fault_of (S.documents store.now) shells.now submodels.now) }
{
    if let Some(id) = first_absent(store, Collection::Shells, shells) {
        return Ok(Some(GatherFault::NoShell { id: id.copy()? }));
    }
    if let Some(id) = first_absent(store, Collection::Submodels, submodels) {
        return Ok(Some(GatherFault::NoSubmodel { id: id.copy()? }));
    }
    Ok(None)
}

/// The documents of the environment that is asked for, by their identifiers.
///
/// # Errors
///
/// The first shell that isn't there, and then the first submodel.
pub fn choose<S: Store>(
    store: &S,
    shells: &Many<Text>,
    submodels: &Many<Text>,
    concepts: bool,
) -> Result<Chosen, GatherFault>
    ensures { (result ≡ Err no_memory) ⊎ (result ≡ chosen (S.documents store.now) shells.now submodels.now concepts) }
{
    if let Some(fault) = fault_of(store, shells, submodels)? {
        return Err(fault);
    }
    let alloc = shells.alloc();
    let shells = set_of(shells)?;
    let submodels = set_of(submodels)?;
    let concepts = concepts_along(alloc, store, concepts, &shells, &submodels)?;
    Ok(Chosen {
        shells,
        submodels,
        concepts,
    })
}
