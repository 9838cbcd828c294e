// Environments in memory.
ghost use Rattle.std.specs.Prelude.{◌≡◌, ◌⊎◌, ◌++◌, Err, IfOk, OnOk};
ghost use Rattle.std.specs.FinMap as map;
ghost use Rattle.std.specs.Option.{option_to_list};
ghost use Rattle.aas_store.specs.Documents.{Documents, Map};
ghost use Rattle.aas_serialization.specs.Chosen.{documents_of, chosen_environment, gathered};
ghost use Rattle.aas_serialization.specs.declared.fault.GatherFault.TheVariants.{NoMemory as no_memory};

use crate::choice::{Chosen, choose};
use crate::fault::GatherFault;
use aas_model::{Concept, Duplicate, Environment, Many, NoMemory, Shell, Submodel, Text};
use aas_store::{Shelf, Store};
use std::alloc::Global;

/// A document that a store keeps.
trait Stored: Drop + Sized {
    ghost kept_in: { Documents → Map Self };

    /// A copy of the document of the identifier.
    fn copy_at<S: Store>(store: &S, id: &str) -> Result<Option<Self>, NoMemory>
        ensures { IfOk result (λ document. document ≡ map.get (kept_in (S.documents store.now)) id.now) };
}

impl Stored for Shell {
    ghost kept_in = { λ m. m.shells };

    fn copy_at<S: Store>(store: &S, id: &str) -> Result<Option<Shell>, NoMemory> {
        match store.shell(id) {
            Some(shell) => Ok(Some(shell.copy()?)),
            None => Ok(None),
        }
    }
}

impl Stored for Submodel {
    ghost kept_in = { λ m. m.submodels };

    fn copy_at<S: Store>(store: &S, id: &str) -> Result<Option<Submodel>, NoMemory> {
        store.submodel(id)
    }
}

impl Stored for Concept {
    ghost kept_in = { λ m. m.concepts };

    fn copy_at<S: Store>(store: &S, id: &str) -> Result<Option<Concept>, NoMemory> {
        match store.concept(id) {
            Some(concept) => Ok(Some(concept.copy()?)),
            None => Ok(None),
        }
    }
}

/// Adds a copy of the document of the identifier, if there is one.
fn add_copy<D: Stored, S: Store>(
    documents: &mut Many<D>,
    store: &S,
    id: &str,
) -> Result<(), NoMemory>
    ensures { OnOk result (documents.new ≡ documents.old ++ option_to_list (map.get (D.kept_in (S.documents store.now)) id.now)) }
{
    match D::copy_at(store, id)? {
        Some(document) => documents.push(document),
        None => Ok(()),
    }
}

/// Copies of the documents of the identifiers, in their order.
fn copies<D: Stored, S: Store>(
    alloc: Global,
    store: &S,
    ids: &Shelf<()>,
) -> Result<Many<D>, NoMemory>
    ensures { IfOk result (λ documents. documents ≡ documents_of (D.kept_in (S.documents store.now)) ids.now) }
{
    let mut documents = Many::new(alloc);
    let mut after = None;
    while let Some(id) = ids.id_after(after) {
        add_copy(&mut documents, store, id)?;
        after = Some(id);
    }
    Ok(documents)
}

/// A copy of what is chosen.
fn environment<S: Store>(alloc: Global, store: &S, chosen: &Chosen) -> Result<Environment, NoMemory>
    ensures { IfOk result (λ environment. environment ≡ chosen_environment (S.documents store.now) chosen.now) }
{
    Ok(Environment {
        shells: copies(alloc, store, &chosen.shells)?,
        submodels: copies(alloc, store, &chosen.submodels)?,
        concepts: copies(alloc, store, &chosen.concepts)?,
    })
}

/// The environment of the shells and submodels of the identifiers, each once and in byte order, and where concept descriptions
/// are asked for of those that they take along (IDTA-01002-3-0, GenerateSerializationByIds).
///
/// # Errors
///
/// The first shell that isn't there, and then the first submodel.
pub fn gather<S: Store>(
    store: &S,
    shells: &Many<Text>,
    submodels: &Many<Text>,
    concepts: bool,
) -> Result<Environment, GatherFault>
    ensures { (result ≡ Err no_memory) ⊎ (result ≡ gathered (S.documents store.now) shells.now submodels.now concepts) }
{
    let chosen = choose(store, shells, submodels, concepts)?;
    Ok(environment(shells.alloc(), store, &chosen)?)
}
