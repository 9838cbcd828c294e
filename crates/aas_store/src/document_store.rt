ghost use Rattle.std.specs.Prelude.{◌≡◌, IfOk};
ghost use Rattle.std.specs.Borrow.{LendsIf, sem};
ghost use Rattle.std.specs.FinMap as map;
ghost use Rattle.std.specs.Option.{option_copied_mut};
ghost use Rattle.aas_store.specs.DocumentStore.{documents, with_table};
ghost use Rattle.aas_store.specs.Documents.{empty};

use crate::laying::lay_out;
use crate::shelf::Shelf;
use crate::store::Store;
use crate::table::Table;
use aas_model::{
    Collection, Concept, Duplicate, Element, Environment, NoMemory, Patch, Path, Shell, Submodel,
};
use std::alloc::Global;

/// A store that keeps each submodel as a table.
///
/// A look-up of a document costs the logarithm of the collection's size, or one comparison where its identifier is
/// above all others. A put and a delete also move 32 bytes for each document behind the one that they meet; `put_all`
/// moves each document once for all that it puts in. What is read of a submodel, and an edit of it, cost what they cost
/// its table.
#[derive(Drop)]
pub struct DocumentStore<T> {
    shells: Shelf<Shell>,
    submodels: Shelf<T>,
    concepts: Shelf<Concept>,
}

impl<T: Table> DocumentStore<T> {
    ghost use Rattle.aas_store.specs.contracts.document_store.DocumentStore.{the_row};

    /// A store of no documents, which takes no memory.
    pub fn new(alloc: Global) -> DocumentStore<T>
        ensures { documents T.kept result ≡ empty }
    {
        DocumentStore {
            shells: Shelf::new(alloc),
            submodels: Shelf::new(alloc),
            concepts: Shelf::new(alloc),
        }
    }

    /// The stored submodel of the identifier, to be written in place.
    pub fn table_mut(&mut self, id: &str) -> Option<&mut T>
        ensures* writes_back { sem 𝓛 (LendsIf (the_row T.row) T.row self.entry result (with_table self.old id.now) self.old) }
        ensures value { option_copied_mut result ≡ map.get self.old.submodels id.now }
    {
        self.submodels.get_mut(id)
    }
}

impl<T: Table> Store for DocumentStore<T> {
    ghost documents = { documents T.kept };

    #[tactic(auto, using(crate::proofs::KeptAll::len_kept))]
    fn count(&self, collection: Collection) -> u64 {
        let count = match collection {
            Collection::Shells => self.shells.len(),
            Collection::Submodels => self.submodels.len(),
            Collection::Concepts => self.concepts.len(),
        };
        count as u64
    }

    #[tactic(auto, using(crate::proofs::KeptAll::has_kept))]
    fn has(&self, collection: Collection, id: &str) -> bool {
        match collection {
            Collection::Shells => self.shells.get(id).is_some(),
            Collection::Submodels => self.submodels.get(id).is_some(),
            Collection::Concepts => self.concepts.get(id).is_some(),
        }
    }

    #[tactic(auto, using(crate::proofs::KeptAll::keys_kept))]
    fn id_after(&self, collection: Collection, after: Option<&str>) -> Option<&str> {
        match collection {
            Collection::Shells => self.shells.id_after(after),
            Collection::Submodels => self.submodels.id_after(after),
            Collection::Concepts => self.concepts.id_after(after),
        }
    }

    fn shell(&self, id: &str) -> Option<&Shell> {
        self.shells.get(id)
    }

    fn concept(&self, id: &str) -> Option<&Concept> {
        self.concepts.get(id)
    }

    type Table = T;

    #[tactic(auto, using(crate::proofs::KeptAll::get_kept))]
    fn table(&self, id: &str) -> Option<&T> {
        self.submodels.get(id)
    }

    fn put_shell(&mut self, shell: Shell) -> Result<(), NoMemory> {
        match shell.head.id.copy() {
            Ok(id) => self.shells.put(id, shell),
            Err(NoMemory) => {
                drop(shell);
                Err(NoMemory)
            }
        }
    }

    fn put_submodel(&mut self, submodel: Submodel) -> Result<(), NoMemory> {
        let id = submodel.head.id.copy()?;
        let table = T::from_submodel(submodel)?;
        self.submodels.put(id, table)
    }

    fn put_concept(&mut self, concept: Concept) -> Result<(), NoMemory> {
        match concept.head.id.copy() {
            Ok(id) => self.concepts.put(id, concept),
            Err(NoMemory) => {
                drop(concept);
                Err(NoMemory)
            }
        }
    }

    fn put_all(&mut self, environment: Environment) -> Result<(), NoMemory> {
        let tables = lay_out(environment.submodels)?;
        let shells = self.shells.overlay(environment.shells)?;
        let submodels = self.submodels.overlay(tables)?;
        let concepts = self.concepts.overlay(environment.concepts)?;
        self.shells.lay_over(shells);
        self.submodels.lay_over(submodels);
        self.concepts.lay_over(concepts);
        Ok(())
    }

    #[tactic(auto, using(crate::proofs::KeptAll::remove_kept))]
    fn delete(&mut self, collection: Collection, id: &str) {
        match collection {
            Collection::Shells => self.shells.remove(id),
            Collection::Submodels => self.submodels.remove(id),
            Collection::Concepts => self.concepts.remove(id),
        }
    }

    fn insert_element(&mut self, id: &str, path: &Path, element: Element) -> Result<(), NoMemory> {
        match self.submodels.get_mut(id) {
            Some(table) => table.insert(path, element),
            None => {
                drop(element);
                Ok(())
            }
        }
    }

    fn replace_element(&mut self, id: &str, path: &Path, element: Element) -> Result<(), NoMemory> {
        match self.submodels.get_mut(id) {
            Some(table) => table.replace(path, element),
            None => {
                drop(element);
                Ok(())
            }
        }
    }

    fn delete_element(&mut self, id: &str, path: &Path) -> Result<(), NoMemory> {
        match self.submodels.get_mut(id) {
            Some(table) => {
                table.remove(path);
                Ok(())
            }
            None => Ok(()),
        }
    }

    fn update(&mut self, id: &str, path: &Path, rank: Option<u64>, patch: Patch) {
        match self.submodels.get_mut(id) {
            Some(table) => table.update(path, rank, patch),
            None => drop(patch),
        }
    }
}
