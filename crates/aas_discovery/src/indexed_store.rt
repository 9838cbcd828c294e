ghost use Rattle.std.specs.Prelude.{◌≡◌, map, option_map};
ghost use Rattle.std.specs.Option.{option_copied};
ghost use Rattle.std.specs.Str.{encode_utf8_all};
ghost use Rattle.aas_store.specs.Documents.{empty};
ghost use Rattle.aas_discovery.specs.Carriers.{carriers, if_any};
ghost use Rattle.aas_discovery.specs.Index.{IsPosting};

use crate::entry::{list_all_touched, list_touched, sort};
use crate::ids::Ids;
use crate::listing::{add_each, forget, settle};
use aas_model::{
    Collection, Concept, Element, Environment, Many, NoMemory, Patch, Path, Shell, Submodel, Text,
};
use aas_store::{Shelf, Store};
use std::alloc::Global;
use std::marker::Model;

/// A store with an index from what assets carry, by name and value, to the identifiers of their shells.
///
/// A call that puts or deletes a shell makes for each name and value, old and new, two binary searches in the index
/// and one among the identifiers there. What is added or taken out moves 24 bytes for each identifier behind its place,
/// and, where it is the first or the last of its value, 32 bytes for each value of the name behind that one. `put_all`
/// sorts what it adds before, so that in an empty store nothing is moved. All other calls cost what they cost in the
/// store within.
#[derive(Drop)]
pub struct IndexedStore<S: Store> {
    inner: S,
    index: Shelf<Shelf<Ids>>,
}

impl<S: Store> Model for IndexedStore<S> {
    ghost use Rattle.aas_discovery.specs.Index.{IsIndexOf};

    ghost Value = { S };

    ghost coded = { S.code };

    ghost view = { λ store. store.inner };

    ghost invariant = { λ store. IsIndexOf store.index (S.documents store.inner).shells };
}

impl<S: Store> IndexedStore<S> {
    /// The store, which has no documents, with an index. It takes no memory.
    pub fn new(alloc: Global, inner: S) -> IndexedStore<S>
        requires { S.documents inner ≡ empty }
        ensures { result ≡ inner }
    {
        IndexedStore {
            inner,
            index: Shelf::new(alloc),
        }
    }

    /// The identifiers, in byte order, of the shells that carry the name and the value. `None` exactly where there is
    /// none. It takes no memory and makes two binary searches.
    pub fn ids(&self, name: &str, value: &str) -> Option<&Many<Text>>
        ensures { option_map (map encode_utf8_all) (option_copied result)
            ≡ if_any (carriers name.now value.now (S.documents self.now).shells) }
    {
        match self.posting(name, value) {
            Some(ids) => ids.if_any(),
            None => None,
        }
    }

    /// What the index has under the name and the value.
    pub(crate) fn posting(&self, name: &str, value: &str) -> Option<&Ids>
        ensures { IsPosting (S.documents self.now).shells name.now value.now (option_copied result) }
    {
        match self.index.get(name) {
            Some(values) => values.get(value),
            None => None,
        }
    }
}

impl<S: Store> Store for IndexedStore<S> {
    ghost documents = { S.documents };

    fn count(&self, collection: Collection) -> u64 {
        self.inner.count(collection)
    }

    fn has(&self, collection: Collection, id: &str) -> bool {
        self.inner.has(collection, id)
    }

    fn id_after(&self, collection: Collection, after: Option<&str>) -> Option<&str> {
        self.inner.id_after(collection, after)
    }

    fn shell(&self, id: &str) -> Option<&Shell> {
        self.inner.shell(id)
    }

    fn concept(&self, id: &str) -> Option<&Concept> {
        self.inner.concept(id)
    }

    type Table = S::Table;

    fn table(&self, id: &str) -> Option<&S::Table> {
        self.inner.table(id)
    }

    fn put_shell(&mut self, shell: Shell) -> Result<(), NoMemory> {
        let alloc = shell.submodels.alloc();
        let mut touched = Many::new(alloc);
        list_touched(&self.inner, &shell, &mut touched)?;
        let put = match add_each(alloc, &mut self.index, touched.as_slice()) {
            Ok(()) => self.inner.put_shell(shell),
            Err(NoMemory) => {
                drop(shell);
                Err(NoMemory)
            }
        };
        settle(&mut self.index, touched.as_slice(), &self.inner);
        put
    }

    fn put_submodel(&mut self, submodel: Submodel) -> Result<(), NoMemory> {
        self.inner.put_submodel(submodel)
    }

    fn put_concept(&mut self, concept: Concept) -> Result<(), NoMemory> {
        self.inner.put_concept(concept)
    }

    fn put_all(&mut self, environment: Environment) -> Result<(), NoMemory> {
        let alloc = environment.shells.alloc();
        let mut touched = Many::new(alloc);
        list_all_touched(&self.inner, environment.shells.as_slice(), &mut touched)?;
        sort(&mut touched);
        let put = match add_each(alloc, &mut self.index, touched.as_slice()) {
            Ok(()) => self.inner.put_all(environment),
            Err(NoMemory) => {
                drop(environment);
                Err(NoMemory)
            }
        };
        settle(&mut self.index, touched.as_slice(), &self.inner);
        put
    }

    fn delete(&mut self, collection: Collection, id: &str) {
        match collection {
            Collection::Shells => {
                if let Some(shell) = self.inner.shell(id) {
                    forget(&mut self.index, &shell.asset, id);
                }
            }
            Collection::Submodels => {},
            Collection::Concepts => {},
        }
        self.inner.delete(collection, id);
    }

    fn insert_element(&mut self, id: &str, path: &Path, element: Element) -> Result<(), NoMemory> {
        self.inner.insert_element(id, path, element)
    }

    fn replace_element(&mut self, id: &str, path: &Path, element: Element) -> Result<(), NoMemory> {
        self.inner.replace_element(id, path, element)
    }

    fn delete_element(&mut self, id: &str, path: &Path) -> Result<(), NoMemory> {
        self.inner.delete_element(id, path)
    }

    fn update(&mut self, id: &str, path: &Path, rank: Option<u64>, patch: Patch) {
        self.inner.update(id, path, rank, patch);
    }
}
