ghost use Rattle.std.specs.Prelude.{◌≡◌, ◌≢◌, ◌↔◌, true, false, Some, None, All, Err, IfOk, IfSome, IsSome, MatchOption, OnErr, OnOk, is_some};
ghost use Rattle.std.specs.Prelude.{length, option_and_then, option_map, slice_get};
ghost use Rattle.std.specs.FinMap as map;
ghost use Rattle.std.specs.Option.{option_copied, option_map_or};
ghost use Rattle.aas_model.specs.declared.documents.Submodel.{Submodel};
ghost use Rattle.aas_model.specs.declared.path.Missing.{Missing};
ghost use Rattle.aas_path_trees.specs.Edits.{inserted, removed, replaced, role_at};
ghost use Rattle.aas_path_trees.specs.ElementAt.{element_at, place_named, children_at};
ghost use Rattle.aas_rows.specs.Rows.{rows_of_all};
ghost use Rattle.aas_rows.specs.Views.{line_of};
ghost use Rattle.aas_store.specs.Documents.{Documents, count, first_above, has, ids, without_children};
ghost use Rattle.aas_store.specs.Documents.{with_all, with_concept, with_shell, with_submodel, without};
ghost use Rattle.aas_store.specs.Edited.{CanReplace, FitsAt, Holds, LeadsNowhere, patched_at, with_changed};
ghost use Rattle.aas_store.specs.Reads.{IsRowOf, first_semantic_id};
ghost use Rattle.aas_store.specs.Spots.{rank_at, spot_below, step_of};
ghost use Rattle.aas_path_trees.specs.Patched.{element_count};
ghost use Rattle.aas_store.specs.Storable.{IsStorable};

use crate::lack::Lack;
use crate::spot::{Spot, StepRef};
use crate::table::Table;
use aas_model::{
    Collection, Concept, Element, Environment, NoMemory, Patch, Path, Reference, Shell, Submodel,
    Text,
};
use aas_rows::RowView;

/// Documents in three collections, each under its own identifier.
///
/// IDTA-01002-3-0, the repository interfaces. Identifiers are in the order of their UTF-8 bytes. Only the calls that
/// answer a `Result` take memory; where one of these is refused it, the documents stay as they were.
pub trait Store {
    /// What the store holds.
    ghost documents: { Self → Documents };

    /// How many documents the collection has.
    fn count(&self, collection: Collection) -> u64
        ensures { result ≡ count collection (documents self.now) };

    /// Whether the collection has a document of the identifier.
    fn has(&self, collection: Collection, id: &str) -> bool
        ensures { result ≡ has collection id.now (documents self.now) };

    /// The least identifier of the collection above `after`, or the least of all.
    fn id_after(&self, collection: Collection, after: Option<&str>) -> Option<&str>
        ensures { option_copied result ≡ first_above (option_copied after.entry) (ids collection (documents self.now)) };

    /// The shell of the identifier.
    fn shell(&self, id: &str) -> Option<&Shell>
        ensures { option_copied result ≡ map.get (documents self.now).shells id.now };

    /// The concept description of the identifier.
    fn concept(&self, id: &str) -> Option<&Concept>
        ensures { option_copied result ≡ map.get (documents self.now).concepts id.now };

    /// A copy of the submodel of the identifier.
    fn submodel(&self, id: &str) -> Result<Option<Submodel>, NoMemory>
        ensures { IfOk result (λ submodel. submodel ≡ map.get (documents self.now).submodels id.now) }
    {
        match self.table(id) {
            Some(table) => Ok(Some(table.submodel()?)),
            None => Ok(None),
        }
    }

    /// A submodel that is the one of the identifier but for its children, of which it tells nothing.
    fn submodel_head(&self, id: &str) -> Option<&Submodel>
        ensures { option_map without_children (option_copied result)
            ≡ option_map without_children (map.get (documents self.now).submodels id.now) }
    {
        match self.table(id) {
            Some(table) => Some(table.head()),
            None => None,
        }
    }

    /// A copy of the element to which the path leads in the submodel of the identifier; the empty path leads to none.
    fn element(&self, id: &str, path: &Path) -> Result<Element, Lack>
        ensures found { IfOk result (λ e. Holds (documents self.now) id.now (λ s. element_at s path.now.steps ≡ Some e)) }
        ensures no_submodel { (result ≡ Err Lack.NoSubmodel) ↔ (map.get (documents self.now).submodels id.now ≡ None) }
        ensures no_element { (m : Missing) → (result ≡ Err (Lack.NoElement m)) ↔ Holds (documents self.now) id.now (λ s. LeadsNowhere s path.now.steps m) }
    {
        match self.table(id) {
            Some(table) => table.element(path),
            None => Err(Lack::NoSubmodel),
        }
    }

    /// The child to which the step leads from the element of the rank in the submodel of the identifier, or from the
    /// submodel itself where there is no rank. `None` exactly where the submodel, the rank or the child isn't there.
    fn child(&self, id: &str, parent: Option<u64>, step: StepRef<'_>) -> Option<Spot>
        ensures { result ≡ option_and_then (λ s. spot_below s parent (step_of step.entry)) (map.get (documents self.now).submodels id.now) }
    {
        match self.table(id) {
            Some(table) => table.child(parent, step),
            None => None,
        }
    }

    /// The row of the rank in the submodel of the identifier, the element of the rank without its children. `None`
    /// exactly where the submodel or the rank isn't there.
    fn row(&self, id: &str, rank: u64) -> Option<RowView<'_>>
        ensures { option_map line_of result ≡ option_and_then (λ s. slice_get (rows_of_all s.kids 1) rank) (map.get (documents self.now).submodels id.now) }
    {
        match self.table(id) {
            Some(table) => table.row(rank),
            None => None,
        }
    }

    /// A submodel as it is stored.
    type Table: Table;

    /// The stored submodel of the identifier.
    fn table(&self, id: &str) -> Option<&Self::Table>
        ensures { option_map Self.Table.kept (option_copied result) ≡ map.get (documents self.now).submodels id.now };

    /// How many elements the submodel of the identifier has, at all levels.
    fn element_count(&self, id: &str) -> Option<u64>
        ensures { result ≡ option_map element_count (map.get (documents self.now).submodels id.now) }
    {
        match self.table(id) {
            Some(table) => Some(table.element_count()),
            None => None,
        }
    }

    /// The rank and the row of the element to which the path leads in the submodel of the identifier; the empty path
    /// leads to none.
    fn find_row(&self, id: &str, path: &Path) -> Result<(u64, RowView<'_>), Lack>
        ensures ranked { IfOk result (λ found. Holds (documents self.now) id.now (λ s. rank_at s path.now.steps ≡ Some found.0)) }
        ensures found { IfOk result (λ found. Holds (documents self.now) id.now (λ s. MatchOption (element_at s path.now.steps) ⊥ (λ e. IsRowOf e found.1))) }
        ensures no_submodel { (result ≡ Err Lack.NoSubmodel) ↔ (map.get (documents self.now).submodels id.now ≡ None) }
        ensures no_element { (m : Missing) → (result ≡ Err (Lack.NoElement m)) ↔ Holds (documents self.now) id.now (λ s. LeadsNowhere s path.now.steps m) }
        ensures memory { result ≢ Err Lack.NoMemory }
    {
        match self.table(id) {
            Some(table) => match table.find_row(path) {
                Ok(found) => Ok(found),
                Err(missing) => Err(Lack::NoElement(missing)),
            },
            None => Err(Lack::NoSubmodel),
        }
    }

    /// Whether what is at the path in the submodel of the identifier, the submodel itself at the empty path, has a
    /// child of the idShort.
    fn has_child(&self, id: &str, path: &Path, id_short: &Text) -> bool
        ensures { result ≡ option_map_or (λ s. is_some (place_named id_short.now (children_at s path.now.steps))) (map.get (documents self.now).submodels id.now) false }
    {
        match self.table(id) {
            Some(table) => table.has_child(path, id_short),
            None => false,
        }
    }

    /// The first semanticId among the children of what is at the path in the submodel of the identifier.
    fn first_semantic_id(&self, id: &str, path: &Path) -> Option<&Reference>
        ensures { option_copied result ≡ option_and_then (λ s. first_semantic_id (children_at s path.now.steps)) (map.get (documents self.now).submodels id.now) }
    {
        match self.table(id) {
            Some(table) => table.first_semantic_id(path),
            None => None,
        }
    }

    /// Puts the shell under its identifier, in the place of one that is there.
    fn put_shell(&mut self, shell: Shell) -> Result<(), NoMemory>
        ensures ok { OnOk result (documents self.new ≡ with_shell (documents self.old) shell) }
        ensures err { OnErr result (documents self.new ≡ documents self.old) };

    /// Puts the submodel under its identifier, in the place of one that is there.
    fn put_submodel(&mut self, submodel: Submodel) -> Result<(), NoMemory>
        requires { IsStorable submodel }
        ensures ok { OnOk result (documents self.new ≡ with_submodel (documents self.old) submodel) }
        ensures err { OnErr result (documents self.new ≡ documents self.old) };

    /// Puts the concept description under its identifier, in the place of one that is there.
    fn put_concept(&mut self, concept: Concept) -> Result<(), NoMemory>
        ensures ok { OnOk result (documents self.new ≡ with_concept (documents self.old) concept) }
        ensures err { OnErr result (documents self.new ≡ documents self.old) };

    /// Puts each document of the environment under its own identifier, in the place of one that is there: all of them,
    /// or none where memory is refused.
    fn put_all(&mut self, environment: Environment) -> Result<(), NoMemory>
        requires { All IsStorable environment.submodels }
        ensures ok { OnOk result (documents self.new ≡ with_all (documents self.old) environment) }
        ensures err { OnErr result (documents self.new ≡ documents self.old) };

    /// Takes the document of the identifier, which is there, out of the collection.
    fn delete(&mut self, collection: Collection, id: &str)
        requires { has collection id.now (documents self.old) ≡ true }
        ensures { documents self.new ≡ without collection id.now (documents self.old) };

    /// Adds the element as the last child of what is at the path in the submodel of the identifier, the submodel itself
    /// at the empty path. It has the role that its new parent gives it.
    fn insert_element(&mut self, id: &str, path: &Path, element: Element) -> Result<(), NoMemory>
        requires takes { Holds (documents self.old) id.now (λ s. IsSome (role_at s path.now.steps element)) }
        requires storable { Holds (documents self.old) id.now (λ s. IsStorable (inserted s path.now.steps element)) }
        ensures ok { OnOk result (documents self.new ≡ with_changed (documents self.old) id.now (λ s. inserted s path.now.steps element)) }
        ensures err { OnErr result (documents self.new ≡ documents self.old) };

    /// Puts the element in the place and the role of the one at the path in the submodel of the identifier.
    fn replace_element(&mut self, id: &str, path: &Path, element: Element) -> Result<(), NoMemory>
        requires fits { Holds (documents self.old) id.now (λ s. CanReplace s path.now.steps element) }
        requires storable { Holds (documents self.old) id.now (λ s. IsStorable (replaced s path.now.steps element)) }
        ensures ok { OnOk result (documents self.new ≡ with_changed (documents self.old) id.now (λ s. replaced s path.now.steps element)) }
        ensures err { OnErr result (documents self.new ≡ documents self.old) };

    /// Takes the element at the path, which is there, out of the submodel of the identifier.
    fn delete_element(&mut self, id: &str, path: &Path) -> Result<(), NoMemory>
        requires { Holds (documents self.old) id.now (λ s. IsSome (element_at s path.now.steps)) }
        ensures ok { OnOk result (documents self.new ≡ with_changed (documents self.old) id.now (λ s. removed s path.now.steps)) }
        ensures err { OnErr result (documents self.new ≡ documents self.old) };

    /// Patches the element at the path in the submodel of the identifier, the submodel itself at the empty path. An
    /// element whose rank is given isn't sought.
    fn update(&mut self, id: &str, path: &Path, rank: Option<u64>, patch: Patch)
        requires ranked { IfSome rank (λ r. Holds (documents self.old) id.now (λ s. rank_at s path.now.steps ≡ Some r)) }
        requires fits { Holds (documents self.old) id.now (λ s. FitsAt s path.now.steps patch.rows) }
        ensures { documents self.new ≡ with_changed (documents self.old) id.now (λ s. patched_at s path.now.steps patch.rows) };
}
