ghost use Rattle.std.specs.Prelude.{refl};
ghost use Rattle.std.specs.Str.{encode_utf8_all};

use crate::document_store::DocumentStore;
use crate::elements::{copy_at, insert_at, patch_at, remove_at, replace_at};
use crate::lack::Lack;
use crate::overlay::Identified;
use crate::spot::{Spot, StepRef};
use crate::spots::spot_below;
use crate::table::Table;
use crate::{reads, rows};
use aas_model::{Duplicate, Element, Missing, NoMemory, Patch, Path, Reference, Submodel, Text};
use aas_path::place_named;
use aas_rows::RowView;
use std::marker::Model;

/// A submodel that is kept as its tree, of at most 65,536 elements.
///
/// A step of a path by name costs the siblings that it passes, `child`, `child_rank`, `find_row` and `row` the elements
/// before the one that they look for, and `element_count` all. Only `insert` and copies take memory.
#[derive(Drop)]
pub struct Tree {
    submodel: Submodel,
}

impl Model for Tree {
    ghost use Rattle.std.specs.Prelude.{◌≤◌};
    ghost use Rattle.aas_model.specs.contracts.documents.Submodel as model;
    ghost use Rattle.aas_model.specs.declared.documents.Submodel.{Submodel};
    ghost use Rattle.aas_path_trees.specs.Patched.{element_count};

    ghost Value = { Submodel };

    ghost coded = { model.the_row.coded };

    ghost view = { λ tree. tree.submodel };

    ghost invariant = { λ tree. element_count tree.submodel ≤ 65536 };
}

/// A store that keeps each submodel as its tree.
pub type TreeStore = DocumentStore<Tree>;

impl Identified for Tree {
    ghost id_of = { λ s. encode_utf8_all s.head.id };

    fn id(&self) -> Result<Text, NoMemory> {
        self.submodel.head.id.copy()
    }
}

impl Table for Tree {
    ghost kept = { λ s. s };

    fn from_submodel(submodel: Submodel) -> Result<Tree, NoMemory> {
        Ok(Tree { submodel })
    }

    fn submodel(&self) -> Result<Submodel, NoMemory> {
        self.submodel.copy()
    }

    fn head(&self) -> &Submodel {
        &self.submodel
    }

    fn child_count(&self) -> u64 {
        self.submodel.kids.len() as u64
    }

    fn element_count(&self) -> u64 {
        reads::element_count(&self.submodel)
    }

    fn row(&self, rank: u64) -> Option<RowView<'_>> {
        rows::row_at(&self.submodel, rank)
    }

    fn child_rank(&self, place: u64) -> Option<u64> {
        reads::child_rank(&self.submodel, place)
    }

    fn child(&self, parent: Option<u64>, step: StepRef<'_>) -> Option<Spot> {
        spot_below(&self.submodel, parent, step)
    }

    fn find_row(&self, path: &Path) -> Result<(u64, RowView<'_>), Missing> {
        reads::find_row(&self.submodel, path)
    }

    fn element(&self, path: &Path) -> Result<Element, Lack> {
        copy_at(&self.submodel, path)
    }

    fn has_child(&self, path: &Path, id_short: &Text) -> bool {
        place_named(reads::children_at(&self.submodel, path), id_short).is_some()
    }

    fn first_semantic_id(&self, path: &Path) -> Option<&Reference> {
        reads::first_semantic_id(reads::children_at(&self.submodel, path))
    }

    fn insert(&mut self, path: &Path, element: Element) -> Result<(), NoMemory> {
        insert_at(&mut self.submodel, path, element)
    }

    fn replace(&mut self, path: &Path, element: Element) -> Result<(), NoMemory> {
        replace_at(&mut self.submodel, path, element);
        Ok(())
    }

    fn remove(&mut self, path: &Path) {
        remove_at(&mut self.submodel, path);
    }

    fn update(&mut self, path: &Path, _rank: Option<u64>, patch: Patch) {
        patch_at(&mut self.submodel, path, patch);
    }

    ghost names_itself = { λ s. refl };
}
