ghost use Rattle.std.specs.Prelude.{refl};

use crate::sheet::Sheet;
use aas_model::{Element, Missing, NoMemory, Patch, Path, Reference, Submodel, Text};
use aas_rows::RowView;
use aas_store::{Lack, Spot, StepRef, Table};

impl Table for Sheet {
    ghost kept = { λ s. s };

    fn from_submodel(submodel: Submodel) -> Result<Sheet, NoMemory> {
        Sheet::from_submodel(submodel)
    }

    fn submodel(&self) -> Result<Submodel, NoMemory> {
        self.submodel()
    }

    fn head(&self) -> &Submodel {
        self.head()
    }

    fn child_count(&self) -> u64 {
        self.child_count() as u64
    }

    fn element_count(&self) -> u64 {
        self.element_count() as u64
    }

    fn row(&self, rank: u64) -> Option<RowView<'_>> {
        self.row(rank as usize)
    }

    fn child_rank(&self, place: u64) -> Option<u64> {
        match self.child_rank(place) {
            Some(rank) => Some(rank as u64),
            None => None,
        }
    }

    fn child(&self, parent: Option<u64>, step: StepRef<'_>) -> Option<Spot> {
        self.child(parent, step)
    }

    fn find_row(&self, path: &Path) -> Result<(u64, RowView<'_>), Missing> {
        match self.find_row(path) {
            Ok((rank, row)) => Ok((rank as u64, row)),
            Err(missing) => Err(missing),
        }
    }

    fn element(&self, path: &Path) -> Result<Element, Lack> {
        self.element(path)
    }

    fn has_child(&self, path: &Path, id_short: &Text) -> bool {
        self.has_child(path, id_short)
    }

    fn first_semantic_id(&self, path: &Path) -> Option<&Reference> {
        self.first_semantic_id(path)
    }

    fn insert(&mut self, path: &Path, element: Element) -> Result<(), NoMemory> {
        self.insert(path, element)
    }

    fn replace(&mut self, path: &Path, element: Element) -> Result<(), NoMemory> {
        self.replace(path, element)
    }

    fn remove(&mut self, path: &Path) {
        self.remove(path);
    }

    fn update(&mut self, path: &Path, rank: Option<u64>, patch: Patch) {
        match rank {
            Some(rank) => self.update_from(rank as usize, patch),
            None => self.update(path, patch),
        }
    }

    ghost names_itself = { λ s. refl };
}
