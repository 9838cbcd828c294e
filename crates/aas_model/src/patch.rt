use crate::{Duplicate, Many, NoMemory, Payload};

/// New attributes for elements of a tree.
#[derive(Drop)]
pub struct Patch {
    /// In rising order of the ranks.
    pub rows: Many<PatchRow>,
}

impl Duplicate for Patch {
    fn copy(&self) -> Result<Patch, NoMemory> {
        Ok(Patch {
            rows: self.rows.copy()?,
        })
    }
}

/// New attributes for one element.
#[derive(Drop)]
pub struct PatchRow {
    /// The place of the element in preorder, counted from 0: in an element from the element itself, in a submodel from its
    /// first child.
    pub rank: u64,
    /// Of the kind of the element.
    pub payload: Payload,
}

impl Duplicate for PatchRow {
    fn copy(&self) -> Result<PatchRow, NoMemory> {
        Ok(PatchRow {
            rank: self.rank,
            payload: self.payload.copy()?,
        })
    }
}
