//! What is told of references that lead nowhere.

use aas_model::{Collection, Path, Text};

/// A ModelReference that leads nowhere, in an attribute of a document or of an element in it.
#[derive(Drop)]
pub struct Dangling {
    /// The collection of the document.
    pub collection: Collection,
    /// The identifier of the document.
    pub id: Text,
    /// The element whose attribute it is; empty for the document itself.
    pub path: Path,
    /// The first key that leads nowhere, counted from 0.
    pub key: usize,
}
