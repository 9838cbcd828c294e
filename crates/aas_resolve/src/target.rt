use aas_model::Collection;
use thiserror::Error;

/// To what a reference leads: a document of a collection, whose identifier
/// is the value of the reference's first key, or an element of it.
#[derive(Clone, Copy, PartialEq, Eq)]
pub struct Target {
    pub collection: Collection,
    /// The element's place in preorder, an element before those below it, counted from the submodel's first child on;
    /// `None` for the document itself.
    pub rank: Option<u64>,
}

/// A reference leads nowhere.
#[derive(Clone, Copy, Debug, Drop, PartialEq, Eq, Error)]
#[error("the reference leads nowhere at its key {key}")]
pub struct Unresolved {
    /// The first key that leads nowhere, counted from 0. It is 0 for an ExternalReference and where there is no key.
    pub key: usize,
}
