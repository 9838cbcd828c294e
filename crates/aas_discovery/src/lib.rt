//! Shells found by what their assets carry: a store with an index beside it (IDTA-01002-3-0, Asset Administration Shell
//! Basic Discovery).
//!
//! What a store holds is said by `aas_store`, and what an asset carries by `aas_page`. The index lies in memory, and
//! nothing of it is kept for a later run.
//!
//! Proved, by the contract of `IndexedStore` and of the trait `Lookup`, over any store:
//!
//! - Under each name and value the index has exactly the identifiers of the shells that carry them, from an empty
//!   store on and behind every call. This is the type's invariant.
//! - `ids` gives these identifiers in byte order, and `None` exactly where there is none.
//! - `lookup` gives a page of the shells that carry the name and the value of each wanted specific asset id, as the
//!   filter of `aas_page` does, and says whether a further one follows.
//! - An indexed store keeps each promise of `Store` and asks for nothing that it doesn't ask for.
//! - A refused call changes neither the documents nor the index.

#![tactic(auto)]

mod entry;
mod finding;
mod ids;
mod index;
mod indexed_store;
mod listing;
mod lookup;

pub use indexed_store::IndexedStore;
pub use lookup::Lookup;
