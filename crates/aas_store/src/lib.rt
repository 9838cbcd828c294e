//! Stores: for each of the three collections a map from identifiers to documents.
//!
//! [`Store`] says what a store is, by the three maps that it holds; [`Table`] says what one submodel is as a store
//! keeps it. [`DocumentStore`] is the store over any table, and [`TreeStore`] the one that keeps trees.
//!
//! No constraint is checked here, and nothing is kept for a later run.
//!
//! Proved, by the traits `Store`, over `DocumentStore`, and `Table`, over `Tree`:
//!
//! - The content of a store is three finite maps of trees.
//! - Each read is the map's tree, or what it tells of it: its attributes without its children, how many these
//!   are.
//! - `id_after` is the least identifier above.
//! - A put creates or replaces under the document's own identifier, one of a whole environment does so with each
//!   of its documents, a delete removes, and nothing else changes.
//! - An element is found, or how far the path leads.
//! - A child's place in preorder and its kind, the row of a rank, and of a path with its rank, how many elements
//!   there are and which of them are children, and what the children of an element say before an edit, are those
//!   in the tree.
//! - An insert, replacement, deletion or patch of elements makes of its submodel what `aas_path_trees` says, and
//!   nothing else changes.
//! - A refused call changes nothing.
//! - A table that is lent for writing is the stored one, and when the loan ends only it has changed.

#![tactic(auto)]

mod document_store;
mod elements;
mod lack;
mod laying;
mod merging;
mod overlay;
mod reads;
mod rows;
mod shelf;
mod spot;
mod spots;
mod store;
mod table;
mod tree;

pub use aas_rows::RowView;
pub use document_store::DocumentStore;
pub use lack::Lack;
pub use overlay::{Identified, Overlay};
pub use shelf::Shelf;
pub use spot::{Spot, StepRef};
pub use spots::step_ref;
pub use store::Store;
pub use table::Table;
pub use tree::{Tree, TreeStore};
