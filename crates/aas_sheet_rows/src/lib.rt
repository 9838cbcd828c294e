//! One submodel as a table of rows in preorder: its elements without their children, each at its level.
//!
//! [`Sheet`] reads and changes one row without a look at the others but those that a path passes.
//!
//! The store of many stands in `aas_sheet`, the column beside the rows in `aas_sheet_index`.
//!
//! Proved, by the contract of `Sheet`, its trait `aas_store::Table`, `others_stay`:
//!
//! - A table made of a submodel stands for it.
//! - What is read of it, the submodel, an element by its path or its rank, a row, a child, how far a path leads,
//!   is what its tree says.
//! - A patch is the patch of the tree, with no memory taken.
//! - An element that is added, replaced or taken out is so in the tree, and where memory is refused nothing
//!   changes.
//! - A row that is lent for writing changes nothing but what it says of its element, its idShort and its level
//!   aside.

#![tactic(auto)]

mod editing;
mod finding;
mod growing;
mod identified;
mod laws;
mod laying;
mod payloads;
mod reading;
mod row;
mod sheet;
mod table;
mod tree;

pub use laws::others_stay;
pub use row::Row;
pub use sheet::Sheet;
