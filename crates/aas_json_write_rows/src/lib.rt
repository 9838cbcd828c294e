//! Texts that are poured from rows: the text of an element or a submodel is put into an end piece by piece, and takes
//! no memory.
//!
//! An element below which nothing is shown is put at once. For any other one a walk goes over the rows in preorder. It
//! keeps which elements are open, at most 30, and which part of each follows its children; what it has put before is
//! never looked at again, and a row is asked for where it is needed.
//!
//! What the members of one element are stands in `aas_json_write_members`.
//!
//! Proved, by the contract of `pour_element`, `pour_elements`, `pour_submodel`, `pour_tree`,
//! `pour_submodel_tree`, `pour_environment_tree`; `rows_give_the_texts`, `rows_give_the_submodel`:
//!
//! - From rows in preorder the text of an element is put, with those of all below it or with its own alone,
//!   without memory, and a front of it where the end fails.
//! - The rows of trees give the texts of the trees.
//! - Of a submodel's head and the rows of its elements it is the canonical text of the submodel, or at the level Core
//!   of its core form, and without Blob values of it with no value in any Blob.
//! - From trees in memory the canonical text of an element, of a submodel and of an environment is put.

#![tactic(auto)]

mod childless;
mod children;
mod elements;
mod environment;
mod laws;
mod rows;
mod show;
mod stops;
mod submodel;
mod tree;
mod walk;

pub use elements::pour_elements;
pub use environment::{Environments, pour_environment_tree};
pub use laws::{rows_give_the_submodel, rows_give_the_texts};
pub use rows::Rows;
pub use show::show_at;
pub use submodel::pour_submodel;
pub use tree::{Elements, Submodels, pour_submodel_tree, pour_tree};
pub use walk::pour_element;
