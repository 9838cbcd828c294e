//! Paths: their text, the elements to which they lead, and changes of the elements there.
//!
//! A step by name costs the siblings that it passes, a step by place costs nothing more. No call copies a tree, and none
//! but `insert`, `parse_path` and the two that print take memory.
//!
//! What a path means, and what an edit makes of a tree, is defined in `aas_path_trees`.
//!
//! Proved: paths are read and written, in UTF-8; an element is found, or how far the path leads; a lent element
//! is put back in its place and nothing else changes, at any depth; edits and patches. By the contract of
//! `parse_path`, `print_path`, `at`, `at_mut`, `insert`, `replace`, `remove`, `patch_fits`, `apply`,
//! `patch_fits_all`, `apply_all`.

#![tactic(auto)]

mod ahead;
mod edits;
mod lending;
mod lookup;
mod parsing;
mod patches;
mod path_fault;
mod printing;
mod removal;
mod runs;
mod steps;

pub use edits::{InsertFault, ReplaceFault, fits_role, insert, replace, role_within};
pub use lending::at_mut;
pub use lookup::at;
pub use parsing::parse_path;
pub use patches::{apply, apply_all, patch_fits, patch_fits_all};
pub use path_fault::PathFault;
pub use printing::{print_fault_path, print_path};
pub use removal::remove;
pub use steps::{is_list, place_named, place_of, place_within};
