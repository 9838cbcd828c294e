//! Which trees are whole (`aas_json_mapping/specs/Whole.antt`): required members are there, children stand in their
//! places, names of kept data rise, and no level passes the limits. A walk over the tree tells it, without memory.
//!
//! No walk goes deeper than the limits, whatever the tree is.
//!
//! Proved: whether a tree is whole is answered exactly. By the contract of `Whole`, `is_whole_element`.

#![tactic(auto)]

mod children;
mod documents;
mod kept;
mod own;
mod parts;
mod references;
mod whole;

pub use children::is_whole_element;
pub use whole::Whole;
