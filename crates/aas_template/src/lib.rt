//! Whether a submodel conforms to a template, a submodel of kind Template: which of its elements belong to which of the
//! template's, and the first difference between them.
//!
//! Proved: the first difference of a submodel from a template, and none exactly where it conforms to it; a
//! submodel without faults in which no list has two children conforms to itself. By the contract of `conforms`;
//! `submodels_conform_to_themselves`.

#![tactic(auto)]

mod belonging;
mod cardinality;
mod difference;
mod groups;
mod index;
mod laws;
mod own;
mod walk;

pub use difference::{Difference, Reason};
pub use laws::submodels_conform_to_themselves;
pub use walk::conforms;
