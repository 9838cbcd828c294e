//! The constraints of IDTA-01001-3-0: the first fault of a document or an element.
//!
//! The rules themselves stand in `aas_constraint_rules`, the checks of parts in `aas_constraint_parts`.
//!
//! Proved: the first fault of an element, a submodel, a shell or a concept description: in preorder, and there
//! the least number; the first that an element has by itself, wherever it stands, and the least number that the
//! attributes of its kind break; and the first of an element that comes last among the children of its parent. By
//! the contract of `check_element`, `check_submodel`, `check_shell`, `check_concept`, `local_fault`,
//! `payload_fault`, `check_child`.

#![tactic(auto)]

mod check;
mod demands;
mod documents;
mod element;
mod place;

pub use check::{
    check_child, check_concept, check_element, check_shell, check_submodel, local_fault,
};
pub use demands::{list_type, list_value_type, value_type_of};
pub use documents::is_template;
pub use element::payload_fault;
pub use place::step_to;
